// Tests of roots that take none, or few: a root against a bound, two roots, a root against a guess.

#![tactic(auto)]

ghost use Rattle.std.specs.Prelude.{◌≡◌, true, T};
ghost use Rattle.std.specs.Float.{binary32};
ghost use Rattle.std.specs.Float.Ieee.{fits, le};
ghost use Rattle.std.specs.Float.Ieee.Scale.{finite};
ghost use Rattle.root.specs.Root.{root_of};
ghost use Rattle.float_order.specs.Inside.Order.{zero_f};
ghost use Rattle.root_tests.specs.Inside.Tests.{usual, far_off, left_first, limit_of};

// Whether x is above zero and finite.
#[tactic(auto, unfolding(crate::specs::Inside::Tests::usual))]
fn usual(x: f32) -> bool
    ensures { result ≡ usual x }
{
    if x > 0.0 {
        return x <= 3.4028235e38;
    }
    false
}

// What the square of a distance is held against, in place of its root against d.
pub fn limit(d: f32) -> f64
    ensures { result ≡ limit_of d }
{
    if d > 0.0 {
        return root::bar(d);
    }
    if d <= 0.0 {
        return 0.0;
    }
    0.0 / 0.0
}

// Whether the root of s, an f32's value, is at least d, whose limit is at hand.
pub fn far_off(s: f64, d: f32, lim: f64) -> bool
    ensures { lim ≡ limit_of d → T (fits binary32 s) → result ≡ far_off s d }
{
    lim <= s
}

// Whether the root of l is less than that of r, where neither is below zero, and a and b are they, held as f64. Roots
// are taken only where the two are all but equal: where r is at least l and a millionth of it, worked out in f64, which
// holds it, their roots are apart too.
pub fn left_first(l: f32, r: f32, a: f64, b: f64) -> bool
    ensures { a ≡ l → b ≡ r → T (le zero_f l) → T (le zero_f r) → result ≡ left_first l r }
{
    if b <= a {
        return false;
    }
    if a * 1.00000095367431640625 <= b {
        return true;
    }
    root::root(l) < root::root(r)
}

// A guess at the root of x, the right one 98 times in 100. Its first twelve digits s are a line through the bits of x,
// so that their square q is exact; the others are s (x - q) by a quotient of squares, which takes one division. Nothing
// rests on it but time.
fn root_guess(x: f32) -> f32 {
    if usual(x) {
        let s = f32::from_bits((f32::to_bits(x) >> 13 << 12) + 0x1fbd_1000);
        let q = s * s;
        let n = s * (x - q) * ((x + q) * 4.0);
        return s + n / (q * 5.0 * q + (x * 10.0 * q + x * x));
    }
    0.0
}

// Whether r is the root of x, by squares alone: x is at least the limit of r, and below that of the next f32. A `false`
// tells nothing.
fn is_root(x: f32, r: f32) -> bool
    ensures { result ≡ true → r ≡ root_of x }
{
    if usual(x) {
        if r > 0.0 {
            let b = f32::to_bits(r);
            if b < 0x7f7f_ffff {
                if root::at_least(x, root::bar(r)) {
                    return !root::at_least(x, root::bar(f32::from_bits(b + 1)));
                }
            }
        }
    }
    false
}

// The root of x, for those who take many: a guess, or its digits where the guess is not the root.
pub fn quick_root(x: f32) -> f32
    ensures { result ≡ root_of x }
{
    let r = root_guess(x);
    if is_root(x, r) {
        return r;
    }
    root::root(x)
}

// Whether the root of q is finite and at least w: by the square of w, which an f64 holds. A `false` tells nothing.
pub fn reaches(q: f32, w: f32) -> bool
    ensures { result ≡ true → T (finite (root_of q)) × T (le w (root_of q)) }
{
    if q <= 3.4028235e38 {
        if w == w {
            return w as f64 * w as f64 <= q as f64;
        }
    }
    false
}

// Whether the root of q is finite and at most w. A `false` tells nothing.
pub fn stays(q: f32, w: f32) -> bool
    ensures { result ≡ true → T (finite (root_of q)) × T (le (root_of q) w) }
{
    if usual(q) {
        if usual(w) {
            return q as f64 <= w as f64 * w as f64;
        }
    }
    false
}
