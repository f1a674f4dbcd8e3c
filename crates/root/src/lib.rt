// The square root of an f32, correctly rounded, worked out from its bits.

#![tactic(auto)]

ghost use Rattle.std.specs.Prelude.{◌≡◌, ℕ, ◌+◌, ◌*◌, ◌/◌, ◌%◌, ◌<◌};
ghost use Rattle.root.specs.Root.{val, root_bits, root_of};
ghost use Rattle.std.specs.Float.Ieee.{le};
ghost use Rattle.root.specs.Inside.Bar.{bar_of};
ghost use Rattle.root.specs.Inside.Steps.{expo, digs, Scaled, Remains, Nearest};

// What the steps to a root hold: `twice`, double the digits found, and `left`, what their square leaves of the number,
// counted in places of the next digit.
#[derive(Clone, Copy)]
struct Rest {
    left: u32,
    twice: u32,
}

// One digit more, at `bit`. It makes the square grow by twice + bit, counted as `left` is; where that is more than is
// left, the digit is 0. What remains is brought down a place.
// Written as selects, with `left` doubled beside the test and not after it: each step waits for the one before.
fn step(r: Rest, bit: u32) -> Rest
    ensures { (n : ℕ) → Remains n r.left r.twice (bit + bit) → Remains n result.left result.twice bit }
{
    let t = std::num::wrapping_add_u32(r.twice, bit);
    let mut twice = std::num::wrapping_add_u32(t, bit);
    let mut square = t << 1;
    if r.left < t {
        twice = r.twice;
        square = 0;
    }
    Rest {
        left: std::num::wrapping_sub_u32(r.left << 1, square),
        twice: twice,
    }
}

// 24 digits, of half the root of m * 2 ^ 25, and what remains.
fn steps(m: u32) -> Rest
    ensures { m < 33554432 → Remains (m * 33554432) result.left result.twice 1 }
{
    let mut r = Rest { left: m, twice: 0 };
    for k in (0..24u32).rev() {
        r = step(r, 1 << k);
    }
    r
}

// Half the root of m * 2 ^ 25, to the nearest by what remains. There is no tie: twice + 1 has an odd square, m * 2 ^ 25
// is even.
fn rounded(m: u32) -> u32
    ensures { 0 < m → m < 33554432 → Nearest (m * 33554432) result }
{
    let r = steps(m);
    let q = r.twice >> 1;
    if r.twice < r.left { q + 1 } else { q }
}

// The exponent's field of the bits b, and 1 where it is 0.
fn exponent(b: u32) -> u32
    ensures { result ≡ expo (b / 8388608) }
{
    let f = b >> 23;
    if f == 0 { 1 } else { f }
}

// The digits of the bits b, the leading one among them.
fn digits(b: u32) -> u32
    ensures { result ≡ digs (b / 8388608) (b % 8388608) }
{
    let t = b & 0x7f_ffff;
    if b >> 23 == 0 { t } else { t + 0x80_0000 }
}

// The digits, doubled where that makes what is left of the exponent even.
fn scaled(b: u32) -> u32
    ensures { (result < 33554432) × Scaled b (result * 33554432) ((expo (b / 8388608) + 1) / 2 + 62) }
{
    let m = digits(b);
    if exponent(b) & 1 == 0 { m << 1 } else { m }
}

// The bits of the root of the f32 with the bits b, for one that is finite and not negative.
fn root_bits(b: u32) -> u32
    ensures { (result < 2139095040) × (b < 2139095040 → result ≡ root_bits (val b)) }
{
    if b == 0 {
        return 0;
    }
    if b >= 0x7f80_0000 {
        return 0;
    }
    let mut m = scaled(b);
    let mut j = ((exponent(b) + 1) >> 1) + 62;
    // Not counted: a turn for every two zeros before a subnormal's digits.
    while m < 0x80_0000 {
        m = m << 2;
        j = j - 1;
    }
    (j << 23) + rounded(m)
}

// The f32 nearest to the root of x. A zero and the infinity are their own; what is below zero has none.
pub fn root(x: f32) -> f32
    ensures { result ≡ root_of x }
{
    if x > 0.0 {
        let b = f32::to_bits(x);
        if b < 0x7f80_0000 {
            return f32::from_bits(root_bits(b));
        }
        return x;
    }
    if x == 0.0 {
        return x;
    }
    0.0 / 0.0
}

// The square of the midpoint of b and the f32 just below, exact: the root of x is at least b where x is at least that.
pub fn bar(b: f32) -> f64
    ensures { result ≡ bar_of b }
{
    if b > 0.0 {
        let p = f32::to_bits(b);
        let a = f32::from_bits(p - 1);
        let m = (a as f64 + b as f64) * 0.5;
        return m * m;
    }
    0.0
}

// Whether x is at least t.
pub fn at_least(x: f32, t: f64) -> bool
    ensures { result ≡ le t x }
{
    if x == x {
        return t <= x as f64;
    }
    false
}
