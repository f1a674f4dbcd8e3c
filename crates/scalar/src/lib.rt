// Numbers: greater, lesser, clamped, magnitude, sign, bits, ranges, and the arc cosine.

#![tactic(auto)]

ghost use Rattle.std.specs.Prelude.{◌≡◌};
ghost use Rattle.std.specs.Float.{binary32};
ghost use Rattle.std.specs.Float.Ieee.{of_bits, to_bits};
ghost use Rattle.scalar.specs.Extremes.{fmax, fmin, at_least, at_most, clamp_of};
ghost use Rattle.scalar.specs.Signs.{abs_of, signum_of};
ghost use Rattle.scalar.specs.Ranges.{between, magnitude};
ghost use Rattle.scalar.specs.Acos.{poly, side, acos_of};

// Not std's: it leaves open which of two zeros it gives.
pub fn max(a: f32, b: f32) -> f32
    ensures { result ≡ fmax a b }
{
    if a > b {
        return a;
    }
    if b == b {
        return b;
    }
    a
}

#[tactic(auto, unfolding(crate::specs::Extremes::fmin))]
pub fn min(a: f32, b: f32) -> f32
    ensures { result ≡ fmin a b }
{
    if a < b {
        return a;
    }
    if b == b {
        return b;
    }
    a
}

fn at_least(x: f32, lo: f32) -> f32
    ensures { result ≡ at_least x lo }
{
    if x < lo { lo } else { x }
}

fn at_most(x: f32, hi: f32) -> f32
    ensures { result ≡ at_most x hi }
{
    if x > hi { hi } else { x }
}

// Keeps a NaN, as Rust's does. Not std's, which asks that lo is at most hi.
pub fn clamp(x: f32, lo: f32, hi: f32) -> f32
    ensures { result ≡ clamp_of x lo hi }
{
    at_most(at_least(x, lo), hi)
}

pub fn abs(x: f32) -> f32
    ensures { result ≡ abs_of x }
{
    x.abs()
}

// Minus zero's is -1, and a NaN's the NaN.
pub fn signum(x: f32) -> f32
    ensures { result ≡ signum_of x }
{
    x.signum()
}

// The float of a word, every NaN's too. With the sign off a NaN's is one compare, where a table is converted; the sign
// is masked and not shifted out, as x86-64 compares four signed words at once and no others.
pub fn float(w: u32) -> f32
    ensures { result ≡ of_bits binary32 w }
{
    if w & 0x7fff_ffff > 0x7f80_0000 {
        return 0.0 / 0.0;
    }
    f32::from_bits(w)
}

// The word of a float: one and the same for every NaN.
pub fn bits(x: f32) -> u32
    ensures { result ≡ to_bits binary32 x }
{
    if x == x {
        return f32::to_bits(x);
    }
    0x7fc0_0000
}

#[tactic(auto, unfolding(crate::specs::Ranges::between))]
pub fn between(lo: f32, x: f32, hi: f32) -> bool
    ensures { result ≡ between lo x hi }
{
    if lo <= x {
        return x <= hi;
    }
    false
}

// Finite and at most `most` in magnitude, for a `most` that is finite.
#[tactic(auto, unfolding(crate::specs::Ranges::magnitude))]
pub fn magnitude(x: f32, most: f32) -> bool
    ensures { result ≡ magnitude x most }
{
    between(-most, x, most)
}

// The polynomial of degree seven of Abramowitz and Stegun 4.4.46, from the top.
fn poly(x: f32) -> f32
    ensures { result ≡ poly x }
{
    let p = -0.0012624911 * x + 0.0066700901;
    let p = p * x + -0.0170881256;
    let p = p * x + 0.0308918810;
    let p = p * x + -0.0501743046;
    let p = p * x + 0.0889789874;
    let p = p * x + -0.2145988016;
    p * x + 1.5707963050
}

#[tactic(auto, unfolding(crate::specs::Acos::side))]
fn side(x: f32) -> f32
    ensures { result ≡ side x }
{
    root::root(1.0 - x) * poly(x)
}

// The arc cosine, for an x from -1 to 1.
pub fn acos(x: f32) -> f32
    ensures { result ≡ acos_of x }
{
    if x >= 0.0 {
        return side(x);
    }
    3.14159274 - side(-x)
}
