// Numbers as the report prints them: to the nearest thousandth, halves up.
use std::fmt;

// Whole thousandths, printed with three places after the point.
#[derive(Clone, Copy, Debug, PartialEq, Eq, PartialOrd, Ord)]
pub struct Thousandths(pub u64);

// From the float's bits alone: a normal float is (2^23 + m) 2^(e - 150). The sign is dropped, and what is above 2^24
// counts as that.
impl From<f32> for Thousandths {
    fn from(x: f32) -> Thousandths {
        let bits = scalar::bits(x);
        let e = bits / 0x80_0000 % 256;
        let m = bits % 0x80_0000;
        match e {
            0 => Thousandths(0),
            1..=150 => {
                // 2000 * 2^24 has 35 bits, so a longer shift leaves 0 as well.
                let twice = 2000 * (0x80_0000 + u64::from(m)) >> (150 - e).min(63);
                Thousandths(twice / 2 + twice % 2)
            }
            _ => Thousandths(16_777_216_000),
        }
    }
}

impl fmt::Display for Thousandths {
    fn fmt<W: fmt::Write>(&self, f: &mut fmt::Formatter<W>) -> fmt::Result {
        let whole = self.0 / 1000;
        let rest = self.0 % 1000;
        // The point and three places take four of the width.
        let width = f.width().unwrap_or(0).saturating_sub(4);
        write!(f, "{whole:>width$}.{rest:03}")
    }
}

// A float to the nearest thousandth.
pub fn rounded(x: f32) -> Thousandths {
    Thousandths::from(x)
}

// A length to the millimetre.
#[derive(Clone, Copy)]
pub struct Metres(pub f32);

impl fmt::Display for Metres {
    fn fmt<W: fmt::Write>(&self, f: &mut fmt::Formatter<W>) -> fmt::Result {
        write!(f, "{} m", rounded(self.0))
    }
}
