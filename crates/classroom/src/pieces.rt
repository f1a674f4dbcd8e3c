// Solids and pieces by value, and how they are written as the arguments of a call.
use vectors::Vec3;

#[derive(Clone, Copy)]
pub enum Solid {
    // A box by its middle and its size, its edges rounded by a centimetre.
    Block { middle: Vec3, size: Vec3 },
    // A capsule by its two ends.
    Bar { from: Vec3, to: Vec3, radius: f32 },
    // The points p with normal . p <= h.
    Half { normal: Vec3, h: f32 },
    Point(Vec3),
}

// A solid less N others.
#[derive(Clone, Copy)]
pub struct Piece<const N: usize> {
    pub material: u32,
    pub body: Solid,
    pub cutters: [Solid; N],
}

pub fn at(x: f32, y: f32, z: f32) -> Vec3 {
    Vec3 { x, y, z }
}

pub fn block(middle: Vec3, size: Vec3) -> Solid {
    Solid::Block { middle, size }
}

pub fn bar(from: Vec3, to: Vec3, radius: f32) -> Solid {
    Solid::Bar { from, to, radius }
}

pub fn put_float(args: &mut [u8], i: u16, x: f32) {
    words::put(args, i as usize, scalar::bits(x));
}

pub fn put_vec(args: &mut [u8], i: u16, v: Vec3) {
    let i = i as usize;
    words::put(args, i, scalar::bits(v.x));
    words::put(args, i + 1, scalar::bits(v.y));
    words::put(args, i + 2, scalar::bits(v.z));
}

// A solid's kind and seven words: two vectors and a float.
fn put_solid(args: &mut [u8], i: u8, s: Solid) {
    let none = Vec3::splat(0.0);
    let (kind, a, b, r) = match s {
        Solid::Point(p) => (0, p, none, 0.0),
        Solid::Block { middle, size } => (1, middle, size.scale(0.5), 0.01),
        Solid::Half { normal, h } => (2, normal, at(h, 0.0, 0.0), 0.0),
        Solid::Bar { from, to, radius } => (3, from, to, radius),
    };
    let i = i as u16;
    words::put(args, i as usize, kind);
    put_vec(args, i + 1, a);
    put_vec(args, i + 4, b);
    put_float(args, i + 7, r);
}

impl<const N: usize> Piece<N> {
    // A row of 16 words for the piece, and one for each of the first eight cutters; with more it is refused.
    pub fn put(&self, args: &mut [u8]) {
        words::put(args, 0, self.material);
        words::put(args, 2, u32::try_from(N).unwrap_or(u32::MAX));
        put_solid(args, 3, self.body);
        for (row, cutter) in (16u8..=128).step_by(16).zip(&self.cutters) {
            put_solid(args, row, *cutter);
        }
    }
}
