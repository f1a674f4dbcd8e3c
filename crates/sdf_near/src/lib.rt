// Distances as far as they matter to a search: a shape's distance, or the bound t where the distance is no less, which
// is told with no root wherever it can be. A guess w is tested, and nothing rests on which w it is but time.

#![tactic(auto)]

ghost use Rattle.std.specs.Prelude.{◌≡◌};
ghost use Rattle.root.specs.Root.{root_of};
ghost use Rattle.scalar.specs.F32.{◌⊕◌, ◌⊖◌, ◌⊗◌, f0};
ghost use Rattle.scalar.specs.Extremes.{fmin};
ghost use Rattle.scalar.specs.Signs.{abs_of};
ghost use Rattle.sdf.specs.Shapes.{sphere, round_box, capsule, torus};
ghost use Rattle.sdf_near.specs.Inside.Near.{Near, OffRing};

use vectors::Vec3;

// `scalar::abs`, in the form that compilers know for one instruction. It stands here, above `float_order`, since its
// proof needs that a difference from zero is exact.
pub fn size(x: f32) -> f32
    ensures { result ≡ abs_of x }
{
    if x > 0.0 {
        return x;
    }
    0.0 - x
}

// What a root is to reach so that, less r, it is at least t, or a little more; always above zero, as of what is below
// the square says too much.
fn guess(t: f32, r: f32) -> f32 {
    scalar::max((t + r) * 1.000001, 1e-30)
}

// The root of q less r, or t.
pub fn less(q: f32, r: f32, t: f32) -> f32
    ensures { Near t (root_of q ⊖ r) result }
{
    let w = guess(t, r);
    if root_tests::reaches(q, w) {
        if t <= w - r {
            return t;
        }
    }
    root_tests::quick_root(q) - r
}

#[tactic(auto, unfolding(sdf::specs::Shapes::sphere, vectors::specs::Vec::vlength))]
pub fn sphere(c: Vec3, r: f32, p: Vec3, t: f32) -> f32
    ensures { Near t (sphere c r p) result }
{
    let v = p.sub(c);
    less(v.dot(v), r, t)
}

#[tactic(auto, unfolding(sdf::specs::Shapes::capsule, vectors::specs::Vec::vlength))]
pub fn capsule(a: Vec3, b: Vec3, r: f32, p: Vec3, t: f32) -> f32
    ensures { Near t (capsule a b r p) result }
{
    let pa = p.sub(a);
    let ba = b.sub(a);
    let h = scalar::clamp(pa.dot(ba) / ba.dot(ba), 0.0, 1.0);
    let v = pa.sub(ba.scale(h));
    less(v.dot(v), r, t)
}

// The root of q and n where that is below zero, less r, or t.
fn box_less(q: f32, n: f32, r: f32, t: f32) -> f32
    ensures { Near t (root_of q ⊕ fmin n f0 ⊖ r) result }
{
    let m = scalar::min(n, 0.0);
    let w = guess(t, r);
    if root_tests::reaches(q, w) {
        if t <= w + m - r {
            return t;
        }
    }
    root_tests::quick_root(q) + m - r
}

#[tactic(auto, unfolding(sdf::specs::Shapes::round_box, vectors::specs::Vec::vlength, vectors::specs::Vec::vabs))]
pub fn round_box(c: Vec3, b: Vec3, r: f32, p: Vec3, t: f32) -> f32
    ensures { Near t (round_box c b r p) result }
{
    let d = p.sub(c);
    let q = Vec3 {
        x: size(d.x),
        y: size(d.y),
        z: size(d.z),
    }
    .sub(b.sub(Vec3::splat(r)));
    let v = q.max(Vec3::splat(0.0));
    box_less(v.dot(v), scalar::max(q.x, scalar::max(q.y, q.z)), r, t)
}

// Half the chord of a circle of radius w at height y, or a little more: by tangents.
fn chord(w: f32, y: f32) -> f32 {
    if w <= y {
        return 0.0;
    }
    let v = 1.4142137 * w - y;
    if v < w {
        return v * 1.000001;
    }
    w * 1.000001
}

// A square that the root of g, less major, has at least, by a guess v at its side: NaN where v is too much.
fn off_ring(g: f32, major: f32, v: f32) -> f32
    ensures { OffRing g major result }
{
    let o = major + v;
    if root_tests::reaches(g, o) {
        let k = o - major;
        if k >= 0.0 {
            return k * k;
        }
    }
    let i = major - v;
    if root_tests::stays(g, i) {
        let k = major - i;
        if k >= 0.0 {
            return k * k;
        }
    }
    0.0 / 0.0
}

// By the square g of the distance from the axis and the height y. The last test keeps the infinity from being taken
// from itself.
fn torus_at(g: f32, y: f32, major: f32, minor: f32, t: f32) -> f32
    ensures { Near t (root_of ((root_of g ⊖ major) ⊗ (root_of g ⊖ major) ⊕ y ⊗ y) ⊖ minor) result }
{
    let w = guess(t, minor);
    let s = off_ring(g, major, chord(w, size(y)));
    if root_tests::reaches(s + y * y, w) {
        if t <= w - minor {
            if minor <= 3.4028235e38 {
                return t;
            }
        }
    }
    let xz = root_tests::quick_root(g) - major;
    less(xz * xz + y * y, minor, t)
}

#[tactic(auto, unfolding(sdf::specs::Shapes::torus))]
pub fn torus(c: Vec3, major: f32, minor: f32, p: Vec3, t: f32) -> f32
    ensures { Near t (torus c major minor p) result }
{
    let q = p.sub(c);
    torus_at(q.x * q.x + q.z * q.z, q.y, major, minor, t)
}
