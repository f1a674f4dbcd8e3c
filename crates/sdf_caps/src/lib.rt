// Cylinders and cones as far as they matter to a search: the distance, or the bound t where the distance is no less,
// told with as few roots as it can be. A guess is tested, and nothing rests on which it is but time.
// Functions take floats one by one, as a struct would go through memory.

#![tactic(auto)]

ghost use Rattle.std.specs.Prelude.{◌≡◌, true, T};
ghost use Rattle.std.specs.Float.Ieee.{lt, le};
ghost use Rattle.std.specs.Float.Ieee.Scale.{finite};
ghost use Rattle.root.specs.Root.{root_of};
ghost use Rattle.scalar.specs.F32.{◌⊖◌, ◌⊗◌, ◌⊘◌, f0};
ghost use Rattle.sdf.specs.Shapes.{beyond, cylinder_body, cylinder, cone_end, cone_foot, cone_sign, cone_body, cone};
ghost use Rattle.float_order.specs.Inside.Order.{number};
ghost use Rattle.sdf_near.specs.Inside.Near.{Near};
ghost use Rattle.sdf_caps.specs.Inside.Caps.{outside, signed_square, cylinder_at, lesser, not_below, past_end};
ghost use Rattle.sdf_caps.specs.Inside.Caps.{cay_of, cone_by, Ends, Sides};

use vectors::Vec3;

// A guess as it is, or as little as it may be where it is not above zero.
fn above_zero(v: f32) -> f32
    ensures { T (lt f0 result) }
{
    if v > 1e-30 {
        return v;
    }
    1e-30
}

// Whether t is at most w / s, for an s that is finite and above zero. A `false` tells nothing.
fn far(t: f32, w: f32, s: f32) -> bool
    ensures { result ≡ true → T (finite s) × T (lt f0 s) × T (le t (w ⊘ s)) }
{
    if s > 0.0 {
        if s <= 3.4028235e38 {
            return t <= w / s;
        }
    }
    false
}

// How far root(q) is surely above rb, 0 where that is not known.
fn over(q: f32, rb: f32, v: f32) -> f32
    ensures { T (le (result ⊗ result) (outside (root_of q ⊖ rb))) }
{
    let o = (v + rb) * 1.000001;
    if root_tests::reaches(q, o) {
        let z = o - rb;
        if z > 0.0 {
            return z;
        }
    }
    0.0
}

// The signed square of the distance, from how far p is outside the side (x) and the caps (y).
fn square(x: f32, y: f32, y2: f32, by: f32) -> f32
    ensures { result ≡ signed_square x y y2 by }
{
    let x2 = x * x;
    if scalar::max(x, y) < 0.0 {
        return -scalar::min(x2, y2);
    }
    sdf::beyond(x, x2) + by
}

// By the square of a lower bound first, then by the square itself, then by its root.
fn cylinder_at(q: f32, y: f32, baba: f32, rb: f32, t: f32) -> f32
    ensures { Near t (cylinder_at q y baba rb) result }
{
    let y2 = y * y * baba;
    let by = sdf::beyond(y, y2);
    let w = above_zero(t * baba * 1.000001);
    let z = over(q, rb, w);
    if root_tests::reaches(z * z + by, w) {
        if far(t, w, baba) {
            return t;
        }
    }
    let d = square(root_tests::quick_root(q) - rb, y, y2, by);
    if d > 0.0 {
        if root_tests::reaches(d, w) {
            if far(t, w, baba) {
                return t;
            }
        }
        return root_tests::quick_root(d) / baba;
    }
    scalar::signum(d) * root_tests::quick_root(sdf_near::size(d)) / baba
}

#[tactic(auto, unfolding(sdf::specs::Shapes::cylinder_body, vectors::specs::Vec::vlength))]
fn cylinder_body(pa: Vec3, ba: Vec3, baba: f32, r: f32, t: f32) -> f32
    ensures { Near t (cylinder_body pa ba baba r) result }
{
    let paba = pa.dot(ba);
    let v = pa.scale(baba).sub(ba.scale(paba));
    let half = baba * 0.5;
    cylinder_at(
        v.dot(v),
        sdf_near::size(paba - half) - half,
        baba,
        r * baba,
        t,
    )
}

// Ends that all but coincide make a cylinder or a cone a sphere.
#[tactic(auto, unfolding(sdf::specs::Shapes::cylinder))]
pub fn cylinder(a: Vec3, b: Vec3, r: f32, p: Vec3, t: f32) -> f32
    ensures { Near t (cylinder a b r p) result }
{
    let ba = b.sub(a);
    let baba = ba.dot(ba);
    if baba < 1e-12 {
        return sdf_near::sphere(a, r, p, t);
    }
    cylinder_body(p.sub(a), ba, baba, r, t)
}

fn lesser(a: f32, b: f32) -> f32
    ensures { result ≡ lesser a b }
{
    if a < b { a } else { b }
}

// A NaN is kept.
fn not_below(x: f32) -> f32
    ensures { result ≡ not_below x }
{
    if x < 0.0 { 0.0 } else { x }
}

// How far past the nearer end, in lengths of the axis. What is taken off is as far as the side's foot may lie.
fn past_end(paba: f32) -> f32
    ensures { result ≡ past_end paba }
{
    if paba < 0.5 {
        -(paba - 0.0)
    } else {
        paba - 1.0
    }
}

// What the place along the axis surely adds, 0 where it is past no end.
fn ends(paba: f32, cay: f32) -> f32
    ensures { Ends paba cay result }
{
    let c = past_end(paba);
    if c > 0.0 {
        if cay > 0.0 {
            return lesser(c, cay);
        }
    }
    0.0
}

// What the distance from the axis, root(g), surely adds, 0 where it is not known to be past the side.
fn sides(g: f32, ra: f32, rb: f32, rba: f32, v: f32) -> f32
    ensures { rba ≡ rb ⊖ ra → Sides (root_of g) ra rb rba result }
{
    let m = scalar::max(ra, rb);
    let o = (m + v) * 1.000001;
    if root_tests::reaches(g, o) {
        let z = o - m;
        let y = o - ra - not_below(rba);
        if z > 0.0 {
            if y > 0.0 {
                return lesser(z, y);
            }
        }
    }
    0.0
}

// Whether t is at most w, and what the bounds are worked out of is fit for them.
fn sure(t: f32, w: f32, baba: f32, cay: f32) -> bool
    ensures { result ≡ true → T (finite baba) × T (lt f0 baba) × T (number cay) × T (le t w) }
{
    if cay == cay {
        if baba > 0.0 {
            if baba <= 3.4028235e38 {
                return t <= w;
            }
        }
    }
    false
}

// From the radial distance x: by the square, then by its root.
fn cone_from(
    x: f32,
    paba: f32,
    cay: f32,
    baba: f32,
    ra: f32,
    rb: f32,
    rba: f32,
    w: f32,
    t: f32,
) -> f32
    ensures { T (lt f0 w) → Near t (cone_by x paba cay baba ra rb rba) result }
{
    let cax = scalar::max(0.0, x - sdf::cone_end(paba, ra, rb));
    let f = sdf::cone_foot(x, paba, baba, ra, rba);
    let cbx = x - ra - f * rba;
    let cby = paba - f;
    let d = scalar::min(cax * cax + cay * cay * baba, cbx * cbx + cby * cby * baba);
    let s = sdf::cone_sign(cbx, cay);
    if root_tests::reaches(d, w) {
        if s > 0.0 {
            if t <= w {
                return t;
            }
        }
    }
    s * root_tests::quick_root(d)
}

// By the square of a lower bound first.
fn cone_at(g: f32, paba: f32, baba: f32, ra: f32, rb: f32, t: f32) -> f32
    ensures { Near t (cone_by (root_of g) paba (cay_of paba) baba ra rb (rb ⊖ ra)) result }
{
    let w = above_zero(t);
    let rba = rb - ra;
    let cay = sdf_near::size(paba - 0.5) - 0.5;
    let e = ends(paba, cay);
    let along = e * e * baba;
    let z = sides(g, ra, rb, rba, w);
    if root_tests::reaches(z * z + along, w) {
        if sure(t, w, baba, cay) {
            return t;
        }
    }
    cone_from(
        root_tests::quick_root(g),
        paba,
        cay,
        baba,
        ra,
        rb,
        rba,
        w,
        t,
    )
}

#[tactic(auto, unfolding(sdf::specs::Shapes::cone_body, sdf::specs::Shapes::cone_at))]
fn cone_body(pa: Vec3, ba: Vec3, baba: f32, ra: f32, rb: f32, t: f32) -> f32
    ensures { Near t (cone_body pa ba baba ra rb) result }
{
    let paba = pa.dot(ba) / baba;
    cone_at(
        scalar::max(pa.dot(pa) - paba * paba * baba, 0.0),
        paba,
        baba,
        ra,
        rb,
        t,
    )
}

#[tactic(auto, unfolding(sdf::specs::Shapes::cone))]
pub fn cone(a: Vec3, b: Vec3, ra: f32, rb: f32, p: Vec3, t: f32) -> f32
    ensures { Near t (cone a b ra rb p) result }
{
    let ba = b.sub(a);
    let baba = ba.dot(ba);
    if baba < 1e-12 {
        return sdf_near::sphere(a, scalar::max(ra, rb), p, t);
    }
    cone_body(p.sub(a), ba, baba, ra, rb, t)
}
