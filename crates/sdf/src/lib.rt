// Signed distances and boxes of the seven shapes, line for line as the source's sdf.rs has them.

#![tactic(auto)]

ghost use Rattle.std.specs.Prelude.{◌≡◌};
ghost use Rattle.sdf.specs.Shapes.{sphere, round_box, plane, capsule, torus, beyond, cylinder_square, cylinder_body};
ghost use Rattle.sdf.specs.Shapes.{cylinder, cone_end, cone_foot, cone_sign, cone_at, cone_body, cone, dist_of};
ghost use Rattle.sdf.specs.Boxes.{spread, around, bounds_of, widened, box_of, centre_of, box_dist};

use vectors::Vec3;

#[derive(Clone, Copy)]
pub enum Shape {
    Sphere { c: Vec3, r: f32 },
    RoundBox { c: Vec3, b: Vec3, r: f32 },
    Plane { n: Vec3, h: f32 },
    Capsule { a: Vec3, b: Vec3, r: f32 },
    Torus { c: Vec3, major: f32, minor: f32 },
    // Flat-capped, between two points.
    Cylinder { a: Vec3, b: Vec3, r: f32 },
    // Flat-capped; `ra` is the radius at `a`, `rb` at `b`.
    Cone { a: Vec3, b: Vec3, ra: f32, rb: f32 },
}

#[derive(Clone, Copy)]
pub struct Aabb {
    pub lo: Vec3,
    pub hi: Vec3,
}

#[tactic(auto, unfolding(crate::specs::Shapes::sphere))]
fn sphere(c: Vec3, r: f32, p: Vec3) -> f32
    ensures { result ≡ sphere c r p }
{
    p.sub(c).length() - r
}

#[tactic(auto, unfolding(crate::specs::Shapes::round_box))]
fn round_box(c: Vec3, b: Vec3, r: f32, p: Vec3) -> f32
    ensures { result ≡ round_box c b r p }
{
    let q = p.sub(c).abs().sub(b.sub(Vec3::splat(r)));
    let outside = q.max(Vec3::splat(0.0)).length();
    outside + scalar::min(scalar::max(q.x, scalar::max(q.y, q.z)), 0.0) - r
}

#[tactic(auto, unfolding(crate::specs::Shapes::plane))]
fn plane(n: Vec3, h: f32, p: Vec3) -> f32
    ensures { result ≡ plane n h p }
{
    p.dot(n) - h
}

fn capsule(a: Vec3, b: Vec3, r: f32, p: Vec3) -> f32
    ensures { result ≡ capsule a b r p }
{
    let pa = p.sub(a);
    let ba = b.sub(a);
    let h = scalar::clamp(pa.dot(ba) / ba.dot(ba), 0.0, 1.0);
    pa.sub(ba.scale(h)).length() - r
}

#[tactic(auto, unfolding(crate::specs::Shapes::torus))]
fn torus(c: Vec3, major: f32, minor: f32, p: Vec3) -> f32
    ensures { result ≡ torus c major minor p }
{
    let q = p.sub(c);
    let xz = root::root(q.x * q.x + q.z * q.z) - major;
    root::root(xz * xz + q.y * q.y) - minor
}

// The square of x where x is above zero.
pub fn beyond(x: f32, square: f32) -> f32
    ensures { result ≡ beyond x square }
{
    if x > 0.0 { square } else { 0.0 }
}

// The signed square of the distance, from how far p is outside the side (x) and the caps (y).
fn cylinder_square(x: f32, y: f32, baba: f32) -> f32
    ensures { result ≡ cylinder_square x y baba }
{
    let x2 = x * x;
    let y2 = y * y * baba;
    if scalar::max(x, y) < 0.0 {
        return -scalar::min(x2, y2);
    }
    beyond(x, x2) + beyond(y, y2)
}

#[tactic(auto, unfolding(crate::specs::Shapes::cylinder_body))]
fn cylinder_body(pa: Vec3, ba: Vec3, baba: f32, r: f32) -> f32
    ensures { result ≡ cylinder_body pa ba baba r }
{
    let paba = pa.dot(ba);
    let x = pa.scale(baba).sub(ba.scale(paba)).length() - r * baba;
    let y = scalar::abs(paba - baba * 0.5) - baba * 0.5;
    let d = cylinder_square(x, y, baba);
    scalar::signum(d) * root::root(scalar::abs(d)) / baba
}

// Ends that all but coincide make a cylinder or a cone a sphere.
#[tactic(auto, unfolding(crate::specs::Shapes::cylinder))]
fn cylinder(a: Vec3, b: Vec3, r: f32, p: Vec3) -> f32
    ensures { result ≡ cylinder a b r p }
{
    let ba = b.sub(a);
    let baba = ba.dot(ba);
    if baba < 1e-12 {
        return sphere(a, r, p);
    }
    cylinder_body(p.sub(a), ba, baba, r)
}

pub fn cone_end(paba: f32, ra: f32, rb: f32) -> f32
    ensures { result ≡ cone_end paba ra rb }
{
    if paba < 0.5 { ra } else { rb }
}

// Where on the slanted side the nearest point is, 0 to 1.
pub fn cone_foot(x: f32, paba: f32, baba: f32, ra: f32, rba: f32) -> f32
    ensures { result ≡ cone_foot x paba baba ra rba }
{
    let k = rba * rba + baba;
    scalar::clamp((rba * (x - ra) + paba * baba) / k, 0.0, 1.0)
}

pub fn cone_sign(cbx: f32, cay: f32) -> f32
    ensures { result ≡ cone_sign cbx cay }
{
    if cbx < 0.0 {
        if cay < 0.0 {
            return -1.0;
        }
    }
    1.0
}

// From the radial distance x and the place along the axis, 0 at a and 1 at b.
#[tactic(auto, unfolding(crate::specs::Shapes::cone_at))]
fn cone_at(x: f32, paba: f32, baba: f32, ra: f32, rb: f32) -> f32
    ensures { result ≡ cone_at x paba baba ra rb }
{
    let rba = rb - ra;
    let cax = scalar::max(0.0, x - cone_end(paba, ra, rb));
    let cay = scalar::abs(paba - 0.5) - 0.5;
    let f = cone_foot(x, paba, baba, ra, rba);
    let cbx = x - ra - f * rba;
    let cby = paba - f;
    let cap = cax * cax + cay * cay * baba;
    let side = cbx * cbx + cby * cby * baba;
    cone_sign(cbx, cay) * root::root(scalar::min(cap, side))
}

fn cone_body(pa: Vec3, ba: Vec3, baba: f32, ra: f32, rb: f32) -> f32
    ensures { result ≡ cone_body pa ba baba ra rb }
{
    let paba = pa.dot(ba) / baba;
    let x = root::root(scalar::max(pa.dot(pa) - paba * paba * baba, 0.0));
    cone_at(x, paba, baba, ra, rb)
}

fn cone(a: Vec3, b: Vec3, ra: f32, rb: f32, p: Vec3) -> f32
    ensures { result ≡ cone a b ra rb p }
{
    let ba = b.sub(a);
    let baba = ba.dot(ba);
    if baba < 1e-12 {
        return sphere(a, scalar::max(ra, rb), p);
    }
    cone_body(p.sub(a), ba, baba, ra, rb)
}

impl Shape {
    #[tactic(auto, unfolding(crate::specs::Shapes::dist_of))]
    pub fn dist(self, p: Vec3) -> f32
        ensures { result ≡ dist_of self p }
    {
        match self {
            Shape::Sphere { c, r } => sphere(c, r, p),
            Shape::RoundBox { c, b, r } => round_box(c, b, r, p),
            Shape::Plane { n, h } => plane(n, h, p),
            Shape::Capsule { a, b, r } => capsule(a, b, r, p),
            Shape::Torus { c, major, minor } => torus(c, major, minor, p),
            Shape::Cylinder { a, b, r } => cylinder(a, b, r, p),
            Shape::Cone { a, b, ra, rb } => cone(a, b, ra, rb, p),
        }
    }

    // A round box's ignores its rounding; a plane has none.
    pub fn bounds(self) -> Option<Aabb>
        ensures { result ≡ bounds_of self }
    {
        match self {
            Shape::Sphere { c, r } => Some(spread(c, Vec3::splat(r))),
            Shape::RoundBox { c, b, r } => Some(spread(c, b)),
            Shape::Plane { n, h } => None,
            Shape::Capsule { a, b, r } => Some(around(a, b, r)),
            Shape::Torus { c, major, minor } => Some(spread(
                c,
                Vec3 {
                    x: major + minor,
                    y: minor,
                    z: major + minor,
                },
            )),
            Shape::Cylinder { a, b, r } => Some(around(a, b, r)),
            Shape::Cone { a, b, ra, rb } => Some(around(a, b, scalar::max(ra, rb))),
        }
    }

    // An object's box: its bounds widened by its blend. No object is a plane.
    #[tactic(auto, unfolding(crate::specs::Boxes::box_of))]
    pub fn object_box(self, blend: f32) -> Aabb
        ensures { result ≡ box_of self blend }
    {
        match self.bounds() {
            Some(b) => b.widened(blend),
            None => Aabb {
                lo: Vec3::splat(0.0),
                hi: Vec3::splat(0.0),
            },
        }
    }
}

#[tactic(auto, unfolding(crate::specs::Boxes::spread))]
fn spread(c: Vec3, e: Vec3) -> Aabb
    ensures { result ≡ spread c e }
{
    Aabb {
        lo: c.sub(e),
        hi: c.add(e),
    }
}

// The box of two points, each with a radius.
#[tactic(auto, unfolding(crate::specs::Boxes::around))]
fn around(a: Vec3, b: Vec3, r: f32) -> Aabb
    ensures { result ≡ around a b r }
{
    Aabb {
        lo: a.min(b).sub(Vec3::splat(r)),
        hi: a.max(b).add(Vec3::splat(r)),
    }
}

impl Aabb {
    #[tactic(auto, unfolding(crate::specs::Boxes::widened))]
    fn widened(self, e: f32) -> Aabb
        ensures { result ≡ widened self e }
    {
        Aabb {
            lo: self.lo.sub(Vec3::splat(e)),
            hi: self.hi.add(Vec3::splat(e)),
        }
    }

    #[tactic(auto, unfolding(crate::specs::Boxes::centre_of))]
    pub fn centre(self) -> Vec3
        ensures { result ≡ centre_of self }
    {
        self.lo.add(self.hi).scale(0.5)
    }
}

// 0 inside, else the distance to the box.
pub fn aabb_dist(p: Vec3, b: Aabb) -> f32
    ensures { result ≡ box_dist p b }
{
    let low = b.lo.sub(p);
    let high = p.sub(b.hi);
    low.max(high).max(Vec3::splat(0.0)).length()
}
