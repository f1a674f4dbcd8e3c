// Four corners in space: a panel's centre, normal and area, where a ray meets it, and its point nearest to another.

#![tactic(auto)]

ghost use Rattle.std.specs.Prelude.{◌≡◌};
ghost use Rattle.quad.specs.Quad.{spanned, center_of, normal_of, area_of};
ghost use Rattle.quad.specs.Meets.{within_edge, inside_of, ahead_of, intersect_of, closest_of};

use vectors::Vec3;

// Corners counter-clockwise, seen from the emitting side; they need not lie in one plane.
#[derive(Clone, Copy)]
pub struct Quad {
    pub v0: Vec3,
    pub v1: Vec3,
    pub v2: Vec3,
    pub v3: Vec3,
}

// Whether p, seen from an edge's start, lies along the edge e.
#[tactic(auto, unfolding(crate::specs::Meets::within_edge))]
fn within(p: Vec3, e: Vec3) -> bool
    ensures { result ≡ within_edge p e }
{
    scalar::between(0.0, p.dot(e) / e.dot(e), 1.0)
}

impl Quad {
    // The cross product of the two edges at corner 0.
    #[tactic(auto, unfolding(crate::specs::Quad::spanned))]
    fn spanned(self) -> Vec3
        ensures { result ≡ spanned self }
    {
        self.v1.sub(self.v0).cross(self.v3.sub(self.v0))
    }

    #[tactic(auto, unfolding(crate::specs::Quad::center_of))]
    pub fn center(self) -> Vec3
        ensures { result ≡ center_of self }
    {
        self.v0.add(self.v1).add(self.v2).add(self.v3).scale(0.25)
    }

    #[tactic(auto, unfolding(crate::specs::Quad::normal_of))]
    pub fn normal(self) -> Vec3
        ensures { result ≡ normal_of self }
    {
        self.spanned().normalize()
    }

    // The second triangle starts at corner 2.
    #[tactic(auto, unfolding(crate::specs::Quad::area_of))]
    pub fn area(self) -> f32
        ensures { result ≡ area_of self }
    {
        let other = self.v3.sub(self.v2).cross(self.v1.sub(self.v2));
        0.5 * (self.spanned().length() + other.length())
    }

    // t, where the point p, seen from corner 0, lies between the edges.
    #[tactic(auto, unfolding(crate::specs::Meets::inside_of))]
    fn inside(self, p: Vec3, t: f32) -> Option<f32>
        ensures { result ≡ inside_of self p t }
    {
        let e1 = self.v1.sub(self.v0);
        let e2 = self.v3.sub(self.v0);
        if within(p, e1) && within(p, e2) {
            Some(t)
        } else {
            None
        }
    }

    // t, where the ray's point there lies ahead and inside.
    #[tactic(auto, unfolding(crate::specs::Meets::ahead_of))]
    fn ahead(self, ro: Vec3, rd: Vec3, t: f32) -> Option<f32>
        ensures { result ≡ ahead_of self ro rd t }
    {
        if t < 0.0001 {
            return None;
        }
        self.inside(ro.add(rd.scale(t)).sub(self.v0), t)
    }

    // Where a ray meets the quad, if it does.
    #[tactic(auto, unfolding(crate::specs::Meets::intersect_of))]
    pub fn intersect(self, ro: Vec3, rd: Vec3) -> Option<f32>
        ensures { result ≡ intersect_of self ro rd }
    {
        let n = self.spanned();
        let denom = n.dot(rd);
        if scalar::abs(denom) < 0.000000001 {
            return None;
        }
        self.ahead(ro, rd, self.v0.sub(ro).dot(n) / denom)
    }

    // The point between the edges that is nearest to q.
    #[tactic(auto, unfolding(crate::specs::Meets::closest_of))]
    pub fn closest(self, q: Vec3) -> Vec3
        ensures { result ≡ closest_of self q }
    {
        let e1 = self.v1.sub(self.v0);
        let e2 = self.v3.sub(self.v0);
        let d = q.sub(self.v0);
        let u = scalar::clamp(d.dot(e1) / e1.dot(e1), 0.0, 1.0);
        let v = scalar::clamp(d.dot(e2) / e2.dot(e2), 0.0, 1.0);
        self.v0.add(e1.scale(u)).add(e2.scale(v))
    }
}
