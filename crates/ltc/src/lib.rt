// A quad's share of the cosine-weighted hemisphere, in closed form: the quad is seen from a point, cut at the horizon,
// and its edges' angles are summed.

#![tactic(auto)]

ghost use Rattle.std.specs.Prelude.{◌≡◌, ◌-◌, ◌≤◌, List, [], ◌∷◌, ◌++◌, length, take, drop};
ghost use Rattle.vectors.specs.declared.Vec3.{Vec3};
ghost use Rattle.ltc.specs.Frame.{side_of, frame_of, local_of, to_local_of};
ghost use Rattle.ltc.specs.FormFactor.{crossing_of, clip_edge, clip_of, on_sphere, edge_sum, ring_of};
ghost use Rattle.ltc.specs.FormFactor.{form_factor_of};
ghost use Rattle.ltc.specs.Inside.Places.{zeros, as_many, given_back};

use quad::Quad;
use std::marker::Model;
use vectors::Vec3;

const PLACES: usize = 5;

// Two directions across a normal.
#[derive(Clone, Copy)]
pub struct Axes {
    pub tan: Vec3,
    pub bit: Vec3,
}

// At most five corners: the first n of the places. The others are zero, so that the corners give the places back.
#[derive(Clone, Copy)]
pub struct Corners {
    places: [Vec3; PLACES],
    n: usize,
}

// Clauses see the corners as a list.
impl Model for Corners {
    ghost Value = { List Vec3 };

    ghost view = { λ c. take c.n c.places };

    ghost invariant = { λ c. (c.n ≤ 5) × (length c.places ≡ 5) × (drop c.n c.places ≡ zeros (5 - c.n)) };

    ghost inverse = { λ vs. record { places = vs ++ zeros (5 - length vs); n = length vs } };

    ghost inverse_ok = { λ c h i. record {
      places = given_back c.n c.places h.0 h.1 h.2 i;
      n = as_many c.n c.places h.0 h.1 i;
    } };
}

// 1 with the sign of a normal's z.
#[tactic(auto, unfolding(crate::specs::Frame::side_of))]
fn side(z: f32) -> f32
    ensures { result ≡ side_of z }
{
    if z >= 0.0 { 1.0 } else { -1.0 }
}

// No degenerate case: s has the sign of z, so that s + z is never 0.
#[tactic(auto, unfolding(crate::specs::Frame::frame_of))]
pub fn frame(n: Vec3) -> Axes
    ensures { result ≡ frame_of n }
{
    let s = side(n.z);
    let a = -1.0 / (s + n.z);
    let b = n.x * n.y * a;
    Axes {
        tan: Vec3 {
            x: 1.0 + s * n.x * n.x * a,
            y: s * b,
            z: -s * n.x,
        },
        bit: Vec3 {
            x: b,
            y: s + n.y * n.y * a,
            z: -n.y,
        },
    }
}

// The corner v seen from p.
#[tactic(auto, unfolding(crate::specs::Frame::local_of))]
fn local(v: Vec3, p: Vec3, f: Axes, n: Vec3) -> Vec3
    ensures { result ≡ local_of v p f n }
{
    let d = v.sub(p);
    Vec3 {
        x: d.dot(f.tan),
        y: d.dot(f.bit),
        z: d.dot(n),
    }
}

// The corners are reversed: seen from the receiver they go round the other way.
#[tactic(auto, unfolding(crate::specs::Frame::to_local_of))]
pub fn to_local(q: Quad, p: Vec3, f: Axes, n: Vec3) -> Quad
    ensures { result ≡ to_local_of q p f n }
{
    Quad {
        v0: local(q.v3, p, f, n),
        v1: local(q.v2, p, f, n),
        v2: local(q.v1, p, f, n),
        v3: local(q.v0, p, f, n),
    }
}

// Where the edge from a to b crosses the horizon.
#[tactic(auto, unfolding(crate::specs::FormFactor::crossing_of))]
fn crossing(a: Vec3, b: Vec3) -> Vec3
    ensures { result ≡ crossing_of a b }
{
    let t = a.z / (a.z - b.z);
    a.add(b.sub(a).scale(t))
}

impl Corners {
    fn none() -> Corners
        ensures { result ≡ [] }
    {
        Corners {
            places: [Vec3::splat(0.0); PLACES],
            n: 0,
        }
    }

    // One corner more, where there is a place.
    fn put(&mut self, v: Vec3)
        ensures { self.new ≡ take 5 (self.old ++ (v ∷ [])) }
    {
        if self.n == PLACES {
            return;
        }
        self.places[self.n] = v;
        self.n += 1;
    }

    // The corners that the edge from a to b gives. It asks for what the model promises, which a clause does not see.
    fn clip_edge(&mut self, a: Vec3, b: Vec3)
        requires { length self.old ≤ 5 }
        ensures { self.new ≡ take 5 (self.old ++ clip_edge a b) }
    {
        if a.z >= 0.0 {
            self.put(a);
        }
        if (a.z >= 0.0) != (b.z >= 0.0) {
            self.put(crossing(a, b));
        }
    }

    // The edges of three corners or more, the last one back to the first.
    fn ring(&self) -> f32
        ensures { result ≡ ring_of self.now }
    {
        if self.n < 3 {
            return 0.0;
        }
        let first = on_sphere(self.places[0]);
        let mut a = first;
        let mut sum = 0.0;
        for v in &self.places[1..self.n] {
            let b = on_sphere(*v);
            sum = edge_sum(sum, a, b);
            a = b;
        }
        edge_sum(sum, a, first)
    }
}

fn clip_to_horizon(q: Quad) -> Corners
    ensures { result ≡ clip_of q }
{
    let mut c = Corners::none();
    c.clip_edge(q.v0, q.v1);
    c.clip_edge(q.v1, q.v2);
    c.clip_edge(q.v2, q.v3);
    c.clip_edge(q.v3, q.v0);
    c
}

// A corner no longer than 1e-9 stays as it is.
#[tactic(auto, unfolding(crate::specs::FormFactor::on_sphere))]
fn on_sphere(v: Vec3) -> Vec3
    ensures { result ≡ on_sphere v }
{
    let size = v.length();
    if size > 0.000000001 {
        return v.over(size);
    }
    v
}

// The sum with the edge from a to b.
#[tactic(auto, unfolding(crate::specs::FormFactor::edge_sum))]
fn edge_sum(s: f32, a: Vec3, b: Vec3) -> f32
    ensures { result ≡ edge_sum s a b }
{
    let cross = a.cross(b);
    let len = cross.length();
    if len > 0.000000001 {
        let theta = scalar::acos(scalar::clamp(a.dot(b), -1.0, 1.0));
        return s + theta * (cross.z / len);
    }
    s
}

// A quad in the local frame of a point.
#[tactic(auto, unfolding(crate::specs::FormFactor::form_factor_of))]
pub fn quad_form_factor(q: Quad) -> f32
    ensures { result ≡ form_factor_of q }
{
    scalar::max(clip_to_horizon(q).ring() * 0.15915494, 0.0)
}
