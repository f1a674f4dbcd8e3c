// The nearest of a plan's pieces: each distance is worked out as far as it matters, by its kind, straight from the
// words of its row.

#![tactic(auto)]

ghost use Rattle.std.specs.Prelude.{◌≡◌, cond, T, ◌+◌, ◌*◌, ◌<◌, ◌≤◌};
ghost use Rattle.std.specs.Float.Ieee.{neg, lt};
ghost use Rattle.float_order.specs.Inside.Order.{number};
ghost use Rattle.sdf.specs.Shapes.{dist_of};
ghost use Rattle.sdf_near.specs.Inside.Near.{Near};
ghost use Rattle.plan.specs.Sections.{cutter_row, table_rows};
ghost use Rattle.plan.specs.Records.{word_of, cutter_at};
ghost use Rattle.plan.specs.Inside.Rows.{eight_left, shape_in};
ghost use Rattle.plan.specs.Plan.{cuts_by, piece_at, pieces_from, plan_of};
ghost use Rattle.plan.specs.Nearest.{cut_by, carve, piece_dist, hit_of, closer, nearest, nothing, list_hit};

use plan::{DistHit, Floats, Words};
use refusals::Kind;
use vectors::Vec3;

// The distance of a kind and the eight floats from i on, or t where it is no less. The point goes by its three floats,
// and the shape by its place: what is passed as a struct would go through memory.
fn dist_in(kind: u32, fs: &Floats, i: usize, x: f32, y: f32, z: f32, t: f32) -> f32
    ensures { i < eight_left
        → Near t (dist_of (shape_in kind fs.now i) (record { x = x; y = y; z = z })) result }
{
    if i >= plan::EIGHT_LEFT {
        return t;
    }
    let p = Vec3 { x, y, z };
    let a = Vec3 {
        x: fs[i],
        y: fs[i + 1],
        z: fs[i + 2],
    };
    let b = Vec3 {
        x: fs[i + 3],
        y: fs[i + 4],
        z: fs[i + 5],
    };
    match refusals::shape_kind(kind) {
        Kind::Sphere => sdf_near::sphere(a, b.x, p, t),
        Kind::RoundBox => sdf_near::round_box(a, b, fs[i + 6], p, t),
        Kind::Plane => p.dot(a) - b.x,
        Kind::Capsule => sdf_near::capsule(a, b, fs[i + 6], p, t),
        Kind::Torus => sdf_near::torus(a, b.x, b.y, p, t),
        Kind::Cylinder => sdf_caps::cylinder(a, b, fs[i + 6], p, t),
        Kind::Cone => sdf_caps::cone(a, b, fs[i + 6], fs[i + 7], p, t),
    }
}

// A bound for a cutter's distance, beyond which the cutter leaves `left` as it is: a hair above -left, or no number,
// which bounds nothing.
fn guard(left: f32) -> f32
    ensures { T (number result) → T (lt (neg left) result) }
{
    let t = sdf_near::size(left) * 0.000001 - left;
    if -left < t {
        return t;
    }
    0.0 / 0.0
}

// What the cutter in row r leaves; past the last row nothing is cut.
fn cut(ws: &Words, fs: &Floats, r: usize, p: Vec3, left: f32) -> f32
    ensures { result ≡ cut_by (cutter_at ws.now fs.now r) p left }
{
    if r < plan::ROWS {
        let i = 16 * r;
        return scalar::max(left, -dist_in(ws[i], fs, i + 1, p.x, p.y, p.z, guard(left)));
    }
    // Only as a slice does a table tell the proof its length, which every place here lies past.
    let _words: &[u32] = ws;
    let _floats: &[f32] = fs;
    left
}

// The distance d with n cutters from a place on taken away, or `best` where that is no less: a cutter only adds.
fn carve(ws: &Words, fs: &Floats, place: u32, n: u32, p: Vec3, d: f32, best: f32) -> f32
    ensures { Near best (carve (cuts_by ws.now fs.now (cutter_row + place) n) p d) result }
{
    let mut left = d;
    for j in 0..n {
        let r = plan::CUTTER_ROW as usize + place as usize + j as usize;
        left = cut(ws, fs, r, p, left);
        if best <= left {
            return best;
        }
    }
    left
}

// The distance of the piece in row r, or t where it is no less. Small enough for the compiler to put it into the loops
// over pieces; it gives back a number, as a hit would go through memory.
fn piece_in(ws: &Words, fs: &Floats, r: usize, x: f32, y: f32, z: f32, t: f32) -> f32
    ensures { r < table_rows
        → Near t (piece_dist (piece_at ws.now fs.now r) (record { x = x; y = y; z = z })) result }
{
    if r < plan::ROWS {
        let i = 16 * r;
        let whole = dist_in(ws[i + 3], fs, i + 4, x, y, z, t);
        if t <= whole {
            return t;
        }
        return carve(ws, fs, ws[i + 12], ws[i + 2], Vec3 { x, y, z }, whole, t);
    }
    t
}

// The same; a plane that nothing cuts, as a room's mostly are, with no call.
fn plane_in(ws: &Words, fs: &Floats, r: usize, x: f32, y: f32, z: f32, t: f32) -> f32
    ensures { r < table_rows
        → Near t (piece_dist (piece_at ws.now fs.now r) (record { x = x; y = y; z = z })) result }
{
    if r < plan::ROWS {
        let i = 16 * r;
        if ws[i + 3] == Kind::Plane as u32 {
            if ws[i + 2] == 0 {
                let n = Vec3 {
                    x: fs[i + 4],
                    y: fs[i + 5],
                    z: fs[i + 6],
                };
                return Vec3 { x, y, z }.dot(n) - fs[i + 7];
            }
        }
    }
    piece_in(ws, fs, r, x, y, z, t)
}

// The nearer of the best hit and the piece in row r, whose distance is d, or no less than the best where d is that;
// past the last row there is none.
fn nearer_of(ws: &Words, r: usize, d: f32, best: DistHit) -> DistHit
    ensures { (r < table_rows
        → result ≡ cond (lt d best.d) (record { d = d; mat = word_of ws.now (16 * r) }) best)
        × (table_rows ≤ r → result ≡ best) }
{
    if r < plan::ROWS {
        if d < best.d {
            return DistHit { d, mat: ws[16 * r] };
        }
    }
    best
}

pub fn nearer(ws: &Words, fs: &Floats, r: usize, p: Vec3, best: DistHit) -> DistHit
    ensures { result ≡ closer best (hit_of (piece_at ws.now fs.now r) p) }
{
    // Only as a slice does a table tell the proof its length, past which there is no piece.
    let _words: &[u32] = ws;
    let _floats: &[f32] = fs;
    nearer_of(ws, r, piece_in(ws, fs, r, p.x, p.y, p.z, best.d), best)
}

fn plane_nearer(ws: &Words, fs: &Floats, r: usize, p: Vec3, best: DistHit) -> DistHit
    ensures { result ≡ closer best (hit_of (piece_at ws.now fs.now r) p) }
{
    let _words: &[u32] = ws;
    let _floats: &[f32] = fs;
    nearer_of(ws, r, plane_in(ws, fs, r, p.x, p.y, p.z, best.d), best)
}

// The best of a hit and n pieces from row r on.
fn nearest(ws: &Words, fs: &Floats, r: u32, n: u32, p: Vec3, best: DistHit) -> DistHit
    ensures { result ≡ nearest (pieces_from ws.now fs.now r n) p best }
{
    let mut hit = best;
    for j in 0..n {
        hit = plane_nearer(ws, fs, r as usize + j as usize, p, hit);
    }
    hit
}

// The objects by the plain list, from a bound.
#[tactic(auto, unfolding(plan::specs::Plan::plan_of, plan::specs::Nearest::list_hit))]
pub fn query_linear(ws: &Words, fs: &Floats, p: Vec3, best: DistHit) -> DistHit
    ensures { result ≡ list_hit (plan_of ws.now fs.now) p best }
{
    nearest(ws, fs, plan::OBJECT_ROW, ws[plan::COUNT_OBJECTS], p, best)
}

// The planes, from f32::MAX and material 0.
#[tactic(auto, unfolding(plan::specs::Plan::plan_of))]
pub fn planes_hit(ws: &Words, fs: &Floats, p: Vec3) -> DistHit
    ensures { result ≡ nearest (plan_of ws.now fs.now).planes p nothing }
{
    let none = DistHit {
        d: 3.4028235e38,
        mat: 0,
    };
    nearest(ws, fs, plan::PLANE_ROW, ws[plan::COUNT_PLANES], p, none)
}
