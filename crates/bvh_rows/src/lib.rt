// The box of an object from the words of its row: made of numbers alone, with no shape between.

#![tactic(auto)]

ghost use Rattle.std.specs.Prelude.{◌≡◌};
ghost use Rattle.sdf.specs.Boxes.{spread, around, widened, box_of};
ghost use Rattle.refusals.specs.Prims.{shape_of};
ghost use Rattle.plan.specs.Plan.{plan_of};
ghost use Rattle.bvh_boxes.specs.Boxes.{box_at, boxes_of};

use plan::{Floats, Words};
use refusals::Kind;
use sdf::Aabb;
use vectors::Vec3;

// The box of half size h around c, widened by e.
#[tactic(auto, unfolding(sdf::specs::Boxes::spread, sdf::specs::Boxes::widened))]
fn spread(c: Vec3, h: Vec3, e: f32) -> Aabb
    ensures { result ≡ widened (spread c h) e }
{
    Aabb {
        lo: c.sub(h).sub(Vec3::splat(e)),
        hi: c.add(h).add(Vec3::splat(e)),
    }
}

// The box of two points, each with a radius, widened by e.
#[tactic(auto, unfolding(sdf::specs::Boxes::around, sdf::specs::Boxes::widened))]
fn around(a: Vec3, b: Vec3, r: f32, e: f32) -> Aabb
    ensures { result ≡ widened (around a b r) e }
{
    Aabb {
        lo: a.min(b).sub(Vec3::splat(r)).sub(Vec3::splat(e)),
        hi: a.max(b).add(Vec3::splat(r)).add(Vec3::splat(e)),
    }
}

// The box of a kind and its eight floats, widened by e: by the kind, so that no shape is made.
fn box_in(kind: u32, a: Vec3, b: Vec3, u: f32, v: f32, e: f32) -> Aabb
    ensures { result ≡ box_of (shape_of kind a b u v) e }
{
    match refusals::shape_kind(kind) {
        Kind::Sphere => spread(a, Vec3::splat(b.x), e),
        Kind::RoundBox => spread(a, b, e),
        Kind::Plane => Aabb {
            lo: Vec3::splat(0.0),
            hi: Vec3::splat(0.0),
        },
        Kind::Capsule => around(a, b, u, e),
        Kind::Torus => {
            let side = b.x + b.y;
            let half = Vec3 {
                x: side,
                y: b.y,
                z: side,
            };
            spread(a, half, e)
        }
        Kind::Cylinder => around(a, b, u, e),
        Kind::Cone => around(a, b, scalar::max(u, v), e),
    }
}

// The box of object o, as its row has it.
pub fn object_box(ws: &Words, fs: &Floats, o: u32) -> Aabb
    ensures { result ≡ box_at (boxes_of (plan_of ws.now fs.now)) o }
{
    if o < ws[plan::COUNT_OBJECTS] {
        if o < plan::OBJECTS {
            let i = 16 * (plan::OBJECT_ROW as usize + o as usize);
            let a = Vec3 {
                x: fs[i + 4],
                y: fs[i + 5],
                z: fs[i + 6],
            };
            let b = Vec3 {
                x: fs[i + 7],
                y: fs[i + 8],
                z: fs[i + 9],
            };
            return box_in(ws[i + 3], a, b, fs[i + 10], fs[i + 11], fs[i + 1]);
        }
    }
    bvh_boxes::object_box(ws, fs, o)
}
