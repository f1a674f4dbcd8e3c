// Boxes in order, and the boxes of a plan's objects.

#![tactic(auto)]

ghost use Rattle.std.specs.Prelude.{◌≡◌};
ghost use Rattle.plan.specs.Plan.{plan_of};
ghost use Rattle.bvh_boxes.specs.Boxes.{finite_box, all_at_most, inside, nowhere, merge, no_box, box_at, boxes_of};

use sdf::Aabb;
use vectors::Vec3;

#[tactic(auto, unfolding(crate::specs::Boxes::finite_box))]
pub fn finite(b: Aabb) -> bool
    ensures { result ≡ finite_box b }
{
    refusals::both(
        refusals::within(b.lo, refusals::GREATEST),
        refusals::within(b.hi, refusals::GREATEST),
    )
}

#[tactic(auto, unfolding(crate::specs::Boxes::all_at_most))]
fn at_most(a: Vec3, b: Vec3) -> bool
    ensures { result ≡ all_at_most a b }
{
    refusals::both(a.x <= b.x, refusals::both(a.y <= b.y, a.z <= b.z))
}

// Whether a lies within b.
pub fn inside(a: Aabb, b: Aabb) -> bool
    ensures { result ≡ inside a b }
{
    refusals::both(at_most(b.lo, a.lo), at_most(a.hi, b.hi))
}

// The box around nothing.
#[tactic(auto, unfolding(vectors::specs::Vec::vsplat))]
pub fn nowhere() -> Aabb
    ensures { result ≡ nowhere }
{
    Aabb {
        lo: Vec3::splat(refusals::GREATEST),
        hi: Vec3::splat(-refusals::GREATEST),
    }
}

#[tactic(auto, unfolding(crate::specs::Boxes::merge))]
pub fn merge(a: Aabb, b: Aabb) -> Aabb
    ensures { result ≡ merge a b }
{
    Aabb {
        lo: a.lo.min(b.lo),
        hi: a.hi.max(b.hi),
    }
}

// What stands for the box of no object: it lies within no box.
pub fn no_box() -> Aabb
    ensures { result ≡ no_box }
{
    Aabb {
        lo: Vec3::splat(0.0 / 0.0),
        hi: Vec3::splat(0.0 / 0.0),
    }
}

// The box of object o, widened by its blend; past the last object what lies within no box.
pub fn object_box(ws: &plan::Words, fs: &plan::Floats, o: u32) -> Aabb
    ensures { result ≡ box_at (boxes_of (plan_of ws.now fs.now)) o }
{
    if o < ws[plan::COUNT_OBJECTS] {
        let h = plan::head_at(ws, fs, plan::OBJECT_ROW as usize + o as usize);
        let shape = h.shape;
        return shape.object_box(h.blend);
    }
    no_box()
}
