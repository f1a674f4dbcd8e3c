// A range of objects over a table of their boxes: the box around it, the box of its centres, and whether it is a leaf.

#![tactic(auto)]

ghost use Rattle.std.specs.Prelude.{◌≡◌, get_or};
ghost use Rattle.scalar.specs.F32.{f0, fhalf};
ghost use Rattle.vectors.specs.Vec.{vadd, vscale, vmin, vmax};
ghost use Rattle.bvh_boxes.specs.Boxes.{nowhere, merge, box_at};
ghost use Rattle.bvh_range.specs.Range.{point, span_of, extent_of, axis_of, stops};
ghost use Rattle.bvh_range.specs.Inside.Table.{table_boxes, corner, box_of_row, with_row, put_box};
ghost use Rattle.bvh_range.specs.Inside.Numbers.{lesser_of, greater_of, Three, Numbers};

use sdf::Aabb;
use vectors::Vec3;

// A box's floats in a table.
pub const BOX_FLOATS: usize = 8;

// A table of a span's two boxes.
pub type SpanTable = [f32; 2 * BOX_FLOATS];

// A leaf by its number of objects, and by the extent of their centres.
const LEAF_MOST: usize = 4;

const NARROWEST: f32 = 0.000000001;

// The box of a range and the box of its centres.
#[derive(Clone, Copy)]
pub struct Span {
    pub hull: Aabb,
    pub centres: Aabb,
}

// A corner and a spare: four floats are worked on at once, three one by one.
#[derive(Clone, Copy)]
pub struct Four {
    pub x: f32,
    pub y: f32,
    pub z: f32,
    pub w: f32,
}

// A box as it lies in a table.
#[derive(Clone, Copy)]
pub struct Row {
    pub lo: Four,
    pub hi: Four,
}

fn splat(a: f32) -> Four
    ensures { result ≡ record { x = a; y = a; z = a; w = a } }
{
    Four {
        x: a,
        y: a,
        z: a,
        w: a,
    }
}

// One compare and one select, where `f32::min` tests for a NaN too: the callers' `a` is a number.
fn lesser(a: f32, b: f32) -> f32
    ensures { result ≡ lesser_of a b }
{
    if b <= a { b } else { a }
}

fn greater(a: f32, b: f32) -> f32
    ensures { result ≡ greater_of a b }
{
    if b >= a { b } else { a }
}

// The lower corner, for an a that is numbers: then one test a float is enough, which a NaN of b fails. It and its twin
// are written out float by float, from which the compiler makes one instruction for four.
fn lower(a: Four, b: Four) -> Four
    ensures { Three (corner a) → corner result ≡ vmin (corner a) (corner b) }
{
    Four {
        x: lesser(a.x, b.x),
        y: lesser(a.y, b.y),
        z: lesser(a.z, b.z),
        w: lesser(a.w, b.w),
    }
}

fn upper(a: Four, b: Four) -> Four
    ensures { Three (corner a) → corner result ≡ vmax (corner a) (corner b) }
{
    Four {
        x: greater(a.x, b.x),
        y: greater(a.y, b.y),
        z: greater(a.z, b.z),
        w: greater(a.w, b.w),
    }
}

#[tactic(auto, unfolding(vectors::specs::Vec::vadd, vectors::specs::Vec::vscale))]
fn halfway(a: Four, b: Four) -> Four
    ensures { corner result ≡ vscale (vadd (corner a) (corner b)) fhalf }
{
    Four {
        x: (a.x + b.x) * 0.5,
        y: (a.y + b.y) * 0.5,
        z: (a.z + b.z) * 0.5,
        w: (a.w + b.w) * 0.5,
    }
}

// The least box around both, for an a whose corners are numbers.
#[tactic(auto, unfolding(bvh_boxes::specs::Boxes::merge))]
pub fn join(a: Row, b: Row) -> Row
    ensures { Numbers (box_of_row a) → box_of_row result ≡ merge (box_of_row a) (box_of_row b) }
{
    Row {
        lo: lower(a.lo, b.lo),
        hi: upper(a.hi, b.hi),
    }
}

// The same of boxes.
pub fn wider(a: Aabb, b: Aabb) -> Aabb
    ensures { Numbers a → result ≡ merge a b }
{
    Aabb {
        lo: Vec3 {
            x: lesser(a.lo.x, b.lo.x),
            y: lesser(a.lo.y, b.lo.y),
            z: lesser(a.lo.z, b.lo.z),
        },
        hi: Vec3 {
            x: greater(a.hi.x, b.hi.x),
            y: greater(a.hi.y, b.hi.y),
            z: greater(a.hi.z, b.hi.z),
        },
    }
}

#[tactic(auto, unfolding(sdf::specs::Boxes::centre_of))]
fn middle(b: Row) -> Row
    ensures { box_of_row result ≡ point (box_of_row b) }
{
    let c = halfway(b.lo, b.hi);
    Row { lo: c, hi: c }
}

#[tactic(auto, unfolding(vectors::specs::Vec::vsplat))]
pub fn no_row() -> Row
    ensures { box_of_row result ≡ nowhere }
{
    Row {
        lo: splat(refusals::GREATEST),
        hi: splat(-refusals::GREATEST),
    }
}

pub fn box_in(r: Row) -> Aabb
    ensures { result ≡ box_of_row r }
{
    let lo = r.lo;
    let hi = r.hi;
    Aabb {
        lo: Vec3 {
            x: lo.x,
            y: lo.y,
            z: lo.z,
        },
        hi: Vec3 {
            x: hi.x,
            y: hi.y,
            z: hi.z,
        },
    }
}

// Box k of a table; past the last one what lies within no box.
pub fn row_at(t: &[f32], k: usize) -> Row
    ensures { box_of_row result ≡ box_at (table_boxes t.now) k }
{
    if k < t.len() / BOX_FLOATS {
        let i = BOX_FLOATS * k;
        return Row {
            lo: Four {
                x: t[i],
                y: t[i + 1],
                z: t[i + 2],
                w: t[i + 3],
            },
            hi: Four {
                x: t[i + 4],
                y: t[i + 5],
                z: t[i + 6],
                w: t[i + 7],
            },
        };
    }
    let none = splat(0.0 / 0.0);
    Row { lo: none, hi: none }
}

pub fn box_at(t: &[f32], k: usize) -> Aabb
    ensures { result ≡ box_at (table_boxes t.now) k }
{
    box_in(row_at(t, k))
}

#[tactic(auto, unfolding(crate::specs::Inside::Table::with_row))]
pub fn put_row(t: &mut [f32], k: usize, r: Row)
    ensures { t.new ≡ with_row t.old k r }
{
    if k < t.len() / BOX_FLOATS {
        let i = BOX_FLOATS * k;
        t[i] = r.lo.x;
        t[i + 1] = r.lo.y;
        t[i + 2] = r.lo.z;
        t[i + 3] = r.lo.w;
        t[i + 4] = r.hi.x;
        t[i + 5] = r.hi.y;
        t[i + 6] = r.hi.z;
        t[i + 7] = r.hi.w;
    }
}

fn spare_after(a: Vec3) -> Four
    ensures { result ≡ record { x = a.x; y = a.y; z = a.z; w = f0 } }
{
    Four {
        x: a.x,
        y: a.y,
        z: a.z,
        w: 0.0,
    }
}

#[tactic(auto, unfolding(crate::specs::Inside::Table::put_box))]
pub fn put_box(t: &mut [f32], k: usize, b: Aabb)
    ensures { t.new ≡ put_box t.old k b }
{
    let r = Row {
        lo: spare_after(b.lo),
        hi: spare_after(b.hi),
    };
    put_row(t, k, r);
}

// The object at a place of a range, 0 past its end.
fn object_at(os: &[u32], i: usize) -> u32
    ensures { result ≡ get_or os.now i 0 }
{
    if i < os.len() {
        return os[i];
    }
    0
}

// The box of the object at a place of a range.
pub fn member(os: &[u32], t: &[f32], i: usize) -> Row
    ensures { box_of_row result ≡ box_at (table_boxes t.now) (get_or os.now i 0) }
{
    row_at(t, object_at(os, i) as usize)
}

// What is kept in `kept` is never read: it makes the compiler hold all four floats of each row side by side.
pub fn span_of(os: &[u32], t: &[f32], kept: &mut SpanTable) -> Span
    ensures { result ≡ span_of (table_boxes t.now) os.now }
{
    let mut hull = no_row();
    let mut centres = no_row();
    for o in os {
        let m = row_at(t, *o as usize);
        hull = join(hull, m);
        centres = join(centres, middle(m));
    }
    put_row(kept, 0, hull);
    put_row(kept, 1, centres);
    Span {
        hull: box_in(hull),
        centres: box_in(centres),
    }
}

#[tactic(auto, unfolding(crate::specs::Range::extent_of))]
pub fn extent(c: Aabb) -> Vec3
    ensures { result ≡ extent_of c }
{
    c.hi.sub(c.lo)
}

// The widest axis, by the source's tests.
pub fn axis_of(e: Vec3) -> u32
    ensures { result ≡ axis_of e }
{
    if refusals::both(e.x > e.y, e.x > e.z) {
        return 0;
    }
    if e.y > e.z {
        return 1;
    }
    2
}

// Whether a range of n objects whose centres have the extent e is a leaf.
#[tactic(auto, unfolding(crate::specs::Range::stops))]
pub fn stops(n: usize, e: Vec3) -> bool
    ensures { result ≡ stops n e }
{
    if n <= LEAF_MOST {
        return true;
    }
    e.axis(axis_of(e)) < NARROWEST
}
