// The source's `build_recursive` over lent tables: the nodes, the order cut in two parts at each call, and a table of
// the objects' boxes.

#![tactic(auto)]

ghost use Rattle.std.specs.Prelude.{◌≡◌, ◌*◌, ◌<◌, ◌≤◌, length, replicate};
ghost use Rattle.words.specs.Lists.{list_from};
ghost use Rattle.plan.specs.Plan.{plan_of};
ghost use Rattle.bvh_boxes.specs.Boxes.{boxes_of};
ghost use Rattle.bvh_range.specs.Inside.Table.{table_boxes};
ghost use Rattle.bvh_build.specs.Build.{build_of};
ghost use Rattle.bvh_build.specs.Encode.{node_words, laid};
ghost use Rattle.bvh_build.specs.Inside.Narrow.{low32};
ghost use Rattle.bvh_build.specs.Tables.{built_of};
ghost use Rattle.bvh_build.specs.Inside.Lays.{Lays, Room, Builds, BuildsFew, zero_box};

use bvh_range::SpanTable;
use plan::{Floats, Nodes, Order, Words};
use sdf::Aabb;

// A table of the boxes of all objects.
type Boxes = [f32; bvh_rules::PLACES * bvh_range::BOX_FLOATS];

// The next free place, and whether no node is too deep. No Option: the place is told either way, and the building goes
// on from it.
#[derive(Clone, Copy)]
pub struct Built {
    pub next: usize,
    pub low: bool,
}

// A number as a word, 0 where it does not fit.
pub fn narrow(x: usize) -> u32
    ensures { result ≡ low32 x }
{
    u32::try_from(x).unwrap_or(0)
}

fn put_node(nw: &mut Nodes, at: usize, b: Aabb, start: u32, count: u32, right: u32)
    ensures { nw.new ≡ laid nw.old (9 * at) (node_words b start count right) }
{
    if at < bvh_rules::NODES_MOST {
        let i = bvh_rules::NODE_WORDS * at;
        nw[i] = scalar::bits(b.lo.x);
        nw[i + 1] = scalar::bits(b.lo.y);
        nw[i + 2] = scalar::bits(b.lo.z);
        nw[i + 3] = scalar::bits(b.hi.x);
        nw[i + 4] = scalar::bits(b.hi.y);
        nw[i + 5] = scalar::bits(b.hi.z);
        nw[i + 6] = start;
        nw[i + 7] = count;
        nw[i + 8] = right;
        return;
    }
    let _words: &[u32] = nw;
}

// Builds the tree of a range from place `at` on, its first leaf starting at `start`. A range with no room leaves all as
// it is.
fn build_recursive(
    nw: &mut Nodes,
    os: &mut [u32],
    t: &[f32],
    kept: &mut SpanTable,
    at: usize,
    start: usize,
    levels: usize,
) -> Built
    ensures { Room os.old at start
        → Lays (build_of (table_boxes t.now) os.old) nw.old at start levels result
        nw.new os.new }
{
    let n = os.len();
    if at >= bvh_rules::NODES_MOST {
        return Built {
            next: at,
            low: false,
        };
    }
    let s = bvh_range::span_of(os, t, kept);
    let hull = s.hull;
    let centres = s.centres;
    if bvh_range::stops(n, bvh_range::extent(centres)) {
        put_node(nw, at, hull, narrow(start), narrow(n), 0);
        return Built {
            next: at + 1,
            low: levels > 0,
        };
    }
    let mid = bvh_split::cut(os, t, centres);
    let below = levels.saturating_sub(1);
    let left = build_recursive(nw, &mut os[..mid], t, kept, at + 1, start, below);
    put_node(nw, at, hull, 0, 0, narrow(left.next));
    let second = std::num::wrapping_add_usize(start, mid);
    let right = build_recursive(nw, &mut os[mid..], t, kept, left.next, second, below);
    Built {
        next: right.next,
        low: refusals::both(left.low, right.low),
    }
}

// The boxes of a plan's objects, laid over a table.
fn load_boxes(ws: &Words, fs: &Floats, t: &mut [f32])
    ensures { table_boxes t.new
        ≡ laid (table_boxes t.old) 0 (boxes_of (plan_of ws.now fs.now)) }
{
    for o in 0..bvh_rules::object_count(ws) {
        bvh_range::put_box(t, o as usize, bvh_boxes::object_box(ws, fs, o));
    }
}

// Each place's own number.
fn number(os: &mut [u32])
    ensures { os.new ≡ list_from low32 0 (length os.old) }
{
    for (i, place) in os.iter_mut().enumerate() {
        *place = narrow(i);
    }
}

fn build_with(ws: &Words, fs: &Floats, nw: &mut Nodes, os: &mut [u32], t: &mut Boxes) -> Built
    ensures { table_boxes t.old ≡ replicate 256 zero_box
        → length os.old ≡ length (plan_of ws.now fs.now).objects
        → 0 < length (plan_of ws.now fs.now).objects
        → length (plan_of ws.now fs.now).objects ≤ 256
        → Lays (built_of (plan_of ws.now fs.now)) nw.old 0 0 64 result
        nw.new os.new }
{
    load_boxes(ws, fs, t);
    number(os);
    let mut kept: SpanTable = [0.0; 2 * bvh_range::BOX_FLOATS];
    build_recursive(nw, os, t, &mut kept, 0, 0, bvh_rules::LEVELS)
}

// The tree of n objects, the first n places of the order being theirs.
fn build_front(ws: &Words, fs: &Floats, nw: &mut Nodes, ow: &mut [u32], n: usize) -> Built
    ensures { n ≡ length (plan_of ws.now fs.now).objects → length ow.old ≡ 256
        → 0 < n → n ≤ 256
        → Builds (plan_of ws.now fs.now) nw.old ow.old result
        nw.new ow.new }
{
    if n > ow.len() {
        return Built {
            next: 0,
            low: false,
        };
    }
    let mut t: Boxes = [0.0; bvh_rules::PLACES * bvh_range::BOX_FLOATS];
    build_with(ws, fs, nw, &mut ow[..n], &mut t)
}

// The tree of a plan's objects, in tables that stand as they are past it; of more than 256 nothing is built.
pub fn build(ws: &Words, fs: &Floats, nw: &mut Nodes, ow: &mut Order) -> Built
    ensures { BuildsFew (plan_of ws.now fs.now) nw.old ow.old result
        nw.new ow.new }
{
    let n = bvh_rules::object_count(ws) as usize;
    if n == 0 {
        return Built { next: 0, low: true };
    }
    if n > bvh_rules::PLACES {
        return Built {
            next: 0,
            low: false,
        };
    }
    build_front(ws, fs, nw, ow, n)
}
