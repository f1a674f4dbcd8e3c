// The checker of the tree rules, over the tree in a call's table.

#![tactic(auto)]

ghost use Rattle.std.specs.Prelude.{◌≡◌, length};
ghost use Rattle.plan.specs.Plan.{plan_of};
ghost use Rattle.bvh_boxes.specs.Boxes.{boxes_of};
ghost use Rattle.bvh_rules.specs.Nodes.{nodes_of, order_of};
ghost use Rattle.bvh_rules.specs.Inside.Steps.{held_at, holds_all, leaf_words, leaf_ok, hull_ok, kind_of};
ghost use Rattle.bvh_rules.specs.Inside.Steps.{check_of, order_ok, whole_of};
ghost use Rattle.bvh_rules.specs.Check.{judge_of, is_good, refused_number, standing_number};
ghost use Rattle.bvh_check.specs.Inside.Part.{told};

use bvh_rules::{Kind, Node, Sub};
use plan::{Floats, Words};
use sdf::Aabb;

// A subtree as the walk hands it up: a `Sub` with its end in a word, since bytes that are spare are slow to copy.
#[derive(Clone, Copy)]
struct Part {
    next: u32,
    ends: u32,
}

#[tactic(auto, unfolding(bvh_rules::specs::Inside::Steps::held_at))]
fn held(ws: &Words, fs: &Floats, b: Aabb, i: usize) -> bool
    ensures { result ≡ held_at (order_of ws.now)
        (boxes_of (plan_of ws.now fs.now)) b i }
{
    bvh_boxes::inside(bvh_rows::object_box(ws, fs, bvh_rules::order_at(ws, i)), b)
}

// Whether the boxes of the objects at these places of the order lie within b.
fn holds_all(ws: &Words, fs: &Floats, b: Aabb, start: u32, count: u32) -> bool
    ensures { result ≡ holds_all (order_of ws.now)
        (boxes_of (plan_of ws.now fs.now)) b start count }
{
    for j in 0..count {
        if !held(ws, fs, b, start as usize + j as usize) {
            return false;
        }
    }
    true
}

#[tactic(auto, unfolding(bvh_rules::specs::Inside::Steps::leaf_words))]
fn leaf_words(v: Node, n: usize, start: usize) -> bool
    ensures { result ≡ leaf_words v n start }
{
    refusals::both(
        refusals::both(v.right == 0, v.start as usize == start),
        refusals::both(start <= n, v.count as usize <= n.saturating_sub(start)),
    )
}

fn objects(ws: &Words, fs: &Floats) -> usize
    ensures { result ≡ length (boxes_of (plan_of ws.now fs.now)) }
{
    bvh_rules::object_count(ws) as usize
}

fn leaf_ok(ws: &Words, fs: &Floats, v: Node, start: usize) -> bool
    ensures { result ≡ leaf_ok (order_of ws.now)
        (boxes_of (plan_of ws.now fs.now)) v start }
{
    if leaf_words(v, objects(ws, fs), start) {
        // Its own start is `start`.
        return holds_all(ws, fs, v.hull, v.start, v.count);
    }
    false
}

fn hull_ok(b: Aabb, outer: Aabb, at: usize) -> bool
    ensures { result ≡ hull_ok b outer at }
{
    refusals::both(
        at < bvh_rules::NODES_MOST,
        refusals::both(bvh_boxes::finite(b), bvh_boxes::inside(b, outer)),
    )
}

fn kind_of(ws: &Words, fs: &Floats, v: Node, outer: Aabb, at: u32, start: usize) -> Option<Kind>
    ensures { result ≡ kind_of (order_of ws.now)
        (boxes_of (plan_of ws.now fs.now)) v outer at start }
{
    if hull_ok(v.hull, outer, at as usize) {
        if v.count == 0 {
            if v.start == 0 {
                return Some(Kind::Inner(at + 1, v.right));
            }
            return None;
        }
        if leaf_ok(ws, fs, v, start) {
            return Some(Kind::Leaf(at + 1, start + v.count as usize));
        }
    }
    None
}

// The subtree at a place, whose first leaf must start at `start` and whose box lies within outer, with so many levels
// left.
fn check_sub(
    ws: &Words,
    fs: &Floats,
    outer: Aabb,
    at: u32,
    start: usize,
    level: usize,
) -> Option<Part>
    ensures { told result ≡ check_of level (nodes_of ws.now) (nodes_of fs.now)
        (order_of ws.now) (boxes_of (plan_of ws.now fs.now)) outer at start }
{
    if level == 0 {
        return None;
    }
    let v = bvh_rules::node_at(ws, fs, at as usize);
    let k = kind_of(ws, fs, v, outer, at, start)?;
    match k {
        Kind::Leaf(next, ends) => {
            // The proof has from it that the end, no more than this count, fits a word.
            let _most = bvh_rules::object_count(ws);
            Some(Part {
                next,
                ends: ends as u32,
            })
        }
        Kind::Inner(left, right) => {
            let part = check_sub(ws, fs, v.hull, left, start, level - 1)?;
            if right == part.next {
                check_sub(ws, fs, v.hull, part.next, part.ends as usize, level - 1)
            } else {
                None
            }
        }
    }
}

// Whether the order table holds each of n objects once.
fn check_order(ws: &Words, n: usize) -> bool
    ensures { result ≡ order_ok (order_of ws.now) n }
{
    if n > bvh_rules::PLACES {
        return false;
    }
    let mut seen = [false; bvh_rules::PLACES];
    for i in 0..n {
        let x = bvh_rules::order_at(ws, i) as usize;
        if x >= n {
            return false;
        }
        if seen[x] {
            return false;
        }
        seen[x] = true;
    }
    true
}

fn whole(s: Option<Part>, n: usize) -> Option<Sub>
    ensures { result ≡ whole_of (told s) n }
{
    // A larger one is copied in pieces that overlap, at each node (docs/SPEED.md).
    prove!(size_of::<Option<Part>>() <= 12);
    let tree = s?;
    let ends = tree.ends as usize;
    if ends == n {
        Some(Sub {
            next: tree.next,
            ends,
        })
    } else {
        None
    }
}

// The whole tree, with so many levels: how many nodes it has and how many objects.
pub fn judge(ws: &Words, fs: &Floats, levels: usize) -> Option<Sub>
    ensures { result ≡ judge_of levels (nodes_of ws.now) (nodes_of fs.now)
        (order_of ws.now) (boxes_of (plan_of ws.now fs.now)) }
{
    let n = objects(ws, fs);
    if n == 0 {
        return Some(Sub { next: 0, ends: 0 });
    }
    if check_order(ws, n) {
        let top = bvh_rules::node_at(ws, fs, 0);
        return whole(check_sub(ws, fs, top.hull, 0, 0, levels), n);
    }
    None
}

pub fn is_good(s: Option<Sub>) -> bool
    ensures { result ≡ is_good s }
{
    s.is_some()
}

// What an offered tree gets that is not good with 64 levels: 6 for a rule other than depth, 7 for depth alone.
pub fn refused_number(ws: &Words, fs: &Floats) -> u32
    ensures { result ≡ refused_number (nodes_of ws.now) (nodes_of fs.now)
        (order_of ws.now) (boxes_of (plan_of ws.now fs.now)) }
{
    if is_good(judge(ws, fs, bvh_rules::LEVELS_MOST)) {
        return refusals::TOO_DEEP;
    }
    refusals::BAD_TREE
}

// What the standing tree gets: 8 where it breaks a rule.
#[tactic(auto, unfolding(bvh_rules::specs::Check::standing_number))]
pub fn standing_number(ws: &Words, fs: &Floats) -> u32
    ensures { result ≡ standing_number (nodes_of ws.now) (nodes_of fs.now)
        (order_of ws.now) (boxes_of (plan_of ws.now fs.now)) }
{
    if is_good(judge(ws, fs, bvh_rules::LEVELS)) {
        return 0;
    }
    refusals::NO_TREE
}
