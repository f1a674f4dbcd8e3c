// The search of a tree for the nearest object: a stack of 64 places, each box worked out once and held as a square, so
// that few roots are taken; and a plan's field by the tree or by the list.

#![tactic(auto)]

ghost use Rattle.std.specs.Prelude.{◌≡◌, T, [], ◌∷◌, slice_index_or, slice_set};
ghost use Rattle.std.specs.Float.{binary32, nan};
ghost use Rattle.std.specs.Float.Ieee.{fits};
ghost use Rattle.scalar.specs.F32.{f0};
ghost use Rattle.scalar.specs.Extremes.{fmax};
ghost use Rattle.root_tests.specs.Inside.Tests.{limit_of};
ghost use Rattle.plan.specs.Nearest.{hit_of, closer};
ghost use Rattle.bvh_rules.specs.Nodes.{nodes_most, nodes_of, order_of};
ghost use Rattle.bvh_search.specs.Search.{piece_in, leaf_scan, places_of, searched, run_of, search_of};
ghost use Rattle.bvh_search.specs.Field.{hit_by, field_by};
ghost use Rattle.bvh_search.specs.Inside.Machine.{nobody, box_square, holding, ended, popping, next_of, scanned_of};
ghost use Rattle.bvh_search.specs.Inside.Machine.{tables, square_at, squares_at};
ghost use Rattle.bvh_search.specs.Inside.Machine.{children_of, opened_of, step_of};

use bvh_rules::Node;
use plan::{DistHit, Floats, Words};
use sdf::Aabb;
use vectors::Vec3;

// A node that waits, with its key.
#[derive(Clone, Copy)]
pub struct Waiting {
    pub at: u32,
    pub key: f64,
}

// The stack's places, and how many may wait where two more are to find room.
pub const STACK: usize = 64;

const WAIT_MOST: usize = 62;

// A search needs nothing of what its stack holds, so a march lends the same one each time, and it is made once, of
// FREE.
pub type Stack = [Waiting; STACK];

pub const FREE: Waiting = Waiting { at: 0, key: 0.0 };

// The most nodes of a tree, so the most that are popped, and the order's places.
const NODES: u32 = 511;

const PLACES: u32 = 256;

// The hit, nodes popped and objects evaluated; `whole` where neither the budget nor the room ran out. No Option: the
// other three are told either way, and `demand_three` says that an accepted tree's are whole.
#[derive(Clone, Copy)]
pub struct Searched {
    pub hit: DistHit,
    pub popped: u32,
    pub evaluated: u32,
    pub whole: bool,
}

// A leaf's objects: the best hit, and how many were evaluated.
#[derive(Clone, Copy)]
pub struct Scan {
    pub hit: DistHit,
    pub evaluated: u32,
}

// Whether the search goes on, has ended or has run out of room.
#[derive(Clone, Copy)]
pub enum Standing {
    Going,
    Ended,
    Full,
}

// The node in hand with its key, which is the square of its box distance, an f32 held as f64; how many wait; the best
// hit with the limit of its distance; and how the search stands.
#[derive(Clone, Copy)]
pub struct State {
    pub at: u32,
    pub key: f64,
    pub sp: usize,
    pub hit: DistHit,
    pub lim: f64,
    pub popped: u32,
    pub evaluated: u32,
    pub standing: Standing,
}

// The greatest of a, b and 0 by two selects, of which that with 0 is one instruction.
fn gap(a: f32, b: f32) -> f32
    ensures { result ≡ fmax (fmax a b) f0 }
{
    let v = scalar::max(b, 0.0);
    if a > v { a } else { v }
}

// The square of the distance from p to a box.
fn box_square(p: Vec3, b: Aabb) -> f32
    ensures { result ≡ box_square p b }
{
    let lo = b.lo;
    let hi = b.hi;
    let d = Vec3 {
        x: gap(lo.x - p.x, p.x - hi.x),
        y: gap(lo.y - p.y, p.y - hi.y),
        z: gap(lo.z - p.z, p.z - hi.z),
    };
    d.dot(d)
}

#[tactic(auto, unfolding(crate::specs::Inside::Machine::square_at))]
fn square_at(ws: &Words, fs: &Floats, p: Vec3, at: u32) -> f32
    ensures { result ≡ square_at (nodes_of ws.now) (nodes_of fs.now) p at }
{
    let v = bvh_rules::node_at(ws, fs, at as usize);
    box_square(p, v.hull)
}

// The squares of two nodes.
#[derive(Clone, Copy)]
pub struct Pair {
    pub l: f32,
    pub r: f32,
}

// Where both are in the table, as they are in every tree that stands, neither waits for a test of the other's place.
#[tactic(auto, unfolding(crate::specs::Inside::Machine::square_at))]
fn squares(ws: &Words, fs: &Floats, p: Vec3, l: u32, r: u32) -> Pair
    ensures { result ≡ squares_at (nodes_of ws.now) (nodes_of fs.now) p l r }
{
    if l < NODES {
        if r < NODES {
            let a = bvh_rules::node_at(ws, fs, l as usize);
            let b = bvh_rules::node_at(ws, fs, r as usize);
            return Pair {
                l: box_square(p, a.hull),
                r: box_square(p, b.hull),
            };
        }
    }
    Pair {
        l: square_at(ws, fs, p, l),
        r: square_at(ws, fs, p, r),
    }
}

fn places(v: Node) -> u32
    ensures { result ≡ places_of v }
{
    v.count.min(PLACES.saturating_sub(v.start))
}

// The nearer of the best hit and the object at place i of the order.
#[tactic(auto, unfolding(crate::specs::Search::piece_in))]
fn nearer_in(ws: &Words, fs: &Floats, p: Vec3, i: usize, best: DistHit) -> DistHit
    ensures { result
        ≡ closer best (hit_of (piece_in ws.now fs.now (order_of ws.now) i) p) }
{
    let o = bvh_rules::order_at(ws, i);
    plan_near::nearer(ws, fs, plan::OBJECT_ROW as usize + o as usize, p, best)
}

// The best of a hit and c objects from place s of the order on.
fn leaf_hit(ws: &Words, fs: &Floats, p: Vec3, s: u32, c: u32, best: DistHit) -> Scan
    ensures { result ≡ leaf_scan ws.now fs.now (order_of ws.now) p s c best }
{
    let mut hit = best;
    for j in 0..c {
        hit = nearer_in(ws, fs, p, s as usize + j as usize, hit);
    }
    Scan { hit, evaluated: c }
}

fn waiting_in(stack: &Stack, k: usize) -> Waiting
    ensures { result ≡ slice_index_or stack.now k nobody }
{
    if k < STACK {
        return stack[k];
    }
    let _stack: &[Waiting] = stack;
    Waiting {
        at: 0,
        key: 0.0 / 0.0,
    }
}

// The state with another node in hand.
fn holding(s: State, w: Waiting, sp: usize) -> State
    ensures { result ≡ holding s w sp }
{
    State {
        at: w.at,
        key: w.key,
        sp,
        ..s
    }
}

fn ended(s: State, standing: Standing) -> State
    ensures { result ≡ ended s standing }
{
    State { standing, ..s }
}

fn popping(s: State) -> State
    ensures { result ≡ popping s }
{
    State {
        popped: std::num::wrapping_add_u32(s.popped, 1),
        ..s
    }
}

// The next waiting node in hand, or the end.
#[tactic(auto, unfolding(crate::specs::Inside::Machine::next_of))]
fn next(stack: &Stack, s: State) -> State
    ensures { result ≡ next_of stack.now s }
{
    if s.sp == 0 {
        return ended(s, Standing::Ended);
    }
    let sp = s.sp - 1;
    holding(s, waiting_in(stack, sp), sp)
}

// A leaf's objects evaluated, and the next node in hand.
fn scanned(ws: &Words, fs: &Floats, p: Vec3, stack: &Stack, s: State, v: Node) -> State
    ensures { result ≡ scanned_of (order_of ws.now)
        ws.now fs.now p stack.now s v }
{
    let seen = leaf_hit(ws, fs, p, v.start, places(v), s.hit);
    let hit = seen.hit;
    let after = State {
        hit,
        lim: root_tests::limit(hit.d),
        evaluated: std::num::wrapping_add_u32(s.evaluated, seen.evaluated),
        ..s
    };
    next(stack, after)
}

// A node waiting at place sp.
fn wait(stack: &mut Stack, sp: usize, w: Waiting)
    ensures { stack.new ≡ slice_set stack.old sp w }
{
    if sp < STACK {
        stack[sp] = w;
        return;
    }
    let _stack: &[Waiting] = stack;
}

// The children of the node in hand: the nearer one in hand, the farther one waiting.
fn children(ws: &Words, fs: &Floats, p: Vec3, stack: &mut Stack, s: State, l: u32, r: u32) -> State
    ensures { tables stack.new result
        ≡ children_of (nodes_of ws.now) (nodes_of fs.now)
        p stack.old s l r }
{
    if s.sp > WAIT_MOST {
        return ended(s, Standing::Full);
    }
    let k = squares(ws, fs, p, l, r);
    let kl = k.l as f64;
    let kr = k.r as f64;
    let left = Waiting { at: l, key: kl };
    let right = Waiting { at: r, key: kr };
    if root_tests::left_first(k.l, k.r, kl, kr) {
        wait(stack, s.sp, right);
        return holding(s, left, s.sp + 1);
    }
    wait(stack, s.sp, left);
    holding(s, right, s.sp + 1)
}

// The node in hand, near enough.
#[tactic(auto, unfolding(crate::specs::Inside::Machine::opened_of))]
fn opened(ws: &Words, fs: &Floats, p: Vec3, stack: &mut Stack, s: State, v: Node) -> State
    ensures { tables stack.new result
        ≡ opened_of (nodes_of ws.now) (nodes_of fs.now) (order_of ws.now)
        ws.now fs.now p stack.old s v }
{
    if s.at < NODES {
        if v.count == 0 {
            return children(ws, fs, p, stack, s, s.at + 1, v.right);
        }
        return scanned(ws, fs, p, stack, s, v);
    }
    next(stack, s)
}

// One pop.
#[tactic(auto, unfolding(crate::specs::Inside::Machine::step_of))]
fn step(ws: &Words, fs: &Floats, p: Vec3, stack: &mut Stack, s: State) -> State
    ensures { s.lim ≡ limit_of s.hit.d → T (fits binary32 s.key)
        → tables stack.new result
        ≡ step_of (nodes_of ws.now) (nodes_of fs.now) (order_of ws.now)
        ws.now fs.now p stack.old s }
{
    let hit = s.hit;
    if root_tests::far_off(s.key, hit.d, s.lim) {
        return next(stack, popping(s));
    }
    opened(
        ws,
        fs,
        p,
        stack,
        popping(s),
        bvh_rules::node_at(ws, fs, s.at as usize),
    )
}

fn answer(s: State, whole: bool) -> Searched
    ensures { result ≡ searched s.hit s.popped s.evaluated whole }
{
    Searched {
        hit: s.hit,
        popped: s.popped,
        evaluated: s.evaluated,
        whole,
    }
}

// From the root on, with the stack lent.
fn run(ws: &Words, fs: &Floats, p: Vec3, bound: DistHit, stack: &mut Stack) -> Searched
    ensures { result ≡ run_of (nodes_of ws.now) (nodes_of fs.now) (order_of ws.now)
        ws.now fs.now p nodes_most (0 ∷ []) bound 0 0 }
{
    // Only as a slice does a table tell the proof its length.
    let _stack: &[Waiting] = stack;
    let mut s = State {
        at: 0,
        key: square_at(ws, fs, p, 0) as f64,
        sp: 0,
        hit: bound,
        lim: root_tests::limit(bound.d),
        popped: 0,
        evaluated: 0,
        standing: Standing::Going,
    };
    // The pops are counted in the state, as the answer tells them.
    while s.popped < NODES {
        s = step(ws, fs, p, stack, s);
        match s.standing {
            Standing::Going => {}
            Standing::Ended => return answer(s, true),
            Standing::Full => return answer(s, false),
        }
    }
    answer(s, false)
}

// The nearest object by the tree, from a bound with its material.
#[tactic(auto, unfolding(crate::specs::Search::search_of))]
fn search(ws: &Words, fs: &Floats, stack: &mut Stack, p: Vec3, bound: DistHit) -> Searched
    ensures { result ≡ search_of (nodes_of ws.now) (nodes_of fs.now) (order_of ws.now)
        ws.now fs.now p bound }
{
    if ws[plan::COUNT_OBJECTS] == 0 {
        return Searched {
            hit: bound,
            popped: 0,
            evaluated: 0,
            whole: true,
        };
    }
    run(ws, fs, p, bound, stack)
}

// The nearest object from a bound: by the tree where it is 1, and else by the list, which evaluates every object.
// `tree` is a number, as callers have it: an enum would ask more of them.
#[tactic(auto, unfolding(crate::specs::Field::hit_by))]
pub fn hit(
    tree: u32,
    ws: &Words,
    fs: &Floats,
    stack: &mut Stack,
    p: Vec3,
    bound: DistHit,
) -> Searched
    ensures { result ≡ hit_by tree ws.now fs.now p bound }
{
    if tree == 1 {
        return search(ws, fs, stack, p, bound);
    }
    Searched {
        hit: plan_near::query_linear(ws, fs, p, bound),
        popped: 0,
        evaluated: ws[plan::COUNT_OBJECTS],
        whole: true,
    }
}

// The source's `dist_mat`: planes, then objects.
#[tactic(auto, unfolding(crate::specs::Field::field_by))]
pub fn field(tree: u32, ws: &Words, fs: &Floats, stack: &mut Stack, p: Vec3) -> DistHit
    ensures { result ≡ field_by tree ws.now fs.now p }
{
    let s = hit(tree, ws, fs, stack, p, plan_near::planes_hit(ws, fs, p));
    s.hit
}
