// The public calls that make a tree of a loaded table stand. `before` is a number that applies already; `ws` and `fs`
// are a call's table.

#![tactic(auto)]

ghost use Rattle.std.specs.Prelude.{◌≡◌, cond, length, replicate};
ghost use Rattle.words.specs.Lists.{list_from};
ghost use Rattle.plan.specs.Plan.{plan_of};
ghost use Rattle.bemitondry_tree.specs.Trees.{size_in, front_word, judged_tree, offered_tree};
ghost use Rattle.bemitondry_tree.specs.Inside.Leaves.{BuildLeaves, OfferLeaves};

use bvh_rules::Sub;
use plan::{Floats, Nodes, Order, Words};
use reply::Reply;

// Every word becomes 0.
fn clear(ws: &mut [u32])
    ensures { ws.new ≡ replicate (length ws.old) 0 }
{
    ws.fill(0);
}

// The tree of the plan's objects, in tables of its own; where it is not built or is too deep they are all zero.
pub fn build(before: u32, ws: &Words, fs: &Floats, nw: &mut Nodes, ow: &mut Order) -> Reply
    ensures { BuildLeaves before (plan_of ws.now fs.now) result
        nw.new ow.new }
{
    clear(nw);
    clear(ow);
    let o = plan_test::objects_number(ws, fs);
    if o == 0 {
        let b = bvh_build::build(ws, fs, nw, ow);
        let n = refusals::lower(before, refusals::unless(refusals::TOO_DEEP, b.low));
        if n == 0 {
            return reply::done(bvh_build::narrow(b.next), 0, 0, 0, 0, 0, 0, 0);
        }
        clear(nw);
        clear(ow);
        return reply::refused(n);
    }
    reply::refused(refusals::lower(before, o))
}

fn size_in(s: Option<Sub>) -> usize
    ensures { result ≡ size_in s }
{
    match s {
        None => 0,
        Some(tree) => tree.next as usize,
    }
}

fn word_if(there: bool, word: u32) -> u32
    ensures { result ≡ cond there word 0 }
{
    if there { word } else { 0 }
}

// The first k words from a place on, and zeros.
fn copy_front(ws: &Words, from: u32, k: usize, to: &mut [u32])
    ensures { to.new ≡ list_from (front_word ws.now from k) 0 (length to.old) }
{
    for (i, word) in to.iter_mut().enumerate() {
        *word = word_if(i < k, plan::word_in(ws, from as usize + i));
    }
}

// What the tree gets that is offered as the table's nodes and order, good or not with 64 levels.
fn offered_number(s: Option<Sub>, ws: &Words, fs: &Floats) -> u32
    ensures { s ≡ judged_tree ws.now fs.now → result ≡ offered_tree ws.now fs.now }
{
    if bvh_check::is_good(s) {
        return 0;
    }
    bvh_check::refused_number(ws, fs)
}

// The tree offered as the table's nodes and order: where it is accepted, its words in tables of their own with zeros
// past them; else zeros.
pub fn offer(before: u32, ws: &Words, fs: &Floats, nw: &mut Nodes, ow: &mut Order) -> Reply
    ensures { OfferLeaves before ws.now fs.now result nw.new ow.new }
{
    // Only as a slice does a table tell the proof its length.
    let _words: &[u32] = ws;
    let o = plan_test::objects_number(ws, fs);
    if o == 0 {
        let s = bvh_check::judge(ws, fs, bvh_rules::LEVELS);
        let n = refusals::lower(before, offered_number(s, ws, fs));
        if n == 0 {
            let size = bvh_build::narrow(size_in(s));
            copy_front(ws, plan::NODES as u32, 9 * (size as usize), nw);
            copy_front(
                ws,
                plan::ORDER as u32,
                bvh_rules::object_count(ws) as usize,
                ow,
            );
            return reply::done(size, 0, 0, 0, 0, 0, 0, 0);
        }
        clear(nw);
        clear(ow);
        return reply::refused(n);
    }
    clear(nw);
    clear(ow);
    reply::refused(refusals::lower(before, o))
}
