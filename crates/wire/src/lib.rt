// The boundary's tables: how what is lent is loaded into one table of words and floats, and how it is stored and a
// reply sent. Tables are lent one by one, and `tree` is a number, as C lends and sends them.

#![tactic(auto)]

ghost use Rattle.std.specs.Prelude.{◌≡◌, true, []};
ghost use Rattle.plan.specs.Plan.{seen};
ghost use Rattle.wire.specs.Lent.{lent_of, used_of, given_float, given_vec, table_of};
ghost use Rattle.wire.specs.Inside.Parts.{loaded_part};
ghost use Rattle.wire.specs.Lent.{plan_table, ask_table};
ghost use Rattle.wire.specs.Sent.{cleared, Sent};
ghost use Rattle.wire.specs.Inside.Parts.{stored_front, stored_plan};

use plan::{Floats, Words};
use reply::Reply;
use vectors::Vec3;

// The table, or nothing of it where it is short: its words are 0 then.
pub fn lent(t: &[u8], full: usize) -> &[u8]
    ensures { result.now ≡ lent_of t.now full }
{
    if full <= t.len() { t } else { none(t) }
}

// Nothing of a table: what a call does not look at.
pub fn none(t: &[u8]) -> &[u8]
    ensures { result.now ≡ [] }
{
    &t[..0]
}

// A table of a tree, which is looked at where `tree` is 1.
pub fn used(tree: u32, t: &[u8], full: usize) -> &[u8]
    ensures { result.now ≡ used_of tree t.now full }
{
    if tree == 1 { lent(t, full) } else { none(t) }
}

pub fn float_at(t: &[u8], i: usize) -> f32
    ensures { result ≡ given_float t.now i }
{
    scalar::float(words::word(t, i))
}

// Three floats from i on.
pub fn vec_at(t: &[u8], i: u32) -> Vec3
    ensures { result ≡ given_vec t.now i }
{
    let at = i as usize;
    Vec3 {
        x: float_at(t, at),
        y: float_at(t, at + 1),
        z: float_at(t, at + 2),
    }
}

// The words of a table, loaded from one place up to another.
pub fn load_part(t: &[u8], ws: &mut [u32], from: usize, to: usize)
    ensures { ws.new ≡ loaded_part t.now ws.old from to }
{
    if to <= ws.len() && from <= to {
        words::load(t, &mut ws[from..to]);
    }
}

// The tables as they are lent, in one; what they do not have is 0.
fn load(plan: &[u8], args: &[u8], nodes: &[u8], order: &[u8], ws: &mut Words, fs: &mut Floats)
    ensures { (ws.new ≡ table_of plan.now args.now nodes.now order.now)
        × (fs.new ≡ seen ws.new) }
{
    load_part(plan, ws, 0, plan::ARGS);
    load_part(args, ws, plan::ARGS, plan::NODES);
    load_part(nodes, ws, plan::NODES, plan::ORDER);
    load_part(order, ws, plan::ORDER, plan::ORDER + 256);
    load_part(none(order), ws, plan::ORDER + 256, plan::TABLE);
    words::floats(ws, fs);
}

// What a call on the plan works on: `need` is how many bytes of arguments it reads.
pub fn load_plan(need: usize, plan: &[u8], args: &[u8], ws: &mut Words, fs: &mut Floats)
    ensures { (ws.new ≡ plan_table need plan.now args.now)
        × (fs.new ≡ seen ws.new) }
{
    load(
        lent(plan, wire_lengths::PLAN_BYTES),
        lent(args, need),
        none(plan),
        none(plan),
        ws,
        fs,
    );
}

// What a call works on that asks by the tree or by the list.
pub fn load_ask(
    need: usize,
    plan: &[u8],
    nodes: &[u8],
    order: &[u8],
    tree: u32,
    args: &[u8],
    ws: &mut Words,
    fs: &mut Floats,
)
    ensures { (ws.new
        ≡ ask_table need plan.now nodes.now order.now tree args.now)
        × (fs.new ≡ seen ws.new) }
{
    load(
        lent(plan, wire_lengths::PLAN_BYTES),
        lent(args, need),
        used(tree, nodes, wire_lengths::NODES_BYTES),
        used(tree, order, wire_lengths::ORDER_BYTES),
        ws,
        fs,
    );
}

// The first n words of a table are stored.
fn store_front(ws: &[u32], n: usize, b: &mut [u8])
    ensures { b.new ≡ stored_front ws.now n b.old }
{
    if n <= ws.len() {
        words::store(&ws[..n], b);
    }
}

// The plan's words of a call's table.
pub fn store_plan(ws: &Words, b: &mut [u8])
    ensures { b.new ≡ stored_plan true ws.now b.old }
{
    store_front(ws, plan::ARGS, b);
}

// The first n bytes become 0, where there are so many.
pub fn clear(b: &mut [u8], n: usize)
    ensures { b.new ≡ cleared true b.old n }
{
    if n <= b.len() {
        b[..n].fill(0);
    }
}

pub fn send(r: Reply, out: &mut [u8]) -> u32
    ensures { Sent r out.old result out.new }
{
    let ws = r.words;
    words::send(&ws, out);
    r.number
}
