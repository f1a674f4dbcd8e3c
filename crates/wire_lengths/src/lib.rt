// What applies by the lengths of the tables that are lent, before a word of them is judged. `tree` is a number, as C
// sends it.

#![tactic(auto)]

ghost use Rattle.std.specs.Prelude.{◌≡◌};
ghost use Rattle.wire_lengths.specs.Lengths.{short_number, args_before, plan_before, tables_before, tree_tables_before};
ghost use Rattle.wire_lengths.specs.Lengths.{tree_before, ask_before};

// Bytes of a plan, of nodes, of an order, and of an answer.
pub const PLAN_BYTES: usize = 89152;

pub const NODES_BYTES: usize = 18396;

pub const ORDER_BYTES: usize = 1024;

pub const OUT_BYTES: usize = 64;

// 2 where a table is short of its full size.
fn short(bytes: usize, full: usize) -> u32
    ensures { result ≡ short_number bytes full }
{
    refusals::unless(refusals::NO_ROOM, full <= bytes)
}

// What applies by the lengths of arguments and answer.
pub fn args_before(need: usize, args: usize, out: usize) -> u32
    ensures { result ≡ args_before need args out }
{
    refusals::lower(short(args, need), short(out, OUT_BYTES))
}

// The same, with the plan's.
pub fn plan_before(plan: usize, need: usize, args: usize, out: usize) -> u32
    ensures { result ≡ plan_before plan need args out }
{
    refusals::lower(short(plan, PLAN_BYTES), args_before(need, args, out))
}

// What applies by the lengths of a tree's two tables.
pub fn tables_before(nodes: usize, order: usize) -> u32
    ensures { result ≡ tables_before nodes order }
{
    refusals::lower(short(nodes, NODES_BYTES), short(order, ORDER_BYTES))
}

// What applies to a call that writes the tree's tables.
pub fn tree_tables_before(
    plan: usize,
    nodes: usize,
    order: usize,
    need: usize,
    args: usize,
    out: usize,
) -> u32
    ensures { result ≡ tree_tables_before plan nodes order need args out }
{
    refusals::lower(
        plan_before(plan, need, args, out),
        tables_before(nodes, order),
    )
}

// What applies by `tree`: 1 is the tree, 0 the plain list.
fn tree_before(tree: u32, nodes: usize, order: usize) -> u32
    ensures { result ≡ tree_before tree nodes order }
{
    if tree == 1 {
        tables_before(nodes, order)
    } else {
        refusals::unless(refusals::BAD_NUMBER, tree == 0)
    }
}

pub fn ask_before(
    need: usize,
    plan: usize,
    nodes: usize,
    order: usize,
    tree: u32,
    args: usize,
    out: usize,
) -> u32
    ensures { result ≡ ask_before need plan nodes order tree args out }
{
    refusals::lower(
        plan_before(plan, need, args, out),
        tree_before(tree, nodes, order),
    )
}
