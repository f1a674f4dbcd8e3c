// Builds and offers on bytes: what is lent is loaded, the tree built or judged, and what is left stored and sent.

#![tactic(auto)]

ghost use Rattle.std.specs.Prelude.{◌≡◌};
ghost use Rattle.wire_tree.specs.Trees.{build_stores, BuildSent, OfferSent};

// A build leaves its tables where it is done, and zeros where the tree is too deep.
fn build_stores(number: u32) -> bool
    ensures { result ≡ build_stores number }
{
    number == 0 || number == refusals::TOO_DEEP
}

pub fn build(plan: &[u8], nodes: &mut [u8], order: &mut [u8], out: &mut [u8]) -> u32
    ensures { BuildSent plan.now nodes.old order.old out.old result
        nodes.new order.new out.new }
{
    let mut ws = [0u32; plan::TABLE];
    let mut fs = [0.0f32; plan::TABLE];
    wire::load_plan(0, plan, wire::none(plan), &mut ws, &mut fs);
    let n = wire_lengths::tree_tables_before(plan.len(), nodes.len(), order.len(), 0, 0, out.len());
    let mut nw = [0u32; plan::NODES_WORDS];
    let mut ow = [0u32; plan::ORDER_WORDS];
    let r = bemitondry_tree::build(n, &ws, &fs, &mut nw, &mut ow);
    if build_stores(r.number) {
        words::store(&nw, nodes);
        words::store(&ow, order);
    }
    wire::send(r, out)
}

// The tree is offered in the tables given (its nodes) and ranks (its order).
pub fn offer(
    plan: &[u8],
    nodes: &mut [u8],
    order: &mut [u8],
    given: &[u8],
    ranks: &[u8],
    out: &mut [u8],
) -> u32
    ensures { OfferSent plan.now nodes.old order.old given.now
        ranks.now out.old result nodes.new order.new out.new }
{
    let mut ws = [0u32; plan::TABLE];
    let mut fs = [0.0f32; plan::TABLE];
    wire::load_ask(0, plan, given, ranks, 1, wire::none(plan), &mut ws, &mut fs);
    let n = refusals::lower(
        wire_lengths::tree_tables_before(plan.len(), nodes.len(), order.len(), 0, 0, out.len()),
        wire_lengths::tables_before(given.len(), ranks.len()),
    );
    let mut nw = [0u32; plan::NODES_WORDS];
    let mut ow = [0u32; plan::ORDER_WORDS];
    let r = bemitondry_tree::offer(n, &ws, &fs, &mut nw, &mut ow);
    if r.number == 0 {
        words::store(&nw, nodes);
        words::store(&ow, order);
    }
    wire::send(r, out)
}
