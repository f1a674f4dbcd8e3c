// The calls that the Rust viewer makes, on bytes: what is lent is loaded, the call made, and its reply sent. Those that
// write tables stand whole in wire_entry and wire_tree; viewer_c exports to C what stands here, parameter by parameter.

#![tactic(auto)]

ghost use Rattle.std.specs.Prelude.{◌≡◌, ℕ, length};
ghost use Rattle.reply.specs.declared.Reply.{Reply};
ghost use Rattle.wire_lengths.specs.Lengths.{args_before};
ghost use Rattle.wire.specs.Lent.{lent_of};
ghost use Rattle.wire.specs.Sent.{Sent};
ghost use Rattle.bemitondry_ask.specs.Asks.{query_reply, dist_mat_reply};
ghost use Rattle.bemitondry_ask.specs.Marches.{trace_reply, shadow_reply};
ghost use Rattle.bemitondry_light.specs.Light.{direct_reply, direct_diffuse_reply};
ghost use Rattle.viewer.specs.Calls.{root_lent, acos_lent, prim_dist_lent, prim_bounds_lent, Ask, ask_reply};
ghost use Rattle.viewer.specs.Calls.{form_factor_lent, fresnel_lent, f0_lent, diffuse_albedo_lent};
ghost use Rattle.viewer.specs.Calls.{given_quad, given_material};
ghost use Rattle.viewer.specs.Calls.{emitter_lent};
ghost use Rattle.viewer.specs.Inside.Same.{Reads, query_same, dist_mat_same, trace_same, shadow_same, direct_same};
ghost use Rattle.viewer.specs.Inside.Same.{diffuse_same};
ghost use Rattle.wire_entry.specs.Entries.{MaterialSent, LightSent, PlaneSent, ObjectSent};
ghost use Rattle.wire_tree.specs.Trees.{BuildSent, OfferSent};

use plan::{Floats, Material, Words};
use quad::Quad;
use reply::Reply;

// A call on values, of which the first `need` bytes are read.
fn answer<F: FnOnce(u32, &[u8]) -> Reply>(need: usize, args: &[u8], out: &mut [u8], reply: F) -> u32
    requires { F.IsAlwaysCallable reply }
    ensures { (a : _) × (r : Reply) × F.post reply (args_before need (length args.now) (length out.old)) a r
        × (a.now ≡ lent_of args.now need) × Sent r out.old result out.new }
{
    let n = wire_lengths::args_before(need, args.len(), out.len());
    wire::send(reply(n, wire::lent(args, need)), out)
}

// A quad in the arguments.
fn quad_in(a: &[u8]) -> Quad
    ensures { result ≡ given_quad a.now }
{
    Quad {
        v0: wire::vec_at(a, 0),
        v1: wire::vec_at(a, 3),
        v2: wire::vec_at(a, 6),
        v3: wire::vec_at(a, 9),
    }
}

// A material in the arguments.
fn material_in(a: &[u8]) -> Material
    ensures { result ≡ given_material a.now }
{
    Material {
        albedo: wire::vec_at(a, 0),
        roughness: wire::float_at(a, 3),
        metallic: wire::float_at(a, 4),
    }
}

pub fn viewer_root(args: &[u8], out: &mut [u8]) -> u32
    ensures { Sent (root_lent args.now (length out.old)) out.old result
        out.new }
{
    answer(
        4,
        args,
        out,
        |n, a| bemitondry_values::root(n, wire::float_at(a, 0)),
    )
}

pub fn viewer_acos(args: &[u8], out: &mut [u8]) -> u32
    ensures { Sent (acos_lent args.now (length out.old)) out.old result
        out.new }
{
    answer(
        4,
        args,
        out,
        |n, a| bemitondry_values::acos(n, wire::float_at(a, 0)),
    )
}

pub fn viewer_prim_dist(args: &[u8], out: &mut [u8]) -> u32
    ensures { Sent (prim_dist_lent args.now (length out.old)) out.old result out.new }
{
    answer(48, args, out, |n, a| {
        bemitondry_values::prim_dist(
            n,
            words::word(a, 0),
            wire::vec_at(a, 1),
            wire::vec_at(a, 4),
            wire::float_at(a, 7),
            wire::float_at(a, 8),
            wire::vec_at(a, 9),
        )
    })
}

pub fn viewer_prim_bounds(args: &[u8], out: &mut [u8]) -> u32
    ensures { Sent (prim_bounds_lent args.now (length out.old)) out.old result
        out.new }
{
    answer(36, args, out, |n, a| {
        bemitondry_values::prim_bounds(
            n,
            words::word(a, 0),
            wire::vec_at(a, 1),
            wire::vec_at(a, 4),
            wire::float_at(a, 7),
            wire::float_at(a, 8),
        )
    })
}

pub fn viewer_form_factor(args: &[u8], out: &mut [u8]) -> u32
    ensures { Sent (form_factor_lent args.now (length out.old)) out.old result
        out.new }
{
    answer(
        48,
        args,
        out,
        |n, a| bemitondry_values::form_factor(n, quad_in(a)),
    )
}

pub fn viewer_fresnel(args: &[u8], out: &mut [u8]) -> u32
    ensures { Sent (fresnel_lent args.now (length out.old)) out.old result out.new }
{
    answer(16, args, out, |n, a| {
        bemitondry_values::fresnel(n, wire::float_at(a, 0), wire::vec_at(a, 1))
    })
}

pub fn viewer_f0(args: &[u8], out: &mut [u8]) -> u32
    ensures { Sent (f0_lent args.now (length out.old)) out.old result out.new }
{
    answer(
        20,
        args,
        out,
        |n, a| bemitondry_values::f0(n, material_in(a)),
    )
}

pub fn viewer_diffuse_albedo(args: &[u8], out: &mut [u8]) -> u32
    ensures { Sent (diffuse_albedo_lent args.now (length out.old)) out.old result
        out.new }
{
    answer(
        20,
        args,
        out,
        |n, a| bemitondry_values::diffuse_albedo(n, material_in(a)),
    )
}

pub fn viewer_emitter_hit(lights: &[u8], args: &[u8], out: &mut [u8]) -> u32
    ensures { Sent (emitter_lent lights.now args.now (length out.old)) out.old result
        out.new }
{
    answer(28, args, out, |n, a| {
        bemitondry_emitter::emitter_hit(
            n,
            lights,
            wire::vec_at(a, 0),
            wire::vec_at(a, 3),
            wire::float_at(a, 6),
        )
    })
}

// A call that asks on a loaded table: how many bytes of arguments it reads, what it replies, and that it replies alike
// where it reads the same, so that a table may be loaded no further than it is used.
trait Question {
    ghost NEED: { ℕ };

    ghost reply: { Ask };

    const NEED: usize;

    fn ask(before: u32, tree: u32, ws: &Words, fs: &Floats) -> Reply
        ensures { result ≡ reply before tree ws.now fs.now };

    ghost reads: { Reads reply };
}

struct Query;

impl Question for Query {
    ghost NEED = { 20 };

    ghost reply = { query_reply };

    const NEED: usize = 20;

    fn ask(before: u32, tree: u32, ws: &Words, fs: &Floats) -> Reply {
        bemitondry_ask::query(before, tree, ws, fs)
    }

    ghost reads = { query_same };
}

struct DistMat;

impl Question for DistMat {
    ghost NEED = { 12 };

    ghost reply = { dist_mat_reply };

    const NEED: usize = 12;

    fn ask(before: u32, tree: u32, ws: &Words, fs: &Floats) -> Reply {
        bemitondry_ask::dist_mat(before, tree, ws, fs)
    }

    ghost reads = { dist_mat_same };
}

struct Trace;

impl Question for Trace {
    ghost NEED = { 32 };

    ghost reply = { trace_reply };

    const NEED: usize = 32;

    fn ask(before: u32, tree: u32, ws: &Words, fs: &Floats) -> Reply {
        bemitondry_ask::trace(before, tree, ws, fs)
    }

    ghost reads = { trace_same };
}

struct SoftShadow;

impl Question for SoftShadow {
    ghost NEED = { 36 };

    ghost reply = { shadow_reply };

    const NEED: usize = 36;

    fn ask(before: u32, tree: u32, ws: &Words, fs: &Floats) -> Reply {
        bemitondry_ask::soft_shadow(before, tree, ws, fs)
    }

    ghost reads = { shadow_same };
}

struct Direct;

impl Question for Direct {
    ghost NEED = { 56 };

    ghost reply = { direct_reply };

    const NEED: usize = 56;

    fn ask(before: u32, tree: u32, ws: &Words, fs: &Floats) -> Reply {
        bemitondry_light::direct(before, tree, ws, fs)
    }

    ghost reads = { direct_same };
}

struct DirectDiffuse;

impl Question for DirectDiffuse {
    ghost NEED = { 36 };

    ghost reply = { direct_diffuse_reply };

    const NEED: usize = 36;

    fn ask(before: u32, tree: u32, ws: &Words, fs: &Floats) -> Reply {
        bemitondry_light::direct_diffuse(before, tree, ws, fs)
    }

    ghost reads = { diffuse_same };
}

fn ask<Q: Question>(
    plan: &[u8],
    nodes: &[u8],
    order: &[u8],
    tree: u32,
    args: &[u8],
    out: &mut [u8],
) -> u32
    ensures { Sent (ask_reply Q.reply Q.NEED plan.now nodes.now order.now tree args.now (length out.old)) out.old result
        out.new }
{
    let mut ws = [0u32; plan::TABLE];
    let mut fs = [0.0f32; plan::TABLE];
    wire_used::load_ask(Q::NEED, plan, nodes, order, tree, args, &mut ws, &mut fs);
    let n = wire_lengths::ask_before(
        Q::NEED,
        plan.len(),
        nodes.len(),
        order.len(),
        tree,
        args.len(),
        out.len(),
    );
    wire::send(Q::ask(n, tree, &ws, &fs), out)
}

pub fn viewer_query(
    plan: &[u8],
    nodes: &[u8],
    order: &[u8],
    tree: u32,
    args: &[u8],
    out: &mut [u8],
) -> u32
    ensures { Sent
        (ask_reply query_reply 20 plan.now nodes.now order.now tree args.now
        (length out.old))
        out.old result out.new }
{
    ask::<Query>(plan, nodes, order, tree, args, out)
}

pub fn viewer_dist_mat(
    plan: &[u8],
    nodes: &[u8],
    order: &[u8],
    tree: u32,
    args: &[u8],
    out: &mut [u8],
) -> u32
    ensures { Sent
        (ask_reply dist_mat_reply 12 plan.now nodes.now order.now tree args.now
        (length out.old))
        out.old result out.new }
{
    ask::<DistMat>(plan, nodes, order, tree, args, out)
}

pub fn viewer_trace(
    plan: &[u8],
    nodes: &[u8],
    order: &[u8],
    tree: u32,
    args: &[u8],
    out: &mut [u8],
) -> u32
    ensures { Sent
        (ask_reply trace_reply 32 plan.now nodes.now order.now tree args.now
        (length out.old))
        out.old result out.new }
{
    ask::<Trace>(plan, nodes, order, tree, args, out)
}

pub fn viewer_soft_shadow(
    plan: &[u8],
    nodes: &[u8],
    order: &[u8],
    tree: u32,
    args: &[u8],
    out: &mut [u8],
) -> u32
    ensures { Sent
        (ask_reply shadow_reply 36 plan.now nodes.now order.now tree args.now
        (length out.old))
        out.old result out.new }
{
    ask::<SoftShadow>(plan, nodes, order, tree, args, out)
}

pub fn viewer_direct(
    plan: &[u8],
    nodes: &[u8],
    order: &[u8],
    tree: u32,
    args: &[u8],
    out: &mut [u8],
) -> u32
    ensures { Sent
        (ask_reply direct_reply 56 plan.now nodes.now order.now tree args.now
        (length out.old))
        out.old result out.new }
{
    ask::<Direct>(plan, nodes, order, tree, args, out)
}

pub fn viewer_direct_diffuse(
    plan: &[u8],
    nodes: &[u8],
    order: &[u8],
    tree: u32,
    args: &[u8],
    out: &mut [u8],
) -> u32
    ensures { Sent
        (ask_reply direct_diffuse_reply 36 plan.now nodes.now order.now tree
        args.now (length out.old))
        out.old result out.new }
{
    ask::<DirectDiffuse>(plan, nodes, order, tree, args, out)
}

pub fn viewer_add_material(plan: &mut [u8], args: &[u8], out: &mut [u8]) -> u32
    ensures { MaterialSent plan.old args.now out.old result plan.new
        out.new }
{
    wire_entry::add_material(plan, args, out)
}

pub fn viewer_add_light(plan: &mut [u8], args: &[u8], out: &mut [u8]) -> u32
    ensures { LightSent plan.old args.now out.old result plan.new
        out.new }
{
    wire_entry::add_light(plan, args, out)
}

pub fn viewer_add_plane(plan: &mut [u8], args: &[u8], out: &mut [u8]) -> u32
    ensures { PlaneSent plan.old args.now out.old result plan.new
        out.new }
{
    wire_entry::add_plane(plan, args, out)
}

pub fn viewer_add_object(
    plan: &mut [u8],
    nodes: &mut [u8],
    order: &mut [u8],
    args: &[u8],
    out: &mut [u8],
) -> u32
    ensures { ObjectSent plan.old nodes.old order.old args.now
        out.old result plan.new nodes.new order.new out.new }
{
    wire_entry::add_object(plan, nodes, order, args, out)
}

pub fn viewer_build(plan: &[u8], nodes: &mut [u8], order: &mut [u8], out: &mut [u8]) -> u32
    ensures { BuildSent plan.now nodes.old order.old out.old result
        nodes.new order.new out.new }
{
    wire_tree::build(plan, nodes, order, out)
}

// The tree is offered in the tables given (its nodes) and ranks (its order).
pub fn viewer_offer(
    plan: &[u8],
    nodes: &mut [u8],
    order: &mut [u8],
    given: &[u8],
    ranks: &[u8],
    out: &mut [u8],
) -> u32
    ensures { OfferSent plan.now nodes.old order.old given.now
        ranks.now out.old result nodes.new order.new out.new }
{
    wire_tree::offer(plan, nodes, order, given, ranks, out)
}
