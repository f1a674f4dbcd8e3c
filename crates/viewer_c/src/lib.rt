// What the Rust viewer calls: each export makes the call of its name in the library viewer, with its promise.

#![tactic(auto)]

ghost use Rattle.std.specs.Prelude.{length};
ghost use Rattle.wire.specs.Sent.{Sent};
ghost use Rattle.bemitondry_ask.specs.Asks.{query_reply, dist_mat_reply};
ghost use Rattle.bemitondry_ask.specs.Marches.{trace_reply, shadow_reply};
ghost use Rattle.bemitondry_light.specs.Light.{direct_reply, direct_diffuse_reply};
ghost use Rattle.viewer.specs.Calls.{root_lent, acos_lent, prim_dist_lent, prim_bounds_lent, ask_reply};
ghost use Rattle.viewer.specs.Calls.{form_factor_lent, fresnel_lent, f0_lent, diffuse_albedo_lent};
ghost use Rattle.viewer.specs.Calls.{emitter_lent};
ghost use Rattle.wire_entry.specs.Entries.{MaterialSent, LightSent, PlaneSent, ObjectSent};
ghost use Rattle.wire_tree.specs.Trees.{BuildSent, OfferSent};

#[unsafe(no_mangle)]
pub extern "C" fn viewer_root(args: &[u8], out: &mut [u8]) -> u32
    ensures { Sent (root_lent args.now (length out.old)) out.old result
        out.new }
{
    viewer::viewer_root(args, out)
}

#[unsafe(no_mangle)]
pub extern "C" fn viewer_acos(args: &[u8], out: &mut [u8]) -> u32
    ensures { Sent (acos_lent args.now (length out.old)) out.old result
        out.new }
{
    viewer::viewer_acos(args, out)
}

#[unsafe(no_mangle)]
pub extern "C" fn viewer_prim_dist(args: &[u8], out: &mut [u8]) -> u32
    ensures { Sent (prim_dist_lent args.now (length out.old)) out.old result out.new }
{
    viewer::viewer_prim_dist(args, out)
}

#[unsafe(no_mangle)]
pub extern "C" fn viewer_prim_bounds(args: &[u8], out: &mut [u8]) -> u32
    ensures { Sent (prim_bounds_lent args.now (length out.old)) out.old result
        out.new }
{
    viewer::viewer_prim_bounds(args, out)
}

#[unsafe(no_mangle)]
pub extern "C" fn viewer_form_factor(args: &[u8], out: &mut [u8]) -> u32
    ensures { Sent (form_factor_lent args.now (length out.old)) out.old result
        out.new }
{
    viewer::viewer_form_factor(args, out)
}

#[unsafe(no_mangle)]
pub extern "C" fn viewer_fresnel(args: &[u8], out: &mut [u8]) -> u32
    ensures { Sent (fresnel_lent args.now (length out.old)) out.old result out.new }
{
    viewer::viewer_fresnel(args, out)
}

#[unsafe(no_mangle)]
pub extern "C" fn viewer_f0(args: &[u8], out: &mut [u8]) -> u32
    ensures { Sent (f0_lent args.now (length out.old)) out.old result out.new }
{
    viewer::viewer_f0(args, out)
}

#[unsafe(no_mangle)]
pub extern "C" fn viewer_diffuse_albedo(args: &[u8], out: &mut [u8]) -> u32
    ensures { Sent (diffuse_albedo_lent args.now (length out.old)) out.old result
        out.new }
{
    viewer::viewer_diffuse_albedo(args, out)
}

#[unsafe(no_mangle)]
pub extern "C" fn viewer_emitter_hit(lights: &[u8], args: &[u8], out: &mut [u8]) -> u32
    ensures { Sent (emitter_lent lights.now args.now (length out.old)) out.old result
        out.new }
{
    viewer::viewer_emitter_hit(lights, args, out)
}

#[unsafe(no_mangle)]
pub extern "C" fn viewer_query(
    plan: &[u8],
    nodes: &[u8],
    order: &[u8],
    tree: u32,
    args: &[u8],
    out: &mut [u8],
) -> u32
    ensures { Sent
        (ask_reply query_reply 20 plan.now nodes.now order.now tree args.now
        (length out.old))
        out.old result out.new }
{
    viewer::viewer_query(plan, nodes, order, tree, args, out)
}

#[unsafe(no_mangle)]
pub extern "C" fn viewer_dist_mat(
    plan: &[u8],
    nodes: &[u8],
    order: &[u8],
    tree: u32,
    args: &[u8],
    out: &mut [u8],
) -> u32
    ensures { Sent
        (ask_reply dist_mat_reply 12 plan.now nodes.now order.now tree args.now
        (length out.old))
        out.old result out.new }
{
    viewer::viewer_dist_mat(plan, nodes, order, tree, args, out)
}

#[unsafe(no_mangle)]
pub extern "C" fn viewer_trace(
    plan: &[u8],
    nodes: &[u8],
    order: &[u8],
    tree: u32,
    args: &[u8],
    out: &mut [u8],
) -> u32
    ensures { Sent
        (ask_reply trace_reply 32 plan.now nodes.now order.now tree args.now
        (length out.old))
        out.old result out.new }
{
    viewer::viewer_trace(plan, nodes, order, tree, args, out)
}

#[unsafe(no_mangle)]
pub extern "C" fn viewer_soft_shadow(
    plan: &[u8],
    nodes: &[u8],
    order: &[u8],
    tree: u32,
    args: &[u8],
    out: &mut [u8],
) -> u32
    ensures { Sent
        (ask_reply shadow_reply 36 plan.now nodes.now order.now tree args.now
        (length out.old))
        out.old result out.new }
{
    viewer::viewer_soft_shadow(plan, nodes, order, tree, args, out)
}

#[unsafe(no_mangle)]
pub extern "C" fn viewer_direct(
    plan: &[u8],
    nodes: &[u8],
    order: &[u8],
    tree: u32,
    args: &[u8],
    out: &mut [u8],
) -> u32
    ensures { Sent
        (ask_reply direct_reply 56 plan.now nodes.now order.now tree args.now
        (length out.old))
        out.old result out.new }
{
    viewer::viewer_direct(plan, nodes, order, tree, args, out)
}

#[unsafe(no_mangle)]
pub extern "C" fn viewer_direct_diffuse(
    plan: &[u8],
    nodes: &[u8],
    order: &[u8],
    tree: u32,
    args: &[u8],
    out: &mut [u8],
) -> u32
    ensures { Sent
        (ask_reply direct_diffuse_reply 36 plan.now nodes.now order.now tree
        args.now (length out.old))
        out.old result out.new }
{
    viewer::viewer_direct_diffuse(plan, nodes, order, tree, args, out)
}

#[unsafe(no_mangle)]
pub extern "C" fn viewer_add_material(plan: &mut [u8], args: &[u8], out: &mut [u8]) -> u32
    ensures { MaterialSent plan.old args.now out.old result plan.new
        out.new }
{
    viewer::viewer_add_material(plan, args, out)
}

#[unsafe(no_mangle)]
pub extern "C" fn viewer_add_light(plan: &mut [u8], args: &[u8], out: &mut [u8]) -> u32
    ensures { LightSent plan.old args.now out.old result plan.new
        out.new }
{
    viewer::viewer_add_light(plan, args, out)
}

#[unsafe(no_mangle)]
pub extern "C" fn viewer_add_plane(plan: &mut [u8], args: &[u8], out: &mut [u8]) -> u32
    ensures { PlaneSent plan.old args.now out.old result plan.new
        out.new }
{
    viewer::viewer_add_plane(plan, args, out)
}

#[unsafe(no_mangle)]
pub extern "C" fn viewer_add_object(
    plan: &mut [u8],
    nodes: &mut [u8],
    order: &mut [u8],
    args: &[u8],
    out: &mut [u8],
) -> u32
    ensures { ObjectSent plan.old nodes.old order.old args.now
        out.old result plan.new nodes.new order.new out.new }
{
    viewer::viewer_add_object(plan, nodes, order, args, out)
}

#[unsafe(no_mangle)]
pub extern "C" fn viewer_build(
    plan: &[u8],
    nodes: &mut [u8],
    order: &mut [u8],
    out: &mut [u8],
) -> u32
    ensures { BuildSent plan.now nodes.old order.old out.old result
        nodes.new order.new out.new }
{
    viewer::viewer_build(plan, nodes, order, out)
}

#[unsafe(no_mangle)]
pub extern "C" fn viewer_offer(
    plan: &[u8],
    nodes: &mut [u8],
    order: &mut [u8],
    given: &[u8],
    ranks: &[u8],
    out: &mut [u8],
) -> u32
    ensures { OfferSent plan.now nodes.old order.old given.now
        ranks.now out.old result nodes.new order.new out.new }
{
    viewer::viewer_offer(plan, nodes, order, given, ranks, out)
}
