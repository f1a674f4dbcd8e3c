// The public calls of direct light on a loaded table, by the tree or by the list. `before` is a number that applies
// already; `ws` and `fs` are a call's table; `tree` is a number, as callers have it.

#![tactic(auto)]

ghost use Rattle.std.specs.Prelude.{◌≡◌};
ghost use Rattle.bemitondry_light.specs.Light.{site_ok, lit_ask, lit_reply, direct_reply, direct_diffuse_reply};

use plan::{Floats, Material, Words};
use reply::Reply;
use shade::Lit;
use vectors::Vec3;

#[tactic(auto, unfolding(crate::specs::Light::site_ok))]
fn site_ok(p: Vec3, n: Vec3) -> bool
    ensures { result ≡ site_ok p n }
{
    refusals::within(p, refusals::FAR) && refusals::within(n, refusals::STEEP)
}

// What a call gets: `given` by its arguments, then by the plan with its lights, by the tree, and by lights at p.
#[tactic(auto, unfolding(crate::specs::Light::lit_ask))]
fn lit_ask(before: u32, given: u32, tree: u32, p: Vec3, ws: &Words, fs: &Floats) -> u32
    ensures { result ≡ lit_ask before given tree p ws.now fs.now }
{
    let plan = refusals::lower(
        before,
        refusals::lower(given, plan_test::lit_number(ws, fs)),
    );
    refusals::lower(
        refusals::lower(plan, ask_test::tree_number(tree, ws, fs)),
        shade::panels_number(ws, fs, p),
    )
}

// The light sent back, and the evaluations made.
#[tactic(auto, unfolding(crate::specs::Light::lit_reply))]
fn lit_reply(l: Lit) -> Reply
    ensures { result ≡ lit_reply l }
{
    reply::done(
        scalar::bits(l.light.x),
        scalar::bits(l.light.y),
        scalar::bits(l.light.z),
        l.count,
        0,
        0,
        0,
        0,
    )
}

// The light that a surface sends toward a view.
#[tactic(auto, unfolding(crate::specs::Light::direct_reply, reply::specs::Reply::reply_of))]
pub fn direct(before: u32, tree: u32, ws: &Words, fs: &Floats) -> Reply
    ensures { result ≡ direct_reply before tree ws.now fs.now }
{
    let p = ask_test::arg_vec(fs, 0);
    let n = ask_test::arg_vec(fs, 3);
    let v = ask_test::arg_vec(fs, 6);
    let m = Material {
        albedo: ask_test::arg_vec(fs, 9),
        roughness: fs[plan::ARGS + 12],
        metallic: fs[plan::ARGS + 13],
    };
    let sited = site_ok(p, n) && refusals::within(v, refusals::STEEP);
    let given = refusals::lower(
        refusals::unless(refusals::BAD_NUMBER, sited),
        record_test::material_number(m),
    );
    let number = lit_ask(before, given, tree, p, ws, fs);
    if number == 0 {
        return lit_reply(shade::direct(tree, ws, fs, p, n, v, m));
    }
    reply::refused(number)
}

// The light that a matt surface sends back.
#[tactic(auto, unfolding(crate::specs::Light::direct_diffuse_reply, reply::specs::Reply::reply_of))]
pub fn direct_diffuse(before: u32, tree: u32, ws: &Words, fs: &Floats) -> Reply
    ensures { result ≡ direct_diffuse_reply before tree ws.now fs.now }
{
    let p = ask_test::arg_vec(fs, 0);
    let n = ask_test::arg_vec(fs, 3);
    let albedo = ask_test::arg_vec(fs, 6);
    let sited = site_ok(p, n) && refusals::within_up_to(albedo, 1.0);
    let number = lit_ask(
        before,
        refusals::unless(refusals::BAD_NUMBER, sited),
        tree,
        p,
        ws,
        fs,
    );
    if number == 0 {
        return lit_reply(shade::direct_diffuse(tree, ws, fs, p, n, albedo));
    }
    reply::refused(number)
}
