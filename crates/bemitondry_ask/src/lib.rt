// The public calls that ask of a loaded table, by the tree or by the list: nearest pieces, and marches. `before` is a
// number that applies already; `ws` and `fs` are a call's table; `tree` is a number, as callers have it.

#![tactic(auto)]

ghost use Rattle.std.specs.Prelude.{◌≡◌};
ghost use Rattle.bemitondry_ask.specs.Asks.{found_reply, query_reply, dist_mat_reply};
ghost use Rattle.bemitondry_ask.specs.Marches.{arg_ray, traced_reply, trace_reply, shadow_reply};

use plan::{DistHit, Floats, Words};
use reply::Reply;
use trace::{Ray, Traced};

// Distance, material, nodes popped, objects evaluated.
#[tactic(auto, unfolding(crate::specs::Asks::found_reply))]
fn found_reply(h: DistHit, popped: u32, evaluated: u32) -> Reply
    ensures { result ≡ found_reply h popped evaluated }
{
    reply::done(scalar::bits(h.d), h.mat, popped, evaluated, 0, 0, 0, 0)
}

// The nearest object from a bound with any material word, by the tree where it is 1, by the plain list where it is 0.
#[tactic(auto, unfolding(crate::specs::Asks::query_reply, reply::specs::Reply::reply_of))]
pub fn query(before: u32, tree: u32, ws: &Words, fs: &Floats) -> Reply
    ensures { result ≡ query_reply before tree ws.now fs.now }
{
    let n = refusals::lower(
        ask_test::query_number(before, ws, fs),
        ask_test::tree_number(tree, ws, fs),
    );
    if n == 0 {
        let bound = DistHit {
            d: fs[plan::ARGS + 3],
            mat: ws[plan::ARGS + 4],
        };
        let p = ask_test::arg_vec(fs, 0);
        let mut stack = [bvh_search::FREE; bvh_search::STACK];
        let s = bvh_search::hit(tree, ws, fs, &mut stack, p, bound);
        return found_reply(s.hit, s.popped, s.evaluated);
    }
    reply::refused(n)
}

// The source's `dist_mat`: planes, then objects.
#[tactic(auto, unfolding(crate::specs::Asks::dist_mat_reply, reply::specs::Reply::reply_of))]
pub fn dist_mat(before: u32, tree: u32, ws: &Words, fs: &Floats) -> Reply
    ensures { result ≡ dist_mat_reply before tree ws.now fs.now }
{
    let p = ask_test::arg_vec(fs, 0);
    let given = refusals::within(p, refusals::FARTHEST);
    let n = refusals::lower(
        ask_test::solids_ask(before, given, ws, fs),
        ask_test::tree_number(tree, ws, fs),
    );
    if n == 0 {
        let mut stack = [bvh_search::FREE; bvh_search::STACK];
        let h = bvh_search::field(tree, ws, fs, &mut stack, p);
        return found_reply(h, 0, 0);
    }
    reply::refused(n)
}

// Whether a hit, its parameter, point and material, and the evaluations made.
#[tactic(auto, unfolding(crate::specs::Marches::traced_reply))]
fn traced_reply(t: Traced) -> Reply
    ensures { result ≡ traced_reply t }
{
    match t.hit {
        Some(h) => reply::done(
            1,
            scalar::bits(h.t),
            scalar::bits(h.p.x),
            scalar::bits(h.p.y),
            scalar::bits(h.p.z),
            h.mat,
            t.count,
            0,
        ),
        None => reply::done(0, 0, 0, 0, 0, 0, t.count, 0),
    }
}

// The ray in the arguments.
fn ray_in(fs: &Floats) -> Ray
    ensures { result ≡ arg_ray fs.now }
{
    Ray {
        ro: ask_test::arg_vec(fs, 0),
        rd: ask_test::arg_vec(fs, 3),
        tmin: fs[plan::ARGS + 6],
        tmax: fs[plan::ARGS + 7],
    }
}

// What a ray meets.
#[tactic(auto, unfolding(crate::specs::Marches::trace_reply, reply::specs::Reply::reply_of))]
pub fn trace(before: u32, tree: u32, ws: &Words, fs: &Floats) -> Reply
    ensures { result ≡ trace_reply before tree ws.now fs.now }
{
    let ray = ray_in(fs);
    let given = ask_test::ray_ok(ray.ro, ray.rd, ray.tmin, ray.tmax);
    let n = refusals::lower(
        ask_test::solids_ask(before, given, ws, fs),
        ask_test::tree_number(tree, ws, fs),
    );
    if n == 0 {
        return traced_reply(trace::trace(tree, ws, fs, ray));
    }
    reply::refused(n)
}

// How much of a light is seen along a ray, as sharp as `k`.
#[tactic(auto, unfolding(crate::specs::Marches::shadow_reply, reply::specs::Reply::reply_of))]
pub fn soft_shadow(before: u32, tree: u32, ws: &Words, fs: &Floats) -> Reply
    ensures { result ≡ shadow_reply before tree ws.now fs.now }
{
    let ray = ray_in(fs);
    let k = fs[plan::ARGS + 8];
    let given = ask_test::ray_ok(ray.ro, ray.rd, ray.tmin, ray.tmax)
        && refusals::up_to(k, refusals::SHARPEST);
    let n = refusals::lower(
        ask_test::solids_ask(before, given, ws, fs),
        ask_test::tree_number(tree, ws, fs),
    );
    if n == 0 {
        let s = trace::soft_shadow(tree, ws, fs, ray, k);
        return reply::done(scalar::bits(s.vis), s.count, 0, 0, 0, 0, 0, 0);
    }
    reply::refused(n)
}
