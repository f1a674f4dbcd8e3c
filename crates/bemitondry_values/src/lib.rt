// The public calls on single values: each tests what it is given, and replies. `before` is a number that applies
// already. No two of them are one function with a closure: what they share is one line, and the closure would be as
// long.

#![tactic(auto)]

ghost use Rattle.std.specs.Prelude.{◌≡◌};
ghost use Rattle.refusals.specs.Prims.{shape_of};
ghost use Rattle.bemitondry_values.specs.Values.{float_reply, box_reply, root_reply, acos_reply, prim_dist_reply};
ghost use Rattle.bemitondry_values.specs.Values.{prim_bounds_reply};
ghost use Rattle.bemitondry_values.specs.Light.{vec_reply, quad_ok, form_factor_reply, fresnel_reply, f0_reply};
ghost use Rattle.bemitondry_values.specs.Light.{diffuse_albedo_reply};

use plan::Material;
use quad::Quad;
use reply::Reply;
use sdf::Aabb;
use vectors::Vec3;

// A float, where the number is 0.
#[tactic(auto, unfolding(crate::specs::Values::float_reply))]
fn float_reply(n: u32, x: f32) -> Reply
    ensures { result ≡ float_reply n x }
{
    reply::reply_of(n, reply::done(scalar::bits(x), 0, 0, 0, 0, 0, 0, 0))
}

// A box, where the number is 0. A plane has none.
#[tactic(auto, unfolding(crate::specs::Values::box_reply))]
fn box_reply(n: u32, b: Option<Aabb>) -> Reply
    ensures { result ≡ box_reply n b }
{
    match b {
        Some(b) => reply::reply_of(
            n,
            reply::done(
                scalar::bits(b.lo.x),
                scalar::bits(b.lo.y),
                scalar::bits(b.lo.z),
                scalar::bits(b.hi.x),
                scalar::bits(b.hi.y),
                scalar::bits(b.hi.z),
                0,
                0,
            ),
        ),
        None => reply::refused(refusals::lower(n, refusals::WRONG_LIST)),
    }
}

// The square root, from 0 to f32::MAX.
#[tactic(auto, unfolding(crate::specs::Values::root_reply))]
pub fn root(before: u32, x: f32) -> Reply
    ensures { result ≡ root_reply before x }
{
    let given = refusals::unless(refusals::BAD_NUMBER, refusals::up_to(x, refusals::GREATEST));
    float_reply(refusals::lower(before, given), root::root(x))
}

// The arc cosine, from -1 to 1.
#[tactic(auto, unfolding(crate::specs::Values::acos_reply))]
pub fn acos(before: u32, x: f32) -> Reply
    ensures { result ≡ acos_reply before x }
{
    let given = refusals::unless(refusals::BAD_NUMBER, scalar::magnitude(x, 1.0));
    float_reply(refusals::lower(before, given), scalar::acos(x))
}

// The distance from p of a primitive: its kind and its eight floats, a the first three, b the next three, then u and v.
#[tactic(auto, unfolding(crate::specs::Values::prim_dist_reply))]
pub fn prim_dist(before: u32, kind: u32, a: Vec3, b: Vec3, u: f32, v: f32, p: Vec3) -> Reply
    ensures { result ≡ prim_dist_reply before kind (shape_of kind a b u v) p }
{
    let s = refusals::shape_of(kind, a, b, u, v);
    let given = refusals::lower(
        refusals::prim_number(kind, s),
        refusals::unless(
            refusals::BAD_NUMBER,
            refusals::within(p, refusals::FARTHEST),
        ),
    );
    float_reply(refusals::lower(before, given), s.dist(p))
}

#[tactic(auto, unfolding(crate::specs::Values::prim_bounds_reply))]
pub fn prim_bounds(before: u32, kind: u32, a: Vec3, b: Vec3, u: f32, v: f32) -> Reply
    ensures { result ≡ prim_bounds_reply before kind (shape_of kind a b u v) }
{
    let s = refusals::shape_of(kind, a, b, u, v);
    box_reply(
        refusals::lower(before, refusals::prim_number(kind, s)),
        s.bounds(),
    )
}

// A vector, where the number is 0.
#[tactic(auto, unfolding(crate::specs::Light::vec_reply))]
fn vec_reply(n: u32, v: Vec3) -> Reply
    ensures { result ≡ vec_reply n v }
{
    reply::reply_of(
        n,
        reply::done(
            scalar::bits(v.x),
            scalar::bits(v.y),
            scalar::bits(v.z),
            0,
            0,
            0,
            0,
            0,
        ),
    )
}

#[tactic(auto, unfolding(crate::specs::Light::quad_ok))]
fn quad_ok(q: Quad) -> bool
    ensures { result ≡ quad_ok q }
{
    [q.v0, q.v1, q.v2, q.v3]
        .iter()
        .all(|v| refusals::within(*v, refusals::FARTHEST))
}

// The form factor of four corners in the local frame of a point.
#[tactic(auto, unfolding(crate::specs::Light::form_factor_reply))]
pub fn form_factor(before: u32, q: Quad) -> Reply
    ensures { result ≡ form_factor_reply before q }
{
    let given = refusals::unless(refusals::BAD_NUMBER, quad_ok(q));
    float_reply(refusals::lower(before, given), ltc::quad_form_factor(q))
}

// Fresnel's reflectance at a cosine c, where that straight on is r.
#[tactic(auto, unfolding(crate::specs::Light::fresnel_reply))]
pub fn fresnel(before: u32, c: f32, r: Vec3) -> Reply
    ensures { result ≡ fresnel_reply before c r }
{
    let given = scalar::magnitude(c, refusals::WIDEST) && refusals::within_up_to(r, 1.0);
    vec_reply(
        refusals::lower(before, refusals::unless(refusals::BAD_NUMBER, given)),
        bsdf::fresnel_schlick(c, r),
    )
}

// What a material reflects straight on.
#[tactic(auto, unfolding(crate::specs::Light::f0_reply))]
pub fn f0(before: u32, m: Material) -> Reply
    ensures { result ≡ f0_reply before m }
{
    vec_reply(
        refusals::lower(before, record_test::material_number(m)),
        bsdf::f0_of(m.albedo, m.metallic),
    )
}

#[tactic(auto, unfolding(crate::specs::Light::diffuse_albedo_reply))]
pub fn diffuse_albedo(before: u32, m: Material) -> Reply
    ensures { result ≡ diffuse_albedo_reply before m }
{
    vec_reply(
        refusals::lower(before, record_test::material_number(m)),
        bsdf::diffuse_albedo(m.albedo, m.metallic),
    )
}
