// The specular part of a panel's light: a lobe about a representative point.

#![tactic(auto)]

ghost use Rattle.std.specs.Prelude.{◌≡◌};
ghost use Rattle.lobe.specs.Lobe.{view_of, mirror_of, toward_of, rep_of, wide_of, lobe_of, gloss_of};

use panel::Panel;
use plan::Material;
use reach::Site;
use vectors::Vec3;

// A view of a surface: the cosine, the lobe's width, and the shares of the lobe and of the rest.
#[derive(Clone, Copy)]
pub struct View {
    pub v: Vec3,
    pub nv: f32,
    pub alpha: f32,
    pub f0: Vec3,
    pub kd: Vec3,
}

#[tactic(auto, unfolding(crate::specs::Lobe::view_of))]
pub fn view_of(n: Vec3, v: Vec3, m: Material) -> View
    ensures { result ≡ view_of n v m }
{
    View {
        v,
        nv: scalar::max(n.dot(v), 0.0001),
        alpha: scalar::max(m.roughness * m.roughness, 0.001),
        f0: bsdf::f0_of(m.albedo, m.metallic),
        kd: bsdf::diffuse_albedo(m.albedo, m.metallic),
    }
}

// The view mirrored in the surface.
#[tactic(auto, unfolding(crate::specs::Lobe::mirror_of))]
fn mirror(n: Vec3, v: Vec3) -> Vec3
    ensures { result ≡ mirror_of n v }
{
    let back = v.neg();
    back.sub(n.scale(2.0 * n.dot(back)))
}

// The panel's point nearest to where the mirrored view r meets its plane at t, where that lies ahead.
#[tactic(auto, unfolding(crate::specs::Lobe::toward_of))]
fn toward(p: Vec3, a: Panel, r: Vec3, t: f32) -> Vec3
    ensures { result ≡ toward_of p a r t }
{
    if t > 0.0 {
        a.quad.closest(p.add(r.scale(t)))
    } else {
        a.center
    }
}

// The representative point of a panel.
#[tactic(auto, unfolding(crate::specs::Lobe::rep_of))]
pub fn rep(s: Site, v: Vec3, a: Panel) -> Vec3
    ensures { result ≡ rep_of s v a }
{
    let r = mirror(s.n, v);
    let denom = r.dot(a.normal);
    if scalar::abs(denom) > 0.000001 {
        toward(s.p, a, r, a.quad.v0.sub(s.p).dot(a.normal) / denom)
    } else {
        a.center
    }
}

// The lobe's width, widened by a panel so large at such a distance.
#[tactic(auto, unfolding(crate::specs::Lobe::wide_of))]
fn wide(alpha: f32, radius: f32, dist: f32) -> f32
    ensures { result ≡ wide_of alpha radius dist }
{
    scalar::clamp(
        alpha + radius / (2.0 * scalar::max(dist, 0.0001)),
        alpha,
        1.0,
    )
}

// The lobe about the direction l, with the cosine nl and the width `wide`.
#[tactic(auto, unfolding(crate::specs::Lobe::lobe_of))]
fn lobe(w: View, n: Vec3, l: Vec3, nl: f32, wide: f32) -> Vec3
    ensures { result ≡ lobe_of w n l nl wide }
{
    let energy = w.alpha / wide * (w.alpha / wide);
    let h = l.add(w.v).normalize();
    let d = bsdf::d_ggx(scalar::max(n.dot(h), 0.0), wide);
    let vis = bsdf::v_smith(w.nv, nl, wide);
    let f = bsdf::fresnel_schlick(scalar::max(l.dot(h), 0.0), w.f0);
    f.scale(d * vis * energy * nl)
}

// `out` with the lobe toward `to`; none where that has no length or lies behind.
#[tactic(auto, unfolding(crate::specs::Lobe::gloss_of))]
pub fn gloss(w: View, n: Vec3, to: Vec3, radius: f32, radiance: Vec3, out: Vec3) -> Vec3
    ensures { result ≡ gloss_of w n to radius radiance out }
{
    let dist = to.length();
    if dist == 0.0 {
        return out;
    }
    let l = to.normalize();
    let nl = n.dot(l);
    if nl <= 0.0 {
        return out;
    }
    out.add(lobe(w, n, l, nl, wide(w.alpha, radius, dist)).mul(radiance))
}
