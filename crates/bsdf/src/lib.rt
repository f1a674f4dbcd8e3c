// How a surface sends light back: Fresnel by Schlick, the GGX lobe and its visibility, and a material's two shares.

#![tactic(auto)]

ghost use Rattle.std.specs.Prelude.{◌≡◌};
ghost use Rattle.bsdf.specs.Bsdf.{fresnel_of, d_ggx_of, smith_part, v_smith_of, f0_of, diffuse_albedo_of};

use vectors::Vec3;

// At the cosine c; f0 is what is reflected straight on.
#[tactic(auto, unfolding(crate::specs::Bsdf::fresnel_of))]
pub fn fresnel_schlick(c: f32, f0: Vec3) -> Vec3
    ensures { result ≡ fresnel_of c f0 }
{
    let m = scalar::clamp(1.0 - c, 0.0, 1.0);
    let m2 = m * m;
    f0.add(Vec3::splat(1.0).sub(f0).scale(m2 * m2 * m))
}

// At the cosine h of the half vector.
#[tactic(auto, unfolding(crate::specs::Bsdf::d_ggx_of))]
pub fn d_ggx(h: f32, alpha: f32) -> f32
    ensures { result ≡ d_ggx_of h alpha }
{
    let a2 = alpha * alpha;
    let d = h * h * (a2 - 1.0) + 1.0;
    a2 / scalar::max(3.14159274 * d * d, 0.000000001)
}

// One side's share: x times the root over the other side's cosine y.
#[tactic(auto, unfolding(crate::specs::Bsdf::smith_part))]
fn smith_part(x: f32, y: f32, a2: f32) -> f32
    ensures { result ≡ smith_part x y a2 }
{
    x * root::root(y * y * (1.0 - a2) + a2)
}

// At the cosines v of the view and l of the light; already divided by four times both.
#[tactic(auto, unfolding(crate::specs::Bsdf::v_smith_of))]
pub fn v_smith(v: f32, l: f32, alpha: f32) -> f32
    ensures { result ≡ v_smith_of v l alpha }
{
    let a2 = alpha * alpha;
    let gv = smith_part(l, v, a2);
    let gl = smith_part(v, l, a2);
    0.5 / scalar::max(gv + gl, 0.000000001)
}

// What a material reflects straight on.
#[tactic(auto, unfolding(crate::specs::Bsdf::f0_of))]
pub fn f0_of(albedo: Vec3, metallic: f32) -> Vec3
    ensures { result ≡ f0_of albedo metallic }
{
    Vec3::splat(0.04).lerp(albedo, metallic)
}

#[tactic(auto, unfolding(crate::specs::Bsdf::diffuse_albedo_of))]
pub fn diffuse_albedo(albedo: Vec3, metallic: f32) -> Vec3
    ensures { result ≡ diffuse_albedo_of albedo metallic }
{
    albedo.scale(1.0 - metallic)
}
