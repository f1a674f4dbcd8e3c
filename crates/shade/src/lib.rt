// Direct light from a plan's panels at a point of a surface: the exact diffuse part, and a lobe. `tree` is a number, as
// callers have it.

#![tactic(auto)]

ghost use Rattle.std.specs.Prelude.{◌≡◌, take};
ghost use Rattle.scalar.specs.F32.{f0};
ghost use Rattle.vectors.specs.declared.Vec3.{Vec3};
ghost use Rattle.vectors.specs.Vec.{vsplat};
ghost use Rattle.plan.specs.declared.QuadLight.{QuadLight};
ghost use Rattle.plan.specs.Sections.{lights};
ghost use Rattle.plan.specs.Plan.{plan_of};
ghost use Rattle.bvh_search.specs.Field.{field_by};
ghost use Rattle.trace.specs.Shadow.{shadow_most};
ghost use Rattle.panel.specs.Panels.{panels_number};
ghost use Rattle.shade.specs.Direct.{diffuse_step, shone, direct_step, direct_diffuse_of, direct_of, panels_in};
ghost use Rattle.shade.specs.Direct.{Gives, Takes, lights_by};
ghost use Rattle.shade.specs.declared.Lit.{Lit};

use lobe::View;
use panel::Panel;
use plan::{Floats, Material, QuadLight, Words};
use reach::{Sight, Site};
use vectors::Vec3;

// Light sent back, and the evaluations that it took.
#[derive(Clone, Copy)]
pub struct Lit {
    pub light: Vec3,
    pub count: u32,
}

// How many lights are gone through: no more than a plan may have.
#[tactic(auto, unfolding(crate::specs::Direct::panels_in))]
fn panels_in(ws: &Words) -> u32
    ensures { result ≡ panels_in ws.now }
{
    ws[plan::COUNT_LIGHTS].min(plan::LIGHTS)
}

// 9 where some panel's centre is at p, culled or not.
pub fn panels_number(ws: &Words, fs: &Floats, p: Vec3) -> u32
    ensures { result ≡ panels_number p (take lights.most (plan_of ws.now fs.now).lights) }
{
    refusals::lowest_number(panels_in(ws), |j| {
        panel::at_light_number(p, plan::light_in(fs, j))
    })
}

// One panel's diffuse light, added to `out`, and the evaluations that it took.
#[tactic(auto, unfolding(crate::specs::Direct::diffuse_step))]
fn diffuse_step(
    tree: u32,
    ws: &Words,
    fs: &Floats,
    s: Site,
    albedo: Vec3,
    out: Vec3,
    l: QuadLight,
) -> Lit
    ensures { result ≡ diffuse_step (field_by tree ws.now fs.now) s albedo out l }
{
    let r = reach::reach_of(tree, ws, fs, s, panel::panel_of(l));
    let light = r
        .sight
        .map_or(out, |g| out.add(albedo.mul(l.emit).scale(g.ff * g.vis)));
    Lit {
        light,
        count: r.count,
    }
}

// Every light in order: `step` adds what one sends to `out`.
fn lights_by<F: Fn(Vec3, QuadLight) -> Lit>(ws: &Words, fs: &Floats, step: F) -> Lit
    requires callable { F.IsAlwaysCallable step }
    requires few { Takes (F.post step) shadow_most }
    ensures { (f : Vec3 → QuadLight → Lit) → Gives (F.post step) f
        → result ≡ lights_by f (take lights.most (plan_of ws.now fs.now).lights) (vsplat f0) 0 }
{
    let mut sum = Lit {
        light: Vec3::splat(0.0),
        count: 0,
    };
    for j in 0..panels_in(ws) {
        let lit = step(sum.light, plan::light_in(fs, j));
        sum.light = lit.light;
        sum.count += lit.count;
    }
    sum
}

pub fn direct_diffuse(tree: u32, ws: &Words, fs: &Floats, p: Vec3, n: Vec3, albedo: Vec3) -> Lit
    ensures { result ≡ direct_diffuse_of (field_by tree ws.now fs.now)
        (take lights.most (plan_of ws.now fs.now).lights) p n albedo }
{
    let s = reach::site_of(p, n);
    lights_by(
        ws,
        fs,
        |out, l| diffuse_step(tree, ws, fs, s, albedo, out, l),
    )
}

// `out` with the light of the panel a that is seen so: the diffuse part, then the lobe.
#[tactic(auto, unfolding(crate::specs::Direct::shone))]
fn shone(s: Site, w: View, a: Panel, out: Vec3, g: Sight) -> Vec3
    ensures { result ≡ shone s w a out g }
{
    let radiance = a.emit.scale(g.vis);
    let matt = out.add(w.kd.mul(radiance).scale(g.ff));
    lobe::gloss(
        w,
        s.n,
        lobe::rep(s, w.v, a).sub(s.p),
        g.radius,
        radiance,
        matt,
    )
}

// One panel's light, added to `out`, and the evaluations that it took.
#[tactic(auto, unfolding(crate::specs::Direct::direct_step))]
fn direct_step(tree: u32, ws: &Words, fs: &Floats, s: Site, w: View, out: Vec3, l: QuadLight) -> Lit
    ensures { result ≡ direct_step (field_by tree ws.now fs.now) s w out l }
{
    let a = panel::panel_of(l);
    let r = reach::reach_of(tree, ws, fs, s, a);
    let light = r.sight.map_or(out, |g| shone(s, w, a, out, g));
    Lit {
        light,
        count: r.count,
    }
}

pub fn direct(tree: u32, ws: &Words, fs: &Floats, p: Vec3, n: Vec3, v: Vec3, m: Material) -> Lit
    ensures { result ≡ direct_of (field_by tree ws.now fs.now)
        (take lights.most (plan_of ws.now fs.now).lights) p n v m }
{
    let s = reach::site_of(p, n);
    let w = lobe::view_of(n, v, m);
    lights_by(ws, fs, |out, l| direct_step(tree, ws, fs, s, w, out, l))
}
