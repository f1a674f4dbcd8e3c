// Whether a panel reaches a point of a surface: its share of the hemisphere, and what one shadow leaves of it. `tree`
// is a number, as callers have it.

#![tactic(auto)]

ghost use Rattle.std.specs.Prelude.{◌≡◌};
ghost use Rattle.bvh_search.specs.Field.{field_by};
ghost use Rattle.reach.specs.Reach.{site_of, shadow_at, sight_of, reach_of};

use ltc::Axes;
use panel::Panel;
use plan::{Floats, Words};
use trace::{Ray, Shadow};
use vectors::Vec3;

// A point of a surface with its normal, and the frame about that.
#[derive(Clone, Copy)]
pub struct Site {
    pub p: Vec3,
    pub n: Vec3,
    pub frame: Axes,
}

// How much of a panel a site sees: its share of the hemisphere, what no shadow takes, and the panel's radius.
#[derive(Clone, Copy)]
pub struct Sight {
    pub ff: f32,
    pub vis: f32,
    pub radius: f32,
}

// What a site sees of a panel, if that reaches it, and the evaluations that its shadow took.
#[derive(Clone, Copy)]
pub struct Reach {
    pub sight: Option<Sight>,
    pub count: u32,
}

const UNSEEN: Reach = Reach {
    sight: None,
    count: 0,
};

#[tactic(auto, unfolding(crate::specs::Reach::site_of))]
pub fn site_of(p: Vec3, n: Vec3) -> Site
    ensures { result ≡ site_of p n }
{
    Site {
        p,
        n,
        frame: ltc::frame(n),
    }
}

// One cone, as tight as the panel is small; it ends more than a radius short of the panel.
#[tactic(auto, unfolding(crate::specs::Reach::shadow_at))]
fn shadow_at(tree: u32, ws: &Words, fs: &Floats, s: Site, to: Vec3, radius: f32) -> Shadow
    ensures { result ≡ shadow_at (field_by tree ws.now fs.now) s to radius }
{
    let dist = to.length();
    let k = scalar::clamp(dist / radius, 1.5, 96.0);
    let ray = Ray {
        ro: s.p.add(s.n.scale(0.003)),
        rd: to.over(dist),
        tmin: 0.015,
        tmax: scalar::max(dist - radius * 1.25, 0.05),
    };
    trace::soft_shadow(tree, ws, fs, ray, k)
}

// What is seen of a panel past its shadow; nothing where that leaves next to no light.
#[tactic(auto, unfolding(crate::specs::Reach::sight_of))]
fn sight_of(ff: f32, radius: f32, shadow: Shadow) -> Reach
    ensures { result ≡ sight_of ff radius shadow }
{
    let sight = if shadow.vis <= 0.0001 {
        None
    } else {
        Some(Sight {
            ff,
            vis: shadow.vis,
            radius,
        })
    };
    Reach {
        sight,
        count: shadow.count,
    }
}

#[tactic(auto, unfolding(crate::specs::Reach::reach_of))]
pub fn reach_of(tree: u32, ws: &Words, fs: &Floats, s: Site, a: Panel) -> Reach
    ensures { result ≡ reach_of (field_by tree ws.now fs.now) s a }
{
    let to = a.center.sub(s.p);
    if panel::culled(a, to) {
        return UNSEEN;
    }
    let ff = ltc::quad_form_factor(ltc::to_local(a.quad, s.p, s.frame, s.n));
    if ff <= 0.000001 {
        return UNSEEN;
    }
    let radius = panel::radius_of(a);
    sight_of(ff, radius, shadow_at(tree, ws, fs, s, to, radius))
}
