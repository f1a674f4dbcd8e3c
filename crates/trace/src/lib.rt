// Marches through a plan's field, by the tree or by the list: to what a ray meets, and to how much of a light is seen.
// `tree` is a number, as callers have it: an enum would ask more of them.

#![tactic(auto)]

ghost use Rattle.std.specs.Prelude.{◌≡◌, true};
ghost use Rattle.root.specs.Root.{root_of};
ghost use Rattle.scalar.specs.F32.{◌⊗◌, ◌⊘◌};
ghost use Rattle.scalar.specs.Extremes.{fmin};
ghost use Rattle.bvh_search.specs.Field.{field_by};
ghost use Rattle.trace.specs.Trace.{eps_of, point_at, stepped_of, trace_of};
ghost use Rattle.trace.specs.Shadow.{darker_of, passed_of, seen_of, shadow_of};

use plan::{DistHit, Floats, Words};
use vectors::Vec3;

pub const MAX_STEPS: u32 = 128;

pub const SHADOW_STEPS: u32 = 96;

// A ray from tmin to tmax; rd may have any length.
#[derive(Clone, Copy)]
pub struct Ray {
    pub ro: Vec3,
    pub rd: Vec3,
    pub tmin: f32,
    pub tmax: f32,
}

impl Ray {
    #[tactic(auto, unfolding(crate::specs::Trace::point_at))]
    fn point_at(self, t: f32) -> Vec3
        ensures { result ≡ point_at self.ro self.rd t }
    {
        self.ro.add(self.rd.scale(t))
    }
}

#[derive(Clone, Copy)]
pub struct Hit {
    pub t: f32,
    pub p: Vec3,
    pub mat: u32,
}

// What a ray meets, if it meets anything, and how many evaluations that took.
#[derive(Clone, Copy)]
pub struct Traced {
    pub hit: Option<Hit>,
    pub count: u32,
}

// One evaluation's outcome: a hit, past the end, or on from a parameter.
#[derive(Clone, Copy)]
pub enum Step {
    Found(Hit),
    Past,
    On(f32),
}

// How much of a light is seen, from 0 to 1, and how many evaluations that took.
#[derive(Clone, Copy)]
pub struct Shadow {
    pub vis: f32,
    pub count: u32,
}

// What a shadow's march carries: what is left of the light, the distance before, the parameter.
#[derive(Clone, Copy)]
pub struct Cone {
    pub res: f32,
    pub ph: f32,
    pub t: f32,
}

#[tactic(auto, unfolding(crate::specs::Trace::eps_of))]
fn eps(t: f32) -> f32
    ensures { result ≡ eps_of t }
{
    0.0001 * scalar::max(t, 1.0)
}

// The hit is tested before the end.
#[tactic(auto, unfolding(crate::specs::Trace::stepped_of))]
fn stepped(h: DistHit, p: Vec3, t: f32, tmax: f32) -> Step
    ensures { result ≡ stepped_of h p t tmax }
{
    if h.d < eps(t) {
        return Step::Found(Hit { t, p, mat: h.mat });
    }
    let next = t + h.d;
    if next > tmax {
        return Step::Past;
    }
    Step::On(next)
}

// It evaluates once even where tmin is above tmax.
pub fn trace(tree: u32, ws: &Words, fs: &Floats, ray: Ray) -> Traced
    ensures { result ≡ trace_of (field_by tree ws.now fs.now) ray.ro ray.rd ray.tmin ray.tmax }
{
    let mut t = ray.tmin;
    let mut stack = [bvh_search::FREE; bvh_search::STACK];
    for count in 1..=MAX_STEPS {
        let p = ray.point_at(t);
        let h = bvh_search::field(tree, ws, fs, &mut stack, p);
        match stepped(h, p, t, ray.tmax) {
            Step::Found(hit) => return Traced {
                hit: Some(hit),
                count,
            },
            Step::Past => return Traced { hit: None, count },
            Step::On(next) => t = next,
        }
    }
    Traced {
        hit: None,
        count: MAX_STEPS,
    }
}

// Whether k * root(q) / m leaves no less of the light than res, by a guess w of the root. A `false` tells nothing.
fn clear(res: f32, q: f32, k: f32, m: f32, w: f32) -> bool
    ensures { result ≡ true → fmin res (k ⊗ root_of q ⊘ m) ≡ res }
{
    if w > 0.0 {
        if k >= 0.0 {
            if m > 0.0 {
                if res < k * w / m {
                    return root_tests::reaches(q, w);
                }
            }
        }
    }
    false
}

// What is left of the light where the root of q is how near it came: the root is taken only where it may dim the light.
// The guess w is tested, and nothing rests on which it is but time.
fn dimmed(res: f32, q: f32, k: f32, m: f32, w: f32) -> f32
    ensures { result ≡ fmin res (k ⊗ root_of q ⊘ m) }
{
    if clear(res, q, k, m, w) {
        return res;
    }
    scalar::min(res, k * root_tests::quick_root(q) / m)
}

// What is left of the light after the distance h. Receding, the nearest was the sample before. Else y is at most half
// of h, so that the root is at least 0.866 of h.
#[tactic(auto, unfolding(crate::specs::Shadow::darker_of, crate::specs::Shadow::gap_of))]
fn darker(c: Cone, h: f32, k: f32) -> f32
    ensures { result ≡ darker_of c h k }
{
    if h < c.ph {
        let y = h * h / (2.0 * c.ph);
        let q = scalar::max(h * h - y * y, 0.0);
        return dimmed(c.res, q, k, scalar::max(c.t - y, 0.0001), h * 0.866);
    }
    scalar::min(c.res, k * h / scalar::max(c.t - 0.0, 0.0001))
}

// The march after the distance h; none where no light is left.
#[tactic(auto, unfolding(crate::specs::Shadow::passed_of))]
fn passed_of(c: Cone, h: f32, k: f32) -> Option<Cone>
    ensures { result ≡ passed_of c h k }
{
    if h < 0.0001 {
        return None;
    }
    let res = darker(c, h, k);
    if res < 0.001 {
        return None;
    }
    Some(Cone {
        res,
        ph: h,
        t: c.t + scalar::clamp(h, 0.006, 0.12),
    })
}

pub fn soft_shadow(tree: u32, ws: &Words, fs: &Floats, ray: Ray, k: f32) -> Shadow
    ensures { result ≡ shadow_of (field_by tree ws.now fs.now) ray.ro ray.rd ray.tmin ray.tmax k }
{
    let mut c = Cone {
        res: 1.0,
        ph: 1e20,
        t: ray.tmin,
    };
    let mut stack = [bvh_search::FREE; bvh_search::STACK];
    for made in 0..SHADOW_STEPS {
        if !(c.t < ray.tmax) {
            return seen(c.res, made);
        }
        let p = ray.point_at(c.t);
        let h = bvh_search::field(tree, ws, fs, &mut stack, p);
        let Some(next) = passed_of(c, h.d, k) else {
            return Shadow {
                vis: 0.0,
                count: made + 1,
            };
        };
        c = next;
    }
    seen(c.res, SHADOW_STEPS)
}

#[tactic(auto, unfolding(crate::specs::Shadow::seen_of))]
fn seen(res: f32, count: u32) -> Shadow
    ensures { result ≡ seen_of res count }
{
    Shadow {
        vis: scalar::clamp(res, 0.0, 1.0),
        count,
    }
}
