// The panel that a ray meets first on its emitting side.

#![tactic(auto)]

ghost use Rattle.std.specs.Prelude.{◌≡◌};
ghost use Rattle.emitter.specs.Emitter.{nearer_than, shows_of, emitter_step};

use panel::Panel;
use plan::QuadLight;
use vectors::Vec3;

// A ray that ends at tmax.
#[derive(Clone, Copy)]
pub struct Aim {
    pub ro: Vec3,
    pub rd: Vec3,
    pub tmax: f32,
}

// Where a ray meets a panel on its emitting side, and what that emits.
#[derive(Clone, Copy)]
pub struct Emitted {
    pub t: f32,
    pub emit: Vec3,
}

// Any panel is nearer than none.
#[tactic(auto, unfolding(crate::specs::Emitter::nearer_than))]
fn nearer_than(best: Option<Emitted>, t: f32) -> bool
    ensures { result ≡ nearer_than best t }
{
    best.is_none_or(|e| t < e.t)
}

// Whether the panel shows at t: before the ray's end, on its emitting side, and nearer than the best.
#[tactic(auto, unfolding(crate::specs::Emitter::shows_of))]
fn shows(best: Option<Emitted>, a: Panel, aim: Aim, t: f32) -> bool
    ensures { result ≡ shows_of best a aim.rd aim.tmax t }
{
    t < aim.tmax && a.normal.dot(aim.rd) < 0.0 && nearer_than(best, t)
}

// The best so far, or the light l where it shows and is nearer.
#[tactic(auto, unfolding(crate::specs::Emitter::emitter_step))]
pub fn emitter_step(best: Option<Emitted>, l: QuadLight, aim: Aim) -> Option<Emitted>
    ensures { result ≡ emitter_step aim.ro aim.rd aim.tmax best l }
{
    let a = panel::panel_of(l);
    match a.quad.intersect(aim.ro, aim.rd) {
        Some(t) if shows(best, a, aim, t) => Some(Emitted { t, emit: a.emit }),
        _ => best,
    }
}
