// A ray against the caller's list of panels: the loops of bemitondry_emitter over a slice in place of bytes, too short
// to share.

#![tactic(auto)]

ghost use Rattle.std.specs.Prelude.{◌≡◌};
ghost use Rattle.refusals.specs.Refusals.{lowest_of};
ghost use Rattle.record_test.specs.Numbers.{light_number};
ghost use Rattle.emitter.specs.Emitter.{emitter_of};
ghost use Rattle.emitter_list.specs.List.{asked_number, list_reply};

use emitter::{Aim, Emitted};
use plan::QuadLight;
use reply::Reply;
use vectors::Vec3;

// What n lights and a ray get, whatever the lights are.
#[tactic(auto, unfolding(crate::specs::List::asked_number, crate::specs::List::few))]
fn asked_number(n: usize, aim: Aim) -> u32
    ensures { result ≡ asked_number n aim.ro aim.rd aim.tmax }
{
    refusals::lower(
        refusals::unless(refusals::NO_ROOM, n <= 16),
        refusals::unless(refusals::BAD_NUMBER, bemitondry_emitter::aim_ok(aim)),
    )
}

// What the lights get, each as on entry.
fn lights_number(lights: &[QuadLight]) -> u32
    ensures { result ≡ lowest_of light_number lights.now }
{
    let mut least = 0;
    for l in lights {
        let own = record_test::light_number(*l);
        least = refusals::lower(least, own);
    }
    least
}

fn emitter_among(lights: &[QuadLight], aim: Aim) -> Option<Emitted>
    ensures { result ≡ emitter_of lights.now aim.ro aim.rd aim.tmax }
{
    let mut best = None;
    // By place, as over bytes: a loop that begins elsewhere is refused by what it answers.
    for i in 0..lights.len() {
        best = emitter::emitter_step(best, lights[i], aim);
    }
    best
}

// The panel that a ray meets first, of the caller's list.
pub fn emitter_hit(lights: &[QuadLight], ro: Vec3, rd: Vec3, tmax: f32) -> Reply
    ensures { result ≡ list_reply lights.now ro rd tmax }
{
    let n = lights.len();
    let aim = Aim { ro, rd, tmax };
    let asked = asked_number(n, aim);
    if n > 16 {
        return reply::refused(asked);
    }
    let number = refusals::lower(asked, lights_number(lights));
    let best = emitter_among(lights, aim);
    reply::reply_of(number, bemitondry_emitter::emitted_reply(best))
}
