// The public call on light records lent as bytes, fifteen words each: the panel that a ray meets first. `before` is a
// number that applies already.

#![tactic(auto)]

ghost use Rattle.std.specs.Prelude.{◌≡◌, ◌+◌, ◌*◌, length};
ghost use Rattle.words.specs.Lists.{list_from};
ghost use Rattle.refusals.specs.Refusals.{lowest_of};
ghost use Rattle.record_test.specs.Numbers.{light_number};
ghost use Rattle.wire.specs.Lent.{given_vec};
ghost use Rattle.emitter.specs.Emitter.{emitter_of};
ghost use Rattle.bemitondry_emitter.specs.Emitter.{records_ok, records_in, lent_light, aim_ok, emitted_reply};
ghost use Rattle.bemitondry_emitter.specs.Emitter.{emitter_number, emitter_reply};

use emitter::{Aim, Emitted};
use plan::QuadLight;
use reply::Reply;
use vectors::Vec3;

// Whether so many bytes are whole records, and no more than a plan may have.
#[tactic(auto, unfolding(crate::specs::Emitter::records_ok))]
fn records_ok(bytes: usize) -> bool
    ensures { result ≡ records_ok bytes }
{
    bytes % 60 == 0 && bytes <= 960
}

// How many records are gone through: none where they are too many or not whole.
fn records_in(bytes: usize) -> u32
    ensures { result ≡ records_in bytes }
{
    if records_ok(bytes) {
        (bytes / 60) as u32
    } else {
        0
    }
}

// Three floats from word k of record i on. Not by `wire::vec_at`: the place of any record i fits a usize, and no u32.
#[tactic(auto, unfolding(wire::specs::Lent::given_vec))]
fn vec_in(b: &[u8], i: u32, k: u32) -> Vec3
    ensures { result ≡ given_vec b.now (15 * i + k) }
{
    let at = 15 * (i as usize) + k as usize;
    Vec3 {
        x: wire::float_at(b, at),
        y: wire::float_at(b, at + 1),
        z: wire::float_at(b, at + 2),
    }
}

#[tactic(auto, unfolding(crate::specs::Emitter::lent_light))]
fn light_in(b: &[u8], i: u32) -> QuadLight
    ensures { result ≡ lent_light b.now i }
{
    QuadLight {
        v0: vec_in(b, i, 0),
        v1: vec_in(b, i, 3),
        v2: vec_in(b, i, 6),
        v3: vec_in(b, i, 9),
        emit: vec_in(b, i, 12),
    }
}

// What the first n records get, each as on entry.
fn lights_number(b: &[u8], n: u32) -> u32
    ensures { result ≡ lowest_of light_number (list_from (lent_light b.now) 0 n) }
{
    refusals::lowest_number(n, |i| record_test::light_number(light_in(b, i)))
}

// The first n records.
fn emitter_in(b: &[u8], n: u32, aim: Aim) -> Option<Emitted>
    ensures { result ≡ emitter_of (list_from (lent_light b.now) 0 n) aim.ro aim.rd aim.tmax }
{
    let mut best = None;
    for i in 0..n {
        best = emitter::emitter_step(best, light_in(b, i), aim);
    }
    best
}

#[tactic(auto, unfolding(crate::specs::Emitter::aim_ok))]
pub fn aim_ok(aim: Aim) -> bool
    ensures { result ≡ aim_ok aim.ro aim.rd aim.tmax }
{
    refusals::within(aim.ro, refusals::FARTHER)
        && refusals::within(aim.rd, refusals::STEEP)
        && refusals::up_to(aim.tmax, refusals::LONGEST)
}

// Whether a panel shows, where on the ray, and its emission.
#[tactic(auto, unfolding(crate::specs::Emitter::emitted_reply))]
pub fn emitted_reply(e: Option<Emitted>) -> Reply
    ensures { result ≡ emitted_reply e }
{
    match e {
        Some(e) => reply::done(
            1,
            scalar::bits(e.t),
            scalar::bits(e.emit.x),
            scalar::bits(e.emit.y),
            scalar::bits(e.emit.z),
            0,
            0,
            0,
        ),
        None => reply::done(0, 0, 0, 0, 0, 0, 0, 0),
    }
}

// What the call gets: by the bytes' length and the ray, then by the records.
#[tactic(auto, unfolding(crate::specs::Emitter::emitter_number))]
fn emitter_number(before: u32, lights: &[u8], aim: Aim) -> u32
    ensures { result ≡ emitter_number before lights.now aim.ro aim.rd aim.tmax }
{
    let given = refusals::lower(
        refusals::unless(refusals::NO_ROOM, records_ok(lights.len())),
        refusals::unless(refusals::BAD_NUMBER, aim_ok(aim)),
    );
    let own = lights_number(lights, records_in(lights.len()));
    refusals::lower(before, refusals::lower(given, own))
}

#[tactic(auto, unfolding(crate::specs::Emitter::emitter_reply, reply::specs::Reply::reply_of))]
pub fn emitter_hit(before: u32, lights: &[u8], ro: Vec3, rd: Vec3, tmax: f32) -> Reply
    ensures { result ≡ emitter_reply before lights.now ro rd tmax }
{
    let aim = Aim { ro, rd, tmax };
    let n = emitter_number(before, lights, aim);
    if n == 0 {
        return emitted_reply(emitter_in(lights, records_in(lights.len()), aim));
    }
    reply::refused(n)
}
