// Tests of a plan: which number it gets for the sections that a call reads. `planes` tells planes from objects by two
// values, as an enum would.

#![tactic(auto)]

ghost use Rattle.std.specs.Prelude.{◌≡◌, true, false, cond, ◌&&◌, ◌+◌, leb, eqb};
ghost use Rattle.words.specs.Lists.{list_from};
ghost use Rattle.refusals.specs.Refusals.{lowest_of, no_room};
ghost use Rattle.plan.specs.Sections.{materials, cutter_places, cuts_most};
ghost use Rattle.plan.specs.Records.{light_in};
ghost use Rattle.plan.specs.Plan.{pieces_from, count_of, plan_of, plan_in};
ghost use Rattle.record_test.specs.Numbers.{light_number, piece_cuts};
ghost use Rattle.plan_test.specs.Tests.{counts_ok, tally_of, objects_number, solids_of, lit_number};
ghost use Rattle.plan_test.specs.Inside.Flat.{cuts_flat};

use plan::{Floats, Words};

// Pieces: what their own words get, whether every place is right, and how many places they use. No Result: all three
// are told, whatever the number.
#[derive(Clone, Copy)]
pub struct Tally {
    pub number: u32,
    pub placed: bool,
    pub used: u64,
}

// What planes and objects get, and how many places each of the two lists uses, told whatever the number.
#[derive(Clone, Copy)]
pub struct Solids {
    pub number: u32,
    pub planes: u64,
    pub objects: u64,
}

pub fn counts_ok(ws: &Words) -> bool
    ensures { result ≡ counts_ok (plan_in ws.now) }
{
    refusals::both(
        ws[plan::COUNT_MATERIALS] <= plan::MATERIALS,
        refusals::both(
            ws[plan::COUNT_PLANES] <= plan::PLANES,
            refusals::both(
                ws[plan::COUNT_LIGHTS] <= plan::LIGHTS,
                ws[plan::COUNT_OBJECTS] <= plan::OBJECTS,
            ),
        ),
    )
}

// `before` is how many places the pieces before this one use.
fn place_right(planes: bool, before: u64, place: u32, cutters: u32) -> bool
    ensures { result ≡ cond planes (eqb (place + (before + cutters)) cutter_places) (eqb place before) }
{
    if planes {
        if before > plan::CUTTERS as u64 {
            return false;
        }
        return place as u64 + (before + cutters as u64) == plan::CUTTERS as u64;
    }
    place as u64 == before
}

fn place_ok(planes: bool, before: u64, place: u32, cutters: u32) -> bool
    ensures { result ≡ (leb cutters cuts_most
        && cond planes (eqb (place + (before + cutters)) cutter_places) (eqb place before)) }
{
    refusals::both(
        cutters <= plan::CUTS,
        place_right(planes, before, place, cutters),
    )
}

// n pieces from row r on. No sum of so many words wraps.
fn tally_rows(ws: &Words, fs: &Floats, planes: bool, r: u32, n: u32) -> Tally
    ensures { result ≡ tally_of planes (count_of materials ws.now) (pieces_from ws.now fs.now r n) }
{
    let materials = ws[plan::COUNT_MATERIALS];
    let mut number: u32 = 0;
    let mut placed = true;
    let mut used: u64 = 0;
    for j in 0..n {
        let row = r as usize + j as usize;
        let cutters = plan::word_after(ws, 16 * row, 2);
        let place = plan::word_after(ws, 16 * row, 12);
        number = refusals::lower(number, record_test::own_at(ws, fs, planes, materials, row));
        placed = refusals::both(placed, place_ok(planes, used, place, cutters));
        used += cutters as u64;
    }
    Tally {
        number,
        placed,
        used,
    }
}

// The cutters of n pieces from row r on.
fn pieces_cuts(ws: &Words, fs: &Floats, r: u32, n: u32) -> u32
    ensures { result ≡ lowest_of piece_cuts (pieces_from ws.now fs.now r n) }
{
    refusals::lowest_number(n, |j| {
        record_test::piece_cuts(ws, fs, r as usize + j as usize)
    })
}

// The same, where every place is right.
fn placed_cuts(ws: &Words, fs: &Floats, placed: bool, r: u32, n: u32) -> u32
    ensures { result ≡ cond placed (lowest_of piece_cuts (pieces_from ws.now fs.now r n)) no_room }
{
    if placed {
        return pieces_cuts(ws, fs, r, n);
    }
    refusals::NO_ROOM
}

// The cutters of all objects, where every place is right: they stand one after the other.
fn object_cuts(ws: &Words, fs: &Floats, placed: bool, used: u64) -> u32
    ensures { result ≡ cuts_flat ws.now fs.now placed used }
{
    if placed {
        if used <= plan::CUTTERS as u64 {
            return record_test::cuts_number(ws, fs, plan::CUTTER_ROW, 0, used as u32);
        }
        return refusals::NO_ROOM;
    }
    refusals::NO_ROOM
}

// The objects with their cutters.
pub fn objects_number(ws: &Words, fs: &Floats) -> u32
    ensures { result ≡ objects_number (plan_of ws.now fs.now) }
{
    if counts_ok(ws) {
        let n = ws[plan::COUNT_OBJECTS];
        let t = tally_rows(ws, fs, false, plan::OBJECT_ROW, n);
        let placed = refusals::both(t.placed, t.used <= plan::CUTTERS as u64);
        return refusals::lower(t.number, object_cuts(ws, fs, placed, t.used));
    }
    refusals::NO_ROOM
}

// Whether planes and objects together have no more cutters than there are places.
pub fn fits(planes: u64, objects: u64) -> bool
    ensures { result ≡ leb (planes + objects) cutter_places }
{
    planes.saturating_add(objects) <= plan::CUTTERS as u64
}

// Planes and objects with their cutters.
pub fn judge_solids(ws: &Words, fs: &Floats) -> Solids
    ensures { result ≡ solids_of (plan_of ws.now fs.now) }
{
    if counts_ok(ws) {
        let p = tally_rows(ws, fs, true, plan::PLANE_ROW, ws[plan::COUNT_PLANES]);
        let o = tally_rows(ws, fs, false, plan::OBJECT_ROW, ws[plan::COUNT_OBJECTS]);
        let placed = refusals::both(p.placed, refusals::both(o.placed, fits(p.used, o.used)));
        let cuts = refusals::lower(
            placed_cuts(ws, fs, placed, plan::PLANE_ROW, ws[plan::COUNT_PLANES]),
            object_cuts(ws, fs, placed, o.used),
        );
        return Solids {
            number: refusals::lower(refusals::lower(p.number, o.number), cuts),
            planes: p.used,
            objects: o.used,
        };
    }
    Solids {
        number: refusals::NO_ROOM,
        planes: 0,
        objects: 0,
    }
}

// The first n lights.
fn lights_number(fs: &Floats, n: u32) -> u32
    ensures { result ≡ lowest_of light_number (list_from (light_in fs.now) 0 n) }
{
    refusals::lowest_number(n, |l| record_test::light_number(plan::light_in(fs, l)))
}

// Planes and objects with their cutters, and lights.
pub fn lit_number(ws: &Words, fs: &Floats) -> u32
    ensures { result ≡ lit_number (plan_of ws.now fs.now) }
{
    if counts_ok(ws) {
        let s = judge_solids(ws, fs);
        return refusals::lower(s.number, lights_number(fs, ws[plan::COUNT_LIGHTS]));
    }
    refusals::NO_ROOM
}
