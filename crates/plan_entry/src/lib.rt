// Entries: a material, a plane, an object or a light that stands in a table's arguments is tested and written into its
// plan, or nothing changes. Each answers the place of what entered in its list, or the number that refuses it: any that
// its caller says applies already, so no enum.

#![tactic(auto)]

ghost use Rattle.std.specs.Prelude.{◌≡◌, ◌+◌, ◌&&◌, leb, ltb};
ghost use Rattle.plan.specs.Sections.{cutter_places};
ghost use Rattle.plan_write.specs.Written.{section_of};
ghost use Rattle.plan_entry.specs.Entry.{arg_cuts_number, args_number, room_number, piece_number, new_place};
ghost use Rattle.plan_entry.specs.Inside.Adds.{AddsPiece, AddsMaterial, AddsLight};
ghost use Rattle.plan.specs.Plan.{plan_in};
ghost use Rattle.plan_test.specs.Tests.{counts_ok};
ghost use Rattle.refusals.specs.Refusals.{unless, lower, no_room};

use plan::{Floats, Words};
use plan_test::Solids;

// 2 where there are more than 8, or where the arguments, of so many bytes, end before the last.
#[tactic(auto, unfolding(crate::specs::Entry::arg_cuts_number))]
fn arg_cuts_number(ws: &Words, fs: &Floats, bytes: usize, n: u32) -> u32
    ensures { result ≡ arg_cuts_number ws.now fs.now bytes n }
{
    if n <= plan::CUTS {
        if 64 + 64 * (n as usize) <= bytes {
            return record_test::cuts_number(ws, fs, plan::ARGS_ROW, 1, n);
        }
    }
    refusals::NO_ROOM
}

#[tactic(auto, unfolding(crate::specs::Entry::args_number))]
fn args_number(among: bool, ws: &Words, fs: &Floats, bytes: usize) -> u32
    ensures { result ≡ args_number among ws.now fs.now bytes }
{
    let h = plan::head_at(ws, fs, plan::ARGS_ROW as usize);
    refusals::lower(
        record_test::own_number(among, ws[plan::COUNT_MATERIALS], h),
        arg_cuts_number(ws, fs, bytes, h.cutters),
    )
}

// Whether n cutters more have places.
fn places_left(s: Solids, n: u32) -> bool
    ensures { result ≡ leb (s.planes + (s.objects + n)) cutter_places }
{
    plan_test::fits(s.planes, s.objects.saturating_add(n as u64))
}

// Room for one more in a list, and for n cutters more.
#[tactic(auto, unfolding(crate::specs::Entry::room_number))]
fn room_number(count: u32, most: u32, s: Solids, n: u32) -> u32
    ensures { result ≡ room_number count most s n }
{
    refusals::lower(
        s.number,
        refusals::unless(
            refusals::NO_ROOM,
            refusals::both(count < most, places_left(s, n)),
        ),
    )
}

// Planes, or objects.
fn most_of(among: bool) -> u32
    ensures { result ≡ (section_of among).most }
{
    if among { plan::PLANES } else { plan::OBJECTS }
}

#[tactic(auto, unfolding(crate::specs::Entry::piece_number))]
fn piece_number(before: u32, among: bool, ws: &Words, fs: &Floats, s: Solids, bytes: usize) -> u32
    ensures { result ≡ piece_number before among ws.now fs.now s bytes }
{
    refusals::lower(
        before,
        refusals::lower(
            args_number(among, ws, fs, bytes),
            room_number(
                plan_write::count_of(among, ws),
                most_of(among),
                s,
                plan_write::arg_word(ws, 2),
            ),
        ),
    )
}

// Objects fill the places from the front, planes from the back.
#[tactic(auto, unfolding(crate::specs::Entry::new_place))]
fn new_place(among: bool, s: Solids, n: u32) -> u32
    ensures { result ≡ new_place among s n }
{
    if among {
        if s.planes > plan::CUTTERS as u64 {
            return 0;
        }
        let used = s.planes + n as u64;
        if used <= plan::CUTTERS as u64 {
            return (plan::CUTTERS as u64 - used) as u32;
        }
        return 0;
    }
    if s.objects <= plan::CUTTERS as u64 {
        return s.objects as u32;
    }
    0
}

// A plane or an object with its cutters: all enters, or nothing changes. `before` is a number that applies already,
// `fs` the table seen as floats, `bytes` how long the arguments are.
pub fn add_piece(
    before: u32,
    among: bool,
    ws: &mut Words,
    fs: &Floats,
    bytes: usize,
) -> Result<u32, u32>
    ensures { AddsPiece before among ws.old fs.now bytes result ws.new }
{
    let s = plan_test::judge_solids(ws, fs);
    let no = piece_number(before, among, ws, fs, s, bytes);
    let count = plan_write::count_of(among, ws);
    let place = new_place(among, s, plan_write::arg_word(ws, 2));
    if no == 0 {
        plan_write::with_piece(among, ws, place);
        return Ok(count);
    }
    Err(no)
}

// What a record gets: `before` is what applies already, `own` what its words get.
fn record_number(before: u32, own: u32, ws: &Words, count: u32, most: u32) -> u32
    ensures { result ≡ lower (lower before own) (unless no_room (counts_ok (plan_in ws.now) && ltb count most)) }
{
    refusals::lower(
        refusals::lower(before, own),
        refusals::unless(
            refusals::NO_ROOM,
            refusals::both(plan_test::counts_ok(ws), count < most),
        ),
    )
}

pub fn add_material(before: u32, ws: &mut Words, fs: &Floats) -> Result<u32, u32>
    ensures { AddsMaterial before ws.old fs.now result ws.new }
{
    let count = plan::word_in(ws, plan::COUNT_MATERIALS);
    let own = record_test::material_number(plan::material_at(fs, plan::ARGS_ROW as usize));
    let no = record_number(before, own, ws, count, plan::MATERIALS);
    if no == 0 {
        plan_write::with_material(ws, count);
        return Ok(count);
    }
    Err(no)
}

pub fn add_light(before: u32, ws: &mut Words, fs: &Floats) -> Result<u32, u32>
    ensures { AddsLight before ws.old fs.now result ws.new }
{
    let count = plan::word_in(ws, plan::COUNT_LIGHTS);
    let own = record_test::light_number(plan::light_at(fs, plan::ARGS_ROW as usize));
    let no = record_number(before, own, ws, count, plan::LIGHTS);
    if no == 0 {
        plan_write::with_light(ws, count);
        return Ok(count);
    }
    Err(no)
}
