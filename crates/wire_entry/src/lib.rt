// Entries on bytes: what is lent is loaded, the entry made, and what it leaves stored and sent.

#![tactic(auto)]

ghost use Rattle.std.specs.Prelude.{ℕ, List, Float, true, false};
ghost use Rattle.plan.specs.Sections.{materials, lights};
ghost use Rattle.plan.specs.Plan.{count_of, seen};
ghost use Rattle.plan_write.specs.Written.{section_of, with_material_words, with_light_words};
ghost use Rattle.bemitondry_entry.specs.Entries.{material_entry, light_entry, piece_entry, piece_left};
ghost use Rattle.bemitondry_entry.specs.Inside.Enters.{EntersTable};
ghost use Rattle.wire.specs.Lent.{plan_table};
ghost use Rattle.wire_entry.specs.Entries.{EntrySent, MaterialSent, LightSent, PlaneSent, ObjectSent};

use plan::{Floats, Words};
use reply::Reply;

// What enters, of the arguments in a loaded table. Its number, its index and the table that it leaves are functions of
// what applies before, of the table's words and of its floats.
trait Entry {
    ghost number: { Self → ℕ → List ℕ → List Float → ℕ };

    ghost index: { Self → List ℕ → ℕ };

    ghost left: { Self → List ℕ → List Float → List ℕ };

    fn enter(self, before: u32, ws: &mut Words, fs: &Floats) -> Reply
        ensures { EntersTable (number self before ws.old fs.now) (index self ws.old) ws.old
            (left self ws.old fs.now) result ws.new };
}

#[derive(Clone, Copy)]
struct Material;

impl Entry for Material {
    ghost number = { λ _ before w f. material_entry before w f };

    ghost index = { λ _ w. count_of materials w };

    ghost left = { λ _ w f. with_material_words w };

    fn enter(self, before: u32, ws: &mut Words, fs: &Floats) -> Reply {
        bemitondry_entry::add_material(before, ws, fs)
    }
}

#[derive(Clone, Copy)]
struct Light;

impl Entry for Light {
    ghost number = { λ _ before w f. light_entry before w f };

    ghost index = { λ _ w. count_of lights w };

    ghost left = { λ _ w f. with_light_words w };

    fn enter(self, before: u32, ws: &mut Words, fs: &Floats) -> Reply {
        bemitondry_entry::add_light(before, ws, fs)
    }
}

// A plane (`among` is true) or an object, with its cutters; `bytes` is how long the arguments are.
#[derive(Clone, Copy)]
struct Piece {
    among: bool,
    bytes: usize,
}

impl Entry for Piece {
    ghost number = { λ it before w f. piece_entry before it.among w f it.bytes };

    ghost index = { λ it w. count_of (section_of it.among) w };

    ghost left = { λ it w f. piece_left it.among w f };

    fn enter(self, before: u32, ws: &mut Words, fs: &Floats) -> Reply {
        bemitondry_entry::add_piece(before, self.among, ws, fs, self.bytes)
    }
}

// An entry that reads `need` bytes of arguments, where `before` applies by the tables' lengths.
fn enter<E: Entry>(
    entry: E,
    need: usize,
    before: u32,
    plan: &mut [u8],
    args: &[u8],
    out: &mut [u8],
) -> u32
    ensures { EntrySent
        (E.number entry before (plan_table need plan.old args.now) (seen (plan_table need plan.old args.now)))
        (E.index entry (plan_table need plan.old args.now))
        (E.left entry (plan_table need plan.old args.now) (seen (plan_table need plan.old args.now)))
        plan.old out.old result plan.new out.new }
{
    let mut ws = [0u32; plan::TABLE];
    let mut fs = [0.0f32; plan::TABLE];
    wire::load_plan(need, plan, args, &mut ws, &mut fs);
    let r = entry.enter(before, &mut ws, &fs);
    if r.number == 0 {
        wire::store_plan(&ws, plan);
    }
    wire::send(r, out)
}

pub fn add_material(plan: &mut [u8], args: &[u8], out: &mut [u8]) -> u32
    ensures { MaterialSent plan.old args.now out.old result plan.new
        out.new }
{
    let before = wire_lengths::plan_before(plan.len(), 20, args.len(), out.len());
    enter(Material, 20, before, plan, args, out)
}

pub fn add_light(plan: &mut [u8], args: &[u8], out: &mut [u8]) -> u32
    ensures { LightSent plan.old args.now out.old result plan.new
        out.new }
{
    let before = wire_lengths::plan_before(plan.len(), 60, args.len(), out.len());
    enter(Light, 60, before, plan, args, out)
}

pub fn add_plane(plan: &mut [u8], args: &[u8], out: &mut [u8]) -> u32
    ensures { PlaneSent plan.old args.now out.old result plan.new
        out.new }
{
    let before = wire_lengths::plan_before(plan.len(), 64, args.len(), out.len());
    let plane = Piece {
        among: true,
        bytes: args.len(),
    };
    enter(plane, 64, before, plan, args, out)
}

pub fn add_object(
    plan: &mut [u8],
    nodes: &mut [u8],
    order: &mut [u8],
    args: &[u8],
    out: &mut [u8],
) -> u32
    ensures { ObjectSent plan.old nodes.old order.old args.now
        out.old result plan.new nodes.new order.new out.new }
{
    let before = wire_lengths::tree_tables_before(
        plan.len(),
        nodes.len(),
        order.len(),
        64,
        args.len(),
        out.len(),
    );
    let object = Piece {
        among: false,
        bytes: args.len(),
    };
    let number = enter(object, 64, before, plan, args, out);
    // An object that enters drops the tree.
    if number == 0 {
        wire::clear(nodes, wire_lengths::NODES_BYTES);
        wire::clear(order, wire_lengths::ORDER_BYTES);
    }
    number
}
