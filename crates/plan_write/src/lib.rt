// What entries write: a record that stands in a table's arguments becomes a row of its plan, its cutters rows after
// those that are there, and its list has one more. `among` tells planes from objects by two values, as an enum would.

#![tactic(auto)]

ghost use Rattle.std.specs.Prelude.{◌≡◌, ◌+◌};
ghost use Rattle.plan.specs.Sections.{materials, lights, args_row};
ghost use Rattle.plan.specs.Plan.{count_of};
ghost use Rattle.plan_write.specs.Written.{arg_word, section_of, used_words, used_word, piece_words, cutter_words};
ghost use Rattle.plan_write.specs.Written.{first_word, record_words, put_row, put_cutters, one_more, with_piece};
ghost use Rattle.plan_write.specs.Written.{with_material_words, with_light_words};

use plan::Words;
use refusals::Kind;

// Word k of the arguments.
pub fn arg_word(ws: &Words, k: u32) -> u32
    ensures { result ≡ arg_word ws.now k }
{
    plan::word_in(ws, plan::ARGS + k as usize)
}

fn row_of(among: bool) -> u32
    ensures { result ≡ (section_of among).first }
{
    if among {
        plan::PLANE_ROW
    } else {
        plan::OBJECT_ROW
    }
}

pub fn count_of(among: bool, ws: &Words) -> u32
    ensures { result ≡ count_of (section_of among) ws.now }
{
    if among {
        ws[plan::COUNT_PLANES]
    } else {
        ws[plan::COUNT_OBJECTS]
    }
}

// How many of its eight words a kind uses.
fn used_words(kind: u32) -> u32
    ensures { result ≡ used_words kind }
{
    match Kind::try_from(kind) {
        Ok(Kind::Sphere) => 4,
        Ok(Kind::RoundBox) => 7,
        Ok(Kind::Plane) => 4,
        Ok(Kind::Capsule) => 7,
        Ok(Kind::Torus) => 5,
        Ok(Kind::Cylinder) => 7,
        Ok(Kind::Cone) => 8,
        Err(_) => 7,
    }
}

// Word i + j, where the kind uses word j of its eight; else 0.
#[tactic(auto, unfolding(crate::specs::Written::used_word))]
fn used_word(ws: &Words, i: usize, kind: u32, j: u32) -> u32
    ensures { result ≡ used_word ws.now i kind j }
{
    if j < used_words(kind) {
        return plan::word_after(ws, i, j);
    }
    0
}

// The row of the arguments' piece, its first cutter at a place.
fn piece_words(ws: &Words, place: u32) -> [u32; 16]
    ensures { result ≡ piece_words ws.now place }
{
    let k = arg_word(ws, 3);
    let i = plan::ARGS + 4;
    [
        arg_word(ws, 0),
        arg_word(ws, 1),
        arg_word(ws, 2),
        k,
        used_word(ws, i, k, 0),
        used_word(ws, i, k, 1),
        used_word(ws, i, k, 2),
        used_word(ws, i, k, 3),
        used_word(ws, i, k, 4),
        used_word(ws, i, k, 5),
        used_word(ws, i, k, 6),
        used_word(ws, i, k, 7),
        place,
        0,
        0,
        0,
    ]
}

// The row of cutter j of the arguments.
fn cutter_words(ws: &Words, j: u32) -> [u32; 16]
    ensures { result ≡ cutter_words ws.now (args_row + 1 + j) }
{
    let i = 16 * (plan::ARGS_ROW as usize + 1 + j as usize);
    let k = plan::word_in(ws, i);
    [
        k,
        used_word(ws, i + 1, k, 0),
        used_word(ws, i + 1, k, 1),
        used_word(ws, i + 1, k, 2),
        used_word(ws, i + 1, k, 3),
        used_word(ws, i + 1, k, 4),
        used_word(ws, i + 1, k, 5),
        used_word(ws, i + 1, k, 6),
        used_word(ws, i + 1, k, 7),
        0,
        0,
        0,
        0,
        0,
        0,
        0,
    ]
}

// Word k of a record of n words.
#[tactic(auto, unfolding(crate::specs::Written::first_word))]
fn first_word(ws: &Words, n: u32, k: u32) -> u32
    ensures { result ≡ first_word ws.now n k }
{
    if k < n { arg_word(ws, k) } else { 0 }
}

// The row of a record that is the first n words of the arguments.
fn record_words(ws: &Words, n: u32) -> [u32; 16]
    ensures { result ≡ record_words ws.now n }
{
    let mut rec = [0u32; 16];
    for k in 0..16u32 {
        rec[k as usize] = first_word(ws, n, k);
    }
    rec
}

// The sixteen words of row r of the plan.
fn put_row(ws: &mut Words, r: usize, rec: &[u32; 16])
    ensures { ws.new ≡ put_row ws.old r rec.now }
{
    if r < plan::ARGS_ROW as usize {
        ws[16 * r..16 * r + 16].copy_from_slice(rec);
    }
}

// The first n cutters of the arguments, from a place on.
fn put_cutters(ws: &mut Words, place: u32, n: u32)
    ensures { ws.new ≡ put_cutters ws.old place n }
{
    for j in 0..n {
        let rec = cutter_words(ws, j);
        put_row(
            ws,
            plan::CUTTER_ROW as usize + place as usize + j as usize,
            &rec,
        );
    }
}

fn one_more(n: u32) -> u32
    ensures { result ≡ one_more n }
{
    if n < 256 { n + 1 } else { n }
}

#[tactic(auto, unfolding(crate::specs::Written::with_piece))]
pub fn with_piece(among: bool, ws: &mut Words, place: u32)
    ensures { ws.new ≡ with_piece among ws.old place }
{
    let count = count_of(among, ws);
    let n = arg_word(ws, 2);
    let rec = piece_words(ws, place);
    put_cutters(ws, place, n);
    put_row(ws, row_of(among) as usize + count as usize, &rec);
    if among {
        ws[plan::COUNT_PLANES] = one_more(count);
        return;
    }
    ws[plan::COUNT_OBJECTS] = one_more(count);
}

#[tactic(auto, unfolding(crate::specs::Written::with_material_words))]
pub fn with_material(ws: &mut Words, count: u32)
    ensures { count ≡ count_of materials ws.old → ws.new ≡ with_material_words ws.old }
{
    let rec = record_words(ws, 5);
    put_row(ws, plan::MATERIAL_ROW as usize + count as usize, &rec);
    ws[plan::COUNT_MATERIALS] = one_more(count);
}

// A light takes two rows, and the second is spare.
#[tactic(auto, unfolding(crate::specs::Written::with_light_words))]
pub fn with_light(ws: &mut Words, count: u32)
    ensures { count ≡ count_of lights ws.old → ws.new ≡ with_light_words ws.old }
{
    let rec = record_words(ws, 15);
    let none = record_words(ws, 0);
    let r = plan::LIGHT_ROW as usize + 2 * (count as usize);
    put_row(ws, r, &rec);
    put_row(ws, r + 1, &none);
    ws[plan::COUNT_LIGHTS] = one_more(count);
}
