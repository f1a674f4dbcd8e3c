// A second plan, whose last piece makes its tree too deep: points on a line, each 1.25 times as far out as the one
// before.
use crate::number::Metres;
use crate::pieces::{Piece, Solid, at};
use crate::refusal::Refusal;
use crate::tables::{Search, Tables};
use crate::{report, room};
use std::io;

// The last point to enter stands nearest to 0.
const LAST: f32 = 0.0030223145;

// A point at (x, 0, 0).
fn add_point(tables: &mut Tables, x: f32) -> Result<(), Refusal> {
    tables.add_object(Piece {
        material: 0,
        body: Solid::Point(at(x, 0.0, 0.0)),
        cutters: [],
    })
}

fn ask(rt: &impl Print, tables: &Tables, search: Search, how: &str) -> io::Result<()> {
    match tables.distance(search, at(100.0, 3.0, 4.0)) {
        Ok(distance) => println!(rt; "  {how}: {} to the nearest point", Metres(distance)),
        Err(refusal) => println!(rt; "  {how}: {refusal}"),
    }
}

fn build_and_ask(rt: &impl Print, tables: &mut Tables) -> io::Result<()> {
    report::build(rt, tables)?;
    ask(rt, tables, Search::Tree, "from (100, 3, 4) by the tree")?;
    ask(rt, tables, Search::List, "and by the plain list")
}

pub fn show(rt: &impl Print) -> io::Result<()> {
    println!(rt;
        "\nA second plan: points on a line, each 1.25 times as far out as the one before"
    )?;
    let mut tables = Tables::EMPTY;
    room::add_materials(rt, &mut tables)?;
    let mut x = LAST;
    for _ in 0..67 {
        x = x * 1.25;
        report::entered(rt, add_point(&mut tables, x))?;
    }
    build_and_ask(rt, &mut tables)?;
    let last = add_point(&mut tables, LAST);
    report::told(rt, "one point more, nearer than the others", last)?;
    build_and_ask(rt, &mut tables)
}
