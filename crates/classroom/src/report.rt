// Sentences and tables of the report.
use crate::number::{Metres, rounded};
use crate::refusal::Refusal;
use crate::room;
use crate::room::DESKS;
use crate::tables::{Light, Tables};
use std::io;

// A line of what was asked and what became of it.
pub fn told(rt: &impl Print, what: &str, outcome: Result<(), Refusal>) -> io::Result<()> {
    match outcome {
        Ok(()) => println!(rt; "  {what}: done"),
        Err(refusal) => println!(rt; "  {what}: {refusal}"),
    }
}

// An entry is told of where it is refused.
pub fn entered(rt: &impl Print, outcome: Result<(), Refusal>) -> io::Result<()> {
    match outcome {
        Ok(()) => Ok(()),
        Err(_) => told(rt, "a piece", outcome),
    }
}

// The tree is built, or it is said why not.
pub fn build(rt: &impl Print, tables: &mut Tables) -> io::Result<()> {
    let pieces = tables.objects();
    match tables.build() {
        Ok(nodes) => println!(rt; "  the tree of {pieces} pieces: built, {nodes} nodes"),
        Err(refusal) => println!(rt; "  the tree of {pieces} pieces: {refusal}"),
    }
}

pub fn room(rt: &impl Print) -> io::Result<()> {
    println!(rt;
        "\nThe room\n  {} wide, {} deep, {} high, with a niche for the door in its back wall",
        Metres(room::WIDTH),
        Metres(room::DEPTH),
        Metres(room::HEIGHT)
    )?;
    println!(rt;
        "  {DESKS} desks, {} high, and their chairs; the teacher's desk and chair; 4 shelves; the board",
        Metres(room::DESK_HEIGHT)
    )
}

pub fn lamps(rt: &impl Print) -> io::Result<()> {
    println!(rt;
        "  6 lamps in two rows, {} by {}, {} above the floor, {} lumens a square metre",
        Metres(room::LAMP_WIDTH),
        Metres(room::LAMP_DEPTH),
        Metres(room::LAMP_HEIGHT),
        rounded(room::LAMP_LIGHT)
    )
}

fn verdict(lux: f32) -> &'static str {
    if lux == 0.0 {
        "no lamp reaches it"
    } else if lux < 300.0 {
        "too dark"
    } else {
        "enough"
    }
}

// Row and place of desk k, counted from 1.
fn seat(rt: &impl Print, k: u8) -> io::Result<()> {
    print!(rt; "{:>5}{:>7}", k / 4 + 1, k % 4 + 1)
}

pub fn desk_light(tables: &Tables, k: u8) -> Result<Light, Refusal> {
    tables.light(room::on_desk(room::desk_x(k), room::desk_z(k)))
}

fn desk(rt: &impl Print, k: u8, light: Result<Light, Refusal>) -> io::Result<()> {
    seat(rt, k)?;
    print!(rt;
        "{:>12}{:>12}",
        rounded(room::desk_x(k)),
        rounded(room::desk_z(k))
    )?;
    match light {
        Ok(Light { lux, evaluations }) => {
            println!(rt; "{:>12}{evaluations:>13}  {}", rounded(lux), verdict(lux))
        }
        Err(refusal) => println!(rt; "  {refusal}"),
    }
}

// A line for each desk, whose light is left in `lux`.
pub fn desks(rt: &impl Print, tables: &Tables, lux: &mut [f32; DESKS]) -> io::Result<()> {
    println!(rt; "\nThe desks\n  row  place   from left  from board         lux  evaluations")?;
    for (k, left) in (0u8..).zip(lux) {
        let light = desk_light(tables, k);
        *left = light.map_or(0.0, |l| l.lux);
        desk(rt, k, light)?;
    }
    Ok(())
}

// How much of the light is lost, in percent.
pub fn lost(before: f32, after: f32) -> f32 {
    if before > after {
        100.0 * (before - after) / before
    } else {
        0.0
    }
}

// A line for each desk that loses a percent of its light or more.
pub fn changes(rt: &impl Print, tables: &Tables, lux: &[f32; DESKS]) -> io::Result<()> {
    println!(rt; "\nThe desks that lose a percent of their light or more")?;
    println!(rt; "  row  place      before       after        lost")?;
    for (k, before) in (0u8..).zip(lux) {
        let before = *before;
        let after = desk_light(tables, k).map_or(0.0, |l| l.lux);
        let lost = lost(before, after);
        if lost >= 1.0 {
            seat(rt, k)?;
            println!(rt;
                "{:>12}{:>12}{:>10} %  {}",
                rounded(before),
                rounded(after),
                rounded(lost),
                verdict(after)
            )?;
        }
    }
    Ok(())
}
