// The room from above, in marks: 20 lines of 48, each mark for 0.2 m by 0.4 m of the room.
use crate::number::rounded;
use crate::pieces::at;
use crate::room::Material;
use crate::tables::Tables;
use crate::{report, room};
use std::{fmt, io};

const WIDTH: usize = 48;

pub const PLACES: usize = 960;

// A mark for each 50 lux.
const SHADES: [char; 10] = [' ', '.', ':', '-', '=', '+', '*', '#', '%', '@'];

// A mark for each tenth.
const TENTHS: [char; 11] = [' ', '1', '2', '3', '4', '5', '6', '7', '8', '9', 'X'];

// The middle of place i.
fn place_x(i: u16) -> f32 {
    0.1 + 0.2 * ((i % 48) as f32)
}

fn place_z(i: u16) -> f32 {
    0.2 + 0.4 * ((i / 48) as f32)
}

fn light(tables: &Tables, i: u16) -> f32 {
    tables
        .light(room::on_desk(place_x(i), place_z(i)))
        .map_or(0.0, |l| l.lux)
}

// A letter for what a ray from the ceiling down meets first.
fn seen(tables: &Tables, i: u16) -> char {
    let from = at(place_x(i), room::HEIGHT - 0.1, place_z(i));
    let met = tables.met(from, at(0.0, -1.0, 0.0), room::HEIGHT);
    match Material::ALL.get(met as usize) {
        Some(Material::Desk) => 'D',
        Some(Material::Chair) => 'c',
        Some(Material::Shelf) => 'S',
        Some(Material::Teacher) => 'T',
        _ => ' ',
    }
}

fn shade(lux: f32) -> char {
    SHADES[(rounded(lux).0 / 50_000).min(9) as usize]
}

// How many tenths of the light are lost.
fn loss(before: f32, after: f32) -> char {
    TENTHS[(rounded(report::lost(before, after)).0 / 10_000).min(10) as usize]
}

// A line of marks.
#[derive(Clone, Copy)]
struct Line<'a>(&'a [char]);

impl fmt::Display for Line<'_> {
    fn fmt<W: fmt::Write>(&self, f: &mut fmt::Formatter<W>) -> fmt::Result {
        for mark in self.0 {
            f.write_char(*mark)?;
        }
        Ok(())
    }
}

// Two pictures side by side.
fn show(rt: &impl Print, left: &[char; PLACES], right: &[char; PLACES]) -> io::Result<()> {
    let border = Line(&['-'; WIDTH]);
    println!(rt; "+{border}+{border}+")?;
    for (left, right) in left.chunks(WIDTH).zip(right.chunks(WIDTH)) {
        println!(rt; "|{}|{}|", Line(left), Line(right))?;
    }
    println!(rt; "+{border}+{border}+")
}

// What stands in the room and the light at each place, which is left in `lux`.
pub fn look(rt: &impl Print, tables: &Tables, lux: &mut [f32; PLACES]) -> io::Result<()> {
    println!(rt; "\nFrom above, the board's wall on top")?;
    println!(rt; "  left: D desk, c chair, T teacher's desk, S shelf")?;
    println!(rt;
        "  right: the light at the desks' height, a mark for each 50 lux: blank . : - = + * # % @"
    )?;
    let mut left = [' '; PLACES];
    let mut right = [' '; PLACES];
    for i in 0..PLACES as u16 {
        let here = light(tables, i);
        lux[i as usize] = here;
        left[i as usize] = seen(tables, i);
        right[i as usize] = shade(here);
    }
    show(rt, &left, &right)
}

// The light that is lost since `lux` was left, and the light now.
pub fn look_again(rt: &impl Print, tables: &Tables, lux: &[f32; PLACES]) -> io::Result<()> {
    println!(rt; "\nFrom above")?;
    println!(rt;
        "  left: tenths of the light that are lost, X all ten; right: the light, as before"
    )?;
    let mut left = [' '; PLACES];
    let mut right = [' '; PLACES];
    for i in 0..PLACES as u16 {
        let here = light(tables, i);
        left[i as usize] = loss(lux[i as usize], here);
        right[i as usize] = shade(here);
    }
    show(rt, &left, &right)
}
