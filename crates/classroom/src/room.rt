// The classroom, in metres: x goes along the board's wall, y up, z from the board to the back.
use crate::pieces::{Piece, Solid, at, bar, block};
use crate::report;
use crate::tables::Tables;
use std::io;
use vectors::Vec3;

// In the order in which they enter the plan.
#[derive(Clone, Copy, Debug, PartialEq, Eq)]
pub enum Material {
    Wall,
    Floor,
    Desk,
    Chair,
    Shelf,
    Board,
    Teacher,
    Cabinet,
}

impl Material {
    pub const ALL: [Material; 8] = [
        Material::Wall,
        Material::Floor,
        Material::Desk,
        Material::Chair,
        Material::Shelf,
        Material::Board,
        Material::Teacher,
        Material::Cabinet,
    ];

    // How much of the light it sends back.
    fn grey(self) -> f32 {
        match self {
            Material::Wall => 0.8,
            Material::Floor => 0.3,
            Material::Desk => 0.6,
            Material::Chair => 0.4,
            Material::Board => 0.1,
            Material::Shelf | Material::Teacher | Material::Cabinet => 0.5,
        }
    }
}

pub const WIDTH: f32 = 9.6;

pub const DEPTH: f32 = 8.0;

pub const HEIGHT: f32 = 3.0;

pub const DESKS: usize = 20;

pub const DESK_HEIGHT: f32 = 0.75;

pub const LAMP_HEIGHT: f32 = 2.75;

pub const LAMP_WIDTH: f32 = 1.2;

pub const LAMP_DEPTH: f32 = 0.6;

// In lumens a square metre.
pub const LAMP_LIGHT: f32 = 7000.0;

// The middle of desk k: five rows of four, an aisle in the middle.
pub fn desk_x(k: u8) -> f32 {
    match k % 4 {
        0 => 1.6,
        1 => 3.3,
        2 => 6.3,
        _ => 8.0,
    }
}

pub fn desk_z(k: u8) -> f32 {
    2.2 + 1.2 * ((k / 4) as f32)
}

// A millimetre above the desks' height.
pub fn on_desk(x: f32, z: f32) -> Vec3 {
    at(x, DESK_HEIGHT + 0.001, z)
}

// A side of the room: the points p with normal . p = h.
fn side<const N: usize>(material: Material, normal: Vec3, h: f32, cutters: [Solid; N]) -> Piece<N> {
    Piece {
        material: material as u32,
        body: Solid::Half { normal, h },
        cutters,
    }
}

// A desk's top, w by d, with a slot for cables.
fn top(material: Material, x: f32, z: f32, w: f32, d: f32) -> Piece<1> {
    let y = DESK_HEIGHT - 0.015;
    Piece {
        material: material as u32,
        body: block(at(x, y, z), at(w, 0.03, d)),
        cutters: [block(at(x, y, z - d * 0.4), at(w * 0.4, 0.1, 0.05))],
    }
}

// What it stands on: a block less the room for the knees, so two sides and a panel.
fn stand(material: Material, x: f32, z: f32, w: f32, d: f32) -> Piece<1> {
    let y = DESK_HEIGHT * 0.5 - 0.015;
    Piece {
        material: material as u32,
        body: block(at(x, y, z), at(w - 0.1, DESK_HEIGHT - 0.03, d - 0.1)),
        cutters: [block(at(x, y, z + 0.05), at(w - 0.2, DESK_HEIGHT, d - 0.1))],
    }
}

// A block less what is above the seat, what is below it, and a hole for the hand in the back, which is on the board's
// side (-1) or on the other (1).
fn chair(x: f32, z: f32, side: f32) -> Piece<3> {
    let back = z + 0.19 * side;
    Piece {
        material: Material::Chair as u32,
        body: block(at(x, 0.42, z), at(0.42, 0.84, 0.42)),
        cutters: [
            block(at(x, 0.72, z - 0.1 * side), at(0.5, 0.5, 0.54)),
            block(at(x, 0.19, z), at(0.36, 0.5, 0.5)),
            bar(at(x - 0.08, 0.74, back), at(x + 0.08, 0.74, back), 0.03),
        ],
    }
}

// At the left wall, with three compartments.
fn shelf(z: f32) -> Piece<3> {
    Piece {
        material: Material::Shelf as u32,
        body: block(at(0.2, 0.9, z), at(0.36, 1.8, 1.0)),
        cutters: [
            block(at(0.26, 0.35, z), at(0.36, 0.5, 0.92)),
            block(at(0.26, 0.9, z), at(0.36, 0.5, 0.92)),
            block(at(0.26, 1.45, z), at(0.36, 0.5, 0.92)),
        ],
    }
}

// With a groove for chalk.
fn board() -> Piece<1> {
    Piece {
        material: Material::Board as u32,
        body: block(at(4.8, 1.6, 0.05), at(4.0, 1.2, 0.06)),
        cutters: [bar(at(3.0, 1.02, 0.08), at(6.6, 1.02, 0.08), 0.02)],
    }
}

// Tall, in the aisle, with a compartment that is open to the left.
pub fn cabinet(material: u32) -> Piece<1> {
    Piece {
        material,
        body: block(at(4.5, 1.1, 4.6), at(0.5, 2.2, 2.4)),
        cutters: [block(at(4.3, 1.7, 4.6), at(0.5, 0.7, 2.2))],
    }
}

pub fn add_materials(rt: &impl Print, tables: &mut Tables) -> io::Result<()> {
    for material in Material::ALL {
        report::entered(rt, tables.add_material(material.grey()))?;
    }
    Ok(())
}

// The floor first; the back wall, which is the last, has a niche for the door.
fn add_sides(rt: &impl Print, tables: &mut Tables) -> io::Result<()> {
    let plain = [
        side(Material::Floor, at(0.0, 1.0, 0.0), 0.0, []),
        side(Material::Wall, at(0.0, -1.0, 0.0), -HEIGHT, []),
        side(Material::Wall, at(1.0, 0.0, 0.0), 0.0, []),
        side(Material::Wall, at(-1.0, 0.0, 0.0), -WIDTH, []),
        side(Material::Wall, at(0.0, 0.0, 1.0), 0.0, []),
    ];
    for side in plain {
        report::entered(rt, tables.add_plane(side))?;
    }
    let door = block(at(8.8, 1.05, DEPTH), at(0.9, 2.1, 0.4));
    let back = side(Material::Wall, at(0.0, 0.0, -1.0), -DEPTH, [door]);
    report::entered(rt, tables.add_plane(back))
}

// Two rows of three lamps, panels that face down.
fn add_lamps(rt: &impl Print, tables: &mut Tables) -> io::Result<()> {
    let w = LAMP_WIDTH * 0.5;
    let d = LAMP_DEPTH * 0.5;
    for k in 0..6u8 {
        let x = 1.9 + 2.9 * ((k % 3) as f32);
        let z = 2.6 + 3.2 * ((k / 3) as f32);
        let corners = [
            at(x - w, LAMP_HEIGHT, z - d),
            at(x + w, LAMP_HEIGHT, z - d),
            at(x + w, LAMP_HEIGHT, z + d),
            at(x - w, LAMP_HEIGHT, z + d),
        ];
        report::entered(rt, tables.add_light(corners, LAMP_LIGHT))?;
    }
    Ok(())
}

// The desks with their chairs, then the other pieces.
fn add_furniture(rt: &impl Print, tables: &mut Tables) -> io::Result<()> {
    for k in 0..DESKS as u8 {
        let x = desk_x(k);
        let z = desk_z(k);
        report::entered(rt, tables.add_object(top(Material::Desk, x, z, 1.3, 0.6)))?;
        report::entered(rt, tables.add_object(stand(Material::Desk, x, z, 1.3, 0.6)))?;
        report::entered(rt, tables.add_object(chair(x, z + 0.55, 1.0)))?;
    }
    report::entered(
        rt,
        tables.add_object(top(Material::Teacher, 2.6, 1.2, 1.8, 0.8)),
    )?;
    report::entered(
        rt,
        tables.add_object(stand(Material::Teacher, 2.6, 1.2, 1.8, 0.8)),
    )?;
    report::entered(rt, tables.add_object(chair(2.6, 0.6, -1.0)))?;
    report::entered(rt, tables.add_object(board()))?;
    for k in 0..4u8 {
        report::entered(rt, tables.add_object(shelf(3.0 + 1.2 * (k as f32))))?;
    }
    Ok(())
}

pub fn furnish(rt: &impl Print, tables: &mut Tables) -> io::Result<()> {
    add_materials(rt, tables)?;
    add_sides(rt, tables)?;
    add_lamps(rt, tables)?;
    add_furniture(rt, tables)
}
