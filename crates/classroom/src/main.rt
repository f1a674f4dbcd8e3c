// A classroom as a planner sees it: the room, the light on its desks, a cabinet that comes late, and a plan whose tree
// is refused.

#![tactic(auto)]

mod deep;
mod number;
mod picture;
mod pieces;
mod refusal;
mod report;
mod room;
mod tables;

use room::{DESKS, Material};
use std::io;
use tables::Tables;

fn furnished(rt: &impl Print, tables: &mut Tables) -> io::Result<()> {
    println!(rt; "CLASSROOM: the light that the lamps send straight to the desks")?;
    println!(rt;
        "Lux and metres to the nearest thousandth, halves up. 300 lux are enough for a desk."
    )?;
    report::room(rt)?;
    report::lamps(rt)?;
    room::furnish(rt, tables)?;
    report::build(rt, tables)
}

fn cabinet(rt: &impl Print, tables: &mut Tables) -> io::Result<()> {
    println!(rt; "\nA cabinet comes late: 0.5 m by 2.4 m, 2.2 m high, in the aisle")?;
    let strange = tables.add_object(room::cabinet(60));
    report::told(rt, "of a material that the plan does not have", strange)?;
    let own = tables.add_object(room::cabinet(Material::Cabinet as u32));
    report::told(rt, "of its own material", own)?;
    let at_once = report::desk_light(tables, 0).map(|_| ());
    report::told(rt, "the first desk, asked at once", at_once)?;
    report::build(rt, tables)
}

fn main(rt: HostRuntime) -> io::Result<()> {
    let mut tables = Tables::EMPTY;
    let mut desks = [0.0; DESKS];
    let mut places = [0.0; picture::PLACES];
    furnished(&rt, &mut tables)?;
    report::desks(&rt, &tables, &mut desks)?;
    picture::look(&rt, &tables, &mut places)?;
    cabinet(&rt, &mut tables)?;
    report::changes(&rt, &tables, &desks)?;
    picture::look_again(&rt, &tables, &places)?;
    deep::show(&rt)
}
