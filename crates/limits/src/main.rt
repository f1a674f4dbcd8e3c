// Plans at the library's limits, made by entries: which trees are built, which would be 64 deep or deeper, and what a
// plan refuses that is full (it has room for 256 objects, and for 1,024 cutters, of which a piece may have 8).

#![tactic(auto)]

mod powers;
mod tables;

use powers::POWERS;
use std::io;
use tables::{Search, Sphere, Tables};

// How many spheres with radius 0 at these x enter.
fn enter(tables: &mut Tables, xs: &[f32]) -> usize {
    xs.iter()
        .filter(|x| {
            let point = Sphere {
                x: **x,
                radius: 0.0,
                cutters: 0,
            };
            tables.add(point).number == 0
        })
        .count()
}

fn tell_query(rt: &impl Print, tables: &Tables, search: Search) -> io::Result<()> {
    let answer = tables.query(search);
    println!(rt;
        "  query: {}, distance {}, nodes popped {}, objects evaluated {}",
        answer.number,
        answer.float(0),
        answer.word(2),
        answer.word(3)
    )
}

// Of a tree of five spheres, the order and the first nodes.
fn tell_tree(rt: &impl Print, tables: &Tables, nodes: u32) -> io::Result<()> {
    print!(rt; "  order:")?;
    for place in 0..5 {
        print!(rt; " {}", tables.order(place))?;
    }
    println!(rt; "")?;
    for k in 0..nodes.min(5) as u8 {
        let node = tables.node(k);
        println!(rt;
            "  node {k}: from {} to {}, start {}, count {}, right {}",
            node.low, node.high, node.start, node.count, node.right
        )?;
    }
    Ok(())
}

// Spheres with radius 0 at these x enter an empty plan, and a tree is built of them; of five, every word is told.
fn row(rt: &impl Print, name: &str, xs: &[f32]) -> io::Result<()> {
    let mut tables = Tables::EMPTY;
    println!(rt; "{name}")?;
    tables.add_material();
    println!(rt; "  spheres: {}", enter(&mut tables, xs))?;
    let built = tables.build();
    let nodes = built.word(0);
    println!(rt; "  build: {}, nodes {nodes}", built.number)?;
    if xs.len() == 5 {
        tell_tree(rt, &tables, nodes)?;
    }
    tell_query(rt, &tables, Search::Tree)
}

// A sphere at 0 with radius 1 is offered.
fn offer(rt: &impl Print, tables: &mut Tables, what: &str, cutters: u32) -> io::Result<()> {
    let answer = tables.add(Sphere {
        x: 0.0,
        radius: 1.0,
        cutters,
    });
    println!(rt;
        "  {what}: {}, its number {}",
        answer.number,
        answer.word(0)
    )
}

// The tables of nodes and order begin with other bytes, which the first entry clears.
fn full(rt: &impl Print) -> io::Result<()> {
    let mut tables = Tables::EMPTY;
    tables.spoil_tree();
    println!(rt; "R4, a plan filled to its limits")?;
    tell_query(rt, &tables, Search::List)?;
    offer(rt, &mut tables, "an object before its material", 0)?;
    println!(rt; "  material: {}", tables.add_material().number)?;
    let eight = Sphere {
        x: 0.0,
        radius: 1.0,
        cutters: 8,
    };
    let entered = (0..128u8).filter(|_| tables.add(eight).number == 0).count();
    println!(rt; "  objects with eight cutters that entered: {entered}")?;
    println!(rt; "  nodes after them, word 0: {}", tables.first_word())?;
    offer(rt, &mut tables, "the 1,025th cutter", 1)?;
    offer(rt, &mut tables, "an object without cutters", 0)?;
    offer(rt, &mut tables, "nine cutters", 9)?;
    tell_query(rt, &tables, Search::List)
}

fn main(rt: HostRuntime) -> io::Result<()> {
    let powers = POWERS.map(scalar::float);
    full(&rt)?;
    row(
        &rt,
        "R1, five spheres at x 0 to 4",
        &[0.0, 1.0, 2.0, 3.0, 4.0],
    )?;
    row(&rt, "R2, five with one centre", &[1.0; 5])?;
    row(&rt, "R3, powers of 1.25 from -25 to 41", &powers[1..])?;
    row(&rt, "R3, powers of 1.25 from -26 to 41", &powers)
}
