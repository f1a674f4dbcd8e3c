// The plan: rows of sixteen words, each held as a whole number and as a float at the same place; its records.

#![tactic(auto)]

ghost use Rattle.std.specs.Prelude.{◌≡◌, ◌+◌, ◌*◌};
ghost use Rattle.plan.specs.Records.{word_of, float_of, vec_of, no_vec, material_at, light_at};
ghost use Rattle.plan.specs.Records.{light_in, cutter_at, head_at};

use sdf::Shape;
use vectors::Vec3;

// What a call works on, in one table: the plan, its arguments, the nodes and the order of a tree. It is held twice, as
// words and as floats.
pub type Words = [u32; TABLE];

pub type Floats = [f32; TABLE];

// The nodes and the order of a tree by themselves.
pub type Nodes = [u32; NODES_WORDS];

pub type Order = [u32; ORDER_WORDS];

pub const NODES_WORDS: usize = 4599;

pub const ORDER_WORDS: usize = 256;

pub const ROWS: usize = 1706;

pub const TABLE: usize = 27296;

// The table has eight words, those of a primitive, from any place before this one on.
pub const EIGHT_LEFT: usize = 27288;

// The first word of the arguments, of the nodes and of the order; the plan is at 0.
pub const ARGS: usize = 22288;

pub const NODES: usize = 22432;

pub const ORDER: usize = 27031;

// The words that count materials, planes, lights and objects.
pub const COUNT_MATERIALS: usize = 0;

pub const COUNT_PLANES: usize = 1;

pub const COUNT_LIGHTS: usize = 2;

pub const COUNT_OBJECTS: usize = 3;

// The first row of each section, and of the arguments.
pub const MATERIAL_ROW: u32 = 1;

pub const PLANE_ROW: u32 = 65;

pub const LIGHT_ROW: u32 = 81;

pub const OBJECT_ROW: u32 = 113;

pub const CUTTER_ROW: u32 = 369;

pub const ARGS_ROW: u32 = 1393;

// How many each section may have; cutters in all, and to one piece.
pub const MATERIALS: u32 = 64;

pub const PLANES: u32 = 16;

pub const LIGHTS: u32 = 16;

pub const OBJECTS: u32 = 256;

pub const CUTTERS: u32 = 1024;

pub const CUTS: u32 = 8;

#[derive(Clone, Copy)]
pub struct Material {
    pub albedo: Vec3,
    pub roughness: f32,
    pub metallic: f32,
}

// Corners counter-clockwise, seen from the emitting side.
#[derive(Clone, Copy)]
pub struct QuadLight {
    pub v0: Vec3,
    pub v1: Vec3,
    pub v2: Vec3,
    pub v3: Vec3,
    pub emit: Vec3,
}

// A cutter: its kind word, and the shape that its words make. The word stays, since a plan is defined over any words.
#[derive(Clone, Copy)]
pub struct Cutter {
    pub kind: u32,
    pub shape: Shape,
}

// A piece but for its cutters: how many, and the place of the first. Its kind is the word, as a cutter's.
#[derive(Clone, Copy)]
pub struct Head {
    pub material: u32,
    pub blend: f32,
    pub cutters: u32,
    pub kind: u32,
    pub shape: Shape,
    pub place: u32,
}

#[derive(Clone, Copy)]
pub struct DistHit {
    pub d: f32,
    pub mat: u32,
}

// Word i, and 0 past the last.
pub fn word_in(ws: &Words, i: usize) -> u32
    ensures { result ≡ word_of ws.now i }
{
    ws.get(i).copied().unwrap_or(0)
}

// Word i + j, with no sum that could wrap.
pub fn word_after(ws: &Words, i: usize, j: u32) -> u32
    ensures { result ≡ word_of ws.now (i + j) }
{
    if i < TABLE {
        return word_in(ws, i + j as usize);
    }
    let _words: &[u32] = ws;
    0
}

// Float i, and no number past the last.
fn float_in(fs: &Floats, i: usize) -> f32
    ensures { result ≡ float_of fs.now i }
{
    fs.get(i).copied().unwrap_or(f32::NAN)
}

// Word k of row r.
fn word_at(ws: &Words, r: usize, k: u32) -> u32
    ensures { result ≡ word_of ws.now (16 * r + k) }
{
    if r < ROWS {
        return word_in(ws, 16 * r + k as usize);
    }
    let _words: &[u32] = ws;
    0
}

// Float k of row r.
fn float_at(fs: &Floats, r: usize, k: u32) -> f32
    ensures { result ≡ float_of fs.now (16 * r + k) }
{
    if r < ROWS {
        return float_in(fs, 16 * r + k as usize);
    }
    let _floats: &[f32] = fs;
    0.0 / 0.0
}

// Three floats from place k of row r on.
pub fn vec_at(fs: &Floats, r: usize, k: u32) -> Vec3
    ensures { result ≡ vec_of fs.now (16 * r + k) }
{
    if r < ROWS {
        let i = 16 * r + k as usize;
        return Vec3 {
            x: float_in(fs, i),
            y: float_in(fs, i + 1),
            z: float_in(fs, i + 2),
        };
    }
    let _floats: &[f32] = fs;
    no_vec()
}

// The material in row r.
#[tactic(auto, unfolding(crate::specs::Records::material_at))]
pub fn material_at(fs: &Floats, r: usize) -> Material
    ensures { result ≡ material_at fs.now r }
{
    Material {
        albedo: vec_at(fs, r, 0),
        roughness: float_at(fs, r, 3),
        metallic: float_at(fs, r, 4),
    }
}

// The light whose first row is r.
#[tactic(auto, unfolding(crate::specs::Records::light_at))]
pub fn light_at(fs: &Floats, r: usize) -> QuadLight
    ensures { result ≡ light_at fs.now r }
{
    QuadLight {
        v0: vec_at(fs, r, 0),
        v1: vec_at(fs, r, 3),
        v2: vec_at(fs, r, 6),
        v3: vec_at(fs, r, 9),
        emit: vec_at(fs, r, 12),
    }
}

// Light l: two rows a record.
#[tactic(auto, unfolding(crate::specs::Records::light_in))]
pub fn light_in(fs: &Floats, l: u32) -> QuadLight
    ensures { result ≡ light_in fs.now l }
{
    light_at(fs, LIGHT_ROW as usize + 2 * (l as usize))
}

fn no_vec() -> Vec3
    ensures { result ≡ no_vec }
{
    Vec3::splat(0.0 / 0.0)
}

// The cutter in row r; past the last row what no words make.
#[tactic(auto, unfolding(crate::specs::Records::cutter_at))]
pub fn cutter_at(ws: &Words, fs: &Floats, r: usize) -> Cutter
    ensures { result ≡ cutter_at ws.now fs.now r }
{
    let kind = word_at(ws, r, 0);
    let shape = refusals::shape_of(
        kind,
        vec_at(fs, r, 1),
        vec_at(fs, r, 4),
        float_at(fs, r, 7),
        float_at(fs, r, 8),
    );
    Cutter { kind, shape }
}

// The piece in row r; past the last row what no words make.
#[tactic(auto, unfolding(crate::specs::Records::head_at))]
pub fn head_at(ws: &Words, fs: &Floats, r: usize) -> Head
    ensures { result ≡ head_at ws.now fs.now r }
{
    let kind = word_at(ws, r, 3);
    let shape = refusals::shape_of(
        kind,
        vec_at(fs, r, 4),
        vec_at(fs, r, 7),
        float_at(fs, r, 10),
        float_at(fs, r, 11),
    );
    Head {
        material: word_at(ws, r, 0),
        blend: float_at(fs, r, 1),
        cutters: word_at(ws, r, 2),
        kind,
        shape,
        place: word_at(ws, r, 12),
    }
}
