// What is refused: ranges, kinds and extents, and that the lowest number wins.

#![tactic(auto)]

ghost use Rattle.std.specs.Prelude.{◌≡◌, ℕ, ◌<◌, ◌&&◌};
ghost use Rattle.refusals.specs.Refusals.{lower, unless, lowest_in};
ghost use Rattle.refusals.specs.Kinds.{Decodes, shape_kind};
ghost use Rattle.refusals.specs.Ranges.{up_to, within, within_up_to, coordinates, radius};
ghost use Rattle.refusals.specs.Prims.{shape_of, shape_ok, no_length, flat, prim_number};

use sdf::Shape;
use vectors::Vec3;

// The numbers sent back, but for 0: done. They are numbers and no enum: each call takes one that applies already, and
// that may be any word; the lowest goes to the caller in C.
pub const BAD_NUMBER: u32 = 1;

pub const NO_ROOM: u32 = 2;

pub const NO_MATERIAL: u32 = 3;

pub const NO_EXTENT: u32 = 4;

pub const WRONG_LIST: u32 = 5;

pub const BAD_TREE: u32 = 6;

pub const TOO_DEEP: u32 = 7;

pub const NO_TREE: u32 = 8;

pub const AT_LIGHT: u32 = 9;

// The limits of given numbers: coordinates, radii, blend and emission; a direction's components; ray origins; query
// points; the ends of a ray; a shadow's `k`; Fresnel cosines; any finite number.
pub const FAR: f32 = 10000.0;

pub const STEEP: f32 = 1.5;

pub const FARTHER: f32 = 20000.0;

pub const FARTHEST: f32 = 200000.0;

pub const LONGEST: f32 = 100000.0;

pub const SHARPEST: f32 = 1000.0;

pub const WIDEST: f32 = 10.0;

pub const GREATEST: f32 = 3.4028235e38;

// The kinds of primitives, in the order in which words count them from 0.
#[derive(Clone, Copy, PartialEq, Eq)]
pub enum Kind {
    Sphere,
    RoundBox,
    Plane,
    Capsule,
    Torus,
    Cylinder,
    Cone,
}

// Of a word that is no kind's.
#[derive(Clone, Copy)]
pub struct UnknownKind;

impl TryFrom<u32> for Kind {
    type Error = UnknownKind;

    ghost try_from_gives = { Decodes };

    fn try_from(word: u32) -> Result<Kind, UnknownKind> {
        match word {
            0 => Ok(Kind::Sphere),
            1 => Ok(Kind::RoundBox),
            2 => Ok(Kind::Plane),
            3 => Ok(Kind::Capsule),
            4 => Ok(Kind::Torus),
            5 => Ok(Kind::Cylinder),
            6 => Ok(Kind::Cone),
            _ => Err(UnknownKind),
        }
    }
}

// Of two numbers sent back the lower, where 0 is none.
pub fn lower(a: u32, b: u32) -> u32
    ensures { result ≡ lower a b }
{
    if a == 0 {
        return b;
    }
    if b == 0 {
        return a;
    }
    if a < b { a } else { b }
}

// The lowest of what each of the first n gets.
pub fn lowest_number<F: Fn(u32) -> u32>(n: u32, number: F) -> u32
    requires { F.IsAlwaysCallable number }
    ensures { (own : ℕ → ℕ) → ((i : ℕ) (r : ℕ) → i < n → F.post number i r → r ≡ own i)
        → result ≡ lowest_in own n }
{
    let mut least: u32 = 0;
    for i in 0..n {
        least = lower(least, number(i));
    }
    least
}

// The number n, unless `ok` holds.
#[tactic(auto, unfolding(crate::specs::Refusals::unless))]
pub fn unless(n: u32, ok: bool) -> u32
    ensures { result ≡ unless n ok }
{
    if ok { 0 } else { n }
}

// Both are worked out, so that a row of tests has no branches.
pub fn both(a: bool, b: bool) -> bool
    ensures { result ≡ a && b }
{
    a && b
}

// From 0 to `most`.
#[tactic(auto, unfolding(crate::specs::Ranges::up_to))]
pub fn up_to(x: f32, most: f32) -> bool
    ensures { result ≡ up_to x most }
{
    scalar::between(0.0, x, most)
}

// Each component is at most `most` in magnitude.
#[tactic(auto, unfolding(crate::specs::Ranges::within))]
pub fn within(v: Vec3, most: f32) -> bool
    ensures { result ≡ within v most }
{
    both(
        scalar::magnitude(v.x, most),
        both(scalar::magnitude(v.y, most), scalar::magnitude(v.z, most)),
    )
}

// Each component is from 0 to `most`.
#[tactic(auto, unfolding(crate::specs::Ranges::within_up_to))]
pub fn within_up_to(v: Vec3, most: f32) -> bool
    ensures { result ≡ within_up_to v most }
{
    both(up_to(v.x, most), both(up_to(v.y, most), up_to(v.z, most)))
}

// The kind of the shape that a kind's word makes: a cone where it is no kind's, so that every plan has a value.
pub fn shape_kind(word: u32) -> Kind
    ensures { result ≡ shape_kind word }
{
    Kind::try_from(word).unwrap_or(Kind::Cone)
}

// The shape of a kind and eight floats: a the first three, b the next three, then u and v.
pub fn shape_of(kind: u32, a: Vec3, b: Vec3, u: f32, v: f32) -> Shape
    ensures { result ≡ shape_of kind a b u v }
{
    match shape_kind(kind) {
        Kind::Sphere => Shape::Sphere { c: a, r: b.x },
        Kind::RoundBox => Shape::RoundBox { c: a, b, r: u },
        Kind::Plane => Shape::Plane { n: a, h: b.x },
        Kind::Capsule => Shape::Capsule { a, b, r: u },
        Kind::Torus => Shape::Torus {
            c: a,
            major: b.x,
            minor: b.y,
        },
        Kind::Cylinder => Shape::Cylinder { a, b, r: u },
        Kind::Cone => Shape::Cone { a, b, ra: u, rb: v },
    }
}

#[tactic(auto, unfolding(crate::specs::Ranges::coordinates))]
pub fn coordinates(v: Vec3) -> bool
    ensures { result ≡ coordinates v }
{
    within(v, FAR)
}

// A radius or a blend.
#[tactic(auto, unfolding(crate::specs::Ranges::radius))]
pub fn radius(x: f32) -> bool
    ensures { result ≡ radius x }
{
    up_to(x, FAR)
}

// Every number of a shape is in its range.
fn shape_ok(s: Shape) -> bool
    ensures { result ≡ shape_ok s }
{
    match s {
        Shape::Sphere { c, r } => both(coordinates(c), radius(r)),
        Shape::RoundBox { c, b, r } => both(coordinates(c), both(within_up_to(b, FAR), radius(r))),
        Shape::Plane { n, h } => both(within(n, STEEP), scalar::magnitude(h, FAR)),
        Shape::Capsule { a, b, r } => both(coordinates(a), both(coordinates(b), radius(r))),
        Shape::Torus { c, major, minor } => {
            both(coordinates(c), both(radius(major), radius(minor)))
        }
        Shape::Cylinder { a, b, r } => both(coordinates(a), both(coordinates(b), radius(r))),
        Shape::Cone { a, b, ra, rb } => both(
            coordinates(a),
            both(coordinates(b), both(radius(ra), radius(rb))),
        ),
    }
}

// The computed square of a length is 0.
#[tactic(auto, unfolding(crate::specs::Prims::no_length))]
pub fn no_length(v: Vec3) -> bool
    ensures { result ≡ no_length v }
{
    v.dot(v) == 0.0
}

// A capsule of no extent.
#[tactic(auto, unfolding(crate::specs::Prims::flat))]
fn flat(s: Shape) -> bool
    ensures { result ≡ flat s }
{
    match s {
        Shape::Sphere { c, r } => false,
        Shape::RoundBox { c, b, r } => false,
        Shape::Plane { n, h } => false,
        Shape::Capsule { a, b, r } => no_length(b.sub(a)),
        Shape::Torus { c, major, minor } => false,
        Shape::Cylinder { a, b, r } => false,
        Shape::Cone { a, b, ra, rb } => false,
    }
}

// The number that a primitive gets, of a kind and the shape that its words make.
pub fn prim_number(kind: u32, s: Shape) -> u32
    ensures { result ≡ prim_number kind s }
{
    lower(
        unless(BAD_NUMBER, both(kind <= Kind::Cone as u32, shape_ok(s))),
        unless(NO_EXTENT, !flat(s)),
    )
}
