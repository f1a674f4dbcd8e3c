// Tests of single records: which number a material, a light, a cutter or a piece's own words get wherever they are
// given. `planes` tells planes from objects by two values, as an enum would; a kind is the word of a row, also where it
// is no kind's.

#![tactic(auto)]

ghost use Rattle.std.specs.Prelude.{◌≡◌, true, not, ◌&&◌, ◌+◌, ◌<◌};
ghost use Rattle.std.specs.Bool.{beq};
ghost use Rattle.scalar.specs.Ranges.{magnitude};
ghost use Rattle.vectors.specs.Vec.{vsub};
ghost use Rattle.refusals.specs.Refusals.{lower, unless, bad_number, no_material, wrong_list, no_extent};
ghost use Rattle.refusals.specs.Ranges.{far, steep, within, within_up_to, coordinates, radius};
ghost use Rattle.refusals.specs.Prims.{no_length, prim_number};
ghost use Rattle.plan.specs.Records.{cutter_at, head_at};
ghost use Rattle.plan.specs.Inside.Rows.{eight_left, shape_in};
ghost use Rattle.plan.specs.Plan.{cuts_by, piece_at};
ghost use Rattle.record_test.specs.Numbers.{material_number, dark, light_number, cutter_number, cuts_number};
ghost use Rattle.record_test.specs.Numbers.{own_number, piece_cuts};
ghost use Rattle.record_test.specs.Inside.Prims.{prim_in, least_of, none_above, none_below};

use plan::{Cutter, Floats, Head, Material, QuadLight, Words};
use refusals::Kind;
use vectors::Vec3;

#[tactic(auto, unfolding(crate::specs::Numbers::material_number))]
pub fn material_number(m: Material) -> u32
    ensures { result ≡ material_number m }
{
    refusals::unless(
        refusals::BAD_NUMBER,
        refusals::both(
            refusals::within_up_to(m.albedo, 1.0),
            refusals::both(
                refusals::up_to(m.roughness, 1.0),
                refusals::up_to(m.metallic, 1.0),
            ),
        ),
    )
}

// Two edges that span nothing.
fn dark(e1: Vec3, e2: Vec3) -> bool
    ensures { result ≡ dark e1 e2 }
{
    if refusals::no_length(e1) {
        return true;
    }
    if refusals::no_length(e2) {
        return true;
    }
    e1.cross(e2).length() == 0.0
}

#[tactic(auto, unfolding(crate::specs::Numbers::light_number))]
pub fn light_number(l: QuadLight) -> u32
    ensures { result ≡ light_number l }
{
    let corners = refusals::both(
        refusals::coordinates(l.v0),
        refusals::both(
            refusals::coordinates(l.v1),
            refusals::both(refusals::coordinates(l.v2), refusals::coordinates(l.v3)),
        ),
    );
    refusals::lower(
        refusals::unless(
            refusals::BAD_NUMBER,
            refusals::both(corners, refusals::within_up_to(l.emit, refusals::FAR)),
        ),
        refusals::unless(refusals::NO_EXTENT, !dark(l.v1.sub(l.v0), l.v3.sub(l.v0))),
    )
}

// The lowest of what a piece gets by its primitive, blend, material and list. Nearly always that is 0, which branches
// tell that are foreseen: the lowest of four is a chain of selects.
fn own_of(prim: u32, blend: bool, material: bool, list: bool) -> u32
    ensures { result ≡ lower (lower prim (unless bad_number blend)) (lower (unless no_material material)
        (unless wrong_list list)) }
{
    if prim == 0 {
        if blend {
            if material {
                if list {
                    return 0;
                }
            }
        }
    }
    refusals::lower(
        refusals::lower(prim, refusals::unless(refusals::BAD_NUMBER, blend)),
        refusals::lower(
            refusals::unless(refusals::NO_MATERIAL, material),
            refusals::unless(refusals::WRONG_LIST, list),
        ),
    )
}

// A piece's own words, among planes or among objects.
#[tactic(auto, unfolding(crate::specs::Numbers::own_number))]
pub fn own_number(planes: bool, materials: u32, h: Head) -> u32
    ensures { result ≡ own_number planes materials h }
{
    let shape = h.shape;
    own_of(
        refusals::prim_number(h.kind, shape),
        refusals::radius(h.blend),
        h.material < materials,
        (h.kind == Kind::Plane as u32) == planes,
    )
}

fn bad_unless(ok: bool) -> u32
    ensures { result ≡ unless bad_number ok }
{
    refusals::unless(refusals::BAD_NUMBER, ok)
}

fn block_ok(c: Vec3, b: Vec3, r: f32) -> bool
    ensures { result ≡ (coordinates c && (within_up_to b far && radius r)) }
{
    refusals::both(
        refusals::coordinates(c),
        refusals::both(
            refusals::within_up_to(b, refusals::FAR),
            refusals::radius(r),
        ),
    )
}

fn plane_ok(n: Vec3, h: f32) -> bool
    ensures { result ≡ (within n steep && magnitude h far) }
{
    refusals::both(
        refusals::within(n, refusals::STEEP),
        scalar::magnitude(h, refusals::FAR),
    )
}

fn torus_ok(c: Vec3, major: f32, minor: f32) -> bool
    ensures { result ≡ (coordinates c && (radius major && radius minor)) }
{
    refusals::both(
        refusals::coordinates(c),
        refusals::both(refusals::radius(major), refusals::radius(minor)),
    )
}

// Two ends and a radius.
fn ends_ok(a: Vec3, b: Vec3, r: f32) -> bool
    ensures { result ≡ (coordinates a && (coordinates b && radius r)) }
{
    refusals::both(
        refusals::coordinates(a),
        refusals::both(refusals::coordinates(b), refusals::radius(r)),
    )
}

fn cone_ok(a: Vec3, b: Vec3, ra: f32, rb: f32) -> bool
    ensures { result ≡ (coordinates a && (coordinates b && (radius ra && radius rb))) }
{
    refusals::both(
        refusals::coordinates(a),
        refusals::both(
            refusals::coordinates(b),
            refusals::both(refusals::radius(ra), refusals::radius(rb)),
        ),
    )
}

fn capsule_number(a: Vec3, b: Vec3, r: f32) -> u32
    ensures { result ≡ lower (unless bad_number (coordinates a && (coordinates b && radius r)))
        (unless no_extent (not (no_length (vsub b a)))) }
{
    refusals::lower(
        bad_unless(ends_ok(a, b, r)),
        refusals::unless(refusals::NO_EXTENT, !refusals::no_length(b.sub(a))),
    )
}

// What the second three of a kind's floats may be at the least: radii and half sizes, or coordinates.
fn least_of(kind: u32) -> f32
    ensures { result ≡ least_of kind }
{
    match Kind::try_from(kind) {
        Ok(Kind::Sphere) => 0.0,
        Ok(Kind::RoundBox) => 0.0,
        Ok(Kind::Plane) => -refusals::FAR,
        Ok(Kind::Capsule) => -refusals::FAR,
        Ok(Kind::Torus) => 0.0,
        Ok(Kind::Cylinder) => -refusals::FAR,
        Ok(Kind::Cone) => -refusals::FAR,
        Err(_) => -refusals::FAR,
    }
}

fn four(a: bool, b: bool, c: bool, d: bool) -> bool
    ensures { result ≡ ((a && b) && (c && d)) }
{
    refusals::both(refusals::both(a, b), refusals::both(c, d))
}

// Whether none of eight floats is above its range, as one sum of tests, which compilers make of four floats at a time.
fn none_above(a: Vec3, b: Vec3, u: f32, v: f32) -> bool
    ensures { result ≡ none_above a b u v }
{
    let most = refusals::FAR;
    refusals::both(
        four(a.x <= most, a.y <= most, a.z <= most, b.x <= most),
        four(b.y <= most, b.z <= most, u <= most, v <= most),
    )
}

// The same of below, where the second three are at least `least`.
#[tactic(auto, unfolding(crate::specs::Inside::Prims::none_below))]
fn none_below(a: Vec3, b: Vec3, u: f32, v: f32, least: f32) -> bool
    ensures { result ≡ none_below a b u v least }
{
    let low = -refusals::FAR;
    refusals::both(
        four(low <= a.x, low <= a.y, low <= a.z, least <= b.x),
        four(least <= b.y, least <= b.z, 0.0 <= u, 0.0 <= v),
    )
}

// Whether all eight floats are in range, those too that the kind has not, and its ends apart, whether it has ends or
// not; no plane's, whose normal has a range of its own. So it is of nearly all that a plan holds, and told by branches
// that are foreseen, as the kind is not. A `false` tells nothing.
fn plain(kind: u32, a: Vec3, b: Vec3, u: f32, v: f32) -> bool
    ensures { result ≡ true → prim_in kind a b u v ≡ 0 }
{
    if kind > Kind::Cone as u32 {
        return false;
    }
    if kind == Kind::Plane as u32 {
        return false;
    }
    if none_above(a, b, u, v) {
        if none_below(a, b, u, v, least_of(kind)) {
            return !refusals::no_length(b.sub(a));
        }
    }
    false
}

// The number of a kind and its eight floats, by the kind, so that no shape is made and passed on.
fn prim_in(kind: u32, ax: f32, ay: f32, az: f32, bx: f32, by: f32, bz: f32, u: f32, v: f32) -> u32
    ensures { result ≡ prim_in kind (record { x = ax; y = ay; z = az }) (record { x = bx; y = by; z = bz }) u v }
{
    let a = Vec3 {
        x: ax,
        y: ay,
        z: az,
    };
    let b = Vec3 {
        x: bx,
        y: by,
        z: bz,
    };
    match Kind::try_from(kind) {
        Ok(Kind::Sphere) => {
            bad_unless(refusals::both(refusals::coordinates(a), refusals::radius(bx)))
        }
        Ok(Kind::RoundBox) => bad_unless(block_ok(a, b, u)),
        Ok(Kind::Plane) => bad_unless(plane_ok(a, bx)),
        Ok(Kind::Capsule) => capsule_number(a, b, u),
        Ok(Kind::Torus) => bad_unless(torus_ok(a, bx, by)),
        Ok(Kind::Cylinder) => bad_unless(ends_ok(a, b, u)),
        Ok(Kind::Cone) => bad_unless(cone_ok(a, b, u, v)),
        Err(_) => refusals::BAD_NUMBER,
    }
}

// The number of a kind and the eight floats from i on.
fn prim_at(kind: u32, fs: &Floats, i: usize) -> u32
    ensures { i < eight_left → result ≡ prim_number kind (shape_in kind fs.now i) }
{
    if i >= plan::EIGHT_LEFT {
        return refusals::BAD_NUMBER;
    }
    let a = Vec3 {
        x: fs[i],
        y: fs[i + 1],
        z: fs[i + 2],
    };
    let b = Vec3 {
        x: fs[i + 3],
        y: fs[i + 4],
        z: fs[i + 5],
    };
    let u = fs[i + 6];
    let v = fs[i + 7];
    if plain(kind, a, b, u, v) {
        return 0;
    }
    prim_in(kind, a.x, a.y, a.z, b.x, b.y, b.z, u, v)
}

// What the piece in row r gets by its own words.
pub fn own_at(ws: &Words, fs: &Floats, planes: bool, materials: u32, r: usize) -> u32
    ensures { result ≡ own_number planes materials (head_at ws.now fs.now r) }
{
    if r < plan::ROWS {
        let i = 16 * r;
        let kind = ws[i + 3];
        let prim = prim_at(kind, fs, i + 4);
        return own_of(
            prim,
            refusals::radius(fs[i + 1]),
            ws[i] < materials,
            (kind == Kind::Plane as u32) == planes,
        );
    }
    own_number(planes, materials, plan::head_at(ws, fs, r))
}

#[tactic(auto, unfolding(crate::specs::Numbers::cutter_number))]
fn cutter_number(c: Cutter) -> u32
    ensures { result ≡ cutter_number c }
{
    let shape = c.shape;
    refusals::prim_number(c.kind, shape)
}

// What the cutter in row r gets.
#[tactic(auto, unfolding(crate::specs::Numbers::cutter_number, plan::specs::Records::cutter_at))]
fn cut_at(ws: &Words, fs: &Floats, r: usize) -> u32
    ensures { result ≡ cutter_number (cutter_at ws.now fs.now r) }
{
    if r < plan::ROWS {
        let i = 16 * r;
        return prim_at(ws[i], fs, i + 1);
    }
    cutter_number(plan::cutter_at(ws, fs, r))
}

// n cutters from a place on, the first place being row `base`.
pub fn cuts_number(ws: &Words, fs: &Floats, base: u32, place: u32, n: u32) -> u32
    ensures { result ≡ cuts_number (cuts_by ws.now fs.now (base + place) n) }
{
    refusals::lowest_number(n, |j| {
        cut_at(ws, fs, base as usize + place as usize + j as usize)
    })
}

// The cutters of the piece in row r.
#[tactic(auto, unfolding(crate::specs::Numbers::piece_cuts, plan::specs::Plan::piece_at))]
pub fn piece_cuts(ws: &Words, fs: &Floats, r: usize) -> u32
    ensures { result ≡ piece_cuts (piece_at ws.now fs.now r) }
{
    let h = plan::head_at(ws, fs, r);
    cuts_number(ws, fs, plan::CUTTER_ROW, h.place, h.cutters)
}
