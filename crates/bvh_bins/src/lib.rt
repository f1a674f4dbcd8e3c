// The bins of a node's range, and the split of least cost between them.

#![tactic(auto)]

ghost use Rattle.std.specs.Prelude.{◌≡◌, ◌/◌, length, set, replicate, slice_index, slice_set};
ghost use Rattle.words.specs.Lists.{list_from};
ghost use Rattle.bvh_boxes.specs.Boxes.{nowhere, merge, box_at};
ghost use Rattle.bvh_range.specs.Range.{members};
ghost use Rattle.bvh_range.specs.Inside.Table.{table_boxes, box_of_row};
ghost use Rattle.bvh_range.specs.Inside.Numbers.{Numbers};
ghost use Rattle.bvh_bins.specs.Bins.{grid_of, bin_at, bin_of, plus, no_bins, bins_from, area};
ghost use Rattle.bvh_bins.specs.Bins.{cost_of, choose, take_bin, split_by};
ghost use Rattle.bvh_bins.specs.Inside.Sums.{binned, AllNumbers, left_at};
ghost use Rattle.bvh_bins.specs.Inside.Places.{from_first, to_last, Noted};

use bvh_range::Row;
use sdf::Aabb;

// The bins, and the split where none is better.
const BINS: usize = 12;

const MIDDLE: u32 = 6;

// The places of a range whose bins are noted.
pub const PLACES: usize = 256;

pub type Places = [u32; PLACES];

// The bins' boxes and their counts are two arrays, as a row of floats alone is worked on four floats at once.
type Boxes = [f32; BINS * bvh_range::BOX_FLOATS];

type Counts = [u32; BINS];

// Where the bins lie. The axis is a number, as `Vec3::axis` takes it.
#[derive(Clone, Copy)]
pub struct Grid {
    pub axis: u32,
    pub low: f32,
    pub scale: f32,
}

// The bins up to some place: the area of their box, and their count.
#[derive(Clone, Copy)]
pub struct Left {
    pub area: f32,
    pub count: u32,
}

// The bins from some place on, and the best split so far.
#[derive(Clone, Copy)]
pub struct Sweep {
    pub hull: Aabb,
    pub count: u32,
    pub cost: f32,
    pub split: u32,
}

#[tactic(auto, unfolding(crate::specs::Bins::grid_of))]
pub fn grid_of(c: Aabb) -> Grid
    ensures { result ≡ grid_of c }
{
    let e = bvh_range::extent(c);
    let axis = bvh_range::axis_of(e);
    Grid {
        axis,
        low: c.lo.axis(axis),
        scale: 12.0 / e.axis(axis),
    }
}

// What is not above 0.5 becomes 0.5.
fn from_first(x: f32) -> f32
    ensures { result ≡ from_first x }
{
    if x > 0.5 { x } else { 0.5 }
}

// What is not below 11 becomes 11.
fn to_last(x: f32) -> f32
    ensures { result ≡ to_last x }
{
    if x < 11.0 { x } else { 11.0 }
}

// A float cut to a bin's number, with no way that depends on it: from 0.5 to 11 its digits are cut by its exponent.
fn bin_at(x: f32) -> u32
    ensures { result ≡ bin_at x }
{
    let b = f32::to_bits(to_last(from_first(x)));
    (b % 0x80_0000 + 0x80_0000) >> (150 - b / 0x80_0000)
}

#[tactic(auto, unfolding(crate::specs::Bins::bin_of))]
pub fn bin_of(g: Grid, b: Aabb) -> u32
    ensures { result ≡ bin_of g b }
{
    let c = b.centre();
    bin_at((c.axis(g.axis) - g.low) * g.scale)
}

#[tactic(auto, unfolding(crate::specs::Bins::plus))]
fn plus(a: u32, b: u32) -> u32
    ensures { result ≡ plus a b }
{
    a.saturating_add(b)
}

// A table of boxes around nothing.
fn empty_boxes(t: &mut [f32])
    ensures { table_boxes t.new ≡ replicate (length t.old / 8) nowhere }
{
    for k in 0..t.len() / bvh_range::BOX_FLOATS {
        bvh_range::put_row(t, k, bvh_range::no_row());
    }
}

// One more in count k.
fn count_in(n: &mut Counts, k: usize)
    ensures { n.new ≡ slice_set n.old k (plus (slice_index n.old k) 1) }
{
    if k < BINS {
        n[k] = plus(n[k], 1);
    } else {
        let _counts: &[u32] = n;
    }
}

// One box more in bin k, whose corners are numbers.
fn drop_in(t: &mut Boxes, n: &mut Counts, k: usize, b: Row)
    ensures { (Numbers (box_at (table_boxes t.old) k)
        → table_boxes t.new ≡ set (table_boxes t.old) k
        (merge (box_at (table_boxes t.old) k) (box_of_row b)))
        × (n.new ≡ slice_set n.old k (plus (slice_index n.old k) 1)) }
{
    count_in(n, k);
    let m = bvh_range::join(bvh_range::row_at(t, k), b);
    bvh_range::put_row(t, k, m);
}

// The bin of the object at a place, noted where the table has that place.
fn note(places: &mut Places, i: usize, k: u32)
    ensures { places.new ≡ slice_set places.old i k }
{
    if i < PLACES {
        places[i] = k;
    } else {
        let _places: &[u32] = places;
    }
}

// The bins of a range, each object's noted at its place.
fn fill_bins(os: &[u32], t: &[f32], g: Grid, b: &mut Boxes, n: &mut Counts, places: &mut Places)
    ensures { (AllNumbers (table_boxes b.old)
        → binned b.new n.new ≡ bins_from g (binned b.old n.old)
        (members (table_boxes t.now) os.now))
        × Noted (table_boxes t.now) g os.now places.new
        (length os.now) }
{
    let _places: &[u32] = places;
    for (i, o) in os.iter().enumerate() {
        let m = bvh_range::row_at(t, *o as usize);
        let k = bin_of(g, bvh_range::box_in(m));
        note(places, i, k);
        drop_in(b, n, k as usize, m);
    }
}

// The source's `sa`.
#[tactic(auto, unfolding(crate::specs::Bins::area))]
fn area(b: Aabb) -> f32
    ensures { result ≡ area b }
{
    if b.lo.x > b.hi.x {
        return 0.0;
    }
    let d = b.hi.sub(b.lo);
    2.0 * (d.x * d.y + d.y * d.z + d.z * d.x)
}

// For each bin the area and the count of the bins up to it.
fn sweep_left(b: &Boxes, n: &Counts, lefts: &mut [Left; BINS])
    ensures { lefts.new ≡ list_from (left_at (binned b.now n.now)) 0 12 }
{
    let _lefts: &[Left] = lefts;
    let mut hull = bvh_boxes::nowhere();
    let mut count: u32 = 0;
    for i in 0..BINS {
        hull = bvh_range::wider(hull, bvh_range::box_at(b, i));
        count = plus(count, n[i]);
        lefts[i] = Left {
            area: area(hull),
            count,
        };
    }
}

#[tactic(auto, unfolding(crate::specs::Bins::cost_of))]
fn cost(left: Left, b: Aabb, n: u32) -> f32
    ensures { result ≡ cost_of left.area left.count b n }
{
    left.area * std::num::nearest_u32_to_f32(left.count) + area(b) * std::num::nearest_u32_to_f32(n)
}

#[tactic(auto, unfolding(crate::specs::Bins::take_bin))]
fn take_bin(s: Sweep, b: Aabb, n: u32) -> Sweep
    ensures { Numbers s.hull → result ≡ take_bin s b n }
{
    Sweep {
        hull: bvh_range::wider(s.hull, b),
        count: plus(s.count, n),
        ..s
    }
}

fn choose(s: Sweep, left: Left, i: u32) -> Sweep
    ensures { result ≡ choose s left.area left.count i }
{
    if left.count == 0 || s.count == 0 {
        return s;
    }
    let c = cost(left, s.hull, s.count);
    if c < s.cost {
        return Sweep {
            cost: c,
            split: i,
            ..s
        };
    }
    s
}

// The best split, tried from 11 down, given what lies to the left.
fn sweep_right(b: &Boxes, n: &Counts, lefts: &[Left; BINS]) -> u32
    ensures { lefts.now ≡ list_from (left_at (binned b.now n.now)) 0 12
        → result ≡ split_by (binned b.now n.now) }
{
    let mut s = Sweep {
        hull: bvh_boxes::nowhere(),
        count: 0,
        cost: refusals::GREATEST,
        split: MIDDLE,
    };
    for i in (1..BINS).rev() {
        let taken = take_bin(s, bvh_range::box_at(b, i), n[i]);
        s = choose(taken, lefts[i - 1], i as u32);
    }
    s.split
}

pub fn best_split(os: &[u32], t: &[f32], g: Grid, places: &mut Places) -> u32
    ensures { (result ≡ split_by (bins_from g no_bins (members (table_boxes t.now) os.now)))
        × Noted (table_boxes t.now) g os.now places.new
        (length os.now) }
{
    let mut b: Boxes = [0.0; BINS * bvh_range::BOX_FLOATS];
    let mut n: Counts = [0; BINS];
    let mut lefts = [Left {
        area: 0.0,
        count: 0,
    }; BINS];
    empty_boxes(&mut b);
    fill_bins(os, t, g, &mut b, &mut n, places);
    sweep_left(&b, &n, &mut lefts);
    sweep_right(&b, &n, &lefts)
}
