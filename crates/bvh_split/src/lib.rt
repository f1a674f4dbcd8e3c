// One node of the builder, cut in two: its range parted by the split of least cost.

#![tactic(auto)]

ghost use Rattle.std.specs.Prelude.{◌≡◌, ◌≤◌, ◌<◌, cond, ltb, length, get_or};
ghost use Rattle.bvh_boxes.specs.Boxes.{box_at};
ghost use Rattle.bvh_range.specs.Inside.Table.{table_boxes};
ghost use Rattle.bvh_bins.specs.Bins.{bin_of};
ghost use Rattle.bvh_bins.specs.Inside.Places.{Noted};
ghost use Rattle.bvh_split.specs.Part.{swapped, parted, evened, cut_of};

use bvh_bins::{Grid, Places};
use sdf::Aabb;

// The bin of the object at a place, as noted or worked out again.
fn place_at(places: &Places, i: usize, g: Grid, os: &[u32], t: &[f32]) -> u32
    ensures { (i < 256 → get_or places.now i 0
        ≡ bin_of g (box_at (table_boxes t.now) (get_or os.now i 0)))
        → result ≡ bin_of g (box_at (table_boxes t.now) (get_or os.now i 0)) }
{
    if i < bvh_bins::PLACES {
        return places[i];
    }
    bvh_bins::bin_of(g, bvh_range::box_in(bvh_range::member(os, t, i)))
}

// 1 where bin k lies below the split, else 0, with no way that depends on it: which one it is cannot be foreseen.
fn one_below(k: u32, split: u32) -> u32
    ensures { (result ≤ 1) × (k ≤ 11 → result ≡ cond (ltb k split) 1 0) }
{
    (split.min(12) + 15 - k % 16) / 16
}

// i, or j for a 1, where j is not past i.
fn either_place(i: usize, j: usize, one: u32) -> usize
    ensures { (result ≤ i) × (one ≡ 0 → result ≡ i) × (j ≤ i → one ≡ 1 → result ≡ j) }
{
    if j <= i {
        return i - (i - j) * ((one % 2) as usize);
    }
    i
}

// Exchanges two objects; nothing where a place is past the end. A slice's own `swap` tests which place comes first,
// which cannot be foreseen.
#[tactic(auto, unfolding(crate::specs::Part::swapped))]
fn swap(os: &mut [u32], i: usize, j: usize)
    ensures { os.new ≡ swapped i j os.old }
{
    if i < os.len() {
        if j < os.len() {
            let x = os[i];
            let y = os[j];
            os[i] = y;
            os[j] = x;
        }
    }
}

// Moves the objects of the bins below the split to the front, and answers how many there are.
fn partition(os: &mut [u32], t: &[f32], g: Grid, split: u32, places: &Places) -> usize
    ensures { Noted (table_boxes t.now) g os.old places.now
        (length os.old)
        → (result ≡ (parted (table_boxes t.now) g split os.old).mid)
        × (os.new ≡ (parted (table_boxes t.now) g split os.old).order) }
{
    let mut mid: usize = 0;
    for i in 0..os.len() {
        let one = one_below(place_at(places, i, g, os, t), split);
        swap(os, i, either_place(i, mid, one));
        mid += one as usize;
    }
    mid
}

// mid, or half of n where a side would be empty.
#[tactic(auto, unfolding(crate::specs::Part::evened))]
fn evened(mid: usize, n: usize) -> usize
    ensures { result ≡ evened mid n }
{
    if mid == 0 || mid == n { n / 2 } else { mid }
}

// Partitions a range whose centres lie in c, and answers where it is cut.
#[tactic(auto, unfolding(crate::specs::Part::split_of, crate::specs::Part::cut_of))]
pub fn cut(os: &mut [u32], t: &[f32], c: Aabb) -> usize
    ensures { (result ≡ (cut_of (table_boxes t.now) os.old c).mid)
        × (os.new ≡ (cut_of (table_boxes t.now) os.old c).order) }
{
    let n = os.len();
    let g = bvh_bins::grid_of(c);
    let mut places: Places = [0; bvh_bins::PLACES];
    let s = bvh_bins::best_split(os, t, g, &mut places);
    let m = partition(os, t, g, s, &places);
    evened(m, n)
}
