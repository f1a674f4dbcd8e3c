// What a call that asks works on, loaded as far as it is used: rows past a list's count, cutters' places that no piece
// has, and nodes that no tree of so many objects has are left 0. Objects take the cutters' places from the first up,
// planes from the last down.

#![tactic(auto)]

ghost use Rattle.std.specs.Prelude.{◌≡◌, true, List, ℕ, ◌+◌, ◌*◌, ◌-◌, ◌<◌, ◌≤◌, drop};
ghost use Rattle.scalar.specs.F32.{f0};
ghost use Rattle.words.specs.Words.{word_at};
ghost use Rattle.plan.specs.Sections.{planes, objects, cutter_places, plan_words, nodes_first, order_first};
ghost use Rattle.plan.specs.Sections.{order_places, table_rows, table_words};
ghost use Rattle.plan.specs.Records.{word_of, float_of};
ghost use Rattle.plan.specs.Plan.{seen};
ghost use Rattle.wire.specs.Lent.{table_of, ask_table};
ghost use Rattle.wire_used.specs.Inside.Used.{EndsBy, Begins, InOrder, Seen, Put, Filled, Early, Listed};
ghost use Rattle.wire_used.specs.Inside.Used.{Shown, WithCutters, Begun, Spared};

use plan::{Floats, Words};

// The cutters' first row and their places.
const CUTTERS: usize = plan::CUTTER_ROW as usize;

const PLACES: usize = plan::CUTTERS as usize;

// The words of two nodes: a tree has less than two for an object.
const TWO_NODES: usize = 18;

// Where the cutters of the piece in row r end, where it has any, and at least u.
fn past(ws: &Words, r: usize, u: usize) -> usize
    ensures { (u ≤ result) × EndsBy ws.now result r }
{
    if r < plan::ROWS {
        let n = plan::word_in(ws, 16 * r + 2);
        if n == 0 {
            return u;
        }
        return u.max(plan::word_in(ws, 16 * r + 12) as usize + n as usize);
    }
    let _words: &[u32] = ws;
    u
}

// Where the cutters of n pieces from a row on end.
fn ends(ws: &Words, first: u32, n: u32) -> usize
    ensures { (j : ℕ) → j < n → EndsBy ws.now result (first + j) }
{
    let mut e = 0;
    for j in 0..n {
        e = past(ws, first as usize + j as usize, e);
    }
    e
}

// Where the cutters of the piece in row r begin, where it has any, and at most v.
fn before(ws: &Words, r: usize, v: usize) -> usize
    ensures { (result ≤ v) × Begins ws.now result r }
{
    if r < plan::ROWS {
        if plan::word_in(ws, 16 * r + 2) == 0 {
            return v;
        }
        return v.min(plan::word_in(ws, 16 * r + 12) as usize);
    }
    let _words: &[u32] = ws;
    v
}

// Where the cutters of n planes begin, which are the last.
fn begins(ws: &Words, n: u32) -> usize
    ensures { (result ≤ cutter_places)
        × ((j : ℕ) → j < n → Begins ws.now result (planes.first + j)) }
{
    let mut e = PLACES;
    for j in 0..n {
        e = before(ws, plan::PLANE_ROW as usize + j as usize, e);
    }
    e
}

// The greatest word of the order, or more.
fn last_object(ws: &Words) -> u32
    ensures { (i : ℕ) → i < order_places → word_of ws.now (order_first + i) ≤ result }
{
    let mut m = 0;
    for i in 0..plan::ORDER_WORDS {
        m = plan::word_in(ws, plan::ORDER + i).max(m);
    }
    m
}

// Whether the counts are a plan's, and the order names none but m objects.
fn in_order(ws: &Words, m: u32) -> bool
    ensures { result ≡ true → InOrder ws.now m }
{
    plan::word_in(ws, plan::COUNT_MATERIALS) <= plan::MATERIALS
        && plan::word_in(ws, plan::COUNT_PLANES) <= plan::PLANES
        && plan::word_in(ws, plan::COUNT_LIGHTS) <= plan::LIGHTS
        && m <= plan::OBJECTS
        && last_object(ws) < m
}

// What a table has from a byte on.
fn rest(t: &[u8], from: usize) -> &[u8]
    ensures { result.now ≡ drop from t.now }
{
    if from <= t.len() {
        &t[from..]
    } else {
        wire::none(t)
    }
}

// The words from one place up to another are seen as floats.
fn floats(ws: &Words, fs: &mut Floats, from: usize, to: usize)
    ensures { from ≤ to → to ≤ table_words
        → Seen ws.now fs.old fs.new from to }
{
    // Only as a slice does a table tell the proof its length.
    let _floats: &[f32] = fs;
    if to <= plan::TABLE {
        for i in from..to {
            fs[i] = scalar::float(ws[i]);
        }
    }
}

// What a table has, from one place up to another, as words and as floats.
fn put(t: &[u8], ws: &mut Words, fs: &mut Floats, from: usize, to: usize)
    ensures { from ≤ to → to ≤ table_words → Put (λ i. word_at t.now (i - from))
        ws.old ws.new fs.old fs.new from to }
{
    wire::load_part(t, ws, from, to);
    floats(ws, fs, from, to);
}

// So many rows of the plan.
fn rows(plan: &[u8], ws: &mut Words, fs: &mut Floats, first: usize, n: usize)
    ensures { first + n ≤ table_rows → Put (word_at plan.now)
        ws.old ws.new fs.old fs.new (16 * first) (16 * (first + n)) }
{
    if n <= plan::ROWS && first <= plan::ROWS - n {
        put(rest(plan, 64 * first), ws, fs, 16 * first, 16 * (first + n));
    }
}

// The cutters before place u and from place v on.
fn load_cutters(plan: &[u8], ws: &mut Words, fs: &mut Floats, u: usize, v: usize)
    ensures { u ≤ cutter_places → v ≤ cutter_places → WithCutters (word_at plan.now)
        ws.old ws.new fs.old fs.new u v }
{
    if u < v && v <= PLACES {
        rows(plan, ws, fs, CUTTERS, u);
        rows(plan, ws, fs, CUTTERS + v, PLACES - v);
    } else {
        rows(plan, ws, fs, CUTTERS, PLACES);
    }
}

// As many words of nodes as a tree of m objects may have.
fn nodes_end(m: u32) -> usize
    ensures { (result ≤ order_first) × (nodes_first ≤ result)
        × ((i : ℕ) → i < nodes_first + 18 * m → i < order_first → i < result) }
{
    plan::ORDER.min(plan::NODES + TWO_NODES * m as usize)
}

// The rows of the lists, with m objects.
fn load_lists(plan: &[u8], ws: &mut Words, fs: &mut Floats, m: u32)
    ensures { (t : List ℕ) → ((i : ℕ) → i < plan_words → word_at plan.now i ≡ word_of t i)
        → Filled t ws.old fs.old Early → InOrder ws.old m
        → Filled t ws.new fs.new (Listed t m) }
{
    let materials = plan::word_in(ws, plan::COUNT_MATERIALS);
    let planes = plan::word_in(ws, plan::COUNT_PLANES);
    let lights = plan::word_in(ws, plan::COUNT_LIGHTS);
    rows(
        plan,
        ws,
        fs,
        plan::MATERIAL_ROW as usize,
        materials as usize,
    );
    rows(plan, ws, fs, plan::PLANE_ROW as usize, planes as usize);
    rows(plan, ws, fs, plan::LIGHT_ROW as usize, 2 * lights as usize);
    rows(plan, ws, fs, plan::OBJECT_ROW as usize, m as usize);
}

// Of a table whose counts, arguments and order are loaded and in order, with m objects at most, the rest as far as it
// is used; `false` where some piece's cutters lie past their places.
fn load_used(plan: &[u8], nodes: &[u8], ws: &mut Words, fs: &mut Floats, m: u32) -> bool
    ensures { (t : List ℕ)
        → Begun plan.now nodes.now t ws.old fs.old
        → InOrder ws.old m → word_of ws.old objects.count ≤ m
        → (result ≡ true → Spared t ws.new) × Filled t ws.new fs.new Early }
{
    load_lists(plan, ws, fs, m);
    let planes = plan::word_in(ws, plan::COUNT_PLANES);
    let u = ends(ws, plan::OBJECT_ROW, m);
    if u <= PLACES && ends(ws, plan::PLANE_ROW, planes) <= PLACES {
        let v = begins(ws, planes);
        put(nodes, ws, fs, plan::NODES, nodes_end(m));
        load_cutters(plan, ws, fs, u, v);
        return true;
    }
    false
}

// Of such a table all the rest.
fn load_all(plan: &[u8], nodes: &[u8], ws: &mut Words, fs: &mut Floats)
    ensures { (t : List ℕ)
        → Begun plan.now nodes.now t ws.old fs.old
        → Spared t ws.new × Shown ws.new fs.new }
{
    // The arguments' row is the first behind the plan's.
    rows(plan, ws, fs, 0, plan::ARGS_ROW as usize);
    put(nodes, ws, fs, plan::NODES, plan::ORDER);
}

// The counts, the arguments and the order, into new tables.
fn load_early(plan: &[u8], args: &[u8], order: &[u8], ws: &mut Words, fs: &mut Floats)
    ensures { ((i : ℕ) → word_of ws.old i ≡ 0)
        → ((i : ℕ) → i < table_words → float_of fs.old i ≡ f0) → (nodes : List ℕ)
        → Begun plan.now nodes (table_of plan.now args.now nodes order.now)
        ws.new fs.new }
{
    // Only as slices do the tables tell the proof their lengths.
    let _words: &[u32] = ws;
    let _floats: &[f32] = fs;
    rows(plan, ws, fs, 0, 1);
    put(args, ws, fs, plan::ARGS, plan::NODES);
    put(order, ws, fs, plan::ORDER, plan::ORDER + plan::ORDER_WORDS);
}

// The tables in one, as far as they are used; all of them, where they are no plan's.
fn load(plan: &[u8], args: &[u8], nodes: &[u8], order: &[u8], ws: &mut Words, fs: &mut Floats)
    ensures { ((i : ℕ) → word_of ws.old i ≡ 0)
        → ((i : ℕ) → i < table_words → float_of fs.old i ≡ f0)
        → Spared (table_of plan.now args.now nodes.now order.now)
        ws.new × (fs.new ≡ seen ws.new) }
{
    load_early(plan, args, order, ws, fs);
    let m = plan::word_in(ws, plan::COUNT_OBJECTS).max(1);
    if in_order(ws, m) && load_used(plan, nodes, ws, fs, m) {
        return;
    }
    load_all(plan, nodes, ws, fs);
}

// What a call works on that asks by the tree or by the list: `need` is how many bytes of arguments it reads.
pub fn load_ask(
    need: usize,
    plan: &[u8],
    nodes: &[u8],
    order: &[u8],
    tree: u32,
    args: &[u8],
    ws: &mut Words,
    fs: &mut Floats,
)
    ensures { ((i : ℕ) → word_of ws.old i ≡ 0)
        → ((i : ℕ) → i < table_words → float_of fs.old i ≡ f0)
        → Spared
        (ask_table need plan.now nodes.now order.now tree args.now)
        ws.new × (fs.new ≡ seen ws.new) }
{
    load(
        wire::lent(plan, wire_lengths::PLAN_BYTES),
        wire::lent(args, need),
        wire::used(tree, nodes, wire_lengths::NODES_BYTES),
        wire::used(tree, order, wire_lengths::ORDER_BYTES),
        ws,
        fs,
    );
}
