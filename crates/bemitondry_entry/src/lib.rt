// The public calls that enter a record or a piece into a loaded table. `before` is a number that applies already; `ws`
// and `fs` are a call's table.

#![tactic(auto)]

ghost use Rattle.std.specs.Prelude.{◌≡◌};
ghost use Rattle.bemitondry_entry.specs.Inside.Enters.{added_reply, MaterialEnters, LightEnters, PieceEnters};

use plan::{Floats, Words};
use reply::Reply;

// A number of what entered, or a refusal.
fn added_reply(a: Result<u32, u32>) -> Reply
    ensures { result ≡ added_reply a }
{
    match a {
        Err(n) => reply::refused(n),
        Ok(i) => reply::done(i, 0, 0, 0, 0, 0, 0, 0),
    }
}

pub fn add_material(before: u32, ws: &mut Words, fs: &Floats) -> Reply
    ensures { MaterialEnters before ws.old fs.now result ws.new }
{
    added_reply(plan_entry::add_material(before, ws, fs))
}

pub fn add_light(before: u32, ws: &mut Words, fs: &Floats) -> Reply
    ensures { LightEnters before ws.old fs.now result ws.new }
{
    added_reply(plan_entry::add_light(before, ws, fs))
}

// A plane, or an object, with its cutters; `bytes` is how long the arguments are.
pub fn add_piece(before: u32, among: bool, ws: &mut Words, fs: &Floats, bytes: usize) -> Reply
    ensures { PieceEnters before among ws.old fs.now bytes result ws.new }
{
    added_reply(plan_entry::add_piece(before, among, ws, fs, bytes))
}
