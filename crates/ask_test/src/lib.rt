// Tests of the calls that ask of a loaded table: which number they get by their arguments, by the plan and by the tree.
// `before` is a number that applies already; `ws` and `fs` are a call's table; `tree` is a number, as callers have it.

#![tactic(auto)]

ghost use Rattle.std.specs.Prelude.{◌≡◌};
ghost use Rattle.ask_test.specs.Numbers.{arg_vec, tree_number, query_number, solids_ask, ray_ok};

use plan::{Floats, Words};
use vectors::Vec3;

// Three floats of the arguments, from word k on.
pub fn arg_vec(fs: &Floats, k: u32) -> Vec3
    ensures { result ≡ arg_vec fs.now k }
{
    plan::vec_at(fs, plan::ARGS_ROW as usize, k)
}

// What the standing tree gets, where the tree is used.
#[tactic(auto, unfolding(crate::specs::Numbers::tree_number))]
pub fn tree_number(tree: u32, ws: &Words, fs: &Floats) -> u32
    ensures { result ≡ tree_number tree ws.now fs.now }
{
    if tree == 1 {
        bvh_check::standing_number(ws, fs)
    } else {
        0
    }
}

// What a query gets by its arguments and the plan.
#[tactic(auto, unfolding(crate::specs::Numbers::query_number))]
pub fn query_number(before: u32, ws: &Words, fs: &Floats) -> u32
    ensures { result ≡ query_number before ws.now fs.now }
{
    let given = refusals::within(arg_vec(fs, 0), refusals::FARTHEST)
        && scalar::magnitude(fs[plan::ARGS + 3], refusals::GREATEST);
    refusals::lower(
        before,
        refusals::lower(
            refusals::unless(refusals::BAD_NUMBER, given),
            plan_test::objects_number(ws, fs),
        ),
    )
}

// What a call gets by its arguments, good or not, and the plan's solids.
#[tactic(auto, unfolding(crate::specs::Numbers::solids_ask))]
pub fn solids_ask(before: u32, given: bool, ws: &Words, fs: &Floats) -> u32
    ensures { result ≡ solids_ask before given ws.now fs.now }
{
    let s = plan_test::judge_solids(ws, fs);
    refusals::lower(
        before,
        refusals::lower(refusals::unless(refusals::BAD_NUMBER, given), s.number),
    )
}

// Whether a ray is one that may be asked of.
#[tactic(auto, unfolding(crate::specs::Numbers::ray_ok))]
pub fn ray_ok(ro: Vec3, rd: Vec3, tmin: f32, tmax: f32) -> bool
    ensures { result ≡ ray_ok ro rd tmin tmax }
{
    refusals::within(ro, refusals::FARTHER)
        && refusals::within(rd, refusals::STEEP)
        && refusals::up_to(tmin, refusals::LONGEST)
        && refusals::up_to(tmax, refusals::LONGEST)
}
