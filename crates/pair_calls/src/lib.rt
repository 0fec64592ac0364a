// The public pairing calls. They differ in their route alone, and the indexed one in a refusal of its own.
#![tactic(auto)]

ghost use Rattle.std.specs.Prelude.{◌≡◌, Bool, true, false};
ghost use Rattle.float_order.specs.Key.{key};
ghost use Rattle.pair_ends.specs.Ends.{Selected};
ghost use Rattle.rules.specs.Answers.{answered};
ghost use Rattle.rules.specs.Calls.{Paired};
ghost use Rattle.rules.specs.Lent.{ends_lent};
ghost use Rattle.pair_calls.specs.Routed.{Routed};

use pair_ends::PAIRS;
use rules::{Answer, END_ROOM, Ends};

// A route to the selected pairs. `ALONE` tells whether the index is asked whatever the directions are, so that a direction that is not finite is refused.
pub trait Route {
    const ALONE: bool;

    ghost ALONE: { Bool };

    // The selected pairs of the ends in the workspace; how many.
    fn select(w: &mut [u64], d: usize, limit: f64) -> usize
        requires { Routed ALONE w.old d limit }
        ensures { Selected w.old d (key limit) result w.new };
}

// Every pair is looked at.
#[derive(Clone, Copy)]
pub struct Plain;

// The index is asked.
#[derive(Clone, Copy)]
pub struct Indexed;

// Whichever of the two fits.
#[derive(Clone, Copy)]
pub struct Chosen;

impl Route for Plain {
    const ALONE: bool = false;

    ghost ALONE = { false };

    fn select(w: &mut [u64], d: usize, limit: f64) -> usize {
        pair_plain::plain(w, d, limit)
    }
}

impl Route for Indexed {
    const ALONE: bool = true;

    ghost ALONE = { true };

    fn select(w: &mut [u64], d: usize, limit: f64) -> usize {
        pair_indexed::indexed(w, d, float_order::key(limit))
    }
}

impl Route for Chosen {
    const ALONE: bool = false;

    ghost ALONE = { false };

    fn select(w: &mut [u64], d: usize, limit: f64) -> usize {
        pair_chosen::junction_pairs(w, d, limit)
    }
}

// The selected pairs of the lent ends, by a route; the number of pairs.
pub fn pairs<R: Route>(ends: &Ends, limit: f64, pairs: &mut [u32], workspace: &mut [u64]) -> Answer
    ensures { Paired R.ALONE (ends_lent ends.now limit pairs.old workspace.old) (answered result) pairs.new workspace.new }
{
    pair_refusals::pair_refusal(R::ALONE, ends, limit, pairs.len(), workspace.len())?;
    let d = ends.pieces.len();
    pair_lending::put_ends(workspace, ends);
    let n = R::select(workspace, d, limit);
    pair_lending::take_pairs(workspace, d * PAIRS, n * 2, pairs);
    point_slices::clear(workspace, d * END_ROOM);
    Ok(n as u64)
}
