// The chosen route: few ends, or a direction that is not finite, go by the plain route, all others by the index.
#![tactic(auto)]

ghost use Rattle.std.specs.Prelude.{◌≡◌, false};
ghost use Rattle.rules.specs.Refusals.{limit_bad};
ghost use Rattle.float_order.specs.Key.{key};
ghost use Rattle.pair_laws.specs.Ends.{end_at};
ghost use Rattle.pair_laws.specs.Owners.{AtMostTwice};
ghost use Rattle.pair_ends.specs.Ends.{EndsRoom, Selected, ends_in};

// How many ends the indexed route asks at the least.
const FEW: usize = 32;

// The selected pairs of a junction's d ends, by the route that fits; how many, and two words for each behind the piece numbers.
pub fn junction_pairs(w: &mut [u64], d: usize, limit: f64) -> usize
    requires { EndsRoom w.old d × (limit_bad limit ≡ false) × AtMostTwice (λ e. (end_at (ends_in w.old d) e).piece) d }
    ensures { Selected w.old d (key limit) result w.new }
{
    if d < FEW || !pair_all_directions::all_finite(w, d) {
        return pair_plain::plain(w, d, limit);
    }
    pair_indexed::indexed(w, d, float_order::key(limit))
}
