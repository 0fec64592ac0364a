// One box around all directions of a node: where even its nearest corner is too far from each of them, no pair qualifies, and a route need not look.
#![tactic(auto)]

ghost use Rattle.std.specs.Prelude.{◌≡◌};
ghost use Rattle.pair_ends.specs.Ends.{EndsRoom, direction_at};
ghost use Rattle.pair_all_directions.specs.Around.{Every, tame, round_of, joined_of, around_of, beyond_of, idle_of};

use pair_bounds::Bounds;
use rules::Direction;

// Whether a direction, if present, is finite.
#[tactic(auto, unfolding(crate::specs::Around::tame))]
fn finite_way(way: Direction) -> bool
    ensures { result ≡ tame way }
{
    way.is_none_or(|(x, y)| float_order::is_finite(x) && float_order::is_finite(y))
}

// Whether each present direction is finite.
pub fn all_finite(w: &[u64], d: usize) -> bool
    requires { EndsRoom w.now d }
    ensures { Every (λ e. tame (direction_at w.now d e)) d result }
{
    (0..d).all(|e| finite_way(pair_ends::direction_at(w, d, e)))
}

// Whether a direction, if present, is in the disk.
#[tactic(auto, unfolding(crate::specs::Around::round_of))]
fn round_way(way: Direction) -> bool
    ensures { result ≡ round_of way }
{
    way.is_none_or(|(x, y)| pair_bounds::is_round(x, y))
}

// Whether each present direction is in the disk.
pub fn all_round(w: &[u64], d: usize) -> bool
    requires { EndsRoom w.now d }
    ensures { Every (λ e. round_of (direction_at w.now d e)) d result }
{
    (0..d).all(|e| round_way(pair_ends::direction_at(w, d, e)))
}

// The least box around a box and a direction.
#[tactic(auto, unfolding(crate::specs::Around::joined_of))]
fn joined(b: Bounds, way: Direction) -> Bounds
    ensures { result ≡ joined_of b way }
{
    let Some((x, y)) = way else {
        return b;
    };
    Bounds::union(
        b,
        Bounds {
            low_x: x,
            low_y: y,
            high_x: x,
            high_y: y,
            first: 0,
        },
    )
}

// The least box around all directions.
fn around(w: &[u64], d: usize) -> Bounds
    requires { EndsRoom w.now d }
    ensures { result ≡ around_of (direction_at w.now d) d }
{
    let mut b = Bounds::empty();
    for e in 0..d {
        b = joined(b, pair_ends::direction_at(w, d, e));
    }
    b
}

// Whether no direction of a box makes a pair with this one under the limit's key.
#[tactic(auto, unfolding(crate::specs::Around::beyond_of))]
fn beyond(b: Bounds, limit: u64, way: Direction) -> bool
    ensures { result ≡ beyond_of b limit way }
{
    way.is_none_or(|(x, y)| limit < float_order::low_key(b.corner_measure(x, y)))
}

// Whether each direction is too far from the box around all of them, so that no pair qualifies.
pub fn apart(w: &[u64], d: usize, limit: u64) -> bool
    requires { EndsRoom w.now d }
    ensures { Every (λ e. beyond_of (around_of (direction_at w.now d) d) limit (direction_at w.now d e)) d result }
{
    let b = around(w, d);
    (0..d).all(|e| beyond(b, limit, pair_ends::direction_at(w, d, e)))
}

// Whether each direction is tame and too far from the box around all of them.
pub fn idle(w: &[u64], d: usize, limit: u64) -> bool
    requires { EndsRoom w.now d }
    ensures { Every (λ e. idle_of (direction_at w.now d) d limit e) d result }
{
    all_finite(w, d) && apart(w, d, limit)
}
