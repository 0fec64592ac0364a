// The first free pair of a row of a pairing: row i is the pairs (i, j) with j above i.
#![tactic(auto)]

ghost use Rattle.std.specs.Prelude.{◌≡◌, true, ◌<◌, T};
ghost use Rattle.std.specs.Float.Ieee.{le};
ghost use Rattle.rules.specs.Plane.{unity, dot, measure};
ghost use Rattle.pair_ends.specs.Ends.{EndsRoom, direction_at};
ghost use Rattle.pair_first_of_end.specs.Near.{numbered, reaches_to, closer_to};
ghost use Rattle.pair_first_of_end.specs.Row.{held_words, held_of, RowReady, First};

use pair_ends::MARKS;

// The least measure seen in a row, which is the limit at first, and the partner that has it, if there is one yet.
#[derive(Clone, Copy)]
pub struct Near {
    pub measure: f64,
    pub partner: Option<usize>,
}

// The pair that a row holds: its key and the partner.
#[derive(Clone, Copy)]
pub struct Held {
    pub key: u64,
    pub partner: usize,
}

// Whether end e has a direction of two numbers, so that its pairs may qualify.
#[tactic(auto, using(crate::proofs::Measures::numbered_is))]
pub fn is_numbered(w: &[u64], d: usize, e: usize) -> bool
    requires { EndsRoom w.now d × (e < d) }
    ensures { result ≡ numbered (direction_at w.now d e) }
{
    w[e] == 1 && !float_bits::is_nan(w[d + e * 2]) && !float_bits::is_nan(w[d + e * 2 + 1])
}

// The direction of an end that has one of two numbers.
fn toward(w: &[u64], d: usize, e: usize) -> (f64, f64)
    requires ends_room { EndsRoom w.now d × (e < d) }
    requires e_value { numbered (direction_at w.now d e) ≡ true }
    ensures { direction_at w.now d e ≡ Some result }
{
    (
        f64::from_bits(w[d + e * 2]),
        f64::from_bits(w[d + e * 2 + 1]),
    )
}

// The dot product of two directions, not clamped.
#[tactic(auto, unfolding(rules::specs::Plane::dot))]
fn dot(a: (f64, f64), b: (f64, f64)) -> f64
    ensures { result ≡ dot a.0 a.1 b.0 b.1 }
{
    a.0 * b.0 + a.1 * b.1
}

// The measure of two directions.
fn measure(a: (f64, f64), b: (f64, f64)) -> f64
    ensures { result ≡ measure a.0 a.1 b.0 b.1 }
{
    float_order::measure(a.0, a.1, b.0, b.1)
}

// Whether a dot product may be at or below a measure once it is clamped.
#[tactic(auto, unfolding(crate::specs::Near::reaches_to))]
fn reaches(dot: f64, measure: f64) -> bool
    ensures { result ≡ reaches_to dot measure }
{
    dot <= measure || measure == 1.0
}

// Whether the measure of a and b is at or below the limit, where there is no partner yet, and below the least seen, where there is one.
#[tactic(auto, unfolding(crate::specs::Near::below_of), using(crate::proofs::Measures::out_of_reach))]
fn closer(near: Near, a: (f64, f64), b: (f64, f64)) -> bool
    requires { T (le near.measure unity) }
    ensures { result ≡ closer_to near (measure a.0 a.1 b.0 b.1) }
{
    let least = near.measure;
    if !reaches(dot(a, b), least) {
        return false;
    }
    match near.partner {
        None => measure(a, b) <= least,
        Some(_) => measure(a, b) < least,
    }
}

// The pair of a row as it is held.
fn hold(near: Near) -> Option<Held>
    ensures { held_words result ≡ held_of near }
{
    near.partner.map(|partner| Held {
        key: float_order::key(near.measure),
        partner,
    })
}

// The first free qualifying pair of row i, if there is one.
pub fn first_of(w: &[u64], d: usize, limit: f64, i: usize) -> Option<Held>
    requires { RowReady w.now d limit i }
    ensures { First w.now d limit i (held_words result) }
{
    if w[d * MARKS + i] != 0 {
        return None;
    }
    let mut near = Near {
        measure: limit,
        partner: None,
    };
    let a = toward(w, d, i);
    let piece = pair_ends::piece_at(w, d, i);
    for j in i + 1..d {
        if w[d * MARKS + j] != 0 {
            continue;
        }
        let b = toward(w, d, j);
        if !closer(near, a, b) {
            continue;
        }
        if pair_ends::piece_at(w, d, j) == piece {
            continue;
        }
        let m = measure(a, b);
        near = Near {
            measure: m,
            partner: Some(j),
        };
        if m <= -1.0 {
            return hold(near);
        }
    }
    hold(near)
}
