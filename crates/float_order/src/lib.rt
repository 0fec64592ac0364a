// The measure of two directions, and floats as keys: whole numbers of 64 binary digits that are in order as the floats are.
#![tactic(auto)]

ghost use Rattle.std.specs.Prelude.{◌≡◌, not, cond, T};
ghost use Rattle.std.specs.Float.{binary64};
ghost use Rattle.std.specs.Float.Ieee.{is_nan};
ghost use Rattle.std.specs.Float.Ieee.Scale.{finite};
ghost use Rattle.rules.specs.Plane.{clamp, measure as measure_of};
ghost use Rattle.float_order.specs.Rank.{rank as rank_of};
ghost use Rattle.float_order.specs.Key.{key as key_of, low_key as low_key_of};

// The weight of a double's sign, and the key of a NaN.
const SIGN: u64 = 0x8000_0000_0000_0000;

pub const GREATEST: u64 = u64::MAX;

// A dot product brought to -1..1. A NaN stays.
pub fn clamped(x: f64) -> f64
    ensures { result ≡ clamp x }
{
    x.clamp(-1.0, 1.0)
}

// The measure of two directions: their dot product, clamped.
pub fn measure(ax: f64, ay: f64, bx: f64, by: f64) -> f64
    ensures { result ≡ measure_of ax ay bx by }
{
    clamped(ax * bx + ay * by)
}

// Numbers are in order as their ranks are, and both zeros have one rank.
pub fn rank(x: f64) -> u64
    requires { T (not (is_nan x)) }
    ensures { result ≡ rank_of binary64 x }
{
    let n = x.to_bits();
    if n < SIGN {
        n + SIGN
    } else {
        SIGN - (n - SIGN)
    }
}

// The rank of a number, and `of_nan` for a NaN.
fn rank_or(x: f64, of_nan: u64) -> u64
    ensures { result ≡ cond (is_nan x) of_nan (rank_of binary64 x) }
{
    if x.is_nan() { of_nan } else { rank(x) }
}

// A measure's key. A NaN's is the greatest, so that it is at or below no limit's.
pub fn key(x: f64) -> u64
    ensures { result ≡ key_of x }
{
    rank_or(x, GREATEST)
}

// A bound's key. A NaN's is the least, so that it rules nothing out.
pub fn low_key(x: f64) -> u64
    ensures { result ≡ low_key_of x }
{
    rank_or(x, 0)
}

// Neither a NaN nor an infinity: taken from itself it leaves a number.
pub fn is_finite(x: f64) -> bool
    ensures { result ≡ finite x }
{
    x.is_finite()
}
