// The cell of a coordinate: the floor of (coordinate - origin) / tolerance as an `i64`. There is no `%` on floats here, which would be a call of the C library.
#![tactic(auto)]

ghost use Rattle.std.specs.Prelude.{◌≡◌};
ghost use Rattle.rules.specs.Cell.{floor64, cell};
ghost use Rattle.float_cell.specs.Lifted.{lifted};

use float_bits;
use float_bits::SIGN;

const CLOSE: f64 = 2251799813685248.0; // 2^51

const WHOLE: f64 = 6755399441055744.0; // 3 * 2^51, a sum with which has no digits behind the point

// The floor of any float. x's whole part, toward zero and within an `i64`, is its floor unless it lies above x; then the floor is one less, if there is one.
fn floor_far(x: f64) -> i64
    ensures { result ≡ floor64 x }
{
    let t = std::num::saturating_f64_to_i64(x);
    if x < std::num::nearest_i64_to_f64(t) {
        t.saturating_sub(1)
    } else {
        t
    }
}

// The floor of x. Below 2^51 there is no branch on the sign or the fraction: y is a whole number next to x.
pub fn floor(x: f64) -> i64
    ensures { result ≡ floor64 x }
{
    if -CLOSE < x && x < CLOSE {
        let y = x + WHOLE - WHOLE;
        y as i64 - (x < y) as i64
    } else {
        floor_far(x)
    }
}

// 2^63 more than t.
fn lift(t: i64) -> u64
    ensures { result ≡ lifted t }
{
    SIGN.wrapping_add_signed(t)
}

// The cell of the coordinate whose bits are n, from an origin on, as a number that stands for it in a key.
pub fn cell_key(n: u64, origin: f64, tolerance: f64) -> u64
    ensures { result ≡ lifted (cell tolerance origin n) }
{
    lift(floor((float_bits::of_bits(n) - origin) / tolerance))
}
