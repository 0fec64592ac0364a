// The whole number nearest to the root of w * 2^52: a guess in floats, and an exact test of it in whole numbers.
#![tactic(auto)]

ghost use Rattle.std.specs.Prelude.{◌+◌, ◌*◌, ◌/◌, ◌^◌, ◌≤◌, ◌<◌, ◌≡◌};
ghost use Rattle.float_bits.specs.Bits.{bits_of};
ghost use Rattle.float_whole_root.specs.Near.{Near, Settles};
ghost use Rattle.float_whole_root.specs.Guess.{leading_of, guess_of};

use float_bits;
use float_bits::UNIT;

// The whole number nearest to the root of w * 2^52, where that is g or next to g.
fn settled(w: u64, g: u64) -> Option<u64>
    requires { (0 < w) × (w < 2 ^ 54) × (2 ≤ g) × (g ≤ 2 ^ 53) }
    ensures { Settles (w * 2 ^ 52) g result }
{
    let c = w as u128 * UNIT as u128;
    let square = g as u128 * g as u128;
    let near = g as u128;
    if square + near * 3 + 2 < c || c + near * 3 <= square + 2 {
        return None;
    }
    let up = (square + near < c) as u64;
    let down = (c + near <= square) as u64;
    Some(g + up - down)
}

// The digits of a v from 1 to 2 as a whole number, v * 2^52: they are its bits. Elsewhere 2.
fn leading(v: f64) -> u64
    ensures { (result ≡ leading_of (bits_of v)) × (2 ≤ result) × (result ≤ 2 ^ 53) }
{
    let n = float_bits::bits_of(v);
    if n < 0x3FE0_0000_0000_0002 || 0x4000_0000_0000_0000 < n {
        2
    } else {
        n - 0x3FE0_0000_0000_0000
    }
}

// A number that is likely the root, or next to it. x is w / 2^52 but for its last digit, between 1 and 4; y is the line nearest to its root, t a step of
// the fifth order from there, and what is left is one of Newton's.
fn guess(w: u64) -> u64
    requires { w < 2 ^ 54 }
    ensures { (result ≡ guess_of w) × (2 ≤ result) × (result ≤ 2 ^ 53) }
{
    let x = (w / 2) as f64 / 2251799813685248.0;
    let y = 0.6862915003646809 + x * 0.34314575018234034;
    let s = y * y;
    let a = s * s;
    let p = s * x * 10.0;
    let q = x * x;
    let t = y * (a + p + q * 5.0) / (a * 5.0 + p + q);
    leading((t + x / t) * 0.5)
}

// The root of n * 4^turns / d, cut to a whole number, and what that quotient, cut likewise, has over its square. Digit by digit from the top, each with
// two binary digits of the quotient, which are divided out as they are needed: after i digits q is the root of the quotient of n * 4^i, `over` what the
// quotient has over q * q, and `left` what the division leaves.
pub fn quotient_root(n: u64, d: u64, turns: u32) -> (u64, u64)
    requires { (n < d) × (d < 2 ^ 62) × (turns ≤ 60) }
    ensures { (result.0 * result.0 + result.1 ≡ n * 4 ^ turns / d) × (result.1 ≤ 2 * result.0) × (result.0 < 2 ^ turns) }
{
    let mut q: u64 = 0;
    let mut over: u64 = 0;
    let mut left = n;
    for _ in 0..turns {
        let next = over * 4 + left * 4 / d;
        let trial = q * 4 + 1;
        left = left * 4 % d;
        // The digit and what is over it are chosen, not branched to: half of the digits are 1, in no order.
        let (digit, rest) = if trial <= next {
            (1, next - trial)
        } else {
            (0, next)
        };
        q = q * 2 + digit;
        over = rest;
    }
    (q, over)
}

// The nearest whole number by all its digits: w * 2^52 is w * 4^53 / 2^54.
fn digits(w: u64) -> u64
    requires { (0 < w) × (w < 2 ^ 54) }
    ensures { Near (w * 2 ^ 52) result }
{
    let (q, over) = quotient_root(w, UNIT * 4, 53);
    if q < over { q + 1 } else { q }
}

// The guess or a neighbour of it, and the slow way where that is not the answer.
pub fn nearest_root(w: u64) -> u64
    requires { (0 < w) × (w < 2 ^ 54) }
    ensures { Near (w * 2 ^ 52) result }
{
    settled(w, guess(w)).unwrap_or_else(|| digits(w))
}
