// IEEE 754's squareRoot of an `f64`, worked out from its bits on whole numbers.
#![tactic(auto)]

ghost use Rattle.std.specs.Prelude.{◌≡◌, ◌*◌, ◌^◌, ◌≤◌, ◌<◌};
ghost use Rattle.std.specs.Float.{binary64};
ghost use Rattle.std.specs.Float.Ieee.{of_bits};
ghost use Rattle.rules.specs.Root.{root_units, root as root_of};

use float_bits::{INFINITE, SIGN, UNIT};
use float_whole_root;

// The root of w * 4^26 * 4^k squares of the smallest value: its significand's digits, and k in the exponent's field. Where the significand
// is 2^53, the sum carries into that field, as it should.
fn assemble(w: u64, k: u64) -> f64
    requires { (2 ^ 52 ≤ w) × (w < 2 ^ 54) × (k ≤ 1600) }
    ensures { result ≡ root_units binary64 (w * 2 ^ 52 * 4 ^ k) }
{
    f64::from_bits(k * UNIT + float_whole_root::nearest_root(w))
}

// m * 2^s with 53 binary digits.
#[derive(Clone, Copy)]
struct Normal {
    m: u64,
    s: u64,
}

// m without its leading zeros.
fn shifted(m: u64) -> Normal
    requires { (0 < m) × (m < 2 ^ 53) }
    ensures { (result.m ≡ m * 2 ^ result.s) × (2 ^ 52 ≤ result.m) × (result.m < 2 ^ 53) × (result.s ≤ 52) }
{
    let s = m.leading_zeros() as u64 - 11;
    Normal { m: m << s, s }
}

// The root of m * 2^j squares of the smallest value. An even power of two goes into the exponent, and what is left of it into the radicand.
fn scaled(m: u64, j: u64) -> f64
    requires { (0 < m) × (m < 2 ^ 53) × (1074 ≤ j) × (j ≤ 3119) }
    ensures { result ≡ root_units binary64 (m * 2 ^ j) }
{
    let a = shifted(m);
    let b = a.m;
    let h = j - a.s;
    assemble(b + b * (h % 2), (h - 52) / 2)
}

// The root of the value that n stands for, where that is finite and above zero.
fn positive(n: u64) -> f64
    requires { (0 < n) × (n < 0x7ff0_0000_0000_0000) }
    ensures { result ≡ root_of binary64 (of_bits binary64 n) }
{
    let e = n / UNIT;
    let t = n % UNIT;
    if e == 0 {
        scaled(t, 1074)
    } else {
        scaled(t + UNIT, e + 1073)
    }
}

// The root of the value that n stands for, whatever that is.
pub fn root_of_bits(n: u64) -> f64
    ensures { result ≡ root_of binary64 (of_bits binary64 n) }
{
    if n == 0 {
        0.0
    } else if n < INFINITE {
        positive(n)
    } else if n == INFINITE {
        f64::INFINITY
    } else if n == SIGN {
        -0.0
    } else {
        f64::NAN
    }
}

// The root of x.
pub fn root(x: f64) -> f64
    ensures { result ≡ root_of binary64 x }
{
    root_of_bits(float_bits::bits_of(x))
}
