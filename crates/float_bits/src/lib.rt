// Doubles as their 64 bits. Rattle's `f64::from_bits` and `f64::to_bits` are undefined at a NaN, so each of these asks first, and is total.
#![tactic(auto)]

ghost use Rattle.std.specs.Prelude.{◌≡◌, not, ◌/◌, ◌^◌, ◌<◌};
ghost use Rattle.rules.specs.Lists.{one};
ghost use Rattle.std.specs.Float.{binary64};
ghost use Rattle.std.specs.Float.Ieee.{of_bits, is_nan, eq};
ghost use Rattle.std.specs.Float.Ieee.Scale.{finite};
ghost use Rattle.float_bits.specs.Bits.{bits_of};

// The weights of the sign and of the exponent's lowest place, the bits of the infinity above zero, and those of the NaN that stands for all of them.
pub const SIGN: u64 = 0x8000_0000_0000_0000;

pub const UNIT: u64 = 0x0010_0000_0000_0000;

pub const INFINITE: u64 = 0x7FF0_0000_0000_0000;

const NAN: u64 = 0x7FF8_0000_0000_0000;

// Whether n is a NaN's bits.
pub fn is_nan(n: u64) -> bool
    ensures { result ≡ is_nan (of_bits binary64 n) }
{
    INFINITE < n % SIGN
}

// Whether n stands for a number: no NaN, and no infinity.
pub fn is_finite(n: u64) -> bool
    ensures { result ≡ finite (of_bits binary64 n) }
{
    n % SIGN < INFINITE
}

// n without its sign and with one more in the exponent's lowest place, which reaches the sign's exactly where n is a NaN's bits or an infinity's.
pub fn raised(n: u64) -> u64
    ensures { (result / 2 ^ 63 ≡ one (not (finite (of_bits binary64 n)))) × (result < 2 ^ 64) }
{
    n % SIGN + UNIT
}

// The value that n stands for. All bits of a NaN give the one NaN.
pub fn of_bits(n: u64) -> f64
    ensures { result ≡ of_bits binary64 n }
{
    if is_nan(n) {
        f64::NAN
    } else {
        f64::from_bits(n)
    }
}

// The bits of x, to keep it in a workspace. A NaN has one pattern.
pub fn bits_of(x: f64) -> u64
    ensures { result ≡ bits_of x }
{
    if x.is_nan() { NAN } else { x.to_bits() }
}

// Whether a and b stand for equal numbers: -0.0 equals 0.0, and a NaN equals nothing. Other bits are other numbers, but for the two zeros.
pub fn same(a: u64, b: u64) -> bool
    ensures { result ≡ eq (of_bits binary64 a) (of_bits binary64 b) }
{
    if a == b {
        !is_nan(a)
    } else {
        a % SIGN + b % SIGN == 0
    }
}
