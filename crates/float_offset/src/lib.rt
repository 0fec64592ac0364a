// The limit that an offset of so many millimetres per metre run stands for.
#![tactic(auto)]

ghost use Rattle.std.specs.Prelude.{◌≡◌, ◌≤◌};
ghost use Rattle.rules.specs.Answers.{answered};
ghost use Rattle.rules.specs.Offset.{offset_root, offset_asked, limit_for};

use rules::{Answer, Refusal};

// The greatest offset, in millimetres per metre run.
const MOST: u32 = 1000;

// The bits of -M / 2^53 are these and M, for an M from 2^52 to 2^53.
const BITS: u64 = 0xBFD0_0000_0000_0000;

// The largest whole number whose square, times 1,000,000 + g * g, is at most 1,000,000 * 2^106: the root of the quotient of 250,000 * 4^54.
fn largest(g: u64) -> u64
    requires { g ≤ 1000 }
    ensures { result ≡ offset_root g }
{
    let (root, _over) = float_whole_root::quotient_root(250000, 1000000 + g * g, 54);
    root
}

// The limit's 64 bits, or refused with 22.
pub fn offset_limit(g: u32) -> Answer
    ensures { answered result ≡ offset_asked g }
{
    if MOST < g {
        return Err(Refusal::BadOffset);
    }
    Ok(BITS + largest(g as u64))
}

// The limit that a call with an offset in the limit's place goes on with. Above 1,000 it is a NaN, which such a call refuses where it refuses a limit.
pub fn limit_for(g: u32) -> f64
    ensures { result ≡ limit_for g }
{
    offset_limit(g).map_or(f64::NAN, float_bits::of_bits)
}
