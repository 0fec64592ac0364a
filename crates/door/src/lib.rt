// The door: what a C or Rust host calls. A slice passes as a pointer and a length in elements. Every call answers one 64-bit number: its result,
// or minus the number of the refusal.
#![tactic(auto)]

mod building;
mod chains;
mod pairing;
mod wkb;

ghost use Rattle.std.specs.Prelude.{◌≡◌};
ghost use Rattle.rules.specs.Answers.{answered, refusal_number};
ghost use Rattle.rules.specs.Calls.{number_of};

use rules::{Answer, Refusal};

// The number of a refusal.
fn refusal_number(refusal: Refusal) -> u64
    ensures { result ≡ refusal_number refusal }
{
    refusal as u64
}

// An answer as a host sees it.
fn number(answer: Answer) -> u64
    ensures { result ≡ number_of (answered answer) }
{
    match answer {
        Ok(n) => n,
        Err(refusal) => 18446744073709551615 - refusal_number(refusal) + 1,
    }
}
