// The ends at one node: the three routes, each with a limit or with an offset in its place, that limit, and why two ends are joined or not.
ghost use Rattle.std.specs.Prelude.{◌≡◌, true, false};
ghost use Rattle.rules.specs.Refusals.{lent_ends};
ghost use Rattle.rules.specs.Calls.{number_of, Numbered, Paired};
ghost use Rattle.rules.specs.Reasons.{Why};
ghost use Rattle.rules.specs.Offset.{offset_asked, PairedOffset, ends_for};

use crate::number;
use pair_calls::{Chosen, Indexed, Plain};
use rules::Ends;

// The plain route: the number of pairs.
#[unsafe(no_mangle)]
pub extern "C" fn lovasuku_pairs_plain(
    present: &[u8],
    directions: &[f64],
    pieces: &[u32],
    limit: f64,
    pairs: &mut [u32],
    workspace: &mut [u64],
) -> u64
    ensures { Numbered (λ a. Paired false
        (lent_ends present.now directions.now pieces.now limit pairs.old workspace.old)
        a pairs.new workspace.new) result }
{
    number(pair_calls::pairs::<Plain>(
        &Ends {
            present,
            directions,
            pieces,
        },
        limit,
        pairs,
        workspace,
    ))
}

// The indexed route: the number of pairs.
#[unsafe(no_mangle)]
pub extern "C" fn lovasuku_pairs_indexed(
    present: &[u8],
    directions: &[f64],
    pieces: &[u32],
    limit: f64,
    pairs: &mut [u32],
    workspace: &mut [u64],
) -> u64
    ensures { Numbered (λ a. Paired true
        (lent_ends present.now directions.now pieces.now limit pairs.old workspace.old)
        a pairs.new workspace.new) result }
{
    number(pair_calls::pairs::<Indexed>(
        &Ends {
            present,
            directions,
            pieces,
        },
        limit,
        pairs,
        workspace,
    ))
}

// The chosen route: the number of pairs.
#[unsafe(no_mangle)]
pub extern "C" fn lovasuku_pairs_chosen(
    present: &[u8],
    directions: &[f64],
    pieces: &[u32],
    limit: f64,
    pairs: &mut [u32],
    workspace: &mut [u64],
) -> u64
    ensures { Numbered (λ a. Paired false
        (lent_ends present.now directions.now pieces.now limit pairs.old workspace.old)
        a pairs.new workspace.new) result }
{
    number(pair_calls::pairs::<Chosen>(
        &Ends {
            present,
            directions,
            pieces,
        },
        limit,
        pairs,
        workspace,
    ))
}

// Why ends i and j are joined or not: 0 selected, 1 same piece, 2 a direction absent, 3 not qualifying, 4 + p blocked by selected pair p.
#[unsafe(no_mangle)]
pub extern "C" fn lovasuku_why(
    present: &[u8],
    directions: &[f64],
    pieces: &[u32],
    limit: f64,
    i: u32,
    j: u32,
    pairs: &mut [u32],
    workspace: &mut [u64],
) -> u64
    ensures { Numbered (λ a. Why
        (lent_ends present.now directions.now pieces.now limit pairs.old workspace.old)
        i j a pairs.new workspace.new) result }
{
    number(pair_why::why(
        &Ends {
            present,
            directions,
            pieces,
        },
        limit,
        i,
        j,
        pairs,
        workspace,
    ))
}

// The limit that an offset stands for: its 64 bits.
#[unsafe(no_mangle)]
pub extern "C" fn lovasuku_offset_limit(offset: u32) -> u64
    ensures { result ≡ number_of (offset_asked offset) }
{
    number(float_offset::offset_limit(offset))
}

// The plain route with an offset in the limit's place: the number of pairs.
#[unsafe(no_mangle)]
pub extern "C" fn lovasuku_pairs_plain_offset(
    present: &[u8],
    directions: &[f64],
    pieces: &[u32],
    offset: u32,
    pairs: &mut [u32],
    workspace: &mut [u64],
) -> u64
    ensures { Numbered (λ a. PairedOffset false offset
        (ends_for present.now directions.now pieces.now offset pairs.old workspace.old)
        a pairs.new workspace.new) result }
{
    number(offset_calls::pairs_offset::<Plain>(
        &Ends {
            present,
            directions,
            pieces,
        },
        offset,
        pairs,
        workspace,
    ))
}

// The indexed route with an offset in the limit's place: the number of pairs.
#[unsafe(no_mangle)]
pub extern "C" fn lovasuku_pairs_indexed_offset(
    present: &[u8],
    directions: &[f64],
    pieces: &[u32],
    offset: u32,
    pairs: &mut [u32],
    workspace: &mut [u64],
) -> u64
    ensures { Numbered (λ a. PairedOffset true offset
        (ends_for present.now directions.now pieces.now offset pairs.old workspace.old)
        a pairs.new workspace.new) result }
{
    number(offset_calls::pairs_offset::<Indexed>(
        &Ends {
            present,
            directions,
            pieces,
        },
        offset,
        pairs,
        workspace,
    ))
}

// The chosen route with an offset in the limit's place: the number of pairs.
#[unsafe(no_mangle)]
pub extern "C" fn lovasuku_pairs_chosen_offset(
    present: &[u8],
    directions: &[f64],
    pieces: &[u32],
    offset: u32,
    pairs: &mut [u32],
    workspace: &mut [u64],
) -> u64
    ensures { Numbered (λ a. PairedOffset false offset
        (ends_for present.now directions.now pieces.now offset pairs.old workspace.old)
        a pairs.new workspace.new) result }
{
    number(offset_calls::pairs_offset::<Chosen>(
        &Ends {
            present,
            directions,
            pieces,
        },
        offset,
        pairs,
        workspace,
    ))
}
