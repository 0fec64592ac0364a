// The chain question, and the view of a chain's coordinates.
#![tactic(auto)]

ghost use Rattle.std.specs.Prelude.{◌≡◌, ◌≤◌, ◌^◌, false};
ghost use Rattle.rules.specs.Answers.{answered};
ghost use Rattle.rules.specs.Refusals.{no_chain};
ghost use Rattle.rules.specs.Calls.{asked, viewed};
ghost use Rattle.build_question.specs.Parts.{part_of};

use rules::{Answer, RECORD, Refusal};

// Whether the table has no record k, or its coordinates aren't in the slice that its source names.
pub fn no_chain(input: &[u64], merged: &[u64], table: &[u32], width: usize, k: usize) -> bool
    requires { width ≤ 2 ^ 31 }
    ensures { result ≡ no_chain width input.now merged.now table.now k }
{
    if table.len() / RECORD <= k {
        return true;
    }
    let last = (table[k * RECORD + 3] as usize + table[k * RECORD + 4] as usize) * width;
    match table[k * RECORD + 2] {
        0 => input.len() < last,
        1 => merged.len() < last,
        _ => true,
    }
}

// Chain k's coordinates, of points of a width, where there is such a chain: a part of the input or of the merged coordinates.
pub fn known_part<'a>(
    input: &'a [u64],
    merged: &'a [u64],
    table: &[u32],
    width: usize,
    k: usize,
) -> &'a [u64]
    requires { (width ≤ 2 ^ 31) × (no_chain width input.now merged.now table.now k ≡ false) }
    ensures { result.now ≡ part_of width input.now merged.now table.now k }
{
    let from = table[k * RECORD + 3] as usize * width;
    let to = from + table[k * RECORD + 4] as usize * width;
    if table[k * RECORD + 2] == 0 {
        &input[from..to]
    } else {
        &merged[from..to]
    }
}

// The same, and the empty part of the input where there is no such chain.
pub fn part<'a>(
    input: &'a [u64],
    merged: &'a [u64],
    table: &[u32],
    width: usize,
    k: usize,
) -> &'a [u64]
    requires { width ≤ 2 ^ 31 }
    ensures { result.now ≡ part_of width input.now merged.now table.now k }
{
    if no_chain(input, merged, table, width, k) {
        &input[..0]
    } else {
        known_part(input, merged, table, width, k)
    }
}

// The chain question: accepted with 0, refused with 12 for a number that is no type, or with 10.
pub fn chain(wkb_type: u32, input: &[u64], merged: &[u64], table: &[u32], k: usize) -> Answer
    ensures { answered result ≡ asked wkb_type input.now merged.now table.now k }
{
    let width = point_numbers::width_of(wkb_type);
    if width == 0 {
        return Err(Refusal::BadType);
    }
    if no_chain(input, merged, table, width, k) {
        return Err(Refusal::NoSuchChain);
    }
    Ok(0)
}

// The view: chain k's coordinates, not copied; nothing for a number that is no type.
pub fn view<'a>(
    wkb_type: u32,
    input: &'a [u64],
    merged: &'a [u64],
    table: &[u32],
    k: usize,
) -> &'a [u64]
    ensures { result.now ≡ viewed wkb_type input.now merged.now table.now k }
{
    part(input, merged, table, point_numbers::width_of(wkb_type), k)
}
