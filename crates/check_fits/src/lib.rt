// Whether one chain is acceptable: one of no line, of a lone line, or of lines that may be joined.
#![tactic(auto)]

ghost use Rattle.std.specs.Prelude.{◌≡◌, ◌<◌, [], ◌∷◌, length};
ghost use Rattle.rules.specs.declared.Meeting.{Meeting as Meets};
ghost use Rattle.rules.specs.Plane.{points};
ghost use Rattle.rules.specs.Check.{joins as joined, fits};
ghost use Rattle.check_fits.specs.Fits.{LinesTabled, ChainLent, chosen};

use check_chains::Tables;
use rules::{MOST_LINES, Meeting};

// The lines of a call that no refusal of its lines meets, and the first coordinate of each.
#[derive(Clone, Copy)]
pub struct Lines<'a> {
    pub coordinates: &'a [u64],
    pub width: usize,
    pub firsts: &'a [u32; MOST_LINES],
    pub counts: &'a [u32],
    pub groups: &'a [u32],
    pub kinds: &'a [u8],
    ghost tabled: { LinesTabled width coordinates.now firsts.now counts.now groups.now kinds.now },
}

// Whether the lines that are listed may be joined as a chain.
fn joins(tables: &mut Tables, lines: &Lines, listed: &[u32], chain: &[u64], m: Meeting) -> bool
    requires lent { ChainLent lines.now.width lines.now.counts.now listed.now chain.now }
    requires some_line { 0 < length listed.now }
    ensures { result ≡ joined m (chosen lines.now.width lines.now.coordinates.now lines.now.counts.now lines.now.groups.now lines.now.kinds.now listed.now)
        (points lines.now.width chain.now) }
{
    check_lines::all_plain(listed, lines.counts, lines.kinds)
        && (check_lines::one_group(listed, lines.groups)
            && check_chains::a_choice(
                tables,
                lines.coordinates,
                lines.width,
                lines.firsts,
                lines.counts,
                listed,
                chain,
                m,
            ))
}

// Whether a line's own numbers are the chain's.
fn lone_fits(lines: &Lines, y: u32, chain: &[u64]) -> bool
    requires { ChainLent lines.now.width lines.now.counts.now (y ∷ []) chain.now }
    ensures { (m : Meets) → result ≡ fits m (chosen lines.now.width lines.now.coordinates.now lines.now.counts.now lines.now.groups.now lines.now.kinds.now (y ∷ []))
        (points lines.now.width chain.now) }
{
    let own = check_chains::line_of(
        lines.coordinates,
        lines.width,
        lines.firsts,
        lines.counts,
        y as usize,
    );
    check_lines::same_numbers(own, chain)
}

// Whether a chain of the lines that are listed is acceptable: without lines it has no coordinates, and a lone line has its own numbers.
pub fn chain_fits(
    tables: &mut Tables,
    lines: &Lines,
    listed: &[u32],
    chain: &[u64],
    m: Meeting,
) -> bool
    requires { ChainLent lines.now.width lines.now.counts.now listed.now chain.now }
    ensures { result ≡ fits m (chosen lines.now.width lines.now.coordinates.now lines.now.counts.now lines.now.groups.now lines.now.kinds.now listed.now)
        (points lines.now.width chain.now) }
{
    match listed {
        [] => chain.is_empty(),
        [y] => lone_fits(lines, *y, chain),
        _ => joins(tables, lines, listed, chain, m),
    }
}
