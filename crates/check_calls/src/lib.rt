// The call that judges a delivery of chains: its refusals in their order, and each chain.
#![tactic(auto)]

ghost use Rattle.std.specs.Prelude.{◌≡◌, [], ◌∷◌, ◌++◌, map, ℕ, ◌*◌, ◌≤◌, ◌<◌, ltb, length};
ghost use Rattle.rules.specs.Answers.{answered, found};
ghost use Rattle.rules.specs.Lists.{upto, any_of};
ghost use Rattle.rules.specs.Layout.{lent, lines_in};
ghost use Rattle.rules.specs.Refusals.{line_room, first_of, line_tests, origin_bad};
ghost use Rattle.rules.specs.Check.{acceptable as acceptable_all, delivery, Checked};
ghost use Rattle.check_fits.specs.Fits.{Lined};
ghost use Rattle.check_calls.specs.Deliveries.{bad_at, RecordFine, ChainJudged, delivered_by};

use check_chains::Tables;
use check_fits::Lines;
use rules::{Answer, LINE_ROOM, MOST_LINES, Meeting, RECORD, Refusal};

// The chains that are delivered: their table, the listing of their lines, and the coordinates that are theirs alone.
#[derive(Clone, Copy)]
struct Chains<'a> {
    table: &'a [u32],
    listing: &'a [u32],
    merged: &'a [u64],
}

// ---- all chains

// Whether chain k is acceptable, and none of its lines was listed before; each gets its mark.
fn chain_at(
    seen: &mut [bool; MOST_LINES],
    tables: &mut Tables,
    lines: &Lines,
    chains: &Chains,
    k: usize,
    m: Meeting,
) -> bool
    requires { RecordFine lines.now.width (length lines.now.counts.now) lines.now.coordinates.now chains.now.merged.now chains.now.table.now chains.now.listing.now k }
    ensures { ChainJudged m lines.now.width lines.now.coordinates.now lines.now.counts.now lines.now.groups.now lines.now.kinds.now
        chains.now.merged.now chains.now.table.now chains.now.listing.now k seen.old seen.new result }
{
    let from = chains.table[k * RECORD] as usize;
    let to = from + chains.table[k * RECORD + 1] as usize;
    if !check_lines::note(seen, &chains.listing[from..to]) {
        return false;
    }
    let chain = build_question::part(
        lines.coordinates,
        chains.merged,
        chains.table,
        lines.width,
        k,
    );
    check_fits::chain_fits(tables, lines, &chains.listing[from..to], chain, m)
}

// Whether the first n chains of a table are acceptable.
fn acceptable(
    coordinates: &[u64],
    width: usize,
    counts: &[u32],
    groups: &[u32],
    kinds: &[u8],
    chains: &Chains,
    n: usize,
    m: Meeting,
) -> bool
    requires { Lined width coordinates.now counts.now groups.now kinds.now
        × ((k : ℕ) → k < n → RecordFine width (length counts.now) coordinates.now chains.now.merged.now chains.now.table.now chains.now.listing.now k) }
    ensures { result ≡ acceptable_all m (lines_in width (lent coordinates.now counts.now groups.now kinds.now))
        (map (delivered_by width coordinates.now chains.now.merged.now chains.now.table.now chains.now.listing.now) (upto n)) }
{
    let mut firsts = [0u32; MOST_LINES];
    check_lines::first_places(counts, &mut firsts);
    let lines = Lines {
        coordinates,
        width,
        firsts: &firsts,
        counts,
        groups,
        kinds,
    };
    let mut seen = [false; MOST_LINES];
    let mut tables = Tables::new();
    for k in 0..n {
        if !chain_at(&mut seen, &mut tables, &lines, chains, k, m) {
            return false;
        }
    }
    check_lines::all_seen(&seen, counts.len())
}

// ---- refusals

// Whether record k is no chain, or its lines leave the listing or name one that isn't there.
fn bad_record(coordinates: &[u64], chains: &Chains, width: usize, n: usize, k: usize) -> bool
    requires { width ≤ 4 }
    ensures { result ≡ bad_at width n coordinates.now chains.now.merged.now chains.now.table.now chains.now.listing.now k }
{
    if build_question::no_chain(coordinates, chains.merged, chains.table, width, k) {
        return true;
    }
    let from = chains.table[k * RECORD] as usize;
    let to = from + chains.table[k * RECORD + 1] as usize;
    chains.listing.len() < to || check_lines::any_beyond(&chains.listing[from..to], n)
}

// Whether one of the first k records is.
fn any_bad(coordinates: &[u64], chains: &Chains, width: usize, n: usize, k: u64) -> bool
    requires { width ≤ 4 }
    ensures { result ≡ any_of (bad_at width n coordinates.now chains.now.merged.now chains.now.table.now chains.now.listing.now) (upto k) }
{
    (0..k).any(|j| bad_record(coordinates, chains, width, n, j as usize))
}

// Why the lines, the corner or the room are refused, in this order.
fn refusal(
    wkb_type: u32,
    coordinates: &[u64],
    counts: &[u32],
    groups: &[u32],
    kinds: &[u8],
    m: Meeting,
    room: usize,
) -> Result<(), Refusal>
    ensures { found result ≡ first_of (line_tests wkb_type (lent coordinates.now counts.now groups.now kinds.now)
        ++ ((17, origin_bad m.origin_x m.origin_y) ∷ (7, ltb room (length counts.now * line_room)) ∷ [])) }
{
    build_refusals::line_refusal(wkb_type, coordinates, counts, groups, kinds)?;
    if build_refusals::origin_bad(m.origin_x, m.origin_y) {
        return Err(Refusal::BadOrigin);
    }
    if room < counts.len() * LINE_ROOM {
        return Err(Refusal::RoomTooShort);
    }
    Ok(())
}

// Whether a delivery of chains is acceptable: accepted with 0. A refused call changes no slice.
pub fn check<'a>(
    wkb_type: u32,
    coordinates: &'a [u64],
    counts: &[u32],
    groups: &[u32],
    kinds: &[u8],
    m: Meeting,
    table: &[u32],
    k: u64,
    listing: &[u32],
    merged: &'a [u64],
    workspace: &mut [u64],
) -> Answer
    ensures { Checked (delivery wkb_type (lent coordinates.now counts.now groups.now kinds.now) m
        table.now k listing.now merged.now workspace.old)
        (answered result) workspace.new }
{
    refusal(
        wkb_type,
        coordinates,
        counts,
        groups,
        kinds,
        m,
        workspace.len(),
    )?;
    let n = counts.len();
    let width = point_numbers::width_of(wkb_type);
    let chains = Chains {
        table,
        listing,
        merged,
    };
    if any_bad(coordinates, &chains, width, n, k) {
        return Err(Refusal::BadRecord);
    }
    if !acceptable(
        coordinates,
        width,
        counts,
        groups,
        kinds,
        &chains,
        k as usize,
        m,
    ) {
        return Err(Refusal::NotAcceptable);
    }
    point_slices::clear(workspace, n * LINE_ROOM);
    Ok(0)
}
