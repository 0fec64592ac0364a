// Whether a choice of directions exists for the lines of a chain, by all places of its coordinates that are still possible, line by line.
#![tactic(auto)]

ghost use Rattle.std.specs.Prelude.{◌≡◌, ◌+◌, ◌*◌, ◌≤◌, ◌<◌, length, unwrap_or};
ghost use Rattle.rules.specs.Plane.{points};
ghost use Rattle.rules.specs.Refusals.{most_lines};
ghost use Rattle.check_places.specs.Places.{far, PlaceGround as Line};
ghost use Rattle.check_chains.specs.Chains.{line_at, LineThere, ChainGround, FirstLineLies, Steps, FilledOpen, Advancing, ended_at, LinesListed, ChainDecided};

use rules::{MOST_LINES, Meeting};

// The tables in which a choice is looked for: the marks, where a line fits as drawn and turned, and how many points stand at places.
#[derive(Drop)]
pub struct Tables {
    marks: [u8; MOST_LINES],
    drawn_fits: [bool; MOST_LINES],
    turned_fits: [bool; MOST_LINES],
    near: [u32; MOST_LINES],
}

impl Tables {
    pub fn new() -> Tables {
        Tables {
            marks: [0; MOST_LINES],
            drawn_fits: [false; MOST_LINES],
            turned_fits: [false; MOST_LINES],
            near: [0; MOST_LINES],
        }
    }
}

// What is known behind a line: how many points the lines up to it lay alone, `base`, and between which marks those that are there stand. The mark j is that of the
// place base - j, where j points were dropped.
#[derive(Clone, Copy)]
pub struct Held {
    pub base: usize,
    pub low: usize,
    pub end: usize,
}

// The first line: at the first place, in both directions.
fn begin(marks: &mut [u8; MOST_LINES], chain: &[u64], width: usize, line: &[u64]) -> Held
    requires { ChainGround width chain.now line.now }
    ensures { FirstLineLies (points width chain.now) (points width line.now) marks.new result }
{
    let drawn = check_places::reach(chain, width, 0, line, false);
    let turned = check_places::reach(chain, width, 0, line, true);
    marks[0] = check_marks::set_of(drawn.next.is_none(), turned.next.is_none());
    match (drawn.next, turned.next) {
        (None, _) => Held {
            base: drawn.points,
            low: 0,
            end: 1,
        },
        (_, None) => Held {
            base: turned.points,
            low: 0,
            end: 1,
        },
        _ => Held {
            base: 0,
            low: 0,
            end: 0,
        },
    }
}

// Where a line fits, in a direction in which it may be taken.
fn fill_open(
    ways: u8,
    fits: &mut [bool; MOST_LINES],
    near: &mut [u32; MOST_LINES],
    chain: &[u64],
    width: usize,
    line: &[u64],
    turned: bool,
    from: usize,
    n: usize,
) -> Option<usize>
    requires { Line width chain.now line.now × (from ≤ far) × (0 < n) × (n ≤ most_lines) }
    ensures { FilledOpen ways width chain.now line.now turned from n fits.new (unwrap_or result 0) }
{
    if ways == 0 {
        return None;
    }
    check_places::fill(fits, near, chain, width, line, turned, from, n)
}

// The line l behind the line p.
fn advance(
    tables: &mut Tables,
    chain: &[u64],
    width: usize,
    p: &[u64],
    l: &[u64],
    h: Held,
    m: Meeting,
) -> Held
    requires { Advancing width chain.now p.now l.now tables.old.marks h }
    ensures { (y : Advancing width chain.now p.now l.now tables.old.marks h)
        → Steps m (points width chain.now) (points width p.now) (points width l.now) y.passed
        tables.old.marks h tables.new.marks result }
{
    let from = h.base - h.end;
    let n = h.end - h.low + 1;
    let drawn = check_marks::open_to(p, l, false, width, m);
    let turned = check_marks::open_to(p, l, true, width, m);
    let Tables {
        marks,
        drawn_fits,
        turned_fits,
        near,
    } = tables;
    let a = fill_open(drawn, drawn_fits, near, chain, width, l, false, from, n);
    let b = fill_open(turned, turned_fits, near, chain, width, l, true, from, n);
    check_marks::move_on(
        marks,
        drawn_fits,
        turned_fits,
        drawn,
        turned,
        chain,
        width,
        h.base,
        h.low,
        h.end,
    );
    let low = check_marks::trim_low(marks, h.low, h.end + 1);
    let end = check_marks::trim_high(marks, low, h.end + 1);
    Held {
        base: h.base + a.unwrap_or(0).max(b.unwrap_or(0)),
        low,
        end,
    }
}

// Whether the mark of the place `have` is there.
#[tactic(auto, unfolding(crate::specs::Chains::ended_at))]
fn at_end(marks: &[u8; MOST_LINES], h: Held, have: usize) -> bool
    requires { h.end ≤ most_lines }
    ensures { result ≡ ended_at marks.now h have }
{
    h.base
        .checked_sub(have)
        .is_some_and(|j| h.low <= j && j < h.end && marks[j] != 0)
}

// The numbers of a line.
pub fn line_of<'a>(
    coordinates: &'a [u64],
    width: usize,
    firsts: &[u32; MOST_LINES],
    counts: &[u32],
    y: usize,
) -> &'a [u64]
    requires { LineThere width coordinates.now firsts.now counts.now y }
    ensures { result.now ≡ line_at width coordinates.now firsts.now counts.now y }
{
    let a = firsts[y] as usize * width;
    let b = a + counts[y] as usize * width;
    &coordinates[a..b]
}

// Whether a choice of directions exists for the lines that are listed, which laid end to end are the chain.
pub fn a_choice(
    tables: &mut Tables,
    coordinates: &[u64],
    width: usize,
    firsts: &[u32; MOST_LINES],
    counts: &[u32],
    listed: &[u32],
    chain: &[u64],
    m: Meeting,
) -> bool
    requires { LinesListed width coordinates.now firsts.now counts.now listed.now chain.now }
    ensures { ChainDecided m width coordinates.now firsts.now counts.now
        listed.now chain.now result }
{
    let mut p = line_of(coordinates, width, firsts, counts, listed[0] as usize);
    let mut h = begin(&mut tables.marks, chain, width, p);
    for y in &listed[1..] {
        if h.low == h.end {
            return false;
        }
        let l = line_of(coordinates, width, firsts, counts, *y as usize);
        h = advance(tables, chain, width, p, l, h, m);
        p = l;
    }
    at_end(&tables.marks, h, chain.len() / width)
}
