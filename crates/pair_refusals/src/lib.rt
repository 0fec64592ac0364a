// The refusals of pairing, in the order of checking.
#![tactic(auto)]

ghost use Rattle.std.specs.Prelude.{◌≡◌, not, ◌&&◌, ◌||◌, ◌*◌, ◌≤◌, ◌<◌, eqb, ltb, length, take};
ghost use Rattle.std.specs.Float.Ieee.Scale.{finite};
ghost use Rattle.rules.specs.Answers.{found};
ghost use Rattle.rules.specs.Lists.{count};
ghost use Rattle.rules.specs.Refusals.{most_ends, end_room, more_than_twice, any_wild};
ghost use Rattle.pair_refusals.specs.Linked.{bucket_of, LinkedChain};
ghost use Rattle.pair_refusals.specs.Ladder.{pair_refusal_by};

use rules::{END_ROOM, Ends, MOST_ENDS, Refusal};

// Below so many pieces each is compared with all before it.
const FEW: usize = 80;

// Whether the marks are not as many as the ends, or the directions' numbers not twice as many.
fn tables_differ(d: usize, present: usize, directions: usize) -> bool
    requires { d ≤ most_ends }
    ensures { result ≡ not (eqb present d) || not (eqb directions (d * 2)) }
{
    present != d || directions != d * 2
}

// Whether a room is shorter than d ends ask for.
fn room_short(d: usize, pairs: usize, workspace: usize) -> bool
    requires { d ≤ most_ends }
    ensures { result ≡ ltb pairs d || ltb workspace (d * end_room) }
{
    pairs < d || workspace < d * END_ROOM
}

// How often p stands among some pieces.
fn times_among(pieces: &[u32], p: u32) -> usize
    ensures { result ≡ count p pieces.now }
{
    let mut c: usize = 0;
    for q in pieces {
        c += (p == *q) as usize;
    }
    c
}

// Whether a piece stands more than twice, by comparing each with all before it.
fn thrice_few(pieces: &[u32]) -> bool
    ensures { result ≡ more_than_twice pieces.now pieces.now }
{
    for (i, p) in pieces.iter().enumerate() {
        if 1 < times_among(&pieces[..i], *p) {
            return true;
        }
    }
    false
}

// The bucket of a piece, one of 8,192.
fn bucket(p: u32) -> usize
    ensures { (result ≡ bucket_of p) × (result < 8192) }
{
    let m = p as u64 * 2654435769;
    (m % 4294967296 / 524288) as usize
}

// How often p stands among the first `from` pieces, of which the last is in p's bucket: those of the bucket are gone through.
fn times_linked(pieces: &[u32], next: &[u16; 8192], from: u16, p: u32) -> usize
    requires { LinkedChain pieces.now next.now from p }
    ensures { result ≡ count p (take from pieces.now) }
{
    let mut c: usize = 0;
    let mut k = from as usize;
    while 0 < k {
        if pieces[k - 1] == p {
            c += 1;
        }
        k = next[k - 1] as usize;
    }
    c
}

// Whether a piece stands more than twice, by comparing each with those before it in its bucket.
fn thrice_many(pieces: &[u32]) -> bool
    requires { length pieces.now ≤ most_ends }
    ensures { result ≡ more_than_twice pieces.now pieces.now }
{
    let mut last = [0u16; 8192];
    let mut next = [0u16; 8192];
    for (i, p) in pieces.iter().enumerate() {
        let b = bucket(*p);
        let from = last[b];
        if 1 < times_linked(pieces, &next, from, *p) {
            return true;
        }
        next[i] = from;
        last[b] = i as u16 + 1;
    }
    false
}

// Whether a piece stands more than twice.
fn more_than_twice(pieces: &[u32]) -> bool
    requires { length pieces.now ≤ most_ends }
    ensures { result ≡ more_than_twice pieces.now pieces.now }
{
    if pieces.len() < FEW {
        thrice_few(pieces)
    } else {
        thrice_many(pieces)
    }
}

// Whether an end is present with a direction that isn't finite.
fn wild(mark: u8, x: f64, y: f64) -> bool
    ensures { result ≡ eqb mark 1 && not (finite x && finite y) }
{
    mark == 1 && !(float_order::is_finite(x) && float_order::is_finite(y))
}

// Whether a present direction isn't finite.
fn any_wild(present: &[u8], directions: &[f64]) -> bool
    requires { (length present.now ≤ most_ends) × (length directions.now ≡ length present.now * 2) }
    ensures { result ≡ any_wild present.now directions.now }
{
    for (e, mark) in present.iter().enumerate() {
        if wild(*mark, directions[e * 2], directions[e * 2 + 1]) {
            return true;
        }
    }
    false
}

// The first refusal that applies; of the two rooms only the lengths are asked. `alone` is the indexed route, called on its own.
pub fn pair_refusal(
    alone: bool,
    ends: &Ends,
    limit: f64,
    pairs: usize,
    workspace: usize,
) -> Result<(), Refusal>
    ensures { found result ≡ pair_refusal_by alone ends.now.present.now ends.now.directions.now ends.now.pieces.now limit pairs workspace }
{
    let d = ends.pieces.len();
    if MOST_ENDS < d {
        return Err(Refusal::TooMany);
    }
    if tables_differ(d, ends.present.len(), ends.directions.len()) {
        return Err(Refusal::TablesDiffer);
    }
    if build_refusals::any_above_one(ends.present) {
        return Err(Refusal::MarkAboveOne);
    }
    if build_refusals::limit_bad(limit) {
        return Err(Refusal::BadLimit);
    }
    if room_short(d, pairs, workspace) {
        return Err(Refusal::RoomTooShort);
    }
    if more_than_twice(ends.pieces) {
        return Err(Refusal::PieceTooOften);
    }
    if alone && any_wild(ends.present, ends.directions) {
        return Err(Refusal::NotFinite);
    }
    Ok(())
}
