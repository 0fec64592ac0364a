// Lent pieces as the pieces that go into a round, and pieces that come out of a round as a call leaves them.
#![tactic(auto)]

ghost use Rattle.std.specs.Prelude.{◌≡◌, ℕ, true, false, ◌+◌, ◌*◌, ◌≤◌, length};
ghost use Rattle.std.specs.List.{AllZip};
ghost use Rattle.std.specs.Option.{MatchOption};
ghost use Rattle.rules.specs.Refusals.{piece_size};
ghost use Rattle.point_slices.specs.Holds.{HoldsFrom};
ghost use Rattle.lent_taking.specs.Taking.{Takable, Taken, Took, PieceTakable, PieceTook, Converted};
ghost use Rattle.lent_taking.specs.Row.{row_end, in_row};
ghost use Rattle.lent_taking.specs.Leaving.{Leavable, PiecesLeft};

use chain_pieces::{
    LISTING, MARKS, MEMBERS, Record, TAKEN, TAKEN_LISTING, TAKEN_MARKS, TAKEN_MEMBERS,
};
use lent_laws::Pieces;
use rules::PIECE;

// Numbers as words, from `at` on.
fn put<T: Copy + Into<u64>>(w: &mut [u64], at: usize, numbers: &[T])
    requires { at + length numbers.now ≤ length w.old }
    ensures { Converted T.converts numbers.now w.new w.old at }
{
    for (i, number) in numbers.iter().enumerate() {
        w[at + i] = (*number).into();
    }
}

// The piece of record q, behind m members: its record, which names its members where they stand then and its coordinates where they are, its members, its
// marks and its listing. Returns how many members it has.
fn take_piece(w: &mut [u64], n: usize, m: usize, pieces: &Pieces, q: usize) -> usize
    requires { PieceTakable w.old n q m pieces.now.records.now pieces.now.members.now pieces.now.marks.now pieces.now.listing.now }
    ensures { PieceTook w.new w.old n q m pieces.now.records.now pieces.now.members.now pieces.now.marks.now pieces.now.listing.now result }
{
    let at = q * PIECE;
    let from = pieces.records[at] as usize;
    let count = pieces.records[at + 1] as usize;
    let end = from + count;
    let record = Record {
        member: m as u64,
        members: count as u64,
        source: pieces.records[at + 2] as u64,
        point: pieces.records[at + 3] as u64,
        points: pieces.records[at + 4] as u64,
    };
    record.put(w, n * TAKEN + at);
    put(w, n * TAKEN_MEMBERS + m, &pieces.members[from..end]);
    put(w, n * TAKEN_MARKS + m, &pieces.marks[from..end]);
    put(w, n * TAKEN_LISTING + m, &pieces.listing[from..end]);
    count
}

// The pieces that a call lends, one by one, into the block of those that go into a round. Returns how many members they have in all.
fn take_each(w: &mut [u64], n: usize, pieces: &Pieces) -> usize
    requires { Takable w.old n pieces.now }
    ensures { Taken w.new w.old n pieces.now result }
{
    let mut m: usize = 0;
    for q in 0..pieces.number as usize {
        m += take_piece(w, n, m, pieces, q);
    }
    m
}

// Where the members of the last of k pieces end, if those of each begin where those of the piece before it end, and those of the first at 0.
fn row_end(records: &[u32], k: usize) -> Option<usize>
    requires { k * piece_size ≤ length records.now }
    ensures { MatchOption result (in_row records.now k ≡ false) (λ m. (in_row records.now k ≡ true) × (m ≡ row_end records.now k)) }
{
    let mut end: usize = 0;
    for q in 0..k {
        if records[q * PIECE] as usize != end {
            return None;
        }
        end += records[q * PIECE + 1] as usize;
    }
    Some(end)
}

// The pieces that a call lends, whose members are in a row up to m: their records, members, marks and listing as they are.
fn take_row(w: &mut [u64], n: usize, pieces: &Pieces, m: usize)
    requires takable { Takable w.old n pieces.now }
    requires row { in_row pieces.now.records.now pieces.now.number ≡ true }
    requires end { m ≡ row_end pieces.now.records.now pieces.now.number }
    ensures { Taken w.new w.old n pieces.now m }
{
    let k = pieces.number as usize;
    put(w, n * TAKEN, &pieces.records[..k * PIECE]);
    put(w, n * TAKEN_MEMBERS, &pieces.members[..m]);
    put(w, n * TAKEN_MARKS, &pieces.marks[..m]);
    put(w, n * TAKEN_LISTING, &pieces.listing[..m]);
}

// The pieces that a call lends, into the block of those that go into a round. Returns how many members they have in all.
pub fn take_pieces(w: &mut [u64], n: usize, pieces: &Pieces) -> usize
    requires { Takable w.old n pieces.now }
    ensures { Taken w.new w.old n pieces.now result }
{
    match row_end(pieces.records, pieces.number as usize) {
        Some(m) => {
            take_row(w, n, pieces, m);
            m
        }
        None => take_each(w, n, pieces),
    }
}

// The p pieces at the front of w, with m members in all, as a call leaves them.
pub fn leave_pieces(
    w: &[u64],
    n: usize,
    p: usize,
    m: usize,
    pieces: &mut [u32],
    members: &mut [u32],
    marks: &mut [u8],
    listing: &mut [u32],
)
    requires { Leavable w.now n p m pieces.old members.old marks.old listing.old }
    ensures { (y : Leavable w.now n p m pieces.old members.old marks.old listing.old)
        → PiecesLeft y.counts y.small.ps
        pieces.new pieces.old
        members.new members.old
        marks.new marks.old
        listing.new listing.old }
{
    build_layout::lay_words(w, 0, p * PIECE, pieces, 0);
    build_layout::lay_words(w, n * MEMBERS, m, members, 0);
    build_layout::lay_marks(w, n * MARKS, m, marks);
    build_layout::lay_words(w, n * LISTING, m, listing, 0);
}
