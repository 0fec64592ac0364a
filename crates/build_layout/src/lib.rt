// The answer of an accepted call: the pieces that its rounds leave, and behind them the lines that pass through, as table, members, marks and listing.
#![tactic(auto)]

ghost use Rattle.std.specs.Prelude.{◌+◌, ◌*◌, ◌^◌, ◌++◌};
ghost use Rattle.std.proofs.Math.Seq.{slice};
ghost use Rattle.rules.specs.Layout.{table as table_of, laid_out, lent};
ghost use Rattle.rules.specs.Refusals.{record_size};
ghost use Rattle.point_slices.specs.Holds.{HoldsFrom};
ghost use Rattle.build_layout.specs.Laying.{Narrow, PiecesLayable, ChainLayable, Chained, Rest, passing_of, Rested, Layable, Outputs};

use chain_pieces::{LISTING, MARKS, MEMBERS};
use rules::{LentLines, PIECE, RECORD};

// The k words of w from `from` on, as u32, in `out` from `at` on.
pub fn lay_words(w: &[u64], from: usize, k: usize, out: &mut [u32], at: usize)
    requires { Narrow w.now from k (2 ^ 32) out.old at }
    ensures { HoldsFrom out.new out.old at k (slice from (from + k) w.now) }
{
    for i in 0..k {
        out[at + i] = w[from + i] as u32;
    }
}

// The k words of w from `from` on, as u8.
pub fn lay_marks(w: &[u64], from: usize, k: usize, out: &mut [u8])
    requires { Narrow w.now from k (2 ^ 8) out.old 0 }
    ensures { HoldsFrom out.new out.old 0 k (slice from (from + k) w.now) }
{
    for i in 0..k {
        out[i] = w[from + i] as u8;
    }
}

// The p pieces at the front of w as the first p chains of the table: the words of each piece's record, and whether its coordinates are a loop.
fn lay_pieces<'a>(
    w: &[u64],
    p: usize,
    width: usize,
    coordinates: &'a [u64],
    copies: &'a [u64],
    table: &mut [u32],
)
    requires { PiecesLayable width w.now p coordinates.now copies.now table.old }
    ensures { (y : PiecesLayable width w.now p coordinates.now copies.now table.old)
        → HoldsFrom table.new table.old 0 (p * record_size) (table_of y.counts 0 0 y.ps) }
{
    for q in 0..p {
        lay_words(w, q * PIECE, PIECE, table, q * RECORD);
        let part = chain_pieces::coordinates_of(w, q * PIECE, width, coordinates, copies);
        table[q * RECORD + PIECE] = point_numbers::loop_mark(part, width);
    }
}

// Line k as chain number `chain`, behind m members: its record, its member, its mark and its place in the listing.
fn lay_line(
    k: usize,
    first: u32,
    count: u32,
    closed: u32,
    chain: usize,
    m: usize,
    table: &mut [u32],
    members: &mut [u32],
    marks: &mut [u8],
    listing: &mut [u32],
)
    requires { ChainLayable k chain m table.old members.old marks.old listing.old }
    ensures { Chained k first count closed chain m
        table.new table.old
        members.new members.old
        marks.new marks.old
        listing.new listing.old }
{
    let at = chain * RECORD;
    table[at] = m as u32;
    table[at + 1] = 1;
    table[at + 2] = 0;
    table[at + 3] = first;
    table[at + 4] = count;
    table[at + 5] = closed;
    members[m] = k as u32;
    marks[m] = 0;
    listing[m] = k as u32;
}

// The lines that pass through, behind j chains and m members. Returns how many chains there are then.
fn lay_rest(
    lines: &LentLines,
    width: usize,
    j: usize,
    m: usize,
    table: &mut [u32],
    members: &mut [u32],
    marks: &mut [u8],
    listing: &mut [u32],
) -> usize
    requires { Rest width lines.now.coordinates.now lines.now.counts.now lines.now.kinds.now j m table.old members.old marks.old listing.old }
    ensures { (y : Rest width lines.now.coordinates.now lines.now.counts.now lines.now.kinds.now j m
        table.old members.old marks.old listing.old)
        → Rested lines.now.counts.now j m
        (passing_of width (lent lines.now.coordinates.now lines.now.counts.now y.groups lines.now.kinds.now))
        table.new table.old
        members.new members.old
        marks.new marks.old
        listing.new listing.old result }
{
    let mut r = 0;
    let mut first: u32 = 0;
    for (k, count) in lines.counts.iter().enumerate() {
        if !build_lines::is_plain(*count, lines.kinds[k]) {
            let from = first as usize * width;
            let to = from + *count as usize * width;
            let closed = point_numbers::loop_mark(&lines.coordinates[from..to], width);
            lay_line(
                k,
                first,
                *count,
                closed,
                j + r,
                m + r,
                table,
                members,
                marks,
                listing,
            );
            r += 1;
        }
        first += *count;
    }
    j + r
}

// The p pieces that the rounds leave, with l members in all, stand at the front of w, and what they copy in `copies`. Writes them and the lines that pass
// through, and returns how many chains there are.
pub fn lay_out(
    w: &[u64],
    n: usize,
    p: usize,
    l: usize,
    width: usize,
    lines: &LentLines,
    copies: &[u64],
    table: &mut [u32],
    members: &mut [u32],
    marks: &mut [u8],
    listing: &mut [u32],
) -> usize
    requires { Layable width w.now n p l lines.now.coordinates.now copies.now lines.now.counts.now lines.now.kinds.now table.old members.old marks.old listing.old }
    ensures { (y : Layable width w.now n p l
        lines.now.coordinates.now copies.now lines.now.counts.now lines.now.kinds.now
        table.old members.old marks.old listing.old)
        → Outputs (laid_out width lines.now.counts.now
        (y.ps ++ passing_of width (lent lines.now.coordinates.now lines.now.counts.now y.groups lines.now.kinds.now)))
        table.new table.old
        members.new members.old
        marks.new marks.old
        listing.new listing.old result }
{
    lay_pieces(w, p, width, lines.coordinates, copies, table);
    lay_words(w, n * MEMBERS, l, members, 0);
    lay_marks(w, n * MARKS, l, marks);
    lay_words(w, n * LISTING, l, listing, 0);
    lay_rest(lines, width, p, l, table, members, marks, listing)
}
