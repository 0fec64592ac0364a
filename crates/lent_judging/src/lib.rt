// Refusal 19: pieces that a call lends, judged with no workspace and with nothing stored. Lines are noted in a small table; a piece of one line is judged
// without a loop, and its coordinates are places because the input's are. The merged coordinates are looked at together, and piece by piece only where one is
// none.
#![tactic(auto)]

mod clean;

ghost use Rattle.std.specs.Prelude.{◌≡◌, ◌+◌, ◌*◌, ◌≤◌, ◌<◌, length};
ghost use Rattle.rules.specs.Refusals.{source_of, most_lines, piece_size};
ghost use Rattle.rules.specs.Pieces.{lent_bad};
ghost use Rattle.lent_laws.specs.Lent.{as_lines, as_pieces};
ghost use Rattle.lent_judging.specs.Judging.{LinesSized, record_of, Framed, FrameJudged, LinesPlaced, OneJudged, part, LinesLent, LinesJudged, points_bad, Judgeable, PieceJudged};
ghost use Rattle.lent_judging.specs.Front.{FrontClean};

use crate::clean::clean_front;
use lent_laws::Pieces;
use rules::{LentLines, MOST_LINES, PIECE};

// A piece's record: its first member, how many lines it has, whether its coordinates are merged ones (1) or of the input (0), the first of them, and how many
// they are.
#[derive(Clone, Copy)]
struct Record {
    first: u32,
    lines: u32,
    source: u32,
    point: u32,
    points: u32,
}

fn record_of(records: &[u32], q: usize) -> Record
    requires { q * piece_size + piece_size ≤ length records.now }
    ensures { result ≡ record_of records.now q }
{
    let at = q * PIECE;
    Record {
        first: records[at],
        lines: records[at + 1],
        source: records[at + 2],
        point: records[at + 3],
        points: records[at + 4],
    }
}

// How many numbers the coordinates have of which a piece names some.
fn named_numbers(lines: &LentLines, pieces: &Pieces, piece: Record) -> usize
    ensures { result ≡ length (source_of piece.source lines.now.coordinates.now pieces.now.merged.now) }
{
    if piece.source == 0 {
        lines.coordinates.len()
    } else {
        pieces.merged.len()
    }
}

// Whether a record names no line or no coordinate, or leaves its slices.
fn frame_bad(width: usize, lines: &LentLines, pieces: &Pieces, piece: Record) -> bool
    requires { width ≤ 4 }
    ensures { FrameJudged width (as_lines lines.now) (as_pieces pieces.now) piece result }
{
    let end = piece.first as usize + piece.lines as usize;
    let numbers = (piece.point as usize + piece.points as usize) * width;
    piece.lines == 0
        || piece.points == 0
        || pieces.members.len() < end
        || pieces.marks.len() < end
        || pieces.listing.len() < end
        || named_numbers(lines, pieces, piece) < numbers
}

// Whether the piece of one line is refused: the line isn't plain or was met, the listing names another, the mark is above 1, or it isn't at the line's own
// place with its own count in source 0. The line gets the mark 2.
fn one_bad(
    seen: &mut [u8; MOST_LINES],
    places: &[u32; MOST_LINES],
    lines: &LentLines,
    pieces: &Pieces,
    piece: Record,
) -> bool
    requires long { length seen.old ≡ most_lines }
    requires placed { LinesPlaced places.now (as_lines lines.now) }
    requires in_members { piece.first < length pieces.now.members.now }
    requires in_marks { piece.first < length pieces.now.marks.now }
    requires in_listing { piece.first < length pieces.now.listing.now }
    ensures { OneJudged seen.new seen.old (as_lines lines.now) (as_pieces pieces.now) piece result }
{
    let from = piece.first as usize;
    let line = pieces.members[from];
    if !lent_noting::is_fresh(seen, lines.counts, lines.kinds, line) {
        return true;
    }
    let y = line as usize;
    seen[y] = 2;
    pieces.listing[from] != line
        || 1 < pieces.marks[from]
        || piece.source != 0
        || piece.point != places[y]
        || piece.points != lines.counts[y]
}

// Whether a piece of more lines is refused by its lines: one isn't plain or was met, or has another group than the first; a mark is above 1; or the listing
// names another line. Each gets the mark 2.
fn lines_bad(seen: &mut [u8; MOST_LINES], lines: &LentLines, pieces: &Pieces, piece: Record) -> bool
    requires in_members { piece.first + piece.lines ≤ length pieces.now.members.now }
    requires in_marks { piece.first + piece.lines ≤ length pieces.now.marks.now }
    requires in_listing { piece.first + piece.lines ≤ length pieces.now.listing.now }
    requires lent { LinesLent seen.old lines.now.counts.now lines.now.groups.now lines.now.kinds.now
        (part piece pieces.now.members.now) (part piece pieces.now.marks.now) (part piece pieces.now.listing.now) }
    ensures { LinesJudged seen.new seen.old lines.now.counts.now lines.now.groups.now lines.now.kinds.now
        (part piece pieces.now.members.now) (part piece pieces.now.marks.now) (part piece pieces.now.listing.now) result }
{
    let from = piece.first as usize;
    let end = from + piece.lines as usize;
    let members = &pieces.members[from..end];
    let first = members[0] as usize;
    lines.groups.len() <= first
        || !lent_noting::note_members(
            seen,
            lines.counts,
            lines.groups,
            lines.kinds,
            lines.groups[first],
            members,
            &pieces.marks[from..end],
        )
        || !lent_noting::note_listing(seen, &pieces.listing[from..end])
}

// Whether a piece of more lines is refused by its coordinates: they aren't merged ones, or one is no place. The first `clean` merged ones are places.
fn points_bad(width: usize, merged: &[u64], clean: usize, piece: Record) -> bool
    requires { (2 ≤ width) × (width ≤ 4) × (piece.source ≡ 1 → (piece.point + piece.points) * width ≤ length merged.now) × FrontClean width merged.now clean }
    ensures { result ≡ points_bad width piece merged.now }
{
    let from = piece.point as usize;
    let end = from + piece.points as usize;
    piece.source != 1
        || clean < end && build_refusals::any_nowhere(&merged[from * width..end * width], width)
}

// Whether piece q is refused, by itself or beside the pieces before it, whose lines have their marks in `seen`; its own get theirs.
fn judge(
    seen: &mut [u8; MOST_LINES],
    places: &[u32; MOST_LINES],
    width: usize,
    lines: &LentLines,
    pieces: &Pieces,
    clean: usize,
    q: usize,
) -> bool
    requires judgeable { Judgeable width (as_lines lines.now) (as_pieces pieces.now) seen.old places.now q }
    requires front { FrontClean width pieces.now.merged.now clean }
    ensures { PieceJudged width (as_lines lines.now) (as_pieces pieces.now) seen.new q result }
{
    let piece = record_of(pieces.records, q);
    if frame_bad(width, lines, pieces, piece) {
        return true;
    }
    if piece.lines == 1 {
        return one_bad(seen, places, lines, pieces, piece);
    }
    lines_bad(seen, lines, pieces, piece) || points_bad(width, pieces.merged, clean, piece)
}

// Refusal 19: whether the pieces that a call lends are refused. The lines are such as their own refusals leave.
pub fn lent_bad(width: usize, lines: &LentLines, pieces: &Pieces) -> bool
    requires { LinesSized width (as_lines lines.now) }
    ensures { result ≡ lent_bad width (as_lines lines.now) (as_pieces pieces.now) }
{
    if pieces.records.len() as u64 / (PIECE as u64) < pieces.number {
        return true;
    }
    let mut seen = [0u8; MOST_LINES];
    let mut places = [0u32; MOST_LINES];
    let c = lent_noting::place_lines(&mut places, lines.counts) as usize;
    let number = pieces.number as usize;
    let clean = clean_front(width, pieces.records, number, pieces.merged);
    let mut sum: usize = 0;
    for q in 0..number {
        if judge(&mut seen, &places, width, lines, pieces, clean, q) {
            return true;
        }
        sum += pieces.records[q * PIECE + 4] as usize;
        if c < sum {
            return true;
        }
    }
    !lent_noting::all_noted(&seen, lines.counts, lines.kinds)
}
