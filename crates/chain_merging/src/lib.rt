// From walks to the pieces that come out of a round: their records, members, marks and listing go into the block at the front of the workspace, and
// the coordinates of those that are no line alone into `merged`.
#![tactic(auto)]

ghost use Rattle.std.specs.Prelude.{◌≡◌, ◌+◌, ◌*◌, ◌≤◌, length, take};
ghost use mathlib.Core.List.{map, flat_map};
ghost use Rattle.std.proofs.Math.Option.{none};
ghost use Rattle.std.proofs.Math.Seq.{slice};
ghost use Rattle.rules.specs.Plane.{flat};
ghost use Rattle.rules.specs.Chaining.{lay, run, merge};
ghost use Rattle.point_slices.specs.Holds.{Holds, HoldsFrom};
ghost use Rattle.point_slices.specs.Run.{laid, walked};
ghost use Rattle.chain_pieces.specs.Held.{coordinates_at, Recorded};
ghost use Rattle.chain_merging.specs.Emit.{Counted, Mergeable, joined_of, Emittable, Emitted, turned_by, passed_by, Turnable, Listable, Members, PiecesListable, Listed, Walks, Tabled, Done};

use chain_pieces::{LISTING, MARKS, MEMBERS, Record};
use rules::PIECE;

// The coordinates of the piece whose record stands at p, behind the first `have` numbers of `rest`. Returns how many numbers there are.
fn append_piece<'a>(
    w: &[u64],
    p: usize,
    width: usize,
    input: &'a [u64],
    spare: &'a [u64],
    rest: &mut [u64],
    have: usize,
    turned: bool,
) -> usize
    requires { (2 ≤ width) × Recorded width w.now p input.now spare.now
        × (have + length (coordinates_at width w.now p input.now spare.now) ≤ length rest.old) }
    ensures { Holds rest.new rest.old result
        (laid width (take have rest.old)
        (walked width turned (coordinates_at width w.now p input.now spare.now))) }
{
    let c = chain_pieces::coordinates_of(w, p, width, input, spare);
    point_slices::append_run(rest, have, width, c, turned)
}

// The coordinates of a walk's pieces in walk direction, into `merged` from `at` on. Returns how many numbers there are.
fn append_walk<'a>(
    w: &[u64],
    old: usize,
    from: usize,
    to: usize,
    width: usize,
    input: &'a [u64],
    spare: &'a [u64],
    merged: &mut [u64],
    at: usize,
) -> usize
    requires { Mergeable width w.now old from to input.now spare.now merged.old at }
    ensures { (y : Mergeable width w.now old from to input.now spare.now merged.old at)
        → HoldsFrom merged.new merged.old at result
        (flat width (lay none (flat_map (run y.entered.rule y.entered.ps) (slice from to w.now)))) }
{
    let mut have: usize = 0;
    for e in &w[from..to] {
        let e = *e as usize;
        have = append_piece(
            w,
            old + e / 2 * PIECE,
            width,
            input,
            spare,
            &mut merged[at..],
            have,
            e % 2 == 1,
        );
    }
    have
}

// The coordinates of the piece of a walk, into `merged` from `at` on: those of one piece stay as they are. Returns how
// many numbers there are.
fn lay_walk<'a>(
    w: &[u64],
    old: usize,
    from: usize,
    to: usize,
    width: usize,
    input: &'a [u64],
    spare: &'a [u64],
    merged: &mut [u64],
    at: usize,
) -> usize
    requires { Mergeable width w.now old from to input.now spare.now merged.old at }
    ensures { (y : Mergeable width w.now old from to input.now spare.now merged.old at)
        → HoldsFrom merged.new merged.old at result (flat width (joined_of y.entered).points) }
{
    if to - from == 1 {
        let p = old + w[from] as usize / 2 * PIECE;
        let c = chain_pieces::coordinates_of(w, p, width, input, spare);
        point_slices::copy_into(merged, at, c);
        c.len()
    } else {
        append_walk(w, old, from, to, width, input, spare, merged, at)
    }
}

// How many members the pieces of a walk have.
fn count_members(w: &[u64], old: usize, from: usize, to: usize) -> usize
    requires { Counted w.now old from to }
    ensures { (y : Counted w.now old from to) → result ≡ length (joined_of y.entered).lines }
{
    let mut r: usize = 0;
    for e in &w[from..to] {
        r += Record::read(w, old + *e as usize / 2 * PIECE).members as usize;
    }
    r
}

// The piece of a walk, which has b members: its record at `at`, and its coordinates unless they are a line's own. m members and c points stand
// before. Returns how many points stand then.
fn emit_walk<'a>(
    w: &mut [u64],
    old: usize,
    from: usize,
    to: usize,
    width: usize,
    input: &'a [u64],
    spare: &'a [u64],
    merged: &mut [u64],
    at: usize,
    m: usize,
    b: usize,
    c: usize,
) -> usize
    requires { Emittable width w.old old from to input.now spare.now merged.old at b c }
    ensures { (y : Emittable width w.old old from to input.now spare.now merged.old at b c)
        → Emitted width w.new w.old merged.new merged.old y.laying.entered.counts
        (joined_of y.laying.entered) at m c result }
{
    if b == 1 {
        let own = Record::read(w, old + w[from] as usize / 2 * PIECE);
        let line = Record {
            member: m as u64,
            members: 1,
            source: 0,
            point: own.point,
            points: own.points,
        };
        line.put(w, at);
        return c;
    }
    let h = lay_walk(w, old, from, to, width, input, spare, merged, c * width);
    let points = h / width;
    let copy = Record {
        member: m as u64,
        members: b as u64,
        source: 1,
        point: c as u64,
        points: points as u64,
    };
    copy.put(w, at);
    c + points
}

// The records of r walks, and their coordinates.
fn emit_walks<'a>(
    w: &mut [u64],
    n: usize,
    old: usize,
    m: usize,
    entries: usize,
    lengths: usize,
    r: usize,
    width: usize,
    input: &'a [u64],
    spare: &'a [u64],
    merged: &mut [u64],
)
    requires { Walks width w.old n old m entries lengths r input.now spare.now merged.old }
    ensures { (y : Walks width w.old n old m entries lengths r input.now spare.now merged.old)
        → Tabled width w.new w.old n merged.new merged.old y.counts
        (map (merge y.rule y.ps) y.ws) }
{
    let mut from = entries;
    let mut members: usize = 0;
    let mut points: usize = 0;
    for j in 0..r {
        let to = from + w[lengths + j] as usize;
        let b = count_members(w, old, from, to);
        points = emit_walk(
            w,
            old,
            from,
            to,
            width,
            input,
            spare,
            merged,
            j * PIECE,
            members,
            b,
            points,
        );
        members += b;
        from = to;
    }
}

// The line of a piece of one: its member, its mark, turned once more where the piece is entered at end 1, and its place in the listing.
fn list_one(w: &mut [u64], n: usize, from: usize, at: usize, side: usize)
    requires { Listable w.old n from at 1 side }
    ensures { Members w.new w.old n from at 1 side }
{
    let line = w[from + n * MEMBERS];
    let mark = w[from + n * MARKS];
    let passed = w[from + n * LISTING];
    w[at + n * MEMBERS] = line;
    w[at + n * MARKS] = (mark + side as u64) % 2;
    w[at + n * LISTING] = passed;
}

// The two lines of a piece: members and marks in their order, and in the listing that one first which is passed first.
fn list_two(w: &mut [u64], n: usize, from: usize, at: usize, side: usize)
    requires { Listable w.old n from at 2 side }
    ensures { Members w.new w.old n from at 2 side }
{
    let first = w[from + n * MEMBERS];
    let second = w[from + n * MEMBERS + 1];
    let one = w[from + n * MARKS];
    let two = w[from + n * MARKS + 1];
    let ahead = w[from + n * LISTING + side];
    let behind = w[from + n * LISTING + (1 - side)];
    w[at + n * MEMBERS] = first;
    w[at + n * MEMBERS + 1] = second;
    w[at + n * MARKS] = (one + side as u64) % 2;
    w[at + n * MARKS + 1] = (two + side as u64) % 2;
    w[at + n * LISTING] = ahead;
    w[at + n * LISTING + 1] = behind;
}

// The marks of `count` lines, from `from` on, again from `at` on, which lies before them: turned once more where the side is 1.
fn turn_marks(w: &mut [u64], from: usize, at: usize, count: usize, side: usize)
    requires { Turnable w.old from at count side }
    ensures { HoldsFrom w.new w.old at count (turned_by side (slice from (from + count) w.old)) }
{
    for i in 0..count {
        w[at + i] = (w[from + i] + side as u64) % 2;
    }
}

// The listing of a piece of `count` lines, from `from` on, in the order in which they are passed, from `at` on, which lies before it.
fn pass_lines(w: &mut [u64], from: usize, at: usize, count: usize, side: usize)
    requires { (at + count ≤ from) × (from + count ≤ length w.old) }
    ensures { HoldsFrom w.new w.old at count (passed_by side (slice from (from + count) w.old)) }
{
    if side == 0 {
        point_slices::copy_down(w, from, at, count);
    } else {
        point_slices::copy_back(w, from, at, count);
    }
}

// The lines of one piece, `count` of them, from a block of pieces that went in into the block at the front: `from` and `at` say how far on in their blocks
// each of members, marks and listing stands. One line or two are listed without a loop.
fn list_members(w: &mut [u64], n: usize, from: usize, at: usize, count: usize, side: usize)
    requires { Listable w.old n from at count side }
    ensures { Members w.new w.old n from at count side }
{
    match count {
        1 => list_one(w, n, from, at, side),
        2 => list_two(w, n, from, at, side),
        _ => {
            point_slices::copy_down(w, from + n * MEMBERS, at + n * MEMBERS, count);
            turn_marks(w, from + n * MARKS, at + n * MARKS, count, side);
            pass_lines(w, from + n * LISTING, at + n * LISTING, count, side);
        }
    }
}

// The members of the pieces that are entered, piece by piece, their marks, and the lines in the order in which they are passed.
fn list_pieces(w: &mut [u64], n: usize, old: usize, entries: usize, m: usize)
    requires { PiecesListable w.old n old entries m }
    ensures { (y : PiecesListable w.old n old entries m)
        → Listed w.new w.old n (merge y.rule y.ps (slice entries (entries + m) w.old)) }
{
    let mut r: usize = 0;
    for k in 0..m {
        let e = w[entries + k] as usize;
        let piece = Record::read(w, old + e / 2 * PIECE);
        let count = piece.members as usize;
        list_members(w, n, old + piece.member as usize, r, count, e % 2);
        r += count;
    }
}

// The pieces of r walks with m entries in all. For n lines, the pieces that went in stand in the block at `old`.
pub fn emit_all<'a>(
    w: &mut [u64],
    n: usize,
    old: usize,
    m: usize,
    entries: usize,
    lengths: usize,
    r: usize,
    width: usize,
    input: &'a [u64],
    spare: &'a [u64],
    merged: &mut [u64],
)
    requires { Walks width w.old n old m entries lengths r input.now spare.now merged.old }
    ensures { (y : Walks width w.old n old m entries lengths r input.now spare.now merged.old)
        → Done width w.new w.old n input.now merged.new merged.old y.counts
        (map (merge y.rule y.ps) y.ws) }
{
    emit_walks(
        w, n, old, m, entries, lengths, r, width, input, spare, merged,
    );
    list_pieces(w, n, old, entries, m);
}
