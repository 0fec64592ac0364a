// The places of a chain that are still possible behind a line, as marks. A mark is a set of directions: 1 has the line as drawn, 2 has it turned, 3 has both.
#![tactic(auto)]

ghost use Rattle.std.specs.Prelude.{◌≡◌, ◌&&◌, cond, ℕ, ◌-◌, ◌≤◌, ◌<◌, length, get_or};
ghost use Rattle.rules.specs.Answers.{Exact, Cells};
ghost use Rattle.rules.specs.Cell.{cell};
ghost use Rattle.rules.specs.Plane.{point, points, same_int};
ghost use Rattle.rules.specs.Check.{one_key, meet as meet_at};
ghost use Rattle.rules.specs.Refusals.{most_lines};
ghost use Rattle.point_numbers.specs.Width.{Whole};
ghost use Rattle.check_laws.specs.Standing.{fresh_at, joint_at};
ghost use Rattle.check_marks.specs.Marks.{has as has_way, set_of, shared, open_to, LineMarked, mark_here, mark_before, goes_on, moved, Movable, TrimmedLow, TrimmedHigh};

use rules::{MOST_LINES, Meeting};

// ---- sets of directions

// Whether a set has a direction.
fn has(set: u8, turned: bool) -> bool
    ensures { result ≡ has_way turned set }
{
    if turned { set / 2 == 1 } else { set % 2 == 1 }
}

// The set of the directions that are told.
pub fn set_of(drawn: bool, turned: bool) -> u8
    ensures { result ≡ set_of drawn turned }
{
    u8::from(drawn) + u8::from(turned) * 2
}

// Whether both have a direction.
fn both_have(a: u8, b: u8, turned: bool) -> bool
    ensures { result ≡ has_way turned a && has_way turned b }
{
    has(a, turned) && has(b, turned)
}

// Whether two sets share a direction.
#[tactic(auto, unfolding(crate::specs::Marks::shared))]
fn shares(a: u8, b: u8) -> bool
    ensures { result ≡ shared a b }
{
    both_have(a, b, false) || both_have(a, b, true)
}

// ---- where lines meet

// Whether two numbers have one cell.
fn one_cell(tolerance: f64, origin: f64, a: u64, b: u64) -> bool
    ensures { result ≡ same_int (cell tolerance origin a) (cell tolerance origin b) }
{
    float_cell::cell_key(a, origin, tolerance) == float_cell::cell_key(b, origin, tolerance)
}

// Whether two points have.
#[tactic(auto, using(crate::proofs::Meets::cells_key))]
fn same_cell(m: Meeting, ax: u64, ay: u64, bx: u64, by: u64) -> bool
    ensures { result ≡ one_key (Cells m.tolerance m.origin_x m.origin_y) (point ax ay) (point bx by) }
{
    one_cell(m.tolerance, m.origin_x, ax, bx) && one_cell(m.tolerance, m.origin_y, ay, by)
}

// Whether two points have the same bits.
#[tactic(auto, using(crate::proofs::Meets::bits_key))]
fn same_bits(ax: u64, ay: u64, bx: u64, by: u64) -> bool
    ensures { result ≡ one_key Exact (point ax ay) (point bx by) }
{
    ax == bx && ay == by
}

// Whether two points meet: in the same bits or, with a tolerance, in the same cell.
fn meet(m: Meeting, ax: u64, ay: u64, bx: u64, by: u64) -> bool
    ensures { result ≡ meet_at m (point ax ay) (point bx by) }
{
    same_bits(ax, ay, bx, by) || 0.0 < m.tolerance && same_cell(m, ax, ay, bx, by)
}

// Where the first point of a line stands, or its last.
fn end_of(line: &[u64], width: usize, last: bool) -> usize
    requires { width ≤ length line.now }
    ensures { result ≡ cond last (length line.now - width) 0 }
{
    if last { line.len() - width } else { 0 }
}

// Whether the line p in one direction meets the line l in one.
fn joint(p: &[u64], d: bool, l: &[u64], e: bool, width: usize, m: Meeting) -> bool
    requires { LineMarked width p.now × LineMarked width l.now }
    ensures { result ≡ joint_at m (points width p.now) d (points width l.now) e }
{
    let a = end_of(p, width, !d);
    let b = end_of(l, width, e);
    meet(m, p[a], p[a + 1], l[b], l[b + 1])
}

// The directions of the line p from which the line l may be taken in one.
#[tactic(auto, unfolding(crate::specs::Marks::open_to))]
pub fn open_to(p: &[u64], l: &[u64], e: bool, width: usize, m: Meeting) -> u8
    requires { LineMarked width p.now × LineMarked width l.now }
    ensures { result ≡ open_to m (points width p.now) (points width l.now) e }
{
    let drawn = joint(p, false, l, e, width, m);
    let turned = joint(p, true, l, e, width, m);
    set_of(drawn, turned)
}

// ---- marks

// Whether a line that fits goes on from one of two marks, by the directions that it may be taken from: from the one before, or, where its first point doesn't
// repeat the chain's last, from the one here.
#[tactic(auto, unfolding(crate::specs::Marks::goes_on))]
fn goes_on(fit: bool, ways: u8, fresh: bool, here: u8, before: u8) -> bool
    ensures { result ≡ goes_on fit ways fresh here before }
{
    fit && (shares(ways, before) || fresh && shares(ways, here))
}

// The mark j, if it is before `end`.
#[tactic(auto, unfolding(crate::specs::Marks::mark_here))]
fn mark_here(marks: &[u8; MOST_LINES], end: usize, j: usize) -> u8
    requires { j < most_lines }
    ensures { result ≡ mark_here marks.now end j }
{
    if j < end { marks[j] } else { 0 }
}

// The mark before j, if it is not before `low`.
#[tactic(auto, unfolding(crate::specs::Marks::mark_before))]
fn mark_before(marks: &[u8; MOST_LINES], low: usize, j: usize) -> u8
    requires { j < most_lines }
    ensures { result ≡ mark_before marks.now low j }
{
    if low < j { marks[j - 1] } else { 0 }
}

// Whether the chain's point at a place is another than the one before it; the first has none before.
fn fresh_at(chain: &[u64], width: usize, i: usize) -> bool
    requires { (2 ≤ width) × (width ≤ 4) × Whole width chain.now × (i ≤ 4294967296) }
    ensures { result ≡ fresh_at (points width chain.now) i }
{
    let at = i * width;
    0 < i
        && at < chain.len()
        && !point_numbers::equal(
            chain[at - width],
            chain[at - width + 1],
            chain[at],
            chain[at + 1],
        )
}

// What a line makes of the marks from `low` to before `end`: the marks from `low` to `end`. The mark j is that of the place base - j; it stays where it is or moves
// on by one, and so the last comes first. `drawn` and `turned` are the directions from which the line may be taken as drawn and turned, and `drawn_fits` and
// `turned_fits` tell where it fits, from the place base - end on.
pub fn move_on(
    marks: &mut [u8; MOST_LINES],
    drawn_fits: &[bool; MOST_LINES],
    turned_fits: &[bool; MOST_LINES],
    drawn: u8,
    turned: u8,
    chain: &[u64],
    width: usize,
    base: usize,
    low: usize,
    end: usize,
)
    requires { Movable width chain.now base low end }
    ensures { (j : ℕ) → low ≤ j → j ≤ end → get_or marks.new j 0
        ≡ moved (points width chain.now) base low end drawn turned
        drawn_fits.now turned_fits.now marks.old j }
{
    for j in (low..end + 1).rev() {
        let here = mark_here(marks, end, j);
        let before = mark_before(marks, low, j);
        let fresh = fresh_at(chain, width, base - j);
        let as_drawn = goes_on(drawn_fits[end - j], drawn, fresh, here, before);
        let as_turned = goes_on(turned_fits[end - j], turned, fresh, here, before);
        marks[j] = set_of(as_drawn, as_turned);
    }
}

// The first mark from `low` on that is there, or `end`.
pub fn trim_low(marks: &[u8; MOST_LINES], low: usize, end: usize) -> usize
    requires { (low ≤ end) × (end ≤ most_lines) }
    ensures { TrimmedLow marks.now low end result }
{
    for i in low..end {
        if marks[i] != 0 {
            return i;
        }
    }
    end
}

// One more than the last mark before `end` that is there, or `low`.
pub fn trim_high(marks: &[u8; MOST_LINES], low: usize, end: usize) -> usize
    requires { (low ≤ end) × (end ≤ most_lines) }
    ensures { TrimmedHigh marks.now low end result }
{
    for i in (low..end).rev() {
        if marks[i] != 0 {
            return i + 1;
        }
    }
    low
}
