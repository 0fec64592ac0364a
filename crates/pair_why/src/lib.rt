// Why wasn't this bend joined? The pairs are selected by the chosen route, which has the plain one's contract, and looked at where they were written.
#![tactic(auto)]

ghost use Rattle.std.specs.Prelude.{◌≡◌};
ghost use Rattle.rules.specs.Answers.{answered};
ghost use Rattle.rules.specs.Lent.{ends_lent};
ghost use Rattle.rules.specs.Reasons.{no_ends, reason_number, Why};
ghost use Rattle.pair_why.specs.Looking.{way_at, meets_at, first_meeting, joins_at, MarkedEnd, Questioned, reason_here};

use pair_calls::Chosen;
use rules::{Answer, Direction, Ends, Reason, Refusal};

// Whether i or j isn't below d, or they are equal.
fn no_ends(d: usize, i: u32, j: u32) -> bool
    ensures { result ≡ no_ends d i j }
{
    d <= i as usize || d <= j as usize || i == j
}

// Whether one of the ends x and y is i or j.
fn meets(x: u32, y: u32, i: u32, j: u32) -> bool
    ensures { result ≡ meets_at i j x y }
{
    (x == i || x == j) || (y == i || y == j)
}

// The place of the first of the listed pairs that has end i or end j; how many pairs there are where none has, as the book's `first_place` has it.
fn meeting(listed: &[u32], i: u32, j: u32) -> usize
    ensures { result ≡ first_meeting i j listed.now }
{
    let many = listed.len() / 2;
    for p in 0..many {
        if meets(listed[p * 2], listed[p * 2 + 1], i, j) {
            return p;
        }
    }
    many
}

// Whether there is a pair p, and it is that of i and j.
fn joins(listed: &[u32], p: usize, i: u32, j: u32) -> bool
    ensures { result ≡ joins_at i j p listed.now }
{
    if listed.len() / 2 <= p {
        return false;
    }
    let (x, y) = (listed[p * 2], listed[p * 2 + 1]);
    (x == i && y == j) || (x == j && y == i)
}

// The direction of end e.
fn direction_of(present: &[u8], directions: &[f64], e: usize) -> Direction
    requires { MarkedEnd present.now directions.now e }
    ensures { result ≡ way_at present.now directions.now e }
{
    (present[e] == 1).then_some((directions[e * 2], directions[e * 2 + 1]))
}

// The reason of two ends, where the pairs selected of all are listed.
fn reason(ends: &Ends, limit: f64, listed: &[u32], i: u32, j: u32) -> Reason
    requires { Questioned ends.now.present.now ends.now.directions.now ends.now.pieces.now limit listed.now i j }
    ensures { result ≡ reason_here ends.now.present.now ends.now.directions.now ends.now.pieces.now limit i j }
{
    let p = meeting(listed, i, j);
    if joins(listed, p, i, j) {
        return Reason::Selected;
    }
    if ends.pieces[i as usize] == ends.pieces[j as usize] {
        return Reason::SamePiece;
    }
    let Some((ax, ay)) = direction_of(ends.present, ends.directions, i as usize) else {
        return Reason::AbsentDirection;
    };
    let Some((bx, by)) = direction_of(ends.present, ends.directions, j as usize) else {
        return Reason::AbsentDirection;
    };
    if float_order::measure(ax, ay, bx, by) <= limit {
        return Reason::Blocked(p as u32);
    }
    Reason::NotQualifying
}

// The number of a reason.
fn number(reason: Reason) -> u64
    ensures { result ≡ reason_number reason }
{
    match reason {
        Reason::Selected => 0,
        Reason::SamePiece => 1,
        Reason::AbsentDirection => 2,
        Reason::NotQualifying => 3,
        Reason::Blocked(p) => 4 + p as u64,
    }
}

// The number of the reason why ends i and j are joined or not; the pairs are written as by the plain route.
pub fn why(
    ends: &Ends,
    limit: f64,
    i: u32,
    j: u32,
    pairs: &mut [u32],
    workspace: &mut [u64],
) -> Answer
    ensures { Why (ends_lent ends.now limit pairs.old workspace.old) i j (answered result) pairs.new workspace.new }
{
    if no_ends(ends.pieces.len(), i, j) {
        pair_refusals::pair_refusal(false, ends, limit, pairs.len(), workspace.len())?;
        return Err(Refusal::NoTwoEnds);
    }
    let n = pair_calls::pairs::<Chosen>(ends, limit, pairs, workspace)?;
    let told = reason(ends, limit, &pairs[..n as usize * 2], i, j);
    Ok(number(told))
}
