// The window question: which chains' boxes, and all boxes above them, meet a window.
#![tactic(auto)]

ghost use Rattle.std.specs.Prelude.{◌≡◌, ◌*◌, ◌-◌, ◌≤◌, ◌<◌, ◌^◌, length};
ghost use Rattle.rules.specs.Answers.{answered};
ghost use Rattle.rules.specs.Plane.{float};
ghost use Rattle.rules.specs.Windows.{overlap as overlap_of, shown as ShownOf, window_bad, in_window, boxes_as, Windowed};
ghost use Rattle.point_slices.specs.Holds.{Holds};
ghost use Rattle.box_window.specs.Bounds.{AtLeast, AtMost, Sided};
ghost use Rattle.box_window.specs.Levels.{Leveled, highest as highest_of};

use rules::{Answer, BOX, BOX_ROOM, BOX_ROOM_BESIDE, Refusal, Window};

// The bits of zero below zero, and of the infinity above it. Bits up to the infinity's are those of numbers from zero on, and in order as the numbers are.
const SIGN: u64 = 0x8000_0000_0000_0000;

const INFINITE: u64 = 0x7FF0_0000_0000_0000;

// How many chains a u32 can name.
const NAMES: usize = 4294967296;

// Whether low to high and from to to, along x or along y, overlap or touch.
fn overlap(low: u64, high: u64, from: f64, to: f64) -> bool
    ensures { result ≡ overlap_of (float low) (float high) from to }
{
    let a = float_bits::of_bits(low);
    if a <= to {
        let b = float_bits::of_bits(high);
        from <= b && a <= b
    } else {
        false
    }
}

// The first bits, of numbers from zero on, that stand for at least x.
fn first(x: f64) -> u64
    ensures { AtLeast x result }
{
    float_order::key(x).saturating_sub(SIGN)
}

// The bits behind the last ones, of numbers from zero on, that stand for at most x.
fn past(x: f64) -> u64
    ensures { AtMost x result }
{
    float_order::low_key(x).saturating_sub(SIGN - 1)
}

// A window's bounds among the bits of numbers from zero on: the first within its least bounds, and those behind the last within its greatest.
#[derive(Clone, Copy)]
pub struct Sides {
    first_x: u64,
    first_y: u64,
    past_x: u64,
    past_y: u64,
}

fn sides_of(w: Window) -> Sides
    ensures { Sided w result }
{
    Sides {
        first_x: first(w.least_x),
        first_y: first(w.least_y),
        past_x: past(w.greatest_x),
        past_y: past(w.greatest_y),
    }
}

// Whether low to high and from to to overlap or touch, by comparisons of bits where both are those of numbers from zero on.
fn touch(low: u64, high: u64, from: f64, to: f64, first: u64, past: u64) -> bool
    requires { AtLeast from first × AtMost to past }
    ensures { result ≡ overlap_of (float low) (float high) from to }
{
    if high <= INFINITE {
        if low < past {
            first <= high && low <= high
        } else {
            INFINITE < low && overlap(low, high, from, to)
        }
    } else {
        overlap(low, high, from, to)
    }
}

// Whether box j meets the window. A box that isn't wholly lent is not looked at.
fn shown(boxes: &[u64], w: Window, s: Sides, j: usize) -> bool
    requires { Sided w s }
    ensures { result ≡ ShownOf w boxes.now j }
{
    if boxes.len() / BOX <= j {
        return true;
    }
    let at = j * BOX;
    touch(
        boxes[at],
        boxes[at + 2],
        w.least_x,
        w.greatest_x,
        s.first_x,
        s.past_x,
    ) && touch(
        boxes[at + 1],
        boxes[at + 3],
        w.least_y,
        w.greatest_y,
        s.first_y,
        s.past_y,
    )
}

// A box among the levels: the level that it is of, and which of that level's it is.
#[derive(Clone, Copy)]
pub struct Place {
    level: usize,
    j: usize,
}

// Where each level of k chains' boxes begins, and where the last one ends, into `starts`. Returns the last level, which has at most one box.
fn starts_of(k: usize, starts: &mut [usize]) -> usize
    requires { (k ≤ 2 ^ 32) × (length starts.old ≡ 34) }
    ensures { Leveled k starts.new result }
{
    let mut n = k;
    let mut level: usize = 0;
    let mut at: usize = 0;
    starts[0] = 0;
    // Each level has half as many boxes: no index is counted.
    while 1 < n {
        at += n;
        level += 1;
        starts[level] = at;
        n = (n + 1) / 2;
    }
    starts[level + 1] = at + n;
    level
}

// Of the boxes that begin where box j of a level does, the one of the highest level up to `top`.
fn highest(top: usize, level: usize, j: usize) -> Place
    requires { (level ≤ top) × (0 < j) }
    ensures { result ≡ highest_of (top - level) level j }
{
    let up = (top - level).min(j.trailing_zeros() as usize);
    Place {
        level: level + up,
        j: j >> up,
    }
}

// The chains in the window, ascending, into `found`. Returns how many there are.
// A box that meets the window is followed by the first of the two below it, and any other by the highest that begins where it ends.
fn walk(
    boxes: &[u64],
    w: Window,
    s: Sides,
    k: usize,
    starts: &[usize],
    top: usize,
    found: &mut [u32],
) -> usize
    requires { Leveled k starts.now top × (k ≤ length found.old) × (k ≤ 2 ^ 32) × Sided w s }
    ensures { Holds found.new found.old result (in_window w boxes.now k) }
{
    let mut have: usize = 0;
    let mut level = top;
    let mut j: usize = 0;
    // A walk down and up the levels: no index is counted.
    while starts[level] + j < starts[level + 1] {
        if shown(boxes, w, s, starts[level] + j) {
            if 0 < level {
                level -= 1;
                j *= 2;
                continue;
            }
            found[have] = j as u32;
            have += 1;
        }
        let next = highest(top, level, j + 1);
        level = next.level;
        j = next.j;
    }
    have
}

// The same, after it is known where the levels begin.
fn list(boxes: &[u64], w: Window, k: usize, found: &mut [u32]) -> usize
    requires { (k ≤ length found.old) × (k ≤ 2 ^ 32) }
    ensures { Holds found.new found.old result (in_window w boxes.now k) }
{
    let mut starts: [usize; 34] = [0; 34];
    let top = starts_of(k, &mut starts[..]);
    walk(boxes, w, sides_of(w), k, &starts[..], top, found)
}

// Whether the window has a NaN, or a lower bound above its upper one.
fn bad(w: Window) -> bool
    ensures { result ≡ window_bad w }
{
    !(w.least_x <= w.greatest_x && w.least_y <= w.greatest_y)
}

// What lies in the window: the chains are listed in `found`, and the answer is their number. Refused with 18 or 7.
pub fn chains_in(boxes: &[u64], k: usize, w: Window, found: &mut [u32]) -> Answer
    ensures { Windowed (boxes_as boxes.now k w found.old) (answered result) found.new }
{
    if bad(w) {
        return Err(Refusal::BadWindow);
    }
    if boxes.len() < BOX_ROOM_BESIDE
        || (boxes.len() - BOX_ROOM_BESIDE) / BOX_ROOM < k
        || found.len() < k
        || NAMES < k
    {
        return Err(Refusal::RoomTooShort);
    }
    Ok(list(boxes, w, k, found) as u64)
}
