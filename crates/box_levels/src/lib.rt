// The boxes of chains: the extent of a chain's coordinates, and above the chains' boxes, level by level, those of pairs. Boxes are lent as the bits of
// their numbers; in between they are numbers, of which none is a NaN.
#![tactic(auto)]

ghost use Rattle.std.specs.Prelude.{◌≡◌, ℕ, ◌+◌, ◌*◌, ◌/◌, ◌≤◌, ◌<◌, length, drop};
ghost use Rattle.rules.specs.Plane.{point, points, reads};
ghost use Rattle.rules.specs.Boxes.{spot as spot_of_lem, empty, box_of, four, in_pairs, stacked, box_numbers, box_at, box_size};
ghost use Rattle.rules.specs.Calls.{written};
ghost use Rattle.point_slices.specs.Holds.{HoldsFrom};
ghost use Rattle.box_laws.specs.Sound.{Number, BoxSound};
ghost use Rattle.box_laws.specs.Rows.{row};
ghost use Rattle.box_levels.specs.Extents.{lower, higher, joined, boxed_of, Real, Boxed};
ghost use Rattle.box_levels.specs.Lying.{Lying, FourAt, Raisable};

use rules::BOX;

// The bits of the infinities.
const INFINITE: u64 = 0x7FF0_0000_0000_0000;

const MINUS_INFINITE: u64 = 0xFFF0_0000_0000_0000;

// How many points are taken at a time.
const TAKEN: usize = 4;

// A box as numbers.
#[derive(Clone, Copy)]
pub struct Extent {
    pub least_x: f64,
    pub least_y: f64,
    pub greatest_x: f64,
    pub greatest_y: f64,
}

// The lesser of two numbers, and of equal ones the first.
fn lesser(a: f64, b: f64) -> f64
    ensures { result ≡ lower a b }
{
    if b < a { b } else { a }
}

// The greater of two numbers, and of equal ones the first.
fn greater(a: f64, b: f64) -> f64
    ensures { result ≡ higher a b }
{
    if a < b { b } else { a }
}

// The extent of two.
fn around(a: Extent, b: Extent) -> Extent
    ensures { result ≡ joined a b }
{
    Extent {
        least_x: lesser(a.least_x, b.least_x),
        least_y: lesser(a.least_y, b.least_y),
        greatest_x: greater(a.greatest_x, b.greatest_x),
        greatest_y: greater(a.greatest_y, b.greatest_y),
    }
}

// The extent of the point x, y.
fn spot(x: u64, y: u64) -> Extent
    requires { Number x × Number y }
    ensures { Boxed result (spot_of_lem (point x y)) }
{
    let a = f64::from_bits(x);
    let b = f64::from_bits(y);
    Extent {
        least_x: a,
        least_y: b,
        greatest_x: a,
        greatest_y: b,
    }
}

// The extent of no points.
fn nothing() -> Extent
    ensures { Boxed result empty }
{
    let top = f64::from_bits(INFINITE);
    let bottom = f64::from_bits(MINUS_INFINITE);
    Extent {
        least_x: top,
        least_y: top,
        greatest_x: bottom,
        greatest_y: bottom,
    }
}

// The extent of the four points from the i-th number on. Two pairs at once, so that no comparison waits for all before it.
fn of_four(part: &[u64], width: usize, i: usize) -> Extent
    requires { FourAt width part.now i }
    ensures { Boxed result (box_of (reads width 4 (drop i part.now))) }
{
    let j = i + width;
    let k = j + width;
    let l = k + width;
    around(
        around(spot(part[i], part[i + 1]), spot(part[j], part[j + 1])),
        around(spot(part[k], part[k + 1]), spot(part[l], part[l + 1])),
    )
}

// The extent of points of a width, one by one.
fn of_few(part: &[u64], width: usize) -> Extent
    requires { Lying width part.now }
    ensures { Boxed result (box_of (points width part.now)) }
{
    let mut all = nothing();
    let mut i: usize = 0;
    // No chunks: they divide the length by the width, and a line of two points then takes twice as long.
    while i < part.len() {
        all = around(all, spot(part[i], part[i + 1]));
        i += width;
    }
    all
}

// The extent of points of a width, four at a time. The last four are taken once more where they don't begin behind a four: a point that was taken
// already changes nothing.
pub fn extent_of(part: &[u64], width: usize) -> Extent
    requires { Lying width part.now }
    ensures { Boxed result (box_of (points width part.now)) }
{
    let n = part.len();
    if n < width * TAKEN {
        return of_few(part, width);
    }
    let last = n - width * TAKEN;
    let mut all = of_four(part, width, 0);
    let mut i = width * TAKEN;
    // No chunks, for the same reason.
    while i < last {
        all = around(all, of_four(part, width, i));
        i += width * TAKEN;
    }
    around(all, of_four(part, width, last))
}

// Box j as numbers.
fn extent_at(boxes: &[u64], j: usize) -> Extent
    requires { (j * box_size + box_size ≤ length boxes.now) × BoxSound (box_at boxes.now j) }
    ensures { Boxed result (box_at boxes.now j) }
{
    let at = j * BOX;
    Extent {
        least_x: f64::from_bits(boxes[at]),
        least_y: f64::from_bits(boxes[at + 1]),
        greatest_x: f64::from_bits(boxes[at + 2]),
        greatest_y: f64::from_bits(boxes[at + 3]),
    }
}

// An extent as box j.
pub fn put(boxes: &mut [u64], j: usize, e: Extent)
    requires { (j * box_size + box_size ≤ length boxes.old) × Real e }
    ensures { HoldsFrom boxes.new boxes.old (j * box_size) box_size (four (boxed_of e)) }
{
    let at = j * BOX;
    boxes[at] = f64::to_bits(e.least_x);
    boxes[at + 1] = f64::to_bits(e.least_y);
    boxes[at + 2] = f64::to_bits(e.greatest_x);
    boxes[at + 3] = f64::to_bits(e.greatest_y);
}

// Above a level of n boxes that begins with box `at`, and right behind it, the boxes of its pairs, an odd last one alone.
fn raise(boxes: &mut [u64], at: usize, n: usize)
    requires { ((at + n + (n + 1) / 2) * box_size ≤ length boxes.old) × ((i : ℕ) → i < n → BoxSound (box_at boxes.old (at + i))) }
    ensures { HoldsFrom boxes.new boxes.old ((at + n) * box_size) ((n + 1) / 2 * box_size)
        (box_numbers (in_pairs (row boxes.old at n))) }
{
    let pairs = n / 2;
    for i in 0..pairs {
        let e = around(
            extent_at(boxes, at + i * 2),
            extent_at(boxes, at + i * 2 + 1),
        );
        put(boxes, at + n + i, e);
    }
    if pairs * 2 < n {
        let e = extent_at(boxes, at + pairs * 2);
        put(boxes, at + n + pairs, e);
    }
}

// Above the first k boxes, level by level, those of pairs, up to one for all.
pub fn raise_all(boxes: &mut [u64], k: usize)
    requires { Raisable boxes.old k }
    ensures { boxes.new ≡ written (box_numbers (stacked (row boxes.old 0 k))) boxes.old }
{
    let mut at: usize = 0;
    let mut n = k;
    // Each level has half as many boxes: no index is counted.
    while 1 < n {
        raise(boxes, at, n);
        at += n;
        n = (n + 1) / 2;
    }
}
