// The direction of a piece at one of its ends, from the bits of its coordinates: x, y and the extras of each, which are not looked at.
#![tactic(auto)]

ghost use Rattle.std.specs.Prelude.{◌≡◌, reverse, ◌≤◌};
ghost use Rattle.rules.specs.Plane.{point, points, toward as toward_of, straight, direction_of};
ghost use Rattle.point_numbers.specs.Width.{Whole};
ghost use Rattle.point_direction.specs.Seen.{seen};

use float_bits;
use float_root;
use rules::Direction;

// The direction of a difference of two points: each part by the length, where that is above 0.
fn toward(dx: f64, dy: f64) -> Direction
    ensures { result ≡ toward_of dx dy }
{
    let length = float_root::root(dx * dx + dy * dy);
    if length > 0.0 {
        Some((dx / length, dy / length))
    } else {
        None
    }
}

// The direction from (px, py) to (qx, qy).
fn between(px: u64, py: u64, qx: u64, qy: u64) -> Direction
    ensures { result ≡ straight (point px py) (point qx qy) }
{
    toward(
        float_bits::of_bits(qx) - float_bits::of_bits(px),
        float_bits::of_bits(qy) - float_bits::of_bits(py),
    )
}

// The searches from either end stay two: they differ in where they begin, in the sign of the step and in the test for the end. The step is a point's
// numbers: `chunks_exact` divides by it, and of `rchunks_exact` no clause tells what it yields.

// From the first point, to the nearest later one that differs.
fn from_first(c: &[u64], width: usize) -> Direction
    requires { (2 ≤ width) × Whole width c.now }
    ensures { result ≡ direction_of (points width c.now) }
{
    if c.len() < width {
        return None;
    }
    let x = c[0];
    let y = c[1];
    let mut i = width;
    while i < c.len() {
        let a = c[i];
        let b = c[i + 1];
        if !point_numbers::equal(a, b, x, y) {
            return between(x, y, a, b);
        }
        i += width;
    }
    None
}

// From the last point, to the nearest earlier one that differs.
fn from_last(c: &[u64], width: usize) -> Direction
    requires { (2 ≤ width) × Whole width c.now }
    ensures { result ≡ direction_of (reverse (points width c.now)) }
{
    if c.len() < width {
        return None;
    }
    let mut i = c.len() - width;
    let x = c[i];
    let y = c[i + 1];
    while 0 < i {
        i -= width;
        let a = c[i];
        let b = c[i + 1];
        if !point_numbers::equal(a, b, x, y) {
            return between(x, y, a, b);
        }
    }
    None
}

// At a side of a piece of points of a width: 0 is its first point, and any other number its last.
pub fn piece_direction(c: &[u64], width: usize, side: u64) -> Direction
    requires { (2 ≤ width) × Whole width c.now }
    ensures { result ≡ direction_of (seen side (points width c.now)) }
{
    if side == 0 {
        from_first(c, width)
    } else {
        from_last(c, width)
    }
}
