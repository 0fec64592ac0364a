// Points of any width: the width of a type, equality, and loops; proofs/ has the laws of reading and writing points as numbers.
#![tactic(auto)]

ghost use Rattle.std.specs.Prelude.{◌≤◌, ◌≡◌};
ghost use Rattle.rules.specs.Types.{width_of};
ghost use Rattle.rules.specs.Lists.{one};
ghost use Rattle.rules.specs.Plane.{point, points, equal as EqualOf};
ghost use Rattle.rules.specs.Layout.{loop};

// How many numbers a coordinate of a type has: two, and the extras; 0 for a number that is no type, as the book's `width_of` has it.
pub fn width_of(wkb_type: u32) -> usize
    ensures { (result ≡ width_of wkb_type) × (result ≤ 4) }
{
    match wkb_type {
        2 => 2,
        1002 | 2002 => 3,
        3002 => 4,
        _ => 0,
    }
}

// Whether the points (ax, ay) and (bx, by) are equal by `==`: the zeros are one number, and a NaN equals nothing.
pub fn equal(ax: u64, ay: u64, bx: u64, by: u64) -> bool
    ensures { result ≡ EqualOf (point ax ay) (point bx by) }
{
    float_bits::same(ax, bx) && float_bits::same(ay, by)
}

// 1 if the points of `part`, of so many numbers each, are a loop, else 0: at least three, the first and the last with the same bits in x and y.
pub fn loop_mark(part: &[u64], width: usize) -> u32
    requires { 2 ≤ width }
    ensures { result ≡ one (loop (points width part.now)) }
{
    let count = part.len() / width;
    if count < 3 {
        return 0;
    }
    let last = (count - 1) * width;
    (part[0] == part[last] && part[1] == part[last + 1]) as u32
}
