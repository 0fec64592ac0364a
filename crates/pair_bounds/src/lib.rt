// The bounds of a node's directions: the least box around them, with the first of their indexes.
#![tactic(auto)]

ghost use Rattle.std.specs.Prelude.{◌≡◌};
ghost use Rattle.pair_bounds.specs.Box.{corner as corner_at, gap as gap_at, half_square, least, greatest, round_way, empty_of, union_of, corner_of, gap_of, lower_of};

// The index of no end, which is after all others. It is no Option: a node keeps its first index in a word (fixed memory), and the least of two words is the first.
pub const GONE: u64 = 0xFFFF_FFFF_FFFF_FFFF;

// The greatest square of a length in the disk, 1 + 2^-28: that of a direction of length 1, its parts rounded, is below it. And 1 + 2^-27, which is above it by
// more than all that is rounded.
const RIM: f64 = 1.0000000037252902984619140625;

const BEYOND: f64 = 1.000000007450580596923828125;

// The lesser of two numbers. Of two zeros the first, which f64::min and f64::max leave open.
fn lesser(a: f64, b: f64) -> f64
    ensures { result ≡ least a b }
{
    if b < a { b } else { a }
}

fn greater(a: f64, b: f64) -> f64
    ensures { result ≡ greatest a b }
{
    if a < b { b } else { a }
}

// The end of low..high whose product with a is the least.
fn corner(a: f64, low: f64, high: f64) -> f64
    ensures { result ≡ corner_at a low high }
{
    if a < 0.0 { high } else { low }
}

// What is least, in size, of a + z for z in low..high. It is no `clamp`, which asks that low is at most high: an empty box's is not.
fn gap(a: f64, low: f64, high: f64) -> f64
    ensures { result ≡ gap_at a low high }
{
    let u = low + a;
    if 0.0 < u {
        return u;
    }
    let v = high + a;
    if v < 0.0 { v } else { 0.0 }
}

// Half of g's square.
fn halved(g: f64) -> f64
    ensures { result ≡ half_square g }
{
    g * (g * 0.5)
}

// Whether a direction is in the unit disk, or hardly beyond it.
pub fn is_round(x: f64, y: f64) -> bool
    ensures { result ≡ round_way x y }
{
    x * x + y * y <= RIM
}

#[derive(Clone, Copy)]
pub struct Bounds {
    pub low_x: f64,
    pub low_y: f64,
    pub high_x: f64,
    pub high_y: f64,
    pub first: u64,
}

impl Bounds {
    // No direction: a union with it holds what the other holds. The greatest finite numbers stand in for infinities, so that every end is finite.
    pub fn empty() -> Bounds
        ensures { result ≡ empty_of }
    {
        Bounds {
            low_x: f64::MAX,
            low_y: f64::MAX,
            high_x: f64::MIN,
            high_y: f64::MIN,
            first: GONE,
        }
    }

    // The least box around both.
    pub fn union(a: Bounds, b: Bounds) -> Bounds
        ensures { result ≡ union_of a b }
    {
        Bounds {
            low_x: lesser(a.low_x, b.low_x),
            low_y: lesser(a.low_y, b.low_y),
            high_x: greater(a.high_x, b.high_x),
            high_y: greater(a.high_y, b.high_y),
            first: a.first.min(b.first),
        }
    }

    // The measure of (ax, ay) with a corner of the box: at most that with each direction in it.
    pub fn corner_measure(self, ax: f64, ay: f64) -> f64
        ensures { result ≡ corner_of self ax ay }
    {
        let x = corner(ax, self.low_x, self.high_x);
        let y = corner(ay, self.low_y, self.high_y);
        float_order::measure(ax, ay, x, y)
    }

    // The same where all are in the disk, by how far the box is from -(ax, ay). A box's corner may be as far beyond the circle as the box is wide; this is
    // beyond it by no more than the square of that.
    fn gap_measure(self, ax: f64, ay: f64) -> f64
        ensures { result ≡ gap_of self ax ay }
    {
        let x = halved(gap(ax, self.low_x, self.high_x));
        let y = halved(gap(ay, self.low_y, self.high_y));
        float_order::clamped(greater(x, y) - BEYOND)
    }

    // The greater of the two where all are in the disk, else the corner's. Where all directions have one x, the corner is one of them.
    pub fn lower_measure(self, round: bool, ax: f64, ay: f64) -> f64
        ensures { result ≡ lower_of round self ax ay }
    {
        let m = self.corner_measure(ax, ay);
        if round && self.low_x < self.high_x {
            return greater(m, self.gap_measure(ax, ay));
        }
        m
    }
}
