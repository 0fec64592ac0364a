// The owners: of the free ends of one direction the first two have a slot in the heap each. Ends are ordered by angle, so that those of one direction stand
// together, and near directions near each other.
#![tactic(auto)]

ghost use Rattle.std.specs.Prelude.{◌≡◌, ℕ, cond, ◌<◌, ◌≤◌, IsSome};
ghost use Rattle.pair_ends.specs.Ends.{EndsRoom};
ghost use Rattle.pair_owners.specs.Tables.{order_at, alike_at, group_of, Together, TablesSorted, Grouped, Slotted, Groups, place_or, Due};
ghost use Rattle.pair_owners.specs.Angles.{size_of, angle_toward, angle_at, Keys};

use pair_ends::{CURSORS, GROUPS, MARKS, ORDER, SLOTS, SORT_KEYS};

// How many ends of one direction are owners.
const OWNERS: usize = 2;

// The greater of x and -x. `Keys` speaks of this number, which f64::abs is not where x is -0.
fn size(x: f64) -> f64
    ensures { result ≡ size_of x }
{
    if x < 0.0 { 0.0 - x } else { x }
}

// Where a direction stands on the way round: half a key, so that it is below that of an absent one.
fn angle(x: f64, y: f64) -> u64
    ensures { result ≡ angle_toward x y }
{
    let t = x / (size(x) + size(y));
    float_order::key(if y < 0.0 { 3.0 + t } else { 1.0 - t }) / 2
}

// The angle of end e; where it has no direction, one behind all others.
fn angle_of(w: &[u64], d: usize, e: usize) -> u64
    requires { EndsRoom w.now d × (e < d) }
    ensures { result ≡ angle_at w.now d e }
{
    pair_ends::direction_at(w, d, e).map_or(float_order::GREATEST, |(x, y)| angle(x, y))
}

// The keys that the ends are sorted by: the angle, and then the direction's bits.
pub fn keys(w: &mut [u64], d: usize)
    requires { EndsRoom w.old d }
    ensures { Keys w.old w.new d }
{
    for e in 0..d {
        let k = d * SORT_KEYS + e * 3;
        let x = w[d + e * 2];
        let y = w[d + e * 2 + 1];
        w[k] = angle_of(w, d, e);
        w[k + 1] = x;
        w[k + 2] = y;
    }
}

// Whether the ends a and e, the lower first, have one direction, bit for bit.
fn alike(w: &[u64], d: usize, a: usize, e: usize) -> bool
    requires { EndsRoom w.now d × (a < d) × (e < d) }
    ensures { result ≡ alike_at w.now d a e }
{
    w[a] == 1
        && w[e] == 1
        && w[d + a * 2] == w[d + e * 2]
        && w[d + a * 2 + 1] == w[d + e * 2 + 1]
        && a < e
}

// The group of the end at position p, which is the position of the group's first end.
fn group(w: &[u64], d: usize, p: usize) -> u64
    requires { TablesSorted w.now d × (p < d) }
    ensures { (result ≡ group_of w.now d p) × Grouped w.now d p result }
{
    if p == 0 {
        return 0;
    }
    let q = p - 1;
    let a = w[d * ORDER + q] as usize;
    let e = w[d * ORDER + p] as usize;
    if alike(w, d, a, e) {
        return w[d * GROUPS + a];
    }
    p as u64
}

// Whether the end at position p, of group g, is one of the first owners: then it has the slot m.
fn owner(w: &[u64], d: usize, p: usize, g: u64) -> bool
    requires { TablesSorted w.now d × (p < d) × (g ≤ p) }
    ensures { (m : ℕ) → Slotted w.now d p g m (cond result m d) }
{
    let e = w[d * ORDER + p] as usize;
    w[e] == 1 && p < g as usize + OWNERS
}

// The groups, their cursors, and the slots of the first owners; how many these are. In the table, which has a word for each end (fixed memory), d is no slot.
pub fn groups(w: &mut [u64], d: usize) -> usize
    requires { TablesSorted w.old d × Together w.old d (order_at w.old d) }
    ensures { Groups w.old w.new d result }
{
    let mut m = 0;
    for p in 0..d {
        let g = group(w, d, p);
        let owns = owner(w, d, p, g);
        let e = w[d * ORDER + p] as usize;
        w[d * GROUPS + e] = g;
        w[d * CURSORS + p] = (p + OWNERS) as u64;
        w[d * SLOTS + e] = if owns { m } else { d } as u64;
        m += owns as usize;
    }
    m
}

// The first position from `from` on with a free end of group g, where only taken ends stand before it.
pub fn due(w: &[u64], d: usize, g: u64, from: usize) -> Option<usize>
    requires { TablesSorted w.now d }
    ensures due { Due w.now d g from (place_or d result) }
    ensures below { IsSome result → place_or d result < d }
{
    for c in from..d {
        let e = w[d * ORDER + c] as usize;
        if w[d * GROUPS + e] != g {
            return None;
        }
        if w[d * MARKS + e] == 0 {
            return Some(c);
        }
    }
    None
}
