// Leaves that write lent slices: runs of points laid one behind another, copies, fills and zeros.
// A point is `width` numbers in their 64 bits: x, y and its extras.
#![tactic(auto)]

ghost use Rattle.std.specs.Prelude.{◌≡◌, true, false, [], ◌∷◌, reverse, ◌+◌, ◌≤◌, ◌<◌, length, take, drop, replicate, fold, bit_or};
ghost use Rattle.std.proofs.Math.Seq.{slice};
ghost use Rattle.rules.specs.Calls.{cleared};
ghost use Rattle.rules.specs.Plane.{point};
ghost use Rattle.point_numbers.specs.Width.{point_at, Whole};
ghost use Rattle.point_slices.specs.Holds.{Holds, HoldsFrom, Blanks};
ghost use Rattle.point_slices.specs.Run.{laid, walked, Near, Pushed};

use float_bits::SIGN;

// From so many numbers on a room is more than the nearest cache, and beyond so many more than the next one.
const NEAR: usize = 8192;

const FAR: usize = 262144;

// Points of two numbers and points of more have loops of their own: loops for any width took 1.6 times the instructions with heights
// (docs/landings/25-quicker-leaves.md). Forward and backward stay two: they differ in where they begin, in the sign of the step and in the test for the end.
// The step is a point's numbers: `chunks_exact` divides by it, and of `rchunks_exact` no clause tells what it yields.

// The point x, y behind the first `have` numbers, unless it is equal to the last one there. Returns how many numbers there are.
fn push_two(rest: &mut [u64], have: usize, x: u64, y: u64) -> usize
    requires { have + 2 ≤ length rest.old }
    ensures { Holds rest.new rest.old result (laid 2 (take have rest.old) (point x y ∷ [])) }
{
    if 2 <= have && point_numbers::equal(rest[have - 2], rest[have - 1], x, y) {
        return have;
    }
    rest[have] = x;
    rest[have + 1] = y;
    have + 2
}

// As `push_two`, where the last point's x is `last` but for its sign: a point whose x has other bits is not equal to it, and no number is read.
fn next_two(rest: &mut [u64], have: usize, last: u64, x: u64, y: u64) -> usize
    requires { (have + 2 ≤ length rest.old) × Near 2 rest.old have last }
    ensures { Holds rest.new rest.old result (laid 2 (take have rest.old) (point x y ∷ []))
        × Near 2 rest.new result x }
{
    if x % SIGN == last % SIGN {
        return push_two(rest, have, x, y);
    }
    rest[have] = x;
    rest[have + 1] = y;
    have + 2
}

// Each point of `src`, which have no extras, behind the first `have` numbers, in turn.
fn forward_two(rest: &mut [u64], have: usize, src: &[u64]) -> usize
    requires { have + length src.now ≤ length rest.old }
    ensures { Holds rest.new rest.old result (laid 2 (take have rest.old) (walked 2 false src.now)) }
{
    if src.len() < 2 {
        return have;
    }
    let mut last = src[0];
    let mut w = push_two(rest, have, last, src[1]);
    let mut i: usize = 2;
    while i + 1 < src.len() {
        let x = src[i];
        w = next_two(rest, w, last, x, src[i + 1]);
        last = x;
        i += 2;
    }
    w
}

// Each point of `src`, which have no extras, behind the first `have` numbers, the last point first.
fn backward_two(rest: &mut [u64], have: usize, src: &[u64]) -> usize
    requires { have + length src.now ≤ length rest.old }
    ensures { Holds rest.new rest.old result (laid 2 (take have rest.old) (walked 2 true src.now)) }
{
    let mut k = src.len() / 2;
    if k == 0 {
        return have;
    }
    k -= 1;
    let mut last = src[k + k];
    let mut w = push_two(rest, have, last, src[k + k + 1]);
    while 0 < k {
        k -= 1;
        let x = src[k + k];
        w = next_two(rest, w, last, x, src[k + k + 1]);
        last = x;
    }
    w
}

// The point at j of `src`, which has extras, from `at` on. One or two of them are stored without a loop.
fn put_high(rest: &mut [u64], at: usize, width: usize, src: &[u64], j: usize)
    requires { (3 ≤ width) × (at + width ≤ length rest.old) × (j + width ≤ length src.now) }
    ensures { HoldsFrom rest.new rest.old at width (take width (drop j src.now)) }
{
    rest[at] = src[j];
    rest[at + 1] = src[j + 1];
    rest[at + 2] = src[j + 2];
    if width == 3 {
        return;
    }
    rest[at + 3] = src[j + 3];
    if width == 4 {
        return;
    }
    copy_into(rest, at + 4, &src[j + 4..j + width]);
}

// The point at j of `src`, which has extras, behind the first `have` numbers, unless it is equal to the last one there, whose x is `last` but for its
// sign: a point whose x has other bits is not equal to it. Returns how many numbers there are.
fn next_high(rest: &mut [u64], have: usize, width: usize, last: u64, src: &[u64], j: usize) -> usize
    requires { (3 ≤ width) × (width ≤ have) × (have + width ≤ length rest.old) × (j + width ≤ length src.now)
        × Near width rest.old have last }
    ensures { Pushed width rest.new rest.old have result (point_at width src.now j) }
{
    if src[j] % SIGN == last % SIGN {
        let at = have - width;
        if point_numbers::equal(rest[at], rest[at + 1], src[j], src[j + 1]) {
            return have;
        }
    }
    put_high(rest, have, width, src, j);
    have + width
}

// As `next_high`, where there may be no last point.
fn push_high(rest: &mut [u64], have: usize, width: usize, src: &[u64], j: usize) -> usize
    requires { (3 ≤ width) × (have + width ≤ length rest.old) × (j + width ≤ length src.now) }
    ensures { Pushed width rest.new rest.old have result (point_at width src.now j) }
{
    if width <= have {
        let last = rest[have - width];
        return next_high(rest, have, width, last, src, j);
    }
    put_high(rest, have, width, src, j);
    have + width
}

// Each point of `src`, which have extras, behind the first `have` numbers, in turn.
fn forward_high(rest: &mut [u64], have: usize, width: usize, src: &[u64]) -> usize
    requires { (3 ≤ width) × Whole width src.now × (have + length src.now ≤ length rest.old) }
    ensures { Holds rest.new rest.old result (laid width (take have rest.old) (walked width false src.now)) }
{
    if src.len() < width {
        return have;
    }
    let mut last = src[0];
    let mut h = push_high(rest, have, width, src, 0);
    let mut i = width;
    while i < src.len() {
        let x = src[i];
        h = next_high(rest, h, width, last, src, i);
        last = x;
        i += width;
    }
    h
}

// Each point of `src`, which have extras, behind the first `have` numbers, the last point first.
fn backward_high(rest: &mut [u64], have: usize, width: usize, src: &[u64]) -> usize
    requires { (3 ≤ width) × Whole width src.now × (have + length src.now ≤ length rest.old) }
    ensures { Holds rest.new rest.old result (laid width (take have rest.old) (walked width true src.now)) }
{
    if src.len() < width {
        return have;
    }
    let mut i = src.len() - width;
    let mut last = src[i];
    let mut h = push_high(rest, have, width, src, i);
    while 0 < i {
        i -= width;
        let x = src[i];
        h = next_high(rest, h, width, last, src, i);
        last = x;
    }
    h
}

// A run of points behind the first `have` numbers of the rest of a merged slice, in its own direction or turned. A point equal to the
// last written is dropped, with its extras. Returns how many numbers there are. Points of two numbers have loops of their own.
pub fn append_run(rest: &mut [u64], have: usize, width: usize, src: &[u64], turned: bool) -> usize
    requires { (2 ≤ width) × Whole width src.now × (have + length src.now ≤ length rest.old) }
    ensures { Holds rest.new rest.old result (laid width (take have rest.old) (walked width turned src.now)) }
{
    match (width == 2, turned) {
        (true, true) => backward_two(rest, have, src),
        (true, false) => forward_two(rest, have, src),
        (false, true) => backward_high(rest, have, width, src),
        (false, false) => forward_high(rest, have, width, src),
    }
}

// `src` into `dst` from `at` on.
pub fn copy_into(dst: &mut [u64], at: usize, src: &[u64])
    requires { at + length src.now ≤ length dst.old }
    ensures { HoldsFrom dst.new dst.old at (length src.now) src.now }
{
    for (i, n) in src.iter().enumerate() {
        dst[at + i] = *n;
    }
}

// The n numbers from `from` on, again from `at` on, which lies before them.
pub fn copy_down(w: &mut [u64], from: usize, at: usize, n: usize)
    requires { (at + n ≤ from) × (from + n ≤ length w.old) }
    ensures { HoldsFrom w.new w.old at n (slice from (from + n) w.old) }
{
    let (front, back) = w.split_at_mut(from);
    copy_into(front, at, &back[..n]);
}

// The n numbers from `from` on, the last first, from `at` on, which lies before them.
pub fn copy_back(w: &mut [u64], from: usize, at: usize, n: usize)
    requires { (at + n ≤ from) × (from + n ≤ length w.old) }
    ensures { HoldsFrom w.new w.old at n (reverse (slice from (from + n) w.old)) }
{
    for i in 0..n {
        w[at + i] = w[from + (n - 1 - i)];
    }
}

// v, n times from `at` on.
pub fn fill_from(w: &mut [u64], at: usize, n: usize, v: u64)
    requires { at + n ≤ length w.old }
    ensures { HoldsFrom w.new w.old at n (replicate n v) }
{
    w[at..at + n].fill(v);
}

// What some numbers make together, bit by bit.
fn together(part: &[u64]) -> u64
    ensures { result ≡ fold bit_or 0 part.now }
{
    part.iter().fold(0, |any, x| any | *x)
}

// Whether the 32 numbers from i on are zero.
fn blank(w: &[u64], i: usize) -> bool
    requires { i + 32 ≤ length w.now }
    ensures { Blanks w.now i 32 result }
{
    together(&w[i..i + 32]) == 0
}

// Zero in the 32 numbers from i on. Where they are, nothing is written.
fn wipe(w: &mut [u64], i: usize)
    requires { i + 32 ≤ length w.old }
    ensures { HoldsFrom w.new w.old i 32 (replicate 32 0) }
{
    if !blank(w, i) {
        fill_from(w, i, 32, 0);
    }
}

// Zero in the first n numbers, but for fewer than 32 at the end. Returns how many are zero.
fn wipe_all(w: &mut [u64], n: usize) -> usize
    requires { n ≤ length w.old }
    ensures { (result ≤ n) × (n < result + 32) × HoldsFrom w.new w.old 0 result (replicate result 0) }
{
    let many = n / 32;
    for k in 0..many {
        wipe(w, k * 32);
    }
    many * 32
}

// Zero in the first n numbers; beyond them as before. A room that is read faster than it is written, and has few numbers that are not zero, is read.
pub fn clear(w: &mut [u64], n: usize)
    requires { n ≤ length w.old }
    ensures { w.new ≡ cleared n w.old }
{
    if n < NEAR || FAR < n {
        fill_from(w, 0, n, 0);
        return;
    }
    let i = wipe_all(w, n);
    fill_from(w, i, n - i, 0);
}
