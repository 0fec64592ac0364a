// Where a line stands in a chain: at a place from which on the chain's points are the line's, laid with repeats dropped, by `==`. A place is how many of
// the chain's points stand before it.
#![tactic(auto)]

ghost use Rattle.std.specs.Prelude.{◌≡◌, ◌&&◌, cond, ◌+◌, ◌-◌, ◌*◌, ◌≤◌, ◌<◌, leb, eqb, length, unwrap_or};
ghost use Rattle.rules.specs.Plane.{point, points};
ghost use Rattle.rules.specs.Refusals.{most_lines};
ghost use Rattle.point_numbers.specs.Width.{Whole};
ghost use Rattle.check_places.specs.Places.{far, PlaceGround, number_stands, next_stands, whole, last_kept, met, Reached, alike_at, Stretched, Nearing, Anew, Ahead, Advanced, PlacesFilled};

use rules::MOST_LINES;

// How many of a line's points stand at a place of the chain, and the x and y of the first that doesn't, if there is one.
#[derive(Clone, Copy)]
pub struct Extent {
    pub points: usize,
    pub next: Option<(u64, u64)>,
}

// What is known of the places up to one: how many points stand there, `here`; the first place where as many as anywhere stand, `best`, with what is `reached`
// there; and the place `low` behind it whose points go farthest, up to `high`.
#[derive(Clone, Copy)]
struct Scan {
    here: usize,
    best: usize,
    reached: Extent,
    low: usize,
    high: usize,
}

// Whether the chain's point whose numbers begin at c is equal to x, y.
#[tactic(auto, unfolding(crate::specs::Places::number_stands))]
fn stands(chain: &[u64], c: usize, x: u64, y: u64) -> bool
    requires { c < length chain.now → c + 1 < length chain.now }
    ensures { result ≡ number_stands chain.now c (point x y) }
{
    c < chain.len() && point_numbers::equal(chain[c], chain[c + 1], x, y)
}

// Whether a point is equal to the last one that stands there, if there is one.
#[tactic(auto, unfolding(crate::specs::Places::met))]
fn repeats(kept: Option<(u64, u64)>, x: u64, y: u64) -> bool
    ensures { result ≡ met (last_kept kept) (point x y) }
{
    kept.is_some_and(|(a, b)| point_numbers::equal(a, b, x, y))
}

// Where a line's next point begins, in a direction, with so many numbers of other points left; the last of its points begins at `last`.
fn next_point(last: usize, left: usize, turned: bool) -> usize
    requires { left ≤ last }
    ensures { result ≡ cond turned left (last - left) }
{
    if turned { left } else { last - left }
}

// How many of a line's points stand at the place `at`, in a direction.
pub fn reach(chain: &[u64], width: usize, at: usize, line: &[u64], turned: bool) -> Extent
    requires { PlaceGround width chain.now line.now × (at ≤ far + far) }
    ensures { Reached width chain.now line.now turned at result }
{
    let last = line.len() - width;
    let mut c = at * width;
    let mut points: usize = 0;
    let mut kept = None;
    // A `for` with step_by asks twice a turn whether a point is left, and a check takes 6% longer.
    let mut left = line.len();
    while 0 < left {
        left -= width;
        let p = next_point(last, left, turned);
        let x = line[p];
        let y = line[p + 1];
        if repeats(kept, x, y) {
            continue;
        }
        if !stands(chain, c, x, y) {
            return Extent {
                points,
                next: Some((x, y)),
            };
        }
        points += 1;
        c += width;
        kept = Some((x, y));
    }
    Extent { points, next: None }
}

// From n on, how many of the `count` points at the place `best` stand at the place i too.
fn stretch(chain: &[u64], width: usize, i: usize, best: usize, n: usize, count: usize) -> usize
    requires { Stretched width chain.now i best n count }
    ensures { result ≡ alike_at (points width chain.now) best count i }
{
    for k in n..count {
        let b = (best + k) * width;
        if !stands(chain, (i + k) * width, chain[b], chain[b + 1]) {
            return k;
        }
    }
    count
}

// How many of the points at the best place stand at the place i too. The points from i up to `high` are those at the best place from i - low on: where fewer of
// them stand there, so many do here, and else all of them.
fn alike(near: &[u32; MOST_LINES], chain: &[u64], width: usize, s: Scan, i: usize) -> usize
    requires { Nearing width chain.now near.now s i }
    ensures { result ≡ alike_at (points width chain.now) s.best s.reached.points i }
{
    if s.high <= i {
        return stretch(chain, width, i, s.best, 0, s.reached.points);
    }
    let known = near[i - s.low] as usize;
    let all = s.high - i;
    if known < all {
        return known;
    }
    stretch(chain, width, i, s.best, all, s.reached.points)
}

// Whether the place i is better than the best: as many points stand there, and the next one does too.
#[tactic(auto, unfolding(crate::specs::Places::next_stands))]
fn better(chain: &[u64], width: usize, s: Scan, i: usize, n: usize) -> bool
    requires { (2 ≤ width) × (width ≤ 4) × Whole width chain.now × (i ≤ far + far) × (n ≤ far) }
    ensures { result ≡ leb s.reached.points n && next_stands s.reached.next chain.now ((i + n) * width) }
{
    s.reached.points <= n
        && s.reached
            .next
            .is_some_and(|(x, y)| stands(chain, (i + n) * width, x, y))
}

// The first place that is looked at, or one that is better than all before.
fn scan_first(chain: &[u64], width: usize, line: &[u64], turned: bool, i: usize) -> Scan
    requires { PlaceGround width chain.now line.now × (i ≤ far + far) }
    ensures { Anew width chain.now line.now turned result i }
{
    let reached = reach(chain, width, i, line, turned);
    Scan {
        here: reached.points,
        best: i,
        reached,
        low: i,
        high: i,
    }
}

// The next place.
fn scan_next(
    near: &mut [u32; MOST_LINES],
    chain: &[u64],
    width: usize,
    line: &[u64],
    turned: bool,
    s: Scan,
    i: usize,
) -> Scan
    requires { PlaceGround width chain.now line.now × (i ≤ far + far) × Ahead width chain.now line.now turned near.old s i }
    ensures { Advanced width chain.now line.now turned near.new s result i }
{
    let n = alike(near, chain, width, s, i);
    if better(chain, width, s, i, n) {
        return scan_first(chain, width, line, turned, i);
    }
    near[i - s.best] = n as u32;
    let mut next = Scan { here: n, ..s };
    if s.high < i + n {
        next.low = i;
        next.high = i + n;
    }
    next
}

// Whether the whole line stands at the place that was looked at last.
fn fit(s: Scan) -> bool
    ensures { result ≡ whole s.reached && eqb s.here s.reached.points }
{
    s.reached.next.is_none() && s.here == s.reached.points
}

// For each of n places from `from` on, whether the whole line stands there, in a direction. Returns how many points it has, laid alone, where it stands at one of
// them. The places and the points are looked at once.
pub fn fill(
    fits: &mut [bool; MOST_LINES],
    near: &mut [u32; MOST_LINES],
    chain: &[u64],
    width: usize,
    line: &[u64],
    turned: bool,
    from: usize,
    n: usize,
) -> Option<usize>
    requires { PlaceGround width chain.now line.now × (from ≤ far) × (0 < n) × (n ≤ most_lines) }
    ensures { PlacesFilled width chain.now line.now turned from n fits.new (unwrap_or result 0) }
{
    let mut s = scan_first(chain, width, line, turned, from);
    fits[0] = fit(s);
    for i in 1..n {
        s = scan_next(near, chain, width, line, turned, s, from + i);
        fits[i] = fit(s);
    }
    s.reached.next.is_none().then_some(s.reached.points)
}
