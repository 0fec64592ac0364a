// The index of the free ends: a tree of bounds in a row of nodes, five words for each from `t` on, and the search for an end's partner.
#![tactic(auto)]

ghost use Rattle.std.specs.Prelude.{◌≡◌, ◌+◌, ◌*◌, ◌<◌, length, IsSome};
ghost use Rattle.pair_tree.specs.Places.{worth, gone};
ghost use Rattle.pair_ends.specs.Blocks.{note_from};
ghost use Rattle.pair_ends.specs.Ends.{EndsRoom, direction_at, piece_at};
ghost use Rattle.pair_index.specs.Nodes.{node_at, Has};
ghost use Rattle.pair_index.specs.Search.{pointed, settled_at, bound_of, round_at, pair_at, Searchable, IsBound, Finds};
ghost use Rattle.pair_index.specs.Index.{pair_of, Query, Answers};

use pair_bounds::{Bounds, GONE};
use pair_ends::NOTE;
use pair_tree::Place;

// A pair of ends with its key.
#[derive(Clone, Copy)]
pub struct Best {
    pub key: u64,
    pub i: usize,
    pub j: usize,
}

// Who asks: an end's direction and piece, of d ends, whose index begins at t.
#[derive(Clone, Copy)]
struct Asker {
    d: usize,
    t: usize,
    ax: f64,
    ay: f64,
    own: u64,
}

// At or before the pair of the asker with each end below node n; the place after all others where there is none.
// It is called at three places for each node, and a call is dear.
#[inline(always)]
fn reach(w: &[u64], a: &Asker, n: usize) -> Place
    requires { Has w.now a.now.t n × (a.now.d * note_from < length w.now) }
    ensures { worth result ≡ bound_of (round_at w.now a.now.d) a.now.ax a.now.ay (node_at w.now a.now.t n) }
{
    let b: Bounds = pair_tree::node(w, a.t, n);
    if b.first == GONE {
        return Place::none();
    }
    let round = w[a.d * NOTE] == 1;
    Place {
        key: float_order::low_key(b.lower_measure(round, a.ax, a.ay)),
        tie: b.first,
    }
}

// Whether all directions below node n are one, bit for bit, but for a zero's sign.
fn is_point(w: &[u64], t: usize, n: usize) -> bool
    requires { t + 5 * n + 4 < length w.now }
    ensures { result ≡ pointed w.now t n }
{
    let k = t + 5 * n;
    w[k] == w[k + 2] && w[k + 1] == w[k + 3]
}

// The place of the asker's pair with end e.
fn pair_with(w: &[u64], a: &Asker, e: u64) -> Place
    requires { EndsRoom w.now a.now.d × (e < a.now.d) }
    ensures { worth result ≡ pair_at (direction_at w.now a.now.d) (piece_at w.now a.now.d) a.now.ax a.now.ay a.now.own e }
{
    let x = e as usize;
    if pair_ends::piece_at(w, a.d, x) == a.own {
        return Place::none();
    }
    Place {
        key: pair_ends::pair_key(Some((a.ax, a.ay)), pair_ends::direction_at(w, a.d, x)),
        tie: e,
    }
}

// The pair with the first end below node n, where all directions there are one, so that it may be the first of all.
fn settled(w: &[u64], a: &Asker, n: usize, e: u64) -> Place
    requires { EndsRoom w.now a.now.d × (e < a.now.d) × (a.now.t + 5 * n + 4 < length w.now) }
    ensures { worth result ≡ settled_at w.now a.now.d a.now.t a.now.ax a.now.ay a.now.own n e }
{
    if is_point(w, a.t, n) {
        pair_with(w, a, e)
    } else {
        Place::none()
    }
}

// The first of the best so far and the pairs with the ends below node n, `height` steps above the leaves. None of these is before `at`, which is before the best.
#[cycle(search_visit)]
fn search(w: &[u64], a: &Asker, n: usize, height: u64, at: Place, best: Place) -> Place
    requires { Searchable w.now a.now.d a.now.t a.now.ax a.now.ay height n × IsBound w.now a.now.d a.now.t a.now.ax a.now.ay n at × (worth at < worth best) }
    ensures { Finds w.now a.now.d a.now.t a.now.ax a.now.ay a.now.own height n best result }
{
    if height == 0 {
        return best.min(pair_with(w, a, at.tie));
    }
    let found = settled(w, a, n, at.tie);
    if pair_tree::same(found, at) {
        return found;
    }
    let l = 2 * n;
    let r = l + 1;
    let down = height - 1;
    let left = reach(w, a, l);
    let right = reach(w, a, r);
    if right < left {
        let one = visit(w, a, r, down, right, best);
        return visit(w, a, l, down, left, one);
    }
    let one = visit(w, a, l, down, left, best);
    visit(w, a, r, down, right, one)
}

// The same; a node whose pairs are not before the best so far is passed over.
#[cycle(search_visit)]
fn visit(w: &[u64], a: &Asker, n: usize, height: u64, at: Place, best: Place) -> Place
    requires { Searchable w.now a.now.d a.now.t a.now.ax a.now.ay height n × IsBound w.now a.now.d a.now.t a.now.ax a.now.ay n at }
    ensures { Finds w.now a.now.d a.now.t a.now.ax a.now.ay a.now.own height n best result }
{
    if at < best {
        return search(w, a, n, height, at, best);
    }
    best
}

// The first of all pairs of the asker that are at or below the limit's key. Where there is none, the place behind all that have this key.
fn partner(w: &[u64], a: &Asker, height: u64, limit: u64) -> Place
    requires { Searchable w.now a.now.d a.now.t a.now.ax a.now.ay height 1 }
    ensures { Finds w.now a.now.d a.now.t a.now.ax a.now.ay a.now.own height 1 (record { key = limit; tie = gone }) result }
{
    let best = Place {
        key: limit,
        tie: GONE,
    };
    visit(w, a, 1, height, reach(w, a, 1), best)
}

// The first pair, in the order, that the free end o can be in, if there is one.
pub fn first_pair(w: &[u64], d: usize, t: usize, height: u64, limit: u64, o: usize) -> Option<Best>
    requires { Query w.now d t height limit o }
    ensures first { Answers w.now d t height limit o (pair_of result) }
    ensures upper { IsSome result → 0 < (pair_of result).j }
{
    let (ax, ay) = pair_ends::direction_at(w, d, o)?;
    let own = pair_ends::piece_at(w, d, o);
    let found = partner(w, &Asker { d, t, ax, ay, own }, height, limit);
    if found.tie == GONE {
        return None;
    }
    let e = found.tie as usize;
    Some(Best {
        key: found.key,
        i: e.min(o),
        j: e.max(o),
    })
}
