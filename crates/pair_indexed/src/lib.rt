// The indexed route: each owner's first pair among the free ends comes from the index and stands in the heap; the first of these is taken, or made anew where
// one of its ends is taken.
#![tactic(auto)]

ghost use Rattle.std.specs.Prelude.{◌≡◌, not, ◌||◌, ◌+◌, ◌*◌, ◌^◌, ◌≤◌, ◌<◌};
ghost use Rattle.rules.specs.Refusals.{most_ends};
ghost use Rattle.pair_ends.specs.Blocks.{order_from, heap_from, index_from, note_from};
ghost use Rattle.pair_ends.specs.Ends.{EndsRoom, Selected, ends_in};
ghost use Rattle.pair_laws.specs.Ranked.{none as nobody};
ghost use Rattle.pair_tree.specs.Words.{Changes};
ghost use Rattle.pair_index.specs.Index.{leaf_of, Query};
ghost use Rattle.pair_index.specs.Nodes.{Removes};
ghost use Rattle.pair_owners.specs.Tables.{order_at, position_at, TablesSorted};
ghost use Rattle.pair_owners.proofs.Seats.{seated};
ghost use Rattle.pair_indexed.specs.Route.{taken_in, Offers, Stale, Refreshed, Retires, marked, Replaces, Replaced, Takes, Takings, RouteReady};
ghost use Rattle.pair_indexed.specs.Start.{Notes, Fits, Arranged, Plants, Planted, Clears, Cleared, Startable, Fills, Asks};

use pair_bounds::Bounds;
use pair_ends::{CURSORS, GROUPS, HEAP, INDEX, MARKS, NOTE, ORDER, PAIRS, POSITIONS, SLOTS};
use pair_tree::Place;

// A tree with a leaf for each of some number of things: how many leaves, and how high.
#[derive(Clone, Copy)]
pub struct Size {
    pub base: usize,
    pub height: u64,
}

// What a call goes by: how many ends, the tree of the index, how many slots the heap has, and the limit's key.
#[derive(Clone, Copy)]
struct Plan {
    d: usize,
    index: Size,
    slots: usize,
    limit: u64,
}

// The least tree with a leaf for each of n.
fn tree_for(n: usize) -> Size
    requires { n ≤ most_ends }
    ensures { Fits n result }
{
    let base = n.next_power_of_two();
    Size {
        base,
        height: base.ilog2() as u64,
    }
}

// From so many ends on it is worth a look whether all directions are in the disk.
const NOTED: usize = 48;

// It is noted whether all directions are in the disk, for which the index has a better bound; among few ends it is not looked at.
fn note(w: &mut [u64], d: usize)
    requires { EndsRoom w.old d × (d ≡ 0 → ⊥) }
    ensures { Notes w.old w.new d }
{
    let round = NOTED <= d && pair_all_directions::all_round(w, d);
    w[d * NOTE] = round as u64;
}

// The ends in order and in groups; how many are owners.
fn arrange(w: &mut [u64], d: usize) -> usize
    requires { EndsRoom w.old d }
    ensures { (Arranged w.new d result) × Changes w.old w.new (d * order_from) (d * heap_from) }
{
    let at = d * ORDER;
    pair_owners::keys(w, d);
    pair_sorting::sort_ends(&mut w[at..], d);
    pair_sorting::positions(&mut w[at..], d);
    pair_owners::groups(w, d)
}

// The leaf of position p.
fn leaf(w: &[u64], d: usize, p: usize) -> Bounds
    requires { TablesSorted w.now d }
    ensures { result ≡ leaf_of (ends_in w.now d) nobody (seated (order_at w.now d) d p) }
{
    if p < d {
        let e = w[d * ORDER + p] as usize;
        if let Some((x, y)) = pair_ends::direction_at(w, d, e) {
            return Bounds {
                low_x: x,
                low_y: y,
                high_x: x,
                high_y: y,
                first: e as u64,
            };
        }
    }
    Bounds::empty()
}

// The index of all ends with a direction, by their positions.
fn plant(w: &mut [u64], d: usize, base: usize)
    requires { Plants w.old d base }
    ensures { Planted w.old w.new d base }
{
    let t = d * INDEX;
    for p in 0..base {
        let b = leaf(w, d, p);
        pair_tree::put(w, t, base + p, b);
    }
    pair_tree::join::<Bounds>(w, t, base);
}

// The owner o's first pair among the free ends, as the heap holds it.
fn first_of(w: &[u64], plan: Plan, o: usize) -> Place
    requires { Query w.now plan.d (plan.d * index_from) plan.index.height plan.limit o }
    ensures { Offers w.now plan.d plan.index.height plan.limit o result }
{
    let d = plan.d;
    pair_heap::coded(
        o,
        pair_index::first_pair(w, d, d * INDEX, plan.index.height, plan.limit, o),
    )
}

// The owner o's pair anew.
fn refresh(w: &mut [u64], plan: Plan, o: usize)
    requires { Stale w.old plan.d plan.slots plan.index.height plan.limit o }
    ensures { Refreshed w.old w.new plan.d plan.slots plan.index.height plan.limit o }
{
    let s = w[plan.d * SLOTS + o] as usize;
    let v = first_of(w, plan, o);
    pair_tree::set(w, plan.d * HEAP, plan.slots, s, v);
}

// No slot has a pair.
fn clear(w: &mut [u64], d: usize, slots: usize)
    requires { Clears w.old d slots }
    ensures { Cleared w.old w.new d slots }
{
    for s in 0..slots {
        pair_tree::put(w, d * HEAP, slots + s, Place::none());
    }
}

// Each first owner's pair.
fn fill(w: &mut [u64], plan: Plan)
    requires { Fills w.old plan.d plan.index.height plan.slots plan.limit }
    ensures { (RouteReady w.new plan.d plan.index.height plan.slots plan.limit) × Changes w.old w.new (plan.d * heap_from) (plan.d * index_from) }
{
    let d = plan.d;
    for p in 0..d {
        let o = w[d * ORDER + p] as usize;
        let s = w[d * SLOTS + o] as usize;
        if s < d {
            let v = first_of(w, plan, o);
            pair_tree::put(w, d * HEAP, plan.slots + s, v);
        }
    }
    pair_tree::join::<Place>(w, d * HEAP, plan.slots);
}

// The index and the heap, while no end is taken.
fn begin(w: &mut [u64], plan: Plan)
    requires { (plan.index.base ≡ 2 ^ plan.index.height) × Startable w.old plan.d plan.index.height plan.slots plan.limit }
    ensures { (RouteReady w.new plan.d plan.index.height plan.slots plan.limit) × Changes w.old w.new (plan.d * heap_from) (plan.d * note_from) }
{
    plant(w, plan.d, plan.index.base);
    clear(w, plan.d, plan.slots);
    fill(w, plan);
}

// The end x is taken: it is marked, and leaves the index.
fn retire(w: &mut [u64], d: usize, base: usize, x: usize)
    requires { Retires w.old d base x }
    ensures { Removes (marked w.old d x) w.new (d * index_from) base (position_at w.old d x) }
{
    let p = w[d * POSITIONS + x] as usize;
    w[d * MARKS + x] = 1;
    pair_tree::set(w, d * INDEX, base, p, Bounds::empty());
}

// The slot of the taken end x, if it has one, goes to the next free end of its direction.
fn replace(w: &mut [u64], plan: Plan, x: usize)
    requires { Replaces w.old plan.d plan.slots plan.index.height plan.limit x }
    ensures { Replaced w.old w.new plan.d plan.slots plan.index.height plan.limit x }
{
    let d = plan.d;
    let s = w[d * SLOTS + x] as usize;
    if d <= s {
        return;
    }
    let g = w[d * GROUPS + x];
    let k = d * CURSORS + g as usize;
    let from = w[k] as usize;
    let Some(c) = pair_owners::due(w, d, g, from) else {
        pair_tree::set(w, d * HEAP, plan.slots, s, Place::none());
        return;
    };
    let o = w[d * ORDER + c] as usize;
    w[k] = (c + 1) as u64;
    w[d * SLOTS + o] = s as u64;
    refresh(w, plan, o);
}

// Whether neither end is taken.
fn live(w: &[u64], d: usize, i: usize, j: usize) -> bool
    requires { EndsRoom w.now d × (i < d) × (j < d) }
    ensures { result ≡ not (taken_in w.now d i || taken_in w.now d j) }
{
    w[d * MARKS + i] == 0 && w[d * MARKS + j] == 0
}

// The pair i, j is the one after n others: it is written, and its ends are taken.
fn take(w: &mut [u64], plan: Plan, n: usize, i: usize, j: usize)
    requires { (plan.index.base ≡ 2 ^ plan.index.height) × Takes w.old plan.d plan.index.height plan.slots plan.limit n i j }
    ensures { Takings w.old w.new plan.d plan.index.height plan.slots plan.limit n i j }
{
    let d = plan.d;
    w[d * PAIRS + n * 2] = i as u64;
    w[d * PAIRS + n * 2 + 1] = j as u64;
    retire(w, d, plan.index.base, i);
    retire(w, d, plan.index.base, j);
    replace(w, plan, i);
    replace(w, plan, j);
}

// The selected pairs, one after another; how many.
fn choose(w: &mut [u64], plan: Plan) -> usize
    requires { (plan.index.base ≡ 2 ^ plan.index.height) × RouteReady w.old plan.d plan.index.height plan.slots plan.limit }
    ensures { Selected w.old plan.d plan.limit result w.new }
{
    let mut n = 0;
    while let Some(c) = pair_heap::first(w, plan.d * HEAP) {
        if live(w, plan.d, c.i, c.j) {
            take(w, plan, n, c.i, c.j);
            n += 1;
        } else {
            refresh(w, plan, c.owner);
        }
    }
    n
}

// The selected pairs of the d ends in the workspace, under the limit's key: how many, and two words for each behind the piece numbers.
pub fn indexed(w: &mut [u64], d: usize, limit: u64) -> usize
    requires { Asks w.old d limit }
    ensures { Selected w.old d limit result w.new }
{
    if pair_all_directions::apart(w, d, limit) {
        return 0;
    }
    note(w, d);
    let index = tree_for(d);
    point_slices::fill_from(w, d * MARKS, d, 0);
    let m = arrange(w, d);
    let slots = tree_for(m).base;
    let plan = Plan {
        d,
        index,
        slots,
        limit,
    };
    begin(w, plan);
    choose(w, plan)
}
