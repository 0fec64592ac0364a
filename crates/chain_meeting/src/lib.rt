// Where the ends of a round's walks meet by the cells of the next one, before anything is laid: an end of a walk is an end of a line, and has its key.
#![tactic(auto)]

ghost use Rattle.std.specs.Prelude.{◌*◌, Some};
ghost use Rattle.chain_outer.specs.Outer.{outer_of};
ghost use Rattle.point_slices.specs.Holds.{HoldsFrom};
ghost use Rattle.chain_meeting.specs.Meeting.{OuterListable, Collectable, Collected, Meetable, Met};

use chain_grouping::{KEY, KEYS};
use chain_pieces::{JOINS, MEMBERS, NODE, TAKEN};
use chain_walks::{ENTRIES, LENGTHS};
use rules::{Meeting, PIECE, Settings};

// The groups of the next round, as this round's part of the workspace counts: that part begins where the next round has the pieces that go in.
pub const MEETING: usize = 138;

// The outer ends of r walks, from `at` on: for each walk the end at which it is entered and the end at which it is left. The entries of all walks stand from
// `entries` on, and their lengths from `lengths` on.
fn list_outer(w: &mut [u64], entries: usize, lengths: usize, r: usize, at: usize)
    requires { OuterListable w.old entries lengths r at }
    ensures { (y : OuterListable w.old entries lengths r at) → HoldsFrom w.new w.old at (r * 2) (outer_of y.ws) }
{
    let mut from = entries;
    for j in 0..r {
        let to = from + w[lengths + j] as usize;
        let first = w[from];
        let last = w[to - 1];
        w[at + j * 2] = first;
        w[at + j * 2 + 1] = last + 1 - 2 * (last % 2);
        from = to;
    }
}

// The cell keys of the k ends that stand from `ends` on, from `keys` on.
fn collect_outer(
    w: &mut [u64],
    records: usize,
    members: usize,
    ends: usize,
    keys: usize,
    k: usize,
    width: usize,
    groups: &[u32],
    input: &[u64],
    cells: Meeting,
)
    requires { Collectable width w.old records members ends keys k groups.now input.now }
    ensures { Collected width w.new w.old records members ends keys k groups.now input.now
        (Some cells) }
{
    for t in 0..k {
        let e = w[ends + t] as usize;
        chain_keys::put_cell(
            w,
            records + e / 2 * PIECE,
            e % 2,
            members,
            keys + t * KEY,
            width,
            groups,
            input,
            input,
            cells,
        );
    }
}

// The ends of the r walks of m lines, grouped by cells where the next round has its groups.
pub fn meet(
    w: &mut [u64],
    n: usize,
    m: usize,
    r: usize,
    settings: Settings,
    width: usize,
    groups: &[u32],
    input: &[u64],
)
    requires { Meetable width w.old n m r groups.now input.now }
    ensures { (y : Meetable width w.old n m r groups.now input.now)
        → Met w.new w.old n r settings y.rule y.ps }
{
    let ends = r * 2;
    let at = n * MEETING;
    list_outer(
        w,
        n * JOINS + m * ENTRIES,
        n * JOINS + m * LENGTHS,
        r,
        n * NODE,
    );
    collect_outer(
        w,
        n * TAKEN,
        n * TAKEN + n * MEMBERS,
        n * NODE,
        at + ends * KEYS,
        ends,
        width,
        groups,
        input,
        Meeting {
            tolerance: settings.tolerance,
            origin_x: settings.origin_x,
            origin_y: settings.origin_y,
        },
    );
    chain_grouping::group(&mut w[at..], ends);
}
