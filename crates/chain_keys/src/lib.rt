// The keys of a round's ends: for each end three words, its group and one word for each number of its coordinate. Equal words are equal keys.
#![tactic(auto)]

ghost use Rattle.std.specs.Prelude.{◌≡◌, ◌+◌, ◌*◌, ◌/◌, ◌%◌, ◌≤◌, ◌<◌, length, set, Some};
ghost use Rattle.chain_pieces.specs.Held.{record_of};
ghost use Rattle.chain_keys.specs.Keys.{group_at, number_at, word_of, PiecePlaced, Grouping, Keyable, Keyed, keyed_at, both_keyed};
ghost use Rattle.chain_keys.specs.Map.{both_keys};

use chain_grouping::KEY;
use rules::{Grid, Meeting, PIECE};

// The words of the keys of a piece's two ends.
pub const BOTH_KEYS: usize = 6;

// The group of the piece whose record stands at p: that of its first member.
#[tactic(auto, unfolding(crate::specs::Keys::group_at))]
fn group_of(w: &[u64], p: usize, members: usize, groups: &[u32]) -> u64
    requires { Grouping w.now p members groups.now }
    ensures { result ≡ group_at w.now p members groups.now }
{
    let line = w[members + w[p] as usize] as usize;
    groups[line] as u64
}

// The x and y at a side of the piece whose record stands at p: those of its first point at side 0, and of its last at any other.
fn point_at<'a>(
    w: &[u64],
    p: usize,
    width: usize,
    side: usize,
    input: &'a [u64],
    spare: &'a [u64],
) -> (u64, u64)
    requires { PiecePlaced width w.now p input.now spare.now }
    ensures x { result.0 ≡ number_at width w.now p side 0 input.now spare.now }
    ensures y { result.1 ≡ number_at width w.now p side 1 input.now spare.now }
{
    let c = chain_pieces::coordinates_of(w, p, width, input, spare);
    let at = if side == 0 { 0 } else { c.len() - width };
    (c[at], c[at + 1])
}

// The words of a point: its bits, or the numbers of its cell.
#[tactic(auto, unfolding(crate::specs::Keys::word_of))]
fn words_of(grid: Grid, point: (u64, u64)) -> (u64, u64)
    ensures x { result.0 ≡ word_of grid 0 point.0 }
    ensures y { result.1 ≡ word_of grid 1 point.1 }
{
    let (x, y) = point;
    match grid {
        None => (x, y),
        Some(cells) => (
            float_cell::cell_key(x, cells.origin_x, cells.tolerance),
            float_cell::cell_key(y, cells.origin_y, cells.tolerance),
        ),
    }
}

// Three words at `at`.
fn put_words(w: &mut [u64], at: usize, group: u64, words: (u64, u64))
    requires { at + 3 ≤ length w.old }
    ensures { w.new ≡ set (set (set w.old at group) (at + 1) words.0) (at + 2) words.1 }
{
    w[at] = group;
    w[at + 1] = words.0;
    w[at + 2] = words.1;
}

// The keys of both ends of piece q.
fn put_both<'a>(
    w: &mut [u64],
    records: usize,
    members: usize,
    keys: usize,
    q: usize,
    width: usize,
    groups: &[u32],
    input: &'a [u64],
    spare: &'a [u64],
    grid: Grid,
)
    requires { PiecePlaced width w.old (record_of records q) input.now spare.now × Grouping w.old (record_of records q) members groups.now
        × (keys + q * both_keys + 6 ≤ length w.old) }
    ensures { w.new ≡ both_keyed width w.old records members keys q groups.now input.now spare.now grid }
{
    let p = records + q * PIECE;
    let at = keys + q * BOTH_KEYS;
    let group = group_of(w, p, members, groups);
    let first = point_at(w, p, width, 0, input, spare);
    let last = point_at(w, p, width, 1, input, spare);
    put_words(w, at, group, words_of(grid, first));
    put_words(w, at + KEY, group, words_of(grid, last));
}

// The cell key at a side of the piece whose record stands at p, three words at `at`.
pub fn put_cell<'a>(
    w: &mut [u64],
    p: usize,
    side: usize,
    members: usize,
    at: usize,
    width: usize,
    groups: &[u32],
    input: &'a [u64],
    spare: &'a [u64],
    cells: Meeting,
)
    requires { PiecePlaced width w.old p input.now spare.now × Grouping w.old p members groups.now × (at + 3 ≤ length w.old) }
    ensures { w.new ≡ keyed_at width w.old p side members at groups.now input.now
        spare.now (Some cells) }
{
    let group = group_of(w, p, members, groups);
    let point = point_at(w, p, width, side, input, spare);
    put_words(w, at, group, words_of(Some(cells), point));
}

// The keys of the ends of `count` pieces, from `keys` on.
pub fn collect_keys<'a>(
    w: &mut [u64],
    records: usize,
    members: usize,
    keys: usize,
    count: usize,
    width: usize,
    groups: &[u32],
    input: &'a [u64],
    spare: &'a [u64],
    grid: Grid,
)
    requires { Keyable width w.old records members keys count groups.now input.now spare.now }
    ensures { Keyed width w.new w.old records members keys count groups.now input.now
        spare.now grid }
{
    for q in 0..count {
        put_both(
            w, records, members, keys, q, width, groups, input, spare, grid,
        );
    }
}
