// The plain route. Each row, the pairs (i, j) of an end i with the ends j above it, holds the first free qualifying pair that was last found there. The least pair
// held is taken; if its partner has gone meanwhile, its row is gone through again. Rows stand in blocks, and the least key of each block is kept beside them, so
// that the least pair is found without asking every row; where one block would do there is none.
#![tactic(auto)]

ghost use Rattle.std.specs.Prelude.{◌≡◌, true, false, ◌+◌, ◌*◌, ◌/◌, ◌<◌, ◌≤◌, length, IfSome};
ghost use Rattle.rules.specs.Refusals.{most_ends, limit_bad};
ghost use Rattle.float_order.specs.Key.{key, key_nan};
ghost use Rattle.pair_ends.specs.Blocks.{row_keys_from};
ghost use Rattle.pair_ends.specs.Ends.{EndsRoom, Selected};
ghost use Rattle.pair_first_of_end.specs.Row.{RowReady};
ghost use Rattle.pair_plain.specs.Lows.{lesser_of, IsLow, low_words, upper_of, blocks_of, LowsSettled, RowSettled, Lows, all};
ghost use Rattle.pair_plain.specs.Steps.{Marked, Playable, Renewed, Rows, Levelled, taken_from};

use float_order::GREATEST;
use pair_ends::{LOWS, MARKS, PAIRS, PARTNERS, ROW_KEYS, TOPS};

// How many rows a block has.
const BLOCK: usize = 16;

// A row's key that is not the greatest, and where it stands.
#[derive(Clone, Copy)]
pub struct Low {
    pub key: u64,
    pub place: usize,
}

// The lesser of a least key and a key that stands after it.
#[tactic(auto, unfolding(crate::specs::Lows::lesser_of))]
fn lesser(low: Low, key: u64, place: usize) -> Low
    ensures { result ≡ lesser_of low key place }
{
    if key < low.key {
        Low { key, place }
    } else {
        low
    }
}

// The least of the keys from `from` to `to` in the region that begins at `at`, and of equals the first; none where each is the greatest key.
fn least(w: &[u64], at: usize, from: usize, to: usize) -> Option<Low>
    requires { (from ≤ to) × (at + to ≤ length w.now) }
    ensures is { IsLow w.now at from to (low_words result) }
    ensures some { IfSome result (λ low. low.key < key_nan) }
{
    let mut low = Low {
        key: GREATEST,
        place: from,
    };
    for x in from..to {
        low = lesser(low, w[at + x], x);
    }
    (low.key < GREATEST).then_some(low)
}

// How many blocks d rows make.
fn blocks(d: usize) -> usize
    requires { d ≤ most_ends }
    ensures { result ≡ blocks_of d }
{
    d.div_ceil(BLOCK)
}

// Where block b of d rows ends.
#[tactic(auto, unfolding(crate::specs::Lows::upper_of))]
fn upper(d: usize, b: usize) -> usize
    requires { b < most_ends }
    ensures { result ≡ upper_of d b }
{
    d.min(b * BLOCK + BLOCK)
}

// The least key of block b, found anew.
fn settle(w: &mut [u64], d: usize, b: usize)
    requires { EndsRoom w.old d × (b < blocks_of d) }
    ensures { LowsSettled w.old d b w.new }
{
    let low = least(w, d * ROW_KEYS, b * BLOCK, upper(d, b));
    let (key, place) = low.map_or((GREATEST, 0), |low| (low.key, low.place as u64));
    w[d * LOWS + b] = key;
    w[d * TOPS + b] = place;
}

// The marks before any end is taken.
fn mark_all(w: &mut [u64], d: usize)
    requires { EndsRoom w.old d }
    ensures { Marked w.old d w.new }
{
    for e in 0..d {
        w[d * MARKS + e] = u64::from(!pair_first_of_end::is_numbered(w, d, e));
    }
}

// What row i holds, found anew.
fn renew(w: &mut [u64], d: usize, limit: f64, i: usize)
    requires { RowReady w.old d limit i }
    ensures { Renewed w.old d limit i w.new }
{
    let held = pair_first_of_end::first_of(w, d, limit, i);
    let (key, partner) = held.map_or((GREATEST, 0), |held| (held.key, held.partner as u64));
    w[d * ROW_KEYS + i] = key;
    w[d * PARTNERS + i] = partner;
}

// What each row holds.
fn renew_all(w: &mut [u64], d: usize, limit: f64)
    requires { Playable w.old d limit }
    ensures { Rows w.old d limit d w.new }
{
    for i in 0..d {
        renew(w, d, limit, i);
    }
}

// The least key of each block.
fn settle_all(w: &mut [u64], d: usize)
    requires { EndsRoom w.old d }
    ensures { Levelled w.old d w.new }
{
    for b in 0..blocks(d) {
        settle(w, d, b);
    }
}

// Pair n is (i, j), and its two ends are taken.
fn take(w: &mut [u64], d: usize, n: usize, i: usize, j: usize)
    requires { EndsRoom w.old d × (n * 2 + 2 ≤ d) × (i < d) × (j < d) }
    ensures { w.new ≡ taken_from w.old d n i j }
{
    w[d * PAIRS + n * 2] = i as u64;
    w[d * PAIRS + n * 2 + 1] = j as u64;
    w[d * MARKS + i] = 1;
    w[d * MARKS + j] = 1;
    w[d * ROW_KEYS + i] = GREATEST;
    w[d * ROW_KEYS + j] = GREATEST;
}

// The least key of all rows, and its row, if a row holds a pair.
fn lowest<const BLOCKS: bool>(w: &[u64], d: usize) -> Option<Low>
    requires { EndsRoom w.now d × (BLOCKS ≡ true → Lows w.now d all) }
    ensures is { IsLow w.now (d * row_keys_from) 0 d (low_words result) }
    ensures some { IfSome result (λ low. low.key < key_nan) }
{
    if !BLOCKS {
        return least(w, d * ROW_KEYS, 0, d);
    }
    let low = least(w, d * LOWS, 0, blocks(d))?;
    Some(Low {
        key: low.key,
        place: w[d * TOPS + low.place] as usize,
    })
}

// The least key of row i's block, found anew where rows stand in blocks.
fn settle_row<const BLOCKS: bool>(w: &mut [u64], d: usize, i: usize)
    requires { EndsRoom w.old d × (i < d) }
    ensures { RowSettled BLOCKS w.old d i w.new }
{
    if BLOCKS {
        settle(w, d, i / BLOCK);
    }
}

// The selected pairs of d ends, whose rows stand in blocks or not.
fn select<const BLOCKS: bool>(w: &mut [u64], d: usize, limit: f64) -> usize
    requires { EndsRoom w.old d × (limit_bad limit ≡ false) }
    ensures { Selected w.old d (key limit) result w.new }
{
    mark_all(w, d);
    renew_all(w, d, limit);
    if BLOCKS {
        settle_all(w, d);
    }
    let mut n = 0;
    while let Some(low) = lowest::<BLOCKS>(w, d) {
        let i = low.place;
        let j = w[d * PARTNERS + i] as usize;
        if w[d * MARKS + j] != 0 {
            renew(w, d, limit, i);
            settle_row::<BLOCKS>(w, d, i);
        } else {
            take(w, d, n, i, j);
            settle_row::<BLOCKS>(w, d, i);
            settle_row::<BLOCKS>(w, d, j);
            n += 1;
        }
    }
    n
}

// The selected pairs of the d ends in the workspace, listed behind the piece numbers. Returns how many there are.
pub fn plain(w: &mut [u64], d: usize, limit: f64) -> usize
    requires { EndsRoom w.old d × (limit_bad limit ≡ false) }
    ensures { Selected w.old d (key limit) result w.new }
{
    if d <= BLOCK {
        return select::<false>(w, d, limit);
    }
    if pair_all_directions::idle(w, d, float_order::key(limit)) {
        return 0;
    }
    select::<true>(w, d, limit)
}
