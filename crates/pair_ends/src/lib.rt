// The ends of a pairing, read from its workspace, and the map of that workspace.
#![tactic(auto)]

ghost use Rattle.std.specs.Prelude.{◌≡◌, ◌<◌};
ghost use Rattle.pair_laws.specs.Ends.{key_of};
ghost use Rattle.pair_ends.specs.Ends.{EndsRoom, direction_at, piece_at};

use rules::Direction;

// Where each block of a workspace of d ends begins, counted in ends: block B begins at d * B. At the beginning stand the presence marks, a word for each end, and
// from d on the directions, two words for each, in bits. Then the piece numbers, the pairs, and the marks, which are 0 for an end that is free.
pub const PIECES: usize = 3;

pub const PAIRS: usize = 4;

pub const MARKS: usize = 5;

// The plain route: the key and the partner that each row holds; of each block of rows the least key, and its row.
pub const ROW_KEYS: usize = 6;

pub const PARTNERS: usize = 7;

pub const LOWS: usize = 8;

pub const TOPS: usize = 9;

// The indexed route: the ends in order, and each end's position; the three words for each that it sorts by; the groups, their cursors and the owners' slots; the
// heap, two words for each node; the index, five for each; and a word that notes whether all directions are in the disk.
pub const ORDER: usize = 6;

pub const POSITIONS: usize = 7;

pub const SORT_KEYS: usize = 8;

pub const GROUPS: usize = 11;

pub const CURSORS: usize = 12;

pub const SLOTS: usize = 13;

pub const HEAP: usize = 14;

pub const INDEX: usize = 22;

pub const NOTE: usize = 42;

// The key of a pair of which one direction is absent, which is above every limit's. It is no Option: `key_of` is a number, as the words are that keep keys.
const ABSENT: u64 = float_order::GREATEST;

// The direction of end e.
pub fn direction_at(w: &[u64], d: usize, e: usize) -> Direction
    requires { EndsRoom w.now d × (e < d) }
    ensures { result ≡ direction_at w.now d e }
{
    if w[e] == 1 {
        return Some((
            float_bits::of_bits(w[d + e * 2]),
            float_bits::of_bits(w[d + e * 2 + 1]),
        ));
    }
    None
}

// The piece number of end e.
pub fn piece_at(w: &[u64], d: usize, e: usize) -> u64
    requires { EndsRoom w.now d × (e < d) }
    ensures { result ≡ piece_at w.now d e }
{
    w[d * PIECES + e]
}

// The key of the measure of two directions; where one is absent the greatest key, which is above every limit's.
pub fn pair_key(a: Direction, b: Direction) -> u64
    ensures { result ≡ key_of a b }
{
    match (a, b) {
        (Some((ax, ay)), Some((bx, by))) => float_order::key(float_order::measure(ax, ay, bx, by)),
        _ => ABSENT,
    }
}
