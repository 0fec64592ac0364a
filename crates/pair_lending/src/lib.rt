// What a pairing call lends, put into its workspace, and the pairs taken out of it.
#![tactic(auto)]

ghost use Rattle.std.specs.Prelude.{◌≡◌, ℕ, ◌++◌, ◌+◌, ◌≤◌, length, drop, map};
ghost use Rattle.std.proofs.Math.Seq.{slice};
ghost use Rattle.float_bits.specs.Bits.{bits_of};
ghost use Rattle.point_slices.specs.Holds.{HoldsFrom};
ghost use Rattle.pair_lending.specs.Lent.{Matched, DirectionsKept, Put, Takeable};

use rules::Ends;

// What a workspace keeps in one word: a mark, a piece number, and a direction's number by its bits.
trait Word {
    ghost word_of: { Self → ℕ };

    fn word(&self) -> u64
        ensures { result ≡ word_of self.now };
}

impl Word for u8 {
    ghost word_of = { λ n. n };

    fn word(&self) -> u64 {
        *self as u64
    }
}

impl Word for u32 {
    ghost word_of = { λ n. n };

    fn word(&self) -> u64 {
        *self as u64
    }
}

impl Word for f64 {
    ghost word_of = { bits_of };

    fn word(&self) -> u64 {
        float_bits::bits_of(*self)
    }
}

// Each of `items` as a word into w, from `at` on.
fn put<T: Word>(w: &mut [u64], at: usize, items: &[T])
    requires { at + length items.now ≤ length w.old }
    ensures { HoldsFrom w.new w.old at (length items.now) (map T.word_of items.now) }
{
    for (i, item) in items.iter().enumerate() {
        w[at + i] = item.word();
    }
}

// The directions' numbers into w from `at` on. Each is a float of 64 bits, so that its bits tell it.
fn put_directions(w: &mut [u64], at: usize, directions: &[f64])
    requires { at + length directions.now ≤ length w.old }
    ensures { DirectionsKept w.new w.old at directions.now }
{
    put(w, at, directions);
}

// The lent ends into the workspace, where a route reads them.
pub fn put_ends(w: &mut [u64], ends: &Ends)
    requires { Matched w.old ends.now.present.now ends.now.directions.now ends.now.pieces.now }
    ensures { Put w.new w.old ends.now.present.now ends.now.directions.now ends.now.pieces.now }
{
    let d = ends.pieces.len();
    put(w, 0, ends.present);
    put_directions(w, d, ends.directions);
    put(w, d * pair_ends::PIECES, ends.pieces);
}

// The n words of w from `at` on to the beginning of the pairs.
pub fn take_pairs(w: &[u64], at: usize, n: usize, pairs: &mut [u32])
    requires { Takeable w.now at n pairs.old }
    ensures { pairs.new ≡ slice at (at + n) w.now ++ drop n pairs.old }
{
    for i in 0..n {
        pairs[i] = w[at + i] as u32;
    }
}
