// A round that joins none: the pieces that go in come out as they are, one after another, with their copies in `merged`. Each is a walk of its own.
#![tactic(auto)]

ghost use Rattle.std.specs.Prelude.{◌+◌, ◌≤◌, length};
ghost use Rattle.chain_keeping.specs.Keeping.{EachWalked, Keepable, Kept};

use chain_pieces::{JOINS, TAKEN};
use chain_walks::ENTRIES;

// Each of m pieces a walk of its own, entered at end 0: the entries from `at` on, and behind them the lengths.
fn walk_each(w: &mut [u64], at: usize, m: usize)
    requires { at + m + m ≤ length w.old }
    ensures { EachWalked w.new w.old at m }
{
    for q in 0..m {
        w[at + q] = (q * 2) as u64;
    }
    point_slices::fill_from(w, at + m, m, 1);
}

// The m pieces of n lines that go in, as they are.
pub fn keep_pieces<'a>(
    w: &mut [u64],
    n: usize,
    m: usize,
    width: usize,
    input: &'a [u64],
    spare: &'a [u64],
    merged: &mut [u64],
)
    requires { Keepable width w.old n m input.now spare.now merged.old }
    ensures { (y : Keepable width w.old n m input.now spare.now merged.old)
        → Kept width w.new w.old n input.now merged.new merged.old y.counts y.ps }
{
    let at = n * JOINS + m * ENTRIES;
    walk_each(w, at, m);
    chain_merging::emit_all(
        w,
        n,
        n * TAKEN,
        m,
        at,
        at + m,
        m,
        width,
        input,
        spare,
        merged,
    );
}
