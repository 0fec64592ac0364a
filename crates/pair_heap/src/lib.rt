// The heap of candidates: a tree in a row of nodes, two words for each from `h` on, with a leaf for each slot, and each node the lesser of its children.
#![tactic(auto)]

ghost use Rattle.std.specs.Prelude.{◌≡◌, ◌+◌, ◌*◌, ◌<◌, length, get_or, IsSome};
ghost use Rattle.rules.specs.Refusals.{most_ends};
ghost use Rattle.pair_tree.specs.Places.{worth, gone};
ghost use Rattle.pair_index.specs.Index.{pair_of};
ghost use Rattle.pair_heap.specs.Heap.{coded as coded_of, entry_of, Decoded};

use pair_bounds::GONE;
use pair_index::Best;
use pair_tree::Place;

// A candidate and its owner.
#[derive(Clone, Copy)]
pub struct Entry {
    pub i: usize,
    pub j: usize,
    pub owner: usize,
}

// The pair b, which o owns, as a place: pairs are in order as their places are. One whose j is 0 is none.
pub fn coded(o: usize, b: Option<Best>) -> Place
    requires { ((pair_of b).i < most_ends) × ((pair_of b).j < most_ends) }
    ensures { worth result ≡ coded_of o (pair_of b) }
{
    let Some(b) = b else {
        return Place::none();
    };
    let code = (b.i as u64 * 8192 + b.j as u64) * 2;
    if b.j == 0 {
        Place::none()
    } else {
        Place {
            key: b.key,
            tie: code + (o == b.j) as u64,
        }
    }
}

// The first candidate, if there is one.
pub fn first(w: &[u64], h: usize) -> Option<Entry>
    requires { h + 3 < length w.now }
    ensures entry { Decoded (get_or w.now (h + 3) 0) (entry_of result) }
    ensures some { IsSome result → get_or w.now (h + 3) 0 ≡ gone → ⊥ }
{
    let code = w[h + 3];
    if code == GONE {
        return None;
    }
    let i = (code / 16384) as usize;
    let j = (code / 2 % 8192) as usize;
    let owner = if code % 2 == 1 { j } else { i };
    Some(Entry { i, j, owner })
}
