// A tree in a row of nodes, each made of its two children: the index has boxes for nodes, the heap places in an order by key.
#![tactic(auto)]

ghost use Rattle.std.specs.Prelude.{ℕ, List, ◌≡◌, ◌+◌, ◌*◌, ◌≤◌, ◌<◌, min, eqb, length, get_or};
ghost use Rattle.std.proofs.Common.{rules};
ghost use Rattle.pair_bounds.specs.declared.Bounds.{Bounds};
ghost use Rattle.pair_bounds.specs.Box.{Sound, union_of};
ghost use Rattle.pair_bounds.specs.Reading.{bounds_at, place_at, SameWords};
ghost use Rattle.pair_bounds.proofs.Union.{union_sound};
ghost use Rattle.pair_bounds.proofs.Reading.{bounds_alone, place_alone};
ghost use Rattle.pair_tree.specs.Places.{worth, none as none_of};
ghost use Rattle.pair_tree.specs.Words.{Changes};
ghost use Rattle.pair_tree.specs.Rows.{row, RowHas, RowOpen, RowPut, RowChildren, RowLeaves, RowJoined, RowWhole, RowSets, Any};

use pair_bounds::{Bounds, GONE};

// What a node is: how its words are read and written, and how it is made of its children.
pub trait RowNode: Copy {
    // A node as proofs see it.
    ghost Value: { Type 0 };

    ghost value: { Self → Value };

    ghost WORDS: { ℕ };

    ghost at: { List ℕ → ℕ → Value };

    ghost union: { Value → Value → Value };

    ghost Sound: { Value → Type 0 };

    const WORDS: usize;

    fn read(w: &[u64], k: usize) -> Self
        requires room { k + WORDS ≤ length w.now }
        requires sound { Sound (at w.now k) }
        ensures { value result ≡ at w.now k };

    fn write(self, w: &mut [u64], k: usize)
        requires room { k + WORDS ≤ length w.old }
        requires sound { Sound (value self) }
        ensures put { at w.new k ≡ value self }
        ensures kept { Changes w.old w.new k (k + WORDS) };

    fn join(a: Self, b: Self) -> Self
        ensures { value result ≡ union (value a) (value b) };

    ghost union_sound: { (a b : Value) → Sound a → Sound b → Sound (union a b) };

    ghost some_words: { 0 < WORDS };

    ghost words_alone: { (w w' : List ℕ) (k : ℕ) → SameWords w w' k WORDS → at w' k ≡ at w k };
}

// The least box around both children.
impl RowNode for Bounds {
    ghost Value = { Bounds };

    ghost value = { λ b. b };

    ghost WORDS = { 5 };

    ghost at = { bounds_at };

    ghost union = { union_of };

    ghost Sound = { Sound };

    const WORDS: usize = 5;

    fn read(w: &[u64], k: usize) -> Bounds {
        Bounds {
            low_x: f64::from_bits(w[k]),
            low_y: f64::from_bits(w[k + 1]),
            high_x: f64::from_bits(w[k + 2]),
            high_y: f64::from_bits(w[k + 3]),
            first: w[k + 4],
        }
    }

    fn write(self, w: &mut [u64], k: usize) {
        w[k] = f64::to_bits(self.low_x);
        w[k + 1] = f64::to_bits(self.low_y);
        w[k + 2] = f64::to_bits(self.high_x);
        w[k + 3] = f64::to_bits(self.high_y);
        w[k + 4] = self.first;
    }

    fn join(a: Bounds, b: Bounds) -> Bounds {
        Bounds::union(a, b)
    }

    ghost union_sound = { union_sound };

    ghost some_words = { Prim.search rules };

    ghost words_alone = { bounds_alone };
}

// A key, and the number that decides between equal keys.
#[derive(Clone, Copy, PartialEq, Eq, PartialOrd, Ord)]
pub struct Place {
    pub key: u64,
    pub tie: u64,
}

impl Place {
    // After every other place. It is no Option, whose None would come before every place: the least of two places is the first.
    pub fn none() -> Place
        ensures { worth result ≡ none_of }
    {
        Place {
            key: GONE,
            tie: GONE,
        }
    }
}

// Whether a and b are one place.
#[tactic(auto, using(crate::proofs::Order::same_is))]
pub fn same(a: Place, b: Place) -> bool
    ensures { result ≡ eqb (worth a) (worth b) }
{
    a == b
}

// The child that comes first.
impl RowNode for Place {
    ghost Value = { ℕ };

    ghost value = { worth };

    ghost WORDS = { 2 };

    ghost at = { place_at };

    ghost union = { min };

    ghost Sound = { Any };

    const WORDS: usize = 2;

    fn read(w: &[u64], k: usize) -> Place {
        Place {
            key: w[k],
            tie: w[k + 1],
        }
    }

    fn write(self, w: &mut [u64], k: usize) {
        w[k] = self.key;
        w[k + 1] = self.tie;
    }

    fn join(a: Place, b: Place) -> Place {
        a.min(b)
    }

    ghost union_sound = { λ a b p q. tt };

    ghost some_words = { Prim.search rules };

    ghost words_alone = { place_alone };
}

// Node n.
pub fn node<N: RowNode>(w: &[u64], t: usize, n: usize) -> N
    requires { RowHas N.at N.WORDS N.Sound w.now t n }
    ensures { N.value result ≡ row N.at N.WORDS w.now t n }
{
    N::read(w, t + N::WORDS * n)
}

// Node n becomes v.
pub fn put<N: RowNode>(w: &mut [u64], t: usize, n: usize, v: N)
    requires { RowOpen N.WORDS N.Sound w.old t n (N.value v) }
    ensures { RowPut N.at N.WORDS w.old w.new t n (N.value v) }
{
    v.write(w, t + N::WORDS * n);
}

// Node n is made of its children.
fn renew<N: RowNode>(w: &mut [u64], t: usize, n: usize)
    requires { RowChildren N.at N.WORDS N.Sound w.old t n }
    ensures { RowPut N.at N.WORDS w.old w.new t n (N.union (row N.at N.WORDS w.old t (2 * n)) (row N.at N.WORDS w.old t (2 * n + 1))) }
{
    let a: N = node(w, t, 2 * n);
    let b = node(w, t, 2 * n + 1);
    put(w, t, n, N::join(a, b));
}

// Every node above the leaves is made of its children.
pub fn join<N: RowNode>(w: &mut [u64], t: usize, base: usize)
    requires { RowLeaves N.at N.WORDS N.Sound w.old t base }
    ensures { RowJoined N.at N.WORDS N.union N.Sound w.old w.new t base }
{
    for n in (1..base).rev() {
        renew::<N>(w, t, n);
    }
}

// The leaf p becomes v, and each node above it is made anew.
pub fn set<N: RowNode>(w: &mut [u64], t: usize, base: usize, p: usize, v: N)
    requires whole { RowWhole N.at N.WORDS N.union N.Sound w.old t base p }
    requires sound { N.Sound (N.value v) }
    ensures { RowSets N.at N.WORDS N.union N.Sound w.old w.new t base p (N.value v) }
{
    put(w, t, base + p, v);
    let mut q = (base + p) / 2;
    while q != 0 {
        renew::<N>(w, t, q);
        q = q / 2;
    }
}
