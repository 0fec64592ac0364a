// From a table of partners to walks, in one workspace of n pieces: 2 n joins, n marks of visited pieces, n entries, n lengths.
#![tactic(auto)]

ghost use Rattle.std.specs.Prelude.{◌≡◌, ◌<◌, ◌^◌};
ghost use Rattle.rules.specs.Walking.{other};
ghost use Rattle.chain_laws.specs.Table.{Table, head_of};
ghost use Rattle.chain_walks.specs.Walks.{join_word, Walkable, Walked, WalksReady, AllWalked};

// Where the blocks of the part in which pieces are walked begin, in words for each piece. The joins stand first, two a piece.
pub const VISITED: usize = 2;

pub const ENTRIES: usize = 3;

pub const LENGTHS: usize = 4;

// The end that a word of the table of joins names: the word is one more than the end, or 0 for none.
fn partner(word: u64) -> Option<usize>
    ensures { join_word result ≡ word }
{
    (word as usize).checked_sub(1)
}

// The other end of the same piece.
fn other(e: usize) -> usize
    requires { e < 2 ^ 63 }
    ensures { result ≡ other e }
{
    e + 1 - 2 * (e % 2)
}

// The head of the walk of `start`: back over the joins to a free end, or the start's end 0 in a ring.
fn head(joins: &[u64], n: usize, start: usize) -> usize
    requires { Table n joins.now × (start < n) }
    ensures { result ≡ head_of joins.now n start }
{
    let mut e = 2 * start;
    for _k in 0..n {
        let Some(g) = partner(joins[e]) else {
            return e;
        };
        if g / 2 == start {
            return 2 * start;
        }
        e = other(g);
    }
    2 * start
}

// Forward from the entry `first`: marks the pieces and writes their entries behind `at` others. Returns how many there are.
fn walk_on(w: &mut [u64], n: usize, first: usize, at: usize) -> usize
    requires { Walkable w.old n first at }
    ensures { Walked w.new w.old n first at result }
{
    let mut e = first;
    for k in 0..n {
        w[ENTRIES * n + at + k] = e as u64;
        w[VISITED * n + e / 2] = 1;
        let Some(g) = partner(w[other(e)]) else {
            return k + 1;
        };
        if w[VISITED * n + g / 2] == 1 {
            return k + 1;
        }
        e = g;
    }
    n
}

// All walks, in order of their starts: their entries one behind another, and the length of each. Returns how many there are.
pub fn walk_all(w: &mut [u64], n: usize) -> usize
    requires { WalksReady w.old n }
    ensures { AllWalked w.new w.old n result }
{
    let mut at: usize = 0;
    let mut c: usize = 0;
    for s in 0..n {
        if w[VISITED * n + s] != 1 {
            let e = head(&w[..VISITED * n], n, s);
            let r = walk_on(w, n, e, at);
            w[LENGTHS * n + c] = r as u64;
            at += r;
            c += 1;
        }
    }
    c
}
