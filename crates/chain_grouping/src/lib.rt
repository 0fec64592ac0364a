// Ends grouped by key without a sort: buckets of leaders, and behind each leader the list of its key's ends.
#![tactic(auto)]

ghost use Rattle.std.specs.Prelude.{◌≡◌, ◌+◌, ◌*◌, ◌≤◌, ◌<◌, length, get_or, set, IfSome};
ghost use Rattle.std.specs.Option.{unwrap_or};
ghost use Rattle.rules.specs.Refusals.{most_ends};
ghost use Rattle.chain_grouping.specs.Group.{key_words, word_of, words_at, words_of, half, bucket_of, GroupingRoom, GroupedIn, EndPlaced, Found, Nodes};
ghost use Rattle.chain_grouping.specs.Map.{key_size, last_block, next_block};

// Where the blocks of the part in which ends are grouped begin, in words for each end. The heads of the buckets stand first, then a word of chain.
pub const NEXT: usize = 2;

pub const LAST: usize = 3;

pub const KEYS: usize = 4;

// The words of an end's key.
pub const KEY: usize = 3;

// The end that a word of the block of next ends names, if it names one: 0 says that there is none.
pub fn next_end(word: u64) -> Option<usize>
    ensures is { unwrap_or result 0 ≡ word }
    ensures some { IfSome result (λ e. 0 < e) }
{
    (word != 0).then_some(word as usize)
}

// The two halves of a word, added, without what is carried.
fn halved(t: u64) -> u64
    ensures { result ≡ half t }
{
    (t / 4294967296 + t % 4294967296) % 4294967296
}

// The words of an end's key: its group, and a word for each number of its coordinate.
#[derive(Clone, Copy, PartialEq, Eq)]
struct KeyWords {
    group: u64,
    x: u64,
    y: u64,
}

// The bucket of a key, one of m.
fn bucket(key: KeyWords, m: usize) -> usize
    requires { (0 < m) × (m ≤ most_ends) }
    ensures { (result ≡ bucket_of m (key_words key)) × (result < m) }
{
    let a = halved(key.x);
    let b = halved(key.y);
    let c = halved(key.group);
    let t = halved(a * 739982445 + b * 1013904223 + c * 668265263);
    (t as usize) * m / 4294967296
}

// The key of end e, where all ends' keys stand from `keys` on.
#[tactic(auto, unfolding(crate::specs::Group::words_at))]
fn key_at(w: &[u64], keys: usize, e: usize) -> KeyWords
    requires { keys + e * key_size + 2 < length w.now }
    ensures { key_words result ≡ words_at w.now keys e }
{
    let p = keys + e * KEY;
    KeyWords {
        group: w[p],
        x: w[p + 1],
        y: w[p + 2],
    }
}

// The leader that a word names, which is one more than the leader, or 0 for none.
fn named(word: u64) -> Option<usize>
    ensures { word_of result ≡ word }
{
    (word as usize).checked_sub(1)
}

// The leader of a key among the ends before e: it stands in the bucket b.
fn find(w: &[u64], m: usize, e: usize, key: KeyWords, b: usize) -> Option<usize>
    requires { GroupingRoom w.now m × (e < m) × (b < m) × (key_words key ≡ words_of w.now m e) × (b ≡ bucket_of m (words_of w.now m e))
        × GroupedIn w.now w.now m e }
    ensures { Found w.now m e result }
{
    let mut leader = named(w[b]);
    while let Some(f) = leader {
        if key_at(w, m * KEYS, f) == key {
            return Some(f);
        }
        leader = named(w[m + f]);
    }
    None
}

// End e behind the last end of the leader f.
fn append(w: &mut [u64], m: usize, e: usize, f: usize)
    requires { GroupingRoom w.old m × (e < m) × (f < e) × (get_or w.old (m * last_block + f) 0 < e) }
    ensures { w.new ≡ set (set (set (set w.old (m * next_block + get_or w.old (m * last_block + f) 0) e)
        (m * next_block + e) 0) (m * last_block + f) e) (m * last_block + e) f }
{
    let t = w[m * LAST + f] as usize;
    w[m * NEXT + t] = e as u64;
    w[m * NEXT + e] = 0;
    w[m * LAST + f] = e as u64;
    w[m * LAST + e] = f as u64;
}

// End e as a leader, in front of the bucket b.
fn lead(w: &mut [u64], m: usize, e: usize, b: usize)
    requires { GroupingRoom w.old m × (e < m) × (b < m) }
    ensures { w.new ≡ set (set (set (set w.old (m + e) (get_or w.old b 0)) b (e + 1)) (m * next_block + e) 0)
        (m * last_block + e) e }
{
    let h = w[b];
    w[m + e] = h;
    w[b] = (e + 1) as u64;
    w[m * NEXT + e] = 0;
    w[m * LAST + e] = e as u64;
}

// End e, put where it belongs.
fn place(w: &mut [u64], m: usize, e: usize)
    requires { GroupingRoom w.old m × (e < m) × GroupedIn w.old w.old m e }
    ensures { EndPlaced w.new w.old m (e + 1) }
{
    let key = key_at(w, m * KEYS, e);
    let b = bucket(key, m);
    match find(w, m, e, key, b) {
        Some(f) => append(w, m, e, f),
        None => lead(w, m, e, b),
    }
}

// The m ends whose keys stand in w from 4 m on, grouped.
pub fn group(w: &mut [u64], m: usize)
    requires { GroupingRoom w.old m }
    ensures { Nodes w.new w.old m }
{
    point_slices::clear(w, m);
    for e in 0..m {
        place(w, m, e);
    }
}
