// Whether a round can join any of the ends that are grouped by key. Where none can be joined, the pieces that go in come out as they are.
#![tactic(auto)]

ghost use Rattle.std.specs.Prelude.{◌≡◌, ◌<◌};
ghost use Rattle.chain_grouping.specs.Group.{GroupingRoom, Nodes};
ghost use Rattle.chain_apart.specs.Apart.{meets_at, apart_to};

use chain_grouping::{LAST, NEXT};

// Whether the node that e leads, if it leads one, can join ends: two of two pieces, or three and more where junction pairing is on.
fn meets(v: &[u64], m: usize, e: usize, on: bool) -> bool
    requires { GroupingRoom v.now m × Nodes v.now v.now m × (e < m) }
    ensures { result ≡ meets_at on v.now m e }
{
    let f = v[m * NEXT + e] as usize;
    if (v[m * LAST + e] as usize) < e || f == 0 {
        return false;
    }
    if v[m * NEXT + f] == 0 {
        e / 2 != f / 2
    } else {
        on
    }
}

// Whether no node of m ends, which are grouped in v, can join any.
pub fn apart(v: &[u64], m: usize, on: bool) -> bool
    requires { GroupingRoom v.now m × Nodes v.now v.now m }
    ensures { result ≡ apart_to on v.now m m }
{
    !(0..m).any(|e| meets(v, m, e, on))
}
