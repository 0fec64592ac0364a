// Nodes read off grouped ends, and joins put into a table. The table, a list of ends and the groups stand in one workspace.
#![tactic(auto)]

ghost use Rattle.std.specs.Prelude.{◌+◌, ◌≤◌, ◌<◌, length, drop};
ghost use Rattle.std.proofs.Math.Seq.{slice};
ghost use Rattle.chain_laws.specs.Table.{put, fill};
ghost use Rattle.point_slices.specs.Holds.{HoldsFrom};
ghost use Rattle.chain_joins.specs.Node.{node_of, named_pairs, NodeListable, Puttable};

use chain_grouping::NEXT;

// The ends of the node that e leads, from `list` on; m ends are grouped from `at` on. Returns how many there are.
pub fn list_node(w: &mut [u64], list: usize, at: usize, m: usize, e: usize) -> usize
    requires { NodeListable w.old list at m e }
    ensures { HoldsFrom w.new w.old list result (node_of (drop at w.old) m e) }
{
    let mut f = e;
    for d in 0..m {
        w[list + d] = f as u64;
        let Some(next) = chain_grouping::next_end(w[at + m * NEXT + f]) else {
            return d + 1;
        };
        f = next;
    }
    m
}

// The ends a and b joined, in the table of m ends from `joins` on.
pub fn put_join(w: &mut [u64], joins: usize, m: usize, a: usize, b: usize)
    requires { (joins + m ≤ length w.old) × (a < m) × (b < m) }
    ensures { HoldsFrom w.new w.old joins m (put (slice joins (joins + m) w.old) (a, b)) }
{
    w[joins + a] = (b + 1) as u64;
    w[joins + b] = (a + 1) as u64;
}

// The r pairs from `pairs` on, which are places in the list of ends, joined.
pub fn put_joins(
    w: &mut [u64],
    joins: usize,
    m: usize,
    list: usize,
    d: usize,
    pairs: usize,
    r: usize,
)
    requires { Puttable w.old joins m list d pairs r }
    ensures { HoldsFrom w.new w.old joins m
        (fill (slice joins (joins + m) w.old) (named_pairs w.old list pairs r)) }
{
    for k in 0..r {
        let i = w[pairs + k * 2] as usize;
        let j = w[pairs + k * 2 + 1] as usize;
        let a = w[list + i] as usize;
        let b = w[list + j] as usize;
        put_join(w, joins, m, a, b);
    }
}
