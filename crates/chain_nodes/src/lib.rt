// From grouped ends to joins, node by node. A round's part of the workspace, for n lines, has the table of joins at 8 n, the pieces that went in at 13 n, room
// for the ends of one node at 21 n and for their pairing at 23 n, and the groups at 151 n.
#![tactic(auto)]

ghost use mathlib.Core.List.{flat_map};
ghost use Rattle.std.specs.Prelude.{◌+◌, ◌*◌, ◌<◌, drop};
ghost use Rattle.std.proofs.Math.Seq.{slice};
ghost use Rattle.rules.specs.Chaining.{joined};
ghost use Rattle.chain_laws.specs.Table.{fill};
ghost use Rattle.chain_joins.specs.Node.{node_of, runs_to};
ghost use Rattle.chain_nodes.specs.Noded.{Noded, Junction, Joined, joins_at};
ghost use Rattle.chain_pieces.specs.Map.{group_block, join_block};

use chain_grouping::{LAST, NEXT};
use chain_pieces::{GROUPS, JOINS, NODE, PAIRING, TAKEN};
use pair_ends::PAIRS;

// The joins of a junction, a node of three or more ends that e leads: its selected pairs.
fn join_junction<'a>(
    w: &mut [u64],
    n: usize,
    m: usize,
    e: usize,
    limit: f64,
    width: usize,
    input: &'a [u64],
    spare: &'a [u64],
)
    requires { Junction width w.old n m e limit input.now spare.now }
    ensures { (y : Junction width w.old n m e limit input.now spare.now)
        → Joined w.new w.old n m
        (fill (slice (n * join_block) (n * join_block + m) w.old)
        (joined y.noded.rule y.noded.ps (node_of (drop (n * group_block) w.old) m e))) }
{
    let d = chain_joins::list_node(w, n * NODE, n * GROUPS, m, e);
    chain_junctions::put_ends(w, n * TAKEN, n * NODE, n * PAIRING, d, width, input, spare);
    let r = pair_chosen::junction_pairs(&mut w[n * PAIRING..], d, limit);
    chain_joins::put_joins(w, n * JOINS, m, n * NODE, d, n * PAIRING + d * PAIRS, r);
}

// The joins of the node that e leads, if it leads one. Junctions are paired down to the limit, if there is one.
fn join_node<'a>(
    w: &mut [u64],
    n: usize,
    m: usize,
    e: usize,
    limit: Option<f64>,
    width: usize,
    input: &'a [u64],
    spare: &'a [u64],
)
    requires { Noded width w.old n m limit input.now spare.now × (e < m) }
    ensures { (y : Noded width w.old n m limit input.now spare.now)
        → Joined w.new w.old n m
        (fill (slice (n * join_block) (n * join_block + m) w.old)
        (joins_at y.rule y.ps (drop (n * group_block) w.old) m e)) }
{
    let groups = n * GROUPS;
    if (w[groups + m * LAST + e] as usize) < e {
        return;
    }
    let Some(f) = chain_grouping::next_end(w[groups + m * NEXT + e]) else {
        return;
    };
    match chain_grouping::next_end(w[groups + m * NEXT + f]) {
        None => {
            if e / 2 != f / 2 {
                chain_joins::put_join(w, n * JOINS, m, e, f);
            }
        }
        Some(_) => {
            if let Some(limit) = limit {
                join_junction(w, n, m, e, limit, width, input, spare);
            }
        }
    }
}

// The joins of all nodes.
pub fn join_nodes<'a>(
    w: &mut [u64],
    n: usize,
    m: usize,
    limit: Option<f64>,
    width: usize,
    input: &'a [u64],
    spare: &'a [u64],
)
    requires { Noded width w.old n m limit input.now spare.now }
    ensures { (y : Noded width w.old n m limit input.now spare.now)
        → Joined w.new w.old n m
        (fill (slice (n * join_block) (n * join_block + m) w.old)
        (flat_map (joined y.rule y.ps) (runs_to (drop (n * group_block) w.old) m m))) }
{
    for e in 0..m {
        join_node(w, n, m, e, limit, width, input, spare);
    }
}
