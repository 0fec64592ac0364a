// One round of joining: from the pieces that go in, which stand in their block of a round's part of the workspace, for n lines, to those that come out,
// in the block at its front. chain_pieces has the map.
#![tactic(auto)]

ghost use Rattle.std.specs.Prelude.{◌≡◌, ◌*◌};
ghost use Rattle.rules.specs.declared.Settings.{Settings};
ghost use Rattle.rules.specs.Chaining.{rule_of, join};
ghost use Rattle.chain_nodes.specs.Noded.{Noded};
ghost use Rattle.chain_round.specs.Round.{paired_to, Rounding, EndsStand, RoundWalked, Walkable, RoundEmits, RoundEmitted, GroupedRound, Joinable, Rounded};

use chain_grouping::KEYS;
use chain_pieces::{GROUPS, JOINS, MEMBERS, TAKEN};
use chain_walks::{ENTRIES, LENGTHS};
use rules::{Grid, Settings};

// The ends of m pieces, grouped by the keys that an exact round or one of cells gives them.
fn group_ends<'a>(
    w: &mut [u64],
    n: usize,
    m: usize,
    grid: Grid,
    width: usize,
    groups: &[u32],
    input: &'a [u64],
    spare: &'a [u64],
)
    requires { Rounding width w.old n m groups.now input.now spare.now }
    ensures { (y : Rounding width w.old n m groups.now input.now spare.now) (s : Settings)
        → EndsStand width w.new n (m * 2) (rule_of grid s) y.counts y.ps input.now spare.now }
{
    let old = n * TAKEN;
    let ends = m * 2;
    let at = n * GROUPS;
    chain_keys::collect_keys(
        w,
        old,
        old + n * MEMBERS,
        at + ends * KEYS,
        m,
        width,
        groups,
        input,
        spare,
        grid,
    );
    chain_grouping::group(&mut w[at..], ends);
}

// Down to which limit junctions are paired, where they are.
pub fn pairing_limit(settings: Settings) -> Option<f64>
    ensures { result ≡ paired_to settings }
{
    (settings.switch == 1).then_some(settings.limit)
}

// The walks of m pieces whose ends are grouped: their entries and their lengths. Returns how many there are.
fn walk_pieces<'a>(
    w: &mut [u64],
    n: usize,
    m: usize,
    limit: Option<f64>,
    width: usize,
    input: &'a [u64],
    spare: &'a [u64],
) -> usize
    requires { Noded width w.old n (m * 2) limit input.now spare.now }
    ensures { (y : Noded width w.old n (m * 2) limit input.now spare.now)
        → RoundWalked width w.new n m result y.rule y.counts y.ps input.now spare.now }
{
    let joins = n * JOINS;
    point_slices::clear(&mut w[joins..], m * ENTRIES);
    chain_nodes::join_nodes(w, n, m * 2, limit, width, input, spare);
    chain_walks::walk_all(&mut w[joins..], m)
}

// The walks of m pieces: their entries and their lengths. Returns how many there are.
pub fn walk_round<'a>(
    w: &mut [u64],
    n: usize,
    m: usize,
    grid: Grid,
    settings: Settings,
    width: usize,
    groups: &[u32],
    input: &'a [u64],
    spare: &'a [u64],
) -> usize
    requires { Walkable width w.old n m settings groups.now input.now spare.now }
    ensures { (y : Walkable width w.old n m settings groups.now input.now spare.now)
        → RoundWalked width w.new n m result (rule_of grid settings) y.rounding.counts y.rounding.ps input.now spare.now }
{
    group_ends(w, n, m, grid, width, groups, input, spare);
    walk_pieces(w, n, m, pairing_limit(settings), width, input, spare)
}

// The pieces of the r walks of m pieces.
pub fn emit_round<'a>(
    w: &mut [u64],
    n: usize,
    m: usize,
    r: usize,
    width: usize,
    input: &'a [u64],
    spare: &'a [u64],
    merged: &mut [u64],
)
    requires { RoundEmits width w.old n m r input.now spare.now merged.old }
    ensures { (y : RoundEmits width w.old n m r input.now spare.now merged.old)
        → RoundEmitted width w.new w.old n r input.now merged.new merged.old
        y.counts (join y.rule y.ps) }
{
    chain_merging::emit_all(
        w,
        n,
        n * TAKEN,
        m,
        n * JOINS + m * ENTRIES,
        n * JOINS + m * LENGTHS,
        r,
        width,
        input,
        spare,
        merged,
    );
}

// m pieces whose ends are grouped, joined. Returns how many come out.
pub fn join_grouped<'a>(
    w: &mut [u64],
    n: usize,
    m: usize,
    limit: Option<f64>,
    width: usize,
    input: &'a [u64],
    spare: &'a [u64],
    merged: &mut [u64],
) -> usize
    requires { GroupedRound width w.old n m limit input.now spare.now merged.old }
    ensures { (y : GroupedRound width w.old n m limit input.now spare.now merged.old)
        → Rounded width w.new w.old n result input.now merged.new merged.old
        y.noded.counts (join y.noded.rule y.noded.ps) }
{
    let r = walk_pieces(w, n, m, limit, width, input, spare);
    emit_round(w, n, m, r, width, input, spare, merged);
    r
}

// m pieces joined. Returns how many come out.
pub fn join_pieces<'a>(
    w: &mut [u64],
    n: usize,
    m: usize,
    grid: Grid,
    settings: Settings,
    width: usize,
    groups: &[u32],
    input: &'a [u64],
    spare: &'a [u64],
    merged: &mut [u64],
) -> usize
    requires { Joinable width w.old n m settings groups.now input.now spare.now merged.old }
    ensures { (y : Joinable width w.old n m settings groups.now input.now spare.now merged.old)
        → Rounded width w.new w.old n result input.now merged.new merged.old
        y.walkable.rounding.counts (join (rule_of grid settings) y.walkable.rounding.ps) }
{
    group_ends(w, n, m, grid, width, groups, input, spare);
    join_grouped(
        w,
        n,
        m,
        pairing_limit(settings),
        width,
        input,
        spare,
        merged,
    )
}
