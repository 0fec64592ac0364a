// Building: refusals, round one, round two where the tolerance is above 0, the layout, and the zeros that are left.
#![tactic(auto)]

ghost use Rattle.std.specs.Prelude.{◌≡◌, ◌*◌, ◌≤◌, length};
ghost use Rattle.rules.specs.Answers.{answered};
ghost use Rattle.rules.specs.Chaining.{rule_of, cells_of, join, round_one};
ghost use Rattle.rules.specs.Lent.{lines_of};
ghost use Rattle.rules.specs.Refusals.{rooms, refusal_of};
ghost use Rattle.rules.specs.Calls.{Built};
ghost use Rattle.chain_pieces.specs.Map.{taken_block};
ghost use Rattle.build_lines.specs.Taken.{plain_of};
ghost use Rattle.build_chains.specs.Building.{Buildable, Left, Layable, WalksLaid, Second, Twice, AllLeft};

use build_walks::Walked;
use chain_pieces::TAKEN;
use rules::{Answer, LINE_ROOM, LentLines, Meeting, Settings};

// Where the pieces that the rounds leave stand in the workspace, how many there are, and how many lines they have.
#[derive(Clone, Copy)]
pub struct Pieces {
    pub at: usize,
    pub number: usize,
    pub lines: usize,
}

// Round one: the plain lines of a call as pieces, joined where their ends are the same place. What the pieces copy goes into `out`.
pub fn round_one(
    lines: &LentLines,
    width: usize,
    settings: Settings,
    out: &mut [u64],
    workspace: &mut [u64],
) -> Pieces
    requires { Buildable width (lines_of lines.now) settings out.old workspace.old }
    ensures { Left width (length lines.now.counts.now) lines.now.coordinates.now lines.now.counts.now
        (round_one settings (plain_of width (lines_of lines.now)))
        result.at result.number out.new out.old workspace.new workspace.old
        × (result.at ≡ length lines.now.counts.now * taken_block)
        × (result.lines ≡ length (plain_of width (lines_of lines.now))) }
{
    let n = lines.counts.len();
    let at = n * TAKEN;
    let end = n * LINE_ROOM;
    let taken = build_lines::take_lines(&mut workspace[at..end], n, lines.counts, lines.kinds);
    let number = chain_round::join_pieces(
        &mut workspace[at..end],
        n,
        taken,
        None,
        settings,
        width,
        lines.groups,
        lines.coordinates,
        lines.coordinates,
        out,
    );
    Pieces {
        at,
        number,
        lines: taken,
    }
}

// Round two, of the m pieces of n lines that stand where round one leaves its own: joined where their ends are in one cell. Returns how many there are then.
pub fn round_two<'a>(
    coordinates: &'a [u64],
    width: usize,
    n: usize,
    groups: &[u32],
    settings: Settings,
    m: usize,
    copies: &'a [u64],
    merged: &mut [u64],
    workspace: &mut [u64],
) -> usize
    requires { Second width n m settings coordinates.now groups.now copies.now merged.old workspace.old }
    ensures { (y : Second width n m settings coordinates.now groups.now copies.now merged.old
        workspace.old)
        → Left width n coordinates.now y.counts (join (rule_of (cells_of settings) settings) y.ps)
        0 result merged.new merged.old workspace.new workspace.old }
{
    let end = n * LINE_ROOM;
    let grid = Some(Meeting {
        tolerance: settings.tolerance,
        origin_x: settings.origin_x,
        origin_y: settings.origin_y,
    });
    chain_round::join_pieces(
        &mut workspace[0..end],
        n,
        m,
        grid,
        settings,
        width,
        groups,
        coordinates,
        copies,
        merged,
    )
}

// The walks of round one, laid from its part of the workspace into `out`.
fn lay_walks(
    workspace: &mut [u64],
    n: usize,
    one: Walked,
    width: usize,
    coordinates: &[u64],
    out: &mut [u64],
)
    requires { Layable width n one.lines one.number coordinates.now out.old workspace.old }
    ensures { (y : Layable width n one.lines one.number coordinates.now out.old workspace.old)
        → WalksLaid width n one.number coordinates.now y.emits.counts (join y.emits.rule y.emits.ps)
        out.new out.old workspace.new workspace.old }
{
    let at = n * TAKEN;
    let end = n * LINE_ROOM;
    chain_round::emit_round(
        &mut workspace[at..end],
        n,
        one.lines,
        one.number,
        width,
        coordinates,
        coordinates,
        out,
    );
}

// The lines joined in two rounds, where the tolerance is above 0. Where round two can join none of round one's walks, these are laid into `merged`, and it is
// done; otherwise round one merges into `spare`, and round two from there into `merged`.
fn join_twice(
    lines: &LentLines,
    width: usize,
    settings: Settings,
    merged: &mut [u64],
    spare: &mut [u64],
    workspace: &mut [u64],
) -> Pieces
    requires { Twice width (lines_of lines.now) settings merged.old spare.old workspace.old }
    ensures { AllLeft width (lines_of lines.now) settings
        result.at result.number result.lines merged.new merged.old spare.new spare.old
        workspace.new workspace.old }
{
    let n = lines.counts.len();
    let at = n * TAKEN;
    let end = n * LINE_ROOM;
    let one = build_walks::walk_lines(&mut workspace[at..end], n, lines, width, settings);
    if one.apart {
        lay_walks(workspace, n, one, width, lines.coordinates, merged);
        return Pieces {
            at,
            number: one.number,
            lines: one.lines,
        };
    }
    lay_walks(workspace, n, one, width, lines.coordinates, spare);
    let number = chain_round::join_grouped(
        &mut workspace[0..end],
        n,
        one.number,
        chain_round::pairing_limit(settings),
        width,
        lines.coordinates,
        spare,
        merged,
    );
    Pieces {
        at: 0,
        number,
        lines: one.lines,
    }
}

// The lines joined in one round, or in two where the tolerance is above 0.
fn join_lines(
    lines: &LentLines,
    width: usize,
    settings: Settings,
    merged: &mut [u64],
    spare: &mut [u64],
    workspace: &mut [u64],
) -> Pieces
    requires { Buildable width (lines_of lines.now) settings merged.old workspace.old
        × (length lines.now.coordinates.now ≤ length spare.old) }
    ensures { AllLeft width (lines_of lines.now) settings
        result.at result.number result.lines merged.new merged.old spare.new spare.old
        workspace.new workspace.old }
{
    if 0.0 < settings.tolerance {
        join_twice(lines, width, settings, merged, spare, workspace)
    } else {
        round_one(lines, width, settings, merged, workspace)
    }
}

// A call that is not refused: the rounds, the layout, the boxes, and the zeros that are left.
fn build_admitted(
    wkb_type: u32,
    lines: &LentLines,
    settings: Settings,
    table: &mut [u32],
    members: &mut [u32],
    marks: &mut [u8],
    listing: &mut [u32],
    merged: &mut [u64],
    boxes: &mut [u64],
    spare: &mut [u64],
    workspace: &mut [u64],
) -> Answer
    requires { refusal_of wkb_type (lines_of lines.now) settings
        (rooms table.old members.old marks.old listing.old merged.old boxes.old spare.old workspace.old) ≡ 0 }
    ensures { Built wkb_type (lines_of lines.now) settings
        (rooms table.old members.old marks.old listing.old
        merged.old boxes.old spare.old workspace.old)
        (answered result) (rooms table.new members.new marks.new listing.new
        merged.new boxes.new spare.new workspace.new) }
{
    let n = lines.counts.len();
    let width = point_numbers::width_of(wkb_type);
    let left = join_lines(lines, width, settings, merged, spare, workspace);
    let at = left.at;
    let end = n * LINE_ROOM;
    let number = build_layout::lay_out(
        &workspace[at..end],
        n,
        left.number,
        left.lines,
        width,
        lines,
        merged,
        table,
        members,
        marks,
        listing,
    );
    build_boxes::lay_boxes(lines.coordinates, merged, table, width, number, boxes);
    point_slices::clear(spare, lines.coordinates.len());
    point_slices::clear(workspace, end);
    Ok(number as u64)
}

// Builds the chains of a call, of lines of a type: table, members, marks, listing, merged coordinates and boxes. A refused call changes no slice; an accepted
// one leaves spare and workspace zero over their named length, whatever they held.
pub fn build(
    wkb_type: u32,
    lines: &LentLines,
    settings: Settings,
    table: &mut [u32],
    members: &mut [u32],
    marks: &mut [u8],
    listing: &mut [u32],
    merged: &mut [u64],
    boxes: &mut [u64],
    spare: &mut [u64],
    workspace: &mut [u64],
) -> Answer
    ensures { Built wkb_type (lines_of lines.now) settings
        (rooms table.old members.old marks.old listing.old
        merged.old boxes.old spare.old workspace.old)
        (answered result) (rooms table.new members.new marks.new listing.new
        merged.new boxes.new spare.new workspace.new) }
{
    build_refusals::refusal(
        wkb_type,
        lines.coordinates,
        lines.counts,
        lines.groups,
        lines.kinds,
        settings,
        table,
        members,
        marks,
        listing,
        merged,
        boxes,
        spare,
        workspace,
    )?;
    build_admitted(
        wkb_type, lines, settings, table, members, marks, listing, merged, boxes, spare, workspace,
    )
}
