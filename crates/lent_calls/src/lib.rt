// One exact round, many zooms: the first call leaves the pieces of round one in lent slices, and the second takes such pieces, with a tolerance and an
// origin, and finishes them.
#![tactic(auto)]

ghost use Rattle.std.specs.Prelude.{◌≡◌, length};
ghost use Rattle.rules.specs.Answers.{Accepted, answered};
ghost use Rattle.rules.specs.Chaining.{round_two};
ghost use Rattle.rules.specs.Pieces.{first_rooms, first_refusal_of, FirstLeft, finish_rooms, finish_refusal_of, Finished};
ghost use Rattle.build_chains.specs.Building.{Left, Second};
ghost use Rattle.lent_laws.specs.Lent.{as_lines, as_pieces};

use lent_laws::Pieces;
use rules::{Answer, LINE_ROOM, LentLines, Settings};

// A first call that is not refused: round one, its pieces as they are lent, and the zeros that are left. Returns how many pieces there are.
fn first_admitted(
    wkb_type: u32,
    lines: &LentLines,
    switch: u8,
    limit: f64,
    pieces: &mut [u32],
    members: &mut [u32],
    marks: &mut [u8],
    listing: &mut [u32],
    merged: &mut [u64],
    workspace: &mut [u64],
) -> u64
    requires { first_refusal_of wkb_type (as_lines lines.now) switch limit
        (first_rooms pieces.old members.old marks.old listing.old
        merged.old workspace.old) ≡ 0 }
    ensures { FirstLeft wkb_type (as_lines lines.now) switch limit
        (first_rooms pieces.old members.old marks.old listing.old
        merged.old workspace.old)
        (Accepted result) (first_rooms pieces.new members.new marks.new listing.new
        merged.new workspace.new) }
{
    let n = lines.counts.len();
    let width = point_numbers::width_of(wkb_type);
    let settings = Settings {
        tolerance: 0.0,
        origin_x: 0.0,
        origin_y: 0.0,
        switch,
        limit,
    };
    let left = build_chains::round_one(lines, width, settings, merged, workspace);
    let at = left.at;
    let end = n * LINE_ROOM;
    lent_taking::leave_pieces(
        &workspace[at..end],
        n,
        left.number,
        left.lines,
        pieces,
        members,
        marks,
        listing,
    );
    point_slices::clear(workspace, end);
    left.number as u64
}

// Leaves the pieces of round one: their records, members, marks, listing and merged coordinates. A refused call changes no slice; an accepted one leaves
// the workspace zero over its named length, whatever it held.
pub fn first(
    wkb_type: u32,
    lines: &LentLines,
    switch: u8,
    limit: f64,
    pieces: &mut [u32],
    members: &mut [u32],
    marks: &mut [u8],
    listing: &mut [u32],
    merged: &mut [u64],
    workspace: &mut [u64],
) -> Answer
    ensures { FirstLeft wkb_type
        (as_lines lines.now) switch limit
        (first_rooms pieces.old members.old marks.old listing.old
        merged.old workspace.old)
        (answered result) (first_rooms pieces.new members.new marks.new listing.new
        merged.new workspace.new) }
{
    lent_refusals::first_refusal(
        wkb_type, lines, switch, limit, pieces, members, marks, listing, merged, workspace,
    )?;
    Ok(first_admitted(
        wkb_type, lines, switch, limit, pieces, members, marks, listing, merged, workspace,
    ))
}

// The m pieces of the lines that stand where a round takes its own in, with their copies in `copies`: joined where their ends are in one cell, if the
// tolerance is above 0, and else as they are. Returns how many there are then.
fn join_again<'a>(
    lines: &LentLines<'a>,
    width: usize,
    settings: Settings,
    m: usize,
    copies: &'a [u64],
    merged: &mut [u64],
    workspace: &mut [u64],
) -> usize
    requires { Second width (length lines.now.counts.now) m settings lines.now.coordinates.now lines.now.groups.now copies.now merged.old workspace.old }
    ensures { (y : Second width (length lines.now.counts.now) m settings lines.now.coordinates.now lines.now.groups.now copies.now
        merged.old workspace.old)
        → Left width (length lines.now.counts.now) lines.now.coordinates.now y.counts (round_two settings y.ps)
        0 result merged.new merged.old workspace.new workspace.old }
{
    let n = lines.counts.len();
    if 0.0 < settings.tolerance {
        return build_chains::round_two(
            lines.coordinates,
            width,
            n,
            lines.groups,
            settings,
            m,
            copies,
            merged,
            workspace,
        );
    }
    let end = n * LINE_ROOM;
    chain_keeping::keep_pieces(
        &mut workspace[0..end],
        n,
        m,
        width,
        lines.coordinates,
        copies,
        merged,
    );
    m
}

// A second call that is not refused: the lent pieces taken in, round two, the layout, the boxes, and the zeros that are left. Returns how many chains there
// are.
fn finish_admitted<'a>(
    wkb_type: u32,
    lines: &LentLines<'a>,
    pieces: &Pieces<'a>,
    settings: Settings,
    table: &mut [u32],
    members: &mut [u32],
    marks: &mut [u8],
    listing: &mut [u32],
    merged: &mut [u64],
    boxes: &mut [u64],
    workspace: &mut [u64],
) -> u64
    requires { finish_refusal_of wkb_type (as_lines lines.now) (as_pieces pieces.now) settings
        (finish_rooms table.old members.old marks.old listing.old
        merged.old boxes.old workspace.old) ≡ 0 }
    ensures { Finished wkb_type (as_lines lines.now) (as_pieces pieces.now) settings
        (finish_rooms table.old members.old marks.old listing.old
        merged.old boxes.old workspace.old)
        (Accepted result) (finish_rooms table.new members.new marks.new listing.new
        merged.new boxes.new workspace.new) }
{
    let n = lines.counts.len();
    let width = point_numbers::width_of(wkb_type);
    let taken = lent_taking::take_pieces(workspace, n, pieces);
    let left = join_again(
        lines,
        width,
        settings,
        pieces.number as usize,
        pieces.merged,
        merged,
        workspace,
    );
    let end = n * LINE_ROOM;
    let number = build_layout::lay_out(
        &workspace[0..end],
        n,
        left,
        taken,
        width,
        lines,
        merged,
        table,
        members,
        marks,
        listing,
    );
    build_boxes::lay_boxes(lines.coordinates, merged, table, width, number, boxes);
    point_slices::clear(workspace, end);
    number as u64
}

// Finishes the k pieces that are lent: the chains of a call, as building writes them. A refused call changes no slice; an accepted one leaves the workspace
// zero over its named length, whatever it held. The lent pieces are not changed.
pub fn finish<'a>(
    wkb_type: u32,
    lines: &LentLines<'a>,
    pieces: &Pieces<'a>,
    settings: Settings,
    table: &mut [u32],
    members: &mut [u32],
    marks: &mut [u8],
    listing: &mut [u32],
    merged: &mut [u64],
    boxes: &mut [u64],
    workspace: &mut [u64],
) -> Answer
    ensures { Finished wkb_type (as_lines lines.now) (as_pieces pieces.now) settings
        (finish_rooms table.old members.old marks.old listing.old
        merged.old boxes.old workspace.old)
        (answered result) (finish_rooms table.new members.new marks.new listing.new
        merged.new boxes.new workspace.new) }
{
    lent_refusals::finish_refusal(
        wkb_type, lines, pieces, settings, table, members, marks, listing, merged, boxes, workspace,
    )?;
    Ok(finish_admitted(
        wkb_type, lines, pieces, settings, table, members, marks, listing, merged, boxes, workspace,
    ))
}
