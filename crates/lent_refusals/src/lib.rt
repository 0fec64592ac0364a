// The refusals of the two calls that part building, in the order of checking.
#![tactic(auto)]

ghost use Rattle.std.specs.Prelude.{◌≡◌};
ghost use Rattle.rules.specs.Answers.{found};
ghost use Rattle.rules.specs.Refusals.{first_of};
ghost use Rattle.rules.specs.Pieces.{first_rooms, first_refusal_of, finish_rooms, finish_refusal_of};
ghost use Rattle.lent_laws.specs.Lent.{as_lines, as_pieces};
ghost use Rattle.lent_refusals.specs.Tests.{call_tests};

use build_refusals::any_short;
use lent_laws::Pieces;
use rules::{BOX_ROOM, BOX_ROOM_BESIDE, LINE_ROOM, LentLines, PIECE, RECORD, Refusal, Settings};

// Refuses a call by the first test of its lines, its switch and its limit that holds.
fn call_refusal(wkb_type: u32, lines: &LentLines, switch: u8, limit: f64) -> Result<(), Refusal>
    ensures { found result ≡ first_of (call_tests wkb_type (as_lines lines.now) switch limit) }
{
    build_refusals::line_refusal(
        wkb_type,
        lines.coordinates,
        lines.counts,
        lines.groups,
        lines.kinds,
    )?;
    if build_refusals::switch_bad(switch, limit) {
        return Err(Refusal::BadLimit);
    }
    Ok(())
}

// Refuses the first call by the first test that holds.
pub fn first_refusal(
    wkb_type: u32,
    lines: &LentLines,
    switch: u8,
    limit: f64,
    pieces: &[u32],
    members: &[u32],
    marks: &[u8],
    listing: &[u32],
    merged: &[u64],
    workspace: &[u64],
) -> Result<(), Refusal>
    ensures { found result ≡ first_refusal_of wkb_type (as_lines lines.now) switch limit
        (first_rooms pieces.now members.now marks.now listing.now merged.now workspace.now) }
{
    call_refusal(wkb_type, lines, switch, limit)?;
    let n = lines.counts.len();
    if any_short(&[
        (pieces.len(), n * PIECE),
        (members.len(), n),
        (marks.len(), n),
        (listing.len(), n),
        (merged.len(), lines.coordinates.len()),
        (workspace.len(), n * LINE_ROOM),
    ]) {
        return Err(Refusal::RoomTooShort);
    }
    Ok(())
}

// Refuses the second call by the first test that holds.
pub fn finish_refusal(
    wkb_type: u32,
    lines: &LentLines,
    pieces: &Pieces,
    settings: Settings,
    table: &[u32],
    members: &[u32],
    marks: &[u8],
    listing: &[u32],
    merged: &[u64],
    boxes: &[u64],
    workspace: &[u64],
) -> Result<(), Refusal>
    ensures { found result ≡ finish_refusal_of wkb_type (as_lines lines.now) (as_pieces pieces.now) settings
        (finish_rooms table.now members.now marks.now listing.now merged.now boxes.now workspace.now) }
{
    call_refusal(wkb_type, lines, settings.switch, settings.limit)?;
    if build_refusals::origin_bad(settings.origin_x, settings.origin_y) {
        return Err(Refusal::BadOrigin);
    }
    let width = point_numbers::width_of(wkb_type);
    if lent_judging::lent_bad(width, lines, pieces) {
        return Err(Refusal::BadPieces);
    }
    let n = lines.counts.len();
    if any_short(&[
        (table.len(), n * RECORD),
        (members.len(), n),
        (marks.len(), n),
        (listing.len(), n),
        (merged.len(), lines.coordinates.len()),
        (boxes.len(), n * BOX_ROOM + BOX_ROOM_BESIDE),
        (workspace.len(), n * LINE_ROOM),
    ]) {
        return Err(Refusal::RoomTooShort);
    }
    Ok(())
}
