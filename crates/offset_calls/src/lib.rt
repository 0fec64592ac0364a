// The calls with an offset, so many millimetres per metre run, in the limit's place.
#![tactic(auto)]

ghost use Rattle.std.specs.Prelude.{◌≡◌};
ghost use Rattle.rules.specs.Answers.{answered, refusal_number};
ghost use Rattle.rules.specs.Lent.{lines_of};
ghost use Rattle.rules.specs.Refusals.{rooms};
ghost use Rattle.rules.specs.Offset.{BuiltOffset, PairedOffset, ends_for};
ghost use Rattle.offset_calls.specs.Renumbered.{renumber, renumbered as renumbered_of};

use pair_calls::Route;
use rules::{Answer, Ends, LentLines, Refusal, Settings};

// The refusal of such a call, by that of the call with the offset's limit: a limit refused is an offset refused. With a switch above 1 it is the switch that
// was refused.
fn of_offset(switch: u8, refusal: Refusal) -> Refusal
    ensures { refusal_number result ≡ renumber switch (refusal_number refusal) }
{
    if switch <= 1 && refusal == Refusal::BadLimit {
        return Refusal::BadOffset;
    }
    refusal
}

// The answer of such a call, by that of the call with the offset's limit.
fn renumbered(switch: u8, answer: Answer) -> Answer
    ensures { answered result ≡ renumbered_of switch (answered answer) }
{
    match answer {
        Ok(n) => Ok(n),
        Err(refusal) => Err(of_offset(switch, refusal)),
    }
}

// Builds the chains of a call, of lines of a type. A refused call changes no slice.
pub fn build_offset(
    wkb_type: u32,
    lines: &LentLines,
    tolerance: f64,
    origin_x: f64,
    origin_y: f64,
    switch: u8,
    offset: u32,
    table: &mut [u32],
    members: &mut [u32],
    marks: &mut [u8],
    listing: &mut [u32],
    merged: &mut [u64],
    boxes: &mut [u64],
    spare: &mut [u64],
    workspace: &mut [u64],
) -> Answer
    ensures { BuiltOffset wkb_type (lines_of lines.now)
        tolerance origin_x origin_y switch offset
        (rooms table.old members.old marks.old listing.old
        merged.old boxes.old spare.old workspace.old)
        (answered result) (rooms table.new members.new marks.new listing.new
        merged.new boxes.new spare.new workspace.new) }
{
    let limit = float_offset::limit_for(offset);
    renumbered(
        switch,
        build_chains::build(
            wkb_type,
            lines,
            Settings {
                tolerance,
                origin_x,
                origin_y,
                switch,
                limit,
            },
            table,
            members,
            marks,
            listing,
            merged,
            boxes,
            spare,
            workspace,
        ),
    )
}

// The selected pairs of the lent ends, by a route; the number of pairs.
pub fn pairs_offset<R: Route>(
    ends: &Ends,
    offset: u32,
    pairs: &mut [u32],
    workspace: &mut [u64],
) -> Answer
    ensures { PairedOffset R.ALONE offset
        (ends_for ends.now.present.now ends.now.directions.now ends.now.pieces.now offset pairs.old workspace.old)
        (answered result) pairs.new workspace.new }
{
    let limit = float_offset::limit_for(offset);
    renumbered(1, pair_calls::pairs::<R>(ends, limit, pairs, workspace))
}
