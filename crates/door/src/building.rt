// Building: in one call, with a limit or with an offset in its place, or in two.
ghost use Rattle.rules.specs.Layout.{lent};
ghost use Rattle.rules.specs.Refusals.{rooms};
ghost use Rattle.rules.specs.Calls.{Numbered, Built};
ghost use Rattle.rules.specs.Pieces.{lent_pieces, first_rooms, FirstLeft, finish_rooms, Finished};
ghost use Rattle.rules.specs.Offset.{BuiltOffset};

use crate::number;
use lent_laws::Pieces;
use rules::{LentLines, Settings};

// Building: the number of chains.
#[unsafe(no_mangle)]
pub extern "C" fn lovasuku_build(
    wkb_type: u32,
    coordinates: &[u64],
    counts: &[u32],
    groups: &[u32],
    kinds: &[u8],
    tolerance: f64,
    origin_x: f64,
    origin_y: f64,
    switch: u8,
    limit: f64,
    table: &mut [u32],
    members: &mut [u32],
    marks: &mut [u8],
    listing: &mut [u32],
    merged: &mut [u64],
    boxes: &mut [u64],
    spare: &mut [u64],
    workspace: &mut [u64],
) -> u64
    ensures { Numbered (λ a. Built wkb_type (lent coordinates.now counts.now groups.now kinds.now)
        (record { tolerance = tolerance; origin_x = origin_x; origin_y = origin_y; switch = switch; limit = limit })
        (rooms table.old members.old marks.old listing.old
        merged.old boxes.old spare.old workspace.old)
        a (rooms table.new members.new marks.new listing.new
        merged.new boxes.new spare.new workspace.new)) result }
{
    number(build_chains::build(
        wkb_type,
        &LentLines {
            coordinates,
            counts,
            groups,
            kinds,
        },
        Settings {
            tolerance,
            origin_x,
            origin_y,
            switch,
            limit,
        },
        table,
        members,
        marks,
        listing,
        merged,
        boxes,
        spare,
        workspace,
    ))
}

// Building with an offset in the limit's place: the number of chains.
#[unsafe(no_mangle)]
pub extern "C" fn lovasuku_build_offset(
    wkb_type: u32,
    coordinates: &[u64],
    counts: &[u32],
    groups: &[u32],
    kinds: &[u8],
    tolerance: f64,
    origin_x: f64,
    origin_y: f64,
    switch: u8,
    offset: u32,
    table: &mut [u32],
    members: &mut [u32],
    marks: &mut [u8],
    listing: &mut [u32],
    merged: &mut [u64],
    boxes: &mut [u64],
    spare: &mut [u64],
    workspace: &mut [u64],
) -> u64
    ensures { Numbered (λ a. BuiltOffset wkb_type (lent coordinates.now counts.now groups.now kinds.now)
        tolerance origin_x origin_y switch offset
        (rooms table.old members.old marks.old listing.old
        merged.old boxes.old spare.old workspace.old)
        a (rooms table.new members.new marks.new listing.new
        merged.new boxes.new spare.new workspace.new)) result }
{
    number(offset_calls::build_offset(
        wkb_type,
        &LentLines {
            coordinates,
            counts,
            groups,
            kinds,
        },
        tolerance,
        origin_x,
        origin_y,
        switch,
        offset,
        table,
        members,
        marks,
        listing,
        merged,
        boxes,
        spare,
        workspace,
    ))
}

// The first of two calls, round one alone: the number of pieces.
#[unsafe(no_mangle)]
pub extern "C" fn lovasuku_first(
    wkb_type: u32,
    coordinates: &[u64],
    counts: &[u32],
    groups: &[u32],
    kinds: &[u8],
    switch: u8,
    limit: f64,
    pieces: &mut [u32],
    members: &mut [u32],
    marks: &mut [u8],
    listing: &mut [u32],
    merged: &mut [u64],
    workspace: &mut [u64],
) -> u64
    ensures { Numbered (λ a. FirstLeft wkb_type
        (lent coordinates.now counts.now groups.now kinds.now) switch limit
        (first_rooms pieces.old members.old marks.old listing.old
        merged.old workspace.old)
        a (first_rooms pieces.new members.new marks.new listing.new
        merged.new workspace.new)) result }
{
    number(lent_calls::first(
        wkb_type,
        &LentLines {
            coordinates,
            counts,
            groups,
            kinds,
        },
        switch,
        limit,
        pieces,
        members,
        marks,
        listing,
        merged,
        workspace,
    ))
}

// The second of two calls, which finishes pieces that are lent: the number of chains.
#[unsafe(no_mangle)]
pub extern "C" fn lovasuku_finish<'a>(
    wkb_type: u32,
    coordinates: &'a [u64],
    counts: &[u32],
    groups: &[u32],
    kinds: &[u8],
    pieces: &[u32],
    piece_members: &[u32],
    piece_marks: &[u8],
    piece_listing: &[u32],
    piece_merged: &'a [u64],
    k: u64,
    tolerance: f64,
    origin_x: f64,
    origin_y: f64,
    switch: u8,
    limit: f64,
    table: &mut [u32],
    members: &mut [u32],
    marks: &mut [u8],
    listing: &mut [u32],
    merged: &mut [u64],
    boxes: &mut [u64],
    workspace: &mut [u64],
) -> u64
    ensures { Numbered (λ a. Finished wkb_type (lent coordinates.now counts.now groups.now kinds.now)
        (lent_pieces pieces.now piece_members.now piece_marks.now piece_listing.now
        piece_merged.now k)
        (record { tolerance = tolerance; origin_x = origin_x; origin_y = origin_y; switch = switch; limit = limit })
        (finish_rooms table.old members.old marks.old listing.old
        merged.old boxes.old workspace.old)
        a (finish_rooms table.new members.new marks.new listing.new
        merged.new boxes.new workspace.new)) result }
{
    number(lent_calls::finish(
        wkb_type,
        &LentLines {
            coordinates,
            counts,
            groups,
            kinds,
        },
        &Pieces {
            records: pieces,
            members: piece_members,
            marks: piece_marks,
            listing: piece_listing,
            merged: piece_merged,
            number: k,
        },
        Settings {
            tolerance,
            origin_x,
            origin_y,
            switch,
            limit,
        },
        table,
        members,
        marks,
        listing,
        merged,
        boxes,
        workspace,
    ))
}
