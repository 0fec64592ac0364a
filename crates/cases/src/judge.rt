// A call with rooms that hold 7 everywhere, and whether what it leaves is what is expected: the written part, 7 beyond it, and zeros where 01 asks for them.
use rules::{LINE_ROOM, LentLines, RECORD, Refusal, Settings, Window};

// Whether a begins with b and is `beyond` from there on.
pub fn begins<T: Copy + PartialEq>(a: &[T], b: &[T], beyond: T) -> bool {
    a.iter()
        .enumerate()
        .all(|(i, x)| *x == *b.get(i).unwrap_or(&beyond))
}

// Whether the first n of a are 0, and the others 7.
pub fn cleared(a: &[u64], n: usize) -> bool {
    a.iter()
        .enumerate()
        .all(|(i, x)| *x == if i < n { 0 } else { 7 })
}

// The bits of sixteen numbers at most, and zeros after them.
fn in_bits(numbers: &[f64]) -> [u64; 16] {
    let mut words = [0u64; 16];
    for (word, x) in words.iter_mut().zip(numbers) {
        *word = float_bits::bits_of(*x);
    }
    words
}

// Whether the table has this many chains, and their views are `laid`, one after another.
fn shows<'a>(
    input: &'a [u64],
    merged: &'a [u64],
    table: &[u32],
    chains: usize,
    laid: &[u64],
) -> bool {
    let mut rest = laid;
    for k in 0..chains {
        if build_question::chain(2, input, merged, table, k) != Ok(0) {
            return false;
        }
        let Some(after) = rest.strip_prefix(build_question::view(2, input, merged, table, k)) else {
            return false;
        };
        rest = after;
    }
    rest.is_empty()
        && build_question::chain(2, input, merged, table, chains) == Err(Refusal::NoSuchChain)
}

// The lines at tolerance 0 and with the switch at 0.
pub fn exactly() -> Settings {
    Settings {
        tolerance: 0.0,
        origin_x: 0.0,
        origin_y: 0.0,
        switch: 0,
        limit: 0.0,
    }
}

// Tolerance 1.
pub fn coarse() -> Settings {
    Settings {
        tolerance: 1.0,
        origin_x: 0.0,
        origin_y: 0.0,
        switch: 0,
        limit: 0.0,
    }
}

// Whether all of the k chains lie in a window around every case.
fn found(boxes: &[u64], k: usize) -> bool {
    let mut room = [7u32; 4];
    let around = Window {
        least_x: -8.0,
        least_y: -8.0,
        greatest_x: 8.0,
        greatest_y: 8.0,
    };
    let answer = box_window::chains_in(boxes, k, around, &mut room);
    k <= 4 && answer == Ok(k as u64) && begins(&room, &[0, 1, 2, 3][..k], 7)
}

// Whether building gives these records, members, marks and listing, of three plain lines at most. The chains' coordinates, one after another, are `laid`; the
// first of them are the merged ones, as many as `copied` says.
fn leaves(
    coordinates: &[u64],
    counts: &[u32],
    groups: &[u32],
    settings: Settings,
    records: &[u32],
    members: &[u32],
    marks: &[u8],
    listing: &[u32],
    laid: &[u64],
    copied: usize,
) -> bool {
    let n = counts.len();
    if 3 < n {
        return false;
    }
    if laid.len() < copied {
        return false;
    }
    let copies = &laid[..copied];
    let chains = records.len() / RECORD;
    let kinds = [0u8; 3];
    let mut table_room = [7u32; 20];
    let mut members_room = [7u32; 4];
    let mut marks_room = [7u8; 4];
    let mut listing_room = [7u32; 4];
    let mut merged_room = [7u64; 16];
    let mut boxes_room = [7u64; 90];
    let mut spare = [7u64; 16];
    let mut workspace = [7u64; 580];
    let answer = build_chains::build(
        2,
        &LentLines {
            coordinates,
            counts,
            groups,
            kinds: &kinds[..n],
        },
        settings,
        &mut table_room,
        &mut members_room,
        &mut marks_room,
        &mut listing_room,
        &mut merged_room,
        &mut boxes_room,
        &mut spare,
        &mut workspace,
    );
    answer == Ok(chains as u64)
        && begins(&table_room, records, 7)
        && begins(&members_room, members, 7)
        && begins(&marks_room, marks, 7)
        && begins(&listing_room, listing, 7)
        && begins(&merged_room, copies, 7)
        && cleared(&spare, coordinates.len())
        && cleared(&workspace, n * LINE_ROOM)
        && shows(coordinates, &merged_room, &table_room, chains, laid)
        && found(&boxes_room, chains)
}

// The same, of the numbers that the coordinates' bits stand for, sixteen at most.
pub fn builds(
    coordinates: &[f64],
    counts: &[u32],
    groups: &[u32],
    settings: Settings,
    records: &[u32],
    members: &[u32],
    marks: &[u8],
    listing: &[u32],
    laid: &[f64],
    copied: usize,
) -> bool {
    let c = coordinates.len();
    if 16 < c {
        return false;
    }
    let l = laid.len();
    if 16 < l {
        return false;
    }
    let input = in_bits(coordinates);
    let words = in_bits(laid);
    leaves(
        &input[..c],
        counts,
        groups,
        settings,
        records,
        members,
        marks,
        listing,
        &words[..l],
        copied,
    )
}

// Whether building joins all lines of one group into one chain, `closed` where it is a loop.
pub fn joins(
    coordinates: &[f64],
    counts: &[u32],
    settings: Settings,
    members: &[u32],
    marks: &[u8],
    listing: &[u32],
    laid: &[f64],
    closed: u32,
) -> bool {
    let groups = [0u32; 3];
    let n = counts.len();
    if 3 < n {
        return false;
    }
    let l = laid.len();
    if 16 < l {
        return false;
    }
    let lines = n as u32;
    let points = (l / 2) as u32;
    let records = [0, lines, 1, 0, points, closed];
    builds(
        coordinates,
        counts,
        &groups[..n],
        settings,
        &records,
        members,
        marks,
        listing,
        laid,
        l,
    )
}

// Whether building leaves every line alone, with these records.
pub fn apart(
    coordinates: &[f64],
    counts: &[u32],
    groups: &[u32],
    settings: Settings,
    records: &[u32],
) -> bool {
    let members = [0u32, 1, 2];
    let listing = [0u32, 1, 2];
    let marks = [0u8; 3];
    let n = counts.len();
    if 3 < n {
        return false;
    }
    builds(
        coordinates,
        counts,
        groups,
        settings,
        records,
        &members[..n],
        &marks[..n],
        &listing[..n],
        coordinates,
        0,
    )
}
