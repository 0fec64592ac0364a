// The cases M and N, of directions and cells: their values, and what building makes of them.
use crate::building_cases::{THREE_LINES, close, too_far};
use crate::judge::{apart, builds};
use rules::{Direction, Settings};

// 2^-537, 2^-538, 2^511 and 2^512
const LEAST_PRESENT: u64 = 0x1E60_0000_0000_0000;

const GREATEST_ABSENT: u64 = 0x1E50_0000_0000_0000;

const GREATEST_OF_LENGTH_ONE: u64 = 0x5FE0_0000_0000_0000;

const LEAST_OF_LENGTH_NOUGHT: u64 = 0x5FF0_0000_0000_0000;

// The direction from 0,0 to dx,0.
fn along(dx: u64) -> Direction {
    point_direction::piece_direction(&[0, 0, dx, 0], 2, 0)
}

// Whether that direction is (x, 0).
fn toward(dx: u64, x: f64) -> bool {
    along(dx).is_some_and(|(a, b)| {
        float_bits::bits_of(a) == float_bits::bits_of(x)
            && float_bits::bits_of(b) == float_bits::bits_of(0.0)
    })
}

// Whether it is absent.
fn absent(dx: u64) -> bool {
    along(dx).is_none()
}

// Three lines from 0,0: to dx,0, to -1,0 and to 0,1. Whether the first two are joined, and the third is alone.
fn straight_on(dx: u64, limit: f64) -> bool {
    let x = float_bits::of_bits(dx);
    let lines = [0.0, 0.0, x, 0.0, 0.0, 0.0, -1.0, 0.0, 0.0, 0.0, 0.0, 1.0];
    let laid = [-1.0, 0.0, 0.0, 0.0, x, 0.0, 0.0, 0.0, 0.0, 1.0];
    let on = Settings {
        tolerance: 0.0,
        origin_x: 0.0,
        origin_y: 0.0,
        switch: 1,
        limit,
    };
    builds(
        &lines,
        &[2, 2, 2],
        &[0, 0, 0],
        on,
        &[0, 2, 1, 0, 3, 0, 2, 1, 0, 4, 2, 0],
        &[1, 0, 2],
        &[1, 0, 0],
        &[1, 0, 2],
        &laid,
        6,
    )
}

// The same lines: whether none are joined.
fn stops(dx: u64, limit: f64) -> bool {
    let x = float_bits::of_bits(dx);
    let lines = [0.0, 0.0, x, 0.0, 0.0, 0.0, -1.0, 0.0, 0.0, 0.0, 0.0, 1.0];
    let on = Settings {
        tolerance: 0.0,
        origin_x: 0.0,
        origin_y: 0.0,
        switch: 1,
        limit,
    };
    apart(&lines, &[2, 2, 2], &[0, 0, 0], on, &THREE_LINES)
}

// M: at a junction (1, 0) goes straight on to (-1, 0), an absent direction doesn't; (0, 0) is present, and its measure with any other is 0.
pub fn directions() -> bool {
    toward(LEAST_PRESENT, 1.0)
        && straight_on(LEAST_PRESENT, -1.0)
        && absent(GREATEST_ABSENT)
        && stops(GREATEST_ABSENT, -1.0)
        && toward(GREATEST_OF_LENGTH_ONE, 1.0)
        && straight_on(GREATEST_OF_LENGTH_ONE, -1.0)
        && toward(LEAST_OF_LENGTH_NOUGHT, 0.0)
        && stops(LEAST_OF_LENGTH_NOUGHT, -1.0)
        && straight_on(LEAST_OF_LENGTH_NOUGHT, 0.0)
}

// Whether the word that stands in a key for the cell of v at tolerance 1 is `word`: 2^63 more than the cell.
fn in_cell(v: f64, word: u64) -> bool {
    float_cell::cell_key(float_bits::bits_of(v), 0.0, 1.0) == word
}

// N: -0.25 is in the cell of -0.75 and not in that of 0.5, in which -0.0 is.
pub fn cells() -> bool {
    in_cell(-0.25, 9223372036854775807)
        && in_cell(-0.0, 9223372036854775808)
        && too_far([-5.0, 0.0, -0.25, 0.0, 0.5, 0.0, 5.0, 0.0])
        && close([-5.0, 0.0, -0.25, 0.0, -0.75, 0.0, 5.0, 0.0])
        && close([-5.0, 0.0, -0.0, 0.0, 0.5, 0.0, 5.0, 0.0])
}
