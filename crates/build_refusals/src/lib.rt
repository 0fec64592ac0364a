// The refusals of building, in the order of checking.
#![tactic(auto)]

ghost use Rattle.std.specs.Prelude.{◌≡◌, not, ◌||◌, ◌+◌, ◌/◌, ◌^◌, ◌≤◌, ◌<◌, eqb, ltb, length, take, drop};
ghost use Rattle.rules.specs.Answers.{found};
ghost use Rattle.rules.specs.Lists.{total as total_of};
ghost use Rattle.rules.specs.Plane.{points};
ghost use Rattle.rules.specs.Layout.{lent};
ghost use Rattle.rules.specs.Refusals.{any_above, any_nowhere, limit_bad, origin_bad, rooms, first_of, line_tests, refusal_of, most_lines};
ghost use Rattle.point_numbers.specs.Width.{Whole};
ghost use Rattle.build_refusals.specs.Tests.{wild_of, switch_bad, any_short};

use float_bits::SIGN;
use rules::{
    BOX_ROOM, BOX_ROOM_BESIDE, LINE_ROOM, MOST_LINES, MOST_POINTS, RECORD, Refusal, Settings,
};

// The sum of the counts, of which there are at most 4,096.
fn total(counts: &[u32]) -> u64
    requires { length counts.now ≤ most_lines }
    ensures { (result ≡ total_of counts.now) × (result < 17592186044416) }
{
    counts.iter().map(|count| *count as u64).sum()
}

// Whether a kind is above 1.
pub fn any_above_one(kinds: &[u8]) -> bool
    ensures { result ≡ any_above 1 kinds.now }
{
    kinds.iter().any(|kind| 1 < *kind)
}

// Whether one of the numbers is a NaN or infinite: then the sign's place of what they make together is taken. All are looked at, without a branch, so that
// several go at once.
fn any_wild(numbers: &[u64]) -> bool
    ensures { result ≡ ltb 0 (wild_of numbers.now) }
{
    let mut any: u64 = 0;
    for number in numbers {
        any |= float_bits::raised(*number);
    }
    SIGN <= any
}

// Whether the x or the y of a point is a NaN or infinite, with extras between the points. All are looked at, x and y at once.
fn any_nowhere_wide(numbers: &[u64], width: usize) -> bool
    requires { (2 ≤ width) × Whole width numbers.now }
    ensures { result ≡ any_nowhere (points width numbers.now) }
{
    let mut any_x: u64 = 0;
    let mut any_y: u64 = 0;
    for point in numbers.chunks_exact(width) {
        any_x |= float_bits::raised(point[0]);
        any_y |= float_bits::raised(point[1]);
    }
    SIGN <= any_x | any_y
}

// Whether a coordinate is no place. Without extras every number is an x or a y.
pub fn any_nowhere(numbers: &[u64], width: usize) -> bool
    requires { (2 ≤ width) × Whole width numbers.now }
    ensures { result ≡ any_nowhere (points width numbers.now) }
{
    if width == 2 {
        any_wild(numbers)
    } else {
        any_nowhere_wide(numbers, width)
    }
}

// Whether a limit is NaN, below -1 or above 1.
pub fn limit_bad(limit: f64) -> bool
    ensures { result ≡ limit_bad limit }
{
    !(-1.0 <= limit && limit <= 1.0)
}

// With the switch at 0 the limit isn't looked at.
#[tactic(auto, unfolding(crate::specs::Tests::switch_bad))]
pub fn switch_bad(switch: u8, limit: f64) -> bool
    ensures { result ≡ switch_bad switch limit }
{
    1 < switch || switch == 1 && limit_bad(limit)
}

// Whether an origin is NaN or infinite.
#[tactic(auto, unfolding(rules::specs::Refusals::origin_bad))]
pub fn origin_bad(x: f64, y: f64) -> bool
    ensures { result ≡ origin_bad x y }
{
    !(float_order::is_finite(x) && float_order::is_finite(y))
}

// Whether one of the rooms is shorter than what is asked of it: each is a length and what is asked.
pub fn any_short(rooms: &[(usize, usize)]) -> bool
    ensures { result ≡ any_short rooms.now }
{
    rooms.iter().any(|(room, asked)| room < asked)
}

// Refuses a call's lines, of a type, by the first of their tests that holds.
pub fn line_refusal(
    wkb_type: u32,
    coordinates: &[u64],
    counts: &[u32],
    groups: &[u32],
    kinds: &[u8],
) -> Result<(), Refusal>
    ensures { found result ≡ first_of (line_tests wkb_type
        (lent coordinates.now counts.now groups.now kinds.now)) }
{
    let width = point_numbers::width_of(wkb_type);
    if width == 0 {
        return Err(Refusal::BadType);
    }
    let n = counts.len();
    if MOST_LINES < n {
        return Err(Refusal::TooMany);
    }
    if groups.len() != n || kinds.len() != n {
        return Err(Refusal::TablesDiffer);
    }
    if any_above_one(kinds) {
        return Err(Refusal::MarkAboveOne);
    }
    let c = total(counts);
    if c * width as u64 != coordinates.len() as u64 {
        return Err(Refusal::CountsDoNotAddUp);
    }
    if (MOST_POINTS as u64) < c {
        return Err(Refusal::TooManyCoordinates);
    }
    build_shares::share_refusal(counts, groups, c)?;
    if any_nowhere(coordinates, width) {
        return Err(Refusal::NoPlace);
    }
    Ok(())
}

// Refuses a call by the first test that holds.
pub fn refusal(
    wkb_type: u32,
    coordinates: &[u64],
    counts: &[u32],
    groups: &[u32],
    kinds: &[u8],
    settings: Settings,
    table: &[u32],
    members: &[u32],
    marks: &[u8],
    listing: &[u32],
    merged: &[u64],
    boxes: &[u64],
    spare: &[u64],
    workspace: &[u64],
) -> Result<(), Refusal>
    ensures { found result ≡ refusal_of wkb_type
        (lent coordinates.now counts.now groups.now kinds.now) settings
        (rooms table.now members.now marks.now listing.now
        merged.now boxes.now spare.now workspace.now) }
{
    line_refusal(wkb_type, coordinates, counts, groups, kinds)?;
    if switch_bad(settings.switch, settings.limit) {
        return Err(Refusal::BadLimit);
    }
    if origin_bad(settings.origin_x, settings.origin_y) {
        return Err(Refusal::BadOrigin);
    }
    let n = counts.len();
    let numbers = coordinates.len();
    if any_short(&[
        (table.len(), n * RECORD),
        (members.len(), n),
        (marks.len(), n),
        (listing.len(), n),
        (merged.len(), numbers),
        (boxes.len(), n * BOX_ROOM + BOX_ROOM_BESIDE),
        (spare.len(), numbers),
        (workspace.len(), n * LINE_ROOM),
    ]) {
        return Err(Refusal::RoomTooShort);
    }
    Ok(())
}
