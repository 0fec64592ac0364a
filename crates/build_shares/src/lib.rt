// What two districts bring to a call, and whether that is more than their shares. Groups below 2^31 are the first district's and the rest the second's, so
// that the first brings what the second doesn't.
#![tactic(auto)]

ghost use Rattle.std.specs.Prelude.{◌≡◌, ◌||◌, [], ◌∷◌, ◌-◌, ◌≤◌, ltb, length};
ghost use Rattle.rules.specs.Lists.{total};
ghost use Rattle.rules.specs.Answers.{found};
ghost use Rattle.rules.specs.Districts.{lines_brought, points_brought, over_lines, over_points};
ghost use Rattle.rules.specs.Refusals.{first_of, most_lines};

use rules::{BORDER, MOST_DISTRICT_LINES, MOST_DISTRICT_POINTS, Refusal};

// A district's lines and its coordinates.
#[derive(Clone, Copy)]
pub struct Share {
    pub lines: u64,
    pub points: u64,
}

// What the second district brings. A group by the border is 1 for its lines and 0 for the other's.
fn second_share(counts: &[u32], groups: &[u32]) -> Share
    requires { (length counts.now ≤ most_lines) × (length groups.now ≡ length counts.now) }
    ensures { (result.lines ≡ lines_brought 1 groups.now)
        × (result.points ≡ points_brought 1 counts.now groups.now) }
{
    let mut lines: u64 = 0;
    let mut points: u64 = 0;
    for (i, count) in counts.iter().enumerate() {
        let second = (groups[i] / BORDER) as u64;
        lines += second;
        points += second * *count as u64;
    }
    Share { lines, points }
}

// Whether more than a share is brought by the second district, or by the first, which brings the rest of all.
fn over(all: u64, second: u64, most: u64) -> bool
    requires { second ≤ all }
    ensures { result ≡ ltb most (all - second) || ltb most second }
{
    most < all - second || most < second
}

// Refuses a district that brings more lines than its share, else one that brings more coordinates. All lines together have c coordinates.
pub fn share_refusal(counts: &[u32], groups: &[u32], c: u64) -> Result<(), Refusal>
    requires { (length counts.now ≤ most_lines) × (length groups.now ≡ length counts.now) × (c ≡ total counts.now) }
    ensures { found result ≡ first_of ((20, over_lines groups.now) ∷ (21, over_points counts.now groups.now) ∷ []) }
{
    let second = second_share(counts, groups);
    if over(
        counts.len() as u64,
        second.lines,
        MOST_DISTRICT_LINES as u64,
    ) {
        return Err(Refusal::DistrictOverLines);
    }
    if over(c, second.points, MOST_DISTRICT_POINTS as u64) {
        return Err(Refusal::DistrictOverCoordinates);
    }
    Ok(())
}
