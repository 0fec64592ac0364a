// The lines of lent pieces, noted piece by piece in a table with a byte for each line: 0 where a line wasn't met, 1 where it is a member of the piece at
// hand and not yet in its listing, 2 where it is in both. So between two pieces no line has a 1, and a line that has one is of the piece at hand.
#![tactic(auto)]

ghost use Rattle.std.specs.Prelude.{◌≡◌, ◌≤◌, length};
ghost use Rattle.rules.specs.Lists.{total};
ghost use Rattle.rules.specs.Refusals.{most_lines, most_points};
ghost use Rattle.lent_noting.specs.Noting.{Placed, fresh, PlacesTabled, MembersNoted, ListingNoted, AllNoted};

use rules::MOST_LINES;

// Where each line's coordinates begin, counted in coordinates. Returns how many there are in all.
pub fn place_lines(places: &mut [u32; 4096], counts: &[u32]) -> u32
    requires { (length places.old ≡ most_lines) × (length counts.now ≤ most_lines) × (total counts.now ≤ most_points) }
    ensures { (result ≡ total counts.now) × (length places.new ≡ most_lines) × Placed places.new counts.now }
{
    let mut sum: u32 = 0;
    for (i, count) in counts.iter().enumerate() {
        places[i] = sum;
        sum += *count;
    }
    sum
}

// Whether a number is that of a plain line without a mark.
pub fn is_fresh(seen: &[u8; 4096], counts: &[u32], kinds: &[u8], line: u32) -> bool
    requires { (length seen.now ≡ most_lines) × (length counts.now ≤ most_lines) × (length kinds.now ≡ length counts.now) }
    ensures { result ≡ fresh seen.now counts.now kinds.now line }
{
    let y = line as usize;
    y < counts.len() && seen[y] == 0 && build_lines::is_plain(counts[y], kinds[y])
}

// Whether each line of a piece is plain, without a mark yet and of a group, and the marks that it has in the piece are at most 1; each gets the mark 1.
pub fn note_members(
    seen: &mut [u8; 4096],
    counts: &[u32],
    groups: &[u32],
    kinds: &[u8],
    group: u32,
    lines: &[u32],
    marks: &[u8],
) -> bool
    requires { (length seen.old ≡ most_lines) × PlacesTabled counts.now groups.now kinds.now × (length marks.now ≡ length lines.now) }
    ensures { MembersNoted seen.new seen.old counts.now groups.now kinds.now group
        lines.now marks.now result }
{
    for (i, line) in lines.iter().enumerate() {
        let y = *line as usize;
        if !is_fresh(seen, counts, kinds, *line) || groups[y] != group || 1 < marks[i] {
            return false;
        }
        seen[y] = 1;
    }
    true
}

// Whether each line of a listing has the mark 1; each gets the mark 2.
pub fn note_listing(seen: &mut [u8; 4096], listing: &[u32]) -> bool
    requires { length seen.old ≡ most_lines }
    ensures { ListingNoted seen.new seen.old listing.now result }
{
    for line in listing {
        let y = *line as usize;
        if MOST_LINES <= y || seen[y] != 1 {
            return false;
        }
        seen[y] = 2;
    }
    true
}

// Whether each plain line has a mark. All are looked at, so that several go at once.
pub fn all_noted(seen: &[u8; 4096], counts: &[u32], kinds: &[u8]) -> bool
    requires { (length seen.now ≡ most_lines) × (length counts.now ≤ most_lines) × (length kinds.now ≡ length counts.now) }
    ensures { AllNoted seen.now counts.now kinds.now result }
{
    let mut left = false;
    for (y, count) in counts.iter().enumerate() {
        left |= build_lines::is_plain(*count, kinds[y]) && seen[y] == 0;
    }
    !left
}
