// The lines that chains list: whether they are plain and of one group, below n, and each listed once; and where their coordinates begin.
#![tactic(auto)]

ghost use Rattle.std.specs.Prelude.{◌≡◌, ℕ, ◌≤◌, ◌<◌, leb, length, get_or, take, drop};
ghost use Rattle.rules.specs.Lists.{total, any_of, all_of};
ghost use Rattle.rules.specs.Refusals.{most_lines, most_points};
ghost use Rattle.rules.specs.Check.{same_numbers};
ghost use Rattle.check_lines.specs.Lines.{Below, plain_at, group_is, Noted, AllSeen};

use rules::MOST_LINES;

// Whether all lines that are listed are plain.
pub fn all_plain(listed: &[u32], counts: &[u32], kinds: &[u8]) -> bool
    requires { Below (length counts.now) listed.now × Below (length kinds.now) listed.now }
    ensures { result ≡ all_of (plain_at counts.now kinds.now) listed.now }
{
    listed.iter().all(|y| build_lines::is_plain(counts[*y as usize], kinds[*y as usize]))
}

// Whether all lines that are listed have the group of the first.
pub fn one_group(listed: &[u32], groups: &[u32]) -> bool
    requires { (0 < length listed.now) × Below (length groups.now) listed.now }
    ensures { result ≡ all_of (group_is groups.now (get_or groups.now (get_or listed.now 0 0) 0))
        (drop 1 listed.now) }
{
    let group = groups[listed[0] as usize];
    listed[1..].iter().all(|y| groups[*y as usize] == group)
}

// Whether a line that is listed isn't below n.
pub fn any_beyond(listed: &[u32], n: usize) -> bool
    ensures { result ≡ any_of (leb n) listed.now }
{
    listed.iter().any(|y| n <= *y as usize)
}

// Marks the lines of a chain as listed, unless one was before.
pub fn note(seen: &mut [bool; MOST_LINES], listed: &[u32]) -> bool
    requires { Below most_lines listed.now }
    ensures { Noted seen.new seen.old listed.now result }
{
    for y in listed {
        let y = *y as usize;
        if seen[y] {
            return false;
        }
        seen[y] = true;
    }
    true
}

// Whether the first n lines are marked.
pub fn all_seen(seen: &[bool; MOST_LINES], n: usize) -> bool
    requires { n ≤ most_lines }
    ensures { AllSeen seen.now n result }
{
    seen[..n].iter().all(|mark| *mark)
}

// The first coordinate of each line.
pub fn first_places(counts: &[u32], firsts: &mut [u32; MOST_LINES])
    requires { (length counts.now ≤ most_lines) × (total counts.now ≤ most_points) × (length firsts.old ≡ most_lines) }
    ensures { (y : ℕ) → y < length counts.now → get_or firsts.new y 0 ≡ total (take y counts.now) }
{
    let mut sum: u32 = 0;
    for (i, n) in counts.iter().enumerate() {
        firsts[i] = sum;
        sum += *n;
    }
}

// Whether two rows have the same numbers.
pub fn same_numbers(a: &[u64], b: &[u64]) -> bool
    ensures { result ≡ same_numbers a.now b.now }
{
    a == b
}
