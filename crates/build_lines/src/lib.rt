// The plain lines of a call as the pieces that go into its first round.
#![tactic(auto)]

ghost use Rattle.std.specs.Prelude.{◌≡◌, ◌&&◌, ◌+◌, ◌*◌, leb, eqb};
ghost use Rattle.build_lines.specs.Taken.{Takable, Taken};

use chain_pieces::{Record, TAKEN, TAKEN_LISTING, TAKEN_MARKS, TAKEN_MEMBERS};
use rules::PIECE;

// Whether a line is plain, by its coordinate count and its kind.
pub fn is_plain(count: u32, kind: u8) -> bool
    ensures { result ≡ (eqb kind 0 && leb 2 count) }
{
    kind == 0 && 2 <= count
}

// The plain lines as pieces, into the block at 13 n. Returns how many there are.
pub fn take_lines(w: &mut [u64], n: usize, counts: &[u32], kinds: &[u8]) -> usize
    requires { Takable w.old n counts.now kinds.now }
    ensures { Taken w.new w.old n counts.now kinds.now result }
{
    let mut m = 0;
    let mut first: u64 = 0;
    for (k, count) in counts.iter().enumerate() {
        let points = *count as u64;
        if is_plain(*count, kinds[k]) {
            let line = Record {
                member: m as u64,
                members: 1,
                source: 0,
                point: first,
                points,
            };
            line.put(w, n * TAKEN + m * PIECE);
            w[n * TAKEN_MEMBERS + m] = k as u64;
            w[n * TAKEN_MARKS + m] = 0;
            w[n * TAKEN_LISTING + m] = k as u64;
            m += 1;
        }
        first += points;
    }
    m
}
