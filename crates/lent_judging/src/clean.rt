// The front of the merged coordinates that are lent: what the pieces take of it is looked at together.
ghost use Rattle.std.specs.Prelude.{◌≡◌, ◌*◌, ◌≤◌, length};
ghost use Rattle.rules.specs.Refusals.{piece_size};
ghost use Rattle.lent_judging.specs.Front.{last_end, clean_to};

use rules::PIECE;

// Where the coordinates of the last of k pieces end that has merged ones, or 0.
fn last_end(pieces: &[u32], k: usize) -> usize
    requires { k * piece_size ≤ length pieces.now }
    ensures { (result ≡ last_end pieces.now k) × (result ≤ 8589934590) }
{
    for q in (0..k).rev() {
        let at = q * PIECE;
        if pieces[at + 2] != 0 {
            return pieces[at + 3] as usize + pieces[at + 4] as usize;
        }
    }
    0
}

// How many of the first merged coordinates are places: all up to the end of the last piece that has some, or none.
pub fn clean_front(width: usize, pieces: &[u32], k: usize, merged: &[u64]) -> usize
    requires { (2 ≤ width) × (width ≤ 4) × (k * piece_size ≤ length pieces.now) }
    ensures { result ≡ clean_to width merged.now (last_end pieces.now k) }
{
    let end = last_end(pieces, k);
    let numbers = end * width;
    if merged.len() < numbers || build_refusals::any_nowhere(&merged[..numbers], width) {
        return 0;
    }
    end
}
