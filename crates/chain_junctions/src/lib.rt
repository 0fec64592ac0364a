// The ends of a junction, for pairing: each end's direction and piece, read off the piece's record and put into the pairing's part of the workspace.
#![tactic(auto)]

ghost use Rattle.std.specs.Prelude.{◌≡◌, ◌<◌, ◌≤◌};
ghost use Rattle.rules.specs.Plane.{points, direction_of};
ghost use Rattle.point_direction.specs.Seen.{seen};
ghost use Rattle.chain_pieces.specs.Held.{coordinates_at, Recorded};
ghost use Rattle.pair_ends.specs.Ends.{EndsRoom};
ghost use Rattle.chain_junctions.specs.Junction.{EndPut, JunctionEnds, EndsPut};

use pair_ends::PIECES;
use rules::{Direction, PIECE};

// The direction at a side of the piece whose record stands at p.
fn side_direction<'a>(
    w: &[u64],
    p: usize,
    width: usize,
    side: u64,
    input: &'a [u64],
    spare: &'a [u64],
) -> Direction
    requires { (2 ≤ width) × Recorded width w.now p input.now spare.now }
    ensures { result ≡ direction_of (seen side (points width (coordinates_at width w.now p input.now spare.now))) }
{
    let c = chain_pieces::coordinates_of(w, p, width, input, spare);
    point_direction::piece_direction(c, width, side)
}

// End i of the d ends of a pairing: its piece, its presence mark, and its direction's bits if it has one.
fn put_end(w: &mut [u64], d: usize, i: usize, direction: Direction, piece: u64)
    requires { EndsRoom w.old d × (i < d) }
    ensures { EndPut w.new w.old d i direction piece }
{
    w[d * PIECES + i] = piece;
    match direction {
        Some((x, y)) => {
            w[d + i * 2] = float_bits::bits_of(x);
            w[d + i * 2 + 1] = float_bits::bits_of(y);
            w[i] = 1;
        }
        None => w[i] = 0,
    }
}

// The d ends whose numbers stand from `list` on, as those of a pairing from `part` on.
pub fn put_ends<'a>(
    w: &mut [u64],
    records: usize,
    list: usize,
    part: usize,
    d: usize,
    width: usize,
    input: &'a [u64],
    spare: &'a [u64],
)
    requires { JunctionEnds width w.old records list part d input.now spare.now }
    ensures { EndsPut width w.new w.old records list part d input.now spare.now }
{
    for i in 0..d {
        let e = w[list + i];
        let p = records + e as usize / 2 * PIECE;
        let direction = side_direction(w, p, width, e % 2, input, spare);
        put_end(&mut w[part..], d, i, direction, e / 2);
    }
}
