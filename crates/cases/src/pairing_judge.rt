// A pairing call with rooms that hold 7 everywhere, by each route, and whether what it leaves is what is expected.
use crate::judge::{begins, cleared};
use pair_calls::{Chosen, Indexed, Plain, Route};
use rules::{END_ROOM, Ends};

// Whether a route gives these pairs, of four present ends at most.
fn gives<R: Route>(directions: &[f64], pieces: &[u32], limit: f64, expected: &[u32]) -> bool {
    let present = [1u8; 4];
    let mut room = [7u32; 5];
    let mut workspace = [7u64; 260];
    let d = pieces.len();
    if 4 < d {
        return false;
    }
    let ends = Ends {
        present: &present[..d],
        directions,
        pieces,
    };
    let answer = pair_calls::pairs::<R>(&ends, limit, &mut room, &mut workspace);
    answer == Ok(expected.len() as u64 / 2)
        && begins(&room, expected, 7)
        && cleared(&workspace, d * END_ROOM)
}

// Whether every route does.
pub fn pairs(directions: &[f64], pieces: &[u32], limit: f64, expected: &[u32]) -> bool {
    gives::<Plain>(directions, pieces, limit, expected)
        && gives::<Indexed>(directions, pieces, limit, expected)
        && gives::<Chosen>(directions, pieces, limit, expected)
}
