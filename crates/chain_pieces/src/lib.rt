// Pieces as a round's workspace holds them: specs/ says how, and proofs/ has the laws of reading them.
#![tactic(auto)]

ghost use Rattle.std.specs.Prelude.{[], ◌∷◌, ◌+◌, ◌≤◌, length, ◌≡◌};
ghost use Rattle.point_slices.specs.Holds.{HoldsFrom};
ghost use Rattle.chain_pieces.specs.Held.{coordinates_at, Reads, Recorded};

// The map of a round's part of the workspace, in words for each line of the call: where each block begins. specs/Map.antt has the same numbers.

// The pieces that come out: records from the start on, members, marks, and listing.
pub const MEMBERS: usize = 5;

pub const MARKS: usize = 6;

pub const LISTING: usize = 7;

// Joins, visited marks, entries and lengths of walks.
pub const JOINS: usize = 8;

// The pieces that go in: records, members, marks, and listing.
pub const TAKEN: usize = 13;

pub const TAKEN_MEMBERS: usize = 18;

pub const TAKEN_MARKS: usize = 19;

pub const TAKEN_LISTING: usize = 20;

// The ends of one node, and their pairing.
pub const NODE: usize = 21;

pub const PAIRING: usize = 23;

// The ends grouped by key, and their keys.
pub const GROUPS: usize = 151;

// A piece's record: where its members begin and how many they are, the source of its coordinates (0 for the input, 1 for the copies, as a chain's record has
// it), and where its points begin there and how many they are.
#[derive(Clone, Copy)]
pub struct Record {
    pub member: u64,
    pub members: u64,
    pub source: u64,
    pub point: u64,
    pub points: u64,
}

impl Record {
    // The record that stands at p.
    pub fn read(w: &[u64], p: usize) -> Record
        requires { p + 5 ≤ length w.now }
        ensures { Reads w.now p result }
    {
        Record {
            member: w[p],
            members: w[p + 1],
            source: w[p + 2],
            point: w[p + 3],
            points: w[p + 4],
        }
    }

    // Five numbers as the record at `at`.
    pub fn put(self, w: &mut [u64], at: usize)
        requires { at + 5 ≤ length w.old }
        ensures { HoldsFrom w.new w.old at 5 (self.member ∷ self.members ∷ self.source ∷ self.point ∷ self.points ∷ []) }
    {
        w[at] = self.member;
        w[at + 1] = self.members;
        w[at + 2] = self.source;
        w[at + 3] = self.point;
        w[at + 4] = self.points;
    }
}

// The coordinates of the piece whose record stands at p, a part of the input or of the copies.
pub fn coordinates_of<'a>(
    w: &[u64],
    p: usize,
    width: usize,
    input: &'a [u64],
    copies: &'a [u64],
) -> &'a [u64]
    requires { Recorded width w.now p input.now copies.now }
    ensures { result.now ≡ coordinates_at width w.now p input.now copies.now }
{
    let r = Record::read(w, p);
    let from = r.point as usize * width;
    let to = from + r.points as usize * width;
    if r.source == 0 {
        &input[from..to]
    } else {
        &copies[from..to]
    }
}
