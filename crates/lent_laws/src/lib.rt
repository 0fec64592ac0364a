// Laws of lent pieces: what passes refusal 19, and that what round one leaves passes it and is finished as building finishes it. proofs/ has them; of code
// there are only the types of what a call lends.
#![tactic(auto)]

// The pieces that a call lends: their records, members, marks, listing and merged coordinates, and how many they are.
#[derive(Clone, Copy)]
pub struct Pieces<'a> {
    pub records: &'a [u32],
    pub members: &'a [u32],
    pub marks: &'a [u8],
    pub listing: &'a [u32],
    pub merged: &'a [u64],
    pub number: u64,
}
