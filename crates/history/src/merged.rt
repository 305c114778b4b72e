// What a merge is given, and what it answers.
use dossier::phases::Settled;
use dossier::refusal::Refusal;
use runs::report::Tally;

// One of the proofs that are merged.
#[derive(Clone, Copy)]
pub struct Piece<'a> {
    pub file: &'a [u8],
}

// The settled dossier of all pieces, the length of its file, and the judge's tally.
#[derive(Drop)]
pub struct Merged {
    pub dossier: Settled,
    pub length: usize,
    pub tally: Tally,
}

// Why there is no merge.
#[derive(Clone, Copy)]
pub enum Stopped {
    // the piece at this place, from 0, is refused
    Piece { place: usize, refusal: Refusal },
    Tally(Refusal),
    Write(Refusal),
}
