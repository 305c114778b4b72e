// The merge of several proofs of one record.
ghost use Rattle.history.specs.Merging.{files_of, Gathering, Merging};

use crate::merged::{Merged, Piece, Stopped};
use dossier::phases::Open;
use judge::judge::Judge;
use std::alloc::Global;

// A new dossier with every piece added, or the first piece that is refused.
pub fn gather_pieces(heap: Global, pieces: &[Piece<'_>]) -> Result<Open, Stopped>
    ensures { Gathering (files_of pieces.now) result }
{
    let mut dossier = Open::new();
    for (place, piece) in pieces.iter().enumerate() {
        if let Err(refusal) = dossier.add(heap, piece.file) {
            return Err(Stopped::Piece { place, refusal });
        }
    }
    Ok(dossier)
}

// The file of exactly the claims of all pieces, at the front of the out area, with the judge's tally of them. A refusal
// writes nothing.
pub fn merge<J: Judge>(
    heap: Global,
    pieces: &[Piece<'_>],
    judge: &J,
    out: &mut [u8],
    work: &mut [u8],
) -> Result<Merged, Stopped>
    ensures { Merging (files_of pieces.now) (J.meaning judge.now) out.old work.old result out.new work.new }
{
    let open = gather_pieces(heap, pieces)?;
    let dossier = open.settle();
    // Kept: two matches; the proof of `map_err(Stopped::Tally)?` did not close (tried).
    let tally = match dossier.tally(judge, work) {
        Ok(tally) => tally,
        Err(refusal) => return Err(Stopped::Tally(refusal)),
    };
    match dossier.write(out) {
        Ok(length) => Ok(Merged {
            dossier,
            length,
            tally,
        }),
        Err(refusal) => Err(Stopped::Write(refusal)),
    }
}
