// The claims of a whole file, counted by the kind of their attestation.
ghost use Rattle.std.specs.Prelude.{◌≡◌, ℕ, ◌+◌, ◌-◌, ◌^◌, ◌<◌, ◌≤◌, length};
ghost use Rattle.format.specs.Outcome.{then, got};
ghost use Rattle.format.specs.Files.{file_at};
ghost use Rattle.format.specs.Counts.{plus, counts_of, adds as item_adds};
ghost use Rattle.proof.specs.Answers.{outcome};
ghost use Rattle.proof.specs.Pieces.{piece};
ghost use Rattle.proof.specs.Counted.{counted};

use crate::fault::Fault;
use crate::item::{Content, Item};
use crate::walk::Walk;

#[derive(Clone, Copy)]
pub struct Counts {
    pub pending: usize,
    pub bitcoin: usize,
    pub unknown: usize,
}

impl Counts {
    // An attestation is one claim more.
    fn note(&mut self, item: &Item)
        requires { self.old.pending + self.old.bitcoin + self.old.unknown < 2 ^ 64 - 1 }
        ensures more { self.new.pending + self.new.bitcoin + self.new.unknown ≤ self.old.pending + self.old.bitcoin + self.old.unknown + 1 }
        ensures adds { counted self.new ≡ plus (counted self.old) (item_adds (piece item.now)) }
    {
        if let Item::Attestation { content, .. } = *item {
            match content {
                Content::Pending(_) => self.pending += 1,
                Content::Bitcoin(_) => self.bitcoin += 1,
                Content::Unknown { .. } => self.unknown += 1,
            }
        }
    }
}

// Reads the whole file: its claims counted, or the first fault met.
pub fn count(file: &[u8]) -> Result<Counts, Fault>
    ensures { outcome counted result (length file.now) ≡ then (file_at file.now) (λ s n. got (counts_of s.claims) n) }
{
    let mut walk = Walk::new(file)?;
    let mut counts = Counts {
        pending: 0,
        bitcoin: 0,
        unknown: 0,
    };
    while let Some(step) = walk.next()? {
        counts.note(&step.item);
    }
    Ok(counts)
}
