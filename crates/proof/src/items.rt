// Reading the items of a node.
ghost use Rattle.std.specs.Prelude.{◌≡◌, ℕ, ◌+◌, ◌≤◌, length, IfOk};
ghost use Rattle.format.specs.Outcome.{got};
ghost use Rattle.format.specs.Items.{item_at};
ghost use Rattle.format.specs.Nodes.{more_at};
ghost use Rattle.proof.specs.Answers.{outcome};
ghost use Rattle.proof.specs.Pieces.{piece, Bounded};

use crate::fault::Fault;
use crate::item::Item;
use crate::reader::Reader;

impl<'a> Reader<'a> {
    // Whether another item follows the next one: passes over the ff that says so.
    pub fn more(&mut self) -> bool
        ensures same { self.new.file.now ≡ self.old.file.now }
        ensures reads { got result self.new.at ≡ more_at self.old.file.now self.old.at }
    {
        if self.file.get(self.at) == Some(&0xff) {
            self.at += 1;
            return true;
        }
        false
    }

    // The next item, under depth operations, over a message of size bytes.
    pub fn item(&mut self, depth: u8, size: u16) -> Result<Item<'a>, Fault>
        ensures bounds { IfOk result (λ i. Bounded depth size i) }
        ensures same { self.new.file.now ≡ self.old.file.now }
        ensures reads { outcome piece result self.new.at ≡ item_at depth size self.old.file.now self.old.at }
    {
        let offset = self.at;
        let tag = self.byte()?;
        if tag == 0 {
            self.attestation()
        } else {
            self.operation(tag, offset, depth, size)
        }
    }
}
