// Reading operations.
ghost use Rattle.std.specs.Prelude.{◌≡◌, ℕ, ◌+◌, ◌≤◌, length, IfOk};
ghost use Rattle.format.specs.Operations.{kind_of, result_size, argument_at};
ghost use Rattle.format.specs.Items.{operation_at};
ghost use Rattle.proof.specs.Answers.{outcome};
ghost use Rattle.proof.specs.Pieces.{piece, Bounded};

use crate::fault::Fault;
use crate::item::Item;
use crate::reader::Reader;
use format::Kind;

// No argument is longer than the longest message, and none is empty.
const ARGUMENT: u32 = 4096;

// The longest message that an operation may make.
const MESSAGE: usize = 4096;

// The most operations on a path.
const PATH: u8 = 255;

impl<'a> Reader<'a> {
    fn argument(&mut self, kind: Kind) -> Result<&'a [u8], Fault>
        ensures long { IfOk result (λ s. length s.now ≤ 4096) }
        ensures behind { IfOk result (λ s. length s.now ≤ self.new.at) }
        ensures same { self.new.file.now ≡ self.old.file.now }
        ensures reads { outcome (λ s. s.now) result self.new.at ≡ argument_at kind self.old.file.now self.old.at }
    {
        match kind {
            Kind::Append | Kind::Prepend => self.block(1, ARGUMENT),
            Kind::Sha256 | Kind::Reverse | Kind::Hexlify => {
                let file = self.file;
                Ok(&file[0..0])
            }
        }
    }

    // The operation whose tag stands at offset, under depth others, over a message of size bytes.
    pub(crate) fn operation(
        &mut self,
        tag: u8,
        offset: usize,
        depth: u8,
        size: u16,
    ) -> Result<Item<'a>, Fault>
        ensures bounds { IfOk result (λ i. Bounded depth size i) }
        ensures same { self.new.file.now ≡ self.old.file.now }
        ensures reads { outcome piece result self.new.at ≡ operation_at (kind_of tag) offset depth size self.old.file.now self.old.at }
    {
        let kind = Kind::try_from(tag).map_err(|_| Fault::Operation(offset))?;
        if depth >= PATH {
            return Err(Fault::Path(offset));
        }
        let argument = self.argument(kind)?;
        if result_size(kind, size, argument.len()) > MESSAGE {
            return Err(Fault::Result(offset));
        }
        let first = self.at - argument.len();
        Ok(Item::Operation {
            kind,
            argument,
            offset,
            first,
        })
    }
}

// How long the result is, of a message of size bytes and an argument of n.
pub fn result_size(kind: Kind, size: u16, n: usize) -> usize
    requires { n ≤ 4096 }
    ensures { result ≡ result_size kind size n }
{
    match kind {
        Kind::Sha256 => 32,
        Kind::Append | Kind::Prepend => size as usize + n,
        Kind::Reverse => size as usize,
        Kind::Hexlify => size as usize * 2,
    }
}
