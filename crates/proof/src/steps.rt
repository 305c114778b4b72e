// The next item of a walk.
ghost use Rattle.std.specs.Prelude.{◌≡◌, length, IfOk};
ghost use Rattle.format.specs.Files.{start_at};
ghost use Rattle.format.specs.Walks.{next_at, after, top};
ghost use Rattle.proof.specs.Answers.{outcome};
ghost use Rattle.proof.specs.Pieces.{piece, Bounded};
ghost use Rattle.proof.specs.Places.{place_of, opened, handed_by, Stays};

use crate::fault::Fault;
use crate::head::Head;
use crate::item::Item;
use crate::levels::Levels;
use crate::operations::result_size;
use crate::reader::Reader;
use crate::walk::{Step, Walk};
use format::Level;

// The longest file.
pub const FILE: usize = 65536;

// The top node is over the digest.
const DIGEST: u16 = 32;

impl<'a> Walk<'a> {
    // A walk that stands at the top node, behind the head of the file.
    pub fn new(file: &'a [u8]) -> Result<Walk<'a>, Fault>
        ensures walks { IfOk result (λ w. (w.reader.file.now ≡ file.now) × (place_of w ≡ top)) }
        ensures reads { opened result ≡ start_at file.now }
    {
        if file.len() > FILE {
            return Err(Fault::Long);
        }
        let mut reader = Reader { file, at: 0 };
        let head = reader.head()?;
        Ok(Walk {
            reader,
            head,
            levels: Levels::new(),
            size: Some(DIGEST),
        })
    }

    // The offset of the file hash tag, and the digest.
    pub fn head(&self) -> Head<'a>
        ensures { result ≡ self.now.head }
    {
        self.head
    }

    // How many bytes have been read.
    pub fn offset(&self) -> usize
        ensures { result ≡ self.now.reader.at }
    {
        self.reader.at
    }

    // The next item with its depth; none once the file has ended. A fault stays: to ask again gives it again.
    pub fn next(&mut self) -> Result<Option<Step<'a>>, Fault>
        ensures same { self.new.reader.file.now ≡ self.old.reader.file.now }
        ensures head { self.new.head ≡ self.old.head }
        ensures kept { Stays result (self.new ≡ self.old) }
        ensures reads { outcome (λ s. handed_by s (place_of self.new)) result self.new.reader.at ≡ next_at (place_of self.old) self.old.reader.file.now self.old.reader.at }
    {
        let mut reader = self.reader;
        let Some(size) = self.size else {
            if reader.at != reader.file.len() {
                return Err(Fault::Follows(reader.at));
            }
            return Ok(None);
        };
        let depth = self.levels.depth();
        let more = reader.more();
        let item = reader.item(depth, size)?;
        self.reader = reader;
        self.pass(Level { more, size }, &item);
        Ok(Some(Step { depth, item }))
    }

    // Goes on to the place behind an item that has been read: into the node below an operation, along the node
    // behind an attestation, or up where that was the node's last.
    fn pass(&mut self, level: Level, item: &Item)
        requires { (self.old.size ≡ Some level.size) × Bounded (length self.old.levels) level.size item.now }
        ensures same { self.new.reader ≡ self.old.reader }
        ensures head { self.new.head ≡ self.old.head }
        ensures place { place_of self.new ≡ after level.more (piece item.now) self.old.levels level.size }
    {
        match *item {
            Item::Operation { kind, argument, .. } => {
                self.levels.push(level);
                self.size = Some(result_size(kind, level.size, argument.len()) as u16);
            }
            Item::Attestation { .. } => {
                if !level.more {
                    self.size = self.levels.rise();
                }
            }
        }
    }
}
