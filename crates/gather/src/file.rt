// Gathering the claims of a whole file.
ghost use Rattle.format.specs.Files.{Said};
ghost use Rattle.gather.specs.Trees.{Says, Gathers};
ghost use Rattle.gather.specs.Readings.{Grows};

use crate::node::{Above, read_node};
use crate::scan::scan;
use crate::trouble::Trouble;
use claims::size::fits;
use claims::tree::Node;
use proof::reader::Reader;
use proof::walk::Walk;
use std::alloc::Global;

// The sorted tree of the file's claims. Every fault shows before memory is asked for.
pub fn gather(heap: Global, file: &[u8]) -> Result<Node, Trouble>
    ensures { Gathers file.now result }
{
    scan(file)?;
    let node = grow(heap, file)?;
    if fits(&node) {
        Ok(node)
    } else {
        Err(Trouble::Large)
    }
}

// The tree, whatever its size, unless it was seen to pass a limit.
fn grow(heap: Global, file: &[u8]) -> Result<Node, Trouble>
    requires { (s : Said) × Says file.now s }
    ensures { Grows file.now result }
{
    let walk = Walk::new(file)?;
    let mut reader = Reader {
        file,
        at: walk.offset(),
    };
    let above = Above { depth: 0, size: 32 };
    read_node(&mut reader, heap, above)
}
