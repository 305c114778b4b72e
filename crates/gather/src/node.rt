// Building the tree of a node from its items: each is a tree of its own, merged into those before it.
ghost use Rattle.std.specs.Prelude.{◌≡◌, ℕ, ◌≤◌, true, false};
ghost use Rattle.format.specs.Nodes.{node_at};
ghost use Rattle.claims.specs.Models.{node as held};
ghost use Rattle.gather.specs.Trees.{fitting};
ghost use Rattle.gather.specs.Readings.{branch_at, Built, Joined};

use crate::single::{blank, branch, mark};
use crate::trouble::Trouble;
use claims::size::fits;
use claims::tree::Node;
use claims::union::union;
use proof::item::Item;
use proof::operations::result_size;
use proof::reader::Reader;
use std::alloc::Global;

// A node is measured once for so many items, so that it stays narrow, and long files of equal items stay cheap.
const ITEMS: u8 = 64;

// What stands above a node: so many operations, and their message of so many bytes.
#[derive(Clone, Copy)]
pub(crate) struct Above {
    pub depth: u8,
    pub size: u16,
    pub ghost fits: { size ≤ 4096 },
}

// The node here, below what stands above it.
#[cycle(join_read_branch_read_node)]
pub(crate) fn read_node(reader: &mut Reader, heap: Global, above: Above) -> Result<Node, Trouble>
    ensures same { reader.new.file.now ≡ reader.old.file.now }
    ensures reads { Built (node_at above.depth above.size reader.old.file.now reader.old.at) result reader.new.at }
{
    let mut node = blank();
    'measured: loop {
        'items: for _ in 0..ITEMS {
            let more = reader.more();
            node = join(reader, heap, above, node)?;
            if !more {
                return Ok(node);
            }
        }
        if large(&node) {
            return Err(Trouble::Large);
        }
    }
}

// Whether the node passes a limit.
fn large(node: &Node) -> bool
    ensures { result ≡ true → fitting (held node.now) ≡ false }
{
    !fits(node)
}

// The next item, merged into the node so far.
#[cycle(join_read_branch_read_node)]
fn join(reader: &mut Reader, heap: Global, above: Above, node: Node) -> Result<Node, Trouble>
    ensures same { reader.new.file.now ≡ reader.old.file.now }
    ensures reads { Joined (held node) (branch_at above.depth above.size reader.old.file.now reader.old.at) result reader.new.at }
{
    let one = read_branch(reader, heap, above)?;
    Ok(union(node, one))
}

// An item and the node below it, as a node of its own.
#[cycle(join_read_branch_read_node)]
fn read_branch(reader: &mut Reader, heap: Global, above: Above) -> Result<Node, Trouble>
    ensures same { reader.new.file.now ≡ reader.old.file.now }
    ensures reads { Built (branch_at above.depth above.size reader.old.file.now reader.old.at) result reader.new.at }
{
    match reader.item(above.depth, above.size)? {
        Item::Attestation { content, .. } => Ok(mark(heap, content)?),
        Item::Operation { kind, argument, .. } => {
            let size = result_size(kind, above.size, argument.len()) as u16;
            let depth = above.depth + 1;
            let below = read_node(reader, heap, Above { depth, size })?;
            Ok(branch(heap, kind, argument, below)?)
        }
    }
}
