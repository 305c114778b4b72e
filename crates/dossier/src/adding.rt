// Adding a file: it is read, compared and measured before anything of the dossier moves.
ghost use Rattle.std.specs.Prelude.{◌≡◌};
ghost use Rattle.claim_trees.specs.Union.{union as union_of};
ghost use Rattle.claims.specs.Models.{node as node_of};
ghost use Rattle.runs.specs.Contents.{tree_in};
ghost use Rattle.runs.specs.Adding.{agrees, small, Added};
ghost use Rattle.dossier.specs.Refusals.{answered};
ghost use Rattle.dossier.specs.Models.{content_of};

use crate::refusal::Refusal;
use claims::size::{both_fit, fits};
use claims::tree::Node;
use claims::union::union;
use gather::file::gather;
use gather::scan::head;
use rows::held::About;
use std::alloc::Global;

// Whether the digest is that of the dossier, if it has one.
fn agreeing(held: &Option<About>, digest: &[u8; 32]) -> bool
    ensures { result ≡ agrees (content_of held.now) digest.now }
{
    match held {
        None => true,
        Some(about) => about.digest == *digest,
    }
}

// Whether the union with a node passes no limit.
fn fitting(held: &Option<About>, node: &Node) -> bool
    ensures { result ≡ small (union_of (tree_in (content_of held.now)) (node_of node.now)) }
{
    match held {
        None => fits(node),
        Some(about) => both_fit(&about.top, node),
    }
}

// The claims of both.
fn joined(held: Option<About>, node: Node) -> Node
    ensures { node_of result ≡ union_of (tree_in (content_of held)) (node_of node) }
{
    match held {
        None => node,
        Some(About { digest: _, top }) => union(top, node),
    }
}

// Every fault of the file, and a digest that differs, show before memory is asked for.
pub(crate) fn add(held: &mut Option<About>, heap: Global, file: &[u8]) -> Result<(), Refusal>
    ensures { Added (content_of held.old) file.now (answered result) (content_of held.new) }
{
    let head = head(file)?;
    let digest = head.digest;
    if !agreeing(held, digest) {
        return Err(Refusal::Differs(head.hash));
    }
    let node = gather(heap, file)?;
    if !fitting(held, &node) {
        return Err(Refusal::Large);
    }
    let top = joined(held.take(), node);
    let about = About {
        digest: *digest,
        top,
    };
    *held = Some(about);
    Ok(())
}
