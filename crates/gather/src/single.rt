// Nodes of nothing and of one item, with bytes of their own.
ghost use Rattle.std.specs.Prelude.{◌≡◌, ℕ, [], ◌∷◌, length, IfOk};
ghost use Rattle.format.specs.Operations.{op_of};
ghost use Rattle.claim_trees.specs.Tree.{end, more, held, blank as none};
ghost use Rattle.proof.specs.Pieces.{attested};
ghost use Rattle.claims.specs.Models.{op, att, node};
ghost use Rattle.gather.specs.Readings.{Tagged};

use claims::tree::{Attestation, Branch, Mark, Node, Operation};
use format::Kind;
use proof::item::Content;
use std::alloc::{AllocError, Global};

pub(crate) fn blank() -> Node
    ensures { node result ≡ none }
{
    Node {
        marks: None,
        branches: None,
    }
}

// The node with this attestation alone.
pub(crate) fn mark(heap: Global, content: Content) -> Result<Node, AllocError>
    requires { Tagged content }
    ensures { IfOk result (λ n. node n ≡ held (attested content.entry ∷ []) end) }
{
    let attestation = attestation(heap, content)?;
    let cell = Box::new(
        heap,
        Mark {
            attestation,
            rest: None,
        },
    )?;
    Ok(Node {
        marks: Some(cell),
        branches: None,
    })
}

// The node with this branch alone.
pub(crate) fn branch(
    heap: Global,
    kind: Kind,
    argument: &[u8],
    below: Node,
) -> Result<Node, AllocError>
    ensures { IfOk result (λ n. node n ≡ held [] (more (op_of kind argument.now) (node below).marks (node below).branches end)) }
{
    let operation = operation(heap, kind, argument)?;
    let cell = Box::new(
        heap,
        Branch {
            operation,
            below,
            rest: None,
        },
    )?;
    Ok(Node {
        marks: None,
        branches: Some(cell),
    })
}

fn operation(heap: Global, kind: Kind, argument: &[u8]) -> Result<Operation, AllocError>
    ensures { IfOk result (λ o. op o ≡ op_of kind argument.now) }
{
    match kind {
        Kind::Sha256 => Ok(Operation::Sha256),
        Kind::Append => Ok(Operation::Append(argument.to_vec(heap)?)),
        Kind::Prepend => Ok(Operation::Prepend(argument.to_vec(heap)?)),
        Kind::Reverse => Ok(Operation::Reverse),
        Kind::Hexlify => Ok(Operation::Hexlify),
    }
}

fn attestation(heap: Global, content: Content) -> Result<Attestation, AllocError>
    requires { Tagged content }
    ensures { IfOk result (λ a. att a ≡ attested content.entry) }
{
    match content {
        Content::Pending(address) => Ok(Attestation::Pending(address.to_vec(heap)?)),
        Content::Bitcoin(height) => Ok(Attestation::Bitcoin(height)),
        Content::Unknown { tag, payload } => {
            let payload = payload.to_vec(heap)?;
            let tag = eight(tag);
            Ok(Attestation::Unknown { tag, payload })
        }
    }
}

// The eight bytes of a tag.
fn eight(tag: &[u8]) -> [u8; 8]
    requires { length tag.now ≡ 8 }
    ensures { result ≡ tag.now }
{
    *tag.as_array().unwrap()
}
