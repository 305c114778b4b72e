// How many bytes are written. Sums stop at the largest machine number, so that no tree, however large, is measured short.
ghost use Rattle.std.specs.Prelude.{◌≡◌, ◌+◌, ◌≤◌, length};
ghost use Rattle.claim_trees.specs.Bytes.{shortest, none};
ghost use Rattle.claim_trees.specs.Onto.{block_length, op_length, att_length, ff_length, marks_length, branches_length, node_length};
ghost use Rattle.claims.specs.Models.{op, att, atts, tree, node};
ghost use Rattle.written.specs.Writing.{capped};

use claims::size::number_length;
use claims::tree::{Attestation, Branches, Marks, Node, Operation};

// A length and that many bytes.
pub(crate) fn block_length(bytes: &[u8]) -> usize
    ensures { result ≡ capped (block_length bytes.now) }
{
    number_length(bytes.len()).saturating_add(bytes.len())
}

fn operation_length(o: &Operation) -> usize
    ensures { result ≡ capped (op_length (op o.now)) }
{
    match o {
        Operation::Append(argument) | Operation::Prepend(argument) => block_length(
            argument,
        ).saturating_add(1),
        _ => 1,
    }
}

// The length of a payload, with the 00, the tag and the number that says the length.
fn around(payload: usize) -> usize
    ensures { result ≡ capped (9 + (length (shortest payload) + payload)) }
{
    (9 + number_length(payload)).saturating_add(payload)
}

fn attestation_length(a: &Attestation) -> usize
    ensures { result ≡ capped (att_length (att a.now)) }
{
    match a {
        Attestation::Pending(address) => around(block_length(address)),
        Attestation::Bitcoin(height) => around(number_length(*height as usize)),
        Attestation::Unknown { tag, payload } => {
            let tag: &[u8] = tag;
            (1 + tag.len()).saturating_add(block_length(payload))
        }
    }
}

// Whether no branch stands here.
// Kept: with `is_none` itself in its place the proofs of the two functions over branches did not close.
pub(crate) fn ended(b: &Branches) -> bool
    ensures { result ≡ none (tree b.now) }
{
    b.is_none()
}

// The ff before an item, unless it is the last of its node.
fn ff_length(last: bool) -> usize
    ensures { result ≡ ff_length last }
{
    if last { 0 } else { 1 }
}

fn marks_length(m: &Marks, alone: bool) -> usize
    ensures { result ≡ capped (marks_length (atts m.now) alone) }
{
    match m {
        None => 0,
        Some(x) => {
            let x = &**x;
            let first = ff_length(x.rest.is_none() && alone).saturating_add(attestation_length(
                &x.attestation,
            ));
            first.saturating_add(marks_length(&x.rest, alone))
        }
    }
}

fn branches_length(b: &Branches) -> usize
    ensures { result ≡ capped (branches_length (tree b.now)) }
{
    match b {
        None => 0,
        Some(x) => {
            let x = &**x;
            let item = ff_length(ended(&x.rest)).saturating_add(operation_length(&x.operation));
            let marks = marks_length(&x.below.marks, ended(&x.below.branches));
            let below = branches_length(&x.below.branches);
            let rest = branches_length(&x.rest);
            item.saturating_add(marks)
                .saturating_add(below)
                .saturating_add(rest)
        }
    }
}

pub(crate) fn node_length(n: &Node) -> usize
    ensures { result ≡ capped (node_length (node n.now).marks (node n.now).branches) }
{
    let marks = marks_length(&n.marks, ended(&n.branches));
    marks.saturating_add(branches_length(&n.branches))
}
