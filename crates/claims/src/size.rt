// The size of a node, and of the union of two before anything of them moves.
ghost use Rattle.std.specs.Prelude.{◌≡◌, ◌≤◌, length};
ghost use Rattle.claim_trees.specs.Bytes.{shortest};
ghost use Rattle.claim_trees.specs.Onto.{payload_length};
ghost use Rattle.claim_trees.specs.Size.{within as within_limits};
ghost use Rattle.claim_trees.specs.Union.{unite, unify, union};
ghost use Rattle.claims.specs.Models.{op, att, atts, tree, node};
ghost use Rattle.claims.specs.Sizes.{amount, capped, cap, plus as added, of_op, of_att, of_marks, of_tree, of_node, size_in, size_in_both};

use crate::tree::{Attestation, Branches, Marks, Node, Operation};
use std::cmp::Ordering;
use std::ops::Add;

// What a dossier holds at most.
const OPERATIONS: usize = 1024;

const ATTESTATIONS: usize = 128;

const BYTES: usize = 32768;

// Operations, attestations, and the bytes of their arguments and payloads.
#[derive(Clone, Copy, Debug, Default, PartialEq, Eq)]
pub struct Size {
    pub operations: usize,
    pub attestations: usize,
    pub bytes: usize,
}

// The size of what a node holds.
#[tactic(auto, using(crate::proofs::Capped::counted, crate::proofs::Capped::counted_within))]
pub fn size_of(n: &Node) -> Size
    ensures size { amount result ≡ cap (size_in (node n.now)) }
    ensures limits { within_limits (amount result) ≡ within_limits (size_in (node n.now)) }
{
    of_node(n)
}

// The size of the union, what both hold counted once.
#[tactic(auto, using(crate::proofs::Capped::both_counted, crate::proofs::Capped::both_within))]
pub fn size_of_both(x: &Node, y: &Node) -> Size
    ensures size { amount result ≡ cap (size_in_both (node x.now) (node y.now)) }
    ensures limits { within_limits (amount result) ≡ within_limits (size_in_both (node x.now) (node y.now)) }
{
    of_both_nodes(x, y)
}

// Whether no limit is passed.
pub fn within(s: &Size) -> bool
    ensures { result ≡ within_limits (amount s.now) }
{
    s.operations <= OPERATIONS && s.attestations <= ATTESTATIONS && s.bytes <= BYTES
}

// Whether what a node holds passes no limit.
pub fn fits(n: &Node) -> bool
    ensures { result ≡ within_limits (size_in (node n.now)) }
{
    within(&size_of(n))
}

// Whether the union passes no limit.
pub fn both_fit(x: &Node, y: &Node) -> bool
    ensures { result ≡ within_limits (size_in_both (node x.now) (node y.now)) }
{
    within(&size_of_both(x, y))
}

// The same, added up item by item.
fn of_node(n: &Node) -> Size
    ensures { amount result ≡ of_node (node n.now) }
{
    of_marks(&n.marks) + of_branches(&n.branches)
}

fn of_both_nodes(x: &Node, y: &Node) -> Size
    ensures { amount result ≡ of_node (union (node x.now) (node y.now)) }
{
    let marks = of_both_marks(&x.marks, &y.marks);
    marks + of_both_branches(&x.branches, &y.branches)
}

// No sum passes the greatest number, however large the trees are.
impl Add for Size {
    type Output = Size;

    ghost add_gives = { λ a b sum. amount sum ≡ added (amount a) (amount b) };

    #[tactic(auto, unfolding(crate::specs::Sizes::plus, crate::specs::Sizes::cap))]
    fn add(self, other: Size) -> Size {
        Size {
            operations: self.operations.saturating_add(other.operations),
            attestations: self.attestations.saturating_add(other.attestations),
            bytes: self.bytes.saturating_add(other.bytes),
        }
    }
}

// An operation without the node below it.
fn of_operation(o: &Operation) -> Size
    ensures { amount result ≡ of_op (op o.now) }
{
    Size {
        operations: 1,
        attestations: 0,
        bytes: o.argument().len(),
    }
}

fn of_attestation(a: &Attestation) -> Size
    ensures { amount result ≡ of_att (att a.now) }
{
    Size {
        operations: 0,
        attestations: 1,
        bytes: payload_length(a),
    }
}

// How long the payload is in its shortest form.
fn payload_length(a: &Attestation) -> usize
    ensures { result ≡ capped (payload_length (att a.now)) }
{
    match a {
        Attestation::Pending(address) => number_length(address.len()).saturating_add(address.len()),
        Attestation::Bitcoin(height) => number_length(*height as usize),
        Attestation::Unknown { tag: _, payload } => payload.len(),
    }
}

// How many bytes a number takes in its shortest form, seven bits in each.
#[tactic(auto, using(crate::proofs::Numbers::lengths))]
pub fn number_length(n: usize) -> usize
    ensures short { result ≤ 5 }
    ensures value { result ≡ length (shortest n) }
{
    if n < 0x80 {
        1
    } else if n < 0x4000 {
        2
    } else if n < 0x20_0000 {
        3
    } else if n < 0x1000_0000 {
        4
    } else {
        5
    }
}

// Kept: of one list and none, since the same of two would then have a case for each list that ends first, and be no plainer.
fn of_marks(m: &Marks) -> Size
    ensures { amount result ≡ of_marks (atts m.now) }
{
    match m {
        None => Size::default(),
        Some(a) => of_attestation(&a.attestation) + of_marks(&a.rest),
    }
}

fn of_both_marks(x: &Marks, y: &Marks) -> Size
    ensures { amount result ≡ of_marks (unite (atts x.now) (atts y.now)) }
{
    match (x, y) {
        (None, _) => of_marks(y),
        (_, None) => of_marks(x),
        (Some(a), Some(b)) => match a.attestation.cmp(&b.attestation) {
            Ordering::Less => of_attestation(&a.attestation) + of_both_marks(&a.rest, y),
            Ordering::Equal => of_attestation(&a.attestation) + of_both_marks(&a.rest, &b.rest),
            Ordering::Greater => of_attestation(&b.attestation) + of_both_marks(x, &b.rest),
        },
    }
}

fn of_branches(b: &Branches) -> Size
    ensures { amount result ≡ of_tree (tree b.now) }
{
    match b {
        None => Size::default(),
        Some(a) => {
            let item = of_operation(&a.operation) + of_marks(&a.below.marks);
            let below = of_branches(&a.below.branches);
            item + (below + of_branches(&a.rest))
        }
    }
}

fn of_both_branches(x: &Branches, y: &Branches) -> Size
    ensures { amount result ≡ of_tree (unify (tree x.now) (tree y.now)) }
{
    match (x, y) {
        (None, _) => of_branches(y),
        (_, None) => of_branches(x),
        (Some(a), Some(b)) => match a.operation.order(&b.operation) {
            Ordering::Less => {
                let item = of_operation(&a.operation) + of_marks(&a.below.marks);
                let below = of_branches(&a.below.branches);
                item + (below + of_both_branches(&a.rest, y))
            }
            Ordering::Equal => {
                let marks = of_both_marks(&a.below.marks, &b.below.marks);
                let item = of_operation(&a.operation) + marks;
                let below = of_both_branches(&a.below.branches, &b.below.branches);
                item + (below + of_both_branches(&a.rest, &b.rest))
            }
            Ordering::Greater => {
                let item = of_operation(&b.operation) + of_marks(&b.below.marks);
                let below = of_branches(&b.below.branches);
                item + (below + of_both_branches(x, &b.rest))
            }
        },
    }
}
