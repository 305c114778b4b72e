// The union of two trees, made by moving their parts: nothing is allocated, and it cannot fail.
ghost use Rattle.std.specs.Prelude.{◌≡◌};
ghost use Rattle.claim_trees.specs.Union.{unite as united, unify as unified, union as joined};
ghost use Rattle.claims.specs.Models.{atts, tree, node};

use crate::tree::{Branches, Marks, Node};
use std::cmp::Ordering;

// The attestations of two nodes, one that both have once.
pub fn unite(x: Marks, y: Marks) -> Marks
    ensures { atts result ≡ united (atts x) (atts y) }
{
    match (x, y) {
        (None, y) => y,
        (x, None) => x,
        (Some(mut a), Some(mut b)) => match a.attestation.cmp(&b.attestation) {
            Ordering::Less => {
                let rest = a.rest.take();
                a.rest = unite(rest, Some(b));
                Some(a)
            }
            Ordering::Equal => {
                let rest = a.rest.take();
                let others = b.rest.take();
                a.rest = unite(rest, others);
                Some(a)
            }
            Ordering::Greater => {
                let others = b.rest.take();
                b.rest = unite(Some(a), others);
                Some(b)
            }
        },
    }
}

// The branches of two nodes; below an operation that both have, the union of what is below it in each.
pub fn unify(x: Branches, y: Branches) -> Branches
    ensures { tree result ≡ unified (tree x) (tree y) }
{
    match (x, y) {
        (None, y) => y,
        (x, None) => x,
        (Some(mut a), Some(mut b)) => match a.operation.order(&b.operation) {
            Ordering::Less => {
                let rest = a.rest.take();
                a.rest = unify(rest, Some(b));
                Some(a)
            }
            Ordering::Equal => {
                let marks = a.below.marks.take();
                let others = b.below.marks.take();
                let below = a.below.branches.take();
                let low = b.below.branches.take();
                let rest = a.rest.take();
                let far = b.rest.take();
                a.below.marks = unite(marks, others);
                a.below.branches = unify(below, low);
                a.rest = unify(rest, far);
                Some(a)
            }
            Ordering::Greater => {
                let far = b.rest.take();
                b.rest = unify(Some(a), far);
                Some(b)
            }
        },
    }
}

// The claims of both.
pub fn union(x: Node, y: Node) -> Node
    ensures { node result ≡ joined (node x) (node y) }
{
    Node {
        marks: unite(x.marks, y.marks),
        branches: unify(x.branches, y.branches),
    }
}
