// What a node holds: how many claims, and its k-th attestation.
ghost use Rattle.std.specs.Prelude.{◌≡◌, ◌+◌, ◌^◌, ◌<◌, length};
ghost use Rattle.std.specs.List.{slice_get};
ghost use Rattle.claim_trees.specs.Size.{atts_in};
ghost use Rattle.claims.specs.Models.{atts, tree, node as node_of};
ghost use Rattle.rows.specs.Places.{marked};

use claims::tree::{Attestation, Branches, Marks, Node};

pub(crate) fn count_marks(marks: &Marks) -> usize
    requires { length (atts marks.now) < 2 ^ 64 }
    ensures { result ≡ length (atts marks.now) }
{
    match marks {
        None => 0,
        Some(mark) => 1 + count_marks(&mark.rest),
    }
}

fn count_branches(branches: &Branches) -> usize
    requires { atts_in (tree branches.now) < 2 ^ 64 }
    ensures { result ≡ atts_in (tree branches.now) }
{
    match branches {
        None => 0,
        Some(branch) => {
            let marks = count_marks(&branch.below.marks);
            let below = count_branches(&branch.below.branches);
            marks + (below + count_branches(&branch.rest))
        }
    }
}

// The claims of a node and of all below it.
pub(crate) fn count_node(node: &Node) -> usize
    requires { length (node_of node.now).marks + atts_in (node_of node.now).branches < 2 ^ 64 }
    ensures { result ≡ length (node_of node.now).marks + atts_in (node_of node.now).branches }
{
    count_marks(&node.marks) + count_branches(&node.branches)
}

// The k-th attestation of a node, or none.
pub(crate) fn mark_at(marks: &Marks, k: usize) -> Option<&Attestation>
    ensures { marked result ≡ slice_get (atts marks.now) k }
{
    let mark = marks.as_ref()?;
    if k == 0 {
        Some(&mark.attestation)
    } else {
        mark_at(&mark.rest, k - 1)
    }
}
