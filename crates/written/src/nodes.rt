// Putting nodes: the attestations, then the branches, each with the node below it.
ghost use Rattle.std.specs.Prelude.{◌≡◌};
ghost use Rattle.claim_trees.specs.Onto.{marks_length, branches_length, node_length, marks_onto, branches_onto, node_onto};
ghost use Rattle.claims.specs.Models.{atts, tree, node};
ghost use Rattle.written.specs.Writers.{written, HasNarrowRoom, Moved};

use crate::items::{put_attestation, put_operation};
use crate::lengths::ended;
use crate::writer::Writer;
use claims::tree::{Branches, Marks, Node};

// Where no branch follows, alone, the last attestation is the last item.
fn put_marks(w: &mut Writer<'_>, m: &Marks, alone: bool)
    requires { HasNarrowRoom w.old (marks_length (atts m.now) alone) }
    ensures moved { Moved w.old w.new (marks_length (atts m.now) alone) }
    ensures front { written w.new ≡ marks_onto (written w.old) (atts m.now) alone }
{
    match m {
        None => {}
        Some(x) => {
            w.ff(x.rest.is_none() && alone);
            put_attestation(w, &x.attestation);
            put_marks(w, &x.rest, alone)
        }
    }
}

fn put_branches(w: &mut Writer<'_>, b: &Branches)
    requires { HasNarrowRoom w.old (branches_length (tree b.now)) }
    ensures moved { Moved w.old w.new (branches_length (tree b.now)) }
    ensures front { written w.new ≡ branches_onto (written w.old) (tree b.now) }
{
    match b {
        None => {}
        Some(x) => {
            w.ff(ended(&x.rest));
            put_operation(w, &x.operation);
            put_marks(w, &x.below.marks, ended(&x.below.branches));
            put_branches(w, &x.below.branches);
            put_branches(w, &x.rest)
        }
    }
}

pub(crate) fn put_node(w: &mut Writer<'_>, n: &Node)
    requires { HasNarrowRoom w.old (node_length (node n.now).marks (node n.now).branches) }
    ensures moved { Moved w.old w.new (node_length (node n.now).marks (node n.now).branches) }
    ensures front { written w.new ≡ node_onto (written w.old) (node n.now).marks (node n.now).branches }
{
    put_marks(w, &n.marks, ended(&n.branches));
    put_branches(w, &n.branches)
}
