// The way down a tree to a claim, by one loop, each operation on it applied.
ghost use Rattle.std.specs.Prelude.{◌≡◌, ◌+◌, ◌≤◌, true, length, take};
ghost use Rattle.std.specs.List.{slice_get};
ghost use Rattle.claim_trees.specs.Lawful.{marks_fit, branches_fit};
ghost use Rattle.claim_trees.specs.Size.{atts_in};
ghost use Rattle.claim_trees.specs.Tree.{claims as listed};
ghost use Rattle.claims.specs.Models.{node};
ghost use Rattle.judge.specs.Meaning.{Meaning};
ghost use Rattle.runs.specs.Reports.{rows_in};
ghost use Rattle.rows.specs.Models.{content_lent};
ghost use Rattle.rows.specs.Places.{view, shown, row_in};

use crate::Area;
use crate::held::LentAbout;
use crate::nodes::{count_marks, count_node, mark_at};
use crate::place::Place;
use crate::steps::step;
use claims::tree::Node;
use format::Kind;
use replay::apply;

// The k-th claim of a tree, whose top message is the first `start` bytes of the area. A branch that has not so many claims
// is passed; into any other the walk goes down.
fn walk<'a>(top: &'a Node, row: usize, work: &mut Area, start: usize) -> Option<Place<'a>>
    requires start { start ≤ 4096 }
    requires marks { marks_fit (node top.now).marks ≡ true }
    requires branches { branches_fit 0 start (node top.now).branches ≡ true }
    requires few { length (node top.now).marks + atts_in (node top.now).branches ≤ 128 }
    ensures { view result work.new ≡ shown 0 (take start work.old) (slice_get (listed (node top.now).marks (node top.now).branches) row) }
{
    if let Some(attestation) = mark_at(&top.marks, row) {
        return Some(Place {
            attestation,
            operations: 0,
            size: start,
        });
    }
    let mut k = row - count_marks(&top.marks);
    let mut size = start;
    let mut operations = 0;
    let mut branches = &top.branches;
    loop {
        match branches {
            None => return None,
            Some(more) => {
                let branch = &**more;
                let n = count_node(&branch.below);
                if k >= n {
                    k -= n;
                    branches = &branch.rest;
                } else {
                    size = step(&branch.operation, work, size);
                    operations += 1;
                    if let Some(attestation) = mark_at(&branch.below.marks, k) {
                        return Some(Place {
                            attestation,
                            operations,
                            size,
                        });
                    }
                    k -= count_marks(&branch.below.marks);
                    branches = &branch.below.branches;
                }
            }
        }
    }
}

// The k-th claim, from the digest on, which goes to the front of the area behind no other message.
pub(crate) fn place_of<'a>(about: LentAbout<'a>, k: usize, work: &mut Area) -> Option<Place<'a>>
    ensures { (m : Meaning) → row_in m (view result work.new) ≡ slice_get (rows_in m (content_lent about.entry)) k }
{
    let size = apply(Kind::Append, about.digest, work, 0);
    walk(about.top, k, work, size)
}
