// One operation of a tree on the message in the area.
ghost use Rattle.std.specs.Prelude.{◌≡◌, ◌≤◌, take};
ghost use Rattle.claim_trees.specs.Lawful.{result_of};
ghost use Rattle.claims.specs.Models.{op};
ghost use Rattle.replay.specs.Messages.{apply as applied};

use crate::Area;
use claims::tree::Operation;
use replay::apply;

// The message in the first `size` bytes gives way to what the operation makes of it, whose size is the answer.
pub(crate) fn step(operation: &Operation, work: &mut Area, size: usize) -> usize
    requires { (size ≤ 4096) × (result_of (op operation.now) size ≤ 4096) }
    ensures value { result ≡ result_of (op operation.now) size }
    ensures message { take result work.new ≡ applied (op operation.now) (take size work.old) }
{
    apply(operation.kind(), operation.argument(), work, size)
}
