// Messages replayed in a lent work area.
#![tactic(auto)]

ghost use Rattle.std.specs.Prelude.{◌≡◌, ◌≤◌, length, take, drop, IfSome};
ghost use Rattle.format.specs.Operations.{op_of, result_size};
ghost use Rattle.replay.specs.Laws.{SizesAreLengths, PathsGoOn, GuardsLeave};
ghost use Rattle.replay.specs.Messages.{apply};
ghost use Rattle.replay.specs.Paths.{ops, replayed, replay_in};

mod bytes;
pub mod guard;
pub mod hex;
pub mod link;
mod operations;
mod paths;

use format::Kind;
use link::Link;
use operations::operate;
use paths::{fitting, placed};

// The bytes at the front of an area in which messages are worked: as many as the longest message has.
pub const ROOM: usize = 4096;

// One operation on the message in the first `size` bytes of the area. Answers the size of its result, which stands
// there then.
pub fn apply(kind: Kind, argument: &[u8], area: &mut [u8], size: usize) -> usize
    requires { (4096 ≤ length area.old) × ((size ≤ 4096) × (result_size kind size (length argument.now) ≤ 4096)) }
    ensures value { result ≡ result_size kind size (length argument.now) }
    ensures message { take result area.new ≡ apply (op_of kind argument.now) (take size area.old) }
    ensures kept { drop 4096 area.new ≡ drop 4096 area.old }
{
    let Some(work) = area.first_chunk_mut::<ROOM>() else {
        unreachable!()
    };
    operate(kind, argument, work, size)
}

// The message that a path makes of a digest: at the front of the area, with its size as the answer. Where the area has
// not 4,096 bytes, or a message on the way more, there is no answer and the area stays as it is.
pub fn replay(path: &[Link], digest: &[u8], area: &mut [u8]) -> Option<usize>
    ensures bound { IfSome result (λ size. size ≤ 4096) }
    ensures work { replayed result area.new ≡ replay_in (ops path.now) digest.now area.old }
{
    let work = area.first_chunk_mut::<ROOM>()?;
    if !fitting(path, digest.len()) {
        return None;
    }
    Some(placed(path, digest, work))
}

// A law: the size of a result, as the reader reckons it, is the length of the message that the operation makes.
#[tactic(auto, using(crate::proofs::Sizes::sizes_are_lengths))]
pub fn sizes_are_lengths() -> u8
    ensures { SizesAreLengths }
{
    0
}

// A law: to replay a path that goes on is to replay its beginning, and then the rest on what that made.
#[tactic(auto, using(crate::proofs::Sizes::paths_go_on))]
pub fn paths_go_on() -> u8
    ensures { PathsGoOn }
{
    0
}

// A law: whatever was worked in the first 4,096 bytes of an area, a guard leaves of it what a call has to leave.
pub fn guards_leave() -> u8
    ensures { GuardsLeave }
{
    0
}
