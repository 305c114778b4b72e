// A path replayed in a work area.
ghost use Rattle.std.specs.Prelude.{◌≡◌, ℕ, ◌-◌, ◌≤◌, true, List, ◌++◌, length, take, replicate, if◌then◌else◌, Some, None, nat_le};
ghost use Rattle.format.specs.Operations.{result_size};
ghost use Rattle.replay.specs.Messages.{fits, replay};
ghost use Rattle.replay.specs.Paths.{ops};

use crate::ROOM;
use crate::bytes::put;
use crate::link::Link;
use crate::operations::operate;
use format::Kind;

// The size that a link makes of size bytes, where it is within the limit.
fn next_size(size: usize, link: &Link) -> Option<usize>
    ensures { result ≡ (if nat_le (result_size link.now.kind size (length link.now.argument.now)) 4096 then Some (result_size link.now.kind size (length link.now.argument.now)) else None) }
{
    let next = match link.kind {
        Kind::Sha256 => 32,
        Kind::Append | Kind::Prepend => size.checked_add(link.argument.len())?,
        Kind::Reverse => size,
        Kind::Hexlify => size.checked_mul(2)?,
    };
    (next <= ROOM).then_some(next)
}

// Whether a message of size bytes, and all that the path makes of it, are within the limit: sizes tell, without the bytes.
pub(crate) fn fitting(path: &[Link], size: usize) -> bool
    ensures { (message : List ℕ) → length message ≡ size → result ≡ fits (ops path.now) message }
{
    size <= ROOM && path.iter().try_fold(size, next_size).is_some()
}

// The path on the message in the first `size` bytes of the area.
fn walked(path: &[Link], work: &mut [u8; ROOM], size: usize) -> usize
    requires { (size ≤ 4096) × (fits (ops path.now) (take size work.old) ≡ true) }
    ensures bound { result ≤ 4096 }
    ensures message { take result work.new ≡ replay (ops path.now) (take size work.old) }
{
    let mut size = size;
    for link in path {
        size = operate(link.kind, link.argument, work, size);
    }
    size
}

// The path on a digest, which goes to the front of the area. Behind the message that it makes nothing is left of those
// on the way.
#[tactic(auto, using(crate::proofs::Steps::fits_length))]
pub(crate) fn placed(path: &[Link], digest: &[u8], work: &mut [u8; ROOM]) -> usize
    requires { fits (ops path.now) digest.now ≡ true }
    ensures bound { result ≤ 4096 }
    ensures value { result ≡ length (replay (ops path.now) digest.now) }
    ensures area { work.new ≡ replay (ops path.now) digest.now ++ replicate (4096 - length (replay (ops path.now) digest.now)) 0 }
{
    put(work, digest);
    let size = walked(path, work, digest.len());
    work[size..].fill(0);
    size
}
