// Each operation on the message in the first `size` bytes of a work area, worked in place.
ghost use Rattle.std.specs.Prelude.{◌≡◌, ◌+◌, ◌*◌, ◌≤◌, ◌++◌, length, take};
ghost use Rattle.format.specs.Operations.{op_of, result_size};
ghost use Rattle.sha256.specs.Sha256.{sha256};
ghost use Rattle.replay.specs.Messages.{apply, digits};

use crate::ROOM;
use crate::bytes::put;
use crate::hex::hex_digit;
use format::Kind;

// Kept: area and size apart; a struct around the lent area would need a clause in each method that the area is the same.

// The argument goes behind the message.
fn append(work: &mut [u8; ROOM], size: usize, argument: &[u8]) -> usize
    requires { size + length argument.now ≤ 4096 }
    ensures value { result ≡ size + length argument.now }
    ensures message { take result work.new ≡ take size work.old ++ argument.now }
{
    put(&mut work[size..], argument);
    size + argument.len()
}

// Behind the message first, and then to its front.
fn prepend(work: &mut [u8; ROOM], size: usize, argument: &[u8]) -> usize
    requires { size + length argument.now ≤ 4096 }
    ensures value { result ≡ size + length argument.now }
    ensures message { take result work.new ≡ argument.now ++ take size work.old }
{
    let total = append(work, size, argument);
    work[..total].rotate_right(argument.len());
    total
}

// From the end on: the two digits of a byte stand at or behind it, where every byte has been turned already.
fn hexlify(work: &mut [u8; ROOM], size: usize) -> usize
    requires { size * 2 ≤ 4096 }
    ensures value { result ≡ size * 2 }
    ensures message { take result work.new ≡ digits (take size work.old) }
{
    for i in (0..size).rev() {
        let byte = work[i];
        work[2 * i + 1] = hex_digit(byte % 16);
        work[2 * i] = hex_digit(byte / 16);
    }
    size * 2
}

fn hash(work: &mut [u8; ROOM], size: usize) -> usize
    requires { size ≤ 4096 }
    ensures value { result ≡ 32 }
    ensures message { take result work.new ≡ sha256 (take size work.old) }
{
    let digest = sha256::sha256(&work[..size]);
    put(work, &digest);
    digest.len()
}

// One operation. Answers the size of its result, which stands at the front of the area then.
pub(crate) fn operate(kind: Kind, argument: &[u8], work: &mut [u8; ROOM], size: usize) -> usize
    requires { (size ≤ 4096) × (result_size kind size (length argument.now) ≤ 4096) }
    ensures value { result ≡ result_size kind size (length argument.now) }
    ensures message { take result work.new ≡ apply (op_of kind argument.now) (take size work.old) }
{
    match kind {
        Kind::Sha256 => hash(work, size),
        Kind::Append => append(work, size, argument),
        Kind::Prepend => prepend(work, size, argument),
        Kind::Reverse => {
            work[..size].reverse();
            size
        }
        Kind::Hexlify => hexlify(work, size),
    }
}
