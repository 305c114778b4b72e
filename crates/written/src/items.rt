// Putting operations and attestations.
ghost use Rattle.std.specs.Prelude.{◌≡◌, ◌^◌, ◌<◌};
ghost use Rattle.claim_trees.specs.Onto.{op_length, att_length, op_onto, att_onto};
ghost use Rattle.claims.specs.Models.{op, att};
ghost use Rattle.written.specs.Writers.{written, HasNarrowRoom, Moved};

use crate::lengths::block_length;
use crate::writer::Writer;
use claims::size::number_length;
use claims::tree::{Attestation, Operation};
use format::{BITCOIN, PENDING};

// An operation without the node below it.
pub(crate) fn put_operation(w: &mut Writer<'_>, o: &Operation)
    requires { HasNarrowRoom w.old (op_length (op o.now)) }
    ensures moved { Moved w.old w.new (op_length (op o.now)) }
    ensures front { written w.new ≡ op_onto (written w.old) (op o.now) }
{
    w.byte(o.tag());
    match o {
        Operation::Append(argument) | Operation::Prepend(argument) => w.block(argument),
        _ => {}
    }
}

pub(crate) fn put_attestation(w: &mut Writer<'_>, a: &Attestation)
    requires { HasNarrowRoom w.old (att_length (att a.now)) }
    ensures moved { Moved w.old w.new (att_length (att a.now)) }
    ensures front { written w.new ≡ att_onto (written w.old) (att a.now) }
{
    w.byte(0x00);
    match a {
        Attestation::Pending(address) => {
            w.bytes(&PENDING);
            w.number(block_length(address) as u32);
            w.block(address)
        }
        Attestation::Bitcoin(height) => {
            w.bytes(&BITCOIN);
            w.number(number_length(*height as usize) as u32);
            w.number(*height)
        }
        Attestation::Unknown { tag, payload } => {
            w.bytes(tag);
            w.block(payload)
        }
    }
}
