// An attestation's payload in one piece, as a judge is given it.
ghost use Rattle.std.specs.Prelude.{◌≡◌, ◌≤◌, true, length};
ghost use Rattle.claim_trees.specs.Bytes.{payload_of};
ghost use Rattle.claim_trees.specs.Lawful.{att_fits};
ghost use Rattle.claims.specs.Models.{att};
ghost use Rattle.written.specs.Payloads.{apart};

use crate::writer::Writer;
use claims::tree::Attestation;

// Room for any payload that does not stand in the tree: an address of 1,000 bytes and its length, which takes two more.
pub const ROOM: usize = 1002;

// The payload in shortest form: that of an unknown attestation stands in the tree, any other is put into the room.
#[tactic(auto, using(crate::proofs::Rooms::address_fits, crate::proofs::Rooms::height_fits))]
pub fn payload<'a>(attestation: &'a Attestation, room: &'a mut [u8]) -> &'a [u8]
    requires { (att_fits (att attestation.now) ≡ true) × (1002 ≤ length room.old) }
    ensures { result.now ≡ payload_of (att attestation.now) }
{
    let mut w = Writer::new(room);
    match attestation {
        Attestation::Pending(address) => w.block(address),
        Attestation::Bitcoin(height) => w.number(*height),
        Attestation::Unknown { payload, .. } => return payload,
    }
    w.into_written()
}
