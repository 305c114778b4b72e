// Where a walk down a tree ends.
ghost use Rattle.std.specs.Prelude.{◌≡◌, ◌≤◌, true};
ghost use Rattle.claim_trees.specs.Lawful.{att_fits};
ghost use Rattle.claims.specs.Models.{att};

use claims::tree::Attestation;

// The attestation of a claim, how many operations lead to it, and the size of the message that they made, which stands at
// the front of the area. The attestation is one that a proof file can hold, and the message is within the limit.
#[derive(Clone, Copy)]
pub struct Place<'a> {
    pub attestation: &'a Attestation,
    pub operations: usize,
    pub size: usize,
    pub ghost fits: { att_fits (att attestation.now) ≡ true },
    pub ghost small: { size ≤ 4096 },
}
