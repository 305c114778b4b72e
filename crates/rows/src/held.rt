// What rows are read of.
ghost use Rattle.std.specs.Prelude.{◌≡◌, true};
ghost use Rattle.claims.specs.Models.{node};
ghost use Rattle.runs.specs.Invariants.{keeps_tree};

use claims::tree::Node;

// A digest and the tree of the claims on it. The tree is lawful and within the limits: in order, nothing in it twice, at least
// one claim, and every claim one that a file can hold.
#[derive(Drop)]
pub struct About {
    pub digest: [u8; 32],
    pub top: Node,
    pub ghost kept: { keeps_tree digest (node top) ≡ true },
}

// The same, lent: reading needs no more, so that who has only borrowed a tree can ask for its rows too.
#[derive(Clone, Copy)]
pub struct LentAbout<'a> {
    pub digest: &'a [u8],
    pub top: &'a Node,
    pub ghost kept: { keeps_tree digest.now (node top.now) ≡ true },
}
