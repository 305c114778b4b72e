// What a proof file is: its definitions, its grammar, and the laws that join them.
#![tactic(auto)]

ghost use Rattle.std.specs.Prelude.{◌≡◌};
ghost use Rattle.std.specs.Result.{result_ok};
ghost use Rattle.format.specs.Operations.{kind_of};
ghost use Rattle.format.specs.Exact.{Exact};
ghost use Rattle.format.specs.FirstFault.{FirstFaultLaw};
ghost use Rattle.format.specs.Walks.{ItemsDetermineClaims};

// The tags of the attestations that are known here.
pub const BITCOIN: [u8; 8] = [0x05, 0x88, 0x96, 0x0d, 0x73, 0xd7, 0x19, 0x01];

pub const PENDING: [u8; 8] = [0x83, 0xdf, 0xe3, 0x0d, 0x2e, 0xf9, 0x0c, 0x8e];

// The operations that a path is made of.
#[derive(Clone, Copy, Debug, PartialEq, Eq)]
pub enum Kind {
    Sha256,
    Append,
    Prepend,
    Reverse,
    Hexlify,
}

// A tag that no operation has.
#[derive(Clone, Copy, Debug, PartialEq, Eq)]
pub struct NoOperation;

impl TryFrom<u8> for Kind {
    type Error = NoOperation;

    ghost try_from_gives = { λ tag r. result_ok r ≡ kind_of tag };

    fn try_from(tag: u8) -> Result<Kind, NoOperation> {
        match tag {
            0x08 => Ok(Kind::Sha256),
            0xf0 => Ok(Kind::Append),
            0xf1 => Ok(Kind::Prepend),
            0xf2 => Ok(Kind::Reverse),
            0xf3 => Ok(Kind::Hexlify),
            _ => Err(NoOperation),
        }
    }
}

// A node that is left for the one below it: whether items follow there, and how long its message is.
#[derive(Clone, Copy)]
pub struct Level {
    pub more: bool,
    pub size: u16,
}

// Law: the reading accepts exactly the files of the grammar, and gives what the grammar says they claim.
pub fn grammar_is_exact() -> u8
    ensures { Exact }
{
    0
}

// Law: a file's fault is the first that its bytes show, read from the front.
pub fn first_fault_is_fixed() -> u8
    ensures { FirstFaultLaw }
{
    0
}

// Law: the items that a walk hands out, with their depths, determine what the file says, faults included.
pub fn items_determine_claims() -> u8
    ensures { ItemsDetermineClaims }
{
    0
}
