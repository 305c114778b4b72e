// Why a file is refused, with the offset where that shows.
ghost use Rattle.std.specs.Prelude.{◌≡◌};
ghost use Rattle.proof.specs.Faults.{numbered};

#[derive(Clone, Copy, Debug, PartialEq, Eq)]
pub enum Fault {
    // the file is longer than 65,536 bytes
    Long,
    // it ends inside something due; its length
    Ends(usize),
    // a byte of the mark differs
    Mark(usize),
    // the version is not 1
    Version(usize),
    // the file hash is not SHA-256
    FileHash(usize),
    // no operation has this tag
    Operation(usize),
    // a number goes on past its fifth byte, or is too large
    Number(usize),
    // a length is outside its range
    Length(usize),
    // an operation's result would be longer than 4,096 bytes
    Result(usize),
    // the payload of a known attestation is not what its tag promises
    Content(usize),
    // the operation would be the 256th on its path
    Path(usize),
    // bytes follow the top node
    Follows(usize),
}

impl Fault {
    // The fault's number, by which every implementation knows it.
    pub fn number(&self) -> u8
        ensures { result ≡ (numbered self.now).0 }
    {
        match *self {
            Fault::Long => 1,
            Fault::Ends(_) => 2,
            Fault::Mark(_) => 3,
            Fault::Version(_) => 4,
            Fault::FileHash(_) => 5,
            Fault::Operation(_) => 6,
            Fault::Number(_) => 7,
            Fault::Length(_) => 8,
            Fault::Result(_) => 9,
            Fault::Content(_) => 10,
            Fault::Path(_) => 11,
            Fault::Follows(_) => 12,
        }
    }

    // Where it shows in the file.
    pub fn offset(&self) -> usize
        ensures { result ≡ (numbered self.now).1 }
    {
        match *self {
            Fault::Long => 65536,
            Fault::Ends(at)
            | Fault::Mark(at)
            | Fault::Version(at)
            | Fault::FileHash(at)
            | Fault::Operation(at)
            | Fault::Number(at)
            | Fault::Length(at)
            | Fault::Result(at)
            | Fault::Content(at)
            | Fault::Path(at)
            | Fault::Follows(at) => at,
        }
    }
}
