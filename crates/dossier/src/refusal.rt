// Why a call is refused.
ghost use Rattle.std.specs.Prelude.{◌≡◌};
ghost use Rattle.dossier.specs.declared.refusal.Refusal.TheVariants.{File};
ghost use Rattle.dossier.specs.Refusals.{place_of, troubled};

use gather::trouble::Trouble;
use proof::fault::Fault;

#[derive(Clone, Copy, Debug, PartialEq, Eq)]
pub enum Refusal {
    // the file that is added has a fault
    File(Fault),
    // its digest is not the dossier's; the offset of its file hash tag
    Differs(usize),
    // the union would pass a size limit
    Large,
    // there is nothing to write in a blank dossier
    Blank,
    // the out area is too short
    Room,
    // there is no such row
    NoRow,
    // the work area has not 4,096 bytes
    Work,
    // memory is short
    Memory,
}

impl Refusal {
    // The number and the offset by which every implementation knows it; want of memory has none.
    pub fn place(&self) -> Option<(u8, usize)>
        ensures { result ≡ place_of self.now }
    {
        match *self {
            Refusal::File(fault) => Some((fault.number(), fault.offset())),
            Refusal::Differs(at) => Some((13, at)),
            Refusal::Large => Some((14, 0)),
            Refusal::Blank => Some((15, 0)),
            Refusal::Room => Some((16, 0)),
            Refusal::NoRow => Some((17, 0)),
            Refusal::Work => Some((18, 0)),
            Refusal::Memory => None,
        }
    }
}

impl From<Fault> for Refusal {
    ghost from_gives = { λ f r. r ≡ File f };

    fn from(f: Fault) -> Refusal {
        Refusal::File(f)
    }
}

impl From<Trouble> for Refusal {
    ghost from_gives = { λ t r. r ≡ troubled t };

    fn from(t: Trouble) -> Refusal {
        match t {
            Trouble::File(f) => Refusal::File(f),
            Trouble::Large => Refusal::Large,
            Trouble::Memory => Refusal::Memory,
        }
    }
}
