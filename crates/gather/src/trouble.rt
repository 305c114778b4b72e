// Why a file's tree is not given.
ghost use Rattle.gather.specs.declared.trouble.Trouble.TheVariants.{File, Memory};
ghost use Rattle.std.specs.Prelude.{◌≡◌};

use proof::fault::Fault;
use std::alloc::AllocError;

#[derive(Clone, Copy)]
pub enum Trouble {
    // the file has a fault
    File(Fault),
    // memory is short
    Memory,
    // the tree passes a limit
    Large,
}

impl From<Fault> for Trouble {
    ghost from_gives = { λ f r. r ≡ File f };

    fn from(f: Fault) -> Trouble {
        Trouble::File(f)
    }
}

impl From<AllocError> for Trouble {
    ghost from_gives = { λ _ r. r ≡ Memory };

    fn from(_: AllocError) -> Trouble {
        Trouble::Memory
    }
}
