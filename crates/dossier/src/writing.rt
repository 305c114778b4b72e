// Writing the file.
ghost use Rattle.runs.specs.Writing.{Wrote};
ghost use Rattle.dossier.specs.Refusals.{answered};
ghost use Rattle.dossier.specs.Models.{content_of};

use crate::refusal::Refusal;
use rows::held::About;
use written::file::write_file;

// It is measured before the first byte is put.
pub(crate) fn write(held: &Option<About>, out: &mut [u8]) -> Result<usize, Refusal>
    ensures { Wrote (content_of held.now) out.old (answered result) out.new }
{
    let Some(about) = held else {
        return Err(Refusal::Blank);
    };
    write_file(&about.digest, &about.top, out).ok_or(Refusal::Room)
}
