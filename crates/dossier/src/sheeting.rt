// The sheet: measured first, then written at the front of the out area.
ghost use Rattle.std.specs.Prelude.{◌≡◌, length};
ghost use Rattle.runs.specs.Answers.{fitted, placed};
ghost use Rattle.runs.specs.Sheets.{last_line, sheet_in, Listed};
ghost use Rattle.runs.specs.Reports.{none_counted};
ghost use Rattle.dossier.specs.Refusals.{answered};
ghost use Rattle.dossier.specs.Models.{content_of};

use crate::refusal::Refusal;
use judge::judge::Judge;
use listing::{put_sheet, sheet_length};
use replay::ROOM;
use replay::guard::Spare;
use rows::Area;
use rows::held::About;
use runs::report::Tally;
use sheets::last::{last_length, put_last};
use written::writer::Writer;

pub(crate) fn sheet<J: Judge>(
    held: &Option<About>,
    judge: &J,
    out: &mut [u8],
    work: &mut [u8],
) -> Result<usize, Refusal>
    ensures { Listed (content_of held.now) (J.meaning judge.now) out.old work.old (answered result) out.new work.new }
{
    // Kept: a guard of its own; tried with a closure as for a row, but the proof did not learn what it wrote into out.
    if work.len() < ROOM {
        return Err(Refusal::Work);
    }
    let (front, _) = work.split_at_mut(ROOM);
    let lent = Spare(front);
    sheet_in(held, judge, out, &mut *lent.0)
}

fn sheet_in<J: Judge>(
    held: &Option<About>,
    judge: &J,
    out: &mut [u8],
    front: &mut [u8],
) -> Result<usize, Refusal>
    requires { length front.old ≡ 4096 }
    ensures answer { answered result ≡ fitted (sheet_in (J.meaning judge.now) (content_of held.now)) out.old }
    ensures out { out.new ≡ placed (sheet_in (J.meaning judge.now) (content_of held.now)) out.old }
{
    let Some(area) = front.as_mut_array() else {
        unreachable!()
    };
    let due = due(held, judge, area);
    if out.len() < due {
        return Err(Refusal::Room);
    }
    put(held, judge, &mut out[..due], area);
    Ok(due)
}

fn due<J: Judge>(held: &Option<About>, judge: &J, area: &mut Area) -> usize
    ensures { result ≡ length (sheet_in (J.meaning judge.now) (content_of held.now)) }
{
    match held {
        None => last_length(&Tally::default()),
        Some(about) => sheet_length(judge, about.lent(), area),
    }
}

// Into an area that is exactly as long.
fn put<J: Judge>(held: &Option<About>, judge: &J, out: &mut [u8], area: &mut Area)
    requires { length out.old ≡ length (sheet_in (J.meaning judge.now) (content_of held.now)) }
    ensures { out.new ≡ sheet_in (J.meaning judge.now) (content_of held.now) }
{
    match held {
        None => put_nothing(out),
        Some(about) => put_sheet(judge, about.lent(), out, area),
    }
}

// The sheet of a blank dossier is its last line alone.
fn put_nothing(out: &mut [u8])
    requires { length out.old ≡ length (last_line none_counted) }
    ensures { out.new ≡ last_line none_counted }
{
    let mut w = Writer::new(out);
    put_last(&mut w, &Tally::default());
}
