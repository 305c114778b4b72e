// Rows and tallies, worked in a lent area that is cleared on every way out.
ghost use Rattle.std.specs.Prelude.{◌≡◌, ℕ, ◌<◌, ◌≤◌, List, length, Ok, Err};
ghost use Rattle.std.specs.Fn.{FnOnceReturnsAtMut};
ghost use Rattle.replay.specs.Areas.{left};
ghost use Rattle.dossier.specs.declared.refusal.Refusal.TheVariants.{Work};
ghost use Rattle.std.specs.List.{slice_get};
ghost use Rattle.runs.specs.Reports.{rows_in, as_row, tally_in, Read, Tallied};
ghost use Rattle.dossier.specs.Refusals.{answered};
ghost use Rattle.dossier.specs.Models.{content_of};

use crate::refusal::Refusal;
use judge::judge::Judge;
use replay::ROOM;
use replay::guard::Spare;
use rows::held::About;
use rows::{Area, row_of, tally_of};
use runs::report::{Row, Tally};

// What f makes of the front of a work area, which is cleared on every way out.
fn in_area<T, F: FnOnce(&mut Area) -> T>(work: &mut [u8], f: F) -> Result<T, Refusal>
    requires { F.IsAlwaysCallable f }
    ensures none { length work.old < 4096 → result ≡ Err Work }
    ensures some { 4096 ≤ length work.old → (r : T) × (front after : List ℕ) × (result ≡ Ok r) × FnOnceReturnsAtMut F.FnOnce f front r after }
    ensures work { work.new ≡ left work.old }
{
    if work.len() < ROOM {
        return Err(Refusal::Work);
    }
    let (front, _) = work.split_at_mut(ROOM);
    let lent = Spare(front);
    Ok(on_front(&mut *lent.0, f))
}

// Kept: the front is a slice up to here, since the proof does not follow an array that is borrowed out of a guard (tried).
fn on_front<T, F: FnOnce(&mut Area) -> T>(front: &mut [u8], f: F) -> T
    requires long { length front.old ≡ 4096 }
    requires callable { F.IsAlwaysCallable f }
    ensures { FnOnceReturnsAtMut F.FnOnce f front.old result front.new }
{
    let Some(area) = front.as_mut_array() else {
        unreachable!()
    };
    f(area)
}

pub(crate) fn row<J: Judge>(
    held: &Option<About>,
    judge: &J,
    k: usize,
    work: &mut [u8],
) -> Result<Row, Refusal>
    ensures { Read (content_of held.now) (J.meaning judge.now) k work.old (answered result) work.new }
{
    in_area(work, |area| row_in(held, judge, k, area))?
}

fn row_in<J: Judge>(
    held: &Option<About>,
    judge: &J,
    k: usize,
    area: &mut Area,
) -> Result<Row, Refusal>
    ensures { answered result ≡ as_row (slice_get (rows_in (J.meaning judge.now) (content_of held.now)) k) }
{
    let Some(about) = held else {
        return Err(Refusal::NoRow);
    };
    row_of(judge, about.lent(), k, area).ok_or(Refusal::NoRow)
}

pub(crate) fn tally<J: Judge>(
    held: &Option<About>,
    judge: &J,
    work: &mut [u8],
) -> Result<Tally, Refusal>
    ensures { Tallied (content_of held.now) (J.meaning judge.now) work.old (answered result) work.new }
{
    in_area(work, |area| tally_in(held, judge, area))
}

fn tally_in<J: Judge>(held: &Option<About>, judge: &J, area: &mut Area) -> Tally
    ensures { result ≡ tally_in (J.meaning judge.now) (content_of held.now) }
{
    let Some(about) = held else {
        return Tally::default();
    };
    tally_of(judge, about.lent(), area)
}
