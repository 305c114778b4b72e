// The rows of a tree of claims, and their tally: what a judge says of each claim, in written order.
#![tactic(auto)]

ghost use Rattle.std.specs.Prelude.{◌≡◌, ◌^◌, ◌<◌, ◌≤◌, length, drop};
ghost use Rattle.std.specs.List.{slice_get};
ghost use Rattle.runs.specs.Reports.{counted, rows_in, tally_in};
ghost use Rattle.rows.specs.Models.{content_lent};

pub mod held;
mod judging;
mod lending;
mod nodes;
mod place;
mod steps;
mod tallies;
mod walk;

use held::LentAbout;
use judge::judge::Judge;
use judge::verdict::Verdict;
use judging::row_at;
use nodes::count_node;
use replay::ROOM;
use runs::report::{Row, Tally};
use tallies::earlier;
use walk::place_of;

// The area that messages are worked in: as many bytes as the longest message has.
pub type Area = [u8; ROOM];

// The k-th row, or none. Its message is worked in the first 4,096 bytes of the lent area.
pub fn row_of<J: Judge>(judge: &J, about: LentAbout<'_>, k: usize, work: &mut [u8]) -> Option<Row>
    requires { 4096 ≤ length work.old }
    ensures value { result ≡ slice_get (rows_in (J.meaning judge.now) (content_lent about.entry)) k }
    ensures kept { drop 4096 work.new ≡ drop 4096 work.old }
{
    let Some(area) = work.first_chunk_mut::<ROOM>() else {
        unreachable!()
    };
    row_in(judge, about, k, area)
}

// The tally of all rows, worked likewise.
pub fn tally_of<J: Judge>(judge: &J, about: LentAbout<'_>, work: &mut [u8]) -> Tally
    requires { 4096 ≤ length work.old }
    ensures value { result ≡ tally_in (J.meaning judge.now) (content_lent about.entry) }
    ensures kept { drop 4096 work.new ≡ drop 4096 work.old }
{
    let Some(area) = work.first_chunk_mut::<ROOM>() else {
        unreachable!()
    };
    tally_in(judge, about, area)
}

fn row_in<J: Judge>(judge: &J, about: LentAbout<'_>, k: usize, area: &mut Area) -> Option<Row>
    ensures { result ≡ slice_get (rows_in (J.meaning judge.now) (content_lent about.entry)) k }
{
    let place = place_of(about, k, area)?;
    Some(row_at(judge, place, area))
}

fn tally_in<J: Judge>(judge: &J, about: LentAbout<'_>, area: &mut Area) -> Tally
    ensures { result ≡ tally_in (J.meaning judge.now) (content_lent about.entry) }
{
    let mut tally = Tally::default();
    for k in 0..count_node(about.top) {
        let row = row_in(judge, about, k, area).unwrap();
        tally = counted(tally, k, row.verdict);
    }
    tally
}

// What a tally counts with one row more.
pub fn counted(tally: Tally, row: usize, verdict: Verdict) -> Tally
    requires { (tally.confirmed < 2 ^ 63) × ((tally.rejected < 2 ^ 63) × ((tally.waiting < 2 ^ 63) × (tally.foreign < 2 ^ 63))) }
    ensures { result ≡ counted tally row verdict }
{
    let mut tally = tally;
    match verdict {
        Verdict::Confirmed(time) => {
            tally.confirmed += 1;
            tally.date = earlier(tally.date, time, row);
        }
        Verdict::Rejected => tally.rejected += 1,
        Verdict::Waiting => tally.waiting += 1,
        Verdict::Foreign => tally.foreign += 1,
    }
    tally
}
