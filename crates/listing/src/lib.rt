// A whole sheet, written into a lent area: first how long it is, then its bytes. Nothing is allocated.
#![tactic(auto)]

ghost use Rattle.std.specs.Prelude.{◌≡◌, ◌≤◌, length, drop};
ghost use Rattle.runs.specs.Sheets.{sheet_in};
ghost use Rattle.rows.specs.Models.{content_lent};

mod lines;

use judge::judge::Judge;
use lines::{lines_length, put_lines};
use replay::ROOM;
use rows::held::LentAbout;
use rows::{Area, tally_of};
use sheets::last::{last_length, put_last};
use written::writer::Writer;

// How long the sheet is. Its rows are worked in the first 4,096 bytes of the lent area.
pub fn sheet_length<J: Judge>(judge: &J, about: LentAbout<'_>, work: &mut [u8]) -> usize
    requires { 4096 ≤ length work.old }
    ensures value { result ≡ length (sheet_in (J.meaning judge.now) (content_lent about.entry)) }
    ensures kept { drop 4096 work.new ≡ drop 4096 work.old }
{
    let Some(area) = work.first_chunk_mut::<ROOM>() else {
        unreachable!()
    };
    length_in(judge, about, area)
}

// Writes the sheet into an area that is exactly as long, worked likewise.
pub fn put_sheet<J: Judge>(judge: &J, about: LentAbout<'_>, out: &mut [u8], work: &mut [u8])
    requires lent { 4096 ≤ length work.old }
    requires out_len { length out.old ≡ length (sheet_in (J.meaning judge.now) (content_lent about)) }
    ensures out { out.new ≡ sheet_in (J.meaning judge.now) (content_lent about.entry) }
    ensures kept { drop 4096 work.new ≡ drop 4096 work.old }
{
    let Some(area) = work.first_chunk_mut::<ROOM>() else {
        unreachable!()
    };
    put_in(judge, about, out, area)
}

#[tactic(auto, using(crate::proofs::Listed::sheet_long))]
fn length_in<J: Judge>(judge: &J, about: LentAbout<'_>, area: &mut Area) -> usize
    ensures { result ≡ length (sheet_in (J.meaning judge.now) (content_lent about.entry)) }
{
    let tally = tally_of(judge, about, area);
    lines_length(judge, about, area) + last_length(&tally)
}

#[tactic(auto, using(crate::proofs::Listed::sheet_long))]
fn put_in<J: Judge>(judge: &J, about: LentAbout<'_>, out: &mut [u8], area: &mut Area)
    requires { length out.old ≡ length (sheet_in (J.meaning judge.now) (content_lent about)) }
    ensures { out.new ≡ sheet_in (J.meaning judge.now) (content_lent about.entry) }
{
    let tally = tally_of(judge, about, area);
    let mut w = Writer::new(out);
    put_lines(judge, about, &mut w, area);
    put_last(&mut w, &tally);
}
