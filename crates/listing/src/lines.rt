// The lines of all rows, one after another: each row is read by its number, from 0 until there is none.
ghost use Rattle.std.specs.Prelude.{◌≡◌, ◌+◌, ◌≤◌, ◌++◌, length, Some};
ghost use Rattle.std.specs.List.{slice_get};
ghost use Rattle.runs.specs.Reports.{rows_in};
ghost use Rattle.runs.specs.Sheets.{line_of};
ghost use Rattle.rows.specs.Models.{content_lent};
ghost use Rattle.listing.specs.Left.{lines_left};
ghost use Rattle.written.specs.Writers.{written, HasRoom, Moved};

use judge::judge::Judge;
use rows::held::LentAbout;
use rows::{Area, row_of};
use runs::report::Row;
use sheets::line::{line_length, put_line};
use written::writer::Writer;

// No tree has more rows.
const ROWS: usize = 128;

// Law: the line of a row that is there comes first of those that are left.
// Kept: a fact as a function; tried as a lemma for the search in the loops below, and the proof didn't close.
fn one_more<J: Judge>(judge: &J, about: LentAbout<'_>, k: usize, row: &Row) -> u8
    requires { Some row.now ≡ slice_get (rows_in (J.meaning judge.now) (content_lent about)) k }
    ensures { length (lines_left (J.meaning judge.now) (content_lent about.entry) k) ≡ length (line_of k row.now) + length (lines_left (J.meaning judge.now) (content_lent about.entry) (k + 1)) }
{
    0
}

// How long the lines are.
pub(crate) fn lines_length<J: Judge>(judge: &J, about: LentAbout<'_>, work: &mut Area) -> usize
    ensures value { result ≡ length (lines_left (J.meaning judge.now) (content_lent about.entry) 0) }
    ensures bound { result ≤ 16384 }
{
    let mut done = 0;
    for k in 0..ROWS {
        let Some(row) = row_of(judge, about, k, work) else {
            break;
        };
        let _more = one_more(judge, about, k, &row);
        done += line_length(k, &row);
    }
    done
}

// Puts the lines.
// Kept: a loop that measures and one that puts; one for both would be handed a closure that borrows the writer or counts, and be no plainer.
pub(crate) fn put_lines<J: Judge>(
    judge: &J,
    about: LentAbout<'_>,
    w: &mut Writer<'_>,
    work: &mut Area,
)
    requires { HasRoom w.old (length (lines_left (J.meaning judge.now) (content_lent about) 0)) }
    ensures moved { Moved w.old w.new (length (lines_left (J.meaning judge.now) (content_lent about.entry) 0)) }
    ensures front { written w.new ≡ written w.old ++ lines_left (J.meaning judge.now) (content_lent about.entry) 0 }
{
    for k in 0..ROWS {
        let Some(row) = row_of(judge, about, k, work) else {
            break;
        };
        let _more = one_more(judge, about, k, &row);
        put_line(w, k, &row);
    }
}
