// The last line of a sheet: the counts of a tally.
ghost use Rattle.std.specs.Prelude.{◌≡◌, ◌+◌, ◌≤◌, [], ◌∷◌, ◌++◌, length};
ghost use Rattle.runs.specs.Sheets.{last_line};
ghost use Rattle.sheets.specs.Onto.{count_length, count_onto, last_length, last_onto};
ghost use Rattle.written.specs.Writers.{written, HasRoom, Moved};

use crate::words::{Word, count_length, put_count};
use crate::{LINE_END, SPACE};
use runs::report::Tally;
use written::writer::Writer;

// A count and the byte behind it.
fn put_counted(w: &mut Writer<'_>, word: Word, n: usize, behind: u8)
    requires { HasRoom w.old (count_length word n + 1) }
    ensures moved { Moved w.old w.new (count_length word n + 1) }
    ensures front { written w.new ≡ count_onto (written w.old) word n ++ (behind ∷ []) }
{
    put_count(w, word, n);
    w.byte(behind)
}

// How long the last line is.
#[tactic(auto, using(crate::proofs::Lines::last_measured))]
pub fn last_length(tally: &Tally) -> usize
    ensures value { result ≡ length (last_line tally.now) }
    ensures bound { result ≤ 128 }
{
    // Kept: tried as an array with map and sum; the proof didn't close.
    let confirmed = count_length(Word::Confirmed, tally.confirmed) + 1;
    let rejected = count_length(Word::Rejected, tally.rejected) + 1;
    let waiting = count_length(Word::Waiting, tally.waiting) + 1;
    let foreign = count_length(Word::Foreign, tally.foreign) + 1;
    confirmed + rejected + waiting + foreign
}

// Puts the last line.
#[tactic(auto, using(crate::proofs::Lines::last_measured, crate::proofs::Lines::last_joined))]
pub fn put_last(w: &mut Writer<'_>, tally: &Tally)
    requires { HasRoom w.old (length (last_line tally.now)) }
    ensures moved { Moved w.old w.new (length (last_line tally.now)) }
    ensures front { written w.new ≡ written w.old ++ last_line tally.now }
{
    // Kept: a loop over an array is no plainer, as another byte stands behind the last count.
    put_counted(w, Word::Confirmed, tally.confirmed, SPACE);
    put_counted(w, Word::Rejected, tally.rejected, SPACE);
    put_counted(w, Word::Waiting, tally.waiting, SPACE);
    put_counted(w, Word::Foreign, tally.foreign, LINE_END)
}
