// The line of a row: its number, its tag, its operations and its verdict.
ghost use Rattle.std.specs.Prelude.{◌≡◌, ◌+◌, ◌≤◌, ◌++◌, length, decimal};
ghost use Rattle.runs.specs.Sheets.{line_of};
ghost use Rattle.sheets.specs.Onto.{verdict_length, verdict_onto, field_onto, line_length, line_onto};
ghost use Rattle.written.specs.Writers.{written, HasRoom, Moved};

use crate::hex::put_hex;
use crate::numbers::{number_length, put_number};
use crate::words::{Word, count_length, put_count, put_word, word_length};
use crate::{LINE_END, SPACE};
use judge::verdict::Verdict;
use runs::report::Row;
use written::writer::Writer;

fn verdict_length(verdict: Verdict) -> usize
    ensures value { result ≡ verdict_length verdict }
    ensures bound { result ≤ 30 }
{
    match verdict {
        Verdict::Confirmed(time) => count_length(Word::Confirmed, time as usize),
        _ => word_length(verdict.into()),
    }
}

// Kept: measured above and put here by a match each; a list of parts for both to walk would need memory.
fn put_verdict(w: &mut Writer<'_>, verdict: Verdict)
    requires { HasRoom w.old (verdict_length verdict) }
    ensures moved { Moved w.old w.new (verdict_length verdict) }
    ensures front { written w.new ≡ verdict_onto (written w.old) verdict }
{
    match verdict {
        Verdict::Confirmed(time) => put_count(w, Word::Confirmed, time as usize),
        _ => put_word(w, verdict.into()),
    }
}

// A number and the space behind it.
fn put_field(w: &mut Writer<'_>, n: usize)
    requires { HasRoom w.old (length (decimal n) + 1) }
    ensures moved { Moved w.old w.new (length (decimal n) + 1) }
    ensures front { written w.new ≡ field_onto (written w.old) n }
{
    put_number(w, n);
    w.byte(SPACE)
}

// How long the line of the k-th row is.
#[tactic(auto, using(crate::proofs::Lines::line_measured))]
pub fn line_length(k: usize, row: &Row) -> usize
    ensures value { result ≡ length (line_of k row.now) }
    ensures bound { result ≤ 128 }
{
    let tag: &[u8] = &row.tag;
    let numbers = number_length(k) + 1 + number_length(row.operations) + 1;
    numbers + 2 * tag.len() + 1 + verdict_length(row.verdict) + 1
}

// Puts the line of the k-th row.
#[tactic(auto, using(crate::proofs::Lines::line_measured, crate::proofs::Lines::line_joined))]
pub fn put_line(w: &mut Writer<'_>, k: usize, row: &Row)
    requires { HasRoom w.old (length (line_of k row.now)) }
    ensures moved { Moved w.old w.new (length (line_of k row.now)) }
    ensures front { written w.new ≡ written w.old ++ line_of k row.now }
{
    put_field(w, k);
    put_hex(w, &row.tag);
    w.byte(SPACE);
    put_field(w, row.operations);
    put_verdict(w, row.verdict);
    w.byte(LINE_END)
}
