// The text of an answer: the same in every implementation.
ghost use Rattle.std.specs.Prelude.{◌≡◌, Some, IfOk, MatchResult, string_bytes};
ghost use Rattle.std.specs.Fn.{FnOnceReturnsAt};
ghost use Rattle.runs.specs.Sheets.{verdict_text};
ghost use Rattle.script.specs.Answers.{remark_text, refused_text, refusal_text, added_text, granted_row, row_text, counts_text, date_text, granted_tally, tally_text, hash_text, size_text, bytes_text};

use account::words::hex;
use dossier::refusal::Refusal;
use judge::verdict::Verdict;
use runs::report::{Date, Row, Tally};
use sha256::sha256;
use std::alloc::{AllocError, Global};
use std::fmt;

// What is said of a line that is neither granted nor refused.
#[derive(Clone, Copy)]
pub enum Remark {
    // a call of an open dossier, while it is settled
    WhileSettled,
    // a call of a settled dossier, while it is open
    WhileOpen,
    // the line is no call
    NoCall,
    // a file of the line cannot be read
    Unread,
    // the file of the line cannot be written
    Unwritten,
}

impl fmt::Display for Remark {
    ghost output = { λ said. Some (remark_text said) };

    fn fmt<W: fmt::Write>(&self, f: &mut fmt::Formatter<W>) -> fmt::Result {
        f.write_str(remark_text(*self))
    }
}

pub fn remark_text(said: Remark) -> &'static str
    ensures { result.now ≡ remark_text said }
{
    match said {
        Remark::WhileSettled => "not taken while settled",
        Remark::WhileOpen => "not taken while open",
        Remark::NoCall => "not a call",
        Remark::Unread => "cannot be read",
        Remark::Unwritten => "cannot be written",
    }
}

// The number and the offset of a refusal; want of memory has none.
pub fn refusal_text(heap: Global, refusal: &Refusal) -> Result<String, AllocError>
    ensures { IfOk result (λ s. string_bytes s ≡ refusal_text refusal.now) }
{
    refused_text(heap, refusal.place())
}

fn refused_text(heap: Global, place: Option<(u8, usize)>) -> Result<String, AllocError>
    ensures { IfOk result (λ s. string_bytes s ≡ refused_text place) }
{
    match place {
        Some((number, offset)) => format!(in heap; "refused {number} at {offset}"),
        None => String::from_str(heap, "refused for want of memory"),
    }
}

// The text of what is granted, or of the refusal.
fn answer_text<T, F: FnOnce(&T) -> Result<String, AllocError>>(
    heap: Global,
    answer: &Result<T, Refusal>,
    granted: F,
) -> Result<String, AllocError>
    requires { F.IsAlwaysCallable granted }
    ensures { MatchResult answer.now (λ x. FnOnceReturnsAt F.FnOnce granted x result) (λ e. IfOk result (λ s. string_bytes s ≡ refusal_text e)) }
{
    match answer {
        Ok(value) => granted(value),
        Err(refusal) => refusal_text(heap, refusal),
    }
}

// The answer to a call that gives nothing: one that adds, settles or opens again.
pub fn added_text(heap: Global, answer: &Result<(), Refusal>) -> Result<String, AllocError>
    ensures { IfOk result (λ s. string_bytes s ≡ added_text answer.now) }
{
    answer_text(heap, answer, |_| String::from_str(heap, "granted"))
}

// Kept: the type is another crate's, so its `Display` cannot stand here, and a wrapper for it would be no plainer than a function.
fn verdict_text(heap: Global, verdict: Verdict) -> Result<String, AllocError>
    ensures { IfOk result (λ s. string_bytes s ≡ verdict_text verdict) }
{
    match verdict {
        Verdict::Confirmed(time) => format!(in heap; "confirmed {time}"),
        Verdict::Rejected => String::from_str(heap, "rejected"),
        Verdict::Waiting => String::from_str(heap, "waiting"),
        Verdict::Foreign => String::from_str(heap, "foreign"),
    }
}

fn granted_row(heap: Global, row: &Row) -> Result<String, AllocError>
    ensures { IfOk result (λ s. string_bytes s ≡ granted_row row.now) }
{
    let tag = hex(heap, &row.tag)?;
    let operations = row.operations;
    let verdict = verdict_text(heap, row.verdict)?;
    format!(in heap; "granted {tag} {operations} {verdict}")
}

// The answer to a call for a row.
pub fn row_text(heap: Global, answer: &Result<Row, Refusal>) -> Result<String, AllocError>
    ensures { IfOk result (λ s. string_bytes s ≡ row_text answer.now) }
{
    answer_text(heap, answer, |row| granted_row(heap, row))
}

// Kept: with the comma of `report`'s line as a parameter the format would no longer read as what is printed.
fn counts_text(heap: Global, tally: &Tally) -> Result<String, AllocError>
    ensures { IfOk result (λ s. string_bytes s ≡ counts_text tally.now) }
{
    let Tally {
        confirmed,
        rejected,
        waiting,
        foreign,
        ..
    } = *tally;
    format!(in heap;
        "confirmed {confirmed} rejected {rejected} waiting {waiting} foreign {foreign}"
    )
}

fn date_text(heap: Global, date: Option<Date>) -> Result<String, AllocError>
    ensures { IfOk result (λ s. string_bytes s ≡ date_text date) }
{
    match date {
        Some(Date { time, row }) => format!(in heap; "date {time} row {row}"),
        None => String::from_str(heap, "date none"),
    }
}

fn granted_tally(heap: Global, tally: &Tally) -> Result<String, AllocError>
    ensures { IfOk result (λ s. string_bytes s ≡ granted_tally tally.now) }
{
    let counts = counts_text(heap, tally)?;
    let date = date_text(heap, tally.date)?;
    format!(in heap; "granted {counts} {date}")
}

// The answer to a call for a tally.
pub fn tally_text(heap: Global, answer: &Result<Tally, Refusal>) -> Result<String, AllocError>
    ensures { IfOk result (λ s. string_bytes s ≡ tally_text answer.now) }
{
    answer_text(heap, answer, |tally| granted_tally(heap, tally))
}

fn hash_text(heap: Global, bytes: &[u8]) -> Result<String, AllocError>
    ensures { IfOk result (λ s. string_bytes s ≡ hash_text bytes.now) }
{
    let hash = hex(heap, &sha256(bytes))?;
    format!(in heap; "sha256 {hash}")
}

fn size_text(heap: Global, n: usize) -> Result<String, AllocError>
    ensures { IfOk result (λ s. string_bytes s ≡ size_text n) }
{
    format!(in heap; "granted {n} bytes")
}

// The answer to a call that was granted with bytes: how many, and their hash.
pub fn bytes_text(heap: Global, bytes: &[u8]) -> Result<String, AllocError>
    ensures { IfOk result (λ s. string_bytes s ≡ bytes_text bytes.now) }
{
    let size = size_text(heap, bytes.len())?;
    let hash = hash_text(heap, bytes)?;
    format!(in heap; "{size}, {hash}")
}
