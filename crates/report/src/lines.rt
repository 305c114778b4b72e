// The lines of a report.
ghost use Rattle.std.specs.Prelude.{◌≡◌, IfOk, string_bytes};
ghost use Rattle.report.specs.Lines.{claim_word, claims_text, granted_text, piece_line, reason as reason_text, in_brackets, refused_line, counts_text, verdicts_line, date_line, wrote_line};

use account::refusals::meaning;
use coverage::lines::time_text;
use dossier::refusal::Refusal;
use runs::report::{Date, Tally};
use script::answers::refusal_text;
use std::alloc::{AllocError, Global};

// A file that was added, and how many claims it holds.
pub fn piece_line(heap: Global, path: &str, claims: usize) -> Result<String, AllocError>
    ensures { IfOk result (λ s. string_bytes s ≡ piece_line path.now claims) }
{
    let granted = granted_text(heap, claims)?;
    format!(in heap; "{path}: {granted}")
}

fn granted_text(heap: Global, claims: usize) -> Result<String, AllocError>
    ensures { IfOk result (λ s. string_bytes s ≡ granted_text claims) }
{
    let held = claims_text(heap, claims)?;
    format!(in heap; "granted, {held}")
}

fn claims_text(heap: Global, n: usize) -> Result<String, AllocError>
    ensures { IfOk result (λ s. string_bytes s ≡ claims_text n) }
{
    let word = claim_word(n);
    format!(in heap; "{n} {word}")
}

// Kept: a type whose Display picks one of the two words would be no plainer than this `if`.
fn claim_word(n: usize) -> &'static str
    ensures { result.now ≡ claim_word n }
{
    if n == 1 { "claim" } else { "claims" }
}

// A file that was refused, and why.
pub fn refused_piece_line(heap: Global, path: &str, refusal: &Refusal) -> Result<String, AllocError>
    ensures { IfOk result (λ s. string_bytes s ≡ refused_line path.now refusal.now) }
{
    let refused = refusal_text(heap, refusal)?;
    let why = in_brackets(heap, reason(refusal))?;
    format!(in heap; "{path}: {refused}{why}")
}

// A refusal in words; want of memory needs none.
// Kept: the type is another crate's, so its `Display` cannot stand here, and a wrapper for it would be no plainer than a function.
fn reason(refusal: &Refusal) -> &'static str
    ensures { result.now ≡ reason_text refusal.now }
{
    match *refusal {
        Refusal::File(fault) => meaning(&fault),
        Refusal::Differs(_) => "digest differs",
        Refusal::Large => "size limit passed",
        Refusal::Blank => "dossier blank",
        Refusal::Room => "out area too short",
        Refusal::NoRow => "no such row",
        Refusal::Work => "work area too short",
        Refusal::Memory => "",
    }
}

fn in_brackets(heap: Global, words: &str) -> Result<String, AllocError>
    ensures { IfOk result (λ s. string_bytes s ≡ in_brackets words.now) }
{
    if words.len() == 0 {
        return Ok(String::new(heap));
    }
    format!(in heap; " ({words})")
}

// Kept: the same words without commas stand in `script`; with the comma as a parameter the format would no longer read as what is printed.
fn counts_text(heap: Global, tally: &Tally) -> Result<String, AllocError>
    ensures { IfOk result (λ s. string_bytes s ≡ counts_text tally.now) }
{
    let confirmed = tally.confirmed;
    let rejected = tally.rejected;
    let waiting = tally.waiting;
    let foreign = tally.foreign;
    format!(in heap;
        "confirmed {confirmed}, rejected {rejected}, waiting {waiting}, foreign {foreign}"
    )
}

// The number of claims under each verdict.
pub fn verdicts_line(heap: Global, tally: &Tally) -> Result<String, AllocError>
    ensures { IfOk result (λ s. string_bytes s ≡ verdicts_line tally.now) }
{
    let counts = counts_text(heap, tally)?;
    format!(in heap; "verdicts: {counts}")
}

// The first date and its row.
pub fn date_line(heap: Global, date: &Option<Date>) -> Result<String, AllocError>
    ensures { IfOk result (λ s. string_bytes s ≡ date_line date.now) }
{
    match *date {
        Some(Date { time, row }) => {
            let time = time_text(heap, time)?;
            format!(in heap; "date: {time}, row {row}")
        }
        None => {
            let none = "none confirmed";
            format!(in heap; "date: {none}")
        }
    }
}

// A file that was written, and its length.
pub fn wrote_line(heap: Global, path: &str, length: usize) -> Result<String, AllocError>
    ensures { IfOk result (λ s. string_bytes s ≡ wrote_line path.now length) }
{
    format!(in heap; "wrote {path}, {length} bytes")
}
