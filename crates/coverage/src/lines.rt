// The lines of a coverage.
ghost use Rattle.std.specs.Prelude.{◌≡◌, IfOk, string_bytes};
ghost use Rattle.coverage.specs.Lines.{date_text, in_brackets, time_text, ending_words, at_header, headers_line, heights_line, times_line, ending_line};

use crate::spans::{Coverage, Span};
use account::words::text;
use headers::ending::Ending;
use std::alloc::{AllocError, Global};

pub fn headers_line(heap: Global, coverage: &Coverage) -> Result<String, AllocError>
    ensures { IfOk result (λ s. string_bytes s ≡ headers_line coverage.now.covered) }
{
    let covered = coverage.covered;
    format!(in heap; "headers {covered}")
}

pub fn heights_line(heap: Global, span: &Span) -> Result<String, AllocError>
    ensures { IfOk result (λ s. string_bytes s ≡ heights_line span.now) }
{
    let from = span.from;
    let to = span.to;
    format!(in heap; "heights {from} to {to}")
}

pub fn times_line(heap: Global, span: &Span) -> Result<String, AllocError>
    ensures { IfOk result (λ s. string_bytes s ≡ times_line span.now) }
{
    let early = time_text(heap, span.early)?;
    let late = time_text(heap, span.late)?;
    format!(in heap; "times {early} to {late}")
}

// Why the run ended: at which header, if at one.
pub fn ending_line(heap: Global, coverage: &Coverage) -> Result<String, AllocError>
    ensures { IfOk result (λ s. string_bytes s ≡ ending_line coverage.now.ending coverage.now.covered) }
{
    let place = coverage.covered;
    let words = ending_words(coverage.ending);
    if at_header(coverage.ending) {
        return format!(in heap; "ended: {words} at header {place}");
    }
    format!(in heap; "ended: {words}")
}

// A time as a number, and as a date in brackets.
pub fn time_text(heap: Global, time: u32) -> Result<String, AllocError>
    ensures { IfOk result (λ s. string_bytes s ≡ time_text time) }
{
    let date = in_brackets(heap, time)?;
    format!(in heap; "{time} {date}")
}

fn in_brackets(heap: Global, time: u32) -> Result<String, AllocError>
    ensures { IfOk result (λ s. string_bytes s ≡ in_brackets time) }
{
    let date = date_text(heap, time)?;
    format!(in heap; "({date})")
}

fn date_text(heap: Global, time: u32) -> Result<String, AllocError>
    ensures { IfOk result (λ s. string_bytes s ≡ date_text time) }
{
    let date = dates::text::text(dates::utc::utc(time));
    text(heap, &date)
}

// Kept: no `Display` of the library's type is plainer, since each program has words of its own: `judged` says "the bytes end".
fn ending_words(ending: Ending) -> &'static str
    ensures { result.now ≡ ending_words ending }
{
    match ending {
        Ending::Ceiling => "ceiling unlawful",
        Ending::Complete => "end of file",
        Ending::Count => "limit of headers",
        Ending::Height => "limit of height",
        Ending::Cut => "cut short",
        Ending::Link => "link broken",
        Ending::Bits => "bits unlawful",
        Ending::Target => "target above ceiling",
        Ending::Work => "hash above target",
    }
}

// Whether an ending is about the first header behind the run.
fn at_header(ending: Ending) -> bool
    ensures { result ≡ at_header ending }
{
    !matches!(ending, Ending::Ceiling | Ending::Complete)
}
