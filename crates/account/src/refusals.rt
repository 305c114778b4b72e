// What is said of a refused file: the fault in words, the bytes around it, and the line that every implementation prints.
ghost use Rattle.std.specs.Prelude.{◌≡◌, ◌+◌, length, IfOk, string_bytes};
ghost use Rattle.proof.specs.Faults.{numbered};
ghost use Rattle.account.specs.Refusals.{meaning as meaning_text, refused_line, fault_line, around_line};

use crate::words::hex;
use proof::fault::Fault;
use std::alloc::{AllocError, Global};

// What a fault means.
// Kept: an impl of Display would stand in the crate that has the type, and these words are the program's own.
pub fn meaning(fault: &Fault) -> &'static str
    ensures { result.now ≡ meaning_text fault.now }
{
    match *fault {
        Fault::Long => "file too long",
        Fault::Ends(_) => "file ends early",
        Fault::Mark(_) => "mark differs",
        Fault::Version(_) => "version is not 1",
        Fault::FileHash(_) => "file hash unknown",
        Fault::Operation(_) => "operation unknown",
        Fault::Number(_) => "number too large",
        Fault::Length(_) => "length out of range",
        Fault::Result(_) => "result too long",
        Fault::Content(_) => "payload malformed",
        Fault::Path(_) => "path too long",
        Fault::Follows(_) => "bytes follow",
    }
}

pub fn fault_line(heap: Global, fault: &Fault) -> Result<String, AllocError>
    ensures { IfOk result (λ s. string_bytes s ≡ fault_line (numbered fault.now).0 (meaning_text fault.now)) }
{
    let number = fault.number();
    let words = meaning(fault);
    format!(in heap; "fault {number}: {words}")
}

// Up to eight bytes before an offset, and up to eight from it on.
pub fn around_line(heap: Global, file: &[u8], offset: usize) -> Result<String, AllocError>
    ensures { IfOk result (λ s. string_bytes s ≡ around_line file.now offset) }
{
    let at = offset.min(file.len());
    let from = at.saturating_sub(8);
    let end = at.saturating_add(8).min(file.len());
    let before = hex(heap, &file[from..at])?;
    let behind = hex(heap, &file[at..end])?;
    format!(in heap; "bytes from {from}: {before} | {behind}")
}

pub fn refused_line(heap: Global, fault: &Fault) -> Result<String, AllocError>
    ensures { IfOk result (λ s. string_bytes s ≡ refused_line (numbered fault.now).0 (numbered fault.now).1) }
{
    let number = fault.number();
    let offset = fault.offset();
    format!(in heap; "refused {number} at {offset}")
}
