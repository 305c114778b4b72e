// The lines of an account: one for the digest, one for each item, one for the counts.
ghost use Rattle.std.specs.Prelude.{◌≡◌, reverse, IfOk, string_bytes};
ghost use Rattle.proof.specs.Pieces.{piece, attested};
ghost use Rattle.format.specs.Files.{head};
ghost use Rattle.proof.specs.Counted.{counted};
ghost use Rattle.account.specs.Lines.{kind_word, part as part_text, operation_text, content_text, item_line, digest_line, under_line, message_line, root_line, counts_line, of_limit, size_line, canonical_line};

use crate::words::{hex, spaces, text};
use claims::size::Size;
use format::Kind;
use proof::counts::Counts;
use proof::item::{Content, Item};
use proof::walk::Step;
use std::alloc::{AllocError, Global};

// Kept: an impl of Display would stand in the crate that has the type, and these words are the program's own.
fn kind_word(kind: Kind) -> &'static str
    ensures { result.now ≡ kind_word kind }
{
    match kind {
        Kind::Sha256 => "sha256",
        Kind::Append => "append",
        Kind::Prepend => "prepend",
        Kind::Reverse => "reverse",
        Kind::Hexlify => "hexlify",
    }
}

// How long a part of the file is, and where it begins.
fn part(heap: Global, size: usize, first: usize) -> Result<String, AllocError>
    ensures { IfOk result (λ s. string_bytes s ≡ part_text size first) }
{
    format!(in heap; " ({size} at {first})")
}

// An argument is shown where there is one.
fn operation_text(
    heap: Global,
    kind: Kind,
    argument: &[u8],
    first: usize,
) -> Result<String, AllocError>
    ensures { IfOk result (λ s. string_bytes s ≡ operation_text kind argument.now first) }
{
    let word = kind_word(kind);
    if argument.is_empty() {
        return String::from_str(heap, word);
    }
    let bytes = hex(heap, argument)?;
    let part = part(heap, argument.len(), first)?;
    format!(in heap; "{word} [{bytes}]{part}")
}

fn content_text(heap: Global, content: &Content) -> Result<String, AllocError>
    ensures { IfOk result (λ s. string_bytes s ≡ content_text (attested content.now)) }
{
    match *content {
        Content::Pending(address) => {
            let address = text(heap, address)?;
            format!(in heap; "pending [{address}]")
        }
        Content::Bitcoin(height) => format!(in heap; "bitcoin {height}"),
        Content::Unknown { tag, payload } => {
            let tag = hex(heap, tag)?;
            let payload = hex(heap, payload)?;
            format!(in heap; "unknown {tag} [{payload}]")
        }
    }
}

// An item with its offsets, indented by its depth.
pub fn item_line(heap: Global, step: &Step) -> Result<String, AllocError>
    ensures { IfOk result (λ s. string_bytes s ≡ item_line step.now.depth (piece step.now.item)) }
{
    let indent = spaces(heap, 2 * step.depth as usize)?;
    match step.item {
        Item::Operation {
            kind,
            argument,
            offset,
            first,
        } => {
            let operation = operation_text(heap, kind, argument, first)?;
            format!(in heap; "{indent}{offset} {operation}")
        }
        Item::Attestation {
            content,
            payload,
            offset,
            first,
        } => {
            let content = content_text(heap, &content)?;
            let part = part(heap, payload.len(), first)?;
            format!(in heap; "{indent}{offset} {content}{part}")
        }
    }
}

pub fn digest_line(heap: Global, digest: &[u8], hash: usize) -> Result<String, AllocError>
    ensures { IfOk result (λ s. string_bytes s ≡ digest_line (head hash digest.now)) }
{
    let bytes = hex(heap, digest)?;
    format!(in heap; "digest {bytes} (tag at {hash})")
}

// Bytes under an attestation, behind a word.
fn under_line(heap: Global, depth: u8, word: &str, bytes: &[u8]) -> Result<String, AllocError>
    ensures { IfOk result (λ s. string_bytes s ≡ under_line depth word.now bytes.now) }
{
    let indent = spaces(heap, 2 * depth as usize)?;
    let bytes = hex(heap, bytes)?;
    format!(in heap; "{indent}  {word} {bytes}")
}

// The message that an attestation is of.
pub fn message_line(heap: Global, depth: u8, message: &[u8]) -> Result<String, AllocError>
    ensures { IfOk result (λ s. string_bytes s ≡ message_line depth message.now) }
{
    under_line(heap, depth, "message", message)
}

fn mirrored(heap: Global, bytes: &[u8]) -> Result<Vec<u8>, AllocError>
    ensures { IfOk result (λ v. v.items ≡ reverse bytes.now) }
{
    bytes.iter().rev().copied().collect(heap)
}

// The same from its last byte to its first, as block explorers print roots.
pub fn root_line(heap: Global, depth: u8, message: &[u8]) -> Result<String, AllocError>
    ensures { IfOk result (λ s. string_bytes s ≡ root_line depth message.now) }
{
    under_line(heap, depth, "root", &mirrored(heap, message)?)
}

// The claims counted by the kind of their attestation.
pub fn counts_line(heap: Global, counts: &Counts) -> Result<String, AllocError>
    ensures { IfOk result (λ s. string_bytes s ≡ counts_line (counted counts.now)) }
{
    let Counts {
        pending,
        bitcoin,
        unknown,
    } = *counts;
    format!(in heap; "claims: pending {pending}, bitcoin {bitcoin}, unknown {unknown}")
}

// A count beside its limit.
fn of_limit(heap: Global, count: usize, limit: usize) -> Result<String, AllocError>
    ensures { IfOk result (λ s. string_bytes s ≡ of_limit count limit) }
{
    format!(in heap; "{count} of {limit}")
}

// The size of a set of claims beside its limits.
pub fn size_line(heap: Global, size: &Size) -> Result<String, AllocError>
    ensures { IfOk result (λ s. string_bytes s ≡ size_line size.now.operations size.now.attestations size.now.bytes) }
{
    let ops = of_limit(heap, size.operations, 1024)?;
    let atts = of_limit(heap, size.attestations, 128)?;
    let sum = of_limit(heap, size.bytes, 32768)?;
    format!(in heap; "size: ops {ops}, atts {atts}, bytes {sum}")
}

// The length of the canonical file.
pub fn canonical_line(heap: Global, n: usize) -> Result<String, AllocError>
    ensures { IfOk result (λ s. string_bytes s ≡ canonical_line n) }
{
    format!(in heap; "canonical {n} bytes")
}
