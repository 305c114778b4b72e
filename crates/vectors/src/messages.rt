// Prints what each operation makes of messages.
ghost use Rattle.std.specs.Prelude.{◌≡◌, ◌≤◌, take, IfSome};
ghost use Rattle.format.specs.Operations.{op_of};
ghost use Rattle.replay.specs.Messages.{apply};

use crate::digests::{finish_line, pattern, print_digits};
use format::Kind;
use proof::operations::result_size;
use std::io;

// Two digits for each byte, or a dash for none, and a space.
pub fn print_bytes(rt: &HostRuntime, bytes: &[u8]) -> io::Result<()> {
    if bytes.is_empty() {
        print!(rt; "-")?;
    }
    print_digits(rt, bytes)?;
    print!(rt; " ")
}

// Kept: the type is another crate's, so its `Display` cannot stand here, and a wrapper for it would be no plainer than a function.
fn name(kind: Kind) -> &'static str {
    match kind {
        Kind::Sha256 => "sha256",
        Kind::Append => "append",
        Kind::Prepend => "prepend",
        Kind::Reverse => "reverse",
        Kind::Hexlify => "hexlify",
    }
}

// One operation on a message, which is put into the area first. None where area, argument or result forbid it.
fn applied(kind: Kind, argument: &[u8], message: &[u8], area: &mut [u8]) -> Option<usize>
    ensures bound { IfSome result (λ n. n ≤ 4096) }
    ensures message { IfSome result (λ n. take n area.new ≡ apply (op_of kind argument.now) message.now) }
{
    let size = message.len();
    if area.len() < 4096 || size > 4096 || argument.len() > 4096 {
        return None;
    }
    if result_size(kind, size as u16, argument.len()) > 4096 {
        return None;
    }
    area[..size].copy_from_slice(message);
    Some(replay::apply(kind, argument, area, size))
}

// The lengths of argument, message and result, the result where it is short, and its digest.
fn print_applied(rt: &HostRuntime, kind: Kind, argument: &[u8], message: &[u8]) -> io::Result<()> {
    let mut area = [0xaa; 4200];
    print!(rt;
        "apply {} {} {} ",
        name(kind),
        argument.len(),
        message.len()
    )?;
    let Some(size) = applied(kind, argument, message, &mut area) else {
        return println!(rt; "none");
    };
    print!(rt; "{size} ")?;
    if size <= 64 {
        print_bytes(rt, &area[..size])?;
    }
    finish_line(rt, &area[..size])
}

const KINDS: [Kind; 5] = [
    Kind::Sha256,
    Kind::Append,
    Kind::Prepend,
    Kind::Reverse,
    Kind::Hexlify,
];

fn print_each(rt: &HostRuntime, argument: &[u8], message: &[u8]) -> io::Result<()> {
    for kind in KINDS {
        print_applied(rt, kind, argument, message)?;
    }
    Ok(())
}

pub fn print_small(rt: &HostRuntime) -> io::Result<()> {
    print_each(rt, b"", b"")?;
    print_each(rt, b"", b"abc")?;
    print_each(rt, b"xy", b"")?;
    print_each(rt, b"xy", b"a")?;
    print_each(rt, b"\x00\xff\x7f", b"\x09\x10\x9f\xa0\xfa")
}

// The longest results that there can be, by one byte and by many.
pub fn print_full(rt: &HostRuntime) -> io::Result<()> {
    let bytes = pattern();
    print_applied(rt, Kind::Sha256, b"", &bytes)?;
    print_applied(rt, Kind::Append, &bytes[32..], &bytes[..32])?;
    print_applied(rt, Kind::Append, &bytes[4095..], &bytes[..4095])?;
    print_applied(rt, Kind::Append, &bytes, b"")?;
    print_applied(rt, Kind::Prepend, &bytes[..4064], &bytes[4064..])?;
    print_applied(rt, Kind::Prepend, &bytes[..1], &bytes[1..])?;
    print_applied(rt, Kind::Prepend, &bytes, b"")?;
    print_applied(rt, Kind::Reverse, b"", &bytes)?;
    print_applied(rt, Kind::Hexlify, b"", &bytes[..2048])
}
