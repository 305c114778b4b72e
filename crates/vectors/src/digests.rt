// Prints the SHA-256 digests of the published test messages and of a message of every length up to 130 bytes.
ghost use Rattle.std.specs.Prelude.{◌≡◌, ℕ, ◌+◌, ◌*◌, ◌/◌, ◌%◌, ◌<◌, slice_index};

use std::{array, io};

const BITS_448: &[u8] = b"abcdbcdecdefdefgefghfghighijhijkijkljklmklmnlmnomnopnopq";

const BITS_896: &[u8] =
    b"abcdefghbcdefghicdefghijdefghijkefghijklfghijklmghijklmnhijklmnoijklmnopjklmnopqklmnopqrlmnopqrsmnopqrstnopqrstu";

// Two digits for each byte.
pub fn print_digits(rt: &HostRuntime, bytes: &[u8]) -> io::Result<()> {
    for byte in bytes {
        print!(rt; "{:02x}", *byte)?;
    }
    Ok(())
}

// A line ends with the digest.
pub fn finish_line(rt: &HostRuntime, message: &[u8]) -> io::Result<()> {
    print_digits(rt, &sha256::sha256(message))?;
    println!(rt; "")
}

fn print_named(rt: &HostRuntime, name: &str, message: &[u8]) -> io::Result<()> {
    print!(rt; "sha256 {name} ")?;
    finish_line(rt, message)
}

pub fn print_published(rt: &HostRuntime) -> anyhow::Result<()> {
    print_named(rt, "empty", b"")?;
    print_named(rt, "abc", b"abc")?;
    print_named(rt, "448-bits", BITS_448)?;
    print_named(rt, "896-bits", BITS_896)?;
    let million = vec![in rt.alloc(); b'a'; 1000000]?;
    print_named(rt, "million-a", &million)?;
    Ok(())
}

// As many bytes as the longest message has. They all differ over any 64 in a row, and no 256 in a row are those before
// them, so that a byte read from a wrong place shows.
pub fn pattern() -> [u8; 4096]
    ensures { (i : ℕ) → i < 4096 → slice_index result i ≡ (i * 7 + i / 256 + 3) % 256 }
{
    array::from_fn(|i| ((i * 7 + i / 256 + 3) % 256) as u8)
}

// The lengths at which the padding takes one block, fills it and takes two are all among these.
pub fn print_lengths(rt: &HostRuntime) -> io::Result<()> {
    let bytes = pattern();
    for n in 0..131 {
        print!(rt; "sha256 length-{n} ")?;
        finish_line(rt, &bytes[..n])?;
    }
    Ok(())
}
