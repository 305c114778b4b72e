// Bytes as text.
ghost use Rattle.std.specs.Prelude.{◌≡◌, ◌<◌, ◌++◌, replicate, IfOk, OnOk, string_bytes, encode_utf8_all};
ghost use Rattle.std.specs.Char.{digit_char};
ghost use Rattle.account.specs.Words.{hex_of};

use std::alloc::{AllocError, Global};

// A hexadecimal digit.
fn digit(n: u8) -> char
    requires { n < 16 }
    ensures ascii { result < 128 }
    ensures value { result ≡ digit_char n }
{
    if n < 10 {
        (b'0' + n) as char
    } else {
        (b'a' + (n - 10)) as char
    }
}

// Kept: a loop; what `flat_map` over pairs of digits gives isn't told by the library (tried).
fn push_hex(out: &mut String, bytes: &[u8]) -> Result<(), AllocError>
    ensures { OnOk result (string_bytes out.new ≡ string_bytes out.old ++ hex_of bytes.now) }
{
    for b in bytes {
        out.push(digit(*b / 16))?;
        out.push(digit(*b % 16))?;
    }
    Ok(())
}

// Two lowercase hexadecimal digits for each byte.
pub fn hex(heap: Global, bytes: &[u8]) -> Result<String, AllocError>
    ensures { IfOk result (λ s. string_bytes s ≡ hex_of bytes.now) }
{
    let mut out = String::new(heap);
    push_hex(&mut out, bytes)?;
    Ok(out)
}

// Each byte as the character of that number.
pub fn text(heap: Global, bytes: &[u8]) -> Result<String, AllocError>
    ensures { IfOk result (λ s. string_bytes s ≡ encode_utf8_all bytes.now) }
{
    bytes.iter().map(|b| *b as char).collect(heap)
}

// As many spaces.
#[tactic(auto, using(crate::proofs::Bytes::spaces_text))]
pub fn spaces(heap: Global, n: usize) -> Result<String, AllocError>
    ensures { IfOk result (λ s. string_bytes s ≡ replicate n 32) }
{
    " ".repeat(heap, n)
}
