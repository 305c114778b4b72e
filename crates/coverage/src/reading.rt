// The values of options, from their text.
ghost use Rattle.std.specs.Prelude.{◌≡◌, ℕ, ◌*◌, length, true, false, cond, Some, None, MatchOption};
ghost use Rattle.coverage.specs.Reading.{digit_read, hex_digits, unhex, written, hash_read, bits_read, number_read};

// The value of a lowercase hexadecimal digit.
fn value(c: u8) -> Option<u8>
    ensures { result ≡ digit_read c }
{
    match c {
        b'0'..=b'9' => Some(c - b'0'),
        b'a'..=b'f' => Some(c - b'a' + 10),
        _ => None,
    }
}

// Each byte from its two digits, the high one first.
fn fill(out: &mut [u8], text: &[u8]) -> Option<()>
    requires { length text.now ≡ 2 * length out.old }
    ensures { MatchOption result (hex_digits text.now ≡ false) (λ _. (hex_digits text.now ≡ true) × (out.new ≡ unhex text.now)) }
{
    for (k, byte) in out.iter_mut().enumerate() {
        *byte = 16 * value(text[2 * k])? + value(text[2 * k + 1])?;
    }
    Some(())
}

// N bytes from twice as many lowercase hexadecimal digits.
fn bytes<const N: usize>(text: &[u8]) -> Option<[u8; N]>
    ensures { result ≡ cond (written (2 * N) text.now) (Some (unhex text.now)) None }
{
    if text.len() / 2 != N || text.len() % 2 != 0 {
        return None;
    }
    let mut bytes = [0; N];
    fill(&mut bytes, text)?;
    Some(bytes)
}

// 32 bytes from 64 lowercase hexadecimal digits.
pub fn hash(text: &[u8]) -> Option<[u8; 32]>
    ensures { result ≡ hash_read text.now }
{
    bytes::<32>(text)
}

// A number from 8 lowercase hexadecimal digits, the high digit first.
pub fn bits(text: &[u8]) -> Option<u32>
    ensures { result ≡ bits_read text.now }
{
    bytes(text).map(u32::from_be_bytes)
}

// A decimal number; a plus may stand before it.
#[tactic(auto, using(crate::proofs::Numerals::decimal_parses))]
pub fn number(text: &str) -> Option<u32>
    ensures { result ≡ number_read text.now }
{
    text.parse().ok()
}
