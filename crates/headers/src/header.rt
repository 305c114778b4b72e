// The parts of a header.
ghost use Rattle.std.specs.Prelude.{◌≡◌, ℕ, ◌+◌, ◌*◌, ◌≤◌, length, take, drop};
ghost use Rattle.headers.specs.Targets.{little};
ghost use Rattle.headers.specs.Headers.{header_at, previous_of, root_of, time_of, bits_of, hash_of};

use sha256::sha256;

// The number of bytes of a header.
pub const SIZE: usize = 80;

// The header at place k, which is whole.
pub fn nth(bytes: &[u8], k: usize) -> &[u8; SIZE]
    requires { 80 * k + 80 ≤ length bytes.now }
    ensures { result.now ≡ header_at bytes.now k }
{
    part(bytes, SIZE * k)
}

// The hash of the header before.
pub fn previous(header: &[u8; SIZE]) -> &[u8; 32]
    ensures { result.now ≡ previous_of header.now }
{
    part(header, 4)
}

// The root of what the block holds.
pub fn root(header: &[u8; SIZE]) -> &[u8; 32]
    ensures { result.now ≡ root_of header.now }
{
    part(header, 36)
}

// The time, in seconds since the beginning of 1970.
pub fn time(header: &[u8; SIZE]) -> u32
    ensures { result ≡ time_of header.now }
{
    number(part(header, 68))
}

// The bits that mean the target.
pub fn bits(header: &[u8; SIZE]) -> u32
    ensures { result ≡ bits_of header.now }
{
    number(part(header, 72))
}

// The header's own hash, by which the next one names it.
pub fn hash(header: &[u8]) -> [u8; 32]
    ensures { result ≡ hash_of header.now }
{
    let inner = sha256(header);
    sha256(&inner)
}

// The N bytes from place at on.
fn part<const N: usize>(bytes: &[u8], at: usize) -> &[u8; N]
    requires { at + N ≤ length bytes.now }
    ensures { result.now ≡ take N (drop at bytes.now) }
{
    bytes[at..].first_chunk().unwrap()
}

// Four bytes as a number, the low byte first.
fn number(bytes: &[u8; 4]) -> u32
    ensures { result ≡ little bytes.now }
{
    u32::from_le_bytes(*bytes)
}
