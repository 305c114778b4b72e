// The last one or two blocks, which hold the end of the message and its padding.
ghost use Rattle.std.specs.Prelude.{◌≡◌, ◌+◌, ◌≤◌, ◌++◌, length};
ghost use Rattle.sha256.specs.Sha256.{bit_length, padding};
ghost use Rattle.sha256.specs.Working.{overwritten};

// Writes `source` over `out` from `start` on.
#[tactic(auto, unfolding(crate::specs::Working::overwritten))]
fn overwrite(out: &mut [u8], start: usize, source: &[u8])
    requires { start + length source.now ≤ length out.old }
    ensures { out.new ≡ overwritten out.old start source.now }
{
    out[start..start + source.len()].copy_from_slice(source);
}

// The number of bits in `len` bytes, modulo 2^64, as the padding has it.
fn bit_length(len: usize) -> [u8; 8]
    ensures { result ≡ bit_length len }
{
    (len as u64).wrapping_mul(8).to_be_bytes()
}

// The last N bytes of a padded message of `len` bytes: `rest`, which is its end, and then the padding.
#[tactic(auto, using(crate::proofs::Blocks::length_padding))]
pub(crate) fn last_blocks<const N: usize>(rest: &[u8], len: usize) -> [u8; N]
    requires { N ≡ length rest.now + length (padding len) }
    ensures { result ≡ rest.now ++ padding len }
{
    let mut bytes = [0; N];
    // This comes before `rest`: else the compiler clears only what `rest` leaves, by a call of `memset`, which the archives
    // for C would then need.
    bytes[rest.len()] = 0x80;
    overwrite(&mut bytes, 0, rest);
    let bits = bit_length(len);
    overwrite(&mut bytes, N - 8, &bits);
    bytes
}
