// SHA-256 of a message of bytes.
#![tactic(auto)]

ghost use Rattle.std.specs.Prelude.{◌≡◌};
ghost use Rattle.sha256.specs.Sha256.{digest, final_hash, sha256, PaddingIsLeast};

mod compression;
mod constants;
mod functions;
mod padding;
mod schedule;

use compression::compress_blocks;
use constants::FIRST;
use padding::last_blocks;
use std::array;

// Whole blocks are read where they stand in the message; only its end is copied, to be padded.
fn final_hash(message: &[u8]) -> [u32; 8]
    ensures { result ≡ final_hash message.now }
{
    let n = message.len();
    let whole = compress_blocks(FIRST, message);
    let rest = &message[n - n % 64..];
    if rest.len() < 56 {
        compress_blocks(whole, &last_blocks::<64>(rest, n))
    } else {
        compress_blocks(whole, &last_blocks::<128>(rest, n))
    }
}

// The eight words as bytes, the high byte of each first.
fn digest_bytes(hash: [u32; 8]) -> [u8; 32]
    ensures { result ≡ digest hash }
{
    array::from_fn(|i| hash[i / 4].to_be_bytes()[i % 4])
}

// The SHA-256 digest of `message`.
pub fn sha256(message: &[u8]) -> [u8; 32]
    ensures { result ≡ sha256 message.now }
{
    let hash = final_hash(message);
    digest_bytes(hash)
}

// A law: the padded message is the fewest whole blocks that hold the message, the byte 80 and the length.
pub fn padding_is_least() -> u8
    ensures { PaddingIsLeast }
{
    0
}
