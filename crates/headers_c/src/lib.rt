// Runs of headers for callers in C: used to measure what a run costs beside its bare hashes.
#![tactic(auto)]

ghost use Rattle.std.specs.Prelude.{◌≡◌, ◌==◌, cond, length, replicate};
ghost use Rattle.headers.specs.Following.{run_of};
ghost use Rattle.sha256.specs.Sha256.{sha256 as digest_of};

use headers::chain::Chain;
use sha256::sha256;

// How many headers are covered from height 0 on, behind a previous hash of zeros.
#[unsafe(no_mangle)]
pub extern "C" fn headers_covered(ceiling: u32, bytes: &[u8]) -> usize
    ensures { result ≡ (run_of 0 (replicate 32 0) ceiling bytes.now).covered }
{
    let chain = Chain {
        base: 0,
        previous: [0; 32],
        ceiling,
    };
    chain.follow(bytes).covered
}

// Writes the SHA-256 of the SHA-256 of `message` to `out` and answers true, or, where `out` isn't 32 bytes long, writes nothing and
// answers false.
#[unsafe(no_mangle)]
pub extern "C" fn hashed_twice(message: &[u8], out: &mut [u8]) -> bool
    ensures answer { result ≡ (length out.old == 32) }
    ensures written { out.new ≡ cond result (digest_of (digest_of message.now)) out.old }
{
    if out.len() != 32 {
        return false;
    }
    let once = sha256(message);
    out.copy_from_slice(&sha256(&once));
    true
}
