// SHA-256 for callers in C: used to measure its speed.
#![tactic(auto)]

ghost use Rattle.std.specs.Prelude.{◌≡◌, ◌==◌, cond, length};
ghost use Rattle.sha256.specs.Sha256.{sha256};

// Writes the digest of `message` to `out` and answers true, or, where `out` isn't 32 bytes long, writes nothing and answers false.
#[unsafe(no_mangle)]
pub extern "C" fn sha256_digest(message: &[u8], out: &mut [u8]) -> bool
    ensures answer { result ≡ (length out.old == 32) }
    ensures written { out.new ≡ cond result (sha256 message.now) out.old }
{
    if out.len() != 32 {
        return false;
    }
    out.copy_from_slice(&sha256::sha256(message));
    true
}
