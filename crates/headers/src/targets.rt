// The target that the bits of a header mean, and the comparison with it. Numbers of 32 bytes have the low byte first.
ghost use Rattle.std.specs.Prelude.{◌≡◌, ℕ, ◌-◌, ◌*◌, ◌/◌, ◌%◌, ◌^◌, ◌<◌, ◌≤◌, true, false, MatchOption, ◌≢◌, nat_le};
ghost use Rattle.headers.specs.Targets.{little, mantissa, exponent, target_of, lawful, Means};

// Whether the number in a is at most the one in b.
pub(crate) fn at_most(a: &[u8; 32], b: &[u8; 32]) -> bool
    ensures { result ≡ nat_le (little a.now) (little b.now) }
{
    // the highest byte that differs decides
    a.iter().rev().cmp(b.iter().rev()).is_le()
}

// The target, where the bits are lawful.
#[tactic(auto, using(crate::proofs::Lawfulness::lawfulness))]
pub fn target(bits: u32) -> Option<[u8; 32]>
    ensures { Means bits result }
{
    let m = whole(bits);
    let e = (bits >> 24) as usize;
    let at = e.saturating_sub(3);
    if bits / 0x80_0000 % 2 != 0 || m == 0 {
        return None;
    }
    placed(m, at)
}

// The low 23 bits, without the bytes that a small exponent makes a fraction.
fn whole(bits: u32) -> u32
    ensures { result ≡ mantissa bits / 256 ^ (3 - exponent bits) }
{
    let m = bits % 0x80_0000;
    match bits >> 24 {
        0 => 0,
        1 => m / 0x1_0000,
        2 => m / 0x100,
        _ => m,
    }
}

// m × 256 ^ at in 32 bytes, if it has room there.
fn placed(m: u32, at: usize) -> Option<[u8; 32]>
    ensures { MatchOption result (2 ^ 256 ≤ m * 256 ^ at) (λ t. (little t ≡ m * 256 ^ at) × (m * 256 ^ at < 2 ^ 256)) }
{
    let mut bytes = [0; 32];
    let mut left = m;
    for (k, byte) in bytes.iter_mut().enumerate() {
        if k >= at {
            *byte = (left % 256) as u8;
            left /= 256;
        }
    }
    if left == 0 { Some(bytes) } else { None }
}
