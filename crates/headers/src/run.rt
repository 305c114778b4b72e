// The run of headers from the first one on.
ghost use Rattle.std.specs.Prelude.{◌≡◌, ℕ, ◌+◌, ◌*◌, ◌^◌, ◌<◌, ◌≤◌, length, Some};
ghost use Rattle.headers.specs.Targets.{little};
ghost use Rattle.headers.specs.Steps.{full_at, end_at, tested as tested_as, step_or};
ghost use Rattle.headers.specs.Following.{walked};

use crate::chain::Chain;
use crate::ending::{Ending, Run};
use crate::header;
use crate::targets::{at_most, target};

// The most headers that a run has.
const COUNT: usize = 65536;

// The run under the greatest target.
pub(crate) fn walk(chain: &Chain, most: &[u8; 32], bytes: &[u8]) -> Run
    ensures run { result ≡ walked chain.now.base chain.now.previous (little most.now) bytes.now }
    ensures whole { 80 * result.covered ≤ length bytes.now }
    ensures heights { 0 < result.covered → chain.now.base + result.covered ≤ 2 ^ 32 }
{
    let (headers, _rest) = bytes.as_chunks();
    let mut before = chain.previous;
    for (k, header) in headers.iter().enumerate() {
        match step(chain.base, most, &before, k, header) {
            Ok(hash) => before = hash,
            Err(ending) => return Run { covered: k, ending },
        }
    }
    let covered = headers.len();
    let ending = behind(chain.base, bytes.len(), covered);
    Run { covered, ending }
}

// What the whole header at place k is to a run: the hash with which it goes on, or why it ends.
fn step(
    base: u32,
    most: &[u8; 32],
    before: &[u8; 32],
    k: usize,
    header: &[u8; header::SIZE],
) -> Result<[u8; 32], Ending>
    ensures { result ≡ step_or (full_at base k) (tested_as (little most.now) before.now header.now) }
{
    match full(base, k) {
        Some(ending) => Err(ending),
        None => tested(most, before, header),
    }
}

// Why a run can have no header at place k, however many there are.
fn full(base: u32, k: usize) -> Option<Ending>
    ensures { result ≡ full_at base k }
{
    if k >= COUNT {
        Some(Ending::Count)
    } else if base as usize + k > 0xffff_ffff {
        Some(Ending::Height)
    } else {
        None
    }
}

// Why a run with all k whole headers of so many bytes goes no further.
fn behind(base: u32, size: usize, k: usize) -> Ending
    requires whole { 80 * k ≤ size }
    requires rest { size < 80 * k + 80 }
    ensures { end_at base size k ≡ Some result }
{
    if size == header::SIZE * k {
        return Ending::Complete;
    }
    full(base, k).unwrap_or(Ending::Cut)
}

// The tests on a header that has to name the hash before, with no target above most.
fn tested(
    most: &[u8; 32],
    before: &[u8; 32],
    header: &[u8; header::SIZE],
) -> Result<[u8; 32], Ending>
    ensures { result ≡ tested_as (little most.now) before.now header.now }
{
    if header::previous(header) != before {
        return Err(Ending::Link);
    }
    let Some(target) = target(header::bits(header)) else {
        return Err(Ending::Bits);
    };
    if !at_most(&target, most) {
        return Err(Ending::Target);
    }
    let hash = header::hash(header);
    if !at_most(&hash, &target) {
        return Err(Ending::Work);
    }
    Ok(hash)
}
