// What a run of headers spans.
ghost use Rattle.std.specs.Prelude.{◌≡◌, ℕ, ◌+◌, ◌*◌, ◌^◌, ◌<◌, ◌≤◌, length};
ghost use Rattle.coverage.specs.Spans.{span_if, coverage_of};

use headers::chain::Chain;
use headers::ending::Ending;
use headers::header;

// The heights and the times of the first and the last header.
#[derive(Clone, Copy, Debug, PartialEq, Eq)]
pub struct Span {
    pub from: u32,
    pub to: u32,
    pub early: u32,
    pub late: u32,
}

// How many headers are covered, what they span if there are any, and why there are no more.
#[derive(Clone, Copy, Debug, PartialEq, Eq)]
pub struct Coverage {
    pub covered: usize,
    pub span: Option<Span>,
    pub ending: Ending,
}

#[tactic(auto, unfolding(crate::specs::Spans::described))]
pub fn cover(chain: &Chain, bytes: &[u8]) -> Coverage
    ensures { result ≡ coverage_of chain.now bytes.now }
{
    let run = chain.follow(bytes);
    Coverage {
        covered: run.covered,
        span: spanned(chain.base, run.covered, bytes),
        ending: run.ending,
    }
}

fn spanned(base: u32, covered: usize, bytes: &[u8]) -> Option<Span>
    requires heights { 0 < covered → base + covered ≤ 2 ^ 32 }
    requires whole { 80 * covered ≤ length bytes.now }
    ensures { result ≡ span_if base covered bytes.now }
{
    let last = covered.checked_sub(1)?;
    Some(Span {
        from: base,
        to: base + last as u32,
        early: header::time(header::nth(bytes, 0)),
        late: header::time(header::nth(bytes, last)),
    })
}
