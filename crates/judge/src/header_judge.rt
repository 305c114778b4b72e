// The judge of heights: it stands on a run of block headers, and owns the Bitcoin tag.
ghost use Rattle.std.specs.Prelude.{◌≡◌, ℕ, ◌*◌, ◌/◌, ◌≤◌, length, take};
ghost use Rattle.headers.specs.Following.{run_of};
ghost use Rattle.judge.specs.Meaning.{spoken};
ghost use Rattle.judge.specs.HeaderRules.{ruled_at, standing, header_meaning};

use crate::judge::Judge;
use crate::verdict::Verdict;
use headers::chain::Chain;
use headers::ending::Run;
use headers::header;
use proof::attestations::{height, is_bitcoin};

// The height of the first header, the headers that are covered, and how the run went that covers them: it is worked out
// once, when the judge is made.
#[derive(Clone, Copy)]
pub struct HeaderJudge<'a> {
    base: u32,
    covered: &'a [u8],
    run: Run,
}

impl<'a> HeaderJudge<'a> {
    // The headers in bytes, held to be of the chain.
    #[tactic(auto, using(crate::proofs::Standing::stands_run))]
    pub fn new(chain: &Chain, bytes: &'a [u8]) -> HeaderJudge<'a>
        ensures means { standing result.base result.covered.now ≡ header_meaning chain.now.base chain.now.previous chain.now.ceiling bytes.now }
        ensures run { result.run ≡ run_of chain.now.base chain.now.previous chain.now.ceiling bytes.now }
    {
        let run = chain.follow(bytes);
        let covered = &bytes[..header::SIZE * run.covered];
        HeaderJudge {
            base: chain.base,
            covered,
            run,
        }
    }

    // How many headers are covered, and why no more.
    pub fn run(&self) -> Run
        ensures { result ≡ self.now.run }
    {
        self.run
    }

    // What a message is that claims to be committed at a height.
    #[tactic(auto, using(crate::proofs::Standing::ruled_among))]
    fn at(&self, height: u32, message: &[u8]) -> Verdict
        ensures { result ≡ spoken (ruled_at self.now.base (length self.now.covered.now / 80) self.now.covered.now message.now height) }
    {
        let (headers, _rest) = self.covered.as_chunks();
        let Some(place) = height.checked_sub(self.base) else {
            return Verdict::Waiting;
        };
        let Some(header) = headers.get(place as usize) else {
            return Verdict::Waiting;
        };
        if message == header::root(header).as_slice() {
            Verdict::Confirmed(header::time(header))
        } else {
            Verdict::Rejected
        }
    }
}

impl<'a> Judge for HeaderJudge<'a> {
    ghost meaning = { λ h. standing h.base h.covered.now };

    fn owns(&self, tag: &[u8]) -> bool {
        is_bitcoin(tag)
    }

    fn verdict(&self, tag: &[u8], payload: &[u8], message: &[u8]) -> Verdict {
        if !is_bitcoin(tag) {
            return Verdict::Foreign;
        }
        match height(payload, 0, payload.len()) {
            Ok(height) => self.at(height, message),
            Err(_) => Verdict::Rejected,
        }
    }
}
