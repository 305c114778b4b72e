// Two judges as one: the first decides what it owns, the second what else it owns.
ghost use Rattle.judge.specs.Meaning.{paired};

use crate::judge::Judge;
use crate::verdict::Verdict;

#[derive(Clone, Copy)]
pub struct Pair<A, B> {
    pub first: A,
    pub second: B,
}

impl<A: Judge, B: Judge> Judge for Pair<A, B> {
    ghost meaning = { λ p. paired (A.Judge.meaning p.first) (B.Judge.meaning p.second) };

    fn owns(&self, tag: &[u8]) -> bool {
        self.first.owns(tag) || self.second.owns(tag)
    }

    fn verdict(&self, tag: &[u8], payload: &[u8], message: &[u8]) -> Verdict {
        if self.first.owns(tag) {
            self.first.verdict(tag, payload, message)
        } else {
            self.second.verdict(tag, payload, message)
        }
    }
}
