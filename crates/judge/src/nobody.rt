// A judge that owns no tag.
ghost use Rattle.judge.specs.Meaning.{nobody};

use crate::judge::Judge;
use crate::verdict::Verdict;

#[derive(Clone, Copy)]
pub struct Nobody;

impl Judge for Nobody {
    ghost meaning = { λ _. nobody };

    fn owns(&self, _tag: &[u8]) -> bool {
        false
    }

    fn verdict(&self, _tag: &[u8], _payload: &[u8], _message: &[u8]) -> Verdict {
        Verdict::Foreign
    }
}
