// What every judge does: it says which tags it owns and what it holds of a claim, and both follow from its meaning alone.
ghost use Rattle.std.specs.Prelude.{◌≡◌};
ghost use Rattle.judge.specs.Meaning.{Meaning, judged};

use crate::verdict::Verdict;

pub trait Judge {
    ghost meaning: { Self → Meaning };

    fn owns(&self, tag: &[u8]) -> bool
        ensures { result ≡ (meaning self.now).owns tag.now };

    fn verdict(&self, tag: &[u8], payload: &[u8], message: &[u8]) -> Verdict
        ensures { result ≡ judged (meaning self.now) tag.now payload.now message.now };
}
