// One of the delivered judges, chosen while the program runs.
ghost use Rattle.judge.specs.Choosing.{chosen};

use crate::calendar_judge::CalendarJudge;
use crate::choice::AnyJudge;
use crate::header_judge::HeaderJudge;
use crate::judge::Judge;
use crate::nobody::Nobody;
use crate::pair::Pair;
use crate::verdict::Verdict;

impl<'a> Judge for AnyJudge<'a> {
    ghost meaning = { chosen };

    fn owns(&self, tag: &[u8]) -> bool {
        match *self {
            AnyJudge::Nobody => Nobody.owns(tag),
            AnyJudge::Headers(judge) => judge.owns(tag),
            AnyJudge::Calendars(judge) => judge.owns(tag),
            AnyJudge::Both(first, second) => Pair { first, second }.owns(tag),
        }
    }

    fn verdict(&self, tag: &[u8], payload: &[u8], message: &[u8]) -> Verdict {
        match *self {
            AnyJudge::Nobody => Nobody.verdict(tag, payload, message),
            AnyJudge::Headers(judge) => judge.verdict(tag, payload, message),
            AnyJudge::Calendars(judge) => judge.verdict(tag, payload, message),
            AnyJudge::Both(first, second) => Pair { first, second }.verdict(tag, payload, message),
        }
    }
}
