// The judge of addresses: it holds a text of calendars' addresses, one a line, and owns the Pending tag.
ghost use Rattle.std.specs.Prelude.{◌≡◌, ◌||◌};
ghost use Rattle.judge.specs.CalendarRules.{calendar_meaning};
ghost use Rattle.judge.specs.Listing.{lines, some_line, listed};

use crate::judge::Judge;
use crate::verdict::Verdict;
use proof::attestations::{address, is_pending};

// What ends a line.
const LINE_END: u8 = 0x0a;

#[derive(Clone, Copy)]
pub struct CalendarJudge<'a> {
    text: &'a [u8],
}

impl<'a> CalendarJudge<'a> {
    pub fn new(text: &'a [u8]) -> CalendarJudge<'a>
        ensures { calendar_meaning result.text.now ≡ calendar_meaning text.now }
    {
        CalendarJudge { text }
    }
}

// Whether the text lists the address.
fn lists(text: &[u8], address: &[u8]) -> bool
    ensures { result ≡ listed text.now address.now }
{
    !address.is_empty() && has_line(text, address)
}

// Whether some line of the text equals the address.
fn has_line(text: &[u8], address: &[u8]) -> bool
    ensures { result ≡ some_line (lines text.now) address.now }
{
    text.split(|b| *b == LINE_END).any(|line| line == address)
}

impl<'a> Judge for CalendarJudge<'a> {
    ghost meaning = { λ c. calendar_meaning c.text.now };

    fn owns(&self, tag: &[u8]) -> bool {
        is_pending(tag)
    }

    fn verdict(&self, tag: &[u8], payload: &[u8], _message: &[u8]) -> Verdict {
        if !is_pending(tag) {
            return Verdict::Foreign;
        }
        match address(payload, 0, payload.len()) {
            Ok(address) if lists(self.text, address) => Verdict::Waiting,
            _ => Verdict::Rejected,
        }
    }
}
