// The judges that a program can choose between.
// Kept: a program chooses while it runs, and a function may not make a `dyn Judge` and hand it out: a rule of the project.
use crate::calendar_judge::CalendarJudge;
use crate::header_judge::HeaderJudge;

#[derive(Clone, Copy)]
pub enum AnyJudge<'a> {
    Nobody,
    Headers(HeaderJudge<'a>),
    Calendars(CalendarJudge<'a>),
    // the pair of them
    Both(HeaderJudge<'a>, CalendarJudge<'a>),
}
