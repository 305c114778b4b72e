// The earliest date of a tally.
ghost use Rattle.std.specs.Prelude.{◌≡◌};
ghost use Rattle.runs.specs.Reports.{earlier as earliest};

use runs::report::Date;

// The earlier of a date and a time of this row; the date stays where they are equal.
pub(crate) fn earlier(date: Option<Date>, time: u32, row: usize) -> Option<Date>
    ensures { result ≡ earliest date time row }
{
    match date {
        Some(first) if first.time <= time => date,
        _ => Some(Date { time, row }),
    }
}
