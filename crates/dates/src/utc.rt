// The date and time of day at a second.
ghost use Rattle.std.specs.Prelude.{◌≡◌, ℕ, ◌+◌, ◌-◌, ◌*◌, ◌<◌, ◌≤◌};
ghost use Rattle.dates.specs.Calendar.{days_before_year, days_before_month, year_days};
ghost use Rattle.dates.specs.Utc.{year_at, month_at, utc_of};

use crate::calendar::{month_days, year_days};
use crate::time::Utc;

const DAY: u32 = 86400;

// The date and time that is `seconds` after the beginning of 1970.
pub fn utc(seconds: u32) -> Utc
    ensures { result ≡ utc_of seconds }
{
    let days = (seconds / DAY) as u16;
    let rest = seconds % DAY;
    let years = year_at(days);
    let day = days - years.before;
    let months = month_at(1970 + years.passed, day);
    Utc {
        year: 1970 + years.passed,
        month: months.passed as u8 + 1,
        day: (day - months.before) as u8 + 1,
        hour: (rest / 3600) as u8,
        minute: (rest / 60 % 60) as u8,
        second: (rest % 60) as u8,
    }
}

// How many years or months have passed, and the days in them.
#[derive(Clone, Copy)]
struct Passed {
    passed: u16,
    before: u16,
}

// The years from 1970 on that have passed after so many days.
fn year_at(days: u16) -> Passed
    ensures bound { result.passed ≤ 179 }
    ensures early { result.before ≤ days }
    ensures late { days < result.before + year_days (1970 + result.passed) }
    ensures value { result.passed ≡ year_at days }
    ensures before { result.before ≡ days_before_year (year_at days) }
{
    let mut passed = 0;
    let mut before = 0;
    // Kept: a `for` would need a last year, and an answer behind it that is never given.
    loop {
        let length = year_days(1970 + passed);
        if days - before < length {
            return Passed { passed, before };
        }
        before += length;
        passed += 1;
    }
}

// The months of the year that have passed after so many days of it.
fn month_at(year: u16, day: u16) -> Passed
    requires { day < year_days year }
    ensures bound { result.passed ≤ 11 }
    ensures early { result.before ≤ day }
    ensures late { day < result.before + 31 }
    ensures value { result.passed ≡ month_at year day }
    ensures before { result.before ≡ days_before_month year (month_at year day) }
{
    let mut before = 0;
    for passed in 0..11 {
        let length = month_days(year, passed as u8 + 1);
        if day - before < length {
            return Passed { passed, before };
        }
        before += length;
    }
    Passed { passed: 11, before }
}
