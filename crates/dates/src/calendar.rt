// The calendar: leap years, and the lengths of years and months.
ghost use Rattle.std.specs.Prelude.{◌≡◌, ◌≤◌};
ghost use Rattle.dates.specs.Calendar.{leap as leap_year, year_days, month_days};

pub fn leap(year: u16) -> bool
    ensures { result ≡ leap_year year }
{
    year % 4 == 0 && year % 100 != 0 || year % 400 == 0
}

// The number of days in a year.
pub fn year_days(year: u16) -> u16
    ensures least { 365 ≤ result }
    ensures most { result ≤ 366 }
    ensures value { result ≡ year_days year }
{
    if leap(year) { 366 } else { 365 }
}

// The number of days in a month, which is counted from 1.
pub fn month_days(year: u16, month: u8) -> u16
    ensures least { 28 ≤ result }
    ensures most { result ≤ 31 }
    ensures value { result ≡ month_days year month }
{
    match month {
        2 => { if leap(year) { 29 } else { 28 } }
        4 | 6 | 9 | 11 => 30,
        _ => 31,
    }
}
