// Dates and times of day in UTC, from seconds since the beginning of 1970.
#![tactic(auto)]

ghost use Rattle.dates.specs.Utc.{UtcInvertsCounting};

pub mod calendar;
pub mod text;
pub mod time;
pub mod utc;

// A law: the date of a count of seconds is the one date that is counted by it.
pub fn utc_inverts_counting() -> u8
    ensures { UtcInvertsCounting }
{
    0
}
