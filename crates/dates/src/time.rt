// A date and a time of day.
#[derive(Clone, Copy, Debug, PartialEq, Eq)]
pub struct Utc {
    pub year: u16,
    // from 1 to 12
    pub month: u8,
    // from 1 on
    pub day: u8,
    pub hour: u8,
    pub minute: u8,
    pub second: u8,
}
