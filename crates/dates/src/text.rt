// A date and time as text.
ghost use Rattle.std.specs.Prelude.{◌≡◌};
ghost use Rattle.dates.specs.Text.{digit as digit_of, text_of};

use crate::time::Utc;

// As in 2009-01-03 18:15:05 UTC, in ASCII. Of a larger number only the last digits are written, two or for a year four.
// Kept: the text takes no heap, and a width in a format is the least while these are exact.
pub fn text(u: Utc) -> [u8; 23]
    ensures { result ≡ text_of u }
{
    [
        digit(u.year / 1000),
        digit(u.year / 100),
        digit(u.year / 10),
        digit(u.year),
        b'-',
        digit(u.month as u16 / 10),
        digit(u.month as u16),
        b'-',
        digit(u.day as u16 / 10),
        digit(u.day as u16),
        b' ',
        digit(u.hour as u16 / 10),
        digit(u.hour as u16),
        b':',
        digit(u.minute as u16 / 10),
        digit(u.minute as u16),
        b':',
        digit(u.second as u16 / 10),
        digit(u.second as u16),
        b' ',
        b'U',
        b'T',
        b'C',
    ]
}

// The lowest decimal digit.
fn digit(n: u16) -> u8
    ensures { result ≡ digit_of n }
{
    b'0' + (n % 10) as u8
}
