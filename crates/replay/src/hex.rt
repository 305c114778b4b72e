// Hexadecimal digits.
ghost use Rattle.std.specs.Prelude.{◌≡◌, ◌<◌};
ghost use Rattle.replay.specs.Messages.{digit};

// The lowercase digit of a number below 16.
// Kept: `char::from_digit` answers an `Option` of a `char`, which would have to be opened and cast to a byte.
pub fn hex_digit(n: u8) -> u8
    requires { n < 16 }
    ensures { result ≡ digit n }
{
    if n < 10 { b'0' + n } else { b'a' + (n - 10) }
}
