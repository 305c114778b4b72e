// Bytes in hexadecimal digits, two for each byte.
ghost use Rattle.std.specs.Prelude.{◌≡◌, ◌*◌, ◌++◌, length};
ghost use Rattle.replay.specs.Messages.{digits};
ghost use Rattle.written.specs.Writers.{written, HasRoom, Moved};

use replay::hex::hex_digit;
use written::writer::Writer;

// The high digit of each byte first.
#[tactic(auto, using(crate::proofs::Digits::none_put, crate::proofs::Digits::more_put))]
pub(crate) fn put_hex(w: &mut Writer<'_>, bytes: &[u8])
    requires { HasRoom w.old (2 * length bytes.now) }
    ensures moved { Moved w.old w.new (2 * length bytes.now) }
    ensures front { written w.new ≡ written w.old ++ digits bytes.now }
{
    for b in bytes {
        w.byte(hex_digit(b / 16));
        w.byte(hex_digit(b % 16));
    }
}
