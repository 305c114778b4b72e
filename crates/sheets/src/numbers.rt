// Numbers in decimal digits. Both functions call themselves once for each digit: twenty times at most.
ghost use Rattle.std.specs.Prelude.{◌≡◌, ◌≤◌, ◌++◌, length, decimal};
ghost use Rattle.written.specs.Writers.{written, HasRoom, Moved};

use written::writer::Writer;

#[tactic(auto, using(crate::proofs::Decimals::one_long, crate::proofs::Decimals::more_long))]
pub(crate) fn number_length(n: usize) -> usize
    ensures value { result ≡ length (decimal n) }
    ensures bound { result ≤ 20 }
{
    if n < 10 { 1 } else { number_length(n / 10) + 1 }
}

#[tactic(auto, using(crate::proofs::Decimals::one_long, crate::proofs::Decimals::more_long, crate::proofs::Decimals::one_put, crate::proofs::Decimals::more_put))]
pub(crate) fn put_number(w: &mut Writer<'_>, n: usize)
    requires { HasRoom w.old (length (decimal n)) }
    ensures moved { Moved w.old w.new (length (decimal n)) }
    ensures front { written w.new ≡ written w.old ++ decimal n }
{
    if n < 10 {
        return w.byte(b'0' + n as u8);
    }
    put_number(w, n / 10);
    w.byte(b'0' + (n % 10) as u8)
}
