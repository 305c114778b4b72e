// What a file of headers covers, and the options under which it is read: values and text, and nothing that reads files or prints.
#![tactic(auto)]

ghost use Rattle.coverage.specs.Inverse.{UnhexInvertsHex, BitsInvertHex};

pub mod lines;
pub mod options;
pub mod reading;
pub mod spans;

// A law: hexadecimal text is read as the one list of bytes that is written so, and refused exactly where there is none.
#[tactic(auto, using(crate::proofs::Inverses::unhex_inverts_hex))]
pub fn unhex_inverts_hex() -> u8
    ensures { UnhexInvertsHex }
{
    0
}

// A law: the same for a number of four bytes, the high byte first.
#[tactic(auto, using(crate::proofs::Inverses::bits_invert_hex))]
pub fn bits_invert_hex() -> u8
    ensures { BitsInvertHex }
{
    0
}
