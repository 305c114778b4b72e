// The lines of a sheet, written into a lent area: first how long one is, then its bytes.
#![tactic(auto)]

mod hex;
pub mod last;
pub mod line;
mod numbers;
mod words;

const SPACE: u8 = 0x20;

const LINE_END: u8 = 0x0a;
