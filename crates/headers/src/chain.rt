// What a chain of headers is held to be.
ghost use Rattle.std.specs.Prelude.{◌≡◌, ◌+◌, ◌*◌, ◌^◌, ◌<◌, ◌≤◌, length};
ghost use Rattle.headers.specs.Following.{run_of};

use crate::ending::{Ending, Run};
use crate::run::walk;
use crate::targets::target;

#[derive(Clone, Copy, Debug, PartialEq, Eq)]
pub struct Chain {
    // the height of the first header
    pub base: u32,
    // the hash that it names
    pub previous: [u8; 32],
    // the bits of the greatest target
    pub ceiling: u32,
}

impl Chain {
    // The longest run of the headers in bytes, with no target above the ceiling's. It lies within the bytes and the heights.
    pub fn follow(&self, bytes: &[u8]) -> Run
        ensures run { result ≡ run_of self.now.base self.now.previous self.now.ceiling bytes.now }
        ensures whole { 80 * result.covered ≤ length bytes.now }
        ensures heights { 0 < result.covered → self.now.base + result.covered ≤ 2 ^ 32 }
    {
        match target(self.ceiling) {
            Some(most) => walk(self, &most, bytes),
            None => Run {
                covered: 0,
                ending: Ending::Ceiling,
            },
        }
    }
}
