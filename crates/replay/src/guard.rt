// The guard of a work area.
ghost use Rattle.std.specs.Prelude.{◌≡◌, ◌≤◌, length};
ghost use Rattle.replay.specs.Areas.{cleared};

use crate::ROOM;
use crate::bytes::zero;

// A lent area, whose first 4,096 bytes are zero once this is let go, on whatever way.
pub struct Spare<'a>(pub &'a mut [u8]);

impl Drop for Spare<'_> {
    fn drop(self)
        requires { 4096 ≤ length self.0.now }
        ensures { self.exit.0.now ≡ cleared self.entry.0.now }
    {
        zero(&mut *self.0, ROOM);
        let Spare(_) = self;
    }
}
