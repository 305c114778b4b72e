// A writer at the front of a lent area: each call puts bytes behind those that it has put there already.
ghost use Rattle.std.specs.Prelude.{◌≡◌, ◌+◌, ◌^◌, ◌<◌, ◌≤◌, [], ◌∷◌, ◌++◌, length, take};
ghost use Rattle.claim_trees.specs.Bytes.{shortest};
ghost use Rattle.claim_trees.specs.Onto.{block_length, ff_length, block_onto, ff_onto};
ghost use Rattle.written.specs.Writers.{written, HasRoom, Begun, Moved};

// Kept: fields and no model; tried with one, and the proof of what the area holds once the writer is let go didn't close.
#[derive(Drop)]
pub struct Writer<'a> {
    out: &'a mut [u8],
    at: usize,
}

impl<'a> Writer<'a> {
    pub fn new(out: &'a mut [u8]) -> Writer<'a>
        ensures { Begun out.entry result }
    {
        Writer { out, at: 0 }
    }

    // Lets go of the area and answers what is written.
    pub(crate) fn into_written(self) -> &'a [u8]
        requires { HasRoom self 0 }
        ensures { result.now ≡ written self.entry }
    {
        let Writer { out, at } = self;
        &out[0..at]
    }

    pub fn byte(&mut self, b: u8)
        requires { HasRoom self.old 1 }
        ensures moved { Moved self.old self.new 1 }
        ensures front { written self.new ≡ written self.old ++ (b ∷ []) }
    {
        self.out[self.at] = b;
        self.at += 1;
    }

    pub fn bytes(&mut self, bytes: &[u8])
        requires { HasRoom self.old (length bytes.now) }
        ensures moved { Moved self.old self.new (length bytes.now) }
        ensures front { written self.new ≡ written self.old ++ bytes.now }
    {
        let next = self.at + bytes.len();
        self.out[self.at..next].copy_from_slice(bytes);
        self.at = next;
    }

    // Seven bits in each byte, the low ones first, the top bit set in each but the last.
    pub(crate) fn number(&mut self, n: u32)
        requires { HasRoom self.old (length (shortest n)) }
        ensures moved { Moved self.old self.new (length (shortest n)) }
        ensures front { written self.new ≡ written self.old ++ shortest n }
    {
        let mut left = n;
        while left >= 128 {
            self.byte(128 + (left % 128) as u8);
            left /= 128;
        }
        self.byte(left as u8);
    }

    // A length and that many bytes.
    pub(crate) fn block(&mut self, bytes: &[u8])
        requires { HasRoom self.old (block_length bytes.now) × (length bytes.now < 2 ^ 32) }
        ensures moved { Moved self.old self.new (block_length bytes.now) }
        ensures front { written self.new ≡ block_onto (written self.old) bytes.now }
    {
        self.number(bytes.len() as u32);
        self.bytes(bytes);
    }

    // The ff before an item, unless it is the last of its node.
    pub(crate) fn ff(&mut self, last: bool)
        requires { HasRoom self.old (ff_length last) }
        ensures moved { Moved self.old self.new (ff_length last) }
        ensures front { written self.new ≡ ff_onto (written self.old) last }
    {
        if !last {
            self.byte(0xff);
        }
    }
}
