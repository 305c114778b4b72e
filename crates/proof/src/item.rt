// What a node is made of. Arguments and payloads are lent from the file itself.
use format::Kind;

// An item, with the offset of its tag and the offset of its argument or payload. A padded length lies
// between the two, so neither follows from the other.
#[derive(Clone, Copy)]
pub enum Item<'a> {
    Operation {
        kind: Kind,
        argument: &'a [u8],
        offset: usize,
        first: usize,
    },
    Attestation {
        content: Content<'a>,
        payload: &'a [u8],
        offset: usize,
        first: usize,
    },
}

// What an attestation says: a calendar's address, a block's height, or a tag that is not known here.
#[derive(Clone, Copy)]
pub enum Content<'a> {
    Pending(&'a [u8]),
    Bitcoin(u32),
    Unknown { tag: &'a [u8], payload: &'a [u8] },
}
