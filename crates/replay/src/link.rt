// A path, link by link.
use format::Kind;

// An operation with its argument, which is a part of the file that the path was read from. The kinds that take no
// argument pass over it.
#[derive(Clone, Copy)]
pub struct Link<'a> {
    pub kind: Kind,
    pub argument: &'a [u8],
}
