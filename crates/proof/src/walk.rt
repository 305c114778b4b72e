// A walk over a proof file: one item after another, each with its depth, without allocating.
use crate::head::Head;
use crate::item::Item;
use crate::levels::Levels;
use crate::reader::Reader;

// Where a walk stands: in a node under these levels, over a message of `size` bytes; or, with no size, behind the top node.
#[derive(Drop)]
pub struct Walk<'a> {
    pub(crate) reader: Reader<'a>,
    pub(crate) head: Head<'a>,
    pub(crate) levels: Levels,
    pub(crate) size: Option<u16>,
}

// An item with the number of operations above it.
#[derive(Clone, Copy)]
pub struct Step<'a> {
    pub depth: u8,
    pub item: Item<'a>,
}
