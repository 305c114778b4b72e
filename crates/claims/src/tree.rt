// The tree: a node has its attestations, ascending, then its branches, ascending, each an operation over the node below it.

// An operation with its argument. The variants stand in the order of their tags, which is the order of operations.
#[derive(PartialEq, Eq, PartialOrd, Ord, Drop)]
pub enum Operation {
    Sha256,
    Append(Vec<u8>),
    Prepend(Vec<u8>),
    Reverse,
    Hexlify,
}

// An attestation by what it says. Two are the same exactly when their tags and their heights, addresses or payloads are.
#[derive(Drop)]
pub enum Attestation {
    Pending(Vec<u8>),
    Bitcoin(u32),
    Unknown { tag: [u8; 8], payload: Vec<u8> },
}

// The attestations of a node. Parts that are moved need no memory, so two of these lists are united by a call that cannot fail.
pub type Marks = Option<Box<Mark>>;

#[cycle(marks)]
#[derive(Drop)]
pub struct Mark {
    pub attestation: Attestation,
    pub rest: Marks,
}

// The branches of a node.
pub type Branches = Option<Box<Branch>>;

#[cycle(branches)]
#[derive(Drop)]
pub struct Branch {
    pub operation: Operation,
    pub below: Node,
    pub rest: Branches,
}

#[cycle(branches)]
#[derive(Drop)]
pub struct Node {
    pub marks: Marks,
    pub branches: Branches,
}
