// Sets of claims held as sorted trees: order, union, size and the written file, and their laws.
#![tactic(auto)]

ghost use Rattle.claim_trees.specs.Tree.{ClaimsAreListed};
ghost use Rattle.claim_trees.specs.Order.{OrderLaw};
ghost use Rattle.claim_trees.specs.Laws.{UnionLaw, UniqueLaw, NumberLaw, WrittenLaw, CanonicalLaw};
ghost use Rattle.claim_trees.specs.Size.{SizeLaw};
ghost use Rattle.claim_trees.specs.Onto.{OntoLaw};
ghost use Rattle.claim_trees.specs.Examples.{Examples};

// Law: the claims in written order are exactly those of the node.
pub fn claims_are_listed() -> u8
    ensures { ClaimsAreListed }
{
    0
}

// Law: the orders are strict and total, and the claims of a sorted tree ascend as they are written.
pub fn order_is_total() -> u8
    ensures { OrderLaw }
{
    0
}

// Law: a claim is in the union exactly where it is in one of the two; union commutes, associates and repeats nothing.
pub fn union_is_exact() -> u8
    ensures { UnionLaw }
{
    0
}

// Law: a set of claims has one lawful tree.
pub fn tree_is_unique() -> u8
    ensures { UniqueLaw }
{
    0
}

// Law: the counts over a tree, and over two walked together, are the size of the set of claims; a set has one size.
pub fn size_is_counted() -> u8
    ensures { SizeLaw }
{
    0
}

// Law: a number in shortest form is read back, and no other bytes that say it are fewer.
pub fn shortest_is_least() -> u8
    ensures { NumberLaw }
{
    0
}

// Law: a written file is read back with its digest and exactly its claims, and never passes its bound.
pub fn written_is_read() -> u8
    ensures { WrittenLaw }
{
    0
}

// Law: the written file is the canonical one, and two are equal exactly where digest and claims agree.
pub fn written_is_canonical() -> u8
    ensures { CanonicalLaw }
{
    0
}

// Law: bytes put one behind another are those that are defined, and as many.
pub fn bytes_are_put() -> u8
    ensures { OntoLaw }
{
    0
}

// Law: the files to try.
pub fn examples_hold() -> u8
    ensures { Examples }
{
    0
}
