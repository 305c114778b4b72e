// Judges: what they are, and those that are delivered.
#![tactic(auto)]

ghost use Rattle.judge.specs.Listing.{LinesSplitTheText, ListedMeansALine};
ghost use Rattle.judge.specs.Lasting.{DecisionsLast};
ghost use Rattle.judge.specs.Meaning.{PairingIsAssociative, NobodyChangesNothing};

pub mod any_judge;
pub mod calendar_judge;
pub mod choice;
pub mod header_judge;
pub mod judge;
pub mod nobody;
pub mod pair;
pub mod verdict;

// A law: how pairs are nested makes no difference to a verdict, only the order of the judges does.
pub fn pairing_is_associative() -> u8
    ensures { PairingIsAssociative }
{
    0
}

// A law: a judge that owns nothing changes no verdict, on either side of a pair.
pub fn nobody_changes_nothing() -> u8
    ensures { NobodyChangesNothing }
{
    0
}

// A law: headers that follow never change a confirmed or a rejected verdict.
#[tactic(auto, using(crate::proofs::Decided::decisions_last))]
pub fn decisions_last() -> u8
    ensures { DecisionsLast }
{
    0
}

// A law: the lines of a text, with 0a between them, are the text again, and no line has a 0a in it.
pub fn lines_split_the_text() -> u8
    ensures { LinesSplitTheText }
{
    0
}

// A law: an address is listed exactly when it is not empty and equals some line of the text.
#[tactic(auto, using(crate::proofs::Lines::listed_means_a_line))]
pub fn listed_means_a_line() -> u8
    ensures { ListedMeansALine }
{
    0
}
