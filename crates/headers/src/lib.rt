// Block headers: their parts and targets, and the run of headers that stands on a given hash.
#![tactic(auto)]

ghost use Rattle.headers.specs.Runs.{CoversTheLongestRun, MoreBytesExtendTheRun};

pub mod chain;
pub mod ending;
pub mod header;
pub mod run;
pub mod targets;

// A law: what is covered is the longest run from the first header on, in which every header is good.
#[tactic(auto, using(crate::proofs::Longest::covers_the_longest_run))]
pub fn covers_the_longest_run() -> u8
    ensures { CoversTheLongestRun }
{
    0
}

// A law: more bytes behind the headers never make the run shorter, and change none of its headers.
pub fn more_bytes_extend_the_run() -> u8
    ensures { MoreBytesExtendTheRun }
{
    0
}
