// What a dossier reports of the claims that it holds.
use judge::verdict::Verdict;

// A claim as a row: the tag of its attestation, how many operations lead to it, and its verdict.
#[derive(Clone, Copy, Debug, PartialEq, Eq)]
pub struct Row {
    pub tag: [u8; 8],
    pub operations: usize,
    pub verdict: Verdict,
}

// A confirmed time, in seconds since the beginning of 1970, and the row that has it.
#[derive(Clone, Copy, Debug, PartialEq, Eq)]
pub struct Date {
    pub time: u32,
    pub row: usize,
}

// The number of claims under each verdict, and the first date: the least time that is confirmed, and the lowest row that has it.
#[derive(Clone, Copy, Debug, Default, PartialEq, Eq)]
pub struct Tally {
    pub confirmed: usize,
    pub rejected: usize,
    pub waiting: usize,
    pub foreign: usize,
    pub date: Option<Date>,
}
