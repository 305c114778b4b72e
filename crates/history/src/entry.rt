// What is recorded of a call: its answer, and the bytes that it wrote.
use dossier::refusal::Refusal;
use runs::report::{Row, Tally};

// Kept: an enum, as an answer's type differs from call to call, and entries of all calls stand in one list.
#[derive(Drop)]
pub enum Entry {
    Added(Result<(), Refusal>),
    Settled,
    Reopened,
    // the file
    Wrote(Result<Vec<u8>, Refusal>),
    Read(Result<Row, Refusal>),
    Tallied(Result<Tally, Refusal>),
    // the sheet
    Listed(Result<Vec<u8>, Refusal>),
    // the dossier did not take the call, and is as it was
    NotTaken,
}
