// What a judge says of a claim.

// A confirmed claim has the time of its confirmation, in seconds since the beginning of 1970.
#[derive(Clone, Copy, Debug, PartialEq, Eq)]
pub enum Verdict {
    Confirmed(u32),
    Rejected,
    Waiting,
    // the judge does not own the claim's tag
    Foreign,
}
