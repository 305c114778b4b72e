// Any list of calls on a new dossier, and the merge of several proofs as one call.
#![tactic(auto)]

pub mod call;
pub mod entry;
pub mod making;
pub mod merged;
pub mod merging;
pub mod phase;
