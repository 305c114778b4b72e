// The dossier: it takes the proofs of one record, holds exactly their claims, and writes and reports them.
#![tactic(auto)]

mod adding;
pub mod phases;
pub mod refusal;
mod reporting;
mod sheeting;
mod writing;
