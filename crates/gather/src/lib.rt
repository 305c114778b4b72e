// Reading a proof file into the sorted tree of its claims.
#![tactic(auto)]

pub mod file;
mod node;
pub mod scan;
mod single;
pub mod trouble;
