// The reader of proof files.
#![tactic(auto)]

pub mod attestations;
pub mod counts;
pub mod fault;
pub mod head;
pub mod item;
pub mod items;
mod levels;
pub mod numbers;
pub mod operations;
pub mod reader;
pub mod steps;
pub mod walk;
