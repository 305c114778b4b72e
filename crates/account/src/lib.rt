// What the program says of a proof: text, and nothing that reads or prints.
#![tactic(auto)]

pub mod commands;
pub mod lines;
pub mod refusals;
pub mod words;
