// What is reported of a merge and of a sheet, and the options of both: values and text, and nothing that reads files or prints.
#![tactic(auto)]

pub mod commands;
pub mod lines;
pub mod options;
pub mod requests;
