// Scripts of calls: what a line asks for, and the text of what is answered; nothing here reads files or prints.
#![tactic(auto)]

pub mod answers;
pub mod line;
pub mod sizes;
pub mod words;
