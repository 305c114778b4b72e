// The bytes of a tree of claims: first how many they are, then written into a lent area.
#![tactic(auto)]

pub mod file;
mod items;
mod lengths;
mod nodes;
pub mod payload;
pub mod writer;
