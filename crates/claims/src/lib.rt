// Sets of claims held as sorted trees.
#![tactic(auto)]

pub mod order;
pub mod size;
pub mod tree;
pub mod union;
