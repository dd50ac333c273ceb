//! Where the tree of a chunk ends, told from the table of places: no tree is built.
#![tactic(auto)]

pub mod end;
pub mod parsed;
