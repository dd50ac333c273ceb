//! The trees of Go's grammar, the grammar, and its laws.
#![tactic(auto)]

pub mod laws;
pub mod trees;
