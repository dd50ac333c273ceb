//! The rules of the language: what the parts of a file declare, and which faults it has.
#![tactic(auto)]

pub mod fault;
pub mod place;
