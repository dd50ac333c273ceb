//! Trees of operands and of what follows them, built by the table of places.
#![tactic(auto)]

pub mod literals;
pub mod operands;
pub mod suffixes;
