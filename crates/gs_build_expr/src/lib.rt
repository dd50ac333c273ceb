//! Trees of expressions, built by the table of places.
#![tactic(auto)]

pub mod elements;
pub mod exprs;
