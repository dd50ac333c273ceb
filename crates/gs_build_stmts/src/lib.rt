//! Trees of statements, built by the table of places.
#![tactic(auto)]

pub mod blocks;
pub mod here;
pub mod stmts;
