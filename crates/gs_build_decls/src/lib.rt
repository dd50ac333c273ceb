//! Trees of declarations and chunks, built by the table of places.
#![tactic(auto)]

pub mod chunks;
pub mod conditions;
pub mod decls;
pub mod groups;
