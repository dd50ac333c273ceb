//! Trees of simple statements, headers, arms and clauses, built by the table of places.
#![tactic(auto)]

pub mod arms;
pub mod clauses;
pub mod parts;
pub mod simples;
