//! The rows of statements, and the table of all places.
#![tactic(auto)]

pub mod arms;
pub mod clauses;
pub mod joints;
pub mod parts;
pub mod rows;
pub mod simples;
pub mod stmts;
pub mod table;
