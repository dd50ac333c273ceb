//! The table of places: for each place of a list of tokens, which forms begin there, where they end and how deep they nest.
//!
//! What reads a form is inlined into the row of its place, here and in the crates of the rows: a call would pass each end by
//! memory, and a row asks for hundreds.
#![tactic(auto)]

pub mod at;
pub mod classes;
pub mod front;
pub mod place;
pub mod rest;
