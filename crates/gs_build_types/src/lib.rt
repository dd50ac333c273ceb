//! Trees of types, built by the table of places.
#![tactic(auto)]

pub mod members;
pub mod params;
pub mod types;
