//! The tokens of a Go text: their types, and what they are.
#![tactic(auto)]

pub mod bytes;
pub mod laws;
pub mod name;
pub mod token;
pub mod whole;
