//! The number literals of Go: the longest one at the front of a text.
#![tactic(auto)]

mod digits;
mod float;
mod integer;
pub mod laws;
pub mod number;
