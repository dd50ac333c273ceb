//! The tree of a file.
#![tactic(auto)]

mod look;
pub mod parse;
