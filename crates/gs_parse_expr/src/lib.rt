//! What stands at a place of a list of tokens.
#![tactic(auto)]

pub mod at;
