//! What the builders of trees share: the pieces that they give, the maker that they are given, tokens, names and lists.
#![tactic(auto)]

pub mod copies;
pub mod front;
pub mod here;
pub mod maker;
pub mod names;
pub mod parts;
pub mod pieces;
