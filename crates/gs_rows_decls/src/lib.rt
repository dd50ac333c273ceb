//! The rows of declarations and chunks: which begin at a token, where they end and how deep they nest, from the rows behind it.
#![tactic(auto)]

pub mod chunks;
pub mod decls;
pub mod groups;
