//! The rows of expressions: which begin at a token, where they end and how deep they nest, from the rows behind it.
#![tactic(auto)]

pub mod lists;
pub mod operands;
pub mod rows;
