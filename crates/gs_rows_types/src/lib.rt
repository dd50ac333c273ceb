//! The rows of types: which begin at a token, where they end and how deep they nest, from the rows behind it.
#![tactic(auto)]

pub mod members;
pub mod params;
pub mod rows;
pub mod types;
