//! The trees that stand at a place: where the builders come together.
#![tactic(auto)]

pub mod knot;
pub mod want;
pub mod whole;
