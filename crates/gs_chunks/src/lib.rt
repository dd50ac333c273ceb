//! What the form of a file is: which chunks it has, the docs of what they declare, and the faults of those that it may not
//! have. Trees are not built here: who wants them says how to look at a chunk.
#![tactic(auto)]

pub mod docs;
pub mod faults;
pub mod judge;
pub mod laws;
pub mod look;
mod part;
mod stage;
mod starts;
pub mod text;
