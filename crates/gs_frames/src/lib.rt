//! Frames of the Language Server Protocol 3.17, "Base Protocol": a stream of bytes, in whatever
//! pieces it comes, is cut into the bodies of its messages.
#![tactic(auto)]

mod field;
mod framer;
mod front;
mod header;
pub mod laws;
mod write;

pub use framer::{Framer, Next};
pub use write::frame;
