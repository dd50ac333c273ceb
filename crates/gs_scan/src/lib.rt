//! The scanner: the tokens of a Go text, where its line comments begin, and the chunks that the tokens are cut into.
#![tactic(auto)]

mod blank;
pub mod chunk;
mod class;
mod escape;
mod front;
pub mod laws;
mod mark;
mod piece;
mod quoted;
mod rune;
pub mod scan;
mod step;
mod word;
