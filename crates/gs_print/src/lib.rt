//! How types and declarations are written for a reader.
#![tactic(auto)]

mod hover;
mod piece;
mod text;

pub use hover::hover_text;
pub use text::{after_name_text, term_text};
