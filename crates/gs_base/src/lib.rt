//! What every crate speaks of: want of memory, and a text that contracts see as its bytes.
#![tactic(auto)]

mod memory;
mod text;

pub use memory::{Mem, NoMemory};
pub use text::Text;
