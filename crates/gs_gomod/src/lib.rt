//! What a go.mod file says: its module, and what replaces which module.
#![tactic(auto)]

mod form;
mod read;
mod word;

pub use read::{Mod, ModFault, read_mod};
