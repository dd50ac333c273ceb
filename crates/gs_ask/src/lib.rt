//! The form of every rule of typing, a tree that asks for names, with what holds of all such rules; importers, which
//! answer what a rule asks; and what selection and method sets are.
#![tactic(auto)]

mod importer;
mod laws;
mod map_importer;
mod select;

pub use importer::{Found, Importer, Stop, Typed};
pub use laws::{calls, descriptions, each_rule, source_maps, two_rules, types, what_is_kept};
pub use map_importer::{Described, MapImporter};
pub use select::Selected;
