//! Go's types as values, constants and descriptions of declarations, when two types are identical,
//! what constant operators give, and the names that every program knows.
#![tactic(auto)]

mod constant;
mod copy;
mod identity;
mod kinds;
mod predeclared;
mod sig;
mod symbol;
mod term;

pub use constant::{const_op, constant_law};
pub use identity::{identical, identity_law, same_symbol};
pub use kinds::{Basic, ConstFault, Dir, Kind, Op, SigKind};
pub use predeclared::{Builtin, Known, error_sig, error_symbol, is_error, universe, universe_law};
pub use sig::{Sig, Value};
pub use symbol::{Place, Symbol};
pub use term::{FieldTerm, Method, Node, Term};
