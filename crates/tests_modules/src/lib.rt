//! Tests of the crates that know modules and packages, as tables.
#![tactic(auto)]

#[cfg(test)]
mod gomod;
