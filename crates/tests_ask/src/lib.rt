//! Tests of gs_ask.
#![tactic(auto)]

#[cfg(test)]
mod importers;
