//! Tests of the number literals.
#![tactic(auto)]

#[cfg(test)]
mod numbers;
