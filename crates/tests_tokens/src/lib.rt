//! Tests of the scanner.
#![tactic(auto)]

#[cfg(test)]
mod tokens;
