//! Tests of the parser: which texts it reads as one chunk, and that the tree it builds ends there too.
//!
//! Go's own parser was asked about each text of the tables. Where it answers otherwise, the text stands in a table
//! `UNLIKE`.
#![tactic(auto)]

#[cfg(test)]
mod chunks;
#[cfg(test)]
mod declarations;
#[cfg(test)]
mod expressions;
#[cfg(test)]
mod nesting;
#[cfg(test)]
mod readings;
#[cfg(test)]
mod statements;
#[cfg(test)]
mod types;
