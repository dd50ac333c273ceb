//! Tests of the sources of a session and of the positions of a text, as tables.
#![tactic(auto)]

#[cfg(test)]
mod positions;
#[cfg(test)]
mod sources;
