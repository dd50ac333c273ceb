//! Tests of types, constants and their texts.
#![tactic(auto)]

#[cfg(test)]
mod constants;
#[cfg(test)]
mod identity;
#[cfg(test)]
mod notation;
#[cfg(test)]
mod table;
#[cfg(test)]
mod texts;
