//! Trees two at a time, in boxes and in lists. A builder that goes by these holds no tree that it may have to let go.
#![tactic(auto)]

pub mod boxes;
pub mod lists;
pub mod nodes;
pub mod pairs;
