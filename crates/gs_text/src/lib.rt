//! What the texts of a session are: shared bytes, the files that a path names, and the positions of a text.
#![tactic(auto)]

mod blob;
mod files;
mod laws;
mod lines;
mod position;
mod sources;

pub use blob::Blob;
pub use files::Files;
pub use laws::{
    line_end_is_one_place, lines_end_with_text, offset_comes_back, offset_is_last_fit,
    offsets_rise, positions_rise,
};
pub use lines::Lines;
pub use position::{Pos, PosUnit};
pub use sources::Sources;
