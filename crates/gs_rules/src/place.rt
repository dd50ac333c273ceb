//! Places in a file, as they are shown.

/// A line and a column, both counted from 1. A line ends at LF, and a column counts bytes.
#[derive(Clone, Copy, Debug, PartialEq, Eq)]
pub struct Place {
    pub line: usize,
    pub column: usize,
}
