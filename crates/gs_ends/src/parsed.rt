//! The answer of a parser.

/// The longest tree that begins at a place and the place behind it, that none begins there, that it nests deeper than 200, or
/// that no memory was left to say.
#[derive(Drop)]
pub enum Parsed<T> {
    Tree(T, u32),
    None,
    TooDeep,
    NoMemory,
}
