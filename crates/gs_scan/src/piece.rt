//! A piece of the text: what stands between tokens, or a token.

use gs_syntax::token::TokenKind;

#[derive(Debug, Drop)]
pub enum Piece {
    /// A separator, or a comment that counts as one.
    Blank,
    /// The end of a line, or a comment that counts as one.
    LineEnd,
    Token(TokenKind),
}
