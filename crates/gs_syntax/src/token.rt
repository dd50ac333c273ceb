//! What a token is.

use crate::bytes::Bytes;
use crate::name::Name;
use crate::whole::Whole;

/// A place in a text: where it begins and how long it is, in bytes.
#[derive(Clone, Copy, Debug, PartialEq, Eq)]
pub struct Span {
    pub offset: u32,
    pub length: u32,
}

/// A token, and where it stands. It takes 32 bytes: a text has a token for every four bytes or so.
#[derive(Debug, Drop)]
pub struct Token {
    pub kind: TokenKind,
    pub span: Span,
}

/// What a token is (Go specification, "Tokens").
#[derive(Debug, Drop)]
pub enum TokenKind {
    Identifier(Name),
    Keyword(Keyword),
    Operator(Operator),
    /// An integer literal, with its value where that is at most 2^127 - 1.
    Integer(Whole),
    Float,
    Imaginary,
    /// A rune literal, with its code.
    Rune(u32),
    /// A string literal, with the bytes of its value.
    Text(Bytes),
    /// What is no token of the language.
    Bad,
    /// A semicolon that is inserted at the end of a line. Its length is 0.
    Inserted,
}

/// Go specification, "Keywords".
#[derive(Clone, Copy, Debug, PartialEq, Eq)]
pub enum Keyword {
    Break,
    Case,
    Chan,
    Const,
    Continue,
    Default,
    Defer,
    Else,
    Fallthrough,
    For,
    Func,
    Go,
    Goto,
    If,
    Import,
    Interface,
    Map,
    Package,
    Range,
    Return,
    Select,
    Struct,
    Switch,
    Type,
    Var,
}

/// Go specification, "Operators and punctuation".
#[derive(Clone, Copy, Debug, PartialEq, Eq)]
pub enum Operator {
    Plus,
    Minus,
    Star,
    Slash,
    Percent,
    And,
    Or,
    Caret,
    ShiftLeft,
    ShiftRight,
    AndNot,
    PlusAssign,
    MinusAssign,
    StarAssign,
    SlashAssign,
    PercentAssign,
    AndAssign,
    OrAssign,
    CaretAssign,
    ShiftLeftAssign,
    ShiftRightAssign,
    AndNotAssign,
    LogicalAnd,
    LogicalOr,
    Arrow,
    Increment,
    Decrement,
    Equal,
    Less,
    Greater,
    Assign,
    Not,
    NotEqual,
    LessEqual,
    GreaterEqual,
    Define,
    Ellipsis,
    LeftParen,
    RightParen,
    LeftBracket,
    RightBracket,
    LeftBrace,
    RightBrace,
    Comma,
    Semicolon,
    Dot,
    Colon,
}
