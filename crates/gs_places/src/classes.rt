//! The classes of tokens that the rules of the grammar name.
ghost use Rattle.std.specs.Prelude.{◌≡◌};
ghost use Rattle.gs_grammar.specs.Front as spec;

use gs_syntax::token::{Keyword, Operator, TokenKind};

#[inline(always)]
pub fn is_basic(kind: &TokenKind) -> bool
    ensures { result ≡ spec.is_basic kind.now }
{
    match kind {
        TokenKind::Integer(_)
        | TokenKind::Float
        | TokenKind::Imaginary
        | TokenKind::Rune(_)
        | TokenKind::Text(_) => true,
        _ => false,
    }
}

#[inline(always)]
pub fn is_semi(kind: &TokenKind) -> bool
    ensures { result ≡ spec.is_semi kind.now }
{
    match kind {
        TokenKind::Operator(Operator::Semicolon) | TokenKind::Inserted => true,
        _ => false,
    }
}

#[inline(always)]
pub fn is_sign(kind: &TokenKind) -> bool
    ensures { result ≡ spec.is_sign kind.now }
{
    match kind {
        TokenKind::Operator(Operator::Plus)
        | TokenKind::Operator(Operator::Minus)
        | TokenKind::Operator(Operator::Not)
        | TokenKind::Operator(Operator::Caret)
        | TokenKind::Operator(Operator::And) => true,
        _ => false,
    }
}

#[inline(always)]
pub fn is_update(kind: &TokenKind) -> bool
    ensures { result ≡ spec.is_update kind.now }
{
    match kind {
        TokenKind::Operator(Operator::PlusAssign)
        | TokenKind::Operator(Operator::MinusAssign)
        | TokenKind::Operator(Operator::StarAssign)
        | TokenKind::Operator(Operator::SlashAssign)
        | TokenKind::Operator(Operator::PercentAssign)
        | TokenKind::Operator(Operator::AndAssign)
        | TokenKind::Operator(Operator::OrAssign)
        | TokenKind::Operator(Operator::CaretAssign)
        | TokenKind::Operator(Operator::ShiftLeftAssign)
        | TokenKind::Operator(Operator::ShiftRightAssign)
        | TokenKind::Operator(Operator::AndNotAssign) => true,
        _ => false,
    }
}

#[inline(always)]
pub fn is_step(kind: &TokenKind) -> bool
    ensures { result ≡ spec.is_step kind.now }
{
    match kind {
        TokenKind::Operator(Operator::Increment) | TokenKind::Operator(Operator::Decrement) => true,
        _ => false,
    }
}

#[inline(always)]
pub fn is_goes_on(kind: &TokenKind) -> bool
    ensures { result ≡ spec.is_goes_on kind.now }
{
    match kind {
        TokenKind::Operator(Operator::Comma)
        | TokenKind::Operator(Operator::Assign)
        | TokenKind::Operator(Operator::Define)
        | TokenKind::Operator(Operator::Arrow) => true,
        _ => is_step(kind) || is_update(kind),
    }
}

#[inline(always)]
pub fn is_stop(kind: &TokenKind) -> bool
    ensures { result ≡ spec.is_stop kind.now }
{
    match kind {
        TokenKind::Operator(Operator::Comma) | TokenKind::Operator(Operator::RightParen) => true,
        _ => false,
    }
}

#[inline(always)]
pub fn is_stmt_end(kind: &TokenKind) -> bool
    ensures { result ≡ spec.is_stmt_end kind.now }
{
    match kind {
        TokenKind::Operator(Operator::Semicolon)
        | TokenKind::Operator(Operator::RightBrace)
        | TokenKind::Inserted => true,
        _ => false,
    }
}

#[inline(always)]
pub fn is_field_end(kind: &TokenKind) -> bool
    ensures { result ≡ spec.is_field_end kind.now }
{
    match kind {
        TokenKind::Operator(Operator::Semicolon)
        | TokenKind::Operator(Operator::RightBrace)
        | TokenKind::Inserted => true,
        _ => false,
    }
}

#[inline(always)]
pub fn is_embed_end(kind: &TokenKind) -> bool
    ensures { result ≡ spec.is_embed_end kind.now }
{
    match kind {
        TokenKind::Text(_)
        | TokenKind::Operator(Operator::Semicolon)
        | TokenKind::Operator(Operator::RightBrace)
        | TokenKind::Inserted => true,
        _ => false,
    }
}

#[inline(always)]
pub fn is_spec_end(kind: &TokenKind) -> bool
    ensures { result ≡ spec.is_spec_end kind.now }
{
    match kind {
        TokenKind::Operator(Operator::Semicolon)
        | TokenKind::Operator(Operator::RightParen)
        | TokenKind::Inserted => true,
        _ => false,
    }
}

#[inline(always)]
pub fn is_bound_end(kind: &TokenKind) -> bool
    ensures { result ≡ spec.is_bound_end kind.now }
{
    match kind {
        TokenKind::Operator(Operator::Colon) | TokenKind::Operator(Operator::RightBracket) => true,
        _ => false,
    }
}

#[inline(always)]
pub fn is_list_end(kind: &TokenKind) -> bool
    ensures { result ≡ spec.is_list_end kind.now }
{
    match kind {
        TokenKind::Operator(Operator::RightBrace)
        | TokenKind::Keyword(Keyword::Case)
        | TokenKind::Keyword(Keyword::Default) => true,
        _ => false,
    }
}

#[inline(always)]
pub fn is_composite_start(kind: &TokenKind) -> bool
    ensures { result ≡ spec.is_composite_start kind.now }
{
    match kind {
        TokenKind::Operator(Operator::LeftBracket)
        | TokenKind::Keyword(Keyword::Map)
        | TokenKind::Keyword(Keyword::Struct) => true,
        _ => false,
    }
}

#[inline(always)]
pub fn is_other_start(kind: &TokenKind) -> bool
    ensures { result ≡ spec.is_other_start kind.now }
{
    match kind {
        TokenKind::Keyword(Keyword::Chan) | TokenKind::Keyword(Keyword::Interface) => true,
        _ => false,
    }
}

#[inline(always)]
pub fn is_decl_start(kind: &TokenKind) -> bool
    ensures { result ≡ spec.is_decl_start kind.now }
{
    match kind {
        TokenKind::Keyword(Keyword::Const)
        | TokenKind::Keyword(Keyword::Type)
        | TokenKind::Keyword(Keyword::Var) => true,
        _ => false,
    }
}

/// The precedence of a binary operator, 0 for the tightest.
#[inline(always)]
pub fn binary_level(kind: &TokenKind) -> Option<u8>
    ensures { result ≡ spec.binary_level kind.now }
{
    match kind {
        TokenKind::Operator(Operator::Star)
        | TokenKind::Operator(Operator::Slash)
        | TokenKind::Operator(Operator::Percent)
        | TokenKind::Operator(Operator::ShiftLeft)
        | TokenKind::Operator(Operator::ShiftRight)
        | TokenKind::Operator(Operator::And)
        | TokenKind::Operator(Operator::AndNot) => Some(0),
        TokenKind::Operator(Operator::Plus)
        | TokenKind::Operator(Operator::Minus)
        | TokenKind::Operator(Operator::Or)
        | TokenKind::Operator(Operator::Caret) => Some(1),
        TokenKind::Operator(Operator::Equal)
        | TokenKind::Operator(Operator::NotEqual)
        | TokenKind::Operator(Operator::Less)
        | TokenKind::Operator(Operator::LessEqual)
        | TokenKind::Operator(Operator::Greater)
        | TokenKind::Operator(Operator::GreaterEqual) => Some(2),
        TokenKind::Operator(Operator::LogicalAnd) => Some(3),
        TokenKind::Operator(Operator::LogicalOr) => Some(4),
        _ => None,
    }
}

/// Whether the token is a binary operator of this precedence.
#[inline(always)]
pub fn is_binary(level: u8, kind: &TokenKind) -> bool
    ensures { result ≡ spec.is_binary level kind.now }
{
    match binary_level(kind) {
        Some(found) => found == level,
        None => false,
    }
}
