//! What a token of a file of constants and variables is.

ghost use Rattle.std.specs.Prelude.{◌≡◌};
ghost use Rattle.std.specs.List.{list_all};
ghost use Rattle.std.specs.Option.{option_copied};
ghost use Rattle.gs_syntax.specs.Chunks as chunk;
ghost use Rattle.gs_rules.specs.Trees as tree;
ghost use Rattle.goserve.specs.FirstForm as spec;

use crate::part::part;
use gs_syntax::token::{Keyword, Operator, Token, TokenKind};

/// Whether a token is a semicolon, written or inserted.
pub fn is_semicolon(kind: &TokenKind) -> bool
    ensures { result ≡ chunk.is_semicolon kind.now }
{
    matches!(
        kind,
        TokenKind::Operator(Operator::Semicolon) | TokenKind::Inserted
    )
}

/// Whether a token is the keyword `const`.
pub fn is_const(kind: &TokenKind) -> bool
    ensures { result ≡ tree.is_const kind.now }
{
    matches!(kind, TokenKind::Keyword(Keyword::Const))
}

/// Whether a token is the keyword `var`.
pub fn is_var(kind: &TokenKind) -> bool
    ensures { result ≡ tree.is_var kind.now }
{
    matches!(kind, TokenKind::Keyword(Keyword::Var))
}

/// Whether a token is `=`.
pub fn is_assign(kind: &TokenKind) -> bool
    ensures { result ≡ tree.is_assign kind.now }
{
    matches!(kind, TokenKind::Operator(Operator::Assign))
}

/// Whether a token is an identifier.
pub fn is_name(kind: &TokenKind) -> bool
    ensures { result ≡ tree.is_name kind.now }
{
    matches!(kind, TokenKind::Identifier(_))
}

/// The name that an identifier is.
pub fn name_of(kind: &TokenKind) -> Option<&str>
    ensures { option_copied result ≡ tree.name_of kind.entry.now }
{
    match kind {
        TokenKind::Identifier(name) => Some(name.as_str()),
        _ => None,
    }
}

fn is_digit(b: u8) -> bool
    ensures { result ≡ spec.is_digit b }
{
    b >= 48 && b <= 57
}

fn are_digits(bytes: &[u8]) -> bool
    ensures { result ≡ list_all spec.is_digit bytes.now }
{
    for b in bytes {
        if !is_digit(*b) {
            return false;
        }
    }
    true
}

/// Whether these bytes are `0`, or at most 18 decimal digits of which the first is not `0`.
fn is_small_number(bytes: &[u8]) -> bool
    ensures { result ≡ spec.is_small_number bytes.now }
{
    match bytes.split_first() {
        None => false,
        Some((first, rest)) => {
            are_digits(bytes) && (rest.len() < 18 && (48 < *first || rest.len() == 0))
        }
    }
}

fn is_plain_word(word: Keyword) -> bool
    ensures { result ≡ spec.is_plain_word word }
{
    matches!(word, Keyword::Package | Keyword::Const | Keyword::Var)
}

fn is_plain_operator(operator: Operator) -> bool
    ensures { result ≡ spec.is_plain_operator operator }
{
    matches!(operator, Operator::Assign | Operator::Semicolon)
}

/// Whether a token of this kind, with these bytes, is one of the first form.
fn is_plain_kind(kind: &TokenKind, bytes: &[u8]) -> bool
    ensures { result ≡ spec.is_plain_kind kind.now bytes.now }
{
    match kind {
        TokenKind::Identifier(_) | TokenKind::Inserted => true,
        TokenKind::Keyword(word) => is_plain_word(*word),
        TokenKind::Operator(operator) => is_plain_operator(*operator),
        TokenKind::Integer(_) => is_small_number(bytes),
        TokenKind::Float
        | TokenKind::Imaginary
        | TokenKind::Rune(_)
        | TokenKind::Text(_)
        | TokenKind::Bad => false,
    }
}

/// Whether a token of an input is one of the first form.
pub fn is_plain(input: &[u8], token: &Token) -> bool
    ensures { result ≡ spec.is_plain input.now token.now }
{
    let from = token.span.offset as usize;
    let to = from + token.span.length as usize;
    is_plain_kind(&token.kind, part(input, from, to))
}
