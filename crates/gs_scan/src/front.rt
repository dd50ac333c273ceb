//! What stands at the front of a text.
ghost use Rattle.std.specs.Prelude.{◌≡◌, ◌<◌, ◌≤◌, ◌∷◌, length, drop, slice_index, IfOk, IsTrue, IsUtf8};
ghost use Rattle.std.specs.Str.{IsCharBoundary};
ghost use Rattle.gs_syntax.specs.Spelling.{StandsAt};
ghost use Rattle.gs_numbers.specs.Spelling.{IsLongestNumber};
ghost use Rattle.gs_scan.specs.Pieces as pieces;
ghost use Rattle.gs_scan.specs.Pieces.{lexeme_of};
ghost use Rattle.gs_scan.specs.Reading as spec;
ghost use Rattle.gs_scan.specs.Reading.{BeginsWithLetter, IsWordClass, OnlyMarks};

use crate::blank::{comment_end, has_line, len_until};
use crate::class::{Class, class_of};
use crate::mark::{byte_at, operator_at};
use crate::piece::Piece;
use crate::quoted::{raw_at, text_at};
use crate::rune::rune_at;
use crate::word::{is_letter, keyword_of, word_len};
use gs_base::Mem;
use gs_numbers::number::{Number, number_at};
use gs_syntax::name::Name;
use gs_syntax::token::TokenKind;
use gs_syntax::whole::Whole;
use std::alloc::Global;

/// The identifier or the keyword at the front, and its length.
fn word_at(alloc: Global, rest: &str) -> Mem<(Piece, usize)>
    requires letter { BeginsWithLetter rest.now }
    requires class { IsWordClass (spec.class_of (slice_index rest.now 0)) }
    ensures stands { IfOk result (λ r. StandsAt rest.now (lexeme_of r.0) r.1) }
    ensures boundary { IfOk result (λ r. IsCharBoundary rest.now r.1) }
{
    let len = word_len(rest);
    let (word, _) = rest.split_at(len);
    match keyword_of(word.as_bytes()) {
        Some(keyword) => Ok((Piece::Token(TokenKind::Keyword(keyword)), len)),
        None => {
            let name = Name::front(alloc, rest, len)?;
            Ok((Piece::Token(TokenKind::Identifier(name)), len))
        }
    }
}

/// The operator at the front, or the character.
fn mark_at(rest: &str) -> (Piece, usize)
    requires { OnlyMarks rest.now }
    ensures stands { StandsAt rest.now (lexeme_of result.0) result.1 }
    ensures boundary { IsCharBoundary rest.now result.1 }
{
    let bytes = rest.as_bytes();
    match operator_at(byte_at(bytes, 0), byte_at(bytes, 1), byte_at(bytes, 2)) {
        Some((operator, len)) => (Piece::Token(TokenKind::Operator(operator)), len),
        None => (Piece::Token(TokenKind::Bad), 1),
    }
}

/// The token of a number.
fn kind_of(alloc: Global, number: Number) -> Mem<TokenKind>
    ensures { IfOk result (λ kind. kind ≡ pieces.kind_of number) }
{
    match number {
        Number::Integer(value) => Ok(TokenKind::Integer(Whole::new(alloc, value)?)),
        Number::Float => Ok(TokenKind::Float),
        Number::Imaginary => Ok(TokenKind::Imaginary),
    }
}

/// The number of `len` bytes at the front, spoiled where a letter or a digit follows it.
fn counted_at(alloc: Global, rest: &str, number: Number, len: usize) -> Mem<(Piece, usize)>
    requires begins { IsTrue (spec.is_number_class (spec.class_of (slice_index rest.now 0))) }
    requires longest { IsLongestNumber rest.now number len }
    ensures stands { IfOk result (λ r. StandsAt rest.now (lexeme_of r.0) r.1) }
    ensures boundary { IfOk result (λ r. IsCharBoundary rest.now r.1) }
{
    let (_, after) = rest.split_at(len);
    let more = word_len(after);
    if more == 0 {
        let kind = kind_of(alloc, number)?;
        Ok((Piece::Token(kind), len))
    } else {
        Ok((Piece::Token(TokenKind::Bad), len + more))
    }
}

/// What begins with a digit or a point: a number, or an operator.
fn digit_at(alloc: Global, rest: &str) -> Mem<(Piece, usize)>
    requires { IsTrue (spec.is_number_class (spec.class_of (slice_index rest.now 0))) }
    ensures stands { IfOk result (λ r. StandsAt rest.now (lexeme_of r.0) r.1) }
    ensures boundary { IfOk result (λ r. IsCharBoundary rest.now r.1) }
{
    match number_at(rest.as_bytes()) {
        Some((number, len)) => counted_at(alloc, rest, number, len),
        None => Ok(mark_at(rest)),
    }
}

/// What begins with a character past ASCII.
fn wide_at(alloc: Global, rest: &str) -> Mem<(Piece, usize)>
    requires { spec.class_of (slice_index rest.now 0) ≡ Class.Wide }
    ensures stands { IfOk result (λ r. StandsAt rest.now (lexeme_of r.0) r.1) }
    ensures boundary { IfOk result (λ r. IsCharBoundary rest.now r.1) }
{
    let mut chars = rest.chars();
    let Some(c) = chars.next() else {
        unreachable!();
    };
    if is_letter(c) {
        word_at(alloc, rest)
    } else {
        Ok((Piece::Token(TokenKind::Bad), c.len_utf8()))
    }
}

/// What begins with a slash: a comment or an operator.
fn slash_at(rest: &str) -> (Piece, usize)
    requires { spec.class_of (slice_index rest.now 0) ≡ Class.Slash }
    ensures stands { StandsAt rest.now (lexeme_of result.0) result.1 }
    ensures boundary { IsCharBoundary rest.now result.1 }
{
    let bytes = rest.as_bytes();
    let second = byte_at(bytes, 1);
    if second == b'/' {
        return (Piece::Blank, len_until(bytes, b'\n'));
    }
    if second == b'*' {
        return comment_at(bytes);
    }
    mark_at(rest)
}

/// A comment that begins with `/*`.
fn comment_at(bytes: &[u8]) -> (Piece, usize)
    requires begins { 2 ≤ length bytes.now }
    requires whole { bytes.now ≡ 47 ∷ 42 ∷ drop 2 bytes.now }
    ensures stands { StandsAt bytes.now (lexeme_of result.0) result.1 }
    ensures boundary { IsUtf8 bytes.now → IsCharBoundary bytes.now result.1 }
{
    let (_, inside) = bytes.split_at(2);
    let Some(end) = comment_end(inside) else {
        return (Piece::Token(TokenKind::Bad), bytes.len());
    };
    let len = 2 + end;
    let (comment, _) = bytes.split_at(len);
    if has_line(comment) {
        (Piece::LineEnd, len)
    } else {
        (Piece::Blank, len)
    }
}

/// The string at the front, or what a quote spoils.
fn text_quoted_at(alloc: Global, rest: &str) -> Mem<(Piece, usize)>
    requires { spec.class_of (slice_index rest.now 0) ≡ Class.Quote }
    ensures stands { IfOk result (λ r. StandsAt rest.now (lexeme_of r.0) r.1) }
    ensures boundary { IfOk result (λ r. IsCharBoundary rest.now r.1) }
{
    let bytes = rest.as_bytes();
    match text_at(alloc, bytes)? {
        Some((value, len)) => Ok((Piece::Token(TokenKind::Text(value)), len)),
        None => Ok((Piece::Token(TokenKind::Bad), len_until(bytes, b'\n'))),
    }
}

/// The raw string at the front, or what nothing closes.
fn raw_quoted_at(alloc: Global, rest: &str) -> Mem<(Piece, usize)>
    requires { spec.class_of (slice_index rest.now 0) ≡ Class.BackQuote }
    ensures stands { IfOk result (λ r. StandsAt rest.now (lexeme_of r.0) r.1) }
    ensures boundary { IfOk result (λ r. IsCharBoundary rest.now r.1) }
{
    let bytes = rest.as_bytes();
    match raw_at(alloc, bytes)? {
        Some((value, len)) => Ok((Piece::Token(TokenKind::Text(value)), len)),
        None => Ok((Piece::Token(TokenKind::Bad), bytes.len())),
    }
}

/// The rune at the front, or what a quote spoils.
fn rune_quoted_at(rest: &str) -> (Piece, usize)
    requires { spec.class_of (slice_index rest.now 0) ≡ Class.Apostrophe }
    ensures stands { StandsAt rest.now (lexeme_of result.0) result.1 }
    ensures boundary { IsCharBoundary rest.now result.1 }
{
    match rune_at(rest) {
        Some((code, len)) => (Piece::Token(TokenKind::Rune(code)), len),
        None => (
            Piece::Token(TokenKind::Bad),
            len_until(rest.as_bytes(), b'\n'),
        ),
    }
}

/// What stands at the front, and its length.
pub fn piece_at(alloc: Global, rest: &str) -> Mem<(Piece, usize)>
    requires { 0 < length rest.now }
    ensures stands { IfOk result (λ r. StandsAt rest.now (lexeme_of r.0) r.1) }
    ensures boundary { IfOk result (λ r. IsCharBoundary rest.now r.1) }
{
    match class_of(byte_at(rest.as_bytes(), 0)) {
        Class::Space => Ok((Piece::Blank, 1)),
        Class::LineFeed => Ok((Piece::LineEnd, 1)),
        Class::Letter => word_at(alloc, rest),
        Class::Wide => wide_at(alloc, rest),
        Class::Digit | Class::Dot => digit_at(alloc, rest),
        Class::Quote => text_quoted_at(alloc, rest),
        Class::Apostrophe => Ok(rune_quoted_at(rest)),
        Class::BackQuote => raw_quoted_at(alloc, rest),
        Class::Slash => Ok(slash_at(rest)),
        Class::Mark => Ok(mark_at(rest)),
    }
}
