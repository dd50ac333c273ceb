//! A step of the scanner: what stands at the front of the text joins the tokens, or the comments.
ghost use Rattle.std.specs.Prelude.{◌≡◌, ◌<◌, ◌≤◌, ◌+◌, ◌^◌, ◌++◌, ◌∷◌, [], length, slice_index, IfOk, OnOk};
ghost use Rattle.std.specs.Str.{IsCharBoundary};
ghost use Rattle.gs_scan.specs.Pieces.{lexeme_of};
ghost use Rattle.gs_scan.specs.Reading as spec_reading;
ghost use Rattle.gs_scan.specs.Steps.{Adds, AddsToken, JoinsAs, comment_at};
ghost use Rattle.gs_syntax.specs.Tokens as spec;

use crate::class::{Class, class_of};
use crate::front::piece_at;
use crate::mark::{byte_at, operator_at};
use crate::piece::Piece;
use crate::scan::Scanned;
use crate::word::{keyword_of, word_len};
use gs_base::Mem;
use gs_syntax::name::Name;
use gs_syntax::token::{Keyword, Operator, Span, Token, TokenKind};
use std::alloc::{AllocError, Global};

/// Where a semicolon waits behind a step, and how many bytes the step took.
#[derive(Clone, Copy)]
pub struct Step {
    pub end: Option<u32>,
    pub len: usize,
}

/// Where a semicolon is inserted if the line ends after the token.
#[inline]
fn end_after(kind: &TokenKind, end: u32) -> Option<u32>
    ensures { result ≡ spec.end_after kind.now end }
{
    let ends = match kind {
        TokenKind::Inserted => false,
        TokenKind::Keyword(k) => matches!(
            *k,
            Keyword::Break | Keyword::Continue | Keyword::Fallthrough | Keyword::Return
        ),
        TokenKind::Operator(o) => matches!(
            *o,
            Operator::Increment
                | Operator::Decrement
                | Operator::RightParen
                | Operator::RightBracket
                | Operator::RightBrace
        ),
        _ => true,
    };
    if ends { Some(end) } else { None }
}

/// Inserts the semicolon that waits, if there is one.
pub fn insert(tokens: &mut Vec<Token>, end: Option<u32>) -> Result<(), AllocError>
    ensures { OnOk result (tokens.new.items ≡ tokens.old.items ++ spec.semicolon end) }
{
    if let Some(offset) = end {
        let span = Span { offset, length: 0 };
        tokens.push(Token {
            kind: TokenKind::Inserted,
            span,
        })?;
    }
    Ok(())
}

/// Adds a token of `len` bytes.
#[inline]
fn add(tokens: &mut Vec<Token>, kind: TokenKind, at: u32, len: usize) -> Result<Step, AllocError>
    requires { at + len < 2 ^ 32 }
    ensures added { OnOk result (tokens.new.items ≡ tokens.old.items ++ record { kind = kind; span = record { offset = at; length = len } } ∷ []) }
    ensures end { IfOk result (λ step. step.end ≡ spec.end_after kind (at + len)) }
    ensures len { IfOk result (λ step. step.len ≡ len) }
{
    let length = len as u32;
    let end = end_after(&kind, at + length);
    let span = Span { offset: at, length };
    tokens.push(Token { kind, span })?;
    Ok(Step { end, len })
}

/// Adds the place of what stands at the front, if it is a line comment.
fn add_comment(
    comments: &mut Vec<u32>,
    piece: &Piece,
    at: u32,
    rest: &str,
) -> Result<(), AllocError>
    ensures { OnOk result (comments.new.items ≡ comments.old.items ++ comment_at at rest.now (lexeme_of piece.now)) }
{
    if matches!(piece, Piece::Blank) && rest.as_bytes().starts_with(b"//".as_slice()) {
        comments.push(at)?;
    }
    Ok(())
}

/// Adds what stands at a place, and says where a semicolon waits then.
fn put(
    tokens: &mut Vec<Token>,
    end: Option<u32>,
    piece: Piece,
    at: u32,
    len: usize,
) -> Result<Step, AllocError>
    requires { at + len < 2 ^ 32 }
    ensures adds { IfOk result (λ step. JoinsAs (lexeme_of piece) len at end tokens.old.items tokens.new.items step.end) }
    ensures len { IfOk result (λ step. step.len ≡ len) }
{
    match piece {
        Piece::Blank => Ok(Step { end, len }),
        Piece::LineEnd => {
            insert(tokens, end)?;
            Ok(Step { end: None, len })
        }
        Piece::Token(kind) => add(tokens, kind, at, len),
    }
}

/// Adds the identifier or the keyword at the front.
#[inline(never)]
fn word_step(alloc: Global, tokens: &mut Vec<Token>, at: u32, rest: &str) -> Mem<Step>
    requires class { spec_reading.class_of (slice_index rest.now 0) ≡ Class.Letter }
    requires fits { at + length rest.now < 2 ^ 32 }
    ensures adds { IfOk result (λ step. AddsToken rest.now at tokens.old.items tokens.new.items step.end step.len) }
    ensures boundary { IfOk result (λ step. IsCharBoundary rest.now step.len) }
{
    let len = word_len(rest);
    let (word, _) = rest.split_at(len);
    match keyword_of(word.as_bytes()) {
        Some(keyword) => Ok(add(tokens, TokenKind::Keyword(keyword), at, len)?),
        None => {
            let name = Name::front(alloc, rest, len)?;
            Ok(add(tokens, TokenKind::Identifier(name), at, len)?)
        }
    }
}

/// Adds the operator at the front, or the character.
#[inline(never)]
fn mark_step(tokens: &mut Vec<Token>, at: u32, rest: &str) -> Mem<Step>
    requires some { 0 < length rest.now }
    requires class { spec_reading.class_of (slice_index rest.now 0) ≡ Class.Mark }
    requires fits { at + length rest.now < 2 ^ 32 }
    ensures adds { IfOk result (λ step. AddsToken rest.now at tokens.old.items tokens.new.items step.end step.len) }
    ensures boundary { IfOk result (λ step. IsCharBoundary rest.now step.len) }
{
    let bytes = rest.as_bytes();
    match operator_at(byte_at(bytes, 0), byte_at(bytes, 1), byte_at(bytes, 2)) {
        Some((operator, len)) => Ok(add(tokens, TokenKind::Operator(operator), at, len)?),
        None => Ok(add(tokens, TokenKind::Bad, at, 1)?),
    }
}

/// Adds what stands at the front, whatever it is.
#[inline(never)]
fn piece_step(
    alloc: Global,
    found: &mut Scanned,
    end: Option<u32>,
    at: u32,
    rest: &str,
) -> Mem<Step>
    requires some { 0 < length rest.now }
    requires fits { at + length rest.now < 2 ^ 32 }
    ensures adds { IfOk result (λ step. Adds rest.now at end found.old found.new step.end step.len) }
    ensures boundary { IfOk result (λ step. IsCharBoundary rest.now step.len) }
{
    let (piece, len) = piece_at(alloc, rest)?;
    add_comment(&mut found.comments, &piece, at, rest)?;
    Ok(put(&mut found.tokens, end, piece, at, len)?)
}

/// Adds what stands at the front. White space, words and operators, which are most of a text, take ways of their own, on
/// which no piece is made.
#[inline(always)]
pub fn step_at(
    alloc: Global,
    found: &mut Scanned,
    end: Option<u32>,
    at: u32,
    rest: &str,
) -> Mem<Step>
    requires some { 0 < length rest.now }
    requires fits { at + length rest.now < 2 ^ 32 }
    ensures adds { IfOk result (λ step. Adds rest.now at end found.old found.new step.end step.len) }
    ensures boundary { IfOk result (λ step. IsCharBoundary rest.now step.len) }
{
    match class_of(byte_at(rest.as_bytes(), 0)) {
        Class::Space => Ok(Step { end, len: 1 }),
        Class::LineFeed => {
            insert(&mut found.tokens, end)?;
            Ok(Step { end: None, len: 1 })
        }
        Class::Letter => word_step(alloc, &mut found.tokens, at, rest),
        Class::Mark => mark_step(&mut found.tokens, at, rest),
        _ => piece_step(alloc, found, end, at, rest),
    }
}
