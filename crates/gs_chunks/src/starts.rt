//! Where a chunk, its declarations and their specs begin.

ghost use Rattle.std.specs.Prelude.{◌≡◌, ◌++◌, reverse, OnOk};
ghost use Rattle.gs_chunks.specs.Docs as spec;

use gs_places::classes::is_semi;
use gs_places::front::is_mark;
use gs_syntax::token::{Keyword, Operator, Token, TokenKind};
use std::alloc::{AllocError, Global};

fn is_grouping(kind: &TokenKind) -> bool
    ensures { result ≡ spec.is_grouping kind.now }
{
    match kind {
        TokenKind::Keyword(word) => matches!(
            *word,
            Keyword::Import | Keyword::Const | Keyword::Type | Keyword::Var
        ),
        _ => false,
    }
}

fn begins_declaration(before: &TokenKind, kind: &TokenKind) -> bool
    ensures { result ≡ spec.begins_declaration before.now kind.now }
{
    match kind {
        TokenKind::Keyword(Keyword::Const | Keyword::Var) => true,
        TokenKind::Keyword(Keyword::Type) => !is_mark(Operator::LeftParen, before),
        _ => false,
    }
}

/// Whether the innermost bracket is the parenthesis of a group.
fn in_group(brackets: &[bool]) -> bool
    ensures { result ≡ spec.in_group (reverse brackets.now) }
{
    brackets.last().copied().unwrap_or(false)
}

fn begins_spec(before: &TokenKind, brackets: &[bool], kind: &TokenKind) -> bool
    ensures { result ≡ spec.begins_spec before.now (reverse brackets.now) kind.now }
{
    in_group(brackets)
        && (is_mark(Operator::LeftParen, before) || is_semi(before))
        && !is_mark(Operator::RightParen, kind)
}

/// Adds the bracket that a token opens, or takes away the one that it closes.
fn follow(brackets: &mut Vec<bool>, before: &TokenKind, kind: &TokenKind) -> Result<(), AllocError>
    ensures { OnOk result (reverse brackets.new.items ≡ spec.open_after before.now (reverse brackets.old.items) kind.now) }
{
    if let TokenKind::Operator(operator) = kind {
        match *operator {
            Operator::LeftParen => brackets.push(is_grouping(before))?,
            Operator::LeftBracket | Operator::LeftBrace => brackets.push(false)?,
            Operator::RightParen | Operator::RightBracket | Operator::RightBrace => {
                let _closed = brackets.pop();
            }
            _ => {}
        }
    }
    Ok(())
}

/// Adds the offsets at which a chunk with these tokens, its declarations and their specs begin.
pub fn put_starts(alloc: Global, starts: &mut Vec<u32>, tokens: &[Token]) -> Result<(), AllocError>
    ensures { OnOk result (starts.new.items ≡ starts.old.items ++ spec.starts tokens.now) }
{
    let [first, others @ ..] = tokens else {
        return Ok(());
    };
    starts.push(first.span.offset)?;
    let mut brackets = Vec::new(alloc);
    let mut before = &first.kind;
    for token in others {
        let kind = &token.kind;
        if begins_declaration(before, kind) || begins_spec(before, brackets.as_slice(), kind) {
            starts.push(token.span.offset)?;
        }
        follow(&mut brackets, before, kind)?;
        before = kind;
    }
    Ok(())
}
