//! The tokens of a text, and where its line comments begin.
ghost use Rattle.std.specs.Prelude.{◌≡◌, ◌<◌, ◌^◌, [], length, IfOk};
ghost use Rattle.std.specs.Str.{IsCharBoundary};
ghost use Rattle.gs_scan.specs.Comments.{AreComments};
ghost use Rattle.gs_syntax.specs.Tokens as spec;
ghost use Rattle.gs_syntax.specs.Tokens.{AreTokens};

use crate::step::{insert, step_at};
use gs_base::Mem;
use gs_syntax::token::Token;
use std::alloc::Global;

/// The most tokens that room is made for before they are read.
const MOST_RESERVED: usize = 1 << 24;

/// What is found in a text.
#[derive(Drop)]
pub struct Scanned {
    /// The tokens, in order.
    pub tokens: Vec<Token>,
    /// The offsets in bytes at which the line comments begin, in order.
    pub comments: Vec<u32>,
}

/// The length of a byte order mark at the front.
fn mark_len(text: &str) -> usize
    ensures size { result ≡ spec.mark_size text.now }
    ensures boundary { IsCharBoundary text.now result }
{
    if text.as_bytes().starts_with(b"\xef\xbb\xbf".as_slice()) {
        3
    } else {
        0
    }
}

/// An empty list with room for the tokens of a text of this many bytes, as far as can be told before it is read; with none,
/// where so much room is wanting.
fn list_for(alloc: Global, bytes: usize) -> Vec<Token>
    ensures { result.items ≡ [] }
{
    let mut tokens = Vec::new(alloc);
    let _reserved = tokens.reserve((bytes / 3).min(MOST_RESERVED)).is_ok();
    tokens
}

/// The tokens of a text of fewer than 2^32 bytes, in order, with the semicolons that are inserted, and where its line
/// comments begin (Go specification, "Lexical elements").
pub fn scan_all(alloc: Global, text: &str) -> Mem<Scanned>
    requires { length text.now < 2 ^ 32 }
    ensures tokens { IfOk result (λ s. AreTokens text.now s.tokens.items) }
    ensures comments { IfOk result (λ s. AreComments text.now s.comments.items) }
{
    let mut found = Scanned {
        tokens: list_for(alloc, text.len()),
        comments: Vec::new(alloc),
    };
    let mut end = None;
    let mark = mark_len(text);
    let mut at = mark as u32;
    let mut rest = &text[mark..];
    while !rest.is_empty() {
        let step = step_at(alloc, &mut found, end, at, rest)?;
        end = step.end;
        at += step.len as u32;
        rest = &rest[step.len..];
    }
    insert(&mut found.tokens, end)?;
    Ok(found)
}

/// The tokens of a text of fewer than 2^32 bytes, in order, with the semicolons that are inserted (Go specification,
/// "Lexical elements").
pub fn scan(alloc: Global, text: &str) -> Mem<Vec<Token>>
    requires { length text.now < 2 ^ 32 }
    ensures { IfOk result (λ tokens. AreTokens text.now tokens.items) }
{
    let found = scan_all(alloc, text)?;
    Ok(found.tokens)
}
