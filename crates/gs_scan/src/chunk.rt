//! Where the tokens are cut.
ghost use Rattle.std.specs.Prelude.{◌≡◌, ◌<◌, ◌≤◌, ◌^◌, ◌+◌, ◌∷◌, ◌++◌, [], length, IfOk, OnOk};
ghost use Rattle.gs_syntax.specs.Chunks as spec;

use gs_base::Mem;
use gs_syntax::token::{Operator, Token, TokenKind};
use std::alloc::{AllocError, Global};

fn is_semicolon(kind: &TokenKind) -> bool
    ensures { result ≡ spec.is_semicolon kind.now }
{
    match kind {
        TokenKind::Operator(o) => matches!(*o, Operator::Semicolon),
        TokenKind::Inserted => true,
        _ => false,
    }
}

/// The depth behind a token.
fn depth_after(depth: u32, kind: &TokenKind) -> u32
    requires { depth + 1 < 2 ^ 32 }
    ensures { result ≡ spec.depth_after depth kind.now }
{
    match kind {
        TokenKind::Operator(o) => match *o {
            Operator::LeftParen | Operator::LeftBracket | Operator::LeftBrace => depth + 1,
            Operator::RightParen | Operator::RightBracket | Operator::RightBrace => {
                depth.saturating_sub(1)
            }
            _ => depth,
        },
        _ => depth,
    }
}

fn add(chunks: &mut Vec<(u32, u32)>, first: u32, end: u32) -> Result<(), AllocError>
    ensures { OnOk result (chunks.new.items ≡ chunks.old.items ++ (first, end) ∷ []) }
{
    chunks.push((first, end))?;
    Ok(())
}

/// The chunks of fewer than 2^32 tokens: each one's first token, and the place behind its last.
pub fn chunks(alloc: Global, tokens: &[Token]) -> Mem<Vec<(u32, u32)>>
    requires { length tokens.now < 2 ^ 32 }
    ensures { IfOk result (λ v. v.items ≡ spec.chunks_of tokens.now) }
{
    let mut chunks = Vec::new(alloc);
    let mut first = 0u32;
    let mut at = 0u32;
    let mut depth = 0u32;
    for token in tokens {
        if is_semicolon(&token.kind) && depth == 0 {
            add(&mut chunks, first, at + 1)?;
            first = at + 1;
        } else {
            depth = depth_after(depth, &token.kind);
        }
        at += 1;
    }
    if first != at {
        add(&mut chunks, first, at)?;
    }
    Ok(chunks)
}
