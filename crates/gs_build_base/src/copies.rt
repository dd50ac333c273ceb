//! Copies of tokens.
ghost use Rattle.std.specs.Prelude.{◌≡◌, IfOk};

use gs_base::Mem;
use gs_syntax::bytes::Bytes;
use gs_syntax::name::Name;
use gs_syntax::token::{Token, TokenKind};
use gs_syntax::whole::Whole;
use std::alloc::Global;

fn copy_name(alloc: Global, name: &Name) -> Mem<Name>
    ensures { IfOk result (λ n. n ≡ name.now) }
{
    let text = name.as_str();
    Name::front(alloc, text, text.len())
}

fn copy_bytes(alloc: Global, bytes: &Bytes) -> Mem<Bytes>
    ensures { IfOk result (λ b. b ≡ bytes.now) }
{
    let text = bytes.as_slice();
    Bytes::front(alloc, text, text.len())
}

fn copy_kind(alloc: Global, kind: &TokenKind) -> Mem<TokenKind>
    ensures { IfOk result (λ k. k ≡ kind.now) }
{
    match kind {
        TokenKind::Identifier(name) => Ok(TokenKind::Identifier(copy_name(alloc, name)?)),
        TokenKind::Keyword(word) => Ok(TokenKind::Keyword(*word)),
        TokenKind::Operator(mark) => Ok(TokenKind::Operator(*mark)),
        TokenKind::Integer(value) => Ok(TokenKind::Integer(Whole::new(alloc, value.get())?)),
        TokenKind::Float => Ok(TokenKind::Float),
        TokenKind::Imaginary => Ok(TokenKind::Imaginary),
        TokenKind::Rune(code) => Ok(TokenKind::Rune(*code)),
        TokenKind::Text(value) => Ok(TokenKind::Text(copy_bytes(alloc, value)?)),
        TokenKind::Bad => Ok(TokenKind::Bad),
        TokenKind::Inserted => Ok(TokenKind::Inserted),
    }
}

/// A copy of a token.
pub fn copy(alloc: Global, x: &Token) -> Mem<Token>
    ensures { IfOk result (λ t. t ≡ x.now) }
{
    Ok(Token {
        kind: copy_kind(alloc, &x.kind)?,
        span: x.span,
    })
}
