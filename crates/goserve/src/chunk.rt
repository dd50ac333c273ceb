//! Chunks that are declarations.

ghost use Rattle.std.specs.Prelude.{◌≡◌};
ghost use Rattle.std.specs.Option.{option_map, option_copied};
ghost use Rattle.gs_rules.specs.Trees as tree;
ghost use Rattle.goserve.specs.Seen.{seen, seen_right};

use crate::token::{is_assign, is_const, is_semicolon, is_var, name_of};
use gs_syntax::token::{Span, Token, TokenKind};

/// What stands on the right of a declaration: a name, and where it stands, or a number.
#[derive(Clone, Copy, Debug, Drop)]
pub enum Right<'a> {
    Name(&'a str, Span),
    Number,
}

/// A declaration of a constant or a variable.
#[derive(Clone, Copy, Debug, Drop)]
pub struct Declaration<'a> {
    pub constant: bool,
    pub name: &'a str,
    pub right: Right<'a>,
}

/// What a token is on the right of a declaration.
fn right_of(token: &Token) -> Option<Right<'_>>
    ensures { option_map seen_right result ≡ tree.right_of token.entry.now }
{
    match &token.kind {
        TokenKind::Identifier(name) => Some(Right::Name(name.as_str(), token.span)),
        TokenKind::Integer(_) => Some(Right::Number),
        _ => None,
    }
}

/// A declaration, where its name and its right side are there.
fn declared<'a>(
    constant: bool,
    name: Option<&'a str>,
    right: Option<Right<'a>>,
) -> Option<Declaration<'a>>
    ensures { option_map seen result ≡ tree.declared constant (option_copied name.entry) (option_map seen_right right.entry) }
{
    match (name, right) {
        (Some(name), Some(right)) => Some(Declaration {
            constant,
            name,
            right,
        }),
        _ => None,
    }
}

/// What a chunk declares, if it is a declaration.
pub fn declaration_of(chunk: &[Token]) -> Option<Declaration<'_>>
    ensures { option_map seen result ≡ tree.declaration_of chunk.entry.now }
{
    match chunk {
        [word, name, assign, right, end] => {
            let constant = is_const(&word.kind);
            if (constant || is_var(&word.kind))
                && (is_assign(&assign.kind) && is_semicolon(&end.kind))
            {
                declared(constant, name_of(&name.kind), right_of(right))
            } else {
                None
            }
        }
        _ => None,
    }
}
