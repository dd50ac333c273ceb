//! What may stand next in a file (Go specification, "Source file organization").

ghost use Rattle.std.specs.Prelude.{◌≡◌};
ghost use Rattle.gs_chunks.specs.Verdicts as spec;

use gs_syntax::token::{Keyword, Token, TokenKind};

/// Of which of the three a chunk is.
#[derive(Clone, Copy, Debug, PartialEq, Eq)]
pub enum Class {
    Package,
    Import,
    Declaration,
}

/// Of which of the three a chunk with this first token is, where it has a tree.
fn class_by(kind: &TokenKind) -> Class
    ensures { result ≡ spec.class_by kind.now }
{
    match kind {
        TokenKind::Keyword(Keyword::Package) => Class::Package,
        TokenKind::Keyword(Keyword::Import) => Class::Import,
        _ => Class::Declaration,
    }
}

/// Of which of the three a chunk with these tokens is, where it has a tree.
pub fn first_class(tokens: &[Token]) -> Class
    ensures { result ≡ spec.first_class tokens.now }
{
    match tokens {
        [] => Class::Declaration,
        [first, ..] => class_by(&first.kind),
    }
}

/// What may stand next: the package clause; imports and declarations; declarations alone.
#[derive(Clone, Copy, Debug, PartialEq, Eq)]
pub enum Stage {
    Clause,
    Imports,
    Declarations,
}

impl Stage {
    /// Whether a chunk of this class may stand here.
    pub fn takes(self, class: Class) -> bool
        ensures { result ≡ spec.takes self class }
    {
        match self {
            Stage::Clause => matches!(class, Class::Package),
            Stage::Imports => matches!(class, Class::Import | Class::Declaration),
            Stage::Declarations => matches!(class, Class::Declaration),
        }
    }

    /// What may stand behind a chunk that is kept.
    pub fn behind(self, class: Class) -> Stage
        ensures { result ≡ spec.behind self class }
    {
        match self {
            Stage::Clause => Stage::Imports,
            Stage::Imports => match class {
                Class::Declaration => Stage::Declarations,
                _ => Stage::Imports,
            },
            Stage::Declarations => Stage::Declarations,
        }
    }

    /// What may stand behind a chunk that is dropped.
    pub fn passed(self) -> Stage
        ensures { result ≡ spec.passed self }
    {
        match self {
            Stage::Clause => Stage::Imports,
            _ => self,
        }
    }
}
