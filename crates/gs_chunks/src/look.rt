//! What stands at the front of a chunk.

ghost use Rattle.std.specs.Prelude.{◌<◌, ◌^◌, length, Option, None};
ghost use Rattle.gs_ends.specs.Answer.{IsParsed};
ghost use Rattle.gs_grammar.specs.declared.trees.Chunk.{Chunk};
ghost use Rattle.gs_chunks.specs.Drafts.{StandsFor};

use gs_ends::end::{End, chunk_end};
use gs_ends::parsed::Parsed;
use gs_syntax::token::Token;
use std::alloc::Global;

/// A way to look at a chunk, which keeps a `T` of its tree, or nothing.
pub trait Look<T> {
    /// What is kept of a tree.
    ghost keeps: { Chunk → Option T };

    /// What is kept of the tree at the front of the chunk, and where the tree ends.
    fn look(alloc: Global, tokens: &[Token]) -> Parsed<Option<T>>
        requires { length tokens.now < 2 ^ 32 }
        ensures { IsParsed (StandsFor keeps) tokens.now 0 result };
}

/// Looks for the end alone, and keeps nothing.
pub struct Faults;

impl Look<()> for Faults {
    ghost keeps = { λ _. None };

    fn look(alloc: Global, tokens: &[Token]) -> Parsed<Option<()>> {
        match chunk_end(alloc, tokens, 0) {
            End::At(end) => Parsed::Tree(None, end),
            End::None => Parsed::None,
            End::TooDeep => Parsed::TooDeep,
            End::NoMemory => Parsed::NoMemory,
        }
    }
}
