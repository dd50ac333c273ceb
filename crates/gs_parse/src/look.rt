//! What is kept of a chunk: its tree.

ghost use Rattle.std.specs.Prelude.{Some};

use gs_chunks::look::Look;
use gs_ends::parsed::Parsed;
use gs_grammar::trees::Chunk;
use gs_parse_expr::at::chunk_at;
use gs_syntax::token::Token;
use std::alloc::Global;

/// Builds the tree, and keeps it.
pub struct Trees;

impl Look<Chunk> for Trees {
    ghost keeps = { λ t. Some t };

    fn look(alloc: Global, tokens: &[Token]) -> Parsed<Option<Chunk>> {
        match chunk_at(alloc, tokens, 0) {
            Parsed::Tree(tree, end) => Parsed::Tree(Some(tree), end),
            Parsed::None => Parsed::None,
            Parsed::TooDeep => Parsed::TooDeep,
            Parsed::NoMemory => Parsed::NoMemory,
        }
    }
}
