//! Where a tree ends, without building it.
ghost use Rattle.std.specs.Prelude.{◌<◌, ◌≤◌, ◌^◌, length};
ghost use Rattle.gs_grammar.specs.Grammar.{IsChunkAt};
ghost use Rattle.gs_ends.specs.Answer.{IsEnd};

use gs_rows::table::{places_of, whole};
use gs_rows_decls::chunks::chunk;
use gs_syntax::token::Token;
use std::alloc::Global;

/// The deepest nesting that a tree may have.
pub const LIMIT: u32 = 200;

/// The place behind the tree that stands at a place, that none stands there, that it nests deeper than 200, or that no memory
/// was left to say.
#[derive(Clone, Copy, Debug, PartialEq, Eq)]
pub enum End {
    At(u32),
    None,
    TooDeep,
    NoMemory,
}

/// The end of the chunk at a place. The time and the memory grow with the tokens from that place on.
pub fn chunk_end(alloc: Global, tokens: &[Token], at: u32) -> End
    requires few { length tokens.now < 2 ^ 32 }
    requires within { at ≤ length tokens.now }
    ensures { IsEnd IsChunkAt tokens.now at result }
{
    let (_, from) = tokens.split_at(at as usize);
    let Ok(table) = places_of(alloc, from) else {
        return End::NoMemory;
    };
    match chunk(whole(from, table.as_slice())) {
        None => End::None,
        Some(found) => {
            if found.depth > LIMIT {
                End::TooDeep
            } else {
                End::At((tokens.len() - found.rest.tokens.len()) as u32)
            }
        }
    }
}
