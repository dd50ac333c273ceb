//! The tree that stands at a place.
ghost use Rattle.std.specs.Prelude.{◌<◌, ◌≤◌, ◌^◌, length};
ghost use Rattle.gs_grammar.specs.Grammar.{IsBlockAt, IsChunkAt, IsExprAt, IsTypeAt};
ghost use Rattle.gs_ends.specs.Answer.{IsParsed};
ghost use Rattle.gs_parse_expr.specs.Built.{IsBuilt};

use gs_build::whole::{block_tree, chunk_tree, expr_tree, type_tree};
use gs_build_base::pieces::{Piece, Stop};
use gs_ends::end::LIMIT;
use gs_ends::parsed::Parsed;
use gs_grammar::trees::{Block, Chunk, Expr, TypeExpr};
use gs_places::at::{at_expr, at_type};
use gs_rows::table::{places_of, whole};
use gs_rows_decls::chunks::chunk;
use gs_rows_expr::operands::block;
use gs_syntax::token::Token;
use std::alloc::Global;

/// What was built from a place on, in a list of so many tokens.
fn answer<T>(count: usize, built: Result<Piece<'_, T>, Stop>) -> Parsed<T>
    requires { count < 2 ^ 32 }
    ensures { IsBuilt count built.entry result }
{
    match built {
        Ok(piece) => {
            let left = piece.rest.tokens.len();
            Parsed::Tree(piece.tree, count.saturating_sub(left) as u32)
        }
        Err(Stop::Absent) => Parsed::None,
        Err(Stop::NoMemory) => Parsed::NoMemory,
    }
}

/// The type at a place. The time and the memory grow with the tokens from that place on.
pub fn type_at(alloc: Global, tokens: &[Token], at: u32) -> Parsed<TypeExpr>
    requires few { length tokens.now < 2 ^ 32 }
    requires within { at ≤ length tokens.now }
    ensures { IsParsed IsTypeAt tokens.now at result }
{
    let (_, from) = tokens.split_at(at as usize);
    let Ok(table) = places_of(alloc, from) else {
        return Parsed::NoMemory;
    };
    let place = whole(from, table.as_slice());
    match at_type(place) {
        None => Parsed::None,
        Some(found) => {
            if found.depth > LIMIT {
                Parsed::TooDeep
            } else {
                answer(tokens.len(), type_tree(alloc, place))
            }
        }
    }
}

/// The expression at a place, in the header of an if, switch or for, where a name takes no literal, or not. The time and the
/// memory grow with the tokens from that place on.
pub fn expr_at(alloc: Global, tokens: &[Token], at: u32, header: bool) -> Parsed<Expr>
    requires few { length tokens.now < 2 ^ 32 }
    requires within { at ≤ length tokens.now }
    ensures { IsParsed (IsExprAt header) tokens.now at result }
{
    let (_, from) = tokens.split_at(at as usize);
    let Ok(table) = places_of(alloc, from) else {
        return Parsed::NoMemory;
    };
    let place = whole(from, table.as_slice());
    match at_expr(5, header, place) {
        None => Parsed::None,
        Some(found) => {
            if found.depth > LIMIT {
                Parsed::TooDeep
            } else {
                answer(tokens.len(), expr_tree(alloc, header, place))
            }
        }
    }
}

/// The block at a place. The time and the memory grow with the tokens from that place on.
pub fn block_at(alloc: Global, tokens: &[Token], at: u32) -> Parsed<Block>
    requires few { length tokens.now < 2 ^ 32 }
    requires within { at ≤ length tokens.now }
    ensures { IsParsed IsBlockAt tokens.now at result }
{
    let (_, from) = tokens.split_at(at as usize);
    let Ok(table) = places_of(alloc, from) else {
        return Parsed::NoMemory;
    };
    let place = whole(from, table.as_slice());
    match block(place) {
        None => Parsed::None,
        Some(found) => {
            if found.depth > LIMIT {
                Parsed::TooDeep
            } else {
                answer(tokens.len(), block_tree(alloc, place))
            }
        }
    }
}

/// The chunk at a place. The time and the memory grow with the tokens from that place on.
pub fn chunk_at(alloc: Global, tokens: &[Token], at: u32) -> Parsed<Chunk>
    requires few { length tokens.now < 2 ^ 32 }
    requires within { at ≤ length tokens.now }
    ensures { IsParsed IsChunkAt tokens.now at result }
{
    let (_, from) = tokens.split_at(at as usize);
    let Ok(table) = places_of(alloc, from) else {
        return Parsed::NoMemory;
    };
    let place = whole(from, table.as_slice());
    match chunk(place) {
        None => Parsed::None,
        Some(found) => {
            if found.depth > LIMIT {
                Parsed::TooDeep
            } else {
                answer(tokens.len(), chunk_tree(alloc, place))
            }
        }
    }
}
