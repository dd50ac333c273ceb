//! The trees that stand at a place of a file.
ghost use Rattle.std.specs.Prelude.{false};
ghost use Rattle.gs_places.specs.Places.{stands};
ghost use Rattle.gs_build_base.specs.Pieces.{Builds};

use crate::knot::build;
use crate::want::{Made, Want};
use gs_build_base::pieces::{Piece, Stop};
use gs_grammar::trees::{Block, Chunk, Expr, TypeExpr};
use gs_places::rest::Rest;
use std::alloc::Global;

/// How often building may lead back to itself.
const LEVELS: u32 = 4096;

/// The type of the place.
pub fn type_tree<'a>(alloc: Global, s: Rest<'a>) -> Result<Piece<'a, TypeExpr>, Stop>
    ensures { Builds result ((stands s.entry.tokens.now).type) }
{
    let Piece { tree, rest } = build(alloc, LEVELS, Want::Type, s)?;
    match tree {
        Made::Type(tree) => Ok(Piece { tree, rest }),
        _ => unreachable!(),
    }
}

/// The expression of the place, in a header or not.
pub fn expr_tree<'a>(alloc: Global, header: bool, s: Rest<'a>) -> Result<Piece<'a, Expr>, Stop>
    ensures { Builds result ((stands s.entry.tokens.now).expr 5 header false) }
{
    let Piece { tree, rest } = build(alloc, LEVELS, Want::Expr(5, header, false), s)?;
    match tree {
        Made::Expr(tree) => Ok(Piece { tree, rest }),
        _ => unreachable!(),
    }
}

/// The block of the place.
pub fn block_tree<'a>(alloc: Global, s: Rest<'a>) -> Result<Piece<'a, Block>, Stop>
    ensures { Builds result ((stands s.entry.tokens.now).block) }
{
    let Piece { tree, rest } = build(alloc, LEVELS, Want::Block, s)?;
    match tree {
        Made::Block(tree) => Ok(Piece { tree, rest }),
        _ => unreachable!(),
    }
}

/// The chunk of the place.
pub fn chunk_tree<'a>(alloc: Global, s: Rest<'a>) -> Result<Piece<'a, Chunk>, Stop>
    ensures { Builds result ((stands s.entry.tokens.now).chunk) }
{
    let Piece { tree, rest } = build(alloc, LEVELS, Want::Chunk, s)?;
    match tree {
        Made::Chunk(tree) => Ok(Piece {
            tree: tree.into_inner(),
            rest,
        }),
        _ => unreachable!(),
    }
}
