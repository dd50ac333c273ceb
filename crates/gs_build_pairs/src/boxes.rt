//! Trees in boxes, and tokens as trees.
ghost use Rattle.gs_build_pairs.specs.Pairs.{IsBoxed, IsMade};

use gs_build_base::copies::copy;
use gs_build_base::pieces::{Piece, Stop};
use gs_grammar::trees::{Chunk, Expr, Signature, Stmt, TypeExpr};
use gs_places::rest::Rest;
use gs_syntax::token::Token;
use sqlite_items::Boxed;
use std::alloc::Global;

/// The tree in a box.
fn boxed<'a, T: Drop>(
    alloc: Global,
    made: Result<Piece<'a, T>, Stop>,
) -> Result<Piece<'a, Boxed<T>>, Stop>
    ensures { IsBoxed made.entry result }
{
    let Piece { tree, rest } = made?;
    Ok(Piece {
        tree: Boxed::new(alloc, tree)?,
        rest,
    })
}

/// The type in a box.
pub fn boxed_type<'a>(
    alloc: Global,
    made: Result<Piece<'a, TypeExpr>, Stop>,
) -> Result<Piece<'a, Boxed<TypeExpr>>, Stop>
    ensures { IsBoxed made.entry result }
{
    boxed(alloc, made)
}

/// The expression in a box.
pub fn boxed_expr<'a>(
    alloc: Global,
    made: Result<Piece<'a, Expr>, Stop>,
) -> Result<Piece<'a, Boxed<Expr>>, Stop>
    ensures { IsBoxed made.entry result }
{
    boxed(alloc, made)
}

/// The signature in a box.
pub fn boxed_signature<'a>(
    alloc: Global,
    made: Result<Piece<'a, Signature>, Stop>,
) -> Result<Piece<'a, Boxed<Signature>>, Stop>
    ensures { IsBoxed made.entry result }
{
    boxed(alloc, made)
}

/// The statement in a box.
pub fn boxed_stmt<'a>(
    alloc: Global,
    made: Result<Piece<'a, Stmt>, Stop>,
) -> Result<Piece<'a, Boxed<Stmt>>, Stop>
    ensures { IsBoxed made.entry result }
{
    boxed(alloc, made)
}

/// The chunk in a box.
pub fn boxed_chunk<'a>(
    alloc: Global,
    made: Result<Piece<'a, Chunk>, Stop>,
) -> Result<Piece<'a, Boxed<Chunk>>, Stop>
    ensures { IsBoxed made.entry result }
{
    boxed(alloc, made)
}

/// A copy of the token, before these tokens.
pub fn token<'a>(alloc: Global, x: &Token, rest: Rest<'a>) -> Result<Piece<'a, Token>, Stop>
    ensures { IsMade (record { tree = x.now; rest = rest.entry }) result }
{
    Ok(Piece {
        tree: copy(alloc, x)?,
        rest,
    })
}
