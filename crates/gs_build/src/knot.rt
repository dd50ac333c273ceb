//! The knot of the builders: each is given a maker, which leads back to all of them.
//!
//! A function that builds a form is never inlined, here and in the crates of the builders: so a level of nesting takes the
//! frames of its own forms on the stack, and no room for what other forms would hold.
ghost use Rattle.std.specs.Prelude.{◌≤◌};
ghost use Rattle.gs_build.specs.Makes.{Faithful, Makes};
ghost use Rattle.gs_build.specs.declared.want.Want.TheVariants as want;

use crate::want::{Made, Want};
use gs_build_base::maker::Maker;
use gs_build_base::pieces::{Piece, Stop};
use gs_build_decls::chunks::chunk_tree;
use gs_build_decls::decls::decl_tree;
use gs_build_expr::elements::elements_tree;
use gs_build_expr::exprs::{expr_tree, exprs_tree};
use gs_build_operands::literals::block_tree;
use gs_build_operands::operands::{primary_tree, unary_tree};
use gs_build_pairs::boxes::{boxed_chunk, boxed_stmt};
use gs_build_stmts::stmts::{stmt_tree, stmts_tree};
use gs_build_types::params::{params_tree, signature_tree};
use gs_build_types::types::type_tree;
use gs_grammar::trees::{Block, Decl, Element, Expr, Parameters, Signature, Stmt, TypeExpr};
use gs_places::rest::Rest;
use sqlite_items::{Boxed, Items};
use std::alloc::Global;

/// A maker over a function that makes what is wanted.
#[derive(Drop)]
struct Knot<F: for<'x> Fn(Want, Rest<'x>) -> Result<Piece<'x, Made>, Stop>> {
    make: F,
}

impl<F: for<'x> Fn(Want, Rest<'x>) -> Result<Piece<'x, Made>, Stop>> Maker for Knot<F> {
    ghost is_faithful = { λ k. F.IsAlwaysCallable k.make × Faithful (F.post k.make) };

    fn make_type<'a>(&self, s: Rest<'a>) -> Result<Piece<'a, TypeExpr>, Stop> {
        let Piece { tree, rest } = (self.make)(Want::Type, s)?;
        match tree {
            Made::Type(tree) => Ok(Piece { tree, rest }),
            _ => unreachable!(),
        }
    }

    fn make_signature<'a>(&self, s: Rest<'a>) -> Result<Piece<'a, Signature>, Stop> {
        let Piece { tree, rest } = (self.make)(Want::Signature, s)?;
        match tree {
            Made::Signature(tree) => Ok(Piece { tree, rest }),
            _ => unreachable!(),
        }
    }

    fn make_params<'a>(&self, dots: bool, s: Rest<'a>) -> Result<Piece<'a, Parameters>, Stop> {
        let Piece { tree, rest } = (self.make)(Want::Parameters(dots), s)?;
        match tree {
            Made::Parameters(tree) => Ok(Piece { tree, rest }),
            _ => unreachable!(),
        }
    }

    fn make_expr<'a>(
        &self,
        level: u8,
        header: bool,
        first: bool,
        s: Rest<'a>,
    ) -> Result<Piece<'a, Expr>, Stop> {
        let Piece { tree, rest } = (self.make)(Want::Expr(level, header, first), s)?;
        match tree {
            Made::Expr(tree) => Ok(Piece { tree, rest }),
            _ => unreachable!(),
        }
    }

    fn make_unary<'a>(
        &self,
        header: bool,
        first: bool,
        s: Rest<'a>,
    ) -> Result<Piece<'a, Expr>, Stop> {
        let Piece { tree, rest } = (self.make)(Want::Unary(header, first), s)?;
        match tree {
            Made::Expr(tree) => Ok(Piece { tree, rest }),
            _ => unreachable!(),
        }
    }

    fn make_primary<'a>(&self, header: bool, s: Rest<'a>) -> Result<Piece<'a, Expr>, Stop> {
        let Piece { tree, rest } = (self.make)(Want::Primary(header), s)?;
        match tree {
            Made::Expr(tree) => Ok(Piece { tree, rest }),
            _ => unreachable!(),
        }
    }

    fn make_exprs<'a>(&self, header: bool, s: Rest<'a>) -> Result<Piece<'a, Items<Expr>>, Stop> {
        let Piece { tree, rest } = (self.make)(Want::Exprs(header), s)?;
        match tree {
            Made::Exprs(tree) => Ok(Piece { tree, rest }),
            _ => unreachable!(),
        }
    }

    fn make_elements<'a>(&self, s: Rest<'a>) -> Result<Piece<'a, Items<Element>>, Stop> {
        let Piece { tree, rest } = (self.make)(Want::Elements, s)?;
        match tree {
            Made::Elements(tree) => Ok(Piece { tree, rest }),
            _ => unreachable!(),
        }
    }

    fn make_block<'a>(&self, s: Rest<'a>) -> Result<Piece<'a, Block>, Stop> {
        let Piece { tree, rest } = (self.make)(Want::Block, s)?;
        match tree {
            Made::Block(tree) => Ok(Piece { tree, rest }),
            _ => unreachable!(),
        }
    }

    fn make_stmts<'a>(&self, s: Rest<'a>) -> Result<Piece<'a, Items<Stmt>>, Stop> {
        let Piece { tree, rest } = (self.make)(Want::Statements, s)?;
        match tree {
            Made::Statements(tree) => Ok(Piece { tree, rest }),
            _ => unreachable!(),
        }
    }

    fn make_stmt<'a>(&self, s: Rest<'a>) -> Result<Piece<'a, Boxed<Stmt>>, Stop> {
        let Piece { tree, rest } = (self.make)(Want::Statement, s)?;
        match tree {
            Made::Statement(tree) => Ok(Piece { tree, rest }),
            _ => unreachable!(),
        }
    }

    fn make_decl<'a>(&self, s: Rest<'a>) -> Result<Piece<'a, Decl>, Stop> {
        let Piece { tree, rest } = (self.make)(Want::Declaration, s)?;
        match tree {
            Made::Declaration(tree) => Ok(Piece { tree, rest }),
            _ => unreachable!(),
        }
    }
}

/// The type of the place.
#[inline(never)]
fn tie_type<'a, M: Maker>(alloc: Global, make: &M, s: Rest<'a>) -> Result<Piece<'a, Made>, Stop>
    requires faithful { M.is_faithful make.now }
    ensures { Makes want.Type s.entry result }
{
    let Piece { tree, rest } = type_tree(alloc, make, s)?;
    Ok(Piece {
        tree: Made::Type(tree),
        rest,
    })
}

/// The signature of the place.
#[inline(never)]
fn tie_signature<'a, M: Maker>(
    alloc: Global,
    make: &M,
    s: Rest<'a>,
) -> Result<Piece<'a, Made>, Stop>
    requires faithful { M.is_faithful make.now }
    ensures { Makes want.Signature s.entry result }
{
    let Piece { tree, rest } = signature_tree(alloc, make, s)?;
    Ok(Piece {
        tree: Made::Signature(tree),
        rest,
    })
}

/// The parameters of the place.
#[inline(never)]
fn tie_params<'a, M: Maker>(
    alloc: Global,
    make: &M,
    dots: bool,
    s: Rest<'a>,
) -> Result<Piece<'a, Made>, Stop>
    requires faithful { M.is_faithful make.now }
    ensures { Makes (want.Parameters dots) s.entry result }
{
    let Piece { tree, rest } = params_tree(alloc, make, dots, s)?;
    Ok(Piece {
        tree: Made::Parameters(tree),
        rest,
    })
}

/// The expression of the place.
#[inline(never)]
fn tie_expr<'a, M: Maker>(
    alloc: Global,
    make: &M,
    level: u8,
    header: bool,
    first: bool,
    s: Rest<'a>,
) -> Result<Piece<'a, Made>, Stop>
    requires faithful { M.is_faithful make.now }
    requires low { level ≤ 5 }
    ensures { Makes (want.Expr level header first) s.entry result }
{
    let Piece { tree, rest } = expr_tree(alloc, make, level, header, first, s)?;
    Ok(Piece {
        tree: Made::Expr(tree),
        rest,
    })
}

/// The unary expression of the place.
#[inline(never)]
fn tie_unary<'a, M: Maker>(
    alloc: Global,
    make: &M,
    header: bool,
    first: bool,
    s: Rest<'a>,
) -> Result<Piece<'a, Made>, Stop>
    requires faithful { M.is_faithful make.now }
    ensures { Makes (want.Unary header first) s.entry result }
{
    let Piece { tree, rest } = unary_tree(alloc, make, header, first, s)?;
    Ok(Piece {
        tree: Made::Expr(tree),
        rest,
    })
}

/// The primary expression of the place.
#[inline(never)]
fn tie_primary<'a, M: Maker>(
    alloc: Global,
    make: &M,
    header: bool,
    s: Rest<'a>,
) -> Result<Piece<'a, Made>, Stop>
    requires faithful { M.is_faithful make.now }
    ensures { Makes (want.Primary header) s.entry result }
{
    let Piece { tree, rest } = primary_tree(alloc, make, header, s)?;
    Ok(Piece {
        tree: Made::Expr(tree),
        rest,
    })
}

/// The expressions of the place.
#[inline(never)]
fn tie_exprs<'a, M: Maker>(
    alloc: Global,
    make: &M,
    header: bool,
    s: Rest<'a>,
) -> Result<Piece<'a, Made>, Stop>
    requires faithful { M.is_faithful make.now }
    ensures { Makes (want.Exprs header) s.entry result }
{
    let Piece { tree, rest } = exprs_tree(alloc, make, header, s)?;
    Ok(Piece {
        tree: Made::Exprs(tree),
        rest,
    })
}

/// The elements of the place.
#[inline(never)]
fn tie_elements<'a, M: Maker>(alloc: Global, make: &M, s: Rest<'a>) -> Result<Piece<'a, Made>, Stop>
    requires faithful { M.is_faithful make.now }
    ensures { Makes want.Elements s.entry result }
{
    let Piece { tree, rest } = elements_tree(alloc, make, s)?;
    Ok(Piece {
        tree: Made::Elements(tree),
        rest,
    })
}

/// The block of the place.
#[inline(never)]
fn tie_block<'a, M: Maker>(make: &M, s: Rest<'a>) -> Result<Piece<'a, Made>, Stop>
    requires faithful { M.is_faithful make.now }
    ensures { Makes want.Block s.entry result }
{
    let Piece { tree, rest } = block_tree(make, s)?;
    Ok(Piece {
        tree: Made::Block(tree),
        rest,
    })
}

/// The statements of the place.
#[inline(never)]
fn tie_stmts<'a, M: Maker>(alloc: Global, make: &M, s: Rest<'a>) -> Result<Piece<'a, Made>, Stop>
    requires faithful { M.is_faithful make.now }
    ensures { Makes want.Statements s.entry result }
{
    let Piece { tree, rest } = stmts_tree(alloc, make, s)?;
    Ok(Piece {
        tree: Made::Statements(tree),
        rest,
    })
}

/// The statement of the place.
#[inline(never)]
fn tie_stmt<'a, M: Maker>(alloc: Global, make: &M, s: Rest<'a>) -> Result<Piece<'a, Made>, Stop>
    requires faithful { M.is_faithful make.now }
    ensures { Makes want.Statement s.entry result }
{
    let Piece { tree, rest } = boxed_stmt(alloc, stmt_tree(alloc, make, s))?;
    Ok(Piece {
        tree: Made::Statement(tree),
        rest,
    })
}

/// The declaration of the place.
#[inline(never)]
fn tie_decl<'a, M: Maker>(alloc: Global, make: &M, s: Rest<'a>) -> Result<Piece<'a, Made>, Stop>
    requires faithful { M.is_faithful make.now }
    ensures { Makes want.Declaration s.entry result }
{
    let Piece { tree, rest } = decl_tree(alloc, make, s)?;
    Ok(Piece {
        tree: Made::Declaration(tree),
        rest,
    })
}

/// The chunk of the place.
#[inline(never)]
fn tie_chunk<'a, M: Maker>(alloc: Global, make: &M, s: Rest<'a>) -> Result<Piece<'a, Made>, Stop>
    requires faithful { M.is_faithful make.now }
    ensures { Makes want.Chunk s.entry result }
{
    let Piece { tree, rest } = boxed_chunk(alloc, chunk_tree(alloc, make, s))?;
    Ok(Piece {
        tree: Made::Chunk(tree),
        rest,
    })
}

/// The tree that is wanted at the place, where the function makes all that stands further on.
fn tie<'a, F: for<'x> Fn(Want, Rest<'x>) -> Result<Piece<'x, Made>, Stop> + Drop>(
    alloc: Global,
    make: F,
    want: Want,
    s: Rest<'a>,
) -> Result<Piece<'a, Made>, Stop>
    requires can { F.IsAlwaysCallable make }
    requires gives { Faithful (F.post make) }
    ensures { Makes want s.entry result }
{
    let knot = Knot { make };
    match want {
        Want::Type => tie_type(alloc, &knot, s),
        Want::Signature => tie_signature(alloc, &knot, s),
        Want::Parameters(dots) => tie_params(alloc, &knot, dots, s),
        Want::Expr(level, header, first) => {
            if level > 5 {
                return Err(Stop::NoMemory);
            }
            tie_expr(alloc, &knot, level, header, first, s)
        }
        Want::Unary(header, first) => tie_unary(alloc, &knot, header, first, s),
        Want::Primary(header) => tie_primary(alloc, &knot, header, s),
        Want::Exprs(header) => tie_exprs(alloc, &knot, header, s),
        Want::Elements => tie_elements(alloc, &knot, s),
        Want::Block => tie_block(&knot, s),
        Want::Statements => tie_stmts(alloc, &knot, s),
        Want::Statement => tie_stmt(alloc, &knot, s),
        Want::Declaration => tie_decl(alloc, &knot, s),
        Want::Chunk => tie_chunk(alloc, &knot, s),
    }
}

/// The tree that is wanted at the place. What is built nests at most 200 deep, and a level of nesting passes here no more
/// than ten times, so that 4,096 levels are enough: they are a guard on the stack that no file meets.
#[cycle(tie)]
pub fn build<'a>(
    alloc: Global,
    levels: u32,
    want: Want,
    s: Rest<'a>,
) -> Result<Piece<'a, Made>, Stop>
    ensures { Makes want s.entry result }
{
    if levels == 0 {
        return Err(Stop::NoMemory);
    }
    let less = levels - 1;
    tie(
        alloc,
        |w: Want, p: Rest| -> Result<Piece<'_, Made>, Stop>
            ensures { Makes w p.entry result }
        { build(alloc, less, w, p) },
        want,
        s,
    )
}
