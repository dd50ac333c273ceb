//! Trees of literal values and blocks.
ghost use Rattle.gs_grammar.specs.Steps as steps;
ghost use Rattle.gs_places.specs.Places.{stands};
ghost use Rattle.gs_build_base.specs.Pieces.{Builds};

use gs_build_base::copies::copy;
use gs_build_base::front::{first_mark_span, mark_span, name_token};
use gs_build_base::maker::Maker;
use gs_build_base::pieces::{Piece, Stop};
use gs_grammar::trees::{Block, LiteralValue, TypeExpr};
use gs_places::at::{at_elements, at_stmts, at_type};
use gs_places::front::{first_mark, first_word, stop};
use gs_places::rest::Rest;
use gs_syntax::token::{Keyword, Operator, Token};
use std::alloc::Global;

/// The form `values_in_braces` of the literal value.
#[inline(never)]
#[tactic(auto, unfolding(gs_grammar::specs::Steps::read_values_in_braces))]
fn build_values_in_braces<'a, M: Maker>(
    make: &M,
    x: &'a Token,
    s: Rest<'a>,
) -> Result<Piece<'a, LiteralValue>, Stop>
    requires faithful { M.is_faithful make.now }
    ensures { Builds result (steps.read_values_in_braces s.entry.tokens.now stands x.now) }
{
    let (p, r0) = first_mark_span(Operator::LeftBrace, x, s).ok_or(Stop::Absent)?;
    let f1 = at_elements(r0).ok_or(Stop::Absent)?;
    let (q, r2) = mark_span(Operator::RightBrace, f1.rest).ok_or(Stop::Absent)?;
    let xs = make.make_elements(r0)?.tree;
    Ok(Piece {
        tree: LiteralValue {
            left: p,
            elements: xs,
            right: q,
        },
        rest: r2,
    })
}

/// The literal value that begins with the token.
#[tactic(auto, unfolding(gs_grammar::specs::Steps::literal_step))]
pub fn literal_from<'a, M: Maker>(
    make: &M,
    x: &'a Token,
    s: Rest<'a>,
) -> Result<Piece<'a, LiteralValue>, Stop>
    requires faithful { M.is_faithful make.now }
    ensures { Builds result (steps.literal_step s.entry.tokens.now stands x.now) }
{
    build_values_in_braces(make, x, s)
}

/// The literal value of the place.
#[tactic(auto, using(gs_places::proofs::Laws::at_literal, gs_places::proofs::Laws::end_literal))]
pub fn literal_tree<'a, M: Maker>(make: &M, s: Rest<'a>) -> Result<Piece<'a, LiteralValue>, Stop>
    requires faithful { M.is_faithful make.now }
    ensures { Builds result ((stands s.entry.tokens.now).literal) }
{
    let (x, rest) = s.next().ok_or(Stop::Absent)?;
    literal_from(make, x, rest)
}

/// The form `selected_literal` of the rest of a literal of a qualified type.
#[inline(never)]
#[tactic(auto, unfolding(gs_grammar::specs::Steps::read_selected_literal))]
fn build_selected_literal<'a, M: Maker>(
    alloc: Global,
    make: &M,
    x: &'a Token,
    s: Rest<'a>,
) -> Result<Piece<'a, (Token, LiteralValue)>, Stop>
    requires faithful { M.is_faithful make.now }
    ensures { Builds result (steps.read_selected_literal s.entry.tokens.now stands x.now) }
{
    let r0 = first_mark(Operator::Dot, x, s).ok_or(Stop::Absent)?;
    let (other, r1) = name_token(r0).ok_or(Stop::Absent)?;
    let other = copy(alloc, other)?;
    let Piece { tree: v, rest: r2 } = literal_tree(make, r1)?;
    Ok(Piece {
        tree: (other, v),
        rest: r2,
    })
}

/// The rest of a literal of a qualified type that begins with the token.
#[tactic(auto, unfolding(gs_grammar::specs::Steps::selected_step))]
pub fn selected_from<'a, M: Maker>(
    alloc: Global,
    make: &M,
    x: &'a Token,
    s: Rest<'a>,
) -> Result<Piece<'a, (Token, LiteralValue)>, Stop>
    requires faithful { M.is_faithful make.now }
    ensures { Builds result (steps.selected_step s.entry.tokens.now stands x.now) }
{
    build_selected_literal(alloc, make, x, s)
}

/// The rest of a literal of a qualified type of the place.
#[tactic(auto, using(gs_places::proofs::Laws::at_selected, gs_places::proofs::Laws::end_selected))]
pub fn selected_tree<'a, M: Maker>(
    alloc: Global,
    make: &M,
    s: Rest<'a>,
) -> Result<Piece<'a, (Token, LiteralValue)>, Stop>
    requires faithful { M.is_faithful make.now }
    ensures { Builds result ((stands s.entry.tokens.now).selected) }
{
    let (x, rest) = s.next().ok_or(Stop::Absent)?;
    selected_from(alloc, make, x, rest)
}

/// The form `braces` of the block.
#[inline(never)]
#[tactic(auto, unfolding(gs_grammar::specs::Steps::read_braces))]
fn build_braces<'a, M: Maker>(make: &M, x: &'a Token, s: Rest<'a>) -> Result<Piece<'a, Block>, Stop>
    requires faithful { M.is_faithful make.now }
    ensures { Builds result (steps.read_braces s.entry.tokens.now stands x.now) }
{
    let (p, r0) = first_mark_span(Operator::LeftBrace, x, s).ok_or(Stop::Absent)?;
    let f1 = at_stmts(r0).ok_or(Stop::Absent)?;
    let (q, r2) = mark_span(Operator::RightBrace, f1.rest).ok_or(Stop::Absent)?;
    let ts = make.make_stmts(r0)?.tree;
    Ok(Piece {
        tree: Block {
            left: p,
            statements: ts,
            right: q,
        },
        rest: r2,
    })
}

/// The block that begins with the token.
#[tactic(auto, unfolding(gs_grammar::specs::Steps::block_step))]
pub fn block_from<'a, M: Maker>(
    make: &M,
    x: &'a Token,
    s: Rest<'a>,
) -> Result<Piece<'a, Block>, Stop>
    requires faithful { M.is_faithful make.now }
    ensures { Builds result (steps.block_step s.entry.tokens.now stands x.now) }
{
    build_braces(make, x, s)
}

/// The block of the place.
#[tactic(auto, using(gs_places::proofs::Laws::at_block, gs_places::proofs::Laws::end_block))]
pub fn block_tree<'a, M: Maker>(make: &M, s: Rest<'a>) -> Result<Piece<'a, Block>, Stop>
    requires faithful { M.is_faithful make.now }
    ensures { Builds result ((stands s.entry.tokens.now).block) }
{
    let (x, rest) = s.next().ok_or(Stop::Absent)?;
    block_from(make, x, rest)
}

/// The form `received` of the type of a channel to receive from.
#[inline(never)]
#[tactic(auto, unfolding(gs_grammar::specs::Steps::read_received))]
fn build_received<'a, M: Maker>(
    make: &M,
    x: &'a Token,
    s: Rest<'a>,
) -> Result<Piece<'a, TypeExpr>, Stop>
    requires faithful { M.is_faithful make.now }
    ensures { Builds result (steps.read_received s.entry.tokens.now stands x.now) }
{
    let r0 = first_word(Keyword::Chan, x, s).ok_or(Stop::Absent)?;
    let f1 = at_type(r0).ok_or(Stop::Absent)?;
    if stop(f1.rest).is_none() {
        return Err(Stop::Absent);
    }
    let t = make.make_type(r0)?.tree;
    Ok(Piece {
        tree: t,
        rest: f1.rest,
    })
}

/// The type of a channel to receive from that begins with the token.
#[tactic(auto, unfolding(gs_grammar::specs::Steps::received_step))]
pub fn received_from<'a, M: Maker>(
    make: &M,
    x: &'a Token,
    s: Rest<'a>,
) -> Result<Piece<'a, TypeExpr>, Stop>
    requires faithful { M.is_faithful make.now }
    ensures { Builds result (steps.received_step s.entry.tokens.now stands x.now) }
{
    build_received(make, x, s)
}

/// The type of a channel to receive from of the place.
#[tactic(auto, using(gs_places::proofs::Laws::at_received, gs_places::proofs::Laws::end_received))]
pub fn received_tree<'a, M: Maker>(make: &M, s: Rest<'a>) -> Result<Piece<'a, TypeExpr>, Stop>
    requires faithful { M.is_faithful make.now }
    ensures { Builds result ((stands s.entry.tokens.now).received) }
{
    let (x, rest) = s.next().ok_or(Stop::Absent)?;
    received_from(make, x, rest)
}
