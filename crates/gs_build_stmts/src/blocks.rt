//! Trees of the statements that hold blocks.
ghost use Rattle.gs_grammar.specs.Reference as reference;
ghost use Rattle.gs_places.specs.Places.{stands};
ghost use Rattle.gs_build_stmts.specs.Tails.{tail_of_header_switch, tail_of_header_type_switch, tail_of_loop, tail_of_range};
ghost use Rattle.gs_build_base.specs.Pieces.{Builds, Gives};

use gs_build_base::front::{first_mark_span, first_word_span, mark_span};
use gs_build_base::maker::Maker;
use gs_build_base::pieces::{Piece, Stop};
use gs_build_clauses::arms::arms_tree;
use gs_build_clauses::clauses::{clauses_tree, comm_clauses_tree, type_clauses_tree};
use gs_build_clauses::parts::{
    condition_tree, guard_tree, header_tree, post_tree, range_left_tree, tag_value_tree,
};
use gs_build_pairs::pairs::{
    expr_and_block, guard_and_clauses, header_and_condition, header_and_switch,
    header_and_type_switch, left_and_range, loop_parts, post_and_block, tag_and_clauses,
};
use gs_grammar::trees::{Block, Clause, Expr, Simple, Stmt, TypeClause};
use gs_places::at::{at_clauses, at_comm_clauses, at_expr, at_stmts, at_type_clauses};
use gs_places::front::{mark, semi};
use gs_places::rest::Rest;
use gs_rows::parts::{condition, guard, header, post, range_left, tag_value};
use gs_syntax::token::{Keyword, Operator, Span, Token};
use sqlite_items::Items;
use std::alloc::Global;

/// The form `block_stmt` of the statement.
#[inline(never)]
#[tactic(auto, unfolding(gs_grammar::specs::Reference::read_block_stmt))]
pub(crate) fn build_block_stmt<'a, M: Maker>(
    make: &M,
    x: &'a Token,
    s: Rest<'a>,
) -> Result<Piece<'a, Stmt>, Stop>
    requires faithful { M.is_faithful make.now }
    ensures { Builds result (reference.read_block_stmt s.entry.tokens.now stands x.now) }
{
    let (p, r0) = first_mark_span(Operator::LeftBrace, x, s).ok_or(Stop::Absent)?;
    let f1 = at_stmts(r0).ok_or(Stop::Absent)?;
    let (q, r2) = mark_span(Operator::RightBrace, f1.rest).ok_or(Stop::Absent)?;
    let ts = make.make_stmts(r0)?.tree;
    Ok(Piece {
        tree: Stmt::Block(Block {
            left: p,
            statements: ts,
            right: q,
        }),
        rest: r2,
    })
}

/// The form `if_stmt` of the statement.
#[inline(never)]
#[tactic(auto, unfolding(gs_grammar::specs::Reference::read_if_stmt))]
pub(crate) fn build_if_stmt<'a, M: Maker>(
    alloc: Global,
    make: &M,
    x: &'a Token,
    s: Rest<'a>,
) -> Result<Piece<'a, Stmt>, Stop>
    requires faithful { M.is_faithful make.now }
    ensures { Builds result (reference.read_if_stmt s.entry.tokens.now stands x.now) }
{
    let (p, r0) = first_word_span(Keyword::If, x, s).ok_or(Stop::Absent)?;
    let Piece {
        tree: (a0, a1),
        rest: r1,
    } = arms_tree(alloc, make, r0)?;
    Ok(Piece {
        tree: Stmt::If(p, a0, a1),
        rest: r1,
    })
}

/// The end of the form `header_type_switch` of the statement.
#[inline(never)]
#[tactic(auto, unfolding(crate::specs::Tails::tail_of_header_type_switch))]
fn build_header_type_switch_end<'a, M: Maker>(
    alloc: Global,
    make: &M,
    s: Rest<'a>,
) -> Result<Piece<'a, ((Option<(Token, Span)>, Expr, Span), Items<TypeClause>, Span)>, Stop>
    requires faithful { M.is_faithful make.now }
    ensures { Gives result (tail_of_header_type_switch s.entry.tokens.now) }
{
    let f0 = guard(s).ok_or(Stop::Absent)?;
    let r1 = mark(Operator::LeftBrace, f0.rest).ok_or(Stop::Absent)?;
    let f2 = at_type_clauses(r1).ok_or(Stop::Absent)?;
    let (q, r3) = mark_span(Operator::RightBrace, f2.rest).ok_or(Stop::Absent)?;
    let guarded = guard_tree(alloc, make, s);
    let clauses = type_clauses_tree(alloc, make, r1);
    let (y, cs) = guard_and_clauses(guarded, clauses)?.tree;
    Ok(Piece {
        tree: (y, cs, q),
        rest: r3,
    })
}

/// The form `header_type_switch` of the statement.
#[inline(never)]
#[tactic(auto, unfolding(gs_grammar::specs::Reference::read_header_type_switch, crate::specs::Tails::tail_of_header_type_switch))]
pub(crate) fn build_header_type_switch<'a, M: Maker>(
    alloc: Global,
    make: &M,
    x: &'a Token,
    s: Rest<'a>,
) -> Result<Piece<'a, Stmt>, Stop>
    requires faithful { M.is_faithful make.now }
    ensures { Builds result (reference.read_header_type_switch s.entry.tokens.now stands x.now) }
{
    let (p, r0) = first_word_span(Keyword::Switch, x, s).ok_or(Stop::Absent)?;
    let f1 = header(r0).ok_or(Stop::Absent)?;
    let init = header_tree(alloc, make, r0);
    let end = build_header_type_switch_end(alloc, make, f1.rest);
    let Piece {
        tree: (i, ((y0, y1, y2), cs, q)),
        rest: r2,
    } = header_and_type_switch(init, end)?;
    Ok(Piece {
        tree: Stmt::TypeSwitch(p, i, y0, y1, y2, cs, q),
        rest: r2,
    })
}

/// The form `type_switch` of the statement.
#[inline(never)]
#[tactic(auto, unfolding(gs_grammar::specs::Reference::read_type_switch, crate::specs::Tails::tail_of_header_type_switch))]
pub(crate) fn build_type_switch<'a, M: Maker>(
    alloc: Global,
    make: &M,
    x: &'a Token,
    s: Rest<'a>,
) -> Result<Piece<'a, Stmt>, Stop>
    requires faithful { M.is_faithful make.now }
    ensures { Builds result (reference.read_type_switch s.entry.tokens.now stands x.now) }
{
    let (p, r0) = first_word_span(Keyword::Switch, x, s).ok_or(Stop::Absent)?;
    if header(r0).is_some() {
        return Err(Stop::Absent);
    }
    let Piece {
        tree: ((y0, y1, y2), cs, q),
        rest: r2,
    } = build_header_type_switch_end(alloc, make, r0)?;
    Ok(Piece {
        tree: Stmt::TypeSwitch(p, Simple::Empty, y0, y1, y2, cs, q),
        rest: r2,
    })
}

/// The end of the form `header_switch` of the statement.
#[inline(never)]
#[tactic(auto, unfolding(crate::specs::Tails::tail_of_header_switch))]
fn build_header_switch_end<'a, M: Maker>(
    alloc: Global,
    make: &M,
    s: Rest<'a>,
) -> Result<Piece<'a, (Option<Expr>, Items<Clause>, Span)>, Stop>
    requires faithful { M.is_faithful make.now }
    ensures { Gives result (tail_of_header_switch s.entry.tokens.now) }
{
    let f0 = tag_value(s).ok_or(Stop::Absent)?;
    let r1 = mark(Operator::LeftBrace, f0.rest).ok_or(Stop::Absent)?;
    let f2 = at_clauses(r1).ok_or(Stop::Absent)?;
    let (q, r3) = mark_span(Operator::RightBrace, f2.rest).ok_or(Stop::Absent)?;
    let tag = tag_value_tree(make, s);
    let clauses = clauses_tree(alloc, make, r1);
    let (o, cs) = tag_and_clauses(tag, clauses)?.tree;
    Ok(Piece {
        tree: (o, cs, q),
        rest: r3,
    })
}

/// The form `header_switch` of the statement.
#[inline(never)]
#[tactic(auto, unfolding(gs_grammar::specs::Reference::read_header_switch, crate::specs::Tails::tail_of_header_switch))]
pub(crate) fn build_header_switch<'a, M: Maker>(
    alloc: Global,
    make: &M,
    x: &'a Token,
    s: Rest<'a>,
) -> Result<Piece<'a, Stmt>, Stop>
    requires faithful { M.is_faithful make.now }
    ensures { Builds result (reference.read_header_switch s.entry.tokens.now stands x.now) }
{
    let (p, r0) = first_word_span(Keyword::Switch, x, s).ok_or(Stop::Absent)?;
    let f1 = header(r0).ok_or(Stop::Absent)?;
    if guard(f1.rest).is_some() {
        return Err(Stop::Absent);
    }
    let init = header_tree(alloc, make, r0);
    let end = build_header_switch_end(alloc, make, f1.rest);
    let Piece {
        tree: (i, (o, cs, q)),
        rest: r3,
    } = header_and_switch(init, end)?;
    Ok(Piece {
        tree: Stmt::Switch(p, i, o, cs, q),
        rest: r3,
    })
}

/// The form `switch` of the statement.
#[inline(never)]
#[tactic(auto, unfolding(gs_grammar::specs::Reference::read_switch, crate::specs::Tails::tail_of_header_switch))]
pub(crate) fn build_switch<'a, M: Maker>(
    alloc: Global,
    make: &M,
    x: &'a Token,
    s: Rest<'a>,
) -> Result<Piece<'a, Stmt>, Stop>
    requires faithful { M.is_faithful make.now }
    ensures { Builds result (reference.read_switch s.entry.tokens.now stands x.now) }
{
    let (p, r0) = first_word_span(Keyword::Switch, x, s).ok_or(Stop::Absent)?;
    if header(r0).is_some() {
        return Err(Stop::Absent);
    }
    if guard(r0).is_some() {
        return Err(Stop::Absent);
    }
    let Piece {
        tree: (o, cs, q),
        rest: r3,
    } = build_header_switch_end(alloc, make, r0)?;
    Ok(Piece {
        tree: Stmt::Switch(p, Simple::Empty, o, cs, q),
        rest: r3,
    })
}

/// The form `select` of the statement.
#[inline(never)]
#[tactic(auto, unfolding(gs_grammar::specs::Reference::read_select))]
pub(crate) fn build_select<'a, M: Maker>(
    alloc: Global,
    make: &M,
    x: &'a Token,
    s: Rest<'a>,
) -> Result<Piece<'a, Stmt>, Stop>
    requires faithful { M.is_faithful make.now }
    ensures { Builds result (reference.read_select s.entry.tokens.now stands x.now) }
{
    let (p, r0) = first_word_span(Keyword::Select, x, s).ok_or(Stop::Absent)?;
    let r1 = mark(Operator::LeftBrace, r0).ok_or(Stop::Absent)?;
    let f2 = at_comm_clauses(r1).ok_or(Stop::Absent)?;
    let (q, r3) = mark_span(Operator::RightBrace, f2.rest).ok_or(Stop::Absent)?;
    let cs = comm_clauses_tree(alloc, make, r1)?.tree;
    Ok(Piece {
        tree: Stmt::Select(p, cs, q),
        rest: r3,
    })
}

/// The form `endless` of the statement.
#[inline(never)]
#[tactic(auto, unfolding(gs_grammar::specs::Reference::read_endless))]
pub(crate) fn build_endless<'a, M: Maker>(
    make: &M,
    x: &'a Token,
    s: Rest<'a>,
) -> Result<Piece<'a, Stmt>, Stop>
    requires faithful { M.is_faithful make.now }
    ensures { Builds result (reference.read_endless s.entry.tokens.now stands x.now) }
{
    let (p, r0) = first_word_span(Keyword::For, x, s).ok_or(Stop::Absent)?;
    if mark(Operator::LeftBrace, r0).is_none() {
        return Err(Stop::Absent);
    }
    let Piece { tree: b, rest: r2 } = make.make_block(r0)?;
    Ok(Piece {
        tree: Stmt::While(p, None, b),
        rest: r2,
    })
}

/// The end of the form `range` of the statement.
#[inline(never)]
#[tactic(auto, unfolding(crate::specs::Tails::tail_of_range))]
fn build_range_end<'a, M: Maker>(make: &M, s: Rest<'a>) -> Result<Piece<'a, (Expr, Block)>, Stop>
    requires faithful { M.is_faithful make.now }
    ensures { Gives result (tail_of_range s.entry.tokens.now) }
{
    let f0 = at_expr(5, true, s).ok_or(Stop::Absent)?;
    expr_and_block(make.make_expr(5, true, false, s), make.make_block(f0.rest))
}

/// The form `range` of the statement.
#[inline(never)]
#[tactic(auto, unfolding(gs_grammar::specs::Reference::read_range, crate::specs::Tails::tail_of_range))]
pub(crate) fn build_range<'a, M: Maker>(
    make: &M,
    x: &'a Token,
    s: Rest<'a>,
) -> Result<Piece<'a, Stmt>, Stop>
    requires faithful { M.is_faithful make.now }
    ensures { Builds result (reference.read_range s.entry.tokens.now stands x.now) }
{
    let (p, r0) = first_word_span(Keyword::For, x, s).ok_or(Stop::Absent)?;
    if mark(Operator::LeftBrace, r0).is_some() {
        return Err(Stop::Absent);
    }
    let f2 = range_left(r0).ok_or(Stop::Absent)?;
    let left = range_left_tree(make, r0);
    let end = build_range_end(make, f2.rest);
    let Piece {
        tree: (item, (t, b)),
        rest: r3,
    } = left_and_range(left, end)?;
    Ok(Piece {
        tree: Stmt::Range(p, item, t, b),
        rest: r3,
    })
}

/// The end of the form `loop` of the statement.
#[inline(never)]
#[tactic(auto, unfolding(crate::specs::Tails::tail_of_loop))]
fn build_loop_end<'a, M: Maker>(
    alloc: Global,
    make: &M,
    s: Rest<'a>,
) -> Result<Piece<'a, (Simple, Block)>, Stop>
    requires faithful { M.is_faithful make.now }
    ensures { Gives result (tail_of_loop s.entry.tokens.now) }
{
    let f0 = post(s).ok_or(Stop::Absent)?;
    post_and_block(post_tree(alloc, make, s), make.make_block(f0.rest))
}

/// The form `loop` of the statement.
#[inline(never)]
#[tactic(auto, unfolding(gs_grammar::specs::Reference::read_loop, crate::specs::Tails::tail_of_loop))]
pub(crate) fn build_loop<'a, M: Maker>(
    alloc: Global,
    make: &M,
    x: &'a Token,
    s: Rest<'a>,
) -> Result<Piece<'a, Stmt>, Stop>
    requires faithful { M.is_faithful make.now }
    ensures { Builds result (reference.read_loop s.entry.tokens.now stands x.now) }
{
    let (p, r0) = first_word_span(Keyword::For, x, s).ok_or(Stop::Absent)?;
    if mark(Operator::LeftBrace, r0).is_some() {
        return Err(Stop::Absent);
    }
    if range_left(r0).is_some() {
        return Err(Stop::Absent);
    }
    let f3 = header(r0).ok_or(Stop::Absent)?;
    let f4 = condition(f3.rest).ok_or(Stop::Absent)?;
    let r5 = semi(f4.rest).ok_or(Stop::Absent)?;
    let init = header_tree(alloc, make, r0);
    let test = condition_tree(make, f3.rest);
    let start = header_and_condition(init, test);
    let end = build_loop_end(alloc, make, r5);
    let Piece {
        tree: ((i, o), (j, b)),
        rest: r6,
    } = loop_parts(start, end)?;
    Ok(Piece {
        tree: Stmt::Loop(p, i, o, j, b),
        rest: r6,
    })
}

/// The form `while` of the statement.
#[inline(never)]
#[tactic(auto, unfolding(gs_grammar::specs::Reference::read_while))]
pub(crate) fn build_while<'a, M: Maker>(
    make: &M,
    x: &'a Token,
    s: Rest<'a>,
) -> Result<Piece<'a, Stmt>, Stop>
    requires faithful { M.is_faithful make.now }
    ensures { Builds result (reference.read_while s.entry.tokens.now stands x.now) }
{
    let (p, r0) = first_word_span(Keyword::For, x, s).ok_or(Stop::Absent)?;
    if mark(Operator::LeftBrace, r0).is_some() {
        return Err(Stop::Absent);
    }
    if range_left(r0).is_some() {
        return Err(Stop::Absent);
    }
    if header(r0).is_some() {
        return Err(Stop::Absent);
    }
    let f4 = at_expr(5, true, r0).ok_or(Stop::Absent)?;
    let test = make.make_expr(5, true, false, r0);
    let body = make.make_block(f4.rest);
    let Piece {
        tree: (t, b),
        rest: r5,
    } = expr_and_block(test, body)?;
    Ok(Piece {
        tree: Stmt::While(p, Some(t), b),
        rest: r5,
    })
}
