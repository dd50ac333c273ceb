//! The clauses of switch and select statements: where each form ends, from the table of the places behind it.
ghost use Rattle.std.specs.Prelude.{◌≡◌, ◌<◌, ◌+◌, ◌^◌, length, false};
ghost use Rattle.gs_grammar.specs.Steps as steps;
ghost use Rattle.gs_grammar.specs.Reference as reference;
ghost use Rattle.gs_places.specs.Places.{cell, stands};
ghost use Rattle.gs_places.specs.Spots.{Spots};

use gs_places::at::{
    at_clauses, at_comm_clauses, at_expr, at_exprs, at_stmts, at_type_clauses, at_types,
};
use gs_places::front::{first_word, is_mark, mark};
use gs_places::place::Cell;
use gs_places::rest::{Rest, Spot, deepest, kept, stay};
use gs_syntax::token::{Keyword, Operator, Token};

/// The form `a_case` of the clauses of a switch.
#[inline(always)]
#[tactic(auto, unfolding(gs_grammar::specs::Reference::read_a_case))]
pub fn read_a_case<'a>(x: &Token, s: Rest<'a>) -> Option<Spot<'a>>
    ensures { Spots result (reference.read_a_case s.entry.tokens.now stands x.now) }
{
    let r0 = first_word(Keyword::Case, x, s)?;
    let f1 = at_exprs(false, r0)?;
    let r2 = mark(Operator::Colon, f1.rest)?;
    let f3 = at_stmts(r2)?;
    let f4 = at_clauses(f3.rest)?;
    Some(Spot {
        depth: deepest(f1.depth, deepest(f3.depth, f4.depth)),
        rest: f4.rest,
    })
}

/// The form `a_default` of the clauses of a switch.
#[inline(always)]
#[tactic(auto, unfolding(gs_grammar::specs::Reference::read_a_default))]
pub fn read_a_default<'a>(x: &Token, s: Rest<'a>) -> Option<Spot<'a>>
    ensures { Spots result (reference.read_a_default s.entry.tokens.now stands x.now) }
{
    let r0 = first_word(Keyword::Default, x, s)?;
    let r1 = mark(Operator::Colon, r0)?;
    let f2 = at_stmts(r1)?;
    let f3 = at_clauses(f2.rest)?;
    Some(Spot {
        depth: deepest(f2.depth, f3.depth),
        rest: f3.rest,
    })
}

/// The clauses of a switch that begins with the token.
#[inline(always)]
#[tactic(auto, unfolding(gs_grammar::specs::Reference::clauses_step, gs_grammar::specs::Reference::read_no_clauses, gs_grammar::specs::Front::mark_at))]
pub fn clauses_by<'a>(x: &Token, s: Rest<'a>) -> Option<Cell>
    requires few { length s.tokens.now + 1 < 2 ^ 32 }
    ensures { result ≡ cell (reference.clauses_step s.entry.tokens.now stands x.now) }
{
    let found = read_a_case(x, s);
    if found.is_some() {
        return kept(found);
    }
    let found = read_a_default(x, s);
    if found.is_some() {
        return kept(found);
    }
    if is_mark(Operator::RightBrace, &x.kind) {
        Some(stay(s))
    } else {
        None
    }
}

/// The form `one_type` of the types.
#[inline(always)]
#[tactic(auto, unfolding(gs_grammar::specs::Reference::read_one_type))]
pub fn read_one_type<'a>(found_type: Option<Spot<'a>>, x: &Token, s: Rest<'a>) -> Option<Spot<'a>>
    requires found_type { Spots found_type (steps.type_step s.tokens.now stands x.now) }
    ensures { Spots result (reference.read_one_type s.entry.tokens.now stands x.now) }
{
    let f0 = found_type?;
    if mark(Operator::Comma, f0.rest).is_some() {
        return None;
    }
    Some(Spot {
        depth: f0.depth,
        rest: f0.rest,
    })
}

/// The form `more_cases` of the types.
#[inline(always)]
#[tactic(auto, unfolding(gs_grammar::specs::Reference::read_more_cases))]
pub fn read_more_cases<'a>(found_type: Option<Spot<'a>>, x: &Token, s: Rest<'a>) -> Option<Spot<'a>>
    requires found_type { Spots found_type (steps.type_step s.tokens.now stands x.now) }
    ensures { Spots result (reference.read_more_cases s.entry.tokens.now stands x.now) }
{
    let f0 = found_type?;
    let r1 = mark(Operator::Comma, f0.rest)?;
    let f2 = at_types(r1)?;
    Some(Spot {
        depth: deepest(f0.depth, f2.depth),
        rest: f2.rest,
    })
}

/// The types that begin with the token.
#[inline(always)]
#[tactic(auto, unfolding(gs_grammar::specs::Reference::types_step))]
pub fn types_by<'a>(found_type: Option<Spot<'a>>, x: &Token, s: Rest<'a>) -> Option<Spot<'a>>
    requires found_type { Spots found_type (steps.type_step s.tokens.now stands x.now) }
    ensures { Spots result (reference.types_step s.entry.tokens.now stands x.now) }
{
    let found = read_one_type(found_type, x, s);
    if found.is_some() {
        return found;
    }
    read_more_cases(found_type, x, s)
}

/// The form `a_type_case` of the clauses of a type switch.
#[inline(always)]
#[tactic(auto, unfolding(gs_grammar::specs::Reference::read_a_type_case))]
pub fn read_a_type_case<'a>(x: &Token, s: Rest<'a>) -> Option<Spot<'a>>
    ensures { Spots result (reference.read_a_type_case s.entry.tokens.now stands x.now) }
{
    let r0 = first_word(Keyword::Case, x, s)?;
    let f1 = at_types(r0)?;
    let r2 = mark(Operator::Colon, f1.rest)?;
    let f3 = at_stmts(r2)?;
    let f4 = at_type_clauses(f3.rest)?;
    Some(Spot {
        depth: deepest(f1.depth, deepest(f3.depth, f4.depth)),
        rest: f4.rest,
    })
}

/// The form `a_type_default` of the clauses of a type switch.
#[inline(always)]
#[tactic(auto, unfolding(gs_grammar::specs::Reference::read_a_type_default))]
pub fn read_a_type_default<'a>(x: &Token, s: Rest<'a>) -> Option<Spot<'a>>
    ensures { Spots result (reference.read_a_type_default s.entry.tokens.now stands x.now) }
{
    let r0 = first_word(Keyword::Default, x, s)?;
    let r1 = mark(Operator::Colon, r0)?;
    let f2 = at_stmts(r1)?;
    let f3 = at_type_clauses(f2.rest)?;
    Some(Spot {
        depth: deepest(f2.depth, f3.depth),
        rest: f3.rest,
    })
}

/// The clauses of a type switch that begins with the token.
#[inline(always)]
#[tactic(auto, unfolding(gs_grammar::specs::Reference::type_clauses_step, gs_grammar::specs::Reference::read_no_type_clauses, gs_grammar::specs::Front::mark_at))]
pub fn type_clauses_by<'a>(x: &Token, s: Rest<'a>) -> Option<Cell>
    requires few { length s.tokens.now + 1 < 2 ^ 32 }
    ensures { result ≡ cell (reference.type_clauses_step s.entry.tokens.now stands x.now) }
{
    let found = read_a_type_case(x, s);
    if found.is_some() {
        return kept(found);
    }
    let found = read_a_type_default(x, s);
    if found.is_some() {
        return kept(found);
    }
    if is_mark(Operator::RightBrace, &x.kind) {
        Some(stay(s))
    } else {
        None
    }
}

/// The form `comm_assign` of the communication.
#[inline(always)]
#[tactic(auto, unfolding(gs_grammar::specs::Reference::read_comm_assign))]
pub fn read_comm_assign<'a>(found: Option<Spot<'a>>, x: &Token, s: Rest<'a>) -> Option<Spot<'a>>
    requires found { Spots found (steps.exprs_step s.tokens.now stands false x.now) }
    ensures { Spots result (reference.read_comm_assign s.entry.tokens.now stands x.now) }
{
    let f0 = found?;
    let r1 = mark(Operator::Assign, f0.rest)?;
    let f2 = at_expr(5, false, r1)?;
    Some(Spot {
        depth: deepest(f0.depth, f2.depth),
        rest: f2.rest,
    })
}

/// The form `comm_define` of the communication.
#[inline(always)]
#[tactic(auto, unfolding(gs_grammar::specs::Reference::read_comm_define))]
pub fn read_comm_define<'a>(found: Option<Spot<'a>>, x: &Token, s: Rest<'a>) -> Option<Spot<'a>>
    requires found { Spots found (steps.exprs_step s.tokens.now stands false x.now) }
    ensures { Spots result (reference.read_comm_define s.entry.tokens.now stands x.now) }
{
    let f0 = found?;
    let r1 = mark(Operator::Define, f0.rest)?;
    let f2 = at_expr(5, false, r1)?;
    Some(Spot {
        depth: deepest(f0.depth, f2.depth),
        rest: f2.rest,
    })
}

/// The form `comm_send` of the communication.
#[inline(always)]
#[tactic(auto, unfolding(gs_grammar::specs::Reference::read_comm_send))]
pub fn read_comm_send<'a>(found: Option<Spot<'a>>, x: &Token, s: Rest<'a>) -> Option<Spot<'a>>
    requires found { Spots found (steps.expr_step s.tokens.now stands 5 false false x.now) }
    ensures { Spots result (reference.read_comm_send s.entry.tokens.now stands x.now) }
{
    let f0 = found?;
    let r1 = mark(Operator::Arrow, f0.rest)?;
    let f2 = at_expr(5, false, r1)?;
    Some(Spot {
        depth: deepest(f0.depth, f2.depth),
        rest: f2.rest,
    })
}

/// The form `comm_receive` of the communication.
#[inline(always)]
#[tactic(auto, unfolding(gs_grammar::specs::Reference::read_comm_receive))]
pub fn read_comm_receive<'a>(found: Option<Spot<'a>>, x: &Token, s: Rest<'a>) -> Option<Spot<'a>>
    requires found { Spots found (steps.expr_step s.tokens.now stands 5 false false x.now) }
    ensures { Spots result (reference.read_comm_receive s.entry.tokens.now stands x.now) }
{
    let f0 = found?;
    mark(Operator::Colon, f0.rest)?;
    Some(Spot {
        depth: f0.depth,
        rest: f0.rest,
    })
}

/// The communication that begins with the token.
#[inline(always)]
#[tactic(auto, unfolding(gs_grammar::specs::Reference::comm_step))]
pub fn comm_by<'a>(
    exprs: Option<Spot<'a>>,
    expr: Option<Spot<'a>>,
    x: &Token,
    s: Rest<'a>,
) -> Option<Spot<'a>>
    requires exprs { Spots exprs (steps.exprs_step s.tokens.now stands false x.now) }
    requires expr { Spots expr (steps.expr_step s.tokens.now stands 5 false false x.now) }
    ensures { Spots result (reference.comm_step s.entry.tokens.now stands x.now) }
{
    let found = read_comm_assign(exprs, x, s);
    if found.is_some() {
        return found;
    }
    let found = read_comm_define(exprs, x, s);
    if found.is_some() {
        return found;
    }
    let found = read_comm_send(expr, x, s);
    if found.is_some() {
        return found;
    }
    read_comm_receive(expr, x, s)
}

/// The communication of the place.
#[inline(always)]
#[tactic(auto, using(gs_places::proofs::Laws::at_comm, gs_places::proofs::Laws::end_comm, gs_places::proofs::Laws::at_exprs, gs_places::proofs::Laws::at_expr))]
pub fn comm<'a>(s: Rest<'a>) -> Option<Spot<'a>>
    ensures { Spots result ((stands s.entry.tokens.now).comm) }
{
    let (x, rest) = s.next()?;
    let exprs = at_exprs(false, s);
    let expr = at_expr(5, false, s);
    comm_by(exprs, expr, x, rest)
}

/// The form `a_comm` of the clauses of a select.
#[inline(always)]
#[tactic(auto, unfolding(gs_grammar::specs::Reference::read_a_comm))]
pub fn read_a_comm<'a>(x: &Token, s: Rest<'a>) -> Option<Spot<'a>>
    ensures { Spots result (reference.read_a_comm s.entry.tokens.now stands x.now) }
{
    let r0 = first_word(Keyword::Case, x, s)?;
    let f1 = comm(r0)?;
    let r2 = mark(Operator::Colon, f1.rest)?;
    let f3 = at_stmts(r2)?;
    let f4 = at_comm_clauses(f3.rest)?;
    Some(Spot {
        depth: deepest(f1.depth, deepest(f3.depth, f4.depth)),
        rest: f4.rest,
    })
}

/// The form `a_comm_default` of the clauses of a select.
#[inline(always)]
#[tactic(auto, unfolding(gs_grammar::specs::Reference::read_a_comm_default))]
pub fn read_a_comm_default<'a>(x: &Token, s: Rest<'a>) -> Option<Spot<'a>>
    ensures { Spots result (reference.read_a_comm_default s.entry.tokens.now stands x.now) }
{
    let r0 = first_word(Keyword::Default, x, s)?;
    let r1 = mark(Operator::Colon, r0)?;
    let f2 = at_stmts(r1)?;
    let f3 = at_comm_clauses(f2.rest)?;
    Some(Spot {
        depth: deepest(f2.depth, f3.depth),
        rest: f3.rest,
    })
}

/// The clauses of a select that begins with the token.
#[inline(always)]
#[tactic(auto, unfolding(gs_grammar::specs::Reference::comm_clauses_step, gs_grammar::specs::Reference::read_no_comms, gs_grammar::specs::Front::mark_at))]
pub fn comm_clauses_by<'a>(x: &Token, s: Rest<'a>) -> Option<Cell>
    requires few { length s.tokens.now + 1 < 2 ^ 32 }
    ensures { result ≡ cell (reference.comm_clauses_step s.entry.tokens.now stands x.now) }
{
    let found = read_a_comm(x, s);
    if found.is_some() {
        return kept(found);
    }
    let found = read_a_comm_default(x, s);
    if found.is_some() {
        return kept(found);
    }
    if is_mark(Operator::RightBrace, &x.kind) {
        Some(stay(s))
    } else {
        None
    }
}
