//! Statements: where each form ends, from the table of the places behind it.
ghost use Rattle.std.specs.Prelude.{◌≡◌, ◌<◌, ◌+◌, ◌^◌, length, false};
ghost use Rattle.gs_grammar.specs.Steps as steps;
ghost use Rattle.gs_grammar.specs.Reference as reference;
ghost use Rattle.gs_places.specs.Places.{cell, stands};
ghost use Rattle.gs_places.specs.Spots.{Spots};

use crate::parts::{condition, guard, header, post, range_left, tag_value};
use gs_places::at::{
    at_arms, at_clauses, at_comm_clauses, at_expr, at_exprs, at_stmt, at_stmts, at_type_clauses,
};
use gs_places::classes::{is_decl_start, is_list_end, is_semi, is_stmt_end};
use gs_places::front::{
    first_label, first_mark, first_name, first_word, mark, name, semi, stmt_end,
};
use gs_places::place::Cell;
use gs_places::rest::{Rest, Spot, deeper, deepest, kept, stay};
use gs_rows_expr::operands::block;
use gs_syntax::token::{Keyword, Operator, Token};

/// The form `some_values` of the values of a return.
#[inline(always)]
#[tactic(auto, unfolding(gs_grammar::specs::Reference::read_some_values))]
pub fn read_some_values<'a>(found: Option<Spot<'a>>, x: &Token, s: Rest<'a>) -> Option<Spot<'a>>
    requires found { Spots found (steps.exprs_step s.tokens.now stands false x.now) }
    ensures { Spots result (reference.read_some_values s.entry.tokens.now stands x.now) }
{
    found
}

/// The values of a return of the place.
#[inline(always)]
#[tactic(auto, using(gs_places::proofs::Laws::at_values, gs_places::proofs::Laws::end_values, gs_places::proofs::Laws::at_exprs), unfolding(gs_grammar::specs::Reference::values_step, gs_grammar::specs::Reference::read_no_values, gs_grammar::specs::Front::front_at))]
pub fn values<'a>(s: Rest<'a>) -> Option<Spot<'a>>
    ensures { Spots result ((stands s.entry.tokens.now).values) }
{
    let (x, rest) = s.next()?;
    let found = at_exprs(false, s);
    let tried = read_some_values(found, x, rest);
    if tried.is_some() {
        return tried;
    }
    if is_stmt_end(&x.kind) {
        Some(Spot { depth: 0, rest: s })
    } else {
        None
    }
}

/// The form `a_target` of the label of a branch.
#[inline(always)]
#[tactic(auto, unfolding(gs_grammar::specs::Reference::read_a_target))]
pub fn read_a_target<'a>(x: &Token, s: Rest<'a>) -> Option<Spot<'a>>
    ensures { Spots result (reference.read_a_target s.entry.tokens.now stands x.now) }
{
    let r0 = first_name(x, s)?;
    Some(Spot { depth: 0, rest: r0 })
}

/// The label of a branch of the place.
#[inline(always)]
#[tactic(auto, using(gs_places::proofs::Laws::at_target, gs_places::proofs::Laws::end_target), unfolding(gs_grammar::specs::Reference::target_step, gs_grammar::specs::Reference::read_no_target, gs_grammar::specs::Front::front_at))]
pub fn target<'a>(s: Rest<'a>) -> Option<Spot<'a>>
    ensures { Spots result ((stands s.entry.tokens.now).target) }
{
    let (x, rest) = s.next()?;
    let found = read_a_target(x, rest);
    if found.is_some() {
        return found;
    }
    if is_stmt_end(&x.kind) {
        Some(Spot { depth: 0, rest: s })
    } else {
        None
    }
}

/// The form `simple_stmt` of the statement.
#[inline(always)]
#[tactic(auto, unfolding(gs_grammar::specs::Reference::read_simple_stmt))]
pub fn read_simple_stmt<'a>(found: Option<Spot<'a>>, x: &Token, s: Rest<'a>) -> Option<Spot<'a>>
    requires found { Spots found (reference.simple_step s.tokens.now stands false x.now) }
    ensures { Spots result (reference.read_simple_stmt s.entry.tokens.now stands x.now) }
{
    if first_label(x, s).is_some() {
        return None;
    }
    found
}

/// The form `declaration_stmt` of the statement.
#[inline(always)]
#[tactic(auto, unfolding(gs_grammar::specs::Reference::read_declaration_stmt, gs_grammar::specs::Front::front_at))]
pub fn read_declaration_stmt<'a>(
    found: Option<Spot<'a>>,
    x: &Token,
    s: Rest<'a>,
) -> Option<Spot<'a>>
    requires found { Spots found (reference.decl_step s.tokens.now stands x.now) }
    ensures { Spots result (reference.read_declaration_stmt s.entry.tokens.now stands x.now) }
{
    if !is_decl_start(&x.kind) {
        return None;
    }
    found
}

/// The form `bare_label` of the statement.
#[inline(always)]
#[tactic(auto, unfolding(gs_grammar::specs::Reference::read_bare_label))]
pub fn read_bare_label<'a>(x: &Token, s: Rest<'a>) -> Option<Spot<'a>>
    ensures { Spots result (reference.read_bare_label s.entry.tokens.now stands x.now) }
{
    let r0 = first_name(x, s)?;
    let r1 = mark(Operator::Colon, r0)?;
    stmt_end(r1)?;
    Some(Spot { depth: 1, rest: r1 })
}

/// The form `labeled` of the statement.
#[inline(always)]
#[tactic(auto, unfolding(gs_grammar::specs::Reference::read_labeled))]
pub fn read_labeled<'a>(x: &Token, s: Rest<'a>) -> Option<Spot<'a>>
    ensures { Spots result (reference.read_labeled s.entry.tokens.now stands x.now) }
{
    let r0 = first_name(x, s)?;
    let r1 = mark(Operator::Colon, r0)?;
    if stmt_end(r1).is_some() {
        return None;
    }
    let f3 = at_stmt(r1)?;
    Some(Spot {
        depth: deeper(f3.depth),
        rest: f3.rest,
    })
}

/// The form `go` of the statement.
#[inline(always)]
#[tactic(auto, unfolding(gs_grammar::specs::Reference::read_go))]
pub fn read_go<'a>(x: &Token, s: Rest<'a>) -> Option<Spot<'a>>
    ensures { Spots result (reference.read_go s.entry.tokens.now stands x.now) }
{
    let r0 = first_word(Keyword::Go, x, s)?;
    at_expr(5, false, r0)
}

/// The form `defer` of the statement.
#[inline(always)]
#[tactic(auto, unfolding(gs_grammar::specs::Reference::read_defer))]
pub fn read_defer<'a>(x: &Token, s: Rest<'a>) -> Option<Spot<'a>>
    ensures { Spots result (reference.read_defer s.entry.tokens.now stands x.now) }
{
    let r0 = first_word(Keyword::Defer, x, s)?;
    at_expr(5, false, r0)
}

/// The form `return` of the statement.
#[inline(always)]
#[tactic(auto, unfolding(gs_grammar::specs::Reference::read_return))]
pub fn read_return<'a>(x: &Token, s: Rest<'a>) -> Option<Spot<'a>>
    ensures { Spots result (reference.read_return s.entry.tokens.now stands x.now) }
{
    let r0 = first_word(Keyword::Return, x, s)?;
    values(r0)
}

/// The form `break` of the statement.
#[inline(always)]
#[tactic(auto, unfolding(gs_grammar::specs::Reference::read_break))]
pub fn read_break<'a>(x: &Token, s: Rest<'a>) -> Option<Spot<'a>>
    ensures { Spots result (reference.read_break s.entry.tokens.now stands x.now) }
{
    let r0 = first_word(Keyword::Break, x, s)?;
    target(r0)
}

/// The form `continue` of the statement.
#[inline(always)]
#[tactic(auto, unfolding(gs_grammar::specs::Reference::read_continue))]
pub fn read_continue<'a>(x: &Token, s: Rest<'a>) -> Option<Spot<'a>>
    ensures { Spots result (reference.read_continue s.entry.tokens.now stands x.now) }
{
    let r0 = first_word(Keyword::Continue, x, s)?;
    target(r0)
}

/// The form `goto` of the statement.
#[inline(always)]
#[tactic(auto, unfolding(gs_grammar::specs::Reference::read_goto))]
pub fn read_goto<'a>(x: &Token, s: Rest<'a>) -> Option<Spot<'a>>
    ensures { Spots result (reference.read_goto s.entry.tokens.now stands x.now) }
{
    let r0 = first_word(Keyword::Goto, x, s)?;
    let r1 = name(r0)?;
    Some(Spot { depth: 0, rest: r1 })
}

/// The form `fallthrough` of the statement.
#[inline(always)]
#[tactic(auto, unfolding(gs_grammar::specs::Reference::read_fallthrough))]
pub fn read_fallthrough<'a>(x: &Token, s: Rest<'a>) -> Option<Spot<'a>>
    ensures { Spots result (reference.read_fallthrough s.entry.tokens.now stands x.now) }
{
    let r0 = first_word(Keyword::Fallthrough, x, s)?;
    Some(Spot { depth: 0, rest: r0 })
}

/// The form `block_stmt` of the statement.
#[inline(always)]
#[tactic(auto, unfolding(gs_grammar::specs::Reference::read_block_stmt))]
pub fn read_block_stmt<'a>(x: &Token, s: Rest<'a>) -> Option<Spot<'a>>
    ensures { Spots result (reference.read_block_stmt s.entry.tokens.now stands x.now) }
{
    let r0 = first_mark(Operator::LeftBrace, x, s)?;
    let f1 = at_stmts(r0)?;
    let r2 = mark(Operator::RightBrace, f1.rest)?;
    Some(Spot {
        depth: deeper(f1.depth),
        rest: r2,
    })
}

/// The form `if_stmt` of the statement.
#[inline(always)]
#[tactic(auto, unfolding(gs_grammar::specs::Reference::read_if_stmt))]
pub fn read_if_stmt<'a>(x: &Token, s: Rest<'a>) -> Option<Spot<'a>>
    ensures { Spots result (reference.read_if_stmt s.entry.tokens.now stands x.now) }
{
    let r0 = first_word(Keyword::If, x, s)?;
    at_arms(r0)
}

/// The form `header_type_switch` of the statement.
#[inline(always)]
#[tactic(auto, unfolding(gs_grammar::specs::Reference::read_header_type_switch))]
pub fn read_header_type_switch<'a>(x: &Token, s: Rest<'a>) -> Option<Spot<'a>>
    ensures { Spots result (reference.read_header_type_switch s.entry.tokens.now stands x.now) }
{
    let r0 = first_word(Keyword::Switch, x, s)?;
    let f1 = header(r0)?;
    let f2 = guard(f1.rest)?;
    let r3 = mark(Operator::LeftBrace, f2.rest)?;
    let f4 = at_type_clauses(r3)?;
    let r5 = mark(Operator::RightBrace, f4.rest)?;
    Some(Spot {
        depth: deepest(f1.depth, deepest(f2.depth, deeper(f4.depth))),
        rest: r5,
    })
}

/// The form `type_switch` of the statement.
#[inline(always)]
#[tactic(auto, unfolding(gs_grammar::specs::Reference::read_type_switch))]
pub fn read_type_switch<'a>(x: &Token, s: Rest<'a>) -> Option<Spot<'a>>
    ensures { Spots result (reference.read_type_switch s.entry.tokens.now stands x.now) }
{
    let r0 = first_word(Keyword::Switch, x, s)?;
    if header(r0).is_some() {
        return None;
    }
    let f2 = guard(r0)?;
    let r3 = mark(Operator::LeftBrace, f2.rest)?;
    let f4 = at_type_clauses(r3)?;
    let r5 = mark(Operator::RightBrace, f4.rest)?;
    Some(Spot {
        depth: deepest(f2.depth, deeper(f4.depth)),
        rest: r5,
    })
}

/// The form `header_switch` of the statement.
#[inline(always)]
#[tactic(auto, unfolding(gs_grammar::specs::Reference::read_header_switch))]
pub fn read_header_switch<'a>(x: &Token, s: Rest<'a>) -> Option<Spot<'a>>
    ensures { Spots result (reference.read_header_switch s.entry.tokens.now stands x.now) }
{
    let r0 = first_word(Keyword::Switch, x, s)?;
    let f1 = header(r0)?;
    if guard(f1.rest).is_some() {
        return None;
    }
    let f3 = tag_value(f1.rest)?;
    let r4 = mark(Operator::LeftBrace, f3.rest)?;
    let f5 = at_clauses(r4)?;
    let r6 = mark(Operator::RightBrace, f5.rest)?;
    Some(Spot {
        depth: deepest(f1.depth, deepest(f3.depth, deeper(f5.depth))),
        rest: r6,
    })
}

/// The form `switch` of the statement.
#[inline(always)]
#[tactic(auto, unfolding(gs_grammar::specs::Reference::read_switch))]
pub fn read_switch<'a>(x: &Token, s: Rest<'a>) -> Option<Spot<'a>>
    ensures { Spots result (reference.read_switch s.entry.tokens.now stands x.now) }
{
    let r0 = first_word(Keyword::Switch, x, s)?;
    if header(r0).is_some() {
        return None;
    }
    if guard(r0).is_some() {
        return None;
    }
    let f3 = tag_value(r0)?;
    let r4 = mark(Operator::LeftBrace, f3.rest)?;
    let f5 = at_clauses(r4)?;
    let r6 = mark(Operator::RightBrace, f5.rest)?;
    Some(Spot {
        depth: deepest(f3.depth, deeper(f5.depth)),
        rest: r6,
    })
}

/// The form `select` of the statement.
#[inline(always)]
#[tactic(auto, unfolding(gs_grammar::specs::Reference::read_select))]
pub fn read_select<'a>(x: &Token, s: Rest<'a>) -> Option<Spot<'a>>
    ensures { Spots result (reference.read_select s.entry.tokens.now stands x.now) }
{
    let r0 = first_word(Keyword::Select, x, s)?;
    let r1 = mark(Operator::LeftBrace, r0)?;
    let f2 = at_comm_clauses(r1)?;
    let r3 = mark(Operator::RightBrace, f2.rest)?;
    Some(Spot {
        depth: deeper(f2.depth),
        rest: r3,
    })
}

/// The form `endless` of the statement.
#[inline(always)]
#[tactic(auto, unfolding(gs_grammar::specs::Reference::read_endless))]
pub fn read_endless<'a>(x: &Token, s: Rest<'a>) -> Option<Spot<'a>>
    ensures { Spots result (reference.read_endless s.entry.tokens.now stands x.now) }
{
    let r0 = first_word(Keyword::For, x, s)?;
    mark(Operator::LeftBrace, r0)?;
    block(r0)
}

/// The form `range` of the statement.
#[inline(always)]
#[tactic(auto, unfolding(gs_grammar::specs::Reference::read_range))]
pub fn read_range<'a>(x: &Token, s: Rest<'a>) -> Option<Spot<'a>>
    ensures { Spots result (reference.read_range s.entry.tokens.now stands x.now) }
{
    let r0 = first_word(Keyword::For, x, s)?;
    if mark(Operator::LeftBrace, r0).is_some() {
        return None;
    }
    let f2 = range_left(r0)?;
    let f3 = at_expr(5, true, f2.rest)?;
    let f4 = block(f3.rest)?;
    Some(Spot {
        depth: deepest(f2.depth, deepest(f3.depth, f4.depth)),
        rest: f4.rest,
    })
}

/// The form `loop` of the statement.
#[inline(always)]
#[tactic(auto, unfolding(gs_grammar::specs::Reference::read_loop))]
pub fn read_loop<'a>(x: &Token, s: Rest<'a>) -> Option<Spot<'a>>
    ensures { Spots result (reference.read_loop s.entry.tokens.now stands x.now) }
{
    let r0 = first_word(Keyword::For, x, s)?;
    if mark(Operator::LeftBrace, r0).is_some() {
        return None;
    }
    if range_left(r0).is_some() {
        return None;
    }
    let f3 = header(r0)?;
    let f4 = condition(f3.rest)?;
    let r5 = semi(f4.rest)?;
    let f6 = post(r5)?;
    let f7 = block(f6.rest)?;
    Some(Spot {
        depth: deepest(f3.depth, deepest(f4.depth, deepest(f6.depth, f7.depth))),
        rest: f7.rest,
    })
}

/// The form `while` of the statement.
#[inline(always)]
#[tactic(auto, unfolding(gs_grammar::specs::Reference::read_while))]
pub fn read_while<'a>(x: &Token, s: Rest<'a>) -> Option<Spot<'a>>
    ensures { Spots result (reference.read_while s.entry.tokens.now stands x.now) }
{
    let r0 = first_word(Keyword::For, x, s)?;
    if mark(Operator::LeftBrace, r0).is_some() {
        return None;
    }
    if range_left(r0).is_some() {
        return None;
    }
    if header(r0).is_some() {
        return None;
    }
    let f4 = at_expr(5, true, r0)?;
    let f5 = block(f4.rest)?;
    Some(Spot {
        depth: deepest(f4.depth, f5.depth),
        rest: f5.rest,
    })
}

/// The statement that begins with the token.
#[inline(always)]
#[tactic(auto, unfolding(gs_grammar::specs::Reference::stmt_step))]
pub fn stmt_by<'a>(
    simple: Option<Spot<'a>>,
    decl: Option<Spot<'a>>,
    x: &Token,
    s: Rest<'a>,
) -> Option<Spot<'a>>
    requires simple { Spots simple (reference.simple_step s.tokens.now stands false x.now) }
    requires decl { Spots decl (reference.decl_step s.tokens.now stands x.now) }
    ensures { Spots result (reference.stmt_step s.entry.tokens.now stands x.now) }
{
    let found = read_simple_stmt(simple, x, s);
    if found.is_some() {
        return found;
    }
    let found = read_declaration_stmt(decl, x, s);
    if found.is_some() {
        return found;
    }
    let found = read_bare_label(x, s);
    if found.is_some() {
        return found;
    }
    let found = read_labeled(x, s);
    if found.is_some() {
        return found;
    }
    let found = read_go(x, s);
    if found.is_some() {
        return found;
    }
    let found = read_defer(x, s);
    if found.is_some() {
        return found;
    }
    let found = read_return(x, s);
    if found.is_some() {
        return found;
    }
    let found = read_break(x, s);
    if found.is_some() {
        return found;
    }
    let found = read_continue(x, s);
    if found.is_some() {
        return found;
    }
    let found = read_goto(x, s);
    if found.is_some() {
        return found;
    }
    let found = read_fallthrough(x, s);
    if found.is_some() {
        return found;
    }
    let found = read_block_stmt(x, s);
    if found.is_some() {
        return found;
    }
    let found = read_if_stmt(x, s);
    if found.is_some() {
        return found;
    }
    let found = read_header_type_switch(x, s);
    if found.is_some() {
        return found;
    }
    let found = read_type_switch(x, s);
    if found.is_some() {
        return found;
    }
    let found = read_header_switch(x, s);
    if found.is_some() {
        return found;
    }
    let found = read_switch(x, s);
    if found.is_some() {
        return found;
    }
    let found = read_select(x, s);
    if found.is_some() {
        return found;
    }
    let found = read_endless(x, s);
    if found.is_some() {
        return found;
    }
    let found = read_range(x, s);
    if found.is_some() {
        return found;
    }
    let found = read_loop(x, s);
    if found.is_some() {
        return found;
    }
    read_while(x, s)
}

/// The form `last_stmt` of the statements.
#[inline(always)]
#[tactic(auto, unfolding(gs_grammar::specs::Reference::read_last_stmt))]
pub fn read_last_stmt<'a>(found: Option<Spot<'a>>, x: &Token, s: Rest<'a>) -> Option<Spot<'a>>
    requires found { Spots found (reference.stmt_step s.tokens.now stands x.now) }
    ensures { Spots result (reference.read_last_stmt s.entry.tokens.now stands x.now) }
{
    let f0 = found?;
    mark(Operator::RightBrace, f0.rest)?;
    Some(Spot {
        depth: f0.depth,
        rest: f0.rest,
    })
}

/// The form `more_stmts` of the statements.
#[inline(always)]
#[tactic(auto, unfolding(gs_grammar::specs::Reference::read_more_stmts))]
pub fn read_more_stmts<'a>(found: Option<Spot<'a>>, x: &Token, s: Rest<'a>) -> Option<Spot<'a>>
    requires found { Spots found (reference.stmt_step s.tokens.now stands x.now) }
    ensures { Spots result (reference.read_more_stmts s.entry.tokens.now stands x.now) }
{
    let f0 = found?;
    let r1 = semi(f0.rest)?;
    let f2 = at_stmts(r1)?;
    Some(Spot {
        depth: deepest(f0.depth, f2.depth),
        rest: f2.rest,
    })
}

/// The form `empty_stmt` of the statements.
#[inline(always)]
#[tactic(auto, unfolding(gs_grammar::specs::Reference::read_empty_stmt, gs_grammar::specs::Front::front_at))]
pub fn read_empty_stmt<'a>(x: &Token, s: Rest<'a>) -> Option<Spot<'a>>
    ensures { Spots result (reference.read_empty_stmt s.entry.tokens.now stands x.now) }
{
    if !is_semi(&x.kind) {
        return None;
    }
    at_stmts(s)
}

/// The statements that begin with the token.
#[inline(always)]
#[tactic(auto, unfolding(gs_grammar::specs::Reference::stmts_step, gs_grammar::specs::Reference::read_no_stmts, gs_grammar::specs::Front::front_at))]
pub fn stmts_by<'a>(found: Option<Spot<'a>>, x: &Token, s: Rest<'a>) -> Option<Cell>
    requires few { length s.tokens.now + 1 < 2 ^ 32 }
    requires found { Spots found (reference.stmt_step s.tokens.now stands x.now) }
    ensures { result ≡ cell (reference.stmts_step s.entry.tokens.now stands x.now) }
{
    let tried = read_last_stmt(found, x, s);
    if tried.is_some() {
        return kept(tried);
    }
    let tried = read_more_stmts(found, x, s);
    if tried.is_some() {
        return kept(tried);
    }
    let tried = read_empty_stmt(x, s);
    if tried.is_some() {
        return kept(tried);
    }
    if is_list_end(&x.kind) {
        Some(stay(s))
    } else {
        None
    }
}
