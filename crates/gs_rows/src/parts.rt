//! The parts of statements: where each form ends, from the table of the places behind it.
ghost use Rattle.std.specs.Prelude.{true, false};
ghost use Rattle.gs_grammar.specs.Steps as steps;
ghost use Rattle.gs_grammar.specs.Reference as reference;
ghost use Rattle.gs_places.specs.Places.{stands};
ghost use Rattle.gs_places.specs.Spots.{Spots};

use crate::simples::{read_assign, read_define, simple_by};
use gs_places::at::{at_expr, at_exprs, at_type};
use gs_places::classes::is_semi;
use gs_places::front::{first_defined, first_name, first_word, is_mark, mark, semi, word};
use gs_places::rest::{Rest, Spot, deepest};
use gs_rows_expr::operands::{head_by, primary, primary_by};
use gs_syntax::token::{Keyword, Operator, Token};

/// The form `a_tag_value` of the value of a switch.
#[inline(always)]
#[tactic(auto, unfolding(gs_grammar::specs::Reference::read_a_tag_value))]
pub fn read_a_tag_value<'a>(found: Option<Spot<'a>>, x: &Token, s: Rest<'a>) -> Option<Spot<'a>>
    requires found { Spots found (steps.expr_step s.tokens.now stands 5 true false x.now) }
    ensures { Spots result (reference.read_a_tag_value s.entry.tokens.now stands x.now) }
{
    found
}

/// The value of a switch of the place.
#[inline(always)]
#[tactic(auto, using(gs_places::proofs::Laws::at_tag_value, gs_places::proofs::Laws::end_tag_value, gs_places::proofs::Laws::at_expr), unfolding(gs_grammar::specs::Reference::tag_value_step, gs_grammar::specs::Reference::read_no_tag_value, gs_grammar::specs::Front::mark_at))]
pub fn tag_value<'a>(s: Rest<'a>) -> Option<Spot<'a>>
    ensures { Spots result ((stands s.entry.tokens.now).tag_value) }
{
    let (x, rest) = s.next()?;
    let found = at_expr(5, true, s);
    let tried = read_a_tag_value(found, x, rest);
    if tried.is_some() {
        return tried;
    }
    if is_mark(Operator::LeftBrace, &x.kind) {
        Some(Spot { depth: 0, rest: s })
    } else {
        None
    }
}

/// The form `plain_guard` of the guard of a type switch.
#[inline(always)]
#[tactic(auto, unfolding(gs_grammar::specs::Reference::read_plain_guard))]
pub fn read_plain_guard<'a>(found: Option<Spot<'a>>, x: &Token, s: Rest<'a>) -> Option<Spot<'a>>
    requires found { Spots found (steps.primary_step s.tokens.now stands true x.now) }
    ensures { Spots result (reference.read_plain_guard s.entry.tokens.now stands x.now) }
{
    if first_defined(x, s).is_some() {
        return None;
    }
    let f1 = found?;
    let r2 = mark(Operator::Dot, f1.rest)?;
    let r3 = mark(Operator::LeftParen, r2)?;
    let r4 = word(Keyword::Type, r3)?;
    let r5 = mark(Operator::RightParen, r4)?;
    Some(Spot {
        depth: deepest(f1.depth, 1),
        rest: r5,
    })
}

/// The form `named_guard` of the guard of a type switch.
#[inline(always)]
#[tactic(auto, unfolding(gs_grammar::specs::Reference::read_named_guard))]
pub fn read_named_guard<'a>(x: &Token, s: Rest<'a>) -> Option<Spot<'a>>
    ensures { Spots result (reference.read_named_guard s.entry.tokens.now stands x.now) }
{
    let r0 = first_name(x, s)?;
    let r1 = mark(Operator::Define, r0)?;
    let f2 = primary(true, r1)?;
    let r3 = mark(Operator::Dot, f2.rest)?;
    let r4 = mark(Operator::LeftParen, r3)?;
    let r5 = word(Keyword::Type, r4)?;
    let r6 = mark(Operator::RightParen, r5)?;
    Some(Spot {
        depth: deepest(f2.depth, 1),
        rest: r6,
    })
}

/// The guard of a type switch that begins with the token.
#[inline(always)]
#[tactic(auto, unfolding(gs_grammar::specs::Reference::guard_step))]
pub fn guard_by<'a>(found: Option<Spot<'a>>, x: &Token, s: Rest<'a>) -> Option<Spot<'a>>
    requires found { Spots found (steps.primary_step s.tokens.now stands true x.now) }
    ensures { Spots result (reference.guard_step s.entry.tokens.now stands x.now) }
{
    let tried = read_plain_guard(found, x, s);
    if tried.is_some() {
        return tried;
    }
    read_named_guard(x, s)
}

/// The guard of a type switch of the place.
#[inline(always)]
#[tactic(auto, using(gs_places::proofs::Laws::at_guard, gs_places::proofs::Laws::end_guard, gs_places::proofs::Laws::at_type))]
pub fn guard<'a>(s: Rest<'a>) -> Option<Spot<'a>>
    ensures { Spots result ((stands s.entry.tokens.now).guard) }
{
    let (x, rest) = s.next()?;
    let found = primary_by(true, head_by(true, at_type(s), x, rest), x, rest);
    guard_by(found, x, rest)
}

/// The form `init_header` of the init statement.
#[inline(always)]
#[tactic(auto, unfolding(gs_grammar::specs::Reference::read_init_header))]
pub fn read_init_header<'a>(found: Option<Spot<'a>>, x: &Token, s: Rest<'a>) -> Option<Spot<'a>>
    requires found { Spots found (reference.simple_step s.tokens.now stands true x.now) }
    ensures { Spots result (reference.read_init_header s.entry.tokens.now stands x.now) }
{
    let f0 = found?;
    let r1 = semi(f0.rest)?;
    Some(Spot {
        depth: f0.depth,
        rest: r1,
    })
}

/// The form `no_header` of the init statement.
#[inline(always)]
#[tactic(auto, unfolding(gs_grammar::specs::Reference::read_no_header, gs_grammar::specs::Front::front_at))]
pub fn read_no_header<'a>(x: &Token, s: Rest<'a>) -> Option<Spot<'a>>
    ensures { Spots result (reference.read_no_header s.entry.tokens.now stands x.now) }
{
    if !is_semi(&x.kind) {
        return None;
    }
    Some(Spot { depth: 0, rest: s })
}

/// The init statement that begins with the token.
#[inline(always)]
#[tactic(auto, unfolding(gs_grammar::specs::Reference::header_step))]
pub fn header_by<'a>(found: Option<Spot<'a>>, x: &Token, s: Rest<'a>) -> Option<Spot<'a>>
    requires found { Spots found (reference.simple_step s.tokens.now stands true x.now) }
    ensures { Spots result (reference.header_step s.entry.tokens.now stands x.now) }
{
    let tried = read_init_header(found, x, s);
    if tried.is_some() {
        return tried;
    }
    read_no_header(x, s)
}

/// The init statement of the place.
#[inline(always)]
#[tactic(auto, using(gs_places::proofs::Laws::at_header, gs_places::proofs::Laws::end_header, gs_places::proofs::Laws::at_exprs, gs_places::proofs::Laws::at_expr))]
pub fn header<'a>(s: Rest<'a>) -> Option<Spot<'a>>
    ensures { Spots result ((stands s.entry.tokens.now).header) }
{
    let (x, rest) = s.next()?;
    let found = simple_by(true, at_exprs(true, s), at_expr(5, true, s), x, rest);
    header_by(found, x, rest)
}

/// The form `a_condition` of the condition.
#[inline(always)]
#[tactic(auto, unfolding(gs_grammar::specs::Reference::read_a_condition))]
pub fn read_a_condition<'a>(found: Option<Spot<'a>>, x: &Token, s: Rest<'a>) -> Option<Spot<'a>>
    requires found { Spots found (steps.expr_step s.tokens.now stands 5 true false x.now) }
    ensures { Spots result (reference.read_a_condition s.entry.tokens.now stands x.now) }
{
    found
}

/// The condition of the place.
#[inline(always)]
#[tactic(auto, using(gs_places::proofs::Laws::at_condition, gs_places::proofs::Laws::end_condition, gs_places::proofs::Laws::at_expr), unfolding(gs_grammar::specs::Reference::condition_step, gs_grammar::specs::Reference::read_no_condition, gs_grammar::specs::Front::front_at))]
pub fn condition<'a>(s: Rest<'a>) -> Option<Spot<'a>>
    ensures { Spots result ((stands s.entry.tokens.now).condition) }
{
    let (x, rest) = s.next()?;
    let found = at_expr(5, true, s);
    let tried = read_a_condition(found, x, rest);
    if tried.is_some() {
        return tried;
    }
    if is_semi(&x.kind) {
        Some(Spot { depth: 0, rest: s })
    } else {
        None
    }
}

/// The form `a_post` of the post statement.
#[inline(always)]
#[tactic(auto, using(crate::proofs::Defines::post_law))]
pub fn read_a_post<'a>(
    exprs: Option<Spot<'a>>,
    simple: Option<Spot<'a>>,
    x: &Token,
    s: Rest<'a>,
) -> Option<Spot<'a>>
    requires exprs { Spots exprs (steps.exprs_step s.tokens.now stands true x.now) }
    requires simple { Spots simple (reference.simple_step s.tokens.now stands true x.now) }
    ensures { Spots result (reference.read_a_post s.entry.tokens.now stands x.now) }
{
    let found = simple?;
    if read_assign(true, exprs, x, s).is_none() && read_define(true, exprs, x, s).is_some() {
        return None;
    }
    Some(found)
}

/// The post statement of the place.
#[inline(always)]
#[tactic(auto, using(gs_places::proofs::Laws::at_post, gs_places::proofs::Laws::end_post, gs_places::proofs::Laws::at_exprs, gs_places::proofs::Laws::at_expr), unfolding(gs_grammar::specs::Reference::post_step, gs_grammar::specs::Reference::read_no_post, gs_grammar::specs::Front::mark_at))]
pub fn post<'a>(s: Rest<'a>) -> Option<Spot<'a>>
    ensures { Spots result ((stands s.entry.tokens.now).post) }
{
    let (x, rest) = s.next()?;
    let exprs = at_exprs(true, s);
    let simple = simple_by(true, exprs, at_expr(5, true, s), x, rest);
    let found = read_a_post(exprs, simple, x, rest);
    if found.is_some() {
        return found;
    }
    if is_mark(Operator::LeftBrace, &x.kind) {
        Some(Spot { depth: 0, rest: s })
    } else {
        None
    }
}

/// The form `range_assign` of the left side of a range.
#[inline(always)]
#[tactic(auto, unfolding(gs_grammar::specs::Reference::read_range_assign))]
pub fn read_range_assign<'a>(found: Option<Spot<'a>>, x: &Token, s: Rest<'a>) -> Option<Spot<'a>>
    requires found { Spots found (steps.exprs_step s.tokens.now stands true x.now) }
    ensures { Spots result (reference.read_range_assign s.entry.tokens.now stands x.now) }
{
    let f0 = found?;
    let r1 = mark(Operator::Assign, f0.rest)?;
    let r2 = word(Keyword::Range, r1)?;
    Some(Spot {
        depth: f0.depth,
        rest: r2,
    })
}

/// The form `range_define` of the left side of a range.
#[inline(always)]
#[tactic(auto, unfolding(gs_grammar::specs::Reference::read_range_define))]
pub fn read_range_define<'a>(found: Option<Spot<'a>>, x: &Token, s: Rest<'a>) -> Option<Spot<'a>>
    requires found { Spots found (steps.exprs_step s.tokens.now stands true x.now) }
    ensures { Spots result (reference.read_range_define s.entry.tokens.now stands x.now) }
{
    let f0 = found?;
    let r1 = mark(Operator::Define, f0.rest)?;
    let r2 = word(Keyword::Range, r1)?;
    Some(Spot {
        depth: f0.depth,
        rest: r2,
    })
}

/// The form `no_range_left` of the left side of a range.
#[inline(always)]
#[tactic(auto, unfolding(gs_grammar::specs::Reference::read_no_range_left))]
pub fn read_no_range_left<'a>(x: &Token, s: Rest<'a>) -> Option<Spot<'a>>
    ensures { Spots result (reference.read_no_range_left s.entry.tokens.now stands x.now) }
{
    let r0 = first_word(Keyword::Range, x, s)?;
    Some(Spot { depth: 0, rest: r0 })
}

/// The left side of a range that begins with the token.
#[inline(always)]
#[tactic(auto, unfolding(gs_grammar::specs::Reference::range_left_step))]
pub fn range_left_by<'a>(found: Option<Spot<'a>>, x: &Token, s: Rest<'a>) -> Option<Spot<'a>>
    requires found { Spots found (steps.exprs_step s.tokens.now stands true x.now) }
    ensures { Spots result (reference.range_left_step s.entry.tokens.now stands x.now) }
{
    let tried = read_range_assign(found, x, s);
    if tried.is_some() {
        return tried;
    }
    let tried = read_range_define(found, x, s);
    if tried.is_some() {
        return tried;
    }
    read_no_range_left(x, s)
}

/// The left side of a range of the place.
#[inline(always)]
#[tactic(auto, using(gs_places::proofs::Laws::at_range_left, gs_places::proofs::Laws::end_range_left, gs_places::proofs::Laws::at_exprs))]
pub fn range_left<'a>(s: Rest<'a>) -> Option<Spot<'a>>
    ensures { Spots result ((stands s.entry.tokens.now).range_left) }
{
    let (x, rest) = s.next()?;
    let found = at_exprs(true, s);
    range_left_by(found, x, rest)
}
