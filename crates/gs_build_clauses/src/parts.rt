//! Trees of the parts of statements.
ghost use Rattle.std.specs.Prelude.{◌≡◌, ◌∷◌};
ghost use Rattle.gs_grammar.specs.Reference as reference;
ghost use Rattle.gs_places.specs.Places.{stands};
ghost use Rattle.gs_build_base.specs.Pieces.{Builds};

use crate::simples::simple_from;
use gs_build_base::copies::copy;
use gs_build_base::front::{first_name_token, mark_span, word_span};
use gs_build_base::here::{expr_here, exprs_here, type_here};
use gs_build_base::maker::{Maker, expr_made, exprs_made, primary_made};
use gs_build_base::pieces::{Piece, Stop};
use gs_grammar::trees::{Expr, RangeLeft, Simple};
use gs_places::classes::{is_semi, is_stmt_end};
use gs_places::front::{first_defined, first_word, is_mark, mark, semi, word};
use gs_places::rest::Rest;
use gs_rows::parts::{
    read_a_condition, read_a_post, read_a_tag_value, read_init_header, read_plain_guard,
    read_range_assign, read_range_define,
};
use gs_rows::simples::simple_by;
use gs_rows::stmts::{read_a_target, read_some_values};
use gs_rows_expr::operands::{head_by, primary, primary_by};
use gs_syntax::token::{Keyword, Operator, Span, Token};
use sqlite_items::Items;
use std::alloc::Global;

/// The form `some_values` of the values of a return.
#[inline(never)]
#[tactic(auto, unfolding(gs_grammar::specs::Reference::read_some_values))]
fn build_some_values<'a, M: Maker>(
    make: &M,
    place: Rest<'a>,
    x: &'a Token,
    s: Rest<'a>,
) -> Result<Piece<'a, Items<Expr>>, Stop>
    requires faithful { M.is_faithful make.now }
    requires here { place.tokens.now ≡ x.now ∷ s.tokens.now }
    ensures { Builds result (reference.read_some_values s.entry.tokens.now stands x.now) }
{
    exprs_made(make, false, place, x, s)
}

/// The values of a return of the place.
#[tactic(auto, using(gs_places::proofs::Laws::at_values, gs_places::proofs::Laws::end_values), unfolding(gs_grammar::specs::Reference::values_step, gs_grammar::specs::Reference::read_no_values, gs_grammar::specs::Front::front_at))]
pub fn values_tree<'a, M: Maker>(
    alloc: Global,
    make: &M,
    s: Rest<'a>,
) -> Result<Piece<'a, Items<Expr>>, Stop>
    requires faithful { M.is_faithful make.now }
    ensures { Builds result ((stands s.entry.tokens.now).values) }
{
    let (x, rest) = s.next().ok_or(Stop::Absent)?;
    let found = exprs_here(false, s, x, rest);
    if read_some_values(found, x, rest).is_some() {
        return build_some_values(make, s, x, rest);
    }
    if is_stmt_end(&x.kind) {
        Ok(Piece {
            tree: Items::new(alloc),
            rest: s,
        })
    } else {
        Err(Stop::Absent)
    }
}

/// The form `a_target` of the label of a branch.
#[tactic(auto, unfolding(gs_grammar::specs::Reference::read_a_target))]
fn build_a_target<'a>(
    alloc: Global,
    x: &'a Token,
    s: Rest<'a>,
) -> Result<Piece<'a, Option<Token>>, Stop>
    ensures { Builds result (reference.read_a_target s.entry.tokens.now stands x.now) }
{
    let (name, r0) = first_name_token(x, s).ok_or(Stop::Absent)?;
    Ok(Piece {
        tree: Some(copy(alloc, name)?),
        rest: r0,
    })
}

/// The label of a branch of the place.
#[tactic(auto, using(gs_places::proofs::Laws::at_target, gs_places::proofs::Laws::end_target), unfolding(gs_grammar::specs::Reference::target_step, gs_grammar::specs::Reference::read_no_target, gs_grammar::specs::Front::front_at))]
pub fn target_tree<'a>(alloc: Global, s: Rest<'a>) -> Result<Piece<'a, Option<Token>>, Stop>
    ensures { Builds result ((stands s.entry.tokens.now).target) }
{
    let (x, rest) = s.next().ok_or(Stop::Absent)?;
    if read_a_target(x, rest).is_some() {
        return build_a_target(alloc, x, rest);
    }
    if is_stmt_end(&x.kind) {
        Ok(Piece {
            tree: None,
            rest: s,
        })
    } else {
        Err(Stop::Absent)
    }
}

/// The form `a_tag_value` of the value of a switch.
#[inline(never)]
#[tactic(auto, unfolding(gs_grammar::specs::Reference::read_a_tag_value))]
fn build_a_tag_value<'a, M: Maker>(
    make: &M,
    place: Rest<'a>,
    x: &'a Token,
    s: Rest<'a>,
) -> Result<Piece<'a, Option<Expr>>, Stop>
    requires faithful { M.is_faithful make.now }
    requires here { place.tokens.now ≡ x.now ∷ s.tokens.now }
    ensures { Builds result (reference.read_a_tag_value s.entry.tokens.now stands x.now) }
{
    let Piece { tree: t, rest: r0 } = expr_made(make, 5, true, false, place, x, s)?;
    Ok(Piece {
        tree: Some(t),
        rest: r0,
    })
}

/// The value of a switch of the place.
#[tactic(auto, using(gs_places::proofs::Laws::at_tag_value, gs_places::proofs::Laws::end_tag_value), unfolding(gs_grammar::specs::Reference::tag_value_step, gs_grammar::specs::Reference::read_no_tag_value, gs_grammar::specs::Front::mark_at))]
pub fn tag_value_tree<'a, M: Maker>(make: &M, s: Rest<'a>) -> Result<Piece<'a, Option<Expr>>, Stop>
    requires faithful { M.is_faithful make.now }
    ensures { Builds result ((stands s.entry.tokens.now).tag_value) }
{
    let (x, rest) = s.next().ok_or(Stop::Absent)?;
    let found = expr_here(5, true, s, x, rest);
    if read_a_tag_value(found, x, rest).is_some() {
        return build_a_tag_value(make, s, x, rest);
    }
    if is_mark(Operator::LeftBrace, &x.kind) {
        Ok(Piece {
            tree: None,
            rest: s,
        })
    } else {
        Err(Stop::Absent)
    }
}

/// The form `init_header` of the init statement.
#[inline(never)]
#[tactic(auto, unfolding(gs_grammar::specs::Reference::read_init_header))]
fn build_init_header<'a, M: Maker>(
    alloc: Global,
    make: &M,
    place: Rest<'a>,
    x: &'a Token,
    s: Rest<'a>,
) -> Result<Piece<'a, Simple>, Stop>
    requires faithful { M.is_faithful make.now }
    requires here { place.tokens.now ≡ x.now ∷ s.tokens.now }
    ensures { Builds result (reference.read_init_header s.entry.tokens.now stands x.now) }
{
    let f0 = simple_by(
        true,
        exprs_here(true, place, x, s),
        expr_here(5, true, place, x, s),
        x,
        s,
    )
    .ok_or(Stop::Absent)?;
    let r1 = semi(f0.rest).ok_or(Stop::Absent)?;
    let i = simple_from(alloc, make, true, place, x, s)?.tree;
    Ok(Piece { tree: i, rest: r1 })
}

/// The form `no_header` of the init statement.
#[tactic(auto, unfolding(gs_grammar::specs::Reference::read_no_header, gs_grammar::specs::Front::front_at))]
fn build_no_header<'a>(x: &'a Token, s: Rest<'a>) -> Result<Piece<'a, Simple>, Stop>
    ensures { Builds result (reference.read_no_header s.entry.tokens.now stands x.now) }
{
    if !is_semi(&x.kind) {
        return Err(Stop::Absent);
    }
    Ok(Piece {
        tree: Simple::Empty,
        rest: s,
    })
}

/// The init statement that begins with the token.
#[tactic(auto, unfolding(gs_grammar::specs::Reference::header_step))]
pub fn header_from<'a, M: Maker>(
    alloc: Global,
    make: &M,
    place: Rest<'a>,
    x: &'a Token,
    s: Rest<'a>,
) -> Result<Piece<'a, Simple>, Stop>
    requires faithful { M.is_faithful make.now }
    requires here { place.tokens.now ≡ x.now ∷ s.tokens.now }
    ensures { Builds result (reference.header_step s.entry.tokens.now stands x.now) }
{
    let found = simple_by(
        true,
        exprs_here(true, place, x, s),
        expr_here(5, true, place, x, s),
        x,
        s,
    );
    if read_init_header(found, x, s).is_some() {
        return build_init_header(alloc, make, place, x, s);
    }
    build_no_header(x, s)
}

/// The init statement of the place.
#[tactic(auto, using(gs_places::proofs::Laws::at_header, gs_places::proofs::Laws::end_header))]
pub fn header_tree<'a, M: Maker>(
    alloc: Global,
    make: &M,
    s: Rest<'a>,
) -> Result<Piece<'a, Simple>, Stop>
    requires faithful { M.is_faithful make.now }
    ensures { Builds result ((stands s.entry.tokens.now).header) }
{
    let (x, rest) = s.next().ok_or(Stop::Absent)?;
    header_from(alloc, make, s, x, rest)
}

/// The form `a_condition` of the condition.
#[inline(never)]
#[tactic(auto, unfolding(gs_grammar::specs::Reference::read_a_condition))]
fn build_a_condition<'a, M: Maker>(
    make: &M,
    place: Rest<'a>,
    x: &'a Token,
    s: Rest<'a>,
) -> Result<Piece<'a, Option<Expr>>, Stop>
    requires faithful { M.is_faithful make.now }
    requires here { place.tokens.now ≡ x.now ∷ s.tokens.now }
    ensures { Builds result (reference.read_a_condition s.entry.tokens.now stands x.now) }
{
    let Piece { tree: t, rest: r0 } = expr_made(make, 5, true, false, place, x, s)?;
    Ok(Piece {
        tree: Some(t),
        rest: r0,
    })
}

/// The condition of the place.
#[tactic(auto, using(gs_places::proofs::Laws::at_condition, gs_places::proofs::Laws::end_condition), unfolding(gs_grammar::specs::Reference::condition_step, gs_grammar::specs::Reference::read_no_condition, gs_grammar::specs::Front::front_at))]
pub fn condition_tree<'a, M: Maker>(make: &M, s: Rest<'a>) -> Result<Piece<'a, Option<Expr>>, Stop>
    requires faithful { M.is_faithful make.now }
    ensures { Builds result ((stands s.entry.tokens.now).condition) }
{
    let (x, rest) = s.next().ok_or(Stop::Absent)?;
    let found = expr_here(5, true, s, x, rest);
    if read_a_condition(found, x, rest).is_some() {
        return build_a_condition(make, s, x, rest);
    }
    if is_semi(&x.kind) {
        Ok(Piece {
            tree: None,
            rest: s,
        })
    } else {
        Err(Stop::Absent)
    }
}

/// The form `a_post` of the post statement.
#[inline(never)]
#[tactic(auto, unfolding(gs_grammar::specs::Reference::read_a_post))]
fn build_a_post<'a, M: Maker>(
    alloc: Global,
    make: &M,
    place: Rest<'a>,
    x: &'a Token,
    s: Rest<'a>,
) -> Result<Piece<'a, Simple>, Stop>
    requires faithful { M.is_faithful make.now }
    requires here { place.tokens.now ≡ x.now ∷ s.tokens.now }
    ensures { Builds result (reference.read_a_post s.entry.tokens.now stands x.now) }
{
    let exprs = exprs_here(true, place, x, s);
    let simple = simple_by(true, exprs, expr_here(5, true, place, x, s), x, s);
    let f0 = read_a_post(exprs, simple, x, s).ok_or(Stop::Absent)?;
    let i = simple_from(alloc, make, true, place, x, s)?.tree;
    Ok(Piece {
        tree: i,
        rest: f0.rest,
    })
}

/// The post statement of the place.
#[tactic(auto, using(gs_places::proofs::Laws::at_post, gs_places::proofs::Laws::end_post), unfolding(gs_grammar::specs::Reference::post_step, gs_grammar::specs::Reference::read_no_post, gs_grammar::specs::Front::mark_at))]
pub fn post_tree<'a, M: Maker>(
    alloc: Global,
    make: &M,
    s: Rest<'a>,
) -> Result<Piece<'a, Simple>, Stop>
    requires faithful { M.is_faithful make.now }
    ensures { Builds result ((stands s.entry.tokens.now).post) }
{
    let (x, rest) = s.next().ok_or(Stop::Absent)?;
    let found = simple_by(
        true,
        exprs_here(true, s, x, rest),
        expr_here(5, true, s, x, rest),
        x,
        rest,
    );
    if read_a_post(exprs_here(true, s, x, rest), found, x, rest).is_some() {
        return build_a_post(alloc, make, s, x, rest);
    }
    if is_mark(Operator::LeftBrace, &x.kind) {
        Ok(Piece {
            tree: Simple::Empty,
            rest: s,
        })
    } else {
        Err(Stop::Absent)
    }
}

/// The form `range_assign` of the left side of a range.
#[inline(never)]
#[tactic(auto, unfolding(gs_grammar::specs::Reference::read_range_assign))]
fn build_range_assign<'a, M: Maker>(
    make: &M,
    place: Rest<'a>,
    x: &'a Token,
    s: Rest<'a>,
) -> Result<Piece<'a, RangeLeft>, Stop>
    requires faithful { M.is_faithful make.now }
    requires here { place.tokens.now ≡ x.now ∷ s.tokens.now }
    ensures { Builds result (reference.read_range_assign s.entry.tokens.now stands x.now) }
{
    let f0 = exprs_here(true, place, x, s).ok_or(Stop::Absent)?;
    let (p, r1) = mark_span(Operator::Assign, f0.rest).ok_or(Stop::Absent)?;
    let r2 = word(Keyword::Range, r1).ok_or(Stop::Absent)?;
    let ts = exprs_made(make, true, place, x, s)?.tree;
    Ok(Piece {
        tree: RangeLeft::Assign(ts, p),
        rest: r2,
    })
}

/// The form `range_define` of the left side of a range.
#[inline(never)]
#[tactic(auto, unfolding(gs_grammar::specs::Reference::read_range_define))]
fn build_range_define<'a, M: Maker>(
    make: &M,
    place: Rest<'a>,
    x: &'a Token,
    s: Rest<'a>,
) -> Result<Piece<'a, RangeLeft>, Stop>
    requires faithful { M.is_faithful make.now }
    requires here { place.tokens.now ≡ x.now ∷ s.tokens.now }
    ensures { Builds result (reference.read_range_define s.entry.tokens.now stands x.now) }
{
    let f0 = exprs_here(true, place, x, s).ok_or(Stop::Absent)?;
    let (p, r1) = mark_span(Operator::Define, f0.rest).ok_or(Stop::Absent)?;
    let r2 = word(Keyword::Range, r1).ok_or(Stop::Absent)?;
    let ts = exprs_made(make, true, place, x, s)?.tree;
    Ok(Piece {
        tree: RangeLeft::Define(ts, p),
        rest: r2,
    })
}

/// The form `no_range_left` of the left side of a range.
#[tactic(auto, unfolding(gs_grammar::specs::Reference::read_no_range_left))]
fn build_no_range_left<'a>(x: &'a Token, s: Rest<'a>) -> Result<Piece<'a, RangeLeft>, Stop>
    ensures { Builds result (reference.read_no_range_left s.entry.tokens.now stands x.now) }
{
    let r0 = first_word(Keyword::Range, x, s).ok_or(Stop::Absent)?;
    Ok(Piece {
        tree: RangeLeft::Absent,
        rest: r0,
    })
}

/// The left side of a range that begins with the token.
#[tactic(auto, unfolding(gs_grammar::specs::Reference::range_left_step))]
pub fn range_left_from<'a, M: Maker>(
    make: &M,
    place: Rest<'a>,
    x: &'a Token,
    s: Rest<'a>,
) -> Result<Piece<'a, RangeLeft>, Stop>
    requires faithful { M.is_faithful make.now }
    requires here { place.tokens.now ≡ x.now ∷ s.tokens.now }
    ensures { Builds result (reference.range_left_step s.entry.tokens.now stands x.now) }
{
    let found = exprs_here(true, place, x, s);
    if read_range_assign(found, x, s).is_some() {
        return build_range_assign(make, place, x, s);
    }
    if read_range_define(found, x, s).is_some() {
        return build_range_define(make, place, x, s);
    }
    build_no_range_left(x, s)
}

/// The left side of a range of the place.
#[tactic(auto, using(gs_places::proofs::Laws::at_range_left, gs_places::proofs::Laws::end_range_left))]
pub fn range_left_tree<'a, M: Maker>(make: &M, s: Rest<'a>) -> Result<Piece<'a, RangeLeft>, Stop>
    requires faithful { M.is_faithful make.now }
    ensures { Builds result ((stands s.entry.tokens.now).range_left) }
{
    let (x, rest) = s.next().ok_or(Stop::Absent)?;
    range_left_from(make, s, x, rest)
}

/// The form `plain_guard` of the guard of a type switch.
#[inline(never)]
#[tactic(auto, unfolding(gs_grammar::specs::Reference::read_plain_guard))]
fn build_plain_guard<'a, M: Maker>(
    make: &M,
    place: Rest<'a>,
    x: &'a Token,
    s: Rest<'a>,
) -> Result<Piece<'a, (Option<(Token, Span)>, Expr, Span)>, Stop>
    requires faithful { M.is_faithful make.now }
    requires here { place.tokens.now ≡ x.now ∷ s.tokens.now }
    ensures { Builds result (reference.read_plain_guard s.entry.tokens.now stands x.now) }
{
    if first_defined(x, s).is_some() {
        return Err(Stop::Absent);
    }
    let f1 = primary_by(true, head_by(true, type_here(place, x, s), x, s), x, s).ok_or(
        Stop::Absent,
    )?;
    let r2 = mark(Operator::Dot, f1.rest).ok_or(Stop::Absent)?;
    let r3 = mark(Operator::LeftParen, r2).ok_or(Stop::Absent)?;
    let (p, r4) = word_span(Keyword::Type, r3).ok_or(Stop::Absent)?;
    let r5 = mark(Operator::RightParen, r4).ok_or(Stop::Absent)?;
    let t = primary_made(make, true, place, x, s)?.tree;
    Ok(Piece {
        tree: (None, t, p),
        rest: r5,
    })
}

/// The form `named_guard` of the guard of a type switch.
#[inline(never)]
#[tactic(auto, unfolding(gs_grammar::specs::Reference::read_named_guard))]
fn build_named_guard<'a, M: Maker>(
    alloc: Global,
    make: &M,
    x: &'a Token,
    s: Rest<'a>,
) -> Result<Piece<'a, (Option<(Token, Span)>, Expr, Span)>, Stop>
    requires faithful { M.is_faithful make.now }
    ensures { Builds result (reference.read_named_guard s.entry.tokens.now stands x.now) }
{
    let (name, r0) = first_name_token(x, s).ok_or(Stop::Absent)?;
    let (p1, r1) = mark_span(Operator::Define, r0).ok_or(Stop::Absent)?;
    let f2 = primary(true, r1).ok_or(Stop::Absent)?;
    let r3 = mark(Operator::Dot, f2.rest).ok_or(Stop::Absent)?;
    let r4 = mark(Operator::LeftParen, r3).ok_or(Stop::Absent)?;
    let (p, r5) = word_span(Keyword::Type, r4).ok_or(Stop::Absent)?;
    let r6 = mark(Operator::RightParen, r5).ok_or(Stop::Absent)?;
    let name = copy(alloc, name)?;
    let t = make.make_primary(true, r1)?.tree;
    Ok(Piece {
        tree: (Some((name, p1)), t, p),
        rest: r6,
    })
}

/// The guard of a type switch that begins with the token.
#[tactic(auto, unfolding(gs_grammar::specs::Reference::guard_step))]
pub fn guard_from<'a, M: Maker>(
    alloc: Global,
    make: &M,
    place: Rest<'a>,
    x: &'a Token,
    s: Rest<'a>,
) -> Result<Piece<'a, (Option<(Token, Span)>, Expr, Span)>, Stop>
    requires faithful { M.is_faithful make.now }
    requires here { place.tokens.now ≡ x.now ∷ s.tokens.now }
    ensures { Builds result (reference.guard_step s.entry.tokens.now stands x.now) }
{
    let found = primary_by(true, head_by(true, type_here(place, x, s), x, s), x, s);
    if read_plain_guard(found, x, s).is_some() {
        return build_plain_guard(make, place, x, s);
    }
    build_named_guard(alloc, make, x, s)
}

/// The guard of a type switch of the place.
#[tactic(auto, using(gs_places::proofs::Laws::at_guard, gs_places::proofs::Laws::end_guard))]
pub fn guard_tree<'a, M: Maker>(
    alloc: Global,
    make: &M,
    s: Rest<'a>,
) -> Result<Piece<'a, (Option<(Token, Span)>, Expr, Span)>, Stop>
    requires faithful { M.is_faithful make.now }
    ensures { Builds result ((stands s.entry.tokens.now).guard) }
{
    let (x, rest) = s.next().ok_or(Stop::Absent)?;
    guard_from(alloc, make, s, x, rest)
}
