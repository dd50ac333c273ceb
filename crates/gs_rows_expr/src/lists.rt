//! Suffixes, and the lists of expressions: where each form ends, from the table of the places behind it.
ghost use Rattle.std.specs.Prelude.{◌≡◌, ◌≤◌, ◌<◌, ◌+◌, ◌^◌, length, true, false};
ghost use Rattle.gs_grammar.specs.Steps as steps;
ghost use Rattle.gs_places.specs.Places.{cell, stands};
ghost use Rattle.gs_places.specs.Spots.{Spots};

use gs_places::at::{at_args, at_elements, at_expr, at_exprs, at_operands, at_suffixes, at_type};
use gs_places::classes::{is_binary, is_bound_end};
use gs_places::front::{first_mark, is_mark, mark, name, trail};
use gs_places::place::Cell;
use gs_places::rest::{Rest, Spot, deeper, deepest, kept, stay};
use gs_syntax::token::{Operator, Token};

/// The form `a_bound` of the index of a slice expression.
#[inline(always)]
#[tactic(auto, unfolding(gs_grammar::specs::Steps::read_a_bound))]
pub fn read_a_bound<'a>(found: Option<Spot<'a>>, x: &Token, s: Rest<'a>) -> Option<Spot<'a>>
    requires found { Spots found (steps.expr_step s.tokens.now stands 5 false false x.now) }
    ensures { Spots result (steps.read_a_bound s.entry.tokens.now stands x.now) }
{
    found
}

/// The index of a slice expression of the place.
#[inline(always)]
#[tactic(auto, using(gs_places::proofs::Laws::at_bound, gs_places::proofs::Laws::end_bound, gs_places::proofs::Laws::at_expr), unfolding(gs_grammar::specs::Steps::bound_step, gs_grammar::specs::Steps::read_no_bound, gs_grammar::specs::Front::front_at))]
pub fn bound<'a>(s: Rest<'a>) -> Option<Spot<'a>>
    ensures { Spots result ((stands s.entry.tokens.now).bound) }
{
    let (x, rest) = s.next()?;
    let found = at_expr(5, false, s);
    let tried = read_a_bound(found, x, rest);
    if tried.is_some() {
        return tried;
    }
    if is_bound_end(&x.kind) {
        Some(Spot { depth: 0, rest: s })
    } else {
        None
    }
}

/// The form `spread` of the arguments.
#[inline(always)]
#[tactic(auto, unfolding(gs_grammar::specs::Steps::read_spread))]
pub fn read_spread<'a>(inner: Option<Spot<'a>>, x: &Token, s: Rest<'a>) -> Option<Spot<'a>>
    requires inner { Spots inner (steps.expr_step s.tokens.now stands 5 false true x.now) }
    ensures { Spots result (steps.read_spread s.entry.tokens.now stands x.now) }
{
    let f0 = inner?;
    let r1 = mark(Operator::Ellipsis, f0.rest)?;
    let r2 = trail(Operator::RightParen, r1)?;
    Some(Spot {
        depth: f0.depth,
        rest: r2,
    })
}

/// The form `last_arg` of the arguments.
#[inline(always)]
#[tactic(auto, unfolding(gs_grammar::specs::Steps::read_last_arg))]
pub fn read_last_arg<'a>(inner: Option<Spot<'a>>, x: &Token, s: Rest<'a>) -> Option<Spot<'a>>
    requires inner { Spots inner (steps.expr_step s.tokens.now stands 5 false true x.now) }
    ensures { Spots result (steps.read_last_arg s.entry.tokens.now stands x.now) }
{
    let f0 = inner?;
    if mark(Operator::Ellipsis, f0.rest).is_some() {
        return None;
    }
    let r2 = trail(Operator::RightParen, f0.rest)?;
    Some(Spot {
        depth: f0.depth,
        rest: r2,
    })
}

/// The form `more_args` of the arguments.
#[inline(always)]
#[tactic(auto, unfolding(gs_grammar::specs::Steps::read_more_args))]
pub fn read_more_args<'a>(inner: Option<Spot<'a>>, x: &Token, s: Rest<'a>) -> Option<Spot<'a>>
    requires inner { Spots inner (steps.expr_step s.tokens.now stands 5 false true x.now) }
    ensures { Spots result (steps.read_more_args s.entry.tokens.now stands x.now) }
{
    let f0 = inner?;
    let r1 = mark(Operator::Comma, f0.rest)?;
    if mark(Operator::RightParen, r1).is_some() {
        return None;
    }
    let f3 = at_args(r1)?;
    Some(Spot {
        depth: deepest(f0.depth, f3.depth),
        rest: f3.rest,
    })
}

/// The arguments that begin with the token.
#[inline(always)]
#[tactic(auto, unfolding(gs_grammar::specs::Steps::args_step, gs_grammar::specs::Steps::read_no_args, gs_grammar::specs::Front::mark_at))]
pub fn args_by<'a>(inner: Option<Spot<'a>>, x: &Token, s: Rest<'a>) -> Option<Cell>
    requires few { length s.tokens.now + 1 < 2 ^ 32 }
    requires inner { Spots inner (steps.expr_step s.tokens.now stands 5 false true x.now) }
    ensures { result ≡ cell (steps.args_step s.entry.tokens.now stands x.now) }
{
    let found = read_spread(inner, x, s);
    if found.is_some() {
        return kept(found);
    }
    let found = read_last_arg(inner, x, s);
    if found.is_some() {
        return kept(found);
    }
    let found = read_more_args(inner, x, s);
    if found.is_some() {
        return kept(found);
    }
    if is_mark(Operator::RightParen, &x.kind) {
        Some(stay(s))
    } else {
        None
    }
}

/// The form `selector` of the suffix.
#[inline(always)]
#[tactic(auto, unfolding(gs_grammar::specs::Steps::read_selector))]
pub fn read_selector<'a>(x: &Token, s: Rest<'a>) -> Option<Spot<'a>>
    ensures { Spots result (steps.read_selector s.entry.tokens.now stands x.now) }
{
    let r0 = first_mark(Operator::Dot, x, s)?;
    let r1 = name(r0)?;
    Some(Spot { depth: 0, rest: r1 })
}

/// The form `assertion` of the suffix.
#[inline(always)]
#[tactic(auto, unfolding(gs_grammar::specs::Steps::read_assertion))]
pub fn read_assertion<'a>(x: &Token, s: Rest<'a>) -> Option<Spot<'a>>
    ensures { Spots result (steps.read_assertion s.entry.tokens.now stands x.now) }
{
    let r0 = first_mark(Operator::Dot, x, s)?;
    let r1 = mark(Operator::LeftParen, r0)?;
    let f2 = at_type(r1)?;
    let r3 = mark(Operator::RightParen, f2.rest)?;
    Some(Spot {
        depth: deeper(f2.depth),
        rest: r3,
    })
}

/// The form `open_slice` of the suffix.
#[inline(always)]
#[tactic(auto, unfolding(gs_grammar::specs::Steps::read_open_slice))]
pub fn read_open_slice<'a>(x: &Token, s: Rest<'a>) -> Option<Spot<'a>>
    ensures { Spots result (steps.read_open_slice s.entry.tokens.now stands x.now) }
{
    let r0 = first_mark(Operator::LeftBracket, x, s)?;
    let r1 = mark(Operator::Colon, r0)?;
    let f2 = bound(r1)?;
    let r3 = mark(Operator::RightBracket, f2.rest)?;
    Some(Spot {
        depth: deeper(f2.depth),
        rest: r3,
    })
}

/// The form `open_full_slice` of the suffix.
#[inline(always)]
#[tactic(auto, unfolding(gs_grammar::specs::Steps::read_open_full_slice))]
pub fn read_open_full_slice<'a>(x: &Token, s: Rest<'a>) -> Option<Spot<'a>>
    ensures { Spots result (steps.read_open_full_slice s.entry.tokens.now stands x.now) }
{
    let r0 = first_mark(Operator::LeftBracket, x, s)?;
    let r1 = mark(Operator::Colon, r0)?;
    let f2 = at_expr(5, false, r1)?;
    let r3 = mark(Operator::Colon, f2.rest)?;
    let f4 = at_expr(5, false, r3)?;
    let r5 = mark(Operator::RightBracket, f4.rest)?;
    Some(Spot {
        depth: deeper(deepest(f2.depth, f4.depth)),
        rest: r5,
    })
}

/// The form `index` of the suffix.
#[inline(always)]
#[tactic(auto, unfolding(gs_grammar::specs::Steps::read_index))]
pub fn read_index<'a>(x: &Token, s: Rest<'a>) -> Option<Spot<'a>>
    ensures { Spots result (steps.read_index s.entry.tokens.now stands x.now) }
{
    let r0 = first_mark(Operator::LeftBracket, x, s)?;
    if mark(Operator::Colon, r0).is_some() {
        return None;
    }
    let f2 = at_expr(5, false, r0)?;
    let r3 = mark(Operator::RightBracket, f2.rest)?;
    Some(Spot {
        depth: deeper(f2.depth),
        rest: r3,
    })
}

/// The form `slice_expr` of the suffix.
#[inline(always)]
#[tactic(auto, unfolding(gs_grammar::specs::Steps::read_slice_expr))]
pub fn read_slice_expr<'a>(x: &Token, s: Rest<'a>) -> Option<Spot<'a>>
    ensures { Spots result (steps.read_slice_expr s.entry.tokens.now stands x.now) }
{
    let r0 = first_mark(Operator::LeftBracket, x, s)?;
    if mark(Operator::Colon, r0).is_some() {
        return None;
    }
    let f2 = at_expr(5, false, r0)?;
    let r3 = mark(Operator::Colon, f2.rest)?;
    let f4 = bound(r3)?;
    let r5 = mark(Operator::RightBracket, f4.rest)?;
    Some(Spot {
        depth: deeper(deepest(f2.depth, f4.depth)),
        rest: r5,
    })
}

/// The form `full_slice` of the suffix.
#[inline(always)]
#[tactic(auto, unfolding(gs_grammar::specs::Steps::read_full_slice))]
pub fn read_full_slice<'a>(x: &Token, s: Rest<'a>) -> Option<Spot<'a>>
    ensures { Spots result (steps.read_full_slice s.entry.tokens.now stands x.now) }
{
    let r0 = first_mark(Operator::LeftBracket, x, s)?;
    if mark(Operator::Colon, r0).is_some() {
        return None;
    }
    let f2 = at_expr(5, false, r0)?;
    let r3 = mark(Operator::Colon, f2.rest)?;
    let f4 = at_expr(5, false, r3)?;
    let r5 = mark(Operator::Colon, f4.rest)?;
    let f6 = at_expr(5, false, r5)?;
    let r7 = mark(Operator::RightBracket, f6.rest)?;
    Some(Spot {
        depth: deeper(deepest(f2.depth, deepest(f4.depth, f6.depth))),
        rest: r7,
    })
}

/// The form `call` of the suffix.
#[inline(always)]
#[tactic(auto, unfolding(gs_grammar::specs::Steps::read_call))]
pub fn read_call<'a>(x: &Token, s: Rest<'a>) -> Option<Spot<'a>>
    ensures { Spots result (steps.read_call s.entry.tokens.now stands x.now) }
{
    let r0 = first_mark(Operator::LeftParen, x, s)?;
    let f1 = at_args(r0)?;
    let r2 = mark(Operator::RightParen, f1.rest)?;
    Some(Spot {
        depth: deeper(f1.depth),
        rest: r2,
    })
}

/// The suffix that begins with the token.
#[inline(always)]
#[tactic(auto, unfolding(gs_grammar::specs::Steps::suffix_step))]
pub fn suffix_by<'a>(x: &Token, s: Rest<'a>) -> Option<Spot<'a>>
    ensures { Spots result (steps.suffix_step s.entry.tokens.now stands x.now) }
{
    let found = read_selector(x, s);
    if found.is_some() {
        return found;
    }
    let found = read_assertion(x, s);
    if found.is_some() {
        return found;
    }
    let found = read_open_slice(x, s);
    if found.is_some() {
        return found;
    }
    let found = read_open_full_slice(x, s);
    if found.is_some() {
        return found;
    }
    let found = read_index(x, s);
    if found.is_some() {
        return found;
    }
    let found = read_slice_expr(x, s);
    if found.is_some() {
        return found;
    }
    let found = read_full_slice(x, s);
    if found.is_some() {
        return found;
    }
    read_call(x, s)
}

/// The form `more_suffixes` of the suffixes.
#[inline(always)]
#[tactic(auto, unfolding(gs_grammar::specs::Steps::read_more_suffixes))]
pub fn read_more_suffixes<'a>(found: Option<Spot<'a>>, x: &Token, s: Rest<'a>) -> Option<Spot<'a>>
    requires found { Spots found (steps.suffix_step s.tokens.now stands x.now) }
    ensures { Spots result (steps.read_more_suffixes s.entry.tokens.now stands x.now) }
{
    let f0 = found?;
    let f1 = at_suffixes(f0.rest)?;
    Some(Spot {
        depth: deepest(f0.depth, f1.depth),
        rest: f1.rest,
    })
}

/// The suffixes that begin with the token.
#[inline(always)]
#[tactic(auto, using(crate::proofs::Greedy::suffixes_stay, crate::proofs::Greedy::suffixes_go))]
pub fn suffixes_by<'a>(found: Option<Spot<'a>>, x: &Token, s: Rest<'a>) -> Option<Cell>
    requires few { length s.tokens.now + 1 < 2 ^ 32 }
    requires found { Spots found (steps.suffix_step s.tokens.now stands x.now) }
    ensures { result ≡ cell (steps.suffixes_step s.entry.tokens.now stands x.now) }
{
    if found.is_some() {
        return kept(read_more_suffixes(found, x, s));
    }
    Some(stay(s))
}

/// The form `operand` of the operator with its right operand.
#[inline(always)]
#[tactic(auto, unfolding(gs_grammar::specs::Steps::read_operand, gs_grammar::specs::Front::front_at))]
pub fn read_operand<'a>(level: u8, header: bool, x: &Token, s: Rest<'a>) -> Option<Spot<'a>>
    requires low { level ≤ 4 }
    ensures { Spots result (steps.read_operand s.entry.tokens.now stands level header x.now) }
{
    if !is_binary(level, &x.kind) {
        return None;
    }
    at_expr(level, header, s)
}

/// The operator with its right operand that begins with the token.
#[inline(always)]
#[tactic(auto, unfolding(gs_grammar::specs::Steps::operand_step))]
pub fn operand_by<'a>(level: u8, header: bool, x: &Token, s: Rest<'a>) -> Option<Spot<'a>>
    requires low { level ≤ 4 }
    ensures { Spots result (steps.operand_step s.entry.tokens.now stands level header x.now) }
{
    read_operand(level, header, x, s)
}

/// The form `more_operands` of the operators with their right operands.
#[inline(always)]
#[tactic(auto, unfolding(gs_grammar::specs::Steps::read_more_operands))]
pub fn read_more_operands<'a>(
    level: u8,
    header: bool,
    found: Option<Spot<'a>>,
    x: &Token,
    s: Rest<'a>,
) -> Option<Spot<'a>>
    requires low { level ≤ 4 }
    requires found { Spots found (steps.operand_step s.tokens.now stands level header x.now) }
    ensures { Spots result (steps.read_more_operands s.entry.tokens.now stands level header x.now) }
{
    let f0 = found?;
    let f1 = at_operands(level, header, f0.rest)?;
    Some(Spot {
        depth: deepest(f0.depth, f1.depth),
        rest: f1.rest,
    })
}

/// The operators with their right operands that begin with the token.
#[inline(always)]
#[tactic(auto, using(crate::proofs::Greedy::operands_stay, crate::proofs::Greedy::operands_go))]
pub fn operands_by<'a>(
    level: u8,
    header: bool,
    found: Option<Spot<'a>>,
    x: &Token,
    s: Rest<'a>,
) -> Option<Cell>
    requires few { length s.tokens.now + 1 < 2 ^ 32 }
    requires low { level ≤ 4 }
    requires found { Spots found (steps.operand_step s.tokens.now stands level header x.now) }
    ensures { result ≡ cell (steps.operands_step s.entry.tokens.now stands level header x.now) }
{
    if found.is_some() {
        return kept(read_more_operands(level, header, found, x, s));
    }
    Some(stay(s))
}

/// The form `value_expr` of the value of an element.
#[inline(always)]
#[tactic(auto, unfolding(gs_grammar::specs::Steps::read_value_expr))]
pub fn read_value_expr<'a>(found: Option<Spot<'a>>, x: &Token, s: Rest<'a>) -> Option<Spot<'a>>
    requires found { Spots found (steps.expr_step s.tokens.now stands 5 false false x.now) }
    ensures { Spots result (steps.read_value_expr s.entry.tokens.now stands x.now) }
{
    found
}

/// The form `value_literal` of the value of an element.
#[inline(always)]
#[tactic(auto, unfolding(gs_grammar::specs::Steps::read_value_literal))]
pub fn read_value_literal<'a>(x: &Token, s: Rest<'a>) -> Option<Spot<'a>>
    ensures { Spots result (steps.read_value_literal s.entry.tokens.now stands x.now) }
{
    let r0 = first_mark(Operator::LeftBrace, x, s)?;
    let f1 = at_elements(r0)?;
    let r2 = mark(Operator::RightBrace, f1.rest)?;
    Some(Spot {
        depth: deeper(f1.depth),
        rest: r2,
    })
}

/// The value of an element that begins with the token.
#[inline(always)]
#[tactic(auto, unfolding(gs_grammar::specs::Steps::value_step))]
pub fn value_by<'a>(found: Option<Spot<'a>>, x: &Token, s: Rest<'a>) -> Option<Spot<'a>>
    requires found { Spots found (steps.expr_step s.tokens.now stands 5 false false x.now) }
    ensures { Spots result (steps.value_step s.entry.tokens.now stands x.now) }
{
    let tried = read_value_expr(found, x, s);
    if tried.is_some() {
        return tried;
    }
    read_value_literal(x, s)
}

/// The value of an element of the place.
#[inline(always)]
#[tactic(auto, using(gs_places::proofs::Laws::at_value, gs_places::proofs::Laws::end_value, gs_places::proofs::Laws::at_expr))]
pub fn value_at<'a>(s: Rest<'a>) -> Option<Spot<'a>>
    ensures { Spots result ((stands s.entry.tokens.now).value) }
{
    let (x, rest) = s.next()?;
    let found = at_expr(5, false, s);
    value_by(found, x, rest)
}

/// The form `plain_element` of the element.
#[inline(always)]
#[tactic(auto, unfolding(gs_grammar::specs::Steps::read_plain_element))]
pub fn read_plain_element<'a>(found: Option<Spot<'a>>, x: &Token, s: Rest<'a>) -> Option<Spot<'a>>
    requires found { Spots found (steps.value_step s.tokens.now stands x.now) }
    ensures { Spots result (steps.read_plain_element s.entry.tokens.now stands x.now) }
{
    let f0 = found?;
    if mark(Operator::Colon, f0.rest).is_some() {
        return None;
    }
    Some(Spot {
        depth: f0.depth,
        rest: f0.rest,
    })
}

/// The form `keyed_element` of the element.
#[inline(always)]
#[tactic(auto, unfolding(gs_grammar::specs::Steps::read_keyed_element))]
pub fn read_keyed_element<'a>(found: Option<Spot<'a>>, x: &Token, s: Rest<'a>) -> Option<Spot<'a>>
    requires found { Spots found (steps.value_step s.tokens.now stands x.now) }
    ensures { Spots result (steps.read_keyed_element s.entry.tokens.now stands x.now) }
{
    let f0 = found?;
    let r1 = mark(Operator::Colon, f0.rest)?;
    let f2 = value_at(r1)?;
    Some(Spot {
        depth: deepest(f0.depth, f2.depth),
        rest: f2.rest,
    })
}

/// The element that begins with the token.
#[inline(always)]
#[tactic(auto, unfolding(gs_grammar::specs::Steps::element_step))]
pub fn element_by<'a>(found: Option<Spot<'a>>, x: &Token, s: Rest<'a>) -> Option<Spot<'a>>
    requires found { Spots found (steps.value_step s.tokens.now stands x.now) }
    ensures { Spots result (steps.element_step s.entry.tokens.now stands x.now) }
{
    let tried = read_plain_element(found, x, s);
    if tried.is_some() {
        return tried;
    }
    read_keyed_element(found, x, s)
}

/// The form `last_element` of the elements.
#[inline(always)]
#[tactic(auto, unfolding(gs_grammar::specs::Steps::read_last_element))]
pub fn read_last_element<'a>(found: Option<Spot<'a>>, x: &Token, s: Rest<'a>) -> Option<Spot<'a>>
    requires found { Spots found (steps.element_step s.tokens.now stands x.now) }
    ensures { Spots result (steps.read_last_element s.entry.tokens.now stands x.now) }
{
    let f0 = found?;
    let r1 = trail(Operator::RightBrace, f0.rest)?;
    Some(Spot {
        depth: f0.depth,
        rest: r1,
    })
}

/// The form `more_elements` of the elements.
#[inline(always)]
#[tactic(auto, unfolding(gs_grammar::specs::Steps::read_more_elements))]
pub fn read_more_elements<'a>(found: Option<Spot<'a>>, x: &Token, s: Rest<'a>) -> Option<Spot<'a>>
    requires found { Spots found (steps.element_step s.tokens.now stands x.now) }
    ensures { Spots result (steps.read_more_elements s.entry.tokens.now stands x.now) }
{
    let f0 = found?;
    let r1 = mark(Operator::Comma, f0.rest)?;
    if mark(Operator::RightBrace, r1).is_some() {
        return None;
    }
    let f3 = at_elements(r1)?;
    Some(Spot {
        depth: deepest(f0.depth, f3.depth),
        rest: f3.rest,
    })
}

/// The elements that begin with the token.
#[inline(always)]
#[tactic(auto, unfolding(gs_grammar::specs::Steps::elements_step, gs_grammar::specs::Steps::read_no_elements, gs_grammar::specs::Front::mark_at))]
pub fn elements_by<'a>(found: Option<Spot<'a>>, x: &Token, s: Rest<'a>) -> Option<Cell>
    requires few { length s.tokens.now + 1 < 2 ^ 32 }
    requires found { Spots found (steps.element_step s.tokens.now stands x.now) }
    ensures { result ≡ cell (steps.elements_step s.entry.tokens.now stands x.now) }
{
    let tried = read_last_element(found, x, s);
    if tried.is_some() {
        return kept(tried);
    }
    let tried = read_more_elements(found, x, s);
    if tried.is_some() {
        return kept(tried);
    }
    if is_mark(Operator::RightBrace, &x.kind) {
        Some(stay(s))
    } else {
        None
    }
}

/// The form `one_expr` of the expressions.
#[inline(always)]
#[tactic(auto, unfolding(gs_grammar::specs::Steps::read_one_expr))]
pub fn read_one_expr<'a>(
    header: bool,
    found: Option<Spot<'a>>,
    x: &Token,
    s: Rest<'a>,
) -> Option<Spot<'a>>
    requires found { Spots found (steps.expr_step s.tokens.now stands 5 header false x.now) }
    ensures { Spots result (steps.read_one_expr s.entry.tokens.now stands header x.now) }
{
    let f0 = found?;
    if mark(Operator::Comma, f0.rest).is_some() {
        return None;
    }
    Some(Spot {
        depth: f0.depth,
        rest: f0.rest,
    })
}

/// The form `more_exprs` of the expressions.
#[inline(always)]
#[tactic(auto, unfolding(gs_grammar::specs::Steps::read_more_exprs))]
pub fn read_more_exprs<'a>(
    header: bool,
    found: Option<Spot<'a>>,
    x: &Token,
    s: Rest<'a>,
) -> Option<Spot<'a>>
    requires found { Spots found (steps.expr_step s.tokens.now stands 5 header false x.now) }
    ensures { Spots result (steps.read_more_exprs s.entry.tokens.now stands header x.now) }
{
    let f0 = found?;
    let r1 = mark(Operator::Comma, f0.rest)?;
    let f2 = at_exprs(header, r1)?;
    Some(Spot {
        depth: deepest(f0.depth, f2.depth),
        rest: f2.rest,
    })
}

/// The expressions that begin with the token.
#[inline(always)]
#[tactic(auto, unfolding(gs_grammar::specs::Steps::exprs_step))]
pub fn exprs_by<'a>(
    header: bool,
    found: Option<Spot<'a>>,
    x: &Token,
    s: Rest<'a>,
) -> Option<Spot<'a>>
    requires found { Spots found (steps.expr_step s.tokens.now stands 5 header false x.now) }
    ensures { Spots result (steps.exprs_step s.entry.tokens.now stands header x.now) }
{
    let tried = read_one_expr(header, found, x, s);
    if tried.is_some() {
        return tried;
    }
    read_more_exprs(header, found, x, s)
}
