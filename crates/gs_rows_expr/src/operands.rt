//! Operands, primary expressions and operators: where each form ends, from the table of the places behind it.
ghost use Rattle.std.specs.Prelude.{◌≤◌, suc};
ghost use Rattle.gs_grammar.specs.Steps as steps;
ghost use Rattle.gs_places.specs.Places.{stands};
ghost use Rattle.gs_places.specs.Spots.{Spots};

use gs_places::at::{at_elements, at_inner, at_operands, at_stmts, at_suffixes, at_type, at_unary};
use gs_places::classes::{is_basic, is_composite_start, is_other_start, is_sign};
use gs_places::front::{first_mark, first_name, first_word, mark, name, selector, stop};
use gs_places::rest::{Rest, Spot, deeper, deepest};
use gs_rows_types::params::signature;
use gs_syntax::token::{Keyword, Operator, Token};

/// The form `values_in_braces` of the literal value.
#[inline(always)]
#[tactic(auto, unfolding(gs_grammar::specs::Steps::read_values_in_braces))]
pub fn read_values_in_braces<'a>(x: &Token, s: Rest<'a>) -> Option<Spot<'a>>
    ensures { Spots result (steps.read_values_in_braces s.entry.tokens.now stands x.now) }
{
    let r0 = first_mark(Operator::LeftBrace, x, s)?;
    let f1 = at_elements(r0)?;
    let r2 = mark(Operator::RightBrace, f1.rest)?;
    Some(Spot {
        depth: deeper(f1.depth),
        rest: r2,
    })
}

/// The literal value that begins with the token.
#[inline(always)]
#[tactic(auto, unfolding(gs_grammar::specs::Steps::literal_step))]
pub fn literal_by<'a>(x: &Token, s: Rest<'a>) -> Option<Spot<'a>>
    ensures { Spots result (steps.literal_step s.entry.tokens.now stands x.now) }
{
    read_values_in_braces(x, s)
}

/// The literal value of the place.
#[inline(always)]
#[tactic(auto, using(gs_places::proofs::Laws::at_literal, gs_places::proofs::Laws::end_literal))]
pub fn literal<'a>(s: Rest<'a>) -> Option<Spot<'a>>
    ensures { Spots result ((stands s.entry.tokens.now).literal) }
{
    let (x, rest) = s.next()?;
    literal_by(x, rest)
}

/// The form `selected_literal` of the rest of a literal of a qualified type.
#[inline(always)]
#[tactic(auto, unfolding(gs_grammar::specs::Steps::read_selected_literal))]
pub fn read_selected_literal<'a>(x: &Token, s: Rest<'a>) -> Option<Spot<'a>>
    ensures { Spots result (steps.read_selected_literal s.entry.tokens.now stands x.now) }
{
    let r0 = first_mark(Operator::Dot, x, s)?;
    let r1 = name(r0)?;
    literal(r1)
}

/// The rest of a literal of a qualified type that begins with the token.
#[inline(always)]
#[tactic(auto, unfolding(gs_grammar::specs::Steps::selected_step))]
pub fn selected_by<'a>(x: &Token, s: Rest<'a>) -> Option<Spot<'a>>
    ensures { Spots result (steps.selected_step s.entry.tokens.now stands x.now) }
{
    read_selected_literal(x, s)
}

/// The rest of a literal of a qualified type of the place.
#[inline(always)]
#[tactic(auto, using(gs_places::proofs::Laws::at_selected, gs_places::proofs::Laws::end_selected))]
pub fn selected<'a>(s: Rest<'a>) -> Option<Spot<'a>>
    ensures { Spots result ((stands s.entry.tokens.now).selected) }
{
    let (x, rest) = s.next()?;
    selected_by(x, rest)
}

/// The form `braces` of the block.
#[inline(always)]
#[tactic(auto, unfolding(gs_grammar::specs::Steps::read_braces))]
pub fn read_braces<'a>(x: &Token, s: Rest<'a>) -> Option<Spot<'a>>
    ensures { Spots result (steps.read_braces s.entry.tokens.now stands x.now) }
{
    let r0 = first_mark(Operator::LeftBrace, x, s)?;
    let f1 = at_stmts(r0)?;
    let r2 = mark(Operator::RightBrace, f1.rest)?;
    Some(Spot {
        depth: deeper(f1.depth),
        rest: r2,
    })
}

/// The block that begins with the token.
#[inline(always)]
#[tactic(auto, unfolding(gs_grammar::specs::Steps::block_step))]
pub fn block_by<'a>(x: &Token, s: Rest<'a>) -> Option<Spot<'a>>
    ensures { Spots result (steps.block_step s.entry.tokens.now stands x.now) }
{
    read_braces(x, s)
}

/// The block of the place.
#[inline(always)]
#[tactic(auto, using(gs_places::proofs::Laws::at_block, gs_places::proofs::Laws::end_block))]
pub fn block<'a>(s: Rest<'a>) -> Option<Spot<'a>>
    ensures { Spots result ((stands s.entry.tokens.now).block) }
{
    let (x, rest) = s.next()?;
    block_by(x, rest)
}

/// The form `received` of the type of a channel to receive from.
#[inline(always)]
#[tactic(auto, unfolding(gs_grammar::specs::Steps::read_received))]
pub fn read_received<'a>(x: &Token, s: Rest<'a>) -> Option<Spot<'a>>
    ensures { Spots result (steps.read_received s.entry.tokens.now stands x.now) }
{
    let r0 = first_word(Keyword::Chan, x, s)?;
    let f1 = at_type(r0)?;
    stop(f1.rest)?;
    Some(Spot {
        depth: f1.depth,
        rest: f1.rest,
    })
}

/// The type of a channel to receive from that begins with the token.
#[inline(always)]
#[tactic(auto, unfolding(gs_grammar::specs::Steps::received_step))]
pub fn received_by<'a>(x: &Token, s: Rest<'a>) -> Option<Spot<'a>>
    ensures { Spots result (steps.received_step s.entry.tokens.now stands x.now) }
{
    read_received(x, s)
}

/// The type of a channel to receive from of the place.
#[inline(always)]
#[tactic(auto, using(gs_places::proofs::Laws::at_received, gs_places::proofs::Laws::end_received))]
pub fn received<'a>(s: Rest<'a>) -> Option<Spot<'a>>
    ensures { Spots result ((stands s.entry.tokens.now).received) }
{
    let (x, rest) = s.next()?;
    received_by(x, rest)
}

/// The form `basic_literal` of the operand.
#[inline(always)]
#[tactic(auto, unfolding(gs_grammar::specs::Steps::read_basic_literal, gs_grammar::specs::Front::front_at))]
pub fn read_basic_literal<'a>(header: bool, x: &Token, s: Rest<'a>) -> Option<Spot<'a>>
    ensures { Spots result (steps.read_basic_literal s.entry.tokens.now stands header x.now) }
{
    if !is_basic(&x.kind) {
        return None;
    }
    Some(Spot { depth: 0, rest: s })
}

/// The form `header_name` of the operand.
#[inline(always)]
#[tactic(auto, unfolding(gs_grammar::specs::Steps::read_header_name))]
pub fn read_header_name<'a>(header: bool, x: &Token, s: Rest<'a>) -> Option<Spot<'a>>
    ensures { Spots result (steps.read_header_name s.entry.tokens.now stands header x.now) }
{
    let r0 = first_name(x, s)?;
    if !header {
        return None;
    }
    Some(Spot { depth: 0, rest: r0 })
}

/// The form `literal_of_selected` of the operand.
#[inline(always)]
#[tactic(auto, unfolding(gs_grammar::specs::Steps::read_literal_of_selected))]
pub fn read_literal_of_selected<'a>(header: bool, x: &Token, s: Rest<'a>) -> Option<Spot<'a>>
    ensures { Spots result (steps.read_literal_of_selected s.entry.tokens.now stands header x.now) }
{
    let r0 = first_name(x, s)?;
    if header {
        return None;
    }
    selected(r0)
}

/// The form `name` of the operand.
#[inline(always)]
#[tactic(auto, unfolding(gs_grammar::specs::Steps::read_name))]
pub fn read_name<'a>(header: bool, x: &Token, s: Rest<'a>) -> Option<Spot<'a>>
    ensures { Spots result (steps.read_name s.entry.tokens.now stands header x.now) }
{
    let r0 = first_name(x, s)?;
    if header {
        return None;
    }
    if selected(r0).is_some() {
        return None;
    }
    if literal(r0).is_some() {
        return None;
    }
    Some(Spot { depth: 0, rest: r0 })
}

/// The form `literal_of_name` of the operand.
#[inline(always)]
#[tactic(auto, unfolding(gs_grammar::specs::Steps::read_literal_of_name))]
pub fn read_literal_of_name<'a>(header: bool, x: &Token, s: Rest<'a>) -> Option<Spot<'a>>
    ensures { Spots result (steps.read_literal_of_name s.entry.tokens.now stands header x.now) }
{
    let r0 = first_name(x, s)?;
    if header {
        return None;
    }
    if selector(r0).is_some() {
        return None;
    }
    literal(r0)
}

/// The form `paren` of the operand.
#[inline(always)]
#[tactic(auto, unfolding(gs_grammar::specs::Steps::read_paren))]
pub fn read_paren<'a>(header: bool, x: &Token, s: Rest<'a>) -> Option<Spot<'a>>
    ensures { Spots result (steps.read_paren s.entry.tokens.now stands header x.now) }
{
    let r0 = first_mark(Operator::LeftParen, x, s)?;
    let f1 = at_inner(r0)?;
    let r2 = mark(Operator::RightParen, f1.rest)?;
    Some(Spot {
        depth: deeper(f1.depth),
        rest: r2,
    })
}

/// The form `literal_of_type` of the operand.
#[inline(always)]
#[tactic(auto, unfolding(gs_grammar::specs::Steps::read_literal_of_type, gs_grammar::specs::Front::front_at))]
pub fn read_literal_of_type<'a>(
    header: bool,
    found_type: Option<Spot<'a>>,
    x: &Token,
    s: Rest<'a>,
) -> Option<Spot<'a>>
    requires found_type { Spots found_type (steps.type_step s.tokens.now stands x.now) }
    ensures { Spots result (steps.read_literal_of_type s.entry.tokens.now stands header x.now) }
{
    if !is_composite_start(&x.kind) {
        return None;
    }
    let f1 = found_type?;
    let f2 = literal(f1.rest)?;
    Some(Spot {
        depth: deepest(f1.depth, f2.depth),
        rest: f2.rest,
    })
}

/// The form `composite_type` of the operand.
#[inline(always)]
#[tactic(auto, unfolding(gs_grammar::specs::Steps::read_composite_type, gs_grammar::specs::Front::front_at))]
pub fn read_composite_type<'a>(
    header: bool,
    found_type: Option<Spot<'a>>,
    x: &Token,
    s: Rest<'a>,
) -> Option<Spot<'a>>
    requires found_type { Spots found_type (steps.type_step s.tokens.now stands x.now) }
    ensures { Spots result (steps.read_composite_type s.entry.tokens.now stands header x.now) }
{
    if !is_composite_start(&x.kind) {
        return None;
    }
    let f1 = found_type?;
    if literal(f1.rest).is_some() {
        return None;
    }
    Some(Spot {
        depth: f1.depth,
        rest: f1.rest,
    })
}

/// The form `counted_literal` of the operand.
#[inline(always)]
#[tactic(auto, unfolding(gs_grammar::specs::Steps::read_counted_literal))]
pub fn read_counted_literal<'a>(header: bool, x: &Token, s: Rest<'a>) -> Option<Spot<'a>>
    ensures { Spots result (steps.read_counted_literal s.entry.tokens.now stands header x.now) }
{
    let r0 = first_mark(Operator::LeftBracket, x, s)?;
    let r1 = mark(Operator::Ellipsis, r0)?;
    let r2 = mark(Operator::RightBracket, r1)?;
    let f3 = at_type(r2)?;
    let f4 = literal(f3.rest)?;
    Some(Spot {
        depth: deepest(deeper(f3.depth), f4.depth),
        rest: f4.rest,
    })
}

/// The form `other_type` of the operand.
#[inline(always)]
#[tactic(auto, unfolding(gs_grammar::specs::Steps::read_other_type, gs_grammar::specs::Front::front_at))]
pub fn read_other_type<'a>(
    header: bool,
    found_type: Option<Spot<'a>>,
    x: &Token,
    s: Rest<'a>,
) -> Option<Spot<'a>>
    requires found_type { Spots found_type (steps.type_step s.tokens.now stands x.now) }
    ensures { Spots result (steps.read_other_type s.entry.tokens.now stands header x.now) }
{
    if !is_other_start(&x.kind) {
        return None;
    }
    found_type
}

/// The form `function_literal` of the operand.
#[inline(always)]
#[tactic(auto, unfolding(gs_grammar::specs::Steps::read_function_literal))]
pub fn read_function_literal<'a>(header: bool, x: &Token, s: Rest<'a>) -> Option<Spot<'a>>
    ensures { Spots result (steps.read_function_literal s.entry.tokens.now stands header x.now) }
{
    let r0 = first_word(Keyword::Func, x, s)?;
    let f1 = signature(r0)?;
    let f2 = block(f1.rest)?;
    Some(Spot {
        depth: deeper(deepest(f1.depth, f2.depth)),
        rest: f2.rest,
    })
}

/// The form `lone_function_type` of the operand.
#[inline(always)]
#[tactic(auto, unfolding(gs_grammar::specs::Steps::read_lone_function_type))]
pub fn read_lone_function_type<'a>(header: bool, x: &Token, s: Rest<'a>) -> Option<Spot<'a>>
    ensures { Spots result (steps.read_lone_function_type s.entry.tokens.now stands header x.now) }
{
    let r0 = first_word(Keyword::Func, x, s)?;
    let f1 = signature(r0)?;
    if block(f1.rest).is_some() {
        return None;
    }
    Some(Spot {
        depth: deeper(f1.depth),
        rest: f1.rest,
    })
}

/// The operand that begins with the token.
#[inline(always)]
#[tactic(auto, unfolding(gs_grammar::specs::Steps::head_step))]
pub fn head_by<'a>(
    header: bool,
    found_type: Option<Spot<'a>>,
    x: &Token,
    s: Rest<'a>,
) -> Option<Spot<'a>>
    requires found_type { Spots found_type (steps.type_step s.tokens.now stands x.now) }
    ensures { Spots result (steps.head_step s.entry.tokens.now stands header x.now) }
{
    let found = read_basic_literal(header, x, s);
    if found.is_some() {
        return found;
    }
    let found = read_header_name(header, x, s);
    if found.is_some() {
        return found;
    }
    let found = read_literal_of_selected(header, x, s);
    if found.is_some() {
        return found;
    }
    let found = read_name(header, x, s);
    if found.is_some() {
        return found;
    }
    let found = read_literal_of_name(header, x, s);
    if found.is_some() {
        return found;
    }
    let found = read_paren(header, x, s);
    if found.is_some() {
        return found;
    }
    let found = read_literal_of_type(header, found_type, x, s);
    if found.is_some() {
        return found;
    }
    let found = read_composite_type(header, found_type, x, s);
    if found.is_some() {
        return found;
    }
    let found = read_counted_literal(header, x, s);
    if found.is_some() {
        return found;
    }
    let found = read_other_type(header, found_type, x, s);
    if found.is_some() {
        return found;
    }
    let found = read_function_literal(header, x, s);
    if found.is_some() {
        return found;
    }
    read_lone_function_type(header, x, s)
}

/// The form `primary` of the primary expression.
#[inline(always)]
#[tactic(auto, unfolding(gs_grammar::specs::Steps::read_primary))]
pub fn read_primary<'a>(
    header: bool,
    found: Option<Spot<'a>>,
    x: &Token,
    s: Rest<'a>,
) -> Option<Spot<'a>>
    requires found { Spots found (steps.head_step s.tokens.now stands header x.now) }
    ensures { Spots result (steps.read_primary s.entry.tokens.now stands header x.now) }
{
    let f0 = found?;
    let f1 = at_suffixes(f0.rest)?;
    Some(Spot {
        depth: deepest(f0.depth, f1.depth),
        rest: f1.rest,
    })
}

/// The primary expression that begins with the token.
#[inline(always)]
#[tactic(auto, unfolding(gs_grammar::specs::Steps::primary_step))]
pub fn primary_by<'a>(
    header: bool,
    found: Option<Spot<'a>>,
    x: &Token,
    s: Rest<'a>,
) -> Option<Spot<'a>>
    requires found { Spots found (steps.head_step s.tokens.now stands header x.now) }
    ensures { Spots result (steps.primary_step s.entry.tokens.now stands header x.now) }
{
    read_primary(header, found, x, s)
}

/// The primary expression of the place.
#[inline(always)]
#[tactic(auto, using(gs_places::proofs::Laws::at_primary, gs_places::proofs::Laws::end_primary, gs_places::proofs::Laws::at_type))]
pub fn primary<'a>(header: bool, s: Rest<'a>) -> Option<Spot<'a>>
    ensures { Spots result ((stands s.entry.tokens.now).primary header) }
{
    let (x, rest) = s.next()?;
    let found = head_by(header, at_type(s), x, rest);
    primary_by(header, found, x, rest)
}

/// The form `bare_primary` of the unary expression.
#[inline(always)]
#[tactic(auto, unfolding(gs_grammar::specs::Steps::read_bare_primary))]
pub fn read_bare_primary<'a>(
    header: bool,
    first: bool,
    found: Option<Spot<'a>>,
    x: &Token,
    s: Rest<'a>,
) -> Option<Spot<'a>>
    requires found { Spots found (steps.primary_step s.tokens.now stands header x.now) }
    ensures { Spots result (steps.read_bare_primary s.entry.tokens.now stands header first x.now) }
{
    found
}

/// The form `signed` of the unary expression.
#[inline(always)]
#[tactic(auto, unfolding(gs_grammar::specs::Steps::read_signed, gs_grammar::specs::Front::front_at))]
pub fn read_signed<'a>(header: bool, first: bool, x: &Token, s: Rest<'a>) -> Option<Spot<'a>>
    ensures { Spots result (steps.read_signed s.entry.tokens.now stands header first x.now) }
{
    if !is_sign(&x.kind) {
        return None;
    }
    let f1 = at_unary(header, false, s)?;
    Some(Spot {
        depth: deeper(f1.depth),
        rest: f1.rest,
    })
}

/// The form `starred` of the unary expression.
#[inline(always)]
#[tactic(auto, unfolding(gs_grammar::specs::Steps::read_starred))]
pub fn read_starred<'a>(header: bool, first: bool, x: &Token, s: Rest<'a>) -> Option<Spot<'a>>
    ensures { Spots result (steps.read_starred s.entry.tokens.now stands header first x.now) }
{
    let r0 = first_mark(Operator::Star, x, s)?;
    let f1 = at_unary(header, first, r0)?;
    Some(Spot {
        depth: deeper(f1.depth),
        rest: f1.rest,
    })
}

/// The form `receiver` of the unary expression.
#[inline(always)]
#[tactic(auto, unfolding(gs_grammar::specs::Steps::read_receiver))]
pub fn read_receiver<'a>(header: bool, first: bool, x: &Token, s: Rest<'a>) -> Option<Spot<'a>>
    ensures { Spots result (steps.read_receiver s.entry.tokens.now stands header first x.now) }
{
    let r0 = first_mark(Operator::Arrow, x, s)?;
    if !first {
        return None;
    }
    let f2 = received(r0)?;
    Some(Spot {
        depth: deeper(f2.depth),
        rest: f2.rest,
    })
}

/// The form `receive_first` of the unary expression.
#[inline(always)]
#[tactic(auto, unfolding(gs_grammar::specs::Steps::read_receive_first))]
pub fn read_receive_first<'a>(header: bool, first: bool, x: &Token, s: Rest<'a>) -> Option<Spot<'a>>
    ensures { Spots result (steps.read_receive_first s.entry.tokens.now stands header first x.now) }
{
    let r0 = first_mark(Operator::Arrow, x, s)?;
    if !first {
        return None;
    }
    if received(r0).is_some() {
        return None;
    }
    let f3 = at_unary(header, false, r0)?;
    Some(Spot {
        depth: deeper(f3.depth),
        rest: f3.rest,
    })
}

/// The form `receive` of the unary expression.
#[inline(always)]
#[tactic(auto, unfolding(gs_grammar::specs::Steps::read_receive))]
pub fn read_receive<'a>(header: bool, first: bool, x: &Token, s: Rest<'a>) -> Option<Spot<'a>>
    ensures { Spots result (steps.read_receive s.entry.tokens.now stands header first x.now) }
{
    let r0 = first_mark(Operator::Arrow, x, s)?;
    if first {
        return None;
    }
    let f2 = at_unary(header, false, r0)?;
    Some(Spot {
        depth: deeper(f2.depth),
        rest: f2.rest,
    })
}

/// The unary expression that begins with the token.
#[inline(always)]
#[tactic(auto, unfolding(gs_grammar::specs::Steps::unary_step))]
pub fn unary_by<'a>(
    header: bool,
    first: bool,
    found: Option<Spot<'a>>,
    x: &Token,
    s: Rest<'a>,
) -> Option<Spot<'a>>
    requires found { Spots found (steps.primary_step s.tokens.now stands header x.now) }
    ensures { Spots result (steps.unary_step s.entry.tokens.now stands header first x.now) }
{
    let tried = read_bare_primary(header, first, found, x, s);
    if tried.is_some() {
        return tried;
    }
    let tried = read_signed(header, first, x, s);
    if tried.is_some() {
        return tried;
    }
    let tried = read_starred(header, first, x, s);
    if tried.is_some() {
        return tried;
    }
    let tried = read_receiver(header, first, x, s);
    if tried.is_some() {
        return tried;
    }
    let tried = read_receive_first(header, first, x, s);
    if tried.is_some() {
        return tried;
    }
    read_receive(header, first, x, s)
}

/// The expressions with one more precedence of operators outside brackets.
#[inline(always)]
#[tactic(auto, unfolding(gs_grammar::specs::Steps::expr_step))]
pub fn looser<'a>(
    level: u8,
    header: bool,
    first: bool,
    found: Option<Spot<'a>>,
    x: &Token,
    s: Rest<'a>,
) -> Option<Spot<'a>>
    requires low { level ≤ 4 }
    requires found { Spots found (steps.expr_step s.tokens.now stands level header first x.now) }
    ensures { Spots result (steps.expr_step s.entry.tokens.now stands (suc level) header first x.now) }
{
    let f0 = found?;
    let f1 = at_operands(level, header, f0.rest)?;
    Some(Spot {
        depth: deepest(f0.depth, f1.depth),
        rest: f1.rest,
    })
}

/// The loosest expressions, from those without operators outside brackets.
#[inline(always)]
#[tactic(auto, unfolding(gs_grammar::specs::Steps::expr_step))]
pub fn loosest<'a>(
    header: bool,
    first: bool,
    unary: Option<Spot<'a>>,
    x: &Token,
    s: Rest<'a>,
) -> Option<Spot<'a>>
    requires unary { Spots unary (steps.unary_step s.tokens.now stands header first x.now) }
    ensures { Spots result (steps.expr_step s.entry.tokens.now stands 5 header first x.now) }
{
    let one = looser(0, header, first, unary, x, s);
    let two = looser(1, header, first, one, x, s);
    let three = looser(2, header, first, two, x, s);
    let four = looser(3, header, first, three, x, s);
    looser(4, header, first, four, x, s)
}
