//! What the table has of expressions at a token, from the rows behind it.
ghost use Rattle.std.specs.Prelude.{◌≡◌, ◌≤◌, ◌<◌, ◌+◌, ◌^◌, ◌∷◌, length, true, false};
ghost use Rattle.gs_grammar.specs.Steps as steps;
ghost use Rattle.gs_places.specs.Places.{cell, exprs_at, levels_at, stands};
ghost use Rattle.gs_places.specs.Spots.{Spots};

use crate::lists::{
    args_by, element_by, elements_by, exprs_by, operand_by, operands_by, suffix_by, suffixes_by,
    value_by,
};
use crate::operands::{head_by, looser, loosest, primary_by, unary_by};
use gs_places::front::is_mark;
use gs_places::place::{Cell, Exprs, Levels};
use gs_places::rest::{Rest, Spot, kept};
use gs_syntax::token::{Operator, Token};

/// The operators of a precedence with what is on their right, from the token on.
#[inline(always)]
#[tactic(auto, using(gs_places::proofs::Laws::at_operands))]
pub fn operators<'a>(level: u8, header: bool, x: &Token, s: Rest<'a>) -> Option<Cell>
    requires few { length s.tokens.now + 1 < 2 ^ 32 }
    requires low { level ≤ 4 }
    ensures { result ≡ cell ((stands (x.now ∷ s.entry.tokens.now)).operands level header) }
{
    operands_by(level, header, operand_by(level, header, x, s), x, s)
}

/// An expression without operators outside brackets.
#[inline(always)]
#[tactic(auto, unfolding(gs_grammar::specs::Steps::expr_step))]
fn alone<'a>(header: bool, unary: Option<Spot<'a>>, x: &Token, s: Rest<'a>) -> Option<Spot<'a>>
    requires { Spots unary (steps.unary_step s.tokens.now stands header false x.now) }
    ensures { Spots result (steps.expr_step s.entry.tokens.now stands 0 header false x.now) }
{
    unary
}

/// The expressions that begin with the token, in a header or not: what the table has of them, and the loosest with the list
/// of expressions that it begins.
#[derive(Clone, Copy)]
pub struct Level<'a> {
    pub levels: Levels,
    pub found: Option<Spot<'a>>,
    pub exprs: Option<Spot<'a>>,
}

/// The expressions that begin with the token, in a header or not, from those without operators outside brackets.
#[inline(always)]
#[tactic(auto, using(gs_places::proofs::Laws::at_unary, gs_places::proofs::Laws::at_expr, gs_places::proofs::Laws::at_exprs))]
fn level_row<'a>(
    header: bool,
    unary: Option<Spot<'a>>,
    first: Option<Spot<'a>>,
    x: &Token,
    s: Rest<'a>,
) -> Level<'a>
    requires few { length s.tokens.now + 1 < 2 ^ 32 }
    requires unary { Spots unary (steps.unary_step s.tokens.now stands header false x.now) }
    requires first { Spots first (steps.unary_step s.tokens.now stands header true x.now) }
    ensures levels { result.levels ≡ levels_at header (x.now ∷ s.entry.tokens.now) }
    ensures found { Spots result.found (steps.expr_step s.entry.tokens.now stands 5 header false x.now) }
    ensures exprs { Spots result.exprs (steps.exprs_step s.entry.tokens.now stands header x.now) }
{
    let alone = alone(header, unary, x, s);
    let product = looser(0, header, false, alone, x, s);
    let sum = looser(1, header, false, product, x, s);
    let comparison = looser(2, header, false, sum, x, s);
    let conjunction = looser(3, header, false, comparison, x, s);
    let found = looser(4, header, false, conjunction, x, s);
    let exprs = exprs_by(header, found, x, s);
    let levels = Levels {
        unary: kept(unary),
        unary_first: kept(first),
        product: kept(product),
        sum: kept(sum),
        comparison: kept(comparison),
        conjunction: kept(conjunction),
        disjunction: kept(found),
        factors: operators(0, header, x, s),
        terms: operators(1, header, x, s),
        compared: operators(2, header, x, s),
        conjoined: operators(3, header, x, s),
        disjoined: operators(4, header, x, s),
        exprs: kept(exprs),
    };
    Level {
        levels,
        found,
        exprs,
    }
}

/// An expression without operators outside brackets, where it stands first in parentheses or arguments: another one only where a
/// star or an arrow begins it.
#[inline(always)]
#[tactic(auto, using(crate::proofs::Firsts::same_unary))]
fn first_by<'a>(
    header: bool,
    primary: Option<Spot<'a>>,
    unary: Option<Spot<'a>>,
    x: &Token,
    s: Rest<'a>,
) -> Option<Spot<'a>>
    requires primary { Spots primary (steps.primary_step s.tokens.now stands header x.now) }
    requires unary { Spots unary (steps.unary_step s.tokens.now stands header false x.now) }
    ensures { Spots result (steps.unary_step s.entry.tokens.now stands header true x.now) }
{
    if is_mark(Operator::Star, &x.kind) || is_mark(Operator::Arrow, &x.kind) {
        unary_by(header, true, primary, x, s)
    } else {
        unary
    }
}

/// The expressions that begin with the token, in a header or not.
#[inline(always)]
pub fn level_by<'a>(header: bool, found: Option<Spot<'a>>, x: &Token, s: Rest<'a>) -> Level<'a>
    requires few { length s.tokens.now + 1 < 2 ^ 32 }
    requires found { Spots found (steps.type_step s.tokens.now stands x.now) }
    ensures levels { result.levels ≡ levels_at header (x.now ∷ s.entry.tokens.now) }
    ensures found { Spots result.found (steps.expr_step s.entry.tokens.now stands 5 header false x.now) }
    ensures exprs { Spots result.exprs (steps.exprs_step s.entry.tokens.now stands header x.now) }
{
    let primary = primary_by(header, head_by(header, found, x, s), x, s);
    let unary = unary_by(header, false, primary, x, s);
    let first = first_by(header, primary, unary, x, s);
    level_row(header, unary, first, x, s)
}

/// The expression at the front of arguments or of parentheses, from the one that stands elsewhere.
#[inline(always)]
#[tactic(auto, using(crate::proofs::Firsts::same_expr))]
fn inner_by<'a>(
    plain: Option<Spot<'a>>,
    found: Option<Spot<'a>>,
    x: &Token,
    s: Rest<'a>,
) -> Option<Spot<'a>>
    requires plain { Spots plain (steps.expr_step s.tokens.now stands 5 false false x.now) }
    requires found { Spots found (steps.type_step s.tokens.now stands x.now) }
    ensures { Spots result (steps.expr_step s.entry.tokens.now stands 5 false true x.now) }
{
    if is_mark(Operator::Star, &x.kind) || is_mark(Operator::Arrow, &x.kind) {
        let primary = primary_by(false, head_by(false, found, x, s), x, s);
        loosest(false, true, unary_by(false, true, primary, x, s), x, s)
    } else {
        plain
    }
}

/// What the table has of the expressions that begin with the token.
#[inline(always)]
#[tactic(auto, using(gs_places::proofs::Laws::at_expr, gs_places::proofs::Laws::at_suffixes, gs_places::proofs::Laws::at_args, gs_places::proofs::Laws::at_elements))]
pub fn expr_row<'a>(
    plain: Level<'a>,
    header: Level<'a>,
    found: Option<Spot<'a>>,
    x: &Token,
    s: Rest<'a>,
) -> Exprs
    requires few { length s.tokens.now + 1 < 2 ^ 32 }
    requires plain { plain.levels ≡ levels_at false (x.now ∷ s.tokens.now) }
    requires header { header.levels ≡ levels_at true (x.now ∷ s.tokens.now) }
    requires found { Spots found (steps.type_step s.tokens.now stands x.now) }
    requires loosest { Spots plain.found (steps.expr_step s.tokens.now stands 5 false false x.now) }
    ensures { result ≡ exprs_at (x.now ∷ s.entry.tokens.now) }
{
    let inner = inner_by(plain.found, found, x, s);
    Exprs {
        plain: plain.levels,
        header: header.levels,
        inner: kept(inner),
        suffixes: suffixes_by(suffix_by(x, s), x, s),
        args: args_by(inner, x, s),
        elements: elements_by(element_by(value_by(plain.found, x, s), x, s), x, s),
    }
}
