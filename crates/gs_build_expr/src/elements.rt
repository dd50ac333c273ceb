//! Trees of the elements of literal values.
ghost use Rattle.std.specs.Prelude.{◌≡◌, ◌∷◌};
ghost use Rattle.gs_grammar.specs.Steps as steps;
ghost use Rattle.gs_places.specs.Places.{stands};
ghost use Rattle.gs_build_base.specs.Pieces.{Builds, Turns};

use crate::exprs::expr_from;
use gs_build_base::front::{first_mark_span, mark_span};
use gs_build_base::here::expr_here;
use gs_build_base::maker::Maker;
use gs_build_base::pieces::{Piece, Stop, Turn};
use gs_build_pairs::lists::Listed;
use gs_build_pairs::pairs::two_values;
use gs_grammar::trees::{Element, ElementValue, LiteralValue};
use gs_places::at::at_elements;
use gs_places::front::{is_mark, mark, trail};
use gs_places::rest::Rest;
use gs_rows_expr::lists::{
    element_by, read_last_element, read_more_elements, read_plain_element, read_value_expr,
    value_by,
};
use gs_syntax::token::{Operator, Token};
use sqlite_items::Items;
use std::alloc::Global;

/// The form `value_expr` of the value of an element.
#[inline(never)]
#[tactic(auto, unfolding(gs_grammar::specs::Steps::read_value_expr))]
fn build_value_expr<'a, M: Maker>(
    alloc: Global,
    make: &M,
    place: Rest<'a>,
    x: &'a Token,
    s: Rest<'a>,
) -> Result<Piece<'a, ElementValue>, Stop>
    requires faithful { M.is_faithful make.now }
    requires here { place.tokens.now ≡ x.now ∷ s.tokens.now }
    ensures { Builds result (steps.read_value_expr s.entry.tokens.now stands x.now) }
{
    let Piece { tree: t, rest: r0 } = expr_from(alloc, make, 5, false, false, place, x, s)?;
    Ok(Piece {
        tree: ElementValue::Expr(t),
        rest: r0,
    })
}

/// The form `value_literal` of the value of an element.
#[inline(never)]
#[tactic(auto, unfolding(gs_grammar::specs::Steps::read_value_literal))]
fn build_value_literal<'a, M: Maker>(
    make: &M,
    x: &'a Token,
    s: Rest<'a>,
) -> Result<Piece<'a, ElementValue>, Stop>
    requires faithful { M.is_faithful make.now }
    ensures { Builds result (steps.read_value_literal s.entry.tokens.now stands x.now) }
{
    let (p, r0) = first_mark_span(Operator::LeftBrace, x, s).ok_or(Stop::Absent)?;
    let f1 = at_elements(r0).ok_or(Stop::Absent)?;
    let (q, r2) = mark_span(Operator::RightBrace, f1.rest).ok_or(Stop::Absent)?;
    let xs = make.make_elements(r0)?.tree;
    Ok(Piece {
        tree: ElementValue::Literal(LiteralValue {
            left: p,
            elements: xs,
            right: q,
        }),
        rest: r2,
    })
}

/// The value of an element that begins with the token.
#[tactic(auto, unfolding(gs_grammar::specs::Steps::value_step))]
pub fn value_from<'a, M: Maker>(
    alloc: Global,
    make: &M,
    place: Rest<'a>,
    x: &'a Token,
    s: Rest<'a>,
) -> Result<Piece<'a, ElementValue>, Stop>
    requires faithful { M.is_faithful make.now }
    requires here { place.tokens.now ≡ x.now ∷ s.tokens.now }
    ensures { Builds result (steps.value_step s.entry.tokens.now stands x.now) }
{
    let found = expr_here(5, false, place, x, s);
    if read_value_expr(found, x, s).is_some() {
        return build_value_expr(alloc, make, place, x, s);
    }
    build_value_literal(make, x, s)
}

/// The value of an element of the place.
#[tactic(auto, using(gs_places::proofs::Laws::at_value, gs_places::proofs::Laws::end_value))]
pub fn value_tree<'a, M: Maker>(
    alloc: Global,
    make: &M,
    s: Rest<'a>,
) -> Result<Piece<'a, ElementValue>, Stop>
    requires faithful { M.is_faithful make.now }
    ensures { Builds result ((stands s.entry.tokens.now).value) }
{
    let (x, rest) = s.next().ok_or(Stop::Absent)?;
    value_from(alloc, make, s, x, rest)
}

/// The form `plain_element` of the element.
#[inline(never)]
#[tactic(auto, unfolding(gs_grammar::specs::Steps::read_plain_element))]
fn build_plain_element<'a, M: Maker>(
    alloc: Global,
    make: &M,
    place: Rest<'a>,
    x: &'a Token,
    s: Rest<'a>,
) -> Result<Piece<'a, Element>, Stop>
    requires faithful { M.is_faithful make.now }
    requires here { place.tokens.now ≡ x.now ∷ s.tokens.now }
    ensures { Builds result (steps.read_plain_element s.entry.tokens.now stands x.now) }
{
    let f0 = value_by(expr_here(5, false, place, x, s), x, s).ok_or(Stop::Absent)?;
    if mark(Operator::Colon, f0.rest).is_some() {
        return Err(Stop::Absent);
    }
    let a = value_from(alloc, make, place, x, s)?.tree;
    Ok(Piece {
        tree: Element::Plain(a),
        rest: f0.rest,
    })
}

/// The form `keyed_element` of the element.
#[inline(never)]
#[tactic(auto, unfolding(gs_grammar::specs::Steps::read_keyed_element))]
fn build_keyed_element<'a, M: Maker>(
    alloc: Global,
    make: &M,
    place: Rest<'a>,
    x: &'a Token,
    s: Rest<'a>,
) -> Result<Piece<'a, Element>, Stop>
    requires faithful { M.is_faithful make.now }
    requires here { place.tokens.now ≡ x.now ∷ s.tokens.now }
    ensures { Builds result (steps.read_keyed_element s.entry.tokens.now stands x.now) }
{
    let f0 = value_by(expr_here(5, false, place, x, s), x, s).ok_or(Stop::Absent)?;
    let r1 = mark(Operator::Colon, f0.rest).ok_or(Stop::Absent)?;
    let key = value_from(alloc, make, place, x, s);
    let value = value_tree(alloc, make, r1);
    let Piece {
        tree: (a, b),
        rest: r2,
    } = two_values(key, value)?;
    Ok(Piece {
        tree: Element::Keyed(a, b),
        rest: r2,
    })
}

/// The element that begins with the token.
#[tactic(auto, unfolding(gs_grammar::specs::Steps::element_step))]
pub fn element_from<'a, M: Maker>(
    alloc: Global,
    make: &M,
    place: Rest<'a>,
    x: &'a Token,
    s: Rest<'a>,
) -> Result<Piece<'a, Element>, Stop>
    requires faithful { M.is_faithful make.now }
    requires here { place.tokens.now ≡ x.now ∷ s.tokens.now }
    ensures { Builds result (steps.element_step s.entry.tokens.now stands x.now) }
{
    let found = value_by(expr_here(5, false, place, x, s), x, s);
    if read_plain_element(found, x, s).is_some() {
        return build_plain_element(alloc, make, place, x, s);
    }
    build_keyed_element(alloc, make, place, x, s)
}

/// The form `last_element` of the elements.
#[inline(never)]
#[tactic(auto, unfolding(gs_grammar::specs::Steps::read_last_element, gs_build_base::specs::Pieces::joined))]
fn turn_last_element<'a, M: Maker>(
    alloc: Global,
    make: &M,
    place: Rest<'a>,
    x: &'a Token,
    s: Rest<'a>,
) -> Result<Turn<'a, Element>, Stop>
    requires faithful { M.is_faithful make.now }
    requires here { place.tokens.now ≡ x.now ∷ s.tokens.now }
    ensures { Turns (λ r. (stands r).elements) result (steps.read_last_element s.entry.tokens.now stands x.now) }
{
    let f0 = element_by(value_by(expr_here(5, false, place, x, s), x, s), x, s).ok_or(
        Stop::Absent,
    )?;
    let r1 = trail(Operator::RightBrace, f0.rest).ok_or(Stop::Absent)?;
    let item = element_from(alloc, make, place, x, s)?.tree;
    Ok(Turn::Last(item, r1))
}

/// The form `more_elements` of the elements.
#[inline(never)]
#[tactic(auto, unfolding(gs_grammar::specs::Steps::read_more_elements, gs_build_base::specs::Pieces::joined))]
fn turn_more_elements<'a, M: Maker>(
    alloc: Global,
    make: &M,
    place: Rest<'a>,
    x: &'a Token,
    s: Rest<'a>,
) -> Result<Turn<'a, Element>, Stop>
    requires faithful { M.is_faithful make.now }
    requires here { place.tokens.now ≡ x.now ∷ s.tokens.now }
    ensures { Turns (λ r. (stands r).elements) result (steps.read_more_elements s.entry.tokens.now stands x.now) }
{
    let f0 = element_by(value_by(expr_here(5, false, place, x, s), x, s), x, s).ok_or(
        Stop::Absent,
    )?;
    let r1 = mark(Operator::Comma, f0.rest).ok_or(Stop::Absent)?;
    if mark(Operator::RightBrace, r1).is_some() {
        return Err(Stop::Absent);
    }
    let item = element_from(alloc, make, place, x, s)?.tree;
    Ok(Turn::More(item, r1))
}

/// What the elements have at the place.
#[tactic(auto, using(gs_places::proofs::Laws::at_elements, gs_places::proofs::Laws::end_elements), unfolding(gs_grammar::specs::Steps::elements_step, gs_grammar::specs::Steps::read_no_elements, gs_grammar::specs::Front::mark_at))]
fn elements_turn<'a, M: Maker>(
    alloc: Global,
    make: &M,
    s: Rest<'a>,
) -> Result<Turn<'a, Element>, Stop>
    requires faithful { M.is_faithful make.now }
    ensures { Turns (λ r. (stands r).elements) result ((stands s.entry.tokens.now).elements) }
{
    let (x, rest) = s.next().ok_or(Stop::Absent)?;
    let found = element_by(value_by(expr_here(5, false, s, x, rest), x, rest), x, rest);
    if read_last_element(found, x, rest).is_some() {
        return turn_last_element(alloc, make, s, x, rest);
    }
    if read_more_elements(found, x, rest).is_some() {
        return turn_more_elements(alloc, make, s, x, rest);
    }
    if is_mark(Operator::RightBrace, &x.kind) {
        Ok(Turn::End(s))
    } else {
        Err(Stop::Absent)
    }
}

/// The elements of the place. There are at most as many as tokens.
#[tactic(auto, using(gs_build_base::proofs::Joins::joined_start, gs_build_base::proofs::Joins::joined_more, gs_build_base::proofs::Joins::joined_last, gs_build_base::proofs::Joins::joined_end, gs_build_base::proofs::Joins::joined_none))]
pub fn elements_tree<'a, M: Maker>(
    alloc: Global,
    make: &M,
    s: Rest<'a>,
) -> Result<Piece<'a, Items<Element>>, Stop>
    requires faithful { M.is_faithful make.now }
    ensures { Builds result ((stands s.entry.tokens.now).elements) }
{
    let mut found = Items::new(alloc);
    let mut rest = s;
    'turns: while found.len() <= s.tokens.len() {
        match elements_turn(alloc, make, rest) {
            Ok(Turn::More(item, more)) => {
                found = Listed::grown(found, item)?;
                rest = more;
            }
            Ok(Turn::Last(item, more)) => {
                found = Listed::grown(found, item)?;
                return Ok(Piece {
                    tree: found,
                    rest: more,
                });
            }
            Ok(Turn::End(more)) => return Ok(Piece {
                tree: found,
                rest: more,
            }),
            Err(stop) => {
                Listed::let_go(found);
                return Err(stop);
            }
        }
    }
    Listed::let_go(found);
    Err(Stop::Absent)
}
