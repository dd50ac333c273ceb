//! Trees of operands.
ghost use Rattle.std.specs.Prelude.{◌≡◌, ◌∷◌};
ghost use Rattle.gs_grammar.specs.Steps as steps;
ghost use Rattle.gs_places.specs.Places.{stands};
ghost use Rattle.gs_build_base.specs.Pieces.{Builds};

use crate::literals::{block_tree, literal_tree, received_tree, selected_tree};
use crate::suffixes::suffixes_tree;
use gs_build_base::copies::copy;
use gs_build_base::front::{first_mark_span, first_name_token, first_word_span, mark_span};
use gs_build_base::here::type_here;
use gs_build_base::maker::{Maker, type_made};
use gs_build_base::pieces::{Piece, Stop};
use gs_build_pairs::nodes::{
    composite, counted, function, function_type, paren, prefixed, receive_channel, type_as_expr,
    with_suffixes,
};
use gs_build_pairs::pairs::{expr_and_suffixes, signature_and_block, type_and_value};
use gs_grammar::trees::{Expr, TypeExpr};
use gs_places::at::{at_inner, at_type};
use gs_places::classes::{is_basic, is_composite_start, is_other_start, is_sign};
use gs_places::front::{mark, selector};
use gs_places::rest::Rest;
use gs_rows_expr::operands::{
    block, head_by, literal, primary_by, read_bare_primary, read_basic_literal,
    read_composite_type, read_counted_literal, read_function_literal, read_header_name,
    read_literal_of_name, read_literal_of_selected, read_literal_of_type, read_name,
    read_other_type, read_paren, read_receive_first, read_receiver, read_signed, read_starred,
    received, selected,
};
use gs_rows_types::params::signature;
use gs_rows_types::types::{type_by, type_name_by};
use gs_syntax::token::{Keyword, Operator, Token, TokenKind};
use std::alloc::Global;

/// The form `basic_literal` of the operand.
#[tactic(auto, unfolding(gs_grammar::specs::Steps::read_basic_literal, gs_grammar::specs::Front::front_at))]
fn build_basic_literal<'a>(
    alloc: Global,
    header: bool,
    x: &'a Token,
    s: Rest<'a>,
) -> Result<Piece<'a, Expr>, Stop>
    ensures { Builds result (steps.read_basic_literal s.entry.tokens.now stands header x.now) }
{
    if !is_basic(&x.kind) {
        return Err(Stop::Absent);
    }
    Ok(Piece {
        tree: Expr::Literal(copy(alloc, x)?),
        rest: s,
    })
}

/// The form `header_name` of the operand.
#[tactic(auto, unfolding(gs_grammar::specs::Steps::read_header_name))]
fn build_header_name<'a>(
    alloc: Global,
    header: bool,
    x: &'a Token,
    s: Rest<'a>,
) -> Result<Piece<'a, Expr>, Stop>
    ensures { Builds result (steps.read_header_name s.entry.tokens.now stands header x.now) }
{
    let (name, r0) = first_name_token(x, s).ok_or(Stop::Absent)?;
    if !header {
        return Err(Stop::Absent);
    }
    Ok(Piece {
        tree: Expr::Name(copy(alloc, name)?),
        rest: r0,
    })
}

/// The form `literal_of_selected` of the operand.
#[inline(never)]
#[tactic(auto, unfolding(gs_grammar::specs::Steps::read_literal_of_selected))]
fn build_literal_of_selected<'a, M: Maker>(
    alloc: Global,
    make: &M,
    header: bool,
    x: &'a Token,
    s: Rest<'a>,
) -> Result<Piece<'a, Expr>, Stop>
    requires faithful { M.is_faithful make.now }
    ensures { Builds result (steps.read_literal_of_selected s.entry.tokens.now stands header x.now) }
{
    let (name, r0) = first_name_token(x, s).ok_or(Stop::Absent)?;
    if header {
        return Err(Stop::Absent);
    }
    let name = copy(alloc, name)?;
    let Piece {
        tree: (y0, y1),
        rest: r2,
    } = selected_tree(alloc, make, r0)?;
    Ok(Piece {
        tree: composite(alloc, TypeExpr::Qualified(name, y0), y1)?,
        rest: r2,
    })
}

/// The form `name` of the operand.
#[tactic(auto, unfolding(gs_grammar::specs::Steps::read_name))]
fn build_name<'a>(
    alloc: Global,
    header: bool,
    x: &'a Token,
    s: Rest<'a>,
) -> Result<Piece<'a, Expr>, Stop>
    ensures { Builds result (steps.read_name s.entry.tokens.now stands header x.now) }
{
    let (name, r0) = first_name_token(x, s).ok_or(Stop::Absent)?;
    if header {
        return Err(Stop::Absent);
    }
    if selected(r0).is_some() {
        return Err(Stop::Absent);
    }
    if literal(r0).is_some() {
        return Err(Stop::Absent);
    }
    Ok(Piece {
        tree: Expr::Name(copy(alloc, name)?),
        rest: r0,
    })
}

/// The form `literal_of_name` of the operand.
#[inline(never)]
#[tactic(auto, unfolding(gs_grammar::specs::Steps::read_literal_of_name))]
fn build_literal_of_name<'a, M: Maker>(
    alloc: Global,
    make: &M,
    header: bool,
    x: &'a Token,
    s: Rest<'a>,
) -> Result<Piece<'a, Expr>, Stop>
    requires faithful { M.is_faithful make.now }
    ensures { Builds result (steps.read_literal_of_name s.entry.tokens.now stands header x.now) }
{
    let (name, r0) = first_name_token(x, s).ok_or(Stop::Absent)?;
    if header {
        return Err(Stop::Absent);
    }
    if selector(r0).is_some() {
        return Err(Stop::Absent);
    }
    let name = copy(alloc, name)?;
    let Piece { tree: v, rest: r3 } = literal_tree(make, r0)?;
    Ok(Piece {
        tree: composite(alloc, TypeExpr::Name(name), v)?,
        rest: r3,
    })
}

/// The form `paren` of the operand.
#[inline(never)]
#[tactic(auto, unfolding(gs_grammar::specs::Steps::read_paren))]
fn build_paren<'a, M: Maker>(
    alloc: Global,
    make: &M,
    header: bool,
    x: &'a Token,
    s: Rest<'a>,
) -> Result<Piece<'a, Expr>, Stop>
    requires faithful { M.is_faithful make.now }
    ensures { Builds result (steps.read_paren s.entry.tokens.now stands header x.now) }
{
    let (p, r0) = first_mark_span(Operator::LeftParen, x, s).ok_or(Stop::Absent)?;
    let f1 = at_inner(r0).ok_or(Stop::Absent)?;
    let (q, r2) = mark_span(Operator::RightParen, f1.rest).ok_or(Stop::Absent)?;
    let t = make.make_expr(5, false, true, r0)?.tree;
    Ok(Piece {
        tree: paren(alloc, p, t, q)?,
        rest: r2,
    })
}

/// The form `literal_of_type` of the operand.
#[inline(never)]
#[tactic(auto, unfolding(gs_grammar::specs::Steps::read_literal_of_type, gs_grammar::specs::Front::front_at))]
fn build_literal_of_type<'a, M: Maker>(
    alloc: Global,
    make: &M,
    header: bool,
    place: Rest<'a>,
    x: &'a Token,
    s: Rest<'a>,
) -> Result<Piece<'a, Expr>, Stop>
    requires faithful { M.is_faithful make.now }
    requires here { place.tokens.now ≡ x.now ∷ s.tokens.now }
    ensures { Builds result (steps.read_literal_of_type s.entry.tokens.now stands header x.now) }
{
    if !is_composite_start(&x.kind) {
        return Err(Stop::Absent);
    }
    let f1 = type_by(type_name_by(x, s), x, s).ok_or(Stop::Absent)?;
    let typed = type_made(make, place, x, s);
    let Piece {
        tree: (t, v),
        rest: r2,
    } = type_and_value(typed, literal_tree(make, f1.rest))?;
    Ok(Piece {
        tree: composite(alloc, t, v)?,
        rest: r2,
    })
}

/// The form `composite_type` of the operand.
#[inline(never)]
#[tactic(auto, unfolding(gs_grammar::specs::Steps::read_composite_type, gs_grammar::specs::Front::front_at))]
fn build_composite_type<'a, M: Maker>(
    alloc: Global,
    make: &M,
    header: bool,
    place: Rest<'a>,
    x: &'a Token,
    s: Rest<'a>,
) -> Result<Piece<'a, Expr>, Stop>
    requires faithful { M.is_faithful make.now }
    requires here { place.tokens.now ≡ x.now ∷ s.tokens.now }
    ensures { Builds result (steps.read_composite_type s.entry.tokens.now stands header x.now) }
{
    if !is_composite_start(&x.kind) {
        return Err(Stop::Absent);
    }
    let f1 = type_by(type_name_by(x, s), x, s).ok_or(Stop::Absent)?;
    if literal(f1.rest).is_some() {
        return Err(Stop::Absent);
    }
    let t = type_made(make, place, x, s)?.tree;
    Ok(Piece {
        tree: type_as_expr(alloc, t)?,
        rest: f1.rest,
    })
}

/// The form `counted_literal` of the operand.
#[inline(never)]
#[tactic(auto, unfolding(gs_grammar::specs::Steps::read_counted_literal))]
fn build_counted_literal<'a, M: Maker>(
    alloc: Global,
    make: &M,
    header: bool,
    x: &'a Token,
    s: Rest<'a>,
) -> Result<Piece<'a, Expr>, Stop>
    requires faithful { M.is_faithful make.now }
    ensures { Builds result (steps.read_counted_literal s.entry.tokens.now stands header x.now) }
{
    let (p, r0) = first_mark_span(Operator::LeftBracket, x, s).ok_or(Stop::Absent)?;
    let r1 = mark(Operator::Ellipsis, r0).ok_or(Stop::Absent)?;
    let r2 = mark(Operator::RightBracket, r1).ok_or(Stop::Absent)?;
    let f3 = at_type(r2).ok_or(Stop::Absent)?;
    let element = make.make_type(r2);
    let Piece {
        tree: (t, v),
        rest: r4,
    } = type_and_value(element, literal_tree(make, f3.rest))?;
    Ok(Piece {
        tree: counted(alloc, p, t, v)?,
        rest: r4,
    })
}

/// The form `other_type` of the operand.
#[inline(never)]
#[tactic(auto, unfolding(gs_grammar::specs::Steps::read_other_type, gs_grammar::specs::Front::front_at))]
fn build_other_type<'a, M: Maker>(
    alloc: Global,
    make: &M,
    header: bool,
    place: Rest<'a>,
    x: &'a Token,
    s: Rest<'a>,
) -> Result<Piece<'a, Expr>, Stop>
    requires faithful { M.is_faithful make.now }
    requires here { place.tokens.now ≡ x.now ∷ s.tokens.now }
    ensures { Builds result (steps.read_other_type s.entry.tokens.now stands header x.now) }
{
    if !is_other_start(&x.kind) {
        return Err(Stop::Absent);
    }
    let Piece { tree: t, rest: r1 } = type_made(make, place, x, s)?;
    Ok(Piece {
        tree: type_as_expr(alloc, t)?,
        rest: r1,
    })
}

/// The form `function_literal` of the operand.
#[inline(never)]
#[tactic(auto, unfolding(gs_grammar::specs::Steps::read_function_literal))]
fn build_function_literal<'a, M: Maker>(
    alloc: Global,
    make: &M,
    header: bool,
    x: &'a Token,
    s: Rest<'a>,
) -> Result<Piece<'a, Expr>, Stop>
    requires faithful { M.is_faithful make.now }
    ensures { Builds result (steps.read_function_literal s.entry.tokens.now stands header x.now) }
{
    let (p, r0) = first_word_span(Keyword::Func, x, s).ok_or(Stop::Absent)?;
    let f1 = signature(r0).ok_or(Stop::Absent)?;
    let made = make.make_signature(r0);
    let Piece {
        tree: (z, b),
        rest: r2,
    } = signature_and_block(made, block_tree(make, f1.rest))?;
    Ok(Piece {
        tree: function(alloc, p, z, b)?,
        rest: r2,
    })
}

/// The form `lone_function_type` of the operand.
#[inline(never)]
#[tactic(auto, unfolding(gs_grammar::specs::Steps::read_lone_function_type))]
fn build_lone_function_type<'a, M: Maker>(
    alloc: Global,
    make: &M,
    header: bool,
    x: &'a Token,
    s: Rest<'a>,
) -> Result<Piece<'a, Expr>, Stop>
    requires faithful { M.is_faithful make.now }
    ensures { Builds result (steps.read_lone_function_type s.entry.tokens.now stands header x.now) }
{
    let (p, r0) = first_word_span(Keyword::Func, x, s).ok_or(Stop::Absent)?;
    let f1 = signature(r0).ok_or(Stop::Absent)?;
    if block(f1.rest).is_some() {
        return Err(Stop::Absent);
    }
    let z = make.make_signature(r0)?.tree;
    Ok(Piece {
        tree: type_as_expr(alloc, function_type(alloc, p, z)?)?,
        rest: f1.rest,
    })
}

/// The operand that begins with the token.
#[tactic(auto, unfolding(gs_grammar::specs::Steps::head_step))]
pub fn head_from<'a, M: Maker>(
    alloc: Global,
    make: &M,
    header: bool,
    place: Rest<'a>,
    x: &'a Token,
    s: Rest<'a>,
) -> Result<Piece<'a, Expr>, Stop>
    requires faithful { M.is_faithful make.now }
    requires here { place.tokens.now ≡ x.now ∷ s.tokens.now }
    ensures { Builds result (steps.head_step s.entry.tokens.now stands header x.now) }
{
    let found_type = type_here(place, x, s);
    if read_basic_literal(header, x, s).is_some() {
        return build_basic_literal(alloc, header, x, s);
    }
    if read_header_name(header, x, s).is_some() {
        return build_header_name(alloc, header, x, s);
    }
    if read_literal_of_selected(header, x, s).is_some() {
        return build_literal_of_selected(alloc, make, header, x, s);
    }
    if read_name(header, x, s).is_some() {
        return build_name(alloc, header, x, s);
    }
    if read_literal_of_name(header, x, s).is_some() {
        return build_literal_of_name(alloc, make, header, x, s);
    }
    if read_paren(header, x, s).is_some() {
        return build_paren(alloc, make, header, x, s);
    }
    if read_literal_of_type(header, found_type, x, s).is_some() {
        return build_literal_of_type(alloc, make, header, place, x, s);
    }
    if read_composite_type(header, found_type, x, s).is_some() {
        return build_composite_type(alloc, make, header, place, x, s);
    }
    if read_counted_literal(header, x, s).is_some() {
        return build_counted_literal(alloc, make, header, x, s);
    }
    if read_other_type(header, found_type, x, s).is_some() {
        return build_other_type(alloc, make, header, place, x, s);
    }
    if read_function_literal(header, x, s).is_some() {
        return build_function_literal(alloc, make, header, x, s);
    }
    build_lone_function_type(alloc, make, header, x, s)
}

/// The form `primary` of the primary expression.
#[inline(never)]
#[tactic(auto, unfolding(gs_grammar::specs::Steps::read_primary))]
fn build_primary<'a, M: Maker>(
    alloc: Global,
    make: &M,
    header: bool,
    place: Rest<'a>,
    x: &'a Token,
    s: Rest<'a>,
) -> Result<Piece<'a, Expr>, Stop>
    requires faithful { M.is_faithful make.now }
    requires here { place.tokens.now ≡ x.now ∷ s.tokens.now }
    ensures { Builds result (steps.read_primary s.entry.tokens.now stands header x.now) }
{
    let f0 = head_by(header, type_here(place, x, s), x, s).ok_or(Stop::Absent)?;
    let operand = head_from(alloc, make, header, place, x, s);
    let suffixes = suffixes_tree(alloc, make, f0.rest);
    let Piece {
        tree: (t, xs),
        rest: r1,
    } = expr_and_suffixes(operand, suffixes)?;
    Ok(Piece {
        tree: with_suffixes(alloc, t, xs)?,
        rest: r1,
    })
}

/// The primary expression that begins with the token.
#[tactic(auto, unfolding(gs_grammar::specs::Steps::primary_step))]
pub fn primary_from<'a, M: Maker>(
    alloc: Global,
    make: &M,
    header: bool,
    place: Rest<'a>,
    x: &'a Token,
    s: Rest<'a>,
) -> Result<Piece<'a, Expr>, Stop>
    requires faithful { M.is_faithful make.now }
    requires here { place.tokens.now ≡ x.now ∷ s.tokens.now }
    ensures { Builds result (steps.primary_step s.entry.tokens.now stands header x.now) }
{
    build_primary(alloc, make, header, place, x, s)
}

/// The primary expression of the place.
#[tactic(auto, using(gs_places::proofs::Laws::at_primary, gs_places::proofs::Laws::end_primary))]
pub fn primary_tree<'a, M: Maker>(
    alloc: Global,
    make: &M,
    header: bool,
    s: Rest<'a>,
) -> Result<Piece<'a, Expr>, Stop>
    requires faithful { M.is_faithful make.now }
    ensures { Builds result ((stands s.entry.tokens.now).primary header) }
{
    let (x, rest) = s.next().ok_or(Stop::Absent)?;
    primary_from(alloc, make, header, s, x, rest)
}

/// The form `bare_primary` of the unary expression.
#[inline(never)]
#[tactic(auto, unfolding(gs_grammar::specs::Steps::read_bare_primary))]
fn build_bare_primary<'a, M: Maker>(
    alloc: Global,
    make: &M,
    header: bool,
    first: bool,
    place: Rest<'a>,
    x: &'a Token,
    s: Rest<'a>,
) -> Result<Piece<'a, Expr>, Stop>
    requires faithful { M.is_faithful make.now }
    requires here { place.tokens.now ≡ x.now ∷ s.tokens.now }
    ensures { Builds result (steps.read_bare_primary s.entry.tokens.now stands header first x.now) }
{
    primary_from(alloc, make, header, place, x, s)
}

/// The form `signed` of the unary expression.
#[inline(never)]
#[tactic(auto, unfolding(gs_grammar::specs::Steps::read_signed, gs_grammar::specs::Front::front_at))]
fn build_signed<'a, M: Maker>(
    alloc: Global,
    make: &M,
    header: bool,
    first: bool,
    x: &'a Token,
    s: Rest<'a>,
) -> Result<Piece<'a, Expr>, Stop>
    requires faithful { M.is_faithful make.now }
    ensures { Builds result (steps.read_signed s.entry.tokens.now stands header first x.now) }
{
    if !is_sign(&x.kind) {
        return Err(Stop::Absent);
    }
    let token = copy(alloc, x)?;
    let Piece { tree: t, rest: r1 } = make.make_unary(header, false, s)?;
    Ok(Piece {
        tree: prefixed(alloc, token, t)?,
        rest: r1,
    })
}

/// The form `starred` of the unary expression.
#[inline(never)]
#[tactic(auto, unfolding(gs_grammar::specs::Steps::read_starred))]
fn build_starred<'a, M: Maker>(
    alloc: Global,
    make: &M,
    header: bool,
    first: bool,
    x: &'a Token,
    s: Rest<'a>,
) -> Result<Piece<'a, Expr>, Stop>
    requires faithful { M.is_faithful make.now }
    ensures { Builds result (steps.read_starred s.entry.tokens.now stands header first x.now) }
{
    let (p, r0) = first_mark_span(Operator::Star, x, s).ok_or(Stop::Absent)?;
    let Piece { tree: t, rest: r1 } = make.make_unary(header, first, r0)?;
    Ok(Piece {
        tree: prefixed(
            alloc,
            Token {
                kind: TokenKind::Operator(Operator::Star),
                span: p,
            },
            t,
        )?,
        rest: r1,
    })
}

/// The form `receiver` of the unary expression.
#[inline(never)]
#[tactic(auto, unfolding(gs_grammar::specs::Steps::read_receiver))]
fn build_receiver<'a, M: Maker>(
    alloc: Global,
    make: &M,
    header: bool,
    first: bool,
    x: &'a Token,
    s: Rest<'a>,
) -> Result<Piece<'a, Expr>, Stop>
    requires faithful { M.is_faithful make.now }
    ensures { Builds result (steps.read_receiver s.entry.tokens.now stands header first x.now) }
{
    let (p, r0) = first_mark_span(Operator::Arrow, x, s).ok_or(Stop::Absent)?;
    if !first {
        return Err(Stop::Absent);
    }
    let Piece { tree: t, rest: r2 } = received_tree(make, r0)?;
    Ok(Piece {
        tree: type_as_expr(alloc, receive_channel(alloc, p, t)?)?,
        rest: r2,
    })
}

/// The form `receive_first` of the unary expression.
#[inline(never)]
#[tactic(auto, unfolding(gs_grammar::specs::Steps::read_receive_first))]
fn build_receive_first<'a, M: Maker>(
    alloc: Global,
    make: &M,
    header: bool,
    first: bool,
    x: &'a Token,
    s: Rest<'a>,
) -> Result<Piece<'a, Expr>, Stop>
    requires faithful { M.is_faithful make.now }
    ensures { Builds result (steps.read_receive_first s.entry.tokens.now stands header first x.now) }
{
    let (p, r0) = first_mark_span(Operator::Arrow, x, s).ok_or(Stop::Absent)?;
    if !first {
        return Err(Stop::Absent);
    }
    if received(r0).is_some() {
        return Err(Stop::Absent);
    }
    let Piece { tree: t, rest: r3 } = make.make_unary(header, false, r0)?;
    Ok(Piece {
        tree: prefixed(
            alloc,
            Token {
                kind: TokenKind::Operator(Operator::Arrow),
                span: p,
            },
            t,
        )?,
        rest: r3,
    })
}

/// The form `receive` of the unary expression.
#[inline(never)]
#[tactic(auto, unfolding(gs_grammar::specs::Steps::read_receive))]
fn build_receive<'a, M: Maker>(
    alloc: Global,
    make: &M,
    header: bool,
    first: bool,
    x: &'a Token,
    s: Rest<'a>,
) -> Result<Piece<'a, Expr>, Stop>
    requires faithful { M.is_faithful make.now }
    ensures { Builds result (steps.read_receive s.entry.tokens.now stands header first x.now) }
{
    let (p, r0) = first_mark_span(Operator::Arrow, x, s).ok_or(Stop::Absent)?;
    if first {
        return Err(Stop::Absent);
    }
    let Piece { tree: t, rest: r2 } = make.make_unary(header, false, r0)?;
    Ok(Piece {
        tree: prefixed(
            alloc,
            Token {
                kind: TokenKind::Operator(Operator::Arrow),
                span: p,
            },
            t,
        )?,
        rest: r2,
    })
}

/// The unary expression that begins with the token.
#[tactic(auto, unfolding(gs_grammar::specs::Steps::unary_step))]
pub fn unary_from<'a, M: Maker>(
    alloc: Global,
    make: &M,
    header: bool,
    first: bool,
    place: Rest<'a>,
    x: &'a Token,
    s: Rest<'a>,
) -> Result<Piece<'a, Expr>, Stop>
    requires faithful { M.is_faithful make.now }
    requires here { place.tokens.now ≡ x.now ∷ s.tokens.now }
    ensures { Builds result (steps.unary_step s.entry.tokens.now stands header first x.now) }
{
    let found = primary_by(header, head_by(header, type_here(place, x, s), x, s), x, s);
    if read_bare_primary(header, first, found, x, s).is_some() {
        return build_bare_primary(alloc, make, header, first, place, x, s);
    }
    if read_signed(header, first, x, s).is_some() {
        return build_signed(alloc, make, header, first, x, s);
    }
    if read_starred(header, first, x, s).is_some() {
        return build_starred(alloc, make, header, first, x, s);
    }
    if read_receiver(header, first, x, s).is_some() {
        return build_receiver(alloc, make, header, first, x, s);
    }
    if read_receive_first(header, first, x, s).is_some() {
        return build_receive_first(alloc, make, header, first, x, s);
    }
    build_receive(alloc, make, header, first, x, s)
}

/// The unary expression of the place.
#[tactic(auto, using(gs_places::proofs::Laws::at_unary, gs_places::proofs::Laws::end_unary))]
pub fn unary_tree<'a, M: Maker>(
    alloc: Global,
    make: &M,
    header: bool,
    first: bool,
    s: Rest<'a>,
) -> Result<Piece<'a, Expr>, Stop>
    requires faithful { M.is_faithful make.now }
    ensures { Builds result ((stands s.entry.tokens.now).unary header first) }
{
    let (x, rest) = s.next().ok_or(Stop::Absent)?;
    unary_from(alloc, make, header, first, s, x, rest)
}
