//! Trees of simple statements.
ghost use Rattle.std.specs.Prelude.{◌≡◌, ◌∷◌};
ghost use Rattle.gs_grammar.specs.Reference as reference;
ghost use Rattle.gs_places.specs.Places.{stands};
ghost use Rattle.gs_build_base.specs.Pieces.{Builds};

use gs_build_base::copies::copy;
use gs_build_base::front::{mark_span, step_token, update_token};
use gs_build_base::here::{expr_here, exprs_here};
use gs_build_base::maker::{Maker, expr_made, exprs_made};
use gs_build_base::pieces::{Piece, Stop};
use gs_build_pairs::boxes::token;
use gs_build_pairs::pairs::{expr_and_token_expr, token_and_expr, two_exprs, two_lists};
use gs_grammar::trees::Simple;
use gs_places::front::goes_on;
use gs_places::rest::Rest;
use gs_rows::simples::{read_assign, read_define, read_expression, read_send, read_step};
use gs_syntax::token::{Operator, Token, TokenKind};
use std::alloc::Global;

/// The form `assign` of the simple statement.
#[inline(never)]
#[tactic(auto, unfolding(gs_grammar::specs::Reference::read_assign))]
fn build_assign<'a, M: Maker>(
    make: &M,
    header: bool,
    place: Rest<'a>,
    x: &'a Token,
    s: Rest<'a>,
) -> Result<Piece<'a, Simple>, Stop>
    requires faithful { M.is_faithful make.now }
    requires here { place.tokens.now ≡ x.now ∷ s.tokens.now }
    ensures { Builds result (reference.read_assign s.entry.tokens.now stands header x.now) }
{
    let f0 = exprs_here(header, place, x, s).ok_or(Stop::Absent)?;
    let (p, r1) = mark_span(Operator::Assign, f0.rest).ok_or(Stop::Absent)?;
    let left = exprs_made(make, header, place, x, s);
    let right = make.make_exprs(header, r1);
    let Piece {
        tree: (ts, us),
        rest: r2,
    } = two_lists(left, right)?;
    Ok(Piece {
        tree: Simple::Assign(ts, p, us),
        rest: r2,
    })
}

/// The form `define` of the simple statement.
#[inline(never)]
#[tactic(auto, unfolding(gs_grammar::specs::Reference::read_define))]
fn build_define<'a, M: Maker>(
    make: &M,
    header: bool,
    place: Rest<'a>,
    x: &'a Token,
    s: Rest<'a>,
) -> Result<Piece<'a, Simple>, Stop>
    requires faithful { M.is_faithful make.now }
    requires here { place.tokens.now ≡ x.now ∷ s.tokens.now }
    ensures { Builds result (reference.read_define s.entry.tokens.now stands header x.now) }
{
    let f0 = exprs_here(header, place, x, s).ok_or(Stop::Absent)?;
    let (p, r1) = mark_span(Operator::Define, f0.rest).ok_or(Stop::Absent)?;
    let left = exprs_made(make, header, place, x, s);
    let right = make.make_exprs(header, r1);
    let Piece {
        tree: (ts, us),
        rest: r2,
    } = two_lists(left, right)?;
    Ok(Piece {
        tree: Simple::Define(ts, p, us),
        rest: r2,
    })
}

/// The form `expression` of the simple statement.
#[inline(never)]
#[tactic(auto, unfolding(gs_grammar::specs::Reference::read_expression))]
fn build_expression<'a, M: Maker>(
    make: &M,
    header: bool,
    place: Rest<'a>,
    x: &'a Token,
    s: Rest<'a>,
) -> Result<Piece<'a, Simple>, Stop>
    requires faithful { M.is_faithful make.now }
    requires here { place.tokens.now ≡ x.now ∷ s.tokens.now }
    ensures { Builds result (reference.read_expression s.entry.tokens.now stands header x.now) }
{
    let f0 = expr_here(5, header, place, x, s).ok_or(Stop::Absent)?;
    if goes_on(f0.rest).is_some() {
        return Err(Stop::Absent);
    }
    let t = expr_made(make, 5, header, false, place, x, s)?.tree;
    Ok(Piece {
        tree: Simple::Expr(t),
        rest: f0.rest,
    })
}

/// The form `send` of the simple statement.
#[inline(never)]
#[tactic(auto, unfolding(gs_grammar::specs::Reference::read_send))]
fn build_send<'a, M: Maker>(
    make: &M,
    header: bool,
    place: Rest<'a>,
    x: &'a Token,
    s: Rest<'a>,
) -> Result<Piece<'a, Simple>, Stop>
    requires faithful { M.is_faithful make.now }
    requires here { place.tokens.now ≡ x.now ∷ s.tokens.now }
    ensures { Builds result (reference.read_send s.entry.tokens.now stands header x.now) }
{
    let f0 = expr_here(5, header, place, x, s).ok_or(Stop::Absent)?;
    let (p, r1) = mark_span(Operator::Arrow, f0.rest).ok_or(Stop::Absent)?;
    let left = expr_made(make, 5, header, false, place, x, s);
    let right = make.make_expr(5, header, false, r1);
    let Piece {
        tree: (t, u),
        rest: r2,
    } = two_exprs(left, right)?;
    Ok(Piece {
        tree: Simple::Send(
            t,
            Token {
                kind: TokenKind::Operator(Operator::Arrow),
                span: p,
            },
            u,
        ),
        rest: r2,
    })
}

/// The form `step` of the simple statement.
#[inline(never)]
#[tactic(auto, unfolding(gs_grammar::specs::Reference::read_step))]
fn build_step<'a, M: Maker>(
    alloc: Global,
    make: &M,
    header: bool,
    place: Rest<'a>,
    x: &'a Token,
    s: Rest<'a>,
) -> Result<Piece<'a, Simple>, Stop>
    requires faithful { M.is_faithful make.now }
    requires here { place.tokens.now ≡ x.now ∷ s.tokens.now }
    ensures { Builds result (reference.read_step s.entry.tokens.now stands header x.now) }
{
    let f0 = expr_here(5, header, place, x, s).ok_or(Stop::Absent)?;
    let (sign, r1) = step_token(f0.rest).ok_or(Stop::Absent)?;
    let sign = copy(alloc, sign)?;
    let t = expr_made(make, 5, header, false, place, x, s)?.tree;
    Ok(Piece {
        tree: Simple::Step(t, sign),
        rest: r1,
    })
}

/// The form `update` of the simple statement.
#[inline(never)]
#[tactic(auto, unfolding(gs_grammar::specs::Reference::read_update))]
fn build_update<'a, M: Maker>(
    alloc: Global,
    make: &M,
    header: bool,
    place: Rest<'a>,
    x: &'a Token,
    s: Rest<'a>,
) -> Result<Piece<'a, Simple>, Stop>
    requires faithful { M.is_faithful make.now }
    requires here { place.tokens.now ≡ x.now ∷ s.tokens.now }
    ensures { Builds result (reference.read_update s.entry.tokens.now stands header x.now) }
{
    let f0 = expr_here(5, header, place, x, s).ok_or(Stop::Absent)?;
    let (sign, r1) = update_token(f0.rest).ok_or(Stop::Absent)?;
    let left = expr_made(make, 5, header, false, place, x, s);
    let signed = token(alloc, sign, r1);
    let right = token_and_expr(signed, make.make_expr(5, header, false, r1));
    let Piece {
        tree: (t, (sign, u)),
        rest: r2,
    } = expr_and_token_expr(left, right)?;
    Ok(Piece {
        tree: Simple::Update(t, sign, u),
        rest: r2,
    })
}

/// The simple statement that begins with the token.
#[tactic(auto, unfolding(gs_grammar::specs::Reference::simple_step))]
pub fn simple_from<'a, M: Maker>(
    alloc: Global,
    make: &M,
    header: bool,
    place: Rest<'a>,
    x: &'a Token,
    s: Rest<'a>,
) -> Result<Piece<'a, Simple>, Stop>
    requires faithful { M.is_faithful make.now }
    requires here { place.tokens.now ≡ x.now ∷ s.tokens.now }
    ensures { Builds result (reference.simple_step s.entry.tokens.now stands header x.now) }
{
    let exprs = exprs_here(header, place, x, s);
    let expr = expr_here(5, header, place, x, s);
    if read_assign(header, exprs, x, s).is_some() {
        return build_assign(make, header, place, x, s);
    }
    if read_define(header, exprs, x, s).is_some() {
        return build_define(make, header, place, x, s);
    }
    if read_expression(header, expr, x, s).is_some() {
        return build_expression(make, header, place, x, s);
    }
    if read_send(header, expr, x, s).is_some() {
        return build_send(make, header, place, x, s);
    }
    if read_step(header, expr, x, s).is_some() {
        return build_step(alloc, make, header, place, x, s);
    }
    build_update(alloc, make, header, place, x, s)
}
