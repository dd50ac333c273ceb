//! Simple statements: where each form ends, from the table of the places behind it.
ghost use Rattle.std.specs.Prelude.{false};
ghost use Rattle.gs_grammar.specs.Steps as steps;
ghost use Rattle.gs_grammar.specs.Reference as reference;
ghost use Rattle.gs_places.specs.Places.{stands};
ghost use Rattle.gs_places.specs.Spots.{Spots};

use gs_places::at::{at_expr, at_exprs};
use gs_places::front::{goes_on, mark, step, update};
use gs_places::rest::{Rest, Spot, deepest};
use gs_syntax::token::{Operator, Token};

/// The form `assign` of the simple statement.
#[inline(always)]
#[tactic(auto, unfolding(gs_grammar::specs::Reference::read_assign))]
pub fn read_assign<'a>(
    header: bool,
    found: Option<Spot<'a>>,
    x: &Token,
    s: Rest<'a>,
) -> Option<Spot<'a>>
    requires found { Spots found (steps.exprs_step s.tokens.now stands header x.now) }
    ensures { Spots result (reference.read_assign s.entry.tokens.now stands header x.now) }
{
    let f0 = found?;
    let r1 = mark(Operator::Assign, f0.rest)?;
    let f2 = at_exprs(header, r1)?;
    Some(Spot {
        depth: deepest(f0.depth, f2.depth),
        rest: f2.rest,
    })
}

/// The form `define` of the simple statement.
#[inline(always)]
#[tactic(auto, unfolding(gs_grammar::specs::Reference::read_define))]
pub fn read_define<'a>(
    header: bool,
    found: Option<Spot<'a>>,
    x: &Token,
    s: Rest<'a>,
) -> Option<Spot<'a>>
    requires found { Spots found (steps.exprs_step s.tokens.now stands header x.now) }
    ensures { Spots result (reference.read_define s.entry.tokens.now stands header x.now) }
{
    let f0 = found?;
    let r1 = mark(Operator::Define, f0.rest)?;
    let f2 = at_exprs(header, r1)?;
    Some(Spot {
        depth: deepest(f0.depth, f2.depth),
        rest: f2.rest,
    })
}

/// The form `expression` of the simple statement.
#[inline(always)]
#[tactic(auto, unfolding(gs_grammar::specs::Reference::read_expression))]
pub fn read_expression<'a>(
    header: bool,
    found: Option<Spot<'a>>,
    x: &Token,
    s: Rest<'a>,
) -> Option<Spot<'a>>
    requires found { Spots found (steps.expr_step s.tokens.now stands 5 header false x.now) }
    ensures { Spots result (reference.read_expression s.entry.tokens.now stands header x.now) }
{
    let f0 = found?;
    if goes_on(f0.rest).is_some() {
        return None;
    }
    Some(Spot {
        depth: f0.depth,
        rest: f0.rest,
    })
}

/// The form `send` of the simple statement.
#[inline(always)]
#[tactic(auto, unfolding(gs_grammar::specs::Reference::read_send))]
pub fn read_send<'a>(
    header: bool,
    found: Option<Spot<'a>>,
    x: &Token,
    s: Rest<'a>,
) -> Option<Spot<'a>>
    requires found { Spots found (steps.expr_step s.tokens.now stands 5 header false x.now) }
    ensures { Spots result (reference.read_send s.entry.tokens.now stands header x.now) }
{
    let f0 = found?;
    let r1 = mark(Operator::Arrow, f0.rest)?;
    let f2 = at_expr(5, header, r1)?;
    Some(Spot {
        depth: deepest(f0.depth, f2.depth),
        rest: f2.rest,
    })
}

/// The form `step` of the simple statement.
#[inline(always)]
#[tactic(auto, unfolding(gs_grammar::specs::Reference::read_step))]
pub fn read_step<'a>(
    header: bool,
    found: Option<Spot<'a>>,
    x: &Token,
    s: Rest<'a>,
) -> Option<Spot<'a>>
    requires found { Spots found (steps.expr_step s.tokens.now stands 5 header false x.now) }
    ensures { Spots result (reference.read_step s.entry.tokens.now stands header x.now) }
{
    let f0 = found?;
    let r1 = step(f0.rest)?;
    Some(Spot {
        depth: f0.depth,
        rest: r1,
    })
}

/// The form `update` of the simple statement.
#[inline(always)]
#[tactic(auto, unfolding(gs_grammar::specs::Reference::read_update))]
pub fn read_update<'a>(
    header: bool,
    found: Option<Spot<'a>>,
    x: &Token,
    s: Rest<'a>,
) -> Option<Spot<'a>>
    requires found { Spots found (steps.expr_step s.tokens.now stands 5 header false x.now) }
    ensures { Spots result (reference.read_update s.entry.tokens.now stands header x.now) }
{
    let f0 = found?;
    let r1 = update(f0.rest)?;
    let f2 = at_expr(5, header, r1)?;
    Some(Spot {
        depth: deepest(f0.depth, f2.depth),
        rest: f2.rest,
    })
}

/// The simple statement that begins with the token.
#[inline(always)]
#[tactic(auto, unfolding(gs_grammar::specs::Reference::simple_step))]
pub fn simple_by<'a>(
    header: bool,
    exprs: Option<Spot<'a>>,
    expr: Option<Spot<'a>>,
    x: &Token,
    s: Rest<'a>,
) -> Option<Spot<'a>>
    requires exprs { Spots exprs (steps.exprs_step s.tokens.now stands header x.now) }
    requires expr { Spots expr (steps.expr_step s.tokens.now stands 5 header false x.now) }
    ensures { Spots result (reference.simple_step s.entry.tokens.now stands header x.now) }
{
    let found = read_assign(header, exprs, x, s);
    if found.is_some() {
        return found;
    }
    let found = read_define(header, exprs, x, s);
    if found.is_some() {
        return found;
    }
    let found = read_expression(header, expr, x, s);
    if found.is_some() {
        return found;
    }
    let found = read_send(header, expr, x, s);
    if found.is_some() {
        return found;
    }
    let found = read_step(header, expr, x, s);
    if found.is_some() {
        return found;
    }
    read_update(header, expr, x, s)
}
