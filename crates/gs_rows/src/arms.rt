//! The arms of an if: where each form ends, from the table of the places behind it.
ghost use Rattle.std.specs.Prelude.{true, false};
ghost use Rattle.gs_grammar.specs.Steps as steps;
ghost use Rattle.gs_grammar.specs.Reference as reference;
ghost use Rattle.gs_places.specs.Places.{stands};
ghost use Rattle.gs_places.specs.Spots.{Spots};

use gs_places::at::{at_arms, at_expr};
use gs_places::classes::is_semi;
use gs_places::front::{mark, semi, word};
use gs_places::rest::{Rest, Spot, deepest};
use gs_rows_expr::operands::block;
use gs_syntax::token::{Keyword, Operator, Token};

/// The form `header_arm` of the arm of an if.
#[inline(always)]
#[tactic(auto, unfolding(gs_grammar::specs::Reference::read_header_arm))]
pub fn read_header_arm<'a>(found: Option<Spot<'a>>, x: &Token, s: Rest<'a>) -> Option<Spot<'a>>
    requires found { Spots found (reference.simple_step s.tokens.now stands true x.now) }
    ensures { Spots result (reference.read_header_arm s.entry.tokens.now stands x.now) }
{
    let f0 = found?;
    let r1 = semi(f0.rest)?;
    let f2 = at_expr(5, true, r1)?;
    let f3 = block(f2.rest)?;
    Some(Spot {
        depth: deepest(f0.depth, deepest(f2.depth, f3.depth)),
        rest: f3.rest,
    })
}

/// The form `bare_arm` of the arm of an if.
#[inline(always)]
#[tactic(auto, unfolding(gs_grammar::specs::Reference::read_bare_arm))]
pub fn read_bare_arm<'a>(found: Option<Spot<'a>>, x: &Token, s: Rest<'a>) -> Option<Spot<'a>>
    requires found { Spots found (steps.expr_step s.tokens.now stands 5 true false x.now) }
    ensures { Spots result (reference.read_bare_arm s.entry.tokens.now stands x.now) }
{
    let f0 = found?;
    mark(Operator::LeftBrace, f0.rest)?;
    let f2 = block(f0.rest)?;
    Some(Spot {
        depth: deepest(f0.depth, f2.depth),
        rest: f2.rest,
    })
}

/// The form `empty_arm` of the arm of an if.
#[inline(always)]
#[tactic(auto, unfolding(gs_grammar::specs::Reference::read_empty_arm, gs_grammar::specs::Front::front_at))]
pub fn read_empty_arm<'a>(x: &Token, s: Rest<'a>) -> Option<Spot<'a>>
    ensures { Spots result (reference.read_empty_arm s.entry.tokens.now stands x.now) }
{
    if !is_semi(&x.kind) {
        return None;
    }
    let f1 = at_expr(5, true, s)?;
    let f2 = block(f1.rest)?;
    Some(Spot {
        depth: deepest(f1.depth, f2.depth),
        rest: f2.rest,
    })
}

/// The arm of an if that begins with the token.
#[inline(always)]
#[tactic(auto, unfolding(gs_grammar::specs::Reference::arm_step))]
pub fn arm_by<'a>(
    simple: Option<Spot<'a>>,
    expr: Option<Spot<'a>>,
    x: &Token,
    s: Rest<'a>,
) -> Option<Spot<'a>>
    requires simple { Spots simple (reference.simple_step s.tokens.now stands true x.now) }
    requires expr { Spots expr (steps.expr_step s.tokens.now stands 5 true false x.now) }
    ensures { Spots result (reference.arm_step s.entry.tokens.now stands x.now) }
{
    let found = read_header_arm(simple, x, s);
    if found.is_some() {
        return found;
    }
    let found = read_bare_arm(expr, x, s);
    if found.is_some() {
        return found;
    }
    read_empty_arm(x, s)
}

/// The form `last_arm` of the arms of an if.
#[inline(always)]
#[tactic(auto, unfolding(gs_grammar::specs::Reference::read_last_arm))]
pub fn read_last_arm<'a>(found: Option<Spot<'a>>, x: &Token, s: Rest<'a>) -> Option<Spot<'a>>
    requires found { Spots found (reference.arm_step s.tokens.now stands x.now) }
    ensures { Spots result (reference.read_last_arm s.entry.tokens.now stands x.now) }
{
    let f0 = found?;
    if word(Keyword::Else, f0.rest).is_some() {
        return None;
    }
    Some(Spot {
        depth: f0.depth,
        rest: f0.rest,
    })
}

/// The form `more_arms` of the arms of an if.
#[inline(always)]
#[tactic(auto, unfolding(gs_grammar::specs::Reference::read_more_arms))]
pub fn read_more_arms<'a>(found: Option<Spot<'a>>, x: &Token, s: Rest<'a>) -> Option<Spot<'a>>
    requires found { Spots found (reference.arm_step s.tokens.now stands x.now) }
    ensures { Spots result (reference.read_more_arms s.entry.tokens.now stands x.now) }
{
    let f0 = found?;
    let r1 = word(Keyword::Else, f0.rest)?;
    let r2 = word(Keyword::If, r1)?;
    let f3 = at_arms(r2)?;
    Some(Spot {
        depth: deepest(f0.depth, f3.depth),
        rest: f3.rest,
    })
}

/// The form `last_block` of the arms of an if.
#[inline(always)]
#[tactic(auto, unfolding(gs_grammar::specs::Reference::read_last_block))]
pub fn read_last_block<'a>(found: Option<Spot<'a>>, x: &Token, s: Rest<'a>) -> Option<Spot<'a>>
    requires found { Spots found (reference.arm_step s.tokens.now stands x.now) }
    ensures { Spots result (reference.read_last_block s.entry.tokens.now stands x.now) }
{
    let f0 = found?;
    let r1 = word(Keyword::Else, f0.rest)?;
    if word(Keyword::If, r1).is_some() {
        return None;
    }
    let f3 = block(r1)?;
    Some(Spot {
        depth: deepest(f0.depth, f3.depth),
        rest: f3.rest,
    })
}

/// The arms of an if that begins with the token.
#[inline(always)]
#[tactic(auto, unfolding(gs_grammar::specs::Reference::arms_step))]
pub fn arms_by<'a>(found: Option<Spot<'a>>, x: &Token, s: Rest<'a>) -> Option<Spot<'a>>
    requires found { Spots found (reference.arm_step s.tokens.now stands x.now) }
    ensures { Spots result (reference.arms_step s.entry.tokens.now stands x.now) }
{
    let tried = read_last_arm(found, x, s);
    if tried.is_some() {
        return tried;
    }
    let tried = read_more_arms(found, x, s);
    if tried.is_some() {
        return tried;
    }
    read_last_block(found, x, s)
}
