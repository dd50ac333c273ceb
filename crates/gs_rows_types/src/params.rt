//! Parameters, results and signatures: where each form ends, from the table of the places behind it.
ghost use Rattle.std.specs.Prelude.{true};
ghost use Rattle.gs_grammar.specs.Steps as steps;
ghost use Rattle.gs_places.specs.Places.{stands};
ghost use Rattle.gs_places.specs.Spots.{Spots};

use gs_places::at::{at_named_params, at_type, at_unnamed};
use gs_places::front::{first_mark, mark, trail};
use gs_places::rest::{Rest, Spot, deeper, deepest};
use gs_syntax::token::{Operator, Token};

/// The form `last_type` of the parameters without names.
#[inline(always)]
#[tactic(auto, unfolding(gs_grammar::specs::Steps::read_last_type))]
pub fn read_last_type<'a>(
    dots: bool,
    found_type: Option<Spot<'a>>,
    x: &Token,
    s: Rest<'a>,
) -> Option<Spot<'a>>
    requires found_type { Spots found_type (steps.type_step s.tokens.now stands x.now) }
    ensures { Spots result (steps.read_last_type s.entry.tokens.now stands dots x.now) }
{
    let f0 = found_type?;
    let r1 = trail(Operator::RightParen, f0.rest)?;
    Some(Spot {
        depth: f0.depth,
        rest: r1,
    })
}

/// The form `more_types` of the parameters without names.
#[inline(always)]
#[tactic(auto, unfolding(gs_grammar::specs::Steps::read_more_types))]
pub fn read_more_types<'a>(
    dots: bool,
    found_type: Option<Spot<'a>>,
    x: &Token,
    s: Rest<'a>,
) -> Option<Spot<'a>>
    requires found_type { Spots found_type (steps.type_step s.tokens.now stands x.now) }
    ensures { Spots result (steps.read_more_types s.entry.tokens.now stands dots x.now) }
{
    let f0 = found_type?;
    let r1 = mark(Operator::Comma, f0.rest)?;
    if mark(Operator::RightParen, r1).is_some() {
        return None;
    }
    let f3 = at_unnamed(dots, r1)?;
    Some(Spot {
        depth: deepest(f0.depth, f3.depth),
        rest: f3.rest,
    })
}

/// The form `last_dots` of the parameters without names.
#[inline(always)]
#[tactic(auto, unfolding(gs_grammar::specs::Steps::read_last_dots))]
pub fn read_last_dots<'a>(dots: bool, x: &Token, s: Rest<'a>) -> Option<Spot<'a>>
    ensures { Spots result (steps.read_last_dots s.entry.tokens.now stands dots x.now) }
{
    let r0 = first_mark(Operator::Ellipsis, x, s)?;
    if !dots {
        return None;
    }
    let f2 = at_type(r0)?;
    let r3 = trail(Operator::RightParen, f2.rest)?;
    Some(Spot {
        depth: f2.depth,
        rest: r3,
    })
}

/// The parameters without names that begin with the token.
#[inline(always)]
#[tactic(auto, unfolding(gs_grammar::specs::Steps::unnamed_step))]
pub fn unnamed_by<'a>(
    dots: bool,
    found_type: Option<Spot<'a>>,
    x: &Token,
    s: Rest<'a>,
) -> Option<Spot<'a>>
    requires found_type { Spots found_type (steps.type_step s.tokens.now stands x.now) }
    ensures { Spots result (steps.unnamed_step s.entry.tokens.now stands dots x.now) }
{
    let found = read_last_type(dots, found_type, x, s);
    if found.is_some() {
        return found;
    }
    let found = read_more_types(dots, found_type, x, s);
    if found.is_some() {
        return found;
    }
    read_last_dots(dots, x, s)
}

/// The form `last_named_dots` of the parameters with names.
#[inline(always)]
#[tactic(auto, using(crate::proofs::Singles::named_dots))]
pub fn read_last_named_dots<'a>(
    dots: bool,
    names: Option<Spot<'a>>,
    x: &Token,
    s: Rest<'a>,
) -> Option<Spot<'a>>
    requires { Spots names (steps.idents_step s.tokens.now stands x.now) }
    ensures { Spots result (steps.read_last_named_dots s.entry.tokens.now stands dots x.now) }
{
    let f0 = names?;
    let r1 = mark(Operator::Ellipsis, f0.rest)?;
    if mark(Operator::Comma, s).is_some() || !dots {
        return None;
    }
    let f4 = at_type(r1)?;
    let r5 = trail(Operator::RightParen, f4.rest)?;
    Some(Spot {
        depth: deepest(f0.depth, f4.depth),
        rest: r5,
    })
}

/// The form `last_named` of the parameters with names.
#[inline(always)]
#[tactic(auto, unfolding(gs_grammar::specs::Steps::read_last_named))]
pub fn read_last_named<'a>(
    dots: bool,
    names: Option<Spot<'a>>,
    x: &Token,
    s: Rest<'a>,
) -> Option<Spot<'a>>
    requires names { Spots names (steps.idents_step s.tokens.now stands x.now) }
    ensures { Spots result (steps.read_last_named s.entry.tokens.now stands dots x.now) }
{
    let f0 = names?;
    if mark(Operator::Ellipsis, f0.rest).is_some() {
        return None;
    }
    let f2 = at_type(f0.rest)?;
    let r3 = trail(Operator::RightParen, f2.rest)?;
    Some(Spot {
        depth: deepest(f0.depth, f2.depth),
        rest: r3,
    })
}

/// The form `more_named` of the parameters with names.
#[inline(always)]
#[tactic(auto, unfolding(gs_grammar::specs::Steps::read_more_named))]
pub fn read_more_named<'a>(
    dots: bool,
    names: Option<Spot<'a>>,
    x: &Token,
    s: Rest<'a>,
) -> Option<Spot<'a>>
    requires names { Spots names (steps.idents_step s.tokens.now stands x.now) }
    ensures { Spots result (steps.read_more_named s.entry.tokens.now stands dots x.now) }
{
    let f0 = names?;
    if mark(Operator::Ellipsis, f0.rest).is_some() {
        return None;
    }
    let f2 = at_type(f0.rest)?;
    let r3 = mark(Operator::Comma, f2.rest)?;
    if mark(Operator::RightParen, r3).is_some() {
        return None;
    }
    let f5 = at_named_params(dots, r3)?;
    Some(Spot {
        depth: deepest(f0.depth, deepest(f2.depth, f5.depth)),
        rest: f5.rest,
    })
}

/// The parameters with names that begin with the token.
#[inline(always)]
#[tactic(auto, unfolding(gs_grammar::specs::Steps::named_params_step))]
pub fn named_params_by<'a>(
    dots: bool,
    names: Option<Spot<'a>>,
    x: &Token,
    s: Rest<'a>,
) -> Option<Spot<'a>>
    requires names { Spots names (steps.idents_step s.tokens.now stands x.now) }
    ensures { Spots result (steps.named_params_step s.entry.tokens.now stands dots x.now) }
{
    let found = read_last_named_dots(dots, names, x, s);
    if found.is_some() {
        return found;
    }
    let found = read_last_named(dots, names, x, s);
    if found.is_some() {
        return found;
    }
    read_more_named(dots, names, x, s)
}

/// The form `no_params` of the parameters.
#[inline(always)]
#[tactic(auto, unfolding(gs_grammar::specs::Steps::read_no_params))]
pub fn read_no_params<'a>(dots: bool, x: &Token, s: Rest<'a>) -> Option<Spot<'a>>
    ensures { Spots result (steps.read_no_params s.entry.tokens.now stands dots x.now) }
{
    let r0 = first_mark(Operator::LeftParen, x, s)?;
    let r1 = mark(Operator::RightParen, r0)?;
    Some(Spot { depth: 1, rest: r1 })
}

/// The form `named_list` of the parameters.
#[inline(always)]
#[tactic(auto, unfolding(gs_grammar::specs::Steps::read_named_list))]
pub fn read_named_list<'a>(dots: bool, x: &Token, s: Rest<'a>) -> Option<Spot<'a>>
    ensures { Spots result (steps.read_named_list s.entry.tokens.now stands dots x.now) }
{
    let r0 = first_mark(Operator::LeftParen, x, s)?;
    if mark(Operator::RightParen, r0).is_some() {
        return None;
    }
    let f2 = at_named_params(dots, r0)?;
    let r3 = mark(Operator::RightParen, f2.rest)?;
    Some(Spot {
        depth: deeper(f2.depth),
        rest: r3,
    })
}

/// The form `unnamed_list` of the parameters.
#[inline(always)]
#[tactic(auto, unfolding(gs_grammar::specs::Steps::read_unnamed_list))]
pub fn read_unnamed_list<'a>(dots: bool, x: &Token, s: Rest<'a>) -> Option<Spot<'a>>
    ensures { Spots result (steps.read_unnamed_list s.entry.tokens.now stands dots x.now) }
{
    let r0 = first_mark(Operator::LeftParen, x, s)?;
    if mark(Operator::RightParen, r0).is_some() {
        return None;
    }
    if at_named_params(dots, r0).is_some() {
        return None;
    }
    let f3 = at_unnamed(dots, r0)?;
    let r4 = mark(Operator::RightParen, f3.rest)?;
    Some(Spot {
        depth: deeper(f3.depth),
        rest: r4,
    })
}

/// The parameters that begin with the token.
#[inline(always)]
#[tactic(auto, unfolding(gs_grammar::specs::Steps::params_step))]
pub fn params_by<'a>(dots: bool, x: &Token, s: Rest<'a>) -> Option<Spot<'a>>
    ensures { Spots result (steps.params_step s.entry.tokens.now stands dots x.now) }
{
    let found = read_no_params(dots, x, s);
    if found.is_some() {
        return found;
    }
    let found = read_named_list(dots, x, s);
    if found.is_some() {
        return found;
    }
    read_unnamed_list(dots, x, s)
}

/// The parameters of the place.
#[inline(always)]
#[tactic(auto, using(gs_places::proofs::Laws::at_params, gs_places::proofs::Laws::end_params))]
pub fn params<'a>(dots: bool, s: Rest<'a>) -> Option<Spot<'a>>
    ensures { Spots result ((stands s.entry.tokens.now).params dots) }
{
    let (x, rest) = s.next()?;
    params_by(dots, x, rest)
}

/// The form `results` of the signature.
#[inline(always)]
#[tactic(auto, unfolding(gs_grammar::specs::Steps::read_results))]
pub fn read_results<'a>(found: Option<Spot<'a>>, x: &Token, s: Rest<'a>) -> Option<Spot<'a>>
    requires found { Spots found (steps.params_step s.tokens.now stands true x.now) }
    ensures { Spots result (steps.read_results s.entry.tokens.now stands x.now) }
{
    let f0 = found?;
    mark(Operator::LeftParen, f0.rest)?;
    let f2 = params(false, f0.rest)?;
    Some(Spot {
        depth: deepest(f0.depth, f2.depth),
        rest: f2.rest,
    })
}

/// The form `result` of the signature.
#[inline(always)]
#[tactic(auto, unfolding(gs_grammar::specs::Steps::read_result))]
pub fn read_result<'a>(found: Option<Spot<'a>>, x: &Token, s: Rest<'a>) -> Option<Spot<'a>>
    requires found { Spots found (steps.params_step s.tokens.now stands true x.now) }
    ensures { Spots result (steps.read_result s.entry.tokens.now stands x.now) }
{
    let f0 = found?;
    if mark(Operator::LeftParen, f0.rest).is_some() {
        return None;
    }
    let f2 = at_type(f0.rest)?;
    Some(Spot {
        depth: deepest(f0.depth, f2.depth),
        rest: f2.rest,
    })
}

/// The form `plain` of the signature.
#[inline(always)]
#[tactic(auto, unfolding(gs_grammar::specs::Steps::read_plain))]
pub fn read_plain<'a>(found: Option<Spot<'a>>, x: &Token, s: Rest<'a>) -> Option<Spot<'a>>
    requires found { Spots found (steps.params_step s.tokens.now stands true x.now) }
    ensures { Spots result (steps.read_plain s.entry.tokens.now stands x.now) }
{
    let f0 = found?;
    if mark(Operator::LeftParen, f0.rest).is_some() {
        return None;
    }
    if at_type(f0.rest).is_some() {
        return None;
    }
    Some(Spot {
        depth: f0.depth,
        rest: f0.rest,
    })
}

/// The signature that begins with the token.
#[inline(always)]
#[tactic(auto, unfolding(gs_grammar::specs::Steps::signature_step))]
pub fn signature_by<'a>(found: Option<Spot<'a>>, x: &Token, s: Rest<'a>) -> Option<Spot<'a>>
    requires found { Spots found (steps.params_step s.tokens.now stands true x.now) }
    ensures { Spots result (steps.signature_step s.entry.tokens.now stands x.now) }
{
    let tried = read_results(found, x, s);
    if tried.is_some() {
        return tried;
    }
    let tried = read_result(found, x, s);
    if tried.is_some() {
        return tried;
    }
    read_plain(found, x, s)
}

/// The signature of the place.
#[inline(always)]
#[tactic(auto, using(gs_places::proofs::Laws::at_signature, gs_places::proofs::Laws::end_signature))]
pub fn signature<'a>(s: Rest<'a>) -> Option<Spot<'a>>
    ensures { Spots result ((stands s.entry.tokens.now).signature) }
{
    let (x, rest) = s.next()?;
    let found = params_by(true, x, rest);
    signature_by(found, x, rest)
}
