//! The specs of constants, types and variables: where each form ends, from the table of the places behind it.
ghost use Rattle.std.specs.Prelude.{◌≡◌, ◌<◌, ◌+◌, ◌^◌, length, true};
ghost use Rattle.gs_grammar.specs.Steps as steps;
ghost use Rattle.gs_grammar.specs.Reference as reference;
ghost use Rattle.gs_places.specs.Places.{cell, stands};
ghost use Rattle.gs_places.specs.Spots.{Spots};

use gs_places::at::{at_const_specs, at_exprs, at_idents, at_type, at_type_specs, at_var_specs};
use gs_places::front::{first_name, is_mark, mark, semi, spec_end};
use gs_places::place::Cell;
use gs_places::rest::{Rest, Spot, deepest, kept, stay};
use gs_syntax::token::{Operator, Token};

/// The form `implicit` of the const spec.
#[inline(always)]
#[tactic(auto, unfolding(gs_grammar::specs::Reference::read_implicit))]
pub fn read_implicit<'a>(
    initial: bool,
    names: Option<Spot<'a>>,
    x: &Token,
    s: Rest<'a>,
) -> Option<Spot<'a>>
    requires names { Spots names (steps.idents_step s.tokens.now stands x.now) }
    ensures { Spots result (reference.read_implicit s.entry.tokens.now stands initial x.now) }
{
    let f0 = names?;
    spec_end(f0.rest)?;
    if initial {
        return None;
    }
    Some(Spot {
        depth: f0.depth,
        rest: f0.rest,
    })
}

/// The form `untyped` of the const spec.
#[inline(always)]
#[tactic(auto, unfolding(gs_grammar::specs::Reference::read_untyped))]
pub fn read_untyped<'a>(
    initial: bool,
    names: Option<Spot<'a>>,
    x: &Token,
    s: Rest<'a>,
) -> Option<Spot<'a>>
    requires names { Spots names (steps.idents_step s.tokens.now stands x.now) }
    ensures { Spots result (reference.read_untyped s.entry.tokens.now stands initial x.now) }
{
    let f0 = names?;
    let r1 = mark(Operator::Assign, f0.rest)?;
    let f2 = at_exprs(false, r1)?;
    Some(Spot {
        depth: deepest(f0.depth, f2.depth),
        rest: f2.rest,
    })
}

/// The form `typed_const` of the const spec.
#[inline(always)]
#[tactic(auto, unfolding(gs_grammar::specs::Reference::read_typed_const))]
pub fn read_typed_const<'a>(
    initial: bool,
    names: Option<Spot<'a>>,
    x: &Token,
    s: Rest<'a>,
) -> Option<Spot<'a>>
    requires names { Spots names (steps.idents_step s.tokens.now stands x.now) }
    ensures { Spots result (reference.read_typed_const s.entry.tokens.now stands initial x.now) }
{
    let f0 = names?;
    if spec_end(f0.rest).is_some() {
        return None;
    }
    if mark(Operator::Assign, f0.rest).is_some() {
        return None;
    }
    let f3 = at_type(f0.rest)?;
    let r4 = mark(Operator::Assign, f3.rest)?;
    let f5 = at_exprs(false, r4)?;
    Some(Spot {
        depth: deepest(f0.depth, deepest(f3.depth, f5.depth)),
        rest: f5.rest,
    })
}

/// The const spec that begins with the token.
#[inline(always)]
#[tactic(auto, unfolding(gs_grammar::specs::Reference::const_spec_step))]
pub fn const_spec_by<'a>(
    initial: bool,
    names: Option<Spot<'a>>,
    x: &Token,
    s: Rest<'a>,
) -> Option<Spot<'a>>
    requires names { Spots names (steps.idents_step s.tokens.now stands x.now) }
    ensures { Spots result (reference.const_spec_step s.entry.tokens.now stands initial x.now) }
{
    let found = read_implicit(initial, names, x, s);
    if found.is_some() {
        return found;
    }
    let found = read_untyped(initial, names, x, s);
    if found.is_some() {
        return found;
    }
    read_typed_const(initial, names, x, s)
}

/// The const spec of the place.
#[inline(always)]
#[tactic(auto, using(gs_places::proofs::Laws::at_const_spec, gs_places::proofs::Laws::end_const_spec, gs_places::proofs::Laws::at_idents))]
pub fn const_spec<'a>(initial: bool, s: Rest<'a>) -> Option<Spot<'a>>
    ensures { Spots result ((stands s.entry.tokens.now).const_spec initial) }
{
    let (x, rest) = s.next()?;
    let names = at_idents(s);
    const_spec_by(initial, names, x, rest)
}

/// The form `last_const` of the const specs.
#[inline(always)]
#[tactic(auto, unfolding(gs_grammar::specs::Reference::read_last_const))]
pub fn read_last_const<'a>(
    initial: bool,
    found: Option<Spot<'a>>,
    x: &Token,
    s: Rest<'a>,
) -> Option<Spot<'a>>
    requires found { Spots found (reference.const_spec_step s.tokens.now stands initial x.now) }
    ensures { Spots result (reference.read_last_const s.entry.tokens.now stands initial x.now) }
{
    let f0 = found?;
    mark(Operator::RightParen, f0.rest)?;
    Some(Spot {
        depth: f0.depth,
        rest: f0.rest,
    })
}

/// The form `more_consts` of the const specs.
#[inline(always)]
#[tactic(auto, unfolding(gs_grammar::specs::Reference::read_more_consts))]
pub fn read_more_consts<'a>(
    initial: bool,
    found: Option<Spot<'a>>,
    x: &Token,
    s: Rest<'a>,
) -> Option<Spot<'a>>
    requires found { Spots found (reference.const_spec_step s.tokens.now stands initial x.now) }
    ensures { Spots result (reference.read_more_consts s.entry.tokens.now stands initial x.now) }
{
    let f0 = found?;
    let r1 = semi(f0.rest)?;
    let f2 = at_const_specs(r1)?;
    Some(Spot {
        depth: deepest(f0.depth, f2.depth),
        rest: f2.rest,
    })
}

/// The const specs that begin with the token.
#[inline(always)]
#[tactic(auto, unfolding(gs_grammar::specs::Reference::const_specs_step, gs_grammar::specs::Reference::read_no_consts, gs_grammar::specs::Front::mark_at))]
pub fn const_specs_by<'a>(
    initial: bool,
    found: Option<Spot<'a>>,
    x: &Token,
    s: Rest<'a>,
) -> Option<Cell>
    requires few { length s.tokens.now + 1 < 2 ^ 32 }
    requires found { Spots found (reference.const_spec_step s.tokens.now stands initial x.now) }
    ensures { result ≡ cell (reference.const_specs_step s.entry.tokens.now stands initial x.now) }
{
    let tried = read_last_const(initial, found, x, s);
    if tried.is_some() {
        return kept(tried);
    }
    let tried = read_more_consts(initial, found, x, s);
    if tried.is_some() {
        return kept(tried);
    }
    if is_mark(Operator::RightParen, &x.kind) {
        Some(stay(s))
    } else {
        None
    }
}

/// The const specs of the place.
#[inline(always)]
#[tactic(auto, using(gs_places::proofs::Laws::at_const_specs, gs_places::proofs::Laws::end_const_specs, gs_places::proofs::Laws::at_idents), unfolding(gs_grammar::specs::Reference::const_specs_step, gs_grammar::specs::Reference::read_no_consts, gs_grammar::specs::Front::mark_at))]
pub fn const_group<'a>(s: Rest<'a>) -> Option<Spot<'a>>
    ensures { Spots result ((stands s.entry.tokens.now).const_specs true) }
{
    let (x, rest) = s.next()?;
    let found = const_spec_by(true, at_idents(s), x, rest);
    let tried = read_last_const(true, found, x, rest);
    if tried.is_some() {
        return tried;
    }
    let tried = read_more_consts(true, found, x, rest);
    if tried.is_some() {
        return tried;
    }
    if is_mark(Operator::RightParen, &x.kind) {
        Some(Spot { depth: 0, rest: s })
    } else {
        None
    }
}

/// The form `definition` of the type spec.
#[inline(always)]
#[tactic(auto, unfolding(gs_grammar::specs::Reference::read_definition))]
pub fn read_definition<'a>(x: &Token, s: Rest<'a>) -> Option<Spot<'a>>
    ensures { Spots result (reference.read_definition s.entry.tokens.now stands x.now) }
{
    let r0 = first_name(x, s)?;
    if mark(Operator::Assign, r0).is_some() {
        return None;
    }
    at_type(r0)
}

/// The form `alias` of the type spec.
#[inline(always)]
#[tactic(auto, unfolding(gs_grammar::specs::Reference::read_alias))]
pub fn read_alias<'a>(x: &Token, s: Rest<'a>) -> Option<Spot<'a>>
    ensures { Spots result (reference.read_alias s.entry.tokens.now stands x.now) }
{
    let r0 = first_name(x, s)?;
    let r1 = mark(Operator::Assign, r0)?;
    at_type(r1)
}

/// The type spec that begins with the token.
#[inline(always)]
#[tactic(auto, unfolding(gs_grammar::specs::Reference::type_spec_step))]
pub fn type_spec_by<'a>(x: &Token, s: Rest<'a>) -> Option<Spot<'a>>
    ensures { Spots result (reference.type_spec_step s.entry.tokens.now stands x.now) }
{
    let found = read_definition(x, s);
    if found.is_some() {
        return found;
    }
    read_alias(x, s)
}

/// The type spec of the place.
#[inline(always)]
#[tactic(auto, using(gs_places::proofs::Laws::at_type_spec, gs_places::proofs::Laws::end_type_spec))]
pub fn type_spec<'a>(s: Rest<'a>) -> Option<Spot<'a>>
    ensures { Spots result ((stands s.entry.tokens.now).type_spec) }
{
    let (x, rest) = s.next()?;
    type_spec_by(x, rest)
}

/// The form `last_type_spec` of the type specs.
#[inline(always)]
#[tactic(auto, unfolding(gs_grammar::specs::Reference::read_last_type_spec))]
pub fn read_last_type_spec<'a>(found: Option<Spot<'a>>, x: &Token, s: Rest<'a>) -> Option<Spot<'a>>
    requires found { Spots found (reference.type_spec_step s.tokens.now stands x.now) }
    ensures { Spots result (reference.read_last_type_spec s.entry.tokens.now stands x.now) }
{
    let f0 = found?;
    mark(Operator::RightParen, f0.rest)?;
    Some(Spot {
        depth: f0.depth,
        rest: f0.rest,
    })
}

/// The form `more_type_specs` of the type specs.
#[inline(always)]
#[tactic(auto, unfolding(gs_grammar::specs::Reference::read_more_type_specs))]
pub fn read_more_type_specs<'a>(found: Option<Spot<'a>>, x: &Token, s: Rest<'a>) -> Option<Spot<'a>>
    requires found { Spots found (reference.type_spec_step s.tokens.now stands x.now) }
    ensures { Spots result (reference.read_more_type_specs s.entry.tokens.now stands x.now) }
{
    let f0 = found?;
    let r1 = semi(f0.rest)?;
    let f2 = at_type_specs(r1)?;
    Some(Spot {
        depth: deepest(f0.depth, f2.depth),
        rest: f2.rest,
    })
}

/// The type specs that begin with the token.
#[inline(always)]
#[tactic(auto, unfolding(gs_grammar::specs::Reference::type_specs_step, gs_grammar::specs::Reference::read_no_type_specs, gs_grammar::specs::Front::mark_at))]
pub fn type_specs_by<'a>(found: Option<Spot<'a>>, x: &Token, s: Rest<'a>) -> Option<Cell>
    requires few { length s.tokens.now + 1 < 2 ^ 32 }
    requires found { Spots found (reference.type_spec_step s.tokens.now stands x.now) }
    ensures { result ≡ cell (reference.type_specs_step s.entry.tokens.now stands x.now) }
{
    let tried = read_last_type_spec(found, x, s);
    if tried.is_some() {
        return kept(tried);
    }
    let tried = read_more_type_specs(found, x, s);
    if tried.is_some() {
        return kept(tried);
    }
    if is_mark(Operator::RightParen, &x.kind) {
        Some(stay(s))
    } else {
        None
    }
}

/// The form `var_values` of the var spec.
#[inline(always)]
#[tactic(auto, unfolding(gs_grammar::specs::Reference::read_var_values))]
pub fn read_var_values<'a>(names: Option<Spot<'a>>, x: &Token, s: Rest<'a>) -> Option<Spot<'a>>
    requires names { Spots names (steps.idents_step s.tokens.now stands x.now) }
    ensures { Spots result (reference.read_var_values s.entry.tokens.now stands x.now) }
{
    let f0 = names?;
    let r1 = mark(Operator::Assign, f0.rest)?;
    let f2 = at_exprs(false, r1)?;
    Some(Spot {
        depth: deepest(f0.depth, f2.depth),
        rest: f2.rest,
    })
}

/// The form `typed_var` of the var spec.
#[inline(always)]
#[tactic(auto, unfolding(gs_grammar::specs::Reference::read_typed_var))]
pub fn read_typed_var<'a>(names: Option<Spot<'a>>, x: &Token, s: Rest<'a>) -> Option<Spot<'a>>
    requires names { Spots names (steps.idents_step s.tokens.now stands x.now) }
    ensures { Spots result (reference.read_typed_var s.entry.tokens.now stands x.now) }
{
    let f0 = names?;
    if mark(Operator::Assign, f0.rest).is_some() {
        return None;
    }
    let f2 = at_type(f0.rest)?;
    if mark(Operator::Assign, f2.rest).is_some() {
        return None;
    }
    Some(Spot {
        depth: deepest(f0.depth, f2.depth),
        rest: f2.rest,
    })
}

/// The form `typed_values` of the var spec.
#[inline(always)]
#[tactic(auto, unfolding(gs_grammar::specs::Reference::read_typed_values))]
pub fn read_typed_values<'a>(names: Option<Spot<'a>>, x: &Token, s: Rest<'a>) -> Option<Spot<'a>>
    requires names { Spots names (steps.idents_step s.tokens.now stands x.now) }
    ensures { Spots result (reference.read_typed_values s.entry.tokens.now stands x.now) }
{
    let f0 = names?;
    if mark(Operator::Assign, f0.rest).is_some() {
        return None;
    }
    let f2 = at_type(f0.rest)?;
    let r3 = mark(Operator::Assign, f2.rest)?;
    let f4 = at_exprs(false, r3)?;
    Some(Spot {
        depth: deepest(f0.depth, deepest(f2.depth, f4.depth)),
        rest: f4.rest,
    })
}

/// The var spec that begins with the token.
#[inline(always)]
#[tactic(auto, unfolding(gs_grammar::specs::Reference::var_spec_step))]
pub fn var_spec_by<'a>(names: Option<Spot<'a>>, x: &Token, s: Rest<'a>) -> Option<Spot<'a>>
    requires names { Spots names (steps.idents_step s.tokens.now stands x.now) }
    ensures { Spots result (reference.var_spec_step s.entry.tokens.now stands x.now) }
{
    let found = read_var_values(names, x, s);
    if found.is_some() {
        return found;
    }
    let found = read_typed_var(names, x, s);
    if found.is_some() {
        return found;
    }
    read_typed_values(names, x, s)
}

/// The var spec of the place.
#[inline(always)]
#[tactic(auto, using(gs_places::proofs::Laws::at_var_spec, gs_places::proofs::Laws::end_var_spec, gs_places::proofs::Laws::at_idents))]
pub fn var_spec<'a>(s: Rest<'a>) -> Option<Spot<'a>>
    ensures { Spots result ((stands s.entry.tokens.now).var_spec) }
{
    let (x, rest) = s.next()?;
    let names = at_idents(s);
    var_spec_by(names, x, rest)
}

/// The form `last_var` of the var specs.
#[inline(always)]
#[tactic(auto, unfolding(gs_grammar::specs::Reference::read_last_var))]
pub fn read_last_var<'a>(found: Option<Spot<'a>>, x: &Token, s: Rest<'a>) -> Option<Spot<'a>>
    requires found { Spots found (reference.var_spec_step s.tokens.now stands x.now) }
    ensures { Spots result (reference.read_last_var s.entry.tokens.now stands x.now) }
{
    let f0 = found?;
    mark(Operator::RightParen, f0.rest)?;
    Some(Spot {
        depth: f0.depth,
        rest: f0.rest,
    })
}

/// The form `more_vars` of the var specs.
#[inline(always)]
#[tactic(auto, unfolding(gs_grammar::specs::Reference::read_more_vars))]
pub fn read_more_vars<'a>(found: Option<Spot<'a>>, x: &Token, s: Rest<'a>) -> Option<Spot<'a>>
    requires found { Spots found (reference.var_spec_step s.tokens.now stands x.now) }
    ensures { Spots result (reference.read_more_vars s.entry.tokens.now stands x.now) }
{
    let f0 = found?;
    let r1 = semi(f0.rest)?;
    let f2 = at_var_specs(r1)?;
    Some(Spot {
        depth: deepest(f0.depth, f2.depth),
        rest: f2.rest,
    })
}

/// The var specs that begin with the token.
#[inline(always)]
#[tactic(auto, unfolding(gs_grammar::specs::Reference::var_specs_step, gs_grammar::specs::Reference::read_no_vars, gs_grammar::specs::Front::mark_at))]
pub fn var_specs_by<'a>(found: Option<Spot<'a>>, x: &Token, s: Rest<'a>) -> Option<Cell>
    requires few { length s.tokens.now + 1 < 2 ^ 32 }
    requires found { Spots found (reference.var_spec_step s.tokens.now stands x.now) }
    ensures { result ≡ cell (reference.var_specs_step s.entry.tokens.now stands x.now) }
{
    let tried = read_last_var(found, x, s);
    if tried.is_some() {
        return kept(tried);
    }
    let tried = read_more_vars(found, x, s);
    if tried.is_some() {
        return kept(tried);
    }
    if is_mark(Operator::RightParen, &x.kind) {
        Some(stay(s))
    } else {
        None
    }
}
