//! What the table has at a place, given with its first token.
ghost use Rattle.std.specs.Prelude.{◌≡◌, ◌≤◌, ◌∷◌, true, false};
ghost use Rattle.gs_grammar.specs.Steps as steps;
ghost use Rattle.gs_places.specs.Places.{stands};
ghost use Rattle.gs_places.specs.Spots.{Spots};

use gs_places::at::{at_expr, at_exprs, at_idents, at_inner, at_type};
use gs_places::rest::{Rest, Spot};
use gs_syntax::token::Token;

/// The type that the token begins.
#[tactic(auto, using(gs_places::proofs::Laws::at_type))]
pub fn type_here<'a>(place: Rest<'a>, x: &Token, s: Rest<'a>) -> Option<Spot<'a>>
    requires here { place.tokens.now ≡ x.now ∷ s.tokens.now }
    ensures { Spots result (steps.type_step s.entry.tokens.now stands x.now) }
{
    at_type(place)
}

/// The names that the token begins.
#[tactic(auto, using(gs_places::proofs::Laws::at_idents))]
pub fn idents_here<'a>(place: Rest<'a>, x: &Token, s: Rest<'a>) -> Option<Spot<'a>>
    requires here { place.tokens.now ≡ x.now ∷ s.tokens.now }
    ensures { Spots result (steps.idents_step s.entry.tokens.now stands x.now) }
{
    at_idents(place)
}

/// The expression that the token begins.
#[tactic(auto, using(gs_places::proofs::Laws::at_expr))]
pub fn expr_here<'a>(
    level: u8,
    header: bool,
    place: Rest<'a>,
    x: &Token,
    s: Rest<'a>,
) -> Option<Spot<'a>>
    requires low { level ≤ 5 }
    requires here { place.tokens.now ≡ x.now ∷ s.tokens.now }
    ensures { Spots result (steps.expr_step s.entry.tokens.now stands level header false x.now) }
{
    at_expr(level, header, place)
}

/// The expression of an argument that the token begins.
#[tactic(auto, using(gs_places::proofs::Laws::at_expr))]
pub fn inner_here<'a>(place: Rest<'a>, x: &Token, s: Rest<'a>) -> Option<Spot<'a>>
    requires here { place.tokens.now ≡ x.now ∷ s.tokens.now }
    ensures { Spots result (steps.expr_step s.entry.tokens.now stands 5 false true x.now) }
{
    at_inner(place)
}

/// The expressions that the token begins.
#[tactic(auto, using(gs_places::proofs::Laws::at_exprs))]
pub fn exprs_here<'a>(header: bool, place: Rest<'a>, x: &Token, s: Rest<'a>) -> Option<Spot<'a>>
    requires here { place.tokens.now ≡ x.now ∷ s.tokens.now }
    ensures { Spots result (steps.exprs_step s.entry.tokens.now stands header x.now) }
{
    at_exprs(header, place)
}
