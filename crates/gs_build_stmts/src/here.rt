//! What the table has at a place, given with its first token.
ghost use Rattle.std.specs.Prelude.{◌≡◌, ◌∷◌};
ghost use Rattle.gs_grammar.specs.Reference as reference;
ghost use Rattle.gs_places.specs.Places.{stands};
ghost use Rattle.gs_places.specs.Spots.{Spots};

use gs_places::at::at_stmt;
use gs_places::rest::{Rest, Spot};
use gs_syntax::token::Token;

/// The statement that the token begins.
#[tactic(auto, using(gs_places::proofs::Laws::at_stmt))]
pub fn stmt_here<'a>(place: Rest<'a>, x: &Token, s: Rest<'a>) -> Option<Spot<'a>>
    requires here { place.tokens.now ≡ x.now ∷ s.tokens.now }
    ensures { Spots result (reference.stmt_step s.entry.tokens.now stands x.now) }
{
    at_stmt(place)
}
