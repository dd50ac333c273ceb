//! What the table has of types at a token, from the rows behind it.
ghost use Rattle.std.specs.Prelude.{◌≡◌, ◌<◌, ◌+◌, ◌^◌, ◌∷◌, length};
ghost use Rattle.gs_grammar.specs.Steps as steps;
ghost use Rattle.gs_places.specs.Places.{stands, types_at};
ghost use Rattle.gs_places.specs.Spots.{Spots};

use crate::members::{field_by, fields_by, member_by, members_by};
use crate::params::{named_params_by, unnamed_by};
use gs_places::place::Types;
use gs_places::rest::{Rest, Spot, kept};
use gs_syntax::token::Token;

/// The types that begin with the token, and their parts.
#[inline(always)]
#[tactic(auto, using(gs_places::proofs::Laws::at_idents, gs_places::proofs::Laws::at_type, gs_places::proofs::Laws::at_unnamed, gs_places::proofs::Laws::at_named_params, gs_places::proofs::Laws::at_fields, gs_places::proofs::Laws::at_members))]
pub fn type_row<'a>(
    names: Option<Spot<'a>>,
    found: Option<Spot<'a>>,
    x: &Token,
    s: Rest<'a>,
) -> Types
    requires few { length s.tokens.now + 1 < 2 ^ 32 }
    requires names { Spots names (steps.idents_step s.tokens.now stands x.now) }
    requires found { Spots found (steps.type_step s.tokens.now stands x.now) }
    ensures { result ≡ types_at (x.now ∷ s.entry.tokens.now) }
{
    Types {
        idents: kept(names),
        type_expr: kept(found),
        unnamed_dots: kept(unnamed_by(true, found, x, s)),
        unnamed: kept(unnamed_by(false, found, x, s)),
        named_dots: kept(named_params_by(true, names, x, s)),
        named: kept(named_params_by(false, names, x, s)),
        fields: fields_by(field_by(names, x, s), x, s),
        members: members_by(member_by(x, s), x, s),
    }
}
