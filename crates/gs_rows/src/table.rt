//! The table of all places of a list of tokens.
ghost use Rattle.std.specs.Prelude.{[], ◌≡◌, ◌<◌, ◌^◌, length, IfOk};
ghost use Rattle.gs_places.specs.Places.{levels_at, place, places};
ghost use Rattle.gs_rows.specs.Turns.{Comes};

use crate::rows::place_by;
use gs_places::place::{Cell, Exprs, Levels, Lists, Place, Types};
use gs_places::rest::Rest;
use gs_syntax::token::Token;
use std::alloc::{AllocError, Global};

/// The token with so many left behind it, and those.
fn token_before(tokens: &[Token], left: usize) -> (&Token, &[Token])
    requires { left < length tokens.now }
    ensures { Comes left tokens.now result.0.now result.1.now }
{
    let (_, back) = tokens.split_at(tokens.len() - left - 1);
    back.split_first().unwrap()
}

/// No expressions: behind the last token.
fn end_levels(header: bool) -> Levels
    ensures { result ≡ levels_at header [] }
{
    let none = Some(Cell { left: 0, depth: 0 });
    Levels {
        unary: None,
        unary_first: None,
        product: None,
        sum: None,
        comparison: None,
        conjunction: None,
        disjunction: None,
        factors: none,
        terms: none,
        compared: none,
        conjoined: none,
        disjoined: none,
        exprs: None,
    }
}

/// What the table has behind the last token.
fn end_place() -> Place
    ensures { result ≡ place [] }
{
    Place {
        types: Types {
            idents: None,
            type_expr: None,
            unnamed_dots: None,
            unnamed: None,
            named_dots: None,
            named: None,
            fields: None,
            members: None,
        },
        exprs: Exprs {
            plain: end_levels(false),
            header: end_levels(true),
            inner: None,
            suffixes: Some(Cell { left: 0, depth: 0 }),
            args: None,
            elements: None,
        },
        lists: Lists {
            stmts: None,
            stmt: None,
            arms: None,
            clauses: None,
            type_clauses: None,
            comm_clauses: None,
            types: None,
            const_specs: None,
            type_specs: None,
            var_specs: None,
            import_specs: None,
        },
    }
}

/// What the table has of all places, that behind the last token first.
pub fn places_of(alloc: Global, tokens: &[Token]) -> Result<Vec<Place>, AllocError>
    requires { length tokens.now < 2 ^ 32 }
    ensures { IfOk result (λ v. v.items ≡ places tokens.now) }
{
    let mut found = Vec::with_capacity(alloc, tokens.len() + 1)?;
    found.push(end_place())?;
    for i in 0..tokens.len() {
        let (x, rest) = token_before(tokens, i);
        let table = found.as_slice();
        let next = place_by(
            x,
            Rest {
                tokens: rest,
                table,
            },
        );
        found.push(next)?;
    }
    Ok(found)
}

/// The first place of these tokens, with the table of all.
pub fn whole<'a>(tokens: &'a [Token], table: &'a [Place]) -> Rest<'a>
    requires few { length tokens.now < 2 ^ 32 }
    requires table { table.now ≡ places tokens.now }
    ensures { result.tokens.now ≡ tokens.now }
{
    Rest { tokens, table }
}
