//! Trees of names and tags.
ghost use Rattle.std.specs.Prelude.{◌≡◌, ◌∷◌};
ghost use Rattle.gs_grammar.specs.Steps as steps;
ghost use Rattle.gs_places.specs.Places.{stands};
ghost use Rattle.gs_build_base.specs.Pieces.{Builds, Turns};

use crate::copies::copy;
use crate::front::{first_name_token, first_text_token, name_token};
use crate::pieces::{Piece, Stop, Turn};
use gs_grammar::trees::TypeExpr;
use gs_places::classes::is_field_end;
use gs_places::front::{mark, selector};
use gs_places::rest::Rest;
use gs_rows_types::members::read_a_tag;
use gs_rows_types::types::{read_bare, read_one_name};
use gs_syntax::token::{Operator, Token};
use sqlite_items::Items;
use std::alloc::Global;

/// The form `one_name` of the names.
#[tactic(auto, unfolding(gs_grammar::specs::Steps::read_one_name, crate::specs::Pieces::joined))]
fn turn_one_name<'a>(alloc: Global, x: &'a Token, s: Rest<'a>) -> Result<Turn<'a, Token>, Stop>
    ensures { Turns (λ r. (stands r).idents) result (steps.read_one_name s.entry.tokens.now stands x.now) }
{
    let (name, r0) = first_name_token(x, s).ok_or(Stop::Absent)?;
    if mark(Operator::Comma, r0).is_some() {
        return Err(Stop::Absent);
    }
    Ok(Turn::Last(copy(alloc, name)?, r0))
}

/// The form `more_names` of the names.
#[tactic(auto, unfolding(gs_grammar::specs::Steps::read_more_names, crate::specs::Pieces::joined))]
fn turn_more_names<'a>(alloc: Global, x: &'a Token, s: Rest<'a>) -> Result<Turn<'a, Token>, Stop>
    ensures { Turns (λ r. (stands r).idents) result (steps.read_more_names s.entry.tokens.now stands x.now) }
{
    let (name, r0) = first_name_token(x, s).ok_or(Stop::Absent)?;
    let r1 = mark(Operator::Comma, r0).ok_or(Stop::Absent)?;
    Ok(Turn::More(copy(alloc, name)?, r1))
}

/// What the names have at the place.
#[tactic(auto, using(gs_places::proofs::Laws::at_idents, gs_places::proofs::Laws::end_idents), unfolding(gs_grammar::specs::Steps::idents_step))]
fn idents_turn<'a>(alloc: Global, s: Rest<'a>) -> Result<Turn<'a, Token>, Stop>
    ensures { Turns (λ r. (stands r).idents) result ((stands s.entry.tokens.now).idents) }
{
    let (x, rest) = s.next().ok_or(Stop::Absent)?;
    if read_one_name(x, rest).is_some() {
        return turn_one_name(alloc, x, rest);
    }
    turn_more_names(alloc, x, rest)
}

/// The names of the place. There are at most as many as tokens.
#[tactic(auto, using(crate::proofs::Joins::joined_start, crate::proofs::Joins::joined_more, crate::proofs::Joins::joined_last, crate::proofs::Joins::joined_end, crate::proofs::Joins::joined_none))]
pub fn idents_tree<'a>(alloc: Global, s: Rest<'a>) -> Result<Piece<'a, Items<Token>>, Stop>
    ensures { Builds result ((stands s.entry.tokens.now).idents) }
{
    let mut found = Items::new(alloc);
    let mut rest = s;
    'turns: while found.len() <= s.tokens.len() {
        match idents_turn(alloc, rest) {
            Ok(Turn::More(item, more)) => {
                found.push(item)?;
                rest = more;
            }
            Ok(Turn::Last(item, more)) => {
                found.push(item)?;
                return Ok(Piece {
                    tree: found,
                    rest: more,
                });
            }
            Ok(Turn::End(more)) => return Ok(Piece {
                tree: found,
                rest: more,
            }),
            Err(stop) => return Err(stop),
        }
    }
    Err(Stop::Absent)
}

/// The names that begin with the token.
#[tactic(auto, using(gs_places::proofs::Laws::at_idents))]
pub fn idents_from<'a>(
    alloc: Global,
    place: Rest<'a>,
    x: &'a Token,
    s: Rest<'a>,
) -> Result<Piece<'a, Items<Token>>, Stop>
    requires here { place.tokens.now ≡ x.now ∷ s.tokens.now }
    ensures { Builds result (steps.idents_step s.entry.tokens.now stands x.now) }
{
    idents_tree(alloc, place)
}

/// The form `bare` of the type name.
#[tactic(auto, unfolding(gs_grammar::specs::Steps::read_bare))]
fn build_bare<'a>(alloc: Global, x: &'a Token, s: Rest<'a>) -> Result<Piece<'a, TypeExpr>, Stop>
    ensures { Builds result (steps.read_bare s.entry.tokens.now stands x.now) }
{
    let (name, r0) = first_name_token(x, s).ok_or(Stop::Absent)?;
    if selector(r0).is_some() {
        return Err(Stop::Absent);
    }
    Ok(Piece {
        tree: TypeExpr::Name(copy(alloc, name)?),
        rest: r0,
    })
}

/// The form `qualified` of the type name.
#[tactic(auto, unfolding(gs_grammar::specs::Steps::read_qualified))]
fn build_qualified<'a>(
    alloc: Global,
    x: &'a Token,
    s: Rest<'a>,
) -> Result<Piece<'a, TypeExpr>, Stop>
    ensures { Builds result (steps.read_qualified s.entry.tokens.now stands x.now) }
{
    let (name, r0) = first_name_token(x, s).ok_or(Stop::Absent)?;
    let r1 = mark(Operator::Dot, r0).ok_or(Stop::Absent)?;
    let (other, r2) = name_token(r1).ok_or(Stop::Absent)?;
    Ok(Piece {
        tree: TypeExpr::Qualified(copy(alloc, name)?, copy(alloc, other)?),
        rest: r2,
    })
}

/// The type name that begins with the token.
#[tactic(auto, unfolding(gs_grammar::specs::Steps::type_name_step))]
pub fn type_name_from<'a>(
    alloc: Global,
    x: &'a Token,
    s: Rest<'a>,
) -> Result<Piece<'a, TypeExpr>, Stop>
    ensures { Builds result (steps.type_name_step s.entry.tokens.now stands x.now) }
{
    if read_bare(x, s).is_some() {
        return build_bare(alloc, x, s);
    }
    build_qualified(alloc, x, s)
}

/// The type name of the place.
#[tactic(auto, using(gs_places::proofs::Laws::at_type_name, gs_places::proofs::Laws::end_type_name))]
pub fn type_name_tree<'a>(alloc: Global, s: Rest<'a>) -> Result<Piece<'a, TypeExpr>, Stop>
    ensures { Builds result ((stands s.entry.tokens.now).type_name) }
{
    let (x, rest) = s.next().ok_or(Stop::Absent)?;
    type_name_from(alloc, x, rest)
}

/// The form `a_tag` of the tag.
#[tactic(auto, unfolding(gs_grammar::specs::Steps::read_a_tag))]
fn build_a_tag<'a>(
    alloc: Global,
    x: &'a Token,
    s: Rest<'a>,
) -> Result<Piece<'a, Option<Token>>, Stop>
    ensures { Builds result (steps.read_a_tag s.entry.tokens.now stands x.now) }
{
    let (name, r0) = first_text_token(x, s).ok_or(Stop::Absent)?;
    Ok(Piece {
        tree: Some(copy(alloc, name)?),
        rest: r0,
    })
}

/// The tag of the place.
#[tactic(auto, using(gs_places::proofs::Laws::at_tag, gs_places::proofs::Laws::end_tag), unfolding(gs_grammar::specs::Steps::tag_step, gs_grammar::specs::Steps::read_no_tag, gs_grammar::specs::Front::front_at))]
pub fn tag_tree<'a>(alloc: Global, s: Rest<'a>) -> Result<Piece<'a, Option<Token>>, Stop>
    ensures { Builds result ((stands s.entry.tokens.now).tag) }
{
    let (x, rest) = s.next().ok_or(Stop::Absent)?;
    if read_a_tag(x, rest).is_some() {
        return build_a_tag(alloc, x, rest);
    }
    if is_field_end(&x.kind) {
        Ok(Piece {
            tree: None,
            rest: s,
        })
    } else {
        Err(Stop::Absent)
    }
}
