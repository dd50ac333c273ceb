//! Trees of fields, and of elements of interfaces.
ghost use Rattle.std.specs.Prelude.{◌≡◌, ◌∷◌};
ghost use Rattle.gs_grammar.specs.Steps as steps;
ghost use Rattle.gs_places.specs.Places.{stands};
ghost use Rattle.gs_build_base.specs.Pieces.{Builds, Turns};

use crate::params::signature_tree;
use gs_build_base::copies::copy;
use gs_build_base::front::{first_mark_span, first_name_token, name_token};
use gs_build_base::here::idents_here;
use gs_build_base::maker::Maker;
use gs_build_base::names::{idents_from, tag_tree, type_name_tree};
use gs_build_base::pieces::{Piece, Stop, Turn};
use gs_build_pairs::boxes::boxed_type;
use gs_build_pairs::lists::Listed;
use gs_grammar::trees::{Field, Member, TypeExpr};
use gs_places::at::at_type;
use gs_places::front::{embed_end, is_mark, mark, selector, semi};
use gs_places::rest::Rest;
use gs_rows_types::members::{
    field_by, member_by, read_embedded_field, read_embedded_interface, read_last_field,
    read_last_member, read_method, read_more_fields, read_more_members, read_named_field,
    read_qualified_field,
};
use gs_rows_types::types::type_name;
use gs_syntax::token::{Operator, Token};
use sqlite_items::Items;
use std::alloc::Global;

/// The form `named_field` of the field.
#[inline(never)]
#[tactic(auto, unfolding(gs_grammar::specs::Steps::read_named_field))]
fn build_named_field<'a, M: Maker>(
    alloc: Global,
    make: &M,
    place: Rest<'a>,
    x: &'a Token,
    s: Rest<'a>,
) -> Result<Piece<'a, Field>, Stop>
    requires faithful { M.is_faithful make.now }
    requires here { place.tokens.now ≡ x.now ∷ s.tokens.now }
    ensures { Builds result (steps.read_named_field s.entry.tokens.now stands x.now) }
{
    let f0 = idents_here(place, x, s).ok_or(Stop::Absent)?;
    if embed_end(f0.rest).is_some() {
        return Err(Stop::Absent);
    }
    if mark(Operator::Dot, f0.rest).is_some() {
        return Err(Stop::Absent);
    }
    let f3 = at_type(f0.rest).ok_or(Stop::Absent)?;
    let Piece { tree: z, rest: r4 } = tag_tree(alloc, f3.rest)?;
    let xs = idents_from(alloc, place, x, s)?.tree;
    let t = make.make_type(f0.rest)?.tree;
    Ok(Piece {
        tree: Field::Named(xs, t, z),
        rest: r4,
    })
}

/// The form `embedded_field` of the field.
#[tactic(auto, unfolding(gs_grammar::specs::Steps::read_embedded_field))]
fn build_embedded_field<'a>(
    alloc: Global,
    x: &'a Token,
    s: Rest<'a>,
) -> Result<Piece<'a, Field>, Stop>
    ensures { Builds result (steps.read_embedded_field s.entry.tokens.now stands x.now) }
{
    let (name, r0) = first_name_token(x, s).ok_or(Stop::Absent)?;
    if embed_end(r0).is_none() {
        return Err(Stop::Absent);
    }
    let Piece { tree: z, rest: r2 } = tag_tree(alloc, r0)?;
    Ok(Piece {
        tree: Field::Embedded(TypeExpr::Name(copy(alloc, name)?), z),
        rest: r2,
    })
}

/// The form `qualified_field` of the field.
#[tactic(auto, unfolding(gs_grammar::specs::Steps::read_qualified_field))]
fn build_qualified_field<'a>(
    alloc: Global,
    x: &'a Token,
    s: Rest<'a>,
) -> Result<Piece<'a, Field>, Stop>
    ensures { Builds result (steps.read_qualified_field s.entry.tokens.now stands x.now) }
{
    let (name, r0) = first_name_token(x, s).ok_or(Stop::Absent)?;
    let r1 = mark(Operator::Dot, r0).ok_or(Stop::Absent)?;
    let (other, r2) = name_token(r1).ok_or(Stop::Absent)?;
    let name = copy(alloc, name)?;
    let other = copy(alloc, other)?;
    let Piece { tree: z, rest: r3 } = tag_tree(alloc, r2)?;
    Ok(Piece {
        tree: Field::Embedded(TypeExpr::Qualified(name, other), z),
        rest: r3,
    })
}

/// The form `pointer_field` of the field.
#[tactic(auto, unfolding(gs_grammar::specs::Steps::read_pointer_field))]
fn build_pointer_field<'a>(
    alloc: Global,
    x: &'a Token,
    s: Rest<'a>,
) -> Result<Piece<'a, Field>, Stop>
    ensures { Builds result (steps.read_pointer_field s.entry.tokens.now stands x.now) }
{
    let (p, r0) = first_mark_span(Operator::Star, x, s).ok_or(Stop::Absent)?;
    let f1 = type_name(r0).ok_or(Stop::Absent)?;
    let Piece { tree: z, rest: r2 } = tag_tree(alloc, f1.rest)?;
    let t = boxed_type(alloc, type_name_tree(alloc, r0))?.tree;
    Ok(Piece {
        tree: Field::Embedded(TypeExpr::Pointer(p, t), z),
        rest: r2,
    })
}

/// The field that begins with the token.
#[tactic(auto, unfolding(gs_grammar::specs::Steps::field_step))]
pub fn field_from<'a, M: Maker>(
    alloc: Global,
    make: &M,
    place: Rest<'a>,
    x: &'a Token,
    s: Rest<'a>,
) -> Result<Piece<'a, Field>, Stop>
    requires faithful { M.is_faithful make.now }
    requires here { place.tokens.now ≡ x.now ∷ s.tokens.now }
    ensures { Builds result (steps.field_step s.entry.tokens.now stands x.now) }
{
    let names = idents_here(place, x, s);
    if read_named_field(names, x, s).is_some() {
        return build_named_field(alloc, make, place, x, s);
    }
    if read_embedded_field(x, s).is_some() {
        return build_embedded_field(alloc, x, s);
    }
    if read_qualified_field(x, s).is_some() {
        return build_qualified_field(alloc, x, s);
    }
    build_pointer_field(alloc, x, s)
}

/// The form `last_field` of the fields.
#[inline(never)]
#[tactic(auto, unfolding(gs_grammar::specs::Steps::read_last_field, gs_build_base::specs::Pieces::joined))]
fn turn_last_field<'a, M: Maker>(
    alloc: Global,
    make: &M,
    place: Rest<'a>,
    x: &'a Token,
    s: Rest<'a>,
) -> Result<Turn<'a, Field>, Stop>
    requires faithful { M.is_faithful make.now }
    requires here { place.tokens.now ≡ x.now ∷ s.tokens.now }
    ensures { Turns (λ r. (stands r).fields) result (steps.read_last_field s.entry.tokens.now stands x.now) }
{
    let f0 = field_by(idents_here(place, x, s), x, s).ok_or(Stop::Absent)?;
    if mark(Operator::RightBrace, f0.rest).is_none() {
        return Err(Stop::Absent);
    }
    let y = field_from(alloc, make, place, x, s)?.tree;
    Ok(Turn::Last(y, f0.rest))
}

/// The form `more_fields` of the fields.
#[inline(never)]
#[tactic(auto, unfolding(gs_grammar::specs::Steps::read_more_fields, gs_build_base::specs::Pieces::joined))]
fn turn_more_fields<'a, M: Maker>(
    alloc: Global,
    make: &M,
    place: Rest<'a>,
    x: &'a Token,
    s: Rest<'a>,
) -> Result<Turn<'a, Field>, Stop>
    requires faithful { M.is_faithful make.now }
    requires here { place.tokens.now ≡ x.now ∷ s.tokens.now }
    ensures { Turns (λ r. (stands r).fields) result (steps.read_more_fields s.entry.tokens.now stands x.now) }
{
    let f0 = field_by(idents_here(place, x, s), x, s).ok_or(Stop::Absent)?;
    let r1 = semi(f0.rest).ok_or(Stop::Absent)?;
    let y = field_from(alloc, make, place, x, s)?.tree;
    Ok(Turn::More(y, r1))
}

/// What the fields have at the place.
#[tactic(auto, using(gs_places::proofs::Laws::at_fields, gs_places::proofs::Laws::end_fields), unfolding(gs_grammar::specs::Steps::fields_step, gs_grammar::specs::Steps::read_no_fields, gs_grammar::specs::Front::mark_at))]
fn fields_turn<'a, M: Maker>(alloc: Global, make: &M, s: Rest<'a>) -> Result<Turn<'a, Field>, Stop>
    requires faithful { M.is_faithful make.now }
    ensures { Turns (λ r. (stands r).fields) result ((stands s.entry.tokens.now).fields) }
{
    let (x, rest) = s.next().ok_or(Stop::Absent)?;
    let found = field_by(idents_here(s, x, rest), x, rest);
    if read_last_field(found, x, rest).is_some() {
        return turn_last_field(alloc, make, s, x, rest);
    }
    if read_more_fields(found, x, rest).is_some() {
        return turn_more_fields(alloc, make, s, x, rest);
    }
    if is_mark(Operator::RightBrace, &x.kind) {
        Ok(Turn::End(s))
    } else {
        Err(Stop::Absent)
    }
}

/// The fields of the place. There are at most as many as tokens.
#[tactic(auto, using(gs_build_base::proofs::Joins::joined_start, gs_build_base::proofs::Joins::joined_more, gs_build_base::proofs::Joins::joined_last, gs_build_base::proofs::Joins::joined_end, gs_build_base::proofs::Joins::joined_none))]
pub fn fields_tree<'a, M: Maker>(
    alloc: Global,
    make: &M,
    s: Rest<'a>,
) -> Result<Piece<'a, Items<Field>>, Stop>
    requires faithful { M.is_faithful make.now }
    ensures { Builds result ((stands s.entry.tokens.now).fields) }
{
    let mut found = Items::new(alloc);
    let mut rest = s;
    'turns: while found.len() <= s.tokens.len() {
        match fields_turn(alloc, make, rest) {
            Ok(Turn::More(item, more)) => {
                found = Listed::grown(found, item)?;
                rest = more;
            }
            Ok(Turn::Last(item, more)) => {
                found = Listed::grown(found, item)?;
                return Ok(Piece {
                    tree: found,
                    rest: more,
                });
            }
            Ok(Turn::End(more)) => return Ok(Piece {
                tree: found,
                rest: more,
            }),
            Err(stop) => {
                Listed::let_go(found);
                return Err(stop);
            }
        }
    }
    Listed::let_go(found);
    Err(Stop::Absent)
}

/// The form `method` of the element of an interface.
#[inline(never)]
#[tactic(auto, unfolding(gs_grammar::specs::Steps::read_method))]
fn build_method<'a, M: Maker>(
    alloc: Global,
    make: &M,
    x: &'a Token,
    s: Rest<'a>,
) -> Result<Piece<'a, Member>, Stop>
    requires faithful { M.is_faithful make.now }
    ensures { Builds result (steps.read_method s.entry.tokens.now stands x.now) }
{
    let (name, r0) = first_name_token(x, s).ok_or(Stop::Absent)?;
    if mark(Operator::LeftParen, r0).is_none() {
        return Err(Stop::Absent);
    }
    let name = copy(alloc, name)?;
    let Piece { tree: z, rest: r2 } = signature_tree(alloc, make, r0)?;
    Ok(Piece {
        tree: Member::Method(name, z),
        rest: r2,
    })
}

/// The form `embedded_interface` of the element of an interface.
#[tactic(auto, unfolding(gs_grammar::specs::Steps::read_embedded_interface))]
fn build_embedded_interface<'a>(
    alloc: Global,
    x: &'a Token,
    s: Rest<'a>,
) -> Result<Piece<'a, Member>, Stop>
    ensures { Builds result (steps.read_embedded_interface s.entry.tokens.now stands x.now) }
{
    let (name, r0) = first_name_token(x, s).ok_or(Stop::Absent)?;
    if mark(Operator::LeftParen, r0).is_some() {
        return Err(Stop::Absent);
    }
    if selector(r0).is_some() {
        return Err(Stop::Absent);
    }
    Ok(Piece {
        tree: Member::Embedded(TypeExpr::Name(copy(alloc, name)?)),
        rest: r0,
    })
}

/// The form `qualified_interface` of the element of an interface.
#[tactic(auto, unfolding(gs_grammar::specs::Steps::read_qualified_interface))]
fn build_qualified_interface<'a>(
    alloc: Global,
    x: &'a Token,
    s: Rest<'a>,
) -> Result<Piece<'a, Member>, Stop>
    ensures { Builds result (steps.read_qualified_interface s.entry.tokens.now stands x.now) }
{
    let (name, r0) = first_name_token(x, s).ok_or(Stop::Absent)?;
    let r1 = mark(Operator::Dot, r0).ok_or(Stop::Absent)?;
    let (other, r2) = name_token(r1).ok_or(Stop::Absent)?;
    Ok(Piece {
        tree: Member::Embedded(TypeExpr::Qualified(copy(alloc, name)?, copy(alloc, other)?)),
        rest: r2,
    })
}

/// The element of an interface that begins with the token.
#[tactic(auto, unfolding(gs_grammar::specs::Steps::member_step))]
pub fn member_from<'a, M: Maker>(
    alloc: Global,
    make: &M,
    x: &'a Token,
    s: Rest<'a>,
) -> Result<Piece<'a, Member>, Stop>
    requires faithful { M.is_faithful make.now }
    ensures { Builds result (steps.member_step s.entry.tokens.now stands x.now) }
{
    if read_method(x, s).is_some() {
        return build_method(alloc, make, x, s);
    }
    if read_embedded_interface(x, s).is_some() {
        return build_embedded_interface(alloc, x, s);
    }
    build_qualified_interface(alloc, x, s)
}

/// The form `last_member` of the elements of an interface.
#[inline(never)]
#[tactic(auto, unfolding(gs_grammar::specs::Steps::read_last_member, gs_build_base::specs::Pieces::joined))]
fn turn_last_member<'a, M: Maker>(
    alloc: Global,
    make: &M,
    x: &'a Token,
    s: Rest<'a>,
) -> Result<Turn<'a, Member>, Stop>
    requires faithful { M.is_faithful make.now }
    ensures { Turns (λ r. (stands r).members) result (steps.read_last_member s.entry.tokens.now stands x.now) }
{
    let f0 = member_by(x, s).ok_or(Stop::Absent)?;
    if mark(Operator::RightBrace, f0.rest).is_none() {
        return Err(Stop::Absent);
    }
    let m = member_from(alloc, make, x, s)?.tree;
    Ok(Turn::Last(m, f0.rest))
}

/// The form `more_members` of the elements of an interface.
#[inline(never)]
#[tactic(auto, unfolding(gs_grammar::specs::Steps::read_more_members, gs_build_base::specs::Pieces::joined))]
fn turn_more_members<'a, M: Maker>(
    alloc: Global,
    make: &M,
    x: &'a Token,
    s: Rest<'a>,
) -> Result<Turn<'a, Member>, Stop>
    requires faithful { M.is_faithful make.now }
    ensures { Turns (λ r. (stands r).members) result (steps.read_more_members s.entry.tokens.now stands x.now) }
{
    let f0 = member_by(x, s).ok_or(Stop::Absent)?;
    let r1 = semi(f0.rest).ok_or(Stop::Absent)?;
    let m = member_from(alloc, make, x, s)?.tree;
    Ok(Turn::More(m, r1))
}

/// What the elements of an interface have at the place.
#[tactic(auto, using(gs_places::proofs::Laws::at_members, gs_places::proofs::Laws::end_members), unfolding(gs_grammar::specs::Steps::members_step, gs_grammar::specs::Steps::read_no_members, gs_grammar::specs::Front::mark_at))]
fn members_turn<'a, M: Maker>(
    alloc: Global,
    make: &M,
    s: Rest<'a>,
) -> Result<Turn<'a, Member>, Stop>
    requires faithful { M.is_faithful make.now }
    ensures { Turns (λ r. (stands r).members) result ((stands s.entry.tokens.now).members) }
{
    let (x, rest) = s.next().ok_or(Stop::Absent)?;
    let found = member_by(x, rest);
    if read_last_member(found, x, rest).is_some() {
        return turn_last_member(alloc, make, x, rest);
    }
    if read_more_members(found, x, rest).is_some() {
        return turn_more_members(alloc, make, x, rest);
    }
    if is_mark(Operator::RightBrace, &x.kind) {
        Ok(Turn::End(s))
    } else {
        Err(Stop::Absent)
    }
}

/// The elements of an interface of the place. There are at most as many as tokens.
#[tactic(auto, using(gs_build_base::proofs::Joins::joined_start, gs_build_base::proofs::Joins::joined_more, gs_build_base::proofs::Joins::joined_last, gs_build_base::proofs::Joins::joined_end, gs_build_base::proofs::Joins::joined_none))]
pub fn members_tree<'a, M: Maker>(
    alloc: Global,
    make: &M,
    s: Rest<'a>,
) -> Result<Piece<'a, Items<Member>>, Stop>
    requires faithful { M.is_faithful make.now }
    ensures { Builds result ((stands s.entry.tokens.now).members) }
{
    let mut found = Items::new(alloc);
    let mut rest = s;
    'turns: while found.len() <= s.tokens.len() {
        match members_turn(alloc, make, rest) {
            Ok(Turn::More(item, more)) => {
                found = Listed::grown(found, item)?;
                rest = more;
            }
            Ok(Turn::Last(item, more)) => {
                found = Listed::grown(found, item)?;
                return Ok(Piece {
                    tree: found,
                    rest: more,
                });
            }
            Ok(Turn::End(more)) => return Ok(Piece {
                tree: found,
                rest: more,
            }),
            Err(stop) => {
                Listed::let_go(found);
                return Err(stop);
            }
        }
    }
    Listed::let_go(found);
    Err(Stop::Absent)
}
