//! The fields of structs and the members of interfaces: where each form ends, from the table of the places behind it.
ghost use Rattle.std.specs.Prelude.{◌≡◌, ◌<◌, ◌+◌, ◌^◌, length};
ghost use Rattle.gs_grammar.specs.Steps as steps;
ghost use Rattle.gs_places.specs.Places.{cell, stands};
ghost use Rattle.gs_places.specs.Spots.{Spots};

use crate::params::signature;
use crate::types::type_name;
use gs_places::at::{at_fields, at_members, at_type};
use gs_places::classes::is_field_end;
use gs_places::front::{
    embed_end, first_mark, first_name, first_text, is_mark, mark, name, selector, semi,
};
use gs_places::place::Cell;
use gs_places::rest::{Rest, Spot, deeper, deepest, kept, stay};
use gs_syntax::token::{Operator, Token};

/// The form `a_tag` of the tag.
#[inline(always)]
#[tactic(auto, unfolding(gs_grammar::specs::Steps::read_a_tag))]
pub fn read_a_tag<'a>(x: &Token, s: Rest<'a>) -> Option<Spot<'a>>
    ensures { Spots result (steps.read_a_tag s.entry.tokens.now stands x.now) }
{
    let r0 = first_text(x, s)?;
    Some(Spot { depth: 0, rest: r0 })
}

/// The tag of the place.
#[inline(always)]
#[tactic(auto, using(gs_places::proofs::Laws::at_tag, gs_places::proofs::Laws::end_tag), unfolding(gs_grammar::specs::Steps::tag_step, gs_grammar::specs::Steps::read_no_tag, gs_grammar::specs::Front::front_at))]
pub fn tag<'a>(s: Rest<'a>) -> Option<Spot<'a>>
    ensures { Spots result ((stands s.entry.tokens.now).tag) }
{
    let (x, rest) = s.next()?;
    let found = read_a_tag(x, rest);
    if found.is_some() {
        return found;
    }
    if is_field_end(&x.kind) {
        Some(Spot { depth: 0, rest: s })
    } else {
        None
    }
}

/// The form `named_field` of the field.
#[inline(always)]
#[tactic(auto, unfolding(gs_grammar::specs::Steps::read_named_field))]
pub fn read_named_field<'a>(names: Option<Spot<'a>>, x: &Token, s: Rest<'a>) -> Option<Spot<'a>>
    requires names { Spots names (steps.idents_step s.tokens.now stands x.now) }
    ensures { Spots result (steps.read_named_field s.entry.tokens.now stands x.now) }
{
    let f0 = names?;
    if embed_end(f0.rest).is_some() {
        return None;
    }
    if mark(Operator::Dot, f0.rest).is_some() {
        return None;
    }
    let f3 = at_type(f0.rest)?;
    let f4 = tag(f3.rest)?;
    Some(Spot {
        depth: deepest(f0.depth, deepest(f3.depth, f4.depth)),
        rest: f4.rest,
    })
}

/// The form `embedded_field` of the field.
#[inline(always)]
#[tactic(auto, unfolding(gs_grammar::specs::Steps::read_embedded_field))]
pub fn read_embedded_field<'a>(x: &Token, s: Rest<'a>) -> Option<Spot<'a>>
    ensures { Spots result (steps.read_embedded_field s.entry.tokens.now stands x.now) }
{
    let r0 = first_name(x, s)?;
    embed_end(r0)?;
    tag(r0)
}

/// The form `qualified_field` of the field.
#[inline(always)]
#[tactic(auto, unfolding(gs_grammar::specs::Steps::read_qualified_field))]
pub fn read_qualified_field<'a>(x: &Token, s: Rest<'a>) -> Option<Spot<'a>>
    ensures { Spots result (steps.read_qualified_field s.entry.tokens.now stands x.now) }
{
    let r0 = first_name(x, s)?;
    let r1 = mark(Operator::Dot, r0)?;
    let r2 = name(r1)?;
    tag(r2)
}

/// The form `pointer_field` of the field.
#[inline(always)]
#[tactic(auto, unfolding(gs_grammar::specs::Steps::read_pointer_field))]
pub fn read_pointer_field<'a>(x: &Token, s: Rest<'a>) -> Option<Spot<'a>>
    ensures { Spots result (steps.read_pointer_field s.entry.tokens.now stands x.now) }
{
    let r0 = first_mark(Operator::Star, x, s)?;
    let f1 = type_name(r0)?;
    let f2 = tag(f1.rest)?;
    Some(Spot {
        depth: deeper(deepest(f1.depth, f2.depth)),
        rest: f2.rest,
    })
}

/// The field that begins with the token.
#[inline(always)]
#[tactic(auto, unfolding(gs_grammar::specs::Steps::field_step))]
pub fn field_by<'a>(names: Option<Spot<'a>>, x: &Token, s: Rest<'a>) -> Option<Spot<'a>>
    requires names { Spots names (steps.idents_step s.tokens.now stands x.now) }
    ensures { Spots result (steps.field_step s.entry.tokens.now stands x.now) }
{
    let found = read_named_field(names, x, s);
    if found.is_some() {
        return found;
    }
    let found = read_embedded_field(x, s);
    if found.is_some() {
        return found;
    }
    let found = read_qualified_field(x, s);
    if found.is_some() {
        return found;
    }
    read_pointer_field(x, s)
}

/// The form `last_field` of the fields.
#[inline(always)]
#[tactic(auto, unfolding(gs_grammar::specs::Steps::read_last_field))]
pub fn read_last_field<'a>(found: Option<Spot<'a>>, x: &Token, s: Rest<'a>) -> Option<Spot<'a>>
    requires found { Spots found (steps.field_step s.tokens.now stands x.now) }
    ensures { Spots result (steps.read_last_field s.entry.tokens.now stands x.now) }
{
    let f0 = found?;
    mark(Operator::RightBrace, f0.rest)?;
    Some(Spot {
        depth: f0.depth,
        rest: f0.rest,
    })
}

/// The form `more_fields` of the fields.
#[inline(always)]
#[tactic(auto, unfolding(gs_grammar::specs::Steps::read_more_fields))]
pub fn read_more_fields<'a>(found: Option<Spot<'a>>, x: &Token, s: Rest<'a>) -> Option<Spot<'a>>
    requires found { Spots found (steps.field_step s.tokens.now stands x.now) }
    ensures { Spots result (steps.read_more_fields s.entry.tokens.now stands x.now) }
{
    let f0 = found?;
    let r1 = semi(f0.rest)?;
    let f2 = at_fields(r1)?;
    Some(Spot {
        depth: deepest(f0.depth, f2.depth),
        rest: f2.rest,
    })
}

/// The fields that begin with the token.
#[inline(always)]
#[tactic(auto, unfolding(gs_grammar::specs::Steps::fields_step, gs_grammar::specs::Steps::read_no_fields, gs_grammar::specs::Front::mark_at))]
pub fn fields_by<'a>(found: Option<Spot<'a>>, x: &Token, s: Rest<'a>) -> Option<Cell>
    requires few { length s.tokens.now + 1 < 2 ^ 32 }
    requires found { Spots found (steps.field_step s.tokens.now stands x.now) }
    ensures { result ≡ cell (steps.fields_step s.entry.tokens.now stands x.now) }
{
    let tried = read_last_field(found, x, s);
    if tried.is_some() {
        return kept(tried);
    }
    let tried = read_more_fields(found, x, s);
    if tried.is_some() {
        return kept(tried);
    }
    if is_mark(Operator::RightBrace, &x.kind) {
        Some(stay(s))
    } else {
        None
    }
}

/// The form `method` of the element of an interface.
#[inline(always)]
#[tactic(auto, unfolding(gs_grammar::specs::Steps::read_method))]
pub fn read_method<'a>(x: &Token, s: Rest<'a>) -> Option<Spot<'a>>
    ensures { Spots result (steps.read_method s.entry.tokens.now stands x.now) }
{
    let r0 = first_name(x, s)?;
    mark(Operator::LeftParen, r0)?;
    signature(r0)
}

/// The form `embedded_interface` of the element of an interface.
#[inline(always)]
#[tactic(auto, unfolding(gs_grammar::specs::Steps::read_embedded_interface))]
pub fn read_embedded_interface<'a>(x: &Token, s: Rest<'a>) -> Option<Spot<'a>>
    ensures { Spots result (steps.read_embedded_interface s.entry.tokens.now stands x.now) }
{
    let r0 = first_name(x, s)?;
    if mark(Operator::LeftParen, r0).is_some() {
        return None;
    }
    if selector(r0).is_some() {
        return None;
    }
    Some(Spot { depth: 0, rest: r0 })
}

/// The form `qualified_interface` of the element of an interface.
#[inline(always)]
#[tactic(auto, unfolding(gs_grammar::specs::Steps::read_qualified_interface))]
pub fn read_qualified_interface<'a>(x: &Token, s: Rest<'a>) -> Option<Spot<'a>>
    ensures { Spots result (steps.read_qualified_interface s.entry.tokens.now stands x.now) }
{
    let r0 = first_name(x, s)?;
    let r1 = mark(Operator::Dot, r0)?;
    let r2 = name(r1)?;
    Some(Spot { depth: 0, rest: r2 })
}

/// The element of an interface that begins with the token.
#[inline(always)]
#[tactic(auto, unfolding(gs_grammar::specs::Steps::member_step))]
pub fn member_by<'a>(x: &Token, s: Rest<'a>) -> Option<Spot<'a>>
    ensures { Spots result (steps.member_step s.entry.tokens.now stands x.now) }
{
    let found = read_method(x, s);
    if found.is_some() {
        return found;
    }
    let found = read_embedded_interface(x, s);
    if found.is_some() {
        return found;
    }
    read_qualified_interface(x, s)
}

/// The form `last_member` of the elements of an interface.
#[inline(always)]
#[tactic(auto, unfolding(gs_grammar::specs::Steps::read_last_member))]
pub fn read_last_member<'a>(found: Option<Spot<'a>>, x: &Token, s: Rest<'a>) -> Option<Spot<'a>>
    requires found { Spots found (steps.member_step s.tokens.now stands x.now) }
    ensures { Spots result (steps.read_last_member s.entry.tokens.now stands x.now) }
{
    let f0 = found?;
    mark(Operator::RightBrace, f0.rest)?;
    Some(Spot {
        depth: f0.depth,
        rest: f0.rest,
    })
}

/// The form `more_members` of the elements of an interface.
#[inline(always)]
#[tactic(auto, unfolding(gs_grammar::specs::Steps::read_more_members))]
pub fn read_more_members<'a>(found: Option<Spot<'a>>, x: &Token, s: Rest<'a>) -> Option<Spot<'a>>
    requires found { Spots found (steps.member_step s.tokens.now stands x.now) }
    ensures { Spots result (steps.read_more_members s.entry.tokens.now stands x.now) }
{
    let f0 = found?;
    let r1 = semi(f0.rest)?;
    let f2 = at_members(r1)?;
    Some(Spot {
        depth: deepest(f0.depth, f2.depth),
        rest: f2.rest,
    })
}

/// The elements of an interface that begins with the token.
#[inline(always)]
#[tactic(auto, unfolding(gs_grammar::specs::Steps::members_step, gs_grammar::specs::Steps::read_no_members, gs_grammar::specs::Front::mark_at))]
pub fn members_by<'a>(found: Option<Spot<'a>>, x: &Token, s: Rest<'a>) -> Option<Cell>
    requires few { length s.tokens.now + 1 < 2 ^ 32 }
    requires found { Spots found (steps.member_step s.tokens.now stands x.now) }
    ensures { result ≡ cell (steps.members_step s.entry.tokens.now stands x.now) }
{
    let tried = read_last_member(found, x, s);
    if tried.is_some() {
        return kept(tried);
    }
    let tried = read_more_members(found, x, s);
    if tried.is_some() {
        return kept(tried);
    }
    if is_mark(Operator::RightBrace, &x.kind) {
        Some(stay(s))
    } else {
        None
    }
}
