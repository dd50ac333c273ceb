//! Types: where each form ends, from the table of the places behind it.
ghost use Rattle.gs_grammar.specs.Steps as steps;
ghost use Rattle.gs_places.specs.Places.{stands};
ghost use Rattle.gs_places.specs.Spots.{Spots};

use crate::params::signature;
use gs_places::at::{at_expr, at_fields, at_idents, at_members, at_type};
use gs_places::front::{first_mark, first_name, first_word, mark, name, selector, word};
use gs_places::rest::{Rest, Spot, deeper, deepest};
use gs_syntax::token::{Keyword, Operator, Token};

/// The form `one_name` of the names.
#[inline(always)]
#[tactic(auto, unfolding(gs_grammar::specs::Steps::read_one_name))]
pub fn read_one_name<'a>(x: &Token, s: Rest<'a>) -> Option<Spot<'a>>
    ensures { Spots result (steps.read_one_name s.entry.tokens.now stands x.now) }
{
    let r0 = first_name(x, s)?;
    if mark(Operator::Comma, r0).is_some() {
        return None;
    }
    Some(Spot { depth: 0, rest: r0 })
}

/// The form `more_names` of the names.
#[inline(always)]
#[tactic(auto, unfolding(gs_grammar::specs::Steps::read_more_names))]
pub fn read_more_names<'a>(x: &Token, s: Rest<'a>) -> Option<Spot<'a>>
    ensures { Spots result (steps.read_more_names s.entry.tokens.now stands x.now) }
{
    let r0 = first_name(x, s)?;
    let r1 = mark(Operator::Comma, r0)?;
    at_idents(r1)
}

/// The names that begin with the token.
#[inline(always)]
#[tactic(auto, unfolding(gs_grammar::specs::Steps::idents_step))]
pub fn idents_by<'a>(x: &Token, s: Rest<'a>) -> Option<Spot<'a>>
    ensures { Spots result (steps.idents_step s.entry.tokens.now stands x.now) }
{
    let found = read_one_name(x, s);
    if found.is_some() {
        return found;
    }
    read_more_names(x, s)
}

/// The form `bare` of the type name.
#[inline(always)]
#[tactic(auto, unfolding(gs_grammar::specs::Steps::read_bare))]
pub fn read_bare<'a>(x: &Token, s: Rest<'a>) -> Option<Spot<'a>>
    ensures { Spots result (steps.read_bare s.entry.tokens.now stands x.now) }
{
    let r0 = first_name(x, s)?;
    if selector(r0).is_some() {
        return None;
    }
    Some(Spot { depth: 0, rest: r0 })
}

/// The form `qualified` of the type name.
#[inline(always)]
#[tactic(auto, unfolding(gs_grammar::specs::Steps::read_qualified))]
pub fn read_qualified<'a>(x: &Token, s: Rest<'a>) -> Option<Spot<'a>>
    ensures { Spots result (steps.read_qualified s.entry.tokens.now stands x.now) }
{
    let r0 = first_name(x, s)?;
    let r1 = mark(Operator::Dot, r0)?;
    let r2 = name(r1)?;
    Some(Spot { depth: 0, rest: r2 })
}

/// The type name that begins with the token.
#[inline(always)]
#[tactic(auto, unfolding(gs_grammar::specs::Steps::type_name_step))]
pub fn type_name_by<'a>(x: &Token, s: Rest<'a>) -> Option<Spot<'a>>
    ensures { Spots result (steps.type_name_step s.entry.tokens.now stands x.now) }
{
    let found = read_bare(x, s);
    if found.is_some() {
        return found;
    }
    read_qualified(x, s)
}

/// The type name of the place.
#[inline(always)]
#[tactic(auto, using(gs_places::proofs::Laws::at_type_name, gs_places::proofs::Laws::end_type_name))]
pub fn type_name<'a>(s: Rest<'a>) -> Option<Spot<'a>>
    ensures { Spots result ((stands s.entry.tokens.now).type_name) }
{
    let (x, rest) = s.next()?;
    type_name_by(x, rest)
}

/// The form `named` of the type.
#[inline(always)]
#[tactic(auto, unfolding(gs_grammar::specs::Steps::read_named))]
pub fn read_named<'a>(found: Option<Spot<'a>>, x: &Token, s: Rest<'a>) -> Option<Spot<'a>>
    requires found { Spots found (steps.type_name_step s.tokens.now stands x.now) }
    ensures { Spots result (steps.read_named s.entry.tokens.now stands x.now) }
{
    found
}

/// The form `paren_type` of the type.
#[inline(always)]
#[tactic(auto, unfolding(gs_grammar::specs::Steps::read_paren_type))]
pub fn read_paren_type<'a>(x: &Token, s: Rest<'a>) -> Option<Spot<'a>>
    ensures { Spots result (steps.read_paren_type s.entry.tokens.now stands x.now) }
{
    let r0 = first_mark(Operator::LeftParen, x, s)?;
    let f1 = at_type(r0)?;
    let r2 = mark(Operator::RightParen, f1.rest)?;
    Some(Spot {
        depth: deeper(f1.depth),
        rest: r2,
    })
}

/// The form `pointer` of the type.
#[inline(always)]
#[tactic(auto, unfolding(gs_grammar::specs::Steps::read_pointer))]
pub fn read_pointer<'a>(x: &Token, s: Rest<'a>) -> Option<Spot<'a>>
    ensures { Spots result (steps.read_pointer s.entry.tokens.now stands x.now) }
{
    let r0 = first_mark(Operator::Star, x, s)?;
    let f1 = at_type(r0)?;
    Some(Spot {
        depth: deeper(f1.depth),
        rest: f1.rest,
    })
}

/// The form `slice` of the type.
#[inline(always)]
#[tactic(auto, unfolding(gs_grammar::specs::Steps::read_slice))]
pub fn read_slice<'a>(x: &Token, s: Rest<'a>) -> Option<Spot<'a>>
    ensures { Spots result (steps.read_slice s.entry.tokens.now stands x.now) }
{
    let r0 = first_mark(Operator::LeftBracket, x, s)?;
    let r1 = mark(Operator::RightBracket, r0)?;
    let f2 = at_type(r1)?;
    Some(Spot {
        depth: deeper(f2.depth),
        rest: f2.rest,
    })
}

/// The form `array` of the type.
#[inline(always)]
#[tactic(auto, unfolding(gs_grammar::specs::Steps::read_array))]
pub fn read_array<'a>(x: &Token, s: Rest<'a>) -> Option<Spot<'a>>
    ensures { Spots result (steps.read_array s.entry.tokens.now stands x.now) }
{
    let r0 = first_mark(Operator::LeftBracket, x, s)?;
    if mark(Operator::RightBracket, r0).is_some() {
        return None;
    }
    if mark(Operator::Ellipsis, r0).is_some() {
        return None;
    }
    let f3 = at_expr(5, false, r0)?;
    let r4 = mark(Operator::RightBracket, f3.rest)?;
    let f5 = at_type(r4)?;
    Some(Spot {
        depth: deeper(deepest(f3.depth, f5.depth)),
        rest: f5.rest,
    })
}

/// The form `map_type` of the type.
#[inline(always)]
#[tactic(auto, unfolding(gs_grammar::specs::Steps::read_map_type))]
pub fn read_map_type<'a>(x: &Token, s: Rest<'a>) -> Option<Spot<'a>>
    ensures { Spots result (steps.read_map_type s.entry.tokens.now stands x.now) }
{
    let r0 = first_word(Keyword::Map, x, s)?;
    let r1 = mark(Operator::LeftBracket, r0)?;
    let f2 = at_type(r1)?;
    let r3 = mark(Operator::RightBracket, f2.rest)?;
    let f4 = at_type(r3)?;
    Some(Spot {
        depth: deeper(deepest(f2.depth, f4.depth)),
        rest: f4.rest,
    })
}

/// The form `channel` of the type.
#[inline(always)]
#[tactic(auto, unfolding(gs_grammar::specs::Steps::read_channel))]
pub fn read_channel<'a>(x: &Token, s: Rest<'a>) -> Option<Spot<'a>>
    ensures { Spots result (steps.read_channel s.entry.tokens.now stands x.now) }
{
    let r0 = first_word(Keyword::Chan, x, s)?;
    if mark(Operator::Arrow, r0).is_some() {
        return None;
    }
    let f2 = at_type(r0)?;
    Some(Spot {
        depth: deeper(f2.depth),
        rest: f2.rest,
    })
}

/// The form `send_channel` of the type.
#[inline(always)]
#[tactic(auto, unfolding(gs_grammar::specs::Steps::read_send_channel))]
pub fn read_send_channel<'a>(x: &Token, s: Rest<'a>) -> Option<Spot<'a>>
    ensures { Spots result (steps.read_send_channel s.entry.tokens.now stands x.now) }
{
    let r0 = first_word(Keyword::Chan, x, s)?;
    let r1 = mark(Operator::Arrow, r0)?;
    let f2 = at_type(r1)?;
    Some(Spot {
        depth: deeper(f2.depth),
        rest: f2.rest,
    })
}

/// The form `receive_channel` of the type.
#[inline(always)]
#[tactic(auto, unfolding(gs_grammar::specs::Steps::read_receive_channel))]
pub fn read_receive_channel<'a>(x: &Token, s: Rest<'a>) -> Option<Spot<'a>>
    ensures { Spots result (steps.read_receive_channel s.entry.tokens.now stands x.now) }
{
    let r0 = first_mark(Operator::Arrow, x, s)?;
    let r1 = word(Keyword::Chan, r0)?;
    let f2 = at_type(r1)?;
    Some(Spot {
        depth: deeper(f2.depth),
        rest: f2.rest,
    })
}

/// The form `function_type` of the type.
#[inline(always)]
#[tactic(auto, unfolding(gs_grammar::specs::Steps::read_function_type))]
pub fn read_function_type<'a>(x: &Token, s: Rest<'a>) -> Option<Spot<'a>>
    ensures { Spots result (steps.read_function_type s.entry.tokens.now stands x.now) }
{
    let r0 = first_word(Keyword::Func, x, s)?;
    let f1 = signature(r0)?;
    Some(Spot {
        depth: deeper(f1.depth),
        rest: f1.rest,
    })
}

/// The form `struct_type` of the type.
#[inline(always)]
#[tactic(auto, unfolding(gs_grammar::specs::Steps::read_struct_type))]
pub fn read_struct_type<'a>(x: &Token, s: Rest<'a>) -> Option<Spot<'a>>
    ensures { Spots result (steps.read_struct_type s.entry.tokens.now stands x.now) }
{
    let r0 = first_word(Keyword::Struct, x, s)?;
    let r1 = mark(Operator::LeftBrace, r0)?;
    let f2 = at_fields(r1)?;
    let r3 = mark(Operator::RightBrace, f2.rest)?;
    Some(Spot {
        depth: deeper(f2.depth),
        rest: r3,
    })
}

/// The form `interface_type` of the type.
#[inline(always)]
#[tactic(auto, unfolding(gs_grammar::specs::Steps::read_interface_type))]
pub fn read_interface_type<'a>(x: &Token, s: Rest<'a>) -> Option<Spot<'a>>
    ensures { Spots result (steps.read_interface_type s.entry.tokens.now stands x.now) }
{
    let r0 = first_word(Keyword::Interface, x, s)?;
    let r1 = mark(Operator::LeftBrace, r0)?;
    let f2 = at_members(r1)?;
    let r3 = mark(Operator::RightBrace, f2.rest)?;
    Some(Spot {
        depth: deeper(f2.depth),
        rest: r3,
    })
}

/// The type that begins with the token.
#[inline(always)]
#[tactic(auto, unfolding(gs_grammar::specs::Steps::type_step))]
pub fn type_by<'a>(found: Option<Spot<'a>>, x: &Token, s: Rest<'a>) -> Option<Spot<'a>>
    requires found { Spots found (steps.type_name_step s.tokens.now stands x.now) }
    ensures { Spots result (steps.type_step s.entry.tokens.now stands x.now) }
{
    let tried = read_named(found, x, s);
    if tried.is_some() {
        return tried;
    }
    let tried = read_paren_type(x, s);
    if tried.is_some() {
        return tried;
    }
    let tried = read_pointer(x, s);
    if tried.is_some() {
        return tried;
    }
    let tried = read_slice(x, s);
    if tried.is_some() {
        return tried;
    }
    let tried = read_array(x, s);
    if tried.is_some() {
        return tried;
    }
    let tried = read_map_type(x, s);
    if tried.is_some() {
        return tried;
    }
    let tried = read_channel(x, s);
    if tried.is_some() {
        return tried;
    }
    let tried = read_send_channel(x, s);
    if tried.is_some() {
        return tried;
    }
    let tried = read_receive_channel(x, s);
    if tried.is_some() {
        return tried;
    }
    let tried = read_function_type(x, s);
    if tried.is_some() {
        return tried;
    }
    let tried = read_struct_type(x, s);
    if tried.is_some() {
        return tried;
    }
    read_interface_type(x, s)
}
