//! Trees of types.
ghost use Rattle.gs_grammar.specs.Steps as steps;
ghost use Rattle.gs_places.specs.Places.{stands};
ghost use Rattle.gs_build_base.specs.Pieces.{Builds};

use crate::members::{fields_tree, members_tree};
use crate::params::signature_tree;
use gs_build_base::front::{first_mark_span, first_word_span, mark_span};
use gs_build_base::maker::Maker;
use gs_build_base::names::type_name_from;
use gs_build_base::pieces::{Piece, Stop};
use gs_build_pairs::boxes::{boxed_expr, boxed_signature, boxed_type};
use gs_build_pairs::pairs::{length_and_element, two_types};
use gs_grammar::trees::TypeExpr;
use gs_places::at::{at_expr, at_fields, at_members, at_type};
use gs_places::front::{mark, word};
use gs_places::rest::Rest;
use gs_rows_types::types::{
    read_array, read_channel, read_function_type, read_map_type, read_named, read_paren_type,
    read_pointer, read_receive_channel, read_send_channel, read_slice, read_struct_type,
    type_name_by,
};
use gs_syntax::token::{Keyword, Operator, Token};
use std::alloc::Global;

/// The form `named` of the type.
#[tactic(auto, unfolding(gs_grammar::specs::Steps::read_named))]
fn build_named<'a>(alloc: Global, x: &'a Token, s: Rest<'a>) -> Result<Piece<'a, TypeExpr>, Stop>
    ensures { Builds result (steps.read_named s.entry.tokens.now stands x.now) }
{
    type_name_from(alloc, x, s)
}

/// The form `paren_type` of the type.
#[inline(never)]
#[tactic(auto, unfolding(gs_grammar::specs::Steps::read_paren_type))]
fn build_paren_type<'a, M: Maker>(
    alloc: Global,
    make: &M,
    x: &'a Token,
    s: Rest<'a>,
) -> Result<Piece<'a, TypeExpr>, Stop>
    requires faithful { M.is_faithful make.now }
    ensures { Builds result (steps.read_paren_type s.entry.tokens.now stands x.now) }
{
    let (p, r0) = first_mark_span(Operator::LeftParen, x, s).ok_or(Stop::Absent)?;
    let f1 = at_type(r0).ok_or(Stop::Absent)?;
    let (q, r2) = mark_span(Operator::RightParen, f1.rest).ok_or(Stop::Absent)?;
    let t = boxed_type(alloc, make.make_type(r0))?.tree;
    Ok(Piece {
        tree: TypeExpr::Paren(p, t, q),
        rest: r2,
    })
}

/// The form `pointer` of the type.
#[inline(never)]
#[tactic(auto, unfolding(gs_grammar::specs::Steps::read_pointer))]
fn build_pointer<'a, M: Maker>(
    alloc: Global,
    make: &M,
    x: &'a Token,
    s: Rest<'a>,
) -> Result<Piece<'a, TypeExpr>, Stop>
    requires faithful { M.is_faithful make.now }
    ensures { Builds result (steps.read_pointer s.entry.tokens.now stands x.now) }
{
    let (p, r0) = first_mark_span(Operator::Star, x, s).ok_or(Stop::Absent)?;
    let Piece { tree: t, rest: r1 } = boxed_type(alloc, make.make_type(r0))?;
    Ok(Piece {
        tree: TypeExpr::Pointer(p, t),
        rest: r1,
    })
}

/// The form `slice` of the type.
#[inline(never)]
#[tactic(auto, unfolding(gs_grammar::specs::Steps::read_slice))]
fn build_slice<'a, M: Maker>(
    alloc: Global,
    make: &M,
    x: &'a Token,
    s: Rest<'a>,
) -> Result<Piece<'a, TypeExpr>, Stop>
    requires faithful { M.is_faithful make.now }
    ensures { Builds result (steps.read_slice s.entry.tokens.now stands x.now) }
{
    let (p, r0) = first_mark_span(Operator::LeftBracket, x, s).ok_or(Stop::Absent)?;
    let r1 = mark(Operator::RightBracket, r0).ok_or(Stop::Absent)?;
    let Piece { tree: t, rest: r2 } = boxed_type(alloc, make.make_type(r1))?;
    Ok(Piece {
        tree: TypeExpr::Slice(p, t),
        rest: r2,
    })
}

/// The form `array` of the type.
#[inline(never)]
#[tactic(auto, unfolding(gs_grammar::specs::Steps::read_array))]
fn build_array<'a, M: Maker>(
    alloc: Global,
    make: &M,
    x: &'a Token,
    s: Rest<'a>,
) -> Result<Piece<'a, TypeExpr>, Stop>
    requires faithful { M.is_faithful make.now }
    ensures { Builds result (steps.read_array s.entry.tokens.now stands x.now) }
{
    let (p, r0) = first_mark_span(Operator::LeftBracket, x, s).ok_or(Stop::Absent)?;
    if mark(Operator::RightBracket, r0).is_some() {
        return Err(Stop::Absent);
    }
    if mark(Operator::Ellipsis, r0).is_some() {
        return Err(Stop::Absent);
    }
    let f3 = at_expr(5, false, r0).ok_or(Stop::Absent)?;
    let r4 = mark(Operator::RightBracket, f3.rest).ok_or(Stop::Absent)?;
    let length = boxed_expr(alloc, make.make_expr(5, false, false, r0));
    let element = boxed_type(alloc, make.make_type(r4));
    let Piece {
        tree: (y, t),
        rest: r5,
    } = length_and_element(length, element)?;
    Ok(Piece {
        tree: TypeExpr::Array(p, y, t),
        rest: r5,
    })
}

/// The form `map_type` of the type.
#[inline(never)]
#[tactic(auto, unfolding(gs_grammar::specs::Steps::read_map_type))]
fn build_map_type<'a, M: Maker>(
    alloc: Global,
    make: &M,
    x: &'a Token,
    s: Rest<'a>,
) -> Result<Piece<'a, TypeExpr>, Stop>
    requires faithful { M.is_faithful make.now }
    ensures { Builds result (steps.read_map_type s.entry.tokens.now stands x.now) }
{
    let (p, r0) = first_word_span(Keyword::Map, x, s).ok_or(Stop::Absent)?;
    let r1 = mark(Operator::LeftBracket, r0).ok_or(Stop::Absent)?;
    let f2 = at_type(r1).ok_or(Stop::Absent)?;
    let r3 = mark(Operator::RightBracket, f2.rest).ok_or(Stop::Absent)?;
    let key = boxed_type(alloc, make.make_type(r1));
    let element = boxed_type(alloc, make.make_type(r3));
    let Piece {
        tree: (t, u),
        rest: r4,
    } = two_types(key, element)?;
    Ok(Piece {
        tree: TypeExpr::Map(p, t, u),
        rest: r4,
    })
}

/// The form `channel` of the type.
#[inline(never)]
#[tactic(auto, unfolding(gs_grammar::specs::Steps::read_channel))]
fn build_channel<'a, M: Maker>(
    alloc: Global,
    make: &M,
    x: &'a Token,
    s: Rest<'a>,
) -> Result<Piece<'a, TypeExpr>, Stop>
    requires faithful { M.is_faithful make.now }
    ensures { Builds result (steps.read_channel s.entry.tokens.now stands x.now) }
{
    let (p, r0) = first_word_span(Keyword::Chan, x, s).ok_or(Stop::Absent)?;
    if mark(Operator::Arrow, r0).is_some() {
        return Err(Stop::Absent);
    }
    let Piece { tree: t, rest: r2 } = boxed_type(alloc, make.make_type(r0))?;
    Ok(Piece {
        tree: TypeExpr::Channel(p, t),
        rest: r2,
    })
}

/// The form `send_channel` of the type.
#[inline(never)]
#[tactic(auto, unfolding(gs_grammar::specs::Steps::read_send_channel))]
fn build_send_channel<'a, M: Maker>(
    alloc: Global,
    make: &M,
    x: &'a Token,
    s: Rest<'a>,
) -> Result<Piece<'a, TypeExpr>, Stop>
    requires faithful { M.is_faithful make.now }
    ensures { Builds result (steps.read_send_channel s.entry.tokens.now stands x.now) }
{
    let (p, r0) = first_word_span(Keyword::Chan, x, s).ok_or(Stop::Absent)?;
    let r1 = mark(Operator::Arrow, r0).ok_or(Stop::Absent)?;
    let Piece { tree: t, rest: r2 } = boxed_type(alloc, make.make_type(r1))?;
    Ok(Piece {
        tree: TypeExpr::SendChannel(p, t),
        rest: r2,
    })
}

/// The form `receive_channel` of the type.
#[inline(never)]
#[tactic(auto, unfolding(gs_grammar::specs::Steps::read_receive_channel))]
fn build_receive_channel<'a, M: Maker>(
    alloc: Global,
    make: &M,
    x: &'a Token,
    s: Rest<'a>,
) -> Result<Piece<'a, TypeExpr>, Stop>
    requires faithful { M.is_faithful make.now }
    ensures { Builds result (steps.read_receive_channel s.entry.tokens.now stands x.now) }
{
    let (p, r0) = first_mark_span(Operator::Arrow, x, s).ok_or(Stop::Absent)?;
    let r1 = word(Keyword::Chan, r0).ok_or(Stop::Absent)?;
    let Piece { tree: t, rest: r2 } = boxed_type(alloc, make.make_type(r1))?;
    Ok(Piece {
        tree: TypeExpr::ReceiveChannel(p, t),
        rest: r2,
    })
}

/// The form `function_type` of the type.
#[inline(never)]
#[tactic(auto, unfolding(gs_grammar::specs::Steps::read_function_type))]
fn build_function_type<'a, M: Maker>(
    alloc: Global,
    make: &M,
    x: &'a Token,
    s: Rest<'a>,
) -> Result<Piece<'a, TypeExpr>, Stop>
    requires faithful { M.is_faithful make.now }
    ensures { Builds result (steps.read_function_type s.entry.tokens.now stands x.now) }
{
    let (p, r0) = first_word_span(Keyword::Func, x, s).ok_or(Stop::Absent)?;
    let Piece { tree: z, rest: r1 } = boxed_signature(alloc, signature_tree(alloc, make, r0))?;
    Ok(Piece {
        tree: TypeExpr::Function(p, z),
        rest: r1,
    })
}

/// The form `struct_type` of the type.
#[inline(never)]
#[tactic(auto, unfolding(gs_grammar::specs::Steps::read_struct_type))]
fn build_struct_type<'a, M: Maker>(
    alloc: Global,
    make: &M,
    x: &'a Token,
    s: Rest<'a>,
) -> Result<Piece<'a, TypeExpr>, Stop>
    requires faithful { M.is_faithful make.now }
    ensures { Builds result (steps.read_struct_type s.entry.tokens.now stands x.now) }
{
    let (p, r0) = first_word_span(Keyword::Struct, x, s).ok_or(Stop::Absent)?;
    let r1 = mark(Operator::LeftBrace, r0).ok_or(Stop::Absent)?;
    let f2 = at_fields(r1).ok_or(Stop::Absent)?;
    let (q, r3) = mark_span(Operator::RightBrace, f2.rest).ok_or(Stop::Absent)?;
    let fs = fields_tree(alloc, make, r1)?.tree;
    Ok(Piece {
        tree: TypeExpr::Struct(p, fs, q),
        rest: r3,
    })
}

/// The form `interface_type` of the type.
#[inline(never)]
#[tactic(auto, unfolding(gs_grammar::specs::Steps::read_interface_type))]
fn build_interface_type<'a, M: Maker>(
    alloc: Global,
    make: &M,
    x: &'a Token,
    s: Rest<'a>,
) -> Result<Piece<'a, TypeExpr>, Stop>
    requires faithful { M.is_faithful make.now }
    ensures { Builds result (steps.read_interface_type s.entry.tokens.now stands x.now) }
{
    let (p, r0) = first_word_span(Keyword::Interface, x, s).ok_or(Stop::Absent)?;
    let r1 = mark(Operator::LeftBrace, r0).ok_or(Stop::Absent)?;
    let f2 = at_members(r1).ok_or(Stop::Absent)?;
    let (q, r3) = mark_span(Operator::RightBrace, f2.rest).ok_or(Stop::Absent)?;
    let ms = members_tree(alloc, make, r1)?.tree;
    Ok(Piece {
        tree: TypeExpr::Interface(p, ms, q),
        rest: r3,
    })
}

/// The type that begins with the token.
#[tactic(auto, unfolding(gs_grammar::specs::Steps::type_step))]
pub fn type_from<'a, M: Maker>(
    alloc: Global,
    make: &M,
    x: &'a Token,
    s: Rest<'a>,
) -> Result<Piece<'a, TypeExpr>, Stop>
    requires faithful { M.is_faithful make.now }
    ensures { Builds result (steps.type_step s.entry.tokens.now stands x.now) }
{
    let found = type_name_by(x, s);
    if read_named(found, x, s).is_some() {
        return build_named(alloc, x, s);
    }
    if read_paren_type(x, s).is_some() {
        return build_paren_type(alloc, make, x, s);
    }
    if read_pointer(x, s).is_some() {
        return build_pointer(alloc, make, x, s);
    }
    if read_slice(x, s).is_some() {
        return build_slice(alloc, make, x, s);
    }
    if read_array(x, s).is_some() {
        return build_array(alloc, make, x, s);
    }
    if read_map_type(x, s).is_some() {
        return build_map_type(alloc, make, x, s);
    }
    if read_channel(x, s).is_some() {
        return build_channel(alloc, make, x, s);
    }
    if read_send_channel(x, s).is_some() {
        return build_send_channel(alloc, make, x, s);
    }
    if read_receive_channel(x, s).is_some() {
        return build_receive_channel(alloc, make, x, s);
    }
    if read_function_type(x, s).is_some() {
        return build_function_type(alloc, make, x, s);
    }
    if read_struct_type(x, s).is_some() {
        return build_struct_type(alloc, make, x, s);
    }
    build_interface_type(alloc, make, x, s)
}

/// The type of the place.
#[tactic(auto, using(gs_places::proofs::Laws::at_type, gs_places::proofs::Laws::end_type))]
pub fn type_tree<'a, M: Maker>(
    alloc: Global,
    make: &M,
    s: Rest<'a>,
) -> Result<Piece<'a, TypeExpr>, Stop>
    requires faithful { M.is_faithful make.now }
    ensures { Builds result ((stands s.entry.tokens.now).type) }
{
    let (x, rest) = s.next().ok_or(Stop::Absent)?;
    type_from(alloc, make, x, rest)
}
