//! Declarations and imports: where each form ends, from the table of the places behind it.
ghost use Rattle.std.specs.Prelude.{◌≡◌, ◌<◌, ◌+◌, ◌^◌, length};
ghost use Rattle.gs_grammar.specs.Reference as reference;
ghost use Rattle.gs_places.specs.Places.{cell, stands};
ghost use Rattle.gs_places.specs.Spots.{Spots};

use crate::groups::{const_group, const_spec, type_spec, var_spec};
use gs_places::at::{at_import_specs, at_type_specs, at_var_specs};
use gs_places::front::{first_mark, first_name, first_text, first_word, is_mark, mark, semi, text};
use gs_places::place::Cell;
use gs_places::rest::{Rest, Spot, deeper, deepest, kept, stay};
use gs_syntax::token::{Keyword, Operator, Token};

/// The form `const_decl` of the declaration.
#[inline(always)]
#[tactic(auto, unfolding(gs_grammar::specs::Reference::read_const_decl))]
pub fn read_const_decl<'a>(x: &Token, s: Rest<'a>) -> Option<Spot<'a>>
    ensures { Spots result (reference.read_const_decl s.entry.tokens.now stands x.now) }
{
    let r0 = first_word(Keyword::Const, x, s)?;
    if mark(Operator::LeftParen, r0).is_some() {
        return None;
    }
    const_spec(true, r0)
}

/// The form `const_group` of the declaration.
#[inline(always)]
#[tactic(auto, unfolding(gs_grammar::specs::Reference::read_const_group))]
pub fn read_const_group<'a>(x: &Token, s: Rest<'a>) -> Option<Spot<'a>>
    ensures { Spots result (reference.read_const_group s.entry.tokens.now stands x.now) }
{
    let r0 = first_word(Keyword::Const, x, s)?;
    let r1 = mark(Operator::LeftParen, r0)?;
    let f2 = const_group(r1)?;
    let r3 = mark(Operator::RightParen, f2.rest)?;
    Some(Spot {
        depth: deeper(f2.depth),
        rest: r3,
    })
}

/// The form `type_decl` of the declaration.
#[inline(always)]
#[tactic(auto, unfolding(gs_grammar::specs::Reference::read_type_decl))]
pub fn read_type_decl<'a>(x: &Token, s: Rest<'a>) -> Option<Spot<'a>>
    ensures { Spots result (reference.read_type_decl s.entry.tokens.now stands x.now) }
{
    let r0 = first_word(Keyword::Type, x, s)?;
    if mark(Operator::LeftParen, r0).is_some() {
        return None;
    }
    type_spec(r0)
}

/// The form `type_group` of the declaration.
#[inline(always)]
#[tactic(auto, unfolding(gs_grammar::specs::Reference::read_type_group))]
pub fn read_type_group<'a>(x: &Token, s: Rest<'a>) -> Option<Spot<'a>>
    ensures { Spots result (reference.read_type_group s.entry.tokens.now stands x.now) }
{
    let r0 = first_word(Keyword::Type, x, s)?;
    let r1 = mark(Operator::LeftParen, r0)?;
    let f2 = at_type_specs(r1)?;
    let r3 = mark(Operator::RightParen, f2.rest)?;
    Some(Spot {
        depth: deeper(f2.depth),
        rest: r3,
    })
}

/// The form `var_decl` of the declaration.
#[inline(always)]
#[tactic(auto, unfolding(gs_grammar::specs::Reference::read_var_decl))]
pub fn read_var_decl<'a>(x: &Token, s: Rest<'a>) -> Option<Spot<'a>>
    ensures { Spots result (reference.read_var_decl s.entry.tokens.now stands x.now) }
{
    let r0 = first_word(Keyword::Var, x, s)?;
    if mark(Operator::LeftParen, r0).is_some() {
        return None;
    }
    var_spec(r0)
}

/// The form `var_group` of the declaration.
#[inline(always)]
#[tactic(auto, unfolding(gs_grammar::specs::Reference::read_var_group))]
pub fn read_var_group<'a>(x: &Token, s: Rest<'a>) -> Option<Spot<'a>>
    ensures { Spots result (reference.read_var_group s.entry.tokens.now stands x.now) }
{
    let r0 = first_word(Keyword::Var, x, s)?;
    let r1 = mark(Operator::LeftParen, r0)?;
    let f2 = at_var_specs(r1)?;
    let r3 = mark(Operator::RightParen, f2.rest)?;
    Some(Spot {
        depth: deeper(f2.depth),
        rest: r3,
    })
}

/// The declaration that begins with the token.
#[inline(always)]
#[tactic(auto, unfolding(gs_grammar::specs::Reference::decl_step))]
pub fn decl_by<'a>(x: &Token, s: Rest<'a>) -> Option<Spot<'a>>
    ensures { Spots result (reference.decl_step s.entry.tokens.now stands x.now) }
{
    let found = read_const_decl(x, s);
    if found.is_some() {
        return found;
    }
    let found = read_const_group(x, s);
    if found.is_some() {
        return found;
    }
    let found = read_type_decl(x, s);
    if found.is_some() {
        return found;
    }
    let found = read_type_group(x, s);
    if found.is_some() {
        return found;
    }
    let found = read_var_decl(x, s);
    if found.is_some() {
        return found;
    }
    read_var_group(x, s)
}

/// The form `plain_import` of the import spec.
#[inline(always)]
#[tactic(auto, unfolding(gs_grammar::specs::Reference::read_plain_import))]
pub fn read_plain_import<'a>(x: &Token, s: Rest<'a>) -> Option<Spot<'a>>
    ensures { Spots result (reference.read_plain_import s.entry.tokens.now stands x.now) }
{
    let r0 = first_text(x, s)?;
    Some(Spot { depth: 0, rest: r0 })
}

/// The form `dot_import` of the import spec.
#[inline(always)]
#[tactic(auto, unfolding(gs_grammar::specs::Reference::read_dot_import))]
pub fn read_dot_import<'a>(x: &Token, s: Rest<'a>) -> Option<Spot<'a>>
    ensures { Spots result (reference.read_dot_import s.entry.tokens.now stands x.now) }
{
    let r0 = first_mark(Operator::Dot, x, s)?;
    let r1 = text(r0)?;
    Some(Spot { depth: 0, rest: r1 })
}

/// The form `named_import` of the import spec.
#[inline(always)]
#[tactic(auto, unfolding(gs_grammar::specs::Reference::read_named_import))]
pub fn read_named_import<'a>(x: &Token, s: Rest<'a>) -> Option<Spot<'a>>
    ensures { Spots result (reference.read_named_import s.entry.tokens.now stands x.now) }
{
    let r0 = first_name(x, s)?;
    let r1 = text(r0)?;
    Some(Spot { depth: 0, rest: r1 })
}

/// The import spec that begins with the token.
#[inline(always)]
#[tactic(auto, unfolding(gs_grammar::specs::Reference::import_spec_step))]
pub fn import_spec_by<'a>(x: &Token, s: Rest<'a>) -> Option<Spot<'a>>
    ensures { Spots result (reference.import_spec_step s.entry.tokens.now stands x.now) }
{
    let found = read_plain_import(x, s);
    if found.is_some() {
        return found;
    }
    let found = read_dot_import(x, s);
    if found.is_some() {
        return found;
    }
    read_named_import(x, s)
}

/// The import spec of the place.
#[inline(always)]
#[tactic(auto, using(gs_places::proofs::Laws::at_import_spec, gs_places::proofs::Laws::end_import_spec))]
pub fn import_spec<'a>(s: Rest<'a>) -> Option<Spot<'a>>
    ensures { Spots result ((stands s.entry.tokens.now).import_spec) }
{
    let (x, rest) = s.next()?;
    import_spec_by(x, rest)
}

/// The form `last_import` of the import specs.
#[inline(always)]
#[tactic(auto, unfolding(gs_grammar::specs::Reference::read_last_import))]
pub fn read_last_import<'a>(found: Option<Spot<'a>>, x: &Token, s: Rest<'a>) -> Option<Spot<'a>>
    requires found { Spots found (reference.import_spec_step s.tokens.now stands x.now) }
    ensures { Spots result (reference.read_last_import s.entry.tokens.now stands x.now) }
{
    let f0 = found?;
    mark(Operator::RightParen, f0.rest)?;
    Some(Spot {
        depth: f0.depth,
        rest: f0.rest,
    })
}

/// The form `more_imports` of the import specs.
#[inline(always)]
#[tactic(auto, unfolding(gs_grammar::specs::Reference::read_more_imports))]
pub fn read_more_imports<'a>(found: Option<Spot<'a>>, x: &Token, s: Rest<'a>) -> Option<Spot<'a>>
    requires found { Spots found (reference.import_spec_step s.tokens.now stands x.now) }
    ensures { Spots result (reference.read_more_imports s.entry.tokens.now stands x.now) }
{
    let f0 = found?;
    let r1 = semi(f0.rest)?;
    let f2 = at_import_specs(r1)?;
    Some(Spot {
        depth: deepest(f0.depth, f2.depth),
        rest: f2.rest,
    })
}

/// The import specs that begin with the token.
#[inline(always)]
#[tactic(auto, unfolding(gs_grammar::specs::Reference::import_specs_step, gs_grammar::specs::Reference::read_no_imports, gs_grammar::specs::Front::mark_at))]
pub fn import_specs_by<'a>(found: Option<Spot<'a>>, x: &Token, s: Rest<'a>) -> Option<Cell>
    requires few { length s.tokens.now + 1 < 2 ^ 32 }
    requires found { Spots found (reference.import_spec_step s.tokens.now stands x.now) }
    ensures { result ≡ cell (reference.import_specs_step s.entry.tokens.now stands x.now) }
{
    let tried = read_last_import(found, x, s);
    if tried.is_some() {
        return kept(tried);
    }
    let tried = read_more_imports(found, x, s);
    if tried.is_some() {
        return kept(tried);
    }
    if is_mark(Operator::RightParen, &x.kind) {
        Some(stay(s))
    } else {
        None
    }
}
