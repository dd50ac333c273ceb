//! Trees of declarations.
ghost use Rattle.gs_grammar.specs.Reference as reference;
ghost use Rattle.gs_places.specs.Places.{stands};
ghost use Rattle.gs_build_base.specs.Pieces.{Builds, Turns};

use crate::groups::{
    const_spec_tree, const_specs_tree, type_spec_tree, type_specs_tree, var_spec_tree,
    var_specs_tree,
};
use gs_build_base::copies::copy;
use gs_build_base::front::{
    first_mark_span, first_name_token, first_text_token, first_word_span, text_token,
};
use gs_build_base::maker::Maker;
use gs_build_base::pieces::{Piece, Stop, Turn};
use gs_grammar::trees::{Decl, ImportSpec};
use gs_places::at::{at_type_specs, at_var_specs};
use gs_places::front::{is_mark, mark, semi};
use gs_places::rest::Rest;
use gs_rows_decls::decls::{
    import_spec_by, read_const_decl, read_const_group, read_dot_import, read_last_import,
    read_more_imports, read_plain_import, read_type_decl, read_type_group, read_var_decl,
};
use gs_rows_decls::groups::const_group;
use gs_syntax::token::{Keyword, Operator, Token};
use sqlite_items::Items;
use std::alloc::Global;

/// The form `const_decl` of the declaration.
#[inline(never)]
#[tactic(auto, unfolding(gs_grammar::specs::Reference::read_const_decl))]
fn build_const_decl<'a, M: Maker>(
    alloc: Global,
    make: &M,
    x: &'a Token,
    s: Rest<'a>,
) -> Result<Piece<'a, Decl>, Stop>
    requires faithful { M.is_faithful make.now }
    ensures { Builds result (reference.read_const_decl s.entry.tokens.now stands x.now) }
{
    let (p, r0) = first_word_span(Keyword::Const, x, s).ok_or(Stop::Absent)?;
    if mark(Operator::LeftParen, r0).is_some() {
        return Err(Stop::Absent);
    }
    let Piece { tree: c, rest: r2 } = const_spec_tree(alloc, make, true, r0)?;
    Ok(Piece {
        tree: Decl::Const(p, c),
        rest: r2,
    })
}

/// The form `const_group` of the declaration.
#[inline(never)]
#[tactic(auto, unfolding(gs_grammar::specs::Reference::read_const_group))]
fn build_const_group<'a, M: Maker>(
    alloc: Global,
    make: &M,
    x: &'a Token,
    s: Rest<'a>,
) -> Result<Piece<'a, Decl>, Stop>
    requires faithful { M.is_faithful make.now }
    ensures { Builds result (reference.read_const_group s.entry.tokens.now stands x.now) }
{
    let (p, r0) = first_word_span(Keyword::Const, x, s).ok_or(Stop::Absent)?;
    let r1 = mark(Operator::LeftParen, r0).ok_or(Stop::Absent)?;
    let f2 = const_group(r1).ok_or(Stop::Absent)?;
    let r3 = mark(Operator::RightParen, f2.rest).ok_or(Stop::Absent)?;
    let cs = const_specs_tree(alloc, make, true, r1)?.tree;
    Ok(Piece {
        tree: Decl::ConstGroup(p, cs),
        rest: r3,
    })
}

/// The form `type_decl` of the declaration.
#[inline(never)]
#[tactic(auto, unfolding(gs_grammar::specs::Reference::read_type_decl))]
fn build_type_decl<'a, M: Maker>(
    alloc: Global,
    make: &M,
    x: &'a Token,
    s: Rest<'a>,
) -> Result<Piece<'a, Decl>, Stop>
    requires faithful { M.is_faithful make.now }
    ensures { Builds result (reference.read_type_decl s.entry.tokens.now stands x.now) }
{
    let (p, r0) = first_word_span(Keyword::Type, x, s).ok_or(Stop::Absent)?;
    if mark(Operator::LeftParen, r0).is_some() {
        return Err(Stop::Absent);
    }
    let Piece { tree: c, rest: r2 } = type_spec_tree(alloc, make, r0)?;
    Ok(Piece {
        tree: Decl::Type(p, c),
        rest: r2,
    })
}

/// The form `type_group` of the declaration.
#[inline(never)]
#[tactic(auto, unfolding(gs_grammar::specs::Reference::read_type_group))]
fn build_type_group<'a, M: Maker>(
    alloc: Global,
    make: &M,
    x: &'a Token,
    s: Rest<'a>,
) -> Result<Piece<'a, Decl>, Stop>
    requires faithful { M.is_faithful make.now }
    ensures { Builds result (reference.read_type_group s.entry.tokens.now stands x.now) }
{
    let (p, r0) = first_word_span(Keyword::Type, x, s).ok_or(Stop::Absent)?;
    let r1 = mark(Operator::LeftParen, r0).ok_or(Stop::Absent)?;
    let f2 = at_type_specs(r1).ok_or(Stop::Absent)?;
    let r3 = mark(Operator::RightParen, f2.rest).ok_or(Stop::Absent)?;
    let cs = type_specs_tree(alloc, make, r1)?.tree;
    Ok(Piece {
        tree: Decl::TypeGroup(p, cs),
        rest: r3,
    })
}

/// The form `var_decl` of the declaration.
#[inline(never)]
#[tactic(auto, unfolding(gs_grammar::specs::Reference::read_var_decl))]
fn build_var_decl<'a, M: Maker>(
    alloc: Global,
    make: &M,
    x: &'a Token,
    s: Rest<'a>,
) -> Result<Piece<'a, Decl>, Stop>
    requires faithful { M.is_faithful make.now }
    ensures { Builds result (reference.read_var_decl s.entry.tokens.now stands x.now) }
{
    let (p, r0) = first_word_span(Keyword::Var, x, s).ok_or(Stop::Absent)?;
    if mark(Operator::LeftParen, r0).is_some() {
        return Err(Stop::Absent);
    }
    let Piece { tree: c, rest: r2 } = var_spec_tree(alloc, make, r0)?;
    Ok(Piece {
        tree: Decl::Var(p, c),
        rest: r2,
    })
}

/// The form `var_group` of the declaration.
#[inline(never)]
#[tactic(auto, unfolding(gs_grammar::specs::Reference::read_var_group))]
fn build_var_group<'a, M: Maker>(
    alloc: Global,
    make: &M,
    x: &'a Token,
    s: Rest<'a>,
) -> Result<Piece<'a, Decl>, Stop>
    requires faithful { M.is_faithful make.now }
    ensures { Builds result (reference.read_var_group s.entry.tokens.now stands x.now) }
{
    let (p, r0) = first_word_span(Keyword::Var, x, s).ok_or(Stop::Absent)?;
    let r1 = mark(Operator::LeftParen, r0).ok_or(Stop::Absent)?;
    let f2 = at_var_specs(r1).ok_or(Stop::Absent)?;
    let r3 = mark(Operator::RightParen, f2.rest).ok_or(Stop::Absent)?;
    let cs = var_specs_tree(alloc, make, r1)?.tree;
    Ok(Piece {
        tree: Decl::VarGroup(p, cs),
        rest: r3,
    })
}

/// The declaration that begins with the token.
#[tactic(auto, unfolding(gs_grammar::specs::Reference::decl_step))]
pub fn decl_from<'a, M: Maker>(
    alloc: Global,
    make: &M,
    x: &'a Token,
    s: Rest<'a>,
) -> Result<Piece<'a, Decl>, Stop>
    requires faithful { M.is_faithful make.now }
    ensures { Builds result (reference.decl_step s.entry.tokens.now stands x.now) }
{
    if read_const_decl(x, s).is_some() {
        return build_const_decl(alloc, make, x, s);
    }
    if read_const_group(x, s).is_some() {
        return build_const_group(alloc, make, x, s);
    }
    if read_type_decl(x, s).is_some() {
        return build_type_decl(alloc, make, x, s);
    }
    if read_type_group(x, s).is_some() {
        return build_type_group(alloc, make, x, s);
    }
    if read_var_decl(x, s).is_some() {
        return build_var_decl(alloc, make, x, s);
    }
    build_var_group(alloc, make, x, s)
}

/// The declaration of the place.
#[tactic(auto, using(gs_places::proofs::Laws::at_decl, gs_places::proofs::Laws::end_decl))]
pub fn decl_tree<'a, M: Maker>(
    alloc: Global,
    make: &M,
    s: Rest<'a>,
) -> Result<Piece<'a, Decl>, Stop>
    requires faithful { M.is_faithful make.now }
    ensures { Builds result ((stands s.entry.tokens.now).decl) }
{
    let (x, rest) = s.next().ok_or(Stop::Absent)?;
    decl_from(alloc, make, x, rest)
}

/// The form `plain_import` of the import spec.
#[tactic(auto, unfolding(gs_grammar::specs::Reference::read_plain_import))]
fn build_plain_import<'a>(
    alloc: Global,
    x: &'a Token,
    s: Rest<'a>,
) -> Result<Piece<'a, ImportSpec>, Stop>
    ensures { Builds result (reference.read_plain_import s.entry.tokens.now stands x.now) }
{
    let (name, r0) = first_text_token(x, s).ok_or(Stop::Absent)?;
    Ok(Piece {
        tree: ImportSpec::Plain(copy(alloc, name)?),
        rest: r0,
    })
}

/// The form `dot_import` of the import spec.
#[tactic(auto, unfolding(gs_grammar::specs::Reference::read_dot_import))]
fn build_dot_import<'a>(
    alloc: Global,
    x: &'a Token,
    s: Rest<'a>,
) -> Result<Piece<'a, ImportSpec>, Stop>
    ensures { Builds result (reference.read_dot_import s.entry.tokens.now stands x.now) }
{
    let (p, r0) = first_mark_span(Operator::Dot, x, s).ok_or(Stop::Absent)?;
    let (name, r1) = text_token(r0).ok_or(Stop::Absent)?;
    Ok(Piece {
        tree: ImportSpec::Dot(p, copy(alloc, name)?),
        rest: r1,
    })
}

/// The form `named_import` of the import spec.
#[tactic(auto, unfolding(gs_grammar::specs::Reference::read_named_import))]
fn build_named_import<'a>(
    alloc: Global,
    x: &'a Token,
    s: Rest<'a>,
) -> Result<Piece<'a, ImportSpec>, Stop>
    ensures { Builds result (reference.read_named_import s.entry.tokens.now stands x.now) }
{
    let (name, r0) = first_name_token(x, s).ok_or(Stop::Absent)?;
    let (other, r1) = text_token(r0).ok_or(Stop::Absent)?;
    Ok(Piece {
        tree: ImportSpec::Named(copy(alloc, name)?, copy(alloc, other)?),
        rest: r1,
    })
}

/// The import spec that begins with the token.
#[tactic(auto, unfolding(gs_grammar::specs::Reference::import_spec_step))]
pub fn import_spec_from<'a>(
    alloc: Global,
    x: &'a Token,
    s: Rest<'a>,
) -> Result<Piece<'a, ImportSpec>, Stop>
    ensures { Builds result (reference.import_spec_step s.entry.tokens.now stands x.now) }
{
    if read_plain_import(x, s).is_some() {
        return build_plain_import(alloc, x, s);
    }
    if read_dot_import(x, s).is_some() {
        return build_dot_import(alloc, x, s);
    }
    build_named_import(alloc, x, s)
}

/// The import spec of the place.
#[tactic(auto, using(gs_places::proofs::Laws::at_import_spec, gs_places::proofs::Laws::end_import_spec))]
pub fn import_spec_tree<'a>(alloc: Global, s: Rest<'a>) -> Result<Piece<'a, ImportSpec>, Stop>
    ensures { Builds result ((stands s.entry.tokens.now).import_spec) }
{
    let (x, rest) = s.next().ok_or(Stop::Absent)?;
    import_spec_from(alloc, x, rest)
}

/// The form `last_import` of the import specs.
#[tactic(auto, unfolding(gs_grammar::specs::Reference::read_last_import, gs_build_base::specs::Pieces::joined))]
fn turn_last_import<'a>(
    alloc: Global,
    x: &'a Token,
    s: Rest<'a>,
) -> Result<Turn<'a, ImportSpec>, Stop>
    ensures { Turns (λ r. (stands r).import_specs) result (reference.read_last_import s.entry.tokens.now stands x.now) }
{
    let f0 = import_spec_by(x, s).ok_or(Stop::Absent)?;
    if mark(Operator::RightParen, f0.rest).is_none() {
        return Err(Stop::Absent);
    }
    let c = import_spec_from(alloc, x, s)?.tree;
    Ok(Turn::Last(c, f0.rest))
}

/// The form `more_imports` of the import specs.
#[tactic(auto, unfolding(gs_grammar::specs::Reference::read_more_imports, gs_build_base::specs::Pieces::joined))]
fn turn_more_imports<'a>(
    alloc: Global,
    x: &'a Token,
    s: Rest<'a>,
) -> Result<Turn<'a, ImportSpec>, Stop>
    ensures { Turns (λ r. (stands r).import_specs) result (reference.read_more_imports s.entry.tokens.now stands x.now) }
{
    let f0 = import_spec_by(x, s).ok_or(Stop::Absent)?;
    let r1 = semi(f0.rest).ok_or(Stop::Absent)?;
    let c = import_spec_from(alloc, x, s)?.tree;
    Ok(Turn::More(c, r1))
}

/// What the import specs have at the place.
#[tactic(auto, using(gs_places::proofs::Laws::at_import_specs, gs_places::proofs::Laws::end_import_specs), unfolding(gs_grammar::specs::Reference::import_specs_step, gs_grammar::specs::Reference::read_no_imports, gs_grammar::specs::Front::mark_at))]
fn import_specs_turn<'a>(alloc: Global, s: Rest<'a>) -> Result<Turn<'a, ImportSpec>, Stop>
    ensures { Turns (λ r. (stands r).import_specs) result ((stands s.entry.tokens.now).import_specs) }
{
    let (x, rest) = s.next().ok_or(Stop::Absent)?;
    let found = import_spec_by(x, rest);
    if read_last_import(found, x, rest).is_some() {
        return turn_last_import(alloc, x, rest);
    }
    if read_more_imports(found, x, rest).is_some() {
        return turn_more_imports(alloc, x, rest);
    }
    if is_mark(Operator::RightParen, &x.kind) {
        Ok(Turn::End(s))
    } else {
        Err(Stop::Absent)
    }
}

/// The import specs of the place. There are at most as many as tokens.
#[tactic(auto, using(gs_build_base::proofs::Joins::joined_start, gs_build_base::proofs::Joins::joined_more, gs_build_base::proofs::Joins::joined_last, gs_build_base::proofs::Joins::joined_end, gs_build_base::proofs::Joins::joined_none))]
pub fn import_specs_tree<'a>(
    alloc: Global,
    s: Rest<'a>,
) -> Result<Piece<'a, Items<ImportSpec>>, Stop>
    ensures { Builds result ((stands s.entry.tokens.now).import_specs) }
{
    let mut found = Items::new(alloc);
    let mut rest = s;
    'turns: while found.len() <= s.tokens.len() {
        match import_specs_turn(alloc, rest) {
            Ok(Turn::More(item, more)) => {
                found.push(item)?;
                rest = more;
            }
            Ok(Turn::Last(item, more)) => {
                found.push(item)?;
                return Ok(Piece {
                    tree: found,
                    rest: more,
                });
            }
            Ok(Turn::End(more)) => return Ok(Piece {
                tree: found,
                rest: more,
            }),
            Err(stop) => return Err(stop),
        }
    }
    Err(Stop::Absent)
}
