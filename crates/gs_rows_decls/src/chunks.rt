//! Chunks, and the functions and methods among them: where each form ends, from the table of the places behind it.
ghost use Rattle.std.specs.Prelude.{◌≡◌, ◌∷◌, false};
ghost use Rattle.gs_grammar.specs.Steps as steps;
ghost use Rattle.gs_grammar.specs.Reference as reference;
ghost use Rattle.gs_places.specs.Places.{stands};
ghost use Rattle.gs_places.specs.Spots.{Spots};
ghost use Rattle.gs_rows_decls.specs.Receivers.{is_only_at, only_by, receives};

use crate::decls::{decl_by, import_spec};
use gs_places::at::{at_idents, at_import_specs, at_named_params, at_type};
use gs_places::classes::{is_decl_start, is_semi};
use gs_places::front::{first_word, mark, name, semi};
use gs_places::rest::{Rest, Spot, deeper, deepest};
use gs_rows_expr::operands::block_by;
use gs_rows_types::params::{params, read_last_named, read_last_type, signature};
use gs_syntax::token::{Keyword, Operator, Token};

/// The form `a_body` of the body of a function.
#[inline(always)]
#[tactic(auto, unfolding(gs_grammar::specs::Reference::read_a_body))]
pub fn read_a_body<'a>(found: Option<Spot<'a>>, x: &Token, s: Rest<'a>) -> Option<Spot<'a>>
    requires found { Spots found (steps.block_step s.tokens.now stands x.now) }
    ensures { Spots result (reference.read_a_body s.entry.tokens.now stands x.now) }
{
    found
}

/// The body of a function of the place.
#[inline(always)]
#[tactic(auto, using(gs_places::proofs::Laws::at_body, gs_places::proofs::Laws::end_body), unfolding(gs_grammar::specs::Reference::body_step, gs_grammar::specs::Reference::read_no_body, gs_grammar::specs::Front::front_at))]
pub fn body<'a>(s: Rest<'a>) -> Option<Spot<'a>>
    ensures { Spots result ((stands s.entry.tokens.now).body) }
{
    let (x, rest) = s.next()?;
    let found = block_by(x, rest);
    let tried = read_a_body(found, x, rest);
    if tried.is_some() {
        return tried;
    }
    if is_semi(&x.kind) {
        Some(Spot { depth: 0, rest: s })
    } else {
        None
    }
}

/// The form `declaration` of the top-level declaration.
#[inline(always)]
#[tactic(auto, unfolding(gs_grammar::specs::Reference::read_declaration, gs_grammar::specs::Front::front_at))]
pub fn read_declaration<'a>(found: Option<Spot<'a>>, x: &Token, s: Rest<'a>) -> Option<Spot<'a>>
    requires found { Spots found (reference.decl_step s.tokens.now stands x.now) }
    ensures { Spots result (reference.read_declaration s.entry.tokens.now stands x.now) }
{
    if !is_decl_start(&x.kind) {
        return None;
    }
    found
}

/// The form `function` of the top-level declaration.
#[inline(always)]
#[tactic(auto, unfolding(gs_grammar::specs::Reference::read_function))]
pub fn read_function<'a>(x: &Token, s: Rest<'a>) -> Option<Spot<'a>>
    ensures { Spots result (reference.read_function s.entry.tokens.now stands x.now) }
{
    let r0 = first_word(Keyword::Func, x, s)?;
    let r1 = name(r0)?;
    let f2 = signature(r1)?;
    let f3 = body(f2.rest)?;
    Some(Spot {
        depth: deepest(f2.depth, f3.depth),
        rest: f3.rest,
    })
}

/// Whether the parameters of the place are a receiver: one parameter, with at most one name.
#[inline(always)]
pub fn is_receiver(s: Rest<'_>) -> bool
    ensures { result ≡ receives s.entry.tokens.now }
{
    match s.next() {
        Some((_, inner)) => is_only(inner),
        None => false,
    }
}

/// Whether one parameter stands at the place, with at most one name.
#[inline(always)]
fn is_only(s: Rest<'_>) -> bool
    ensures { result ≡ is_only_at s.entry.tokens.now }
{
    if mark(Operator::RightParen, s).is_some() {
        return false;
    }
    let Some((x, rest)) = s.next() else {
        return false;
    };
    is_only_by(at_named_params(false, s), at_idents(s), at_type(s), x, rest)
}

/// The same, of the token and those behind it.
#[inline(always)]
#[tactic(auto, using(gs_places::proofs::Laws::at_idents, gs_places::proofs::Laws::at_type))]
fn is_only_by<'a>(
    named: Option<Spot<'a>>,
    names: Option<Spot<'a>>,
    found_type: Option<Spot<'a>>,
    x: &Token,
    s: Rest<'a>,
) -> bool
    requires named { Spots named ((stands (x.now ∷ s.tokens.now)).named_params false) }
    requires names { Spots names ((stands (x.now ∷ s.tokens.now)).idents) }
    requires found { Spots found_type ((stands (x.now ∷ s.tokens.now)).type) }
    ensures { result ≡ only_by x.now s.entry.tokens.now }
{
    if named.is_some() {
        read_last_named(false, names, x, s).is_some() && mark(Operator::Comma, s).is_none()
    } else {
        read_last_type(false, found_type, x, s).is_some()
    }
}

/// The form `method_decl` of the top-level declaration.
#[inline(always)]
#[tactic(auto, using(crate::proofs::Receivers::method_law))]
pub fn read_method_decl<'a>(x: &Token, s: Rest<'a>) -> Option<Spot<'a>>
    ensures { Spots result (reference.read_method_decl s.entry.tokens.now stands x.now) }
{
    let r0 = first_word(Keyword::Func, x, s)?;
    mark(Operator::LeftParen, r0)?;
    let f2 = params(false, r0)?;
    if !is_receiver(r0) {
        return None;
    }
    let r4 = name(f2.rest)?;
    let f5 = signature(r4)?;
    let f6 = body(f5.rest)?;
    Some(Spot {
        depth: deepest(f2.depth, deepest(f5.depth, f6.depth)),
        rest: f6.rest,
    })
}

/// The top-level declaration that begins with the token.
#[inline(always)]
#[tactic(auto, unfolding(gs_grammar::specs::Reference::top_step))]
pub fn top_by<'a>(found: Option<Spot<'a>>, x: &Token, s: Rest<'a>) -> Option<Spot<'a>>
    requires found { Spots found (reference.decl_step s.tokens.now stands x.now) }
    ensures { Spots result (reference.top_step s.entry.tokens.now stands x.now) }
{
    let tried = read_declaration(found, x, s);
    if tried.is_some() {
        return tried;
    }
    let tried = read_function(x, s);
    if tried.is_some() {
        return tried;
    }
    read_method_decl(x, s)
}

/// The form `top_chunk` of the chunk.
#[inline(always)]
#[tactic(auto, unfolding(gs_grammar::specs::Reference::read_top_chunk))]
pub fn read_top_chunk<'a>(found: Option<Spot<'a>>, x: &Token, s: Rest<'a>) -> Option<Spot<'a>>
    requires found { Spots found (reference.top_step s.tokens.now stands x.now) }
    ensures { Spots result (reference.read_top_chunk s.entry.tokens.now stands x.now) }
{
    let f0 = found?;
    let r1 = semi(f0.rest)?;
    Some(Spot {
        depth: f0.depth,
        rest: r1,
    })
}

/// The form `package_clause` of the chunk.
#[inline(always)]
#[tactic(auto, unfolding(gs_grammar::specs::Reference::read_package_clause))]
pub fn read_package_clause<'a>(x: &Token, s: Rest<'a>) -> Option<Spot<'a>>
    ensures { Spots result (reference.read_package_clause s.entry.tokens.now stands x.now) }
{
    let r0 = first_word(Keyword::Package, x, s)?;
    let r1 = name(r0)?;
    let r2 = semi(r1)?;
    Some(Spot { depth: 0, rest: r2 })
}

/// The form `import_decl` of the chunk.
#[inline(always)]
#[tactic(auto, unfolding(gs_grammar::specs::Reference::read_import_decl))]
pub fn read_import_decl<'a>(x: &Token, s: Rest<'a>) -> Option<Spot<'a>>
    ensures { Spots result (reference.read_import_decl s.entry.tokens.now stands x.now) }
{
    let r0 = first_word(Keyword::Import, x, s)?;
    if mark(Operator::LeftParen, r0).is_some() {
        return None;
    }
    let f2 = import_spec(r0)?;
    let r3 = semi(f2.rest)?;
    Some(Spot {
        depth: f2.depth,
        rest: r3,
    })
}

/// The form `import_group` of the chunk.
#[inline(always)]
#[tactic(auto, unfolding(gs_grammar::specs::Reference::read_import_group))]
pub fn read_import_group<'a>(x: &Token, s: Rest<'a>) -> Option<Spot<'a>>
    ensures { Spots result (reference.read_import_group s.entry.tokens.now stands x.now) }
{
    let r0 = first_word(Keyword::Import, x, s)?;
    let r1 = mark(Operator::LeftParen, r0)?;
    let f2 = at_import_specs(r1)?;
    let r3 = mark(Operator::RightParen, f2.rest)?;
    let r4 = semi(r3)?;
    Some(Spot {
        depth: deeper(f2.depth),
        rest: r4,
    })
}

/// The chunk that begins with the token.
#[inline(always)]
#[tactic(auto, unfolding(gs_grammar::specs::Reference::chunk_step))]
pub fn chunk_by<'a>(found: Option<Spot<'a>>, x: &Token, s: Rest<'a>) -> Option<Spot<'a>>
    requires found { Spots found (reference.top_step s.tokens.now stands x.now) }
    ensures { Spots result (reference.chunk_step s.entry.tokens.now stands x.now) }
{
    let tried = read_top_chunk(found, x, s);
    if tried.is_some() {
        return tried;
    }
    let tried = read_package_clause(x, s);
    if tried.is_some() {
        return tried;
    }
    let tried = read_import_decl(x, s);
    if tried.is_some() {
        return tried;
    }
    read_import_group(x, s)
}

/// The chunk of the place.
#[inline(always)]
#[tactic(auto, using(gs_places::proofs::Laws::at_chunk, gs_places::proofs::Laws::end_chunk))]
pub fn chunk<'a>(s: Rest<'a>) -> Option<Spot<'a>>
    ensures { Spots result ((stands s.entry.tokens.now).chunk) }
{
    let (x, rest) = s.next()?;
    let found = top_by(decl_by(x, rest), x, rest);
    chunk_by(found, x, rest)
}
