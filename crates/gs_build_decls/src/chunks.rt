//! Trees of chunks.
ghost use Rattle.std.specs.Prelude.{[], ◌≡◌, ◌∷◌, IfOk};
ghost use Rattle.gs_grammar.specs.Reference as reference;
ghost use Rattle.gs_places.specs.Places.{stands};
ghost use Rattle.gs_build_decls.specs.Tails.{tail_of_method_decl};
ghost use Rattle.gs_build_base.specs.Pieces.{Builds, Gives};

use crate::conditions::is_receiver;
use crate::decls::{decl_from, import_spec_tree, import_specs_tree};
use gs_build_base::copies::copy;
use gs_build_base::front::{first_word_span, name_token};
use gs_build_base::maker::{Maker, block_made};
use gs_build_base::pieces::{Piece, Stop};
use gs_build_pairs::pairs::{let_params_go, params_and_method, signature_and_body};
use gs_grammar::trees::{Block, Chunk, Signature, Top};
use gs_places::at::at_import_specs;
use gs_places::classes::{is_decl_start, is_semi};
use gs_places::front::{first_word, mark, semi};
use gs_places::rest::Rest;
use gs_rows_decls::chunks::{
    read_a_body, read_declaration, read_function, read_import_decl, read_package_clause,
    read_top_chunk, top_by,
};
use gs_rows_decls::decls::{decl_by, import_spec};
use gs_rows_expr::operands::block_by;
use gs_rows_types::params::{params, signature};
use gs_syntax::token::{Keyword, Operator, Token};
use sqlite_items::Items;
use std::alloc::{AllocError, Global};

/// The list of one item.
fn alone<T: Drop>(alloc: Global, item: T) -> Result<Items<T>, AllocError>
    ensures { IfOk result (λ xs. xs ≡ item ∷ []) }
{
    let mut items = Items::new(alloc);
    items.push(item)?;
    Ok(items)
}

/// The form `a_body` of the body of a function.
#[inline(never)]
#[tactic(auto, unfolding(gs_grammar::specs::Reference::read_a_body))]
fn build_a_body<'a, M: Maker>(
    make: &M,
    place: Rest<'a>,
    x: &'a Token,
    s: Rest<'a>,
) -> Result<Piece<'a, Option<Block>>, Stop>
    requires faithful { M.is_faithful make.now }
    requires here { place.tokens.now ≡ x.now ∷ s.tokens.now }
    ensures { Builds result (reference.read_a_body s.entry.tokens.now stands x.now) }
{
    let Piece { tree: b, rest: r0 } = block_made(make, place, x, s)?;
    Ok(Piece {
        tree: Some(b),
        rest: r0,
    })
}

/// The body of a function of the place.
#[tactic(auto, using(gs_places::proofs::Laws::at_body, gs_places::proofs::Laws::end_body), unfolding(gs_grammar::specs::Reference::body_step, gs_grammar::specs::Reference::read_no_body, gs_grammar::specs::Front::front_at))]
pub fn body_tree<'a, M: Maker>(make: &M, s: Rest<'a>) -> Result<Piece<'a, Option<Block>>, Stop>
    requires faithful { M.is_faithful make.now }
    ensures { Builds result ((stands s.entry.tokens.now).body) }
{
    let (x, rest) = s.next().ok_or(Stop::Absent)?;
    let found = block_by(x, rest);
    if read_a_body(found, x, rest).is_some() {
        return build_a_body(make, s, x, rest);
    }
    if is_semi(&x.kind) {
        Ok(Piece {
            tree: None,
            rest: s,
        })
    } else {
        Err(Stop::Absent)
    }
}

/// The form `declaration` of the top-level declaration.
#[inline(never)]
#[tactic(auto, unfolding(gs_grammar::specs::Reference::read_declaration, gs_grammar::specs::Front::front_at))]
fn build_declaration<'a, M: Maker>(
    alloc: Global,
    make: &M,
    x: &'a Token,
    s: Rest<'a>,
) -> Result<Piece<'a, Top>, Stop>
    requires faithful { M.is_faithful make.now }
    ensures { Builds result (reference.read_declaration s.entry.tokens.now stands x.now) }
{
    if !is_decl_start(&x.kind) {
        return Err(Stop::Absent);
    }
    let Piece {
        tree: item,
        rest: r1,
    } = decl_from(alloc, make, x, s)?;
    Ok(Piece {
        tree: Top::Declaration(item),
        rest: r1,
    })
}

/// The form `function` of the top-level declaration.
#[inline(never)]
#[tactic(auto, unfolding(gs_grammar::specs::Reference::read_function))]
fn build_function<'a, M: Maker>(
    alloc: Global,
    make: &M,
    x: &'a Token,
    s: Rest<'a>,
) -> Result<Piece<'a, Top>, Stop>
    requires faithful { M.is_faithful make.now }
    ensures { Builds result (reference.read_function s.entry.tokens.now stands x.now) }
{
    let (p, r0) = first_word_span(Keyword::Func, x, s).ok_or(Stop::Absent)?;
    let (name, r1) = name_token(r0).ok_or(Stop::Absent)?;
    let f2 = signature(r1).ok_or(Stop::Absent)?;
    let name = copy(alloc, name)?;
    let made = make.make_signature(r1);
    let body = body_tree(make, f2.rest);
    let Piece {
        tree: (z, o),
        rest: r3,
    } = signature_and_body(made, body)?;
    Ok(Piece {
        tree: Top::Function(p, name, z, o),
        rest: r3,
    })
}

/// The end of the form `method_decl` of the top-level declaration.
#[inline(never)]
#[tactic(auto, unfolding(crate::specs::Tails::tail_of_method_decl))]
fn build_method_decl_end<'a, M: Maker>(
    make: &M,
    s: Rest<'a>,
) -> Result<Piece<'a, (Signature, Option<Block>)>, Stop>
    requires faithful { M.is_faithful make.now }
    ensures { Gives result (tail_of_method_decl s.entry.tokens.now) }
{
    let f0 = signature(s).ok_or(Stop::Absent)?;
    let made = make.make_signature(s);
    signature_and_body(made, body_tree(make, f0.rest))
}

/// The form `method_decl` of the top-level declaration.
#[inline(never)]
#[tactic(auto, unfolding(gs_grammar::specs::Reference::read_method_decl, crate::specs::Tails::tail_of_method_decl))]
fn build_method_decl<'a, M: Maker>(
    alloc: Global,
    make: &M,
    x: &'a Token,
    s: Rest<'a>,
) -> Result<Piece<'a, Top>, Stop>
    requires faithful { M.is_faithful make.now }
    ensures { Builds result (reference.read_method_decl s.entry.tokens.now stands x.now) }
{
    let (p, r0) = first_word_span(Keyword::Func, x, s).ok_or(Stop::Absent)?;
    if mark(Operator::LeftParen, r0).is_none() {
        return Err(Stop::Absent);
    }
    let f2 = params(false, r0).ok_or(Stop::Absent)?;
    let (name, r4) = name_token(f2.rest).ok_or(Stop::Absent)?;
    let name = copy(alloc, name)?;
    let receiver = make.make_params(false, r0)?;
    if !is_receiver(&receiver.tree) {
        let_params_go(receiver.tree);
        return Err(Stop::Absent);
    }
    let Piece {
        tree: (ps, (z, o)),
        rest: r5,
    } = params_and_method(Ok(receiver), build_method_decl_end(make, r4))?;
    Ok(Piece {
        tree: Top::Method(p, ps, name, z, o),
        rest: r5,
    })
}

/// The top-level declaration that begins with the token.
#[tactic(auto, unfolding(gs_grammar::specs::Reference::top_step))]
pub fn top_from<'a, M: Maker>(
    alloc: Global,
    make: &M,
    x: &'a Token,
    s: Rest<'a>,
) -> Result<Piece<'a, Top>, Stop>
    requires faithful { M.is_faithful make.now }
    ensures { Builds result (reference.top_step s.entry.tokens.now stands x.now) }
{
    let found = decl_by(x, s);
    if read_declaration(found, x, s).is_some() {
        return build_declaration(alloc, make, x, s);
    }
    if read_function(x, s).is_some() {
        return build_function(alloc, make, x, s);
    }
    build_method_decl(alloc, make, x, s)
}

/// The form `top_chunk` of the chunk.
#[inline(never)]
#[tactic(auto, unfolding(gs_grammar::specs::Reference::read_top_chunk))]
fn build_top_chunk<'a, M: Maker>(
    alloc: Global,
    make: &M,
    x: &'a Token,
    s: Rest<'a>,
) -> Result<Piece<'a, Chunk>, Stop>
    requires faithful { M.is_faithful make.now }
    ensures { Builds result (reference.read_top_chunk s.entry.tokens.now stands x.now) }
{
    let f0 = top_by(decl_by(x, s), x, s).ok_or(Stop::Absent)?;
    let r1 = semi(f0.rest).ok_or(Stop::Absent)?;
    let t = top_from(alloc, make, x, s)?.tree;
    Ok(Piece {
        tree: Chunk::Top(t),
        rest: r1,
    })
}

/// The form `package_clause` of the chunk.
#[tactic(auto, unfolding(gs_grammar::specs::Reference::read_package_clause))]
fn build_package_clause<'a>(
    alloc: Global,
    x: &'a Token,
    s: Rest<'a>,
) -> Result<Piece<'a, Chunk>, Stop>
    ensures { Builds result (reference.read_package_clause s.entry.tokens.now stands x.now) }
{
    let r0 = first_word(Keyword::Package, x, s).ok_or(Stop::Absent)?;
    let (name, r1) = name_token(r0).ok_or(Stop::Absent)?;
    let r2 = semi(r1).ok_or(Stop::Absent)?;
    Ok(Piece {
        tree: Chunk::Package(copy(alloc, name)?),
        rest: r2,
    })
}

/// The form `import_decl` of the chunk.
#[tactic(auto, unfolding(gs_grammar::specs::Reference::read_import_decl))]
fn build_import_decl<'a>(alloc: Global, x: &'a Token, s: Rest<'a>) -> Result<Piece<'a, Chunk>, Stop>
    ensures { Builds result (reference.read_import_decl s.entry.tokens.now stands x.now) }
{
    let r0 = first_word(Keyword::Import, x, s).ok_or(Stop::Absent)?;
    if mark(Operator::LeftParen, r0).is_some() {
        return Err(Stop::Absent);
    }
    let f2 = import_spec(r0).ok_or(Stop::Absent)?;
    let r3 = semi(f2.rest).ok_or(Stop::Absent)?;
    let i = import_spec_tree(alloc, r0)?.tree;
    Ok(Piece {
        tree: Chunk::Import(alone(alloc, i)?),
        rest: r3,
    })
}

/// The form `import_group` of the chunk.
#[tactic(auto, unfolding(gs_grammar::specs::Reference::read_import_group))]
fn build_import_group<'a>(
    alloc: Global,
    x: &'a Token,
    s: Rest<'a>,
) -> Result<Piece<'a, Chunk>, Stop>
    ensures { Builds result (reference.read_import_group s.entry.tokens.now stands x.now) }
{
    let r0 = first_word(Keyword::Import, x, s).ok_or(Stop::Absent)?;
    let r1 = mark(Operator::LeftParen, r0).ok_or(Stop::Absent)?;
    let f2 = at_import_specs(r1).ok_or(Stop::Absent)?;
    let r3 = mark(Operator::RightParen, f2.rest).ok_or(Stop::Absent)?;
    let r4 = semi(r3).ok_or(Stop::Absent)?;
    let cs = import_specs_tree(alloc, r1)?.tree;
    Ok(Piece {
        tree: Chunk::Import(cs),
        rest: r4,
    })
}

/// The chunk that begins with the token.
#[tactic(auto, unfolding(gs_grammar::specs::Reference::chunk_step))]
pub fn chunk_from<'a, M: Maker>(
    alloc: Global,
    make: &M,
    x: &'a Token,
    s: Rest<'a>,
) -> Result<Piece<'a, Chunk>, Stop>
    requires faithful { M.is_faithful make.now }
    ensures { Builds result (reference.chunk_step s.entry.tokens.now stands x.now) }
{
    let found = top_by(decl_by(x, s), x, s);
    if read_top_chunk(found, x, s).is_some() {
        return build_top_chunk(alloc, make, x, s);
    }
    if read_package_clause(x, s).is_some() {
        return build_package_clause(alloc, x, s);
    }
    if read_import_decl(x, s).is_some() {
        return build_import_decl(alloc, x, s);
    }
    build_import_group(alloc, x, s)
}

/// The chunk of the place.
#[tactic(auto, using(gs_places::proofs::Laws::at_chunk, gs_places::proofs::Laws::end_chunk))]
pub fn chunk_tree<'a, M: Maker>(
    alloc: Global,
    make: &M,
    s: Rest<'a>,
) -> Result<Piece<'a, Chunk>, Stop>
    requires faithful { M.is_faithful make.now }
    ensures { Builds result ((stands s.entry.tokens.now).chunk) }
{
    let (x, rest) = s.next().ok_or(Stop::Absent)?;
    chunk_from(alloc, make, x, rest)
}
