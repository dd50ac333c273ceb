//! Trees of statements.
ghost use Rattle.std.specs.Prelude.{◌≡◌, ◌∷◌};
ghost use Rattle.gs_grammar.specs.Reference as reference;
ghost use Rattle.gs_places.specs.Places.{stands};
ghost use Rattle.gs_build_base.specs.Pieces.{Builds, Turns};

use crate::blocks::{
    build_block_stmt, build_endless, build_header_switch, build_header_type_switch, build_if_stmt,
    build_loop, build_range, build_select, build_switch, build_type_switch, build_while,
};
use crate::here::stmt_here;
use gs_build_base::copies::copy;
use gs_build_base::front::{first_name_token, first_word_span, name_token};
use gs_build_base::here::{expr_here, exprs_here};
use gs_build_base::maker::{Maker, decl_made};
use gs_build_base::pieces::{Piece, Stop, Turn};
use gs_build_clauses::parts::{target_tree, values_tree};
use gs_build_clauses::simples::simple_from;
use gs_build_pairs::boxes::token;
use gs_build_pairs::lists::Listed;
use gs_build_pairs::nodes::labeled;
use gs_build_pairs::pairs::name_and_stmt;
use gs_grammar::trees::{Simple, Stmt};
use gs_places::classes::{is_decl_start, is_list_end, is_semi};
use gs_places::front::{first_label, mark, semi, stmt_end};
use gs_places::rest::Rest;
use gs_rows::simples::simple_by;
use gs_rows::stmts::{
    read_bare_label, read_block_stmt, read_break, read_continue, read_declaration_stmt, read_defer,
    read_empty_stmt, read_endless, read_fallthrough, read_go, read_goto, read_header_switch,
    read_header_type_switch, read_if_stmt, read_labeled, read_last_stmt, read_loop,
    read_more_stmts, read_range, read_return, read_select, read_simple_stmt, read_switch,
    read_type_switch,
};
use gs_rows_decls::decls::decl_by;
use gs_syntax::token::{Keyword, Operator, Token};
use sqlite_items::Items;
use std::alloc::Global;

/// The form `simple_stmt` of the statement.
#[inline(never)]
#[tactic(auto, unfolding(gs_grammar::specs::Reference::read_simple_stmt))]
fn build_simple_stmt<'a, M: Maker>(
    alloc: Global,
    make: &M,
    place: Rest<'a>,
    x: &'a Token,
    s: Rest<'a>,
) -> Result<Piece<'a, Stmt>, Stop>
    requires faithful { M.is_faithful make.now }
    requires here { place.tokens.now ≡ x.now ∷ s.tokens.now }
    ensures { Builds result (reference.read_simple_stmt s.entry.tokens.now stands x.now) }
{
    if first_label(x, s).is_some() {
        return Err(Stop::Absent);
    }
    let Piece { tree: t, rest: r1 } = simple_from(alloc, make, false, place, x, s)?;
    Ok(Piece {
        tree: Stmt::Simple(t),
        rest: r1,
    })
}

/// The form `declaration_stmt` of the statement.
#[inline(never)]
#[tactic(auto, unfolding(gs_grammar::specs::Reference::read_declaration_stmt, gs_grammar::specs::Front::front_at))]
fn build_declaration_stmt<'a, M: Maker>(
    make: &M,
    place: Rest<'a>,
    x: &'a Token,
    s: Rest<'a>,
) -> Result<Piece<'a, Stmt>, Stop>
    requires faithful { M.is_faithful make.now }
    requires here { place.tokens.now ≡ x.now ∷ s.tokens.now }
    ensures { Builds result (reference.read_declaration_stmt s.entry.tokens.now stands x.now) }
{
    if !is_decl_start(&x.kind) {
        return Err(Stop::Absent);
    }
    let Piece {
        tree: item,
        rest: r1,
    } = decl_made(make, place, x, s)?;
    Ok(Piece {
        tree: Stmt::Declaration(item),
        rest: r1,
    })
}

/// The form `bare_label` of the statement.
#[tactic(auto, unfolding(gs_grammar::specs::Reference::read_bare_label))]
fn build_bare_label<'a>(alloc: Global, x: &'a Token, s: Rest<'a>) -> Result<Piece<'a, Stmt>, Stop>
    ensures { Builds result (reference.read_bare_label s.entry.tokens.now stands x.now) }
{
    let (name, r0) = first_name_token(x, s).ok_or(Stop::Absent)?;
    let r1 = mark(Operator::Colon, r0).ok_or(Stop::Absent)?;
    if stmt_end(r1).is_none() {
        return Err(Stop::Absent);
    }
    Ok(Piece {
        tree: labeled(alloc, copy(alloc, name)?, Stmt::Simple(Simple::Empty))?,
        rest: r1,
    })
}

/// The form `labeled` of the statement.
#[inline(never)]
#[tactic(auto, unfolding(gs_grammar::specs::Reference::read_labeled))]
fn build_labeled<'a, M: Maker>(
    alloc: Global,
    make: &M,
    x: &'a Token,
    s: Rest<'a>,
) -> Result<Piece<'a, Stmt>, Stop>
    requires faithful { M.is_faithful make.now }
    ensures { Builds result (reference.read_labeled s.entry.tokens.now stands x.now) }
{
    let (name, r0) = first_name_token(x, s).ok_or(Stop::Absent)?;
    let r1 = mark(Operator::Colon, r0).ok_or(Stop::Absent)?;
    if stmt_end(r1).is_some() {
        return Err(Stop::Absent);
    }
    let name = token(alloc, name, r0);
    let stmt = make.make_stmt(r1);
    let Piece {
        tree: (name, t),
        rest: r3,
    } = name_and_stmt(name, stmt)?;
    Ok(Piece {
        tree: Stmt::Labeled(name, t),
        rest: r3,
    })
}

/// The form `go` of the statement.
#[inline(never)]
#[tactic(auto, unfolding(gs_grammar::specs::Reference::read_go))]
fn build_go<'a, M: Maker>(make: &M, x: &'a Token, s: Rest<'a>) -> Result<Piece<'a, Stmt>, Stop>
    requires faithful { M.is_faithful make.now }
    ensures { Builds result (reference.read_go s.entry.tokens.now stands x.now) }
{
    let (p, r0) = first_word_span(Keyword::Go, x, s).ok_or(Stop::Absent)?;
    let Piece { tree: t, rest: r1 } = make.make_expr(5, false, false, r0)?;
    Ok(Piece {
        tree: Stmt::Go(p, t),
        rest: r1,
    })
}

/// The form `defer` of the statement.
#[inline(never)]
#[tactic(auto, unfolding(gs_grammar::specs::Reference::read_defer))]
fn build_defer<'a, M: Maker>(make: &M, x: &'a Token, s: Rest<'a>) -> Result<Piece<'a, Stmt>, Stop>
    requires faithful { M.is_faithful make.now }
    ensures { Builds result (reference.read_defer s.entry.tokens.now stands x.now) }
{
    let (p, r0) = first_word_span(Keyword::Defer, x, s).ok_or(Stop::Absent)?;
    let Piece { tree: t, rest: r1 } = make.make_expr(5, false, false, r0)?;
    Ok(Piece {
        tree: Stmt::Defer(p, t),
        rest: r1,
    })
}

/// The form `return` of the statement.
#[inline(never)]
#[tactic(auto, unfolding(gs_grammar::specs::Reference::read_return))]
fn build_return<'a, M: Maker>(
    alloc: Global,
    make: &M,
    x: &'a Token,
    s: Rest<'a>,
) -> Result<Piece<'a, Stmt>, Stop>
    requires faithful { M.is_faithful make.now }
    ensures { Builds result (reference.read_return s.entry.tokens.now stands x.now) }
{
    let (p, r0) = first_word_span(Keyword::Return, x, s).ok_or(Stop::Absent)?;
    let Piece { tree: ts, rest: r1 } = values_tree(alloc, make, r0)?;
    Ok(Piece {
        tree: Stmt::Return(p, ts),
        rest: r1,
    })
}

/// The form `break` of the statement.
#[tactic(auto, unfolding(gs_grammar::specs::Reference::read_break))]
fn build_break<'a>(alloc: Global, x: &'a Token, s: Rest<'a>) -> Result<Piece<'a, Stmt>, Stop>
    ensures { Builds result (reference.read_break s.entry.tokens.now stands x.now) }
{
    let (p, r0) = first_word_span(Keyword::Break, x, s).ok_or(Stop::Absent)?;
    let Piece { tree: o, rest: r1 } = target_tree(alloc, r0)?;
    Ok(Piece {
        tree: Stmt::Break(p, o),
        rest: r1,
    })
}

/// The form `continue` of the statement.
#[tactic(auto, unfolding(gs_grammar::specs::Reference::read_continue))]
fn build_continue<'a>(alloc: Global, x: &'a Token, s: Rest<'a>) -> Result<Piece<'a, Stmt>, Stop>
    ensures { Builds result (reference.read_continue s.entry.tokens.now stands x.now) }
{
    let (p, r0) = first_word_span(Keyword::Continue, x, s).ok_or(Stop::Absent)?;
    let Piece { tree: o, rest: r1 } = target_tree(alloc, r0)?;
    Ok(Piece {
        tree: Stmt::Continue(p, o),
        rest: r1,
    })
}

/// The form `goto` of the statement.
#[tactic(auto, unfolding(gs_grammar::specs::Reference::read_goto))]
fn build_goto<'a>(alloc: Global, x: &'a Token, s: Rest<'a>) -> Result<Piece<'a, Stmt>, Stop>
    ensures { Builds result (reference.read_goto s.entry.tokens.now stands x.now) }
{
    let (p, r0) = first_word_span(Keyword::Goto, x, s).ok_or(Stop::Absent)?;
    let (name, r1) = name_token(r0).ok_or(Stop::Absent)?;
    Ok(Piece {
        tree: Stmt::Goto(p, copy(alloc, name)?),
        rest: r1,
    })
}

/// The form `fallthrough` of the statement.
#[tactic(auto, unfolding(gs_grammar::specs::Reference::read_fallthrough))]
fn build_fallthrough<'a>(x: &'a Token, s: Rest<'a>) -> Result<Piece<'a, Stmt>, Stop>
    ensures { Builds result (reference.read_fallthrough s.entry.tokens.now stands x.now) }
{
    let (p, r0) = first_word_span(Keyword::Fallthrough, x, s).ok_or(Stop::Absent)?;
    Ok(Piece {
        tree: Stmt::Fallthrough(p),
        rest: r0,
    })
}

/// The statement that begins with the token.
#[tactic(auto, unfolding(gs_grammar::specs::Reference::stmt_step))]
pub fn stmt_from<'a, M: Maker>(
    alloc: Global,
    make: &M,
    place: Rest<'a>,
    x: &'a Token,
    s: Rest<'a>,
) -> Result<Piece<'a, Stmt>, Stop>
    requires faithful { M.is_faithful make.now }
    requires here { place.tokens.now ≡ x.now ∷ s.tokens.now }
    ensures { Builds result (reference.stmt_step s.entry.tokens.now stands x.now) }
{
    let simple = simple_by(
        false,
        exprs_here(false, place, x, s),
        expr_here(5, false, place, x, s),
        x,
        s,
    );
    let decl = decl_by(x, s);
    if read_simple_stmt(simple, x, s).is_some() {
        return build_simple_stmt(alloc, make, place, x, s);
    }
    if read_declaration_stmt(decl, x, s).is_some() {
        return build_declaration_stmt(make, place, x, s);
    }
    if read_bare_label(x, s).is_some() {
        return build_bare_label(alloc, x, s);
    }
    if read_labeled(x, s).is_some() {
        return build_labeled(alloc, make, x, s);
    }
    if read_go(x, s).is_some() {
        return build_go(make, x, s);
    }
    if read_defer(x, s).is_some() {
        return build_defer(make, x, s);
    }
    if read_return(x, s).is_some() {
        return build_return(alloc, make, x, s);
    }
    if read_break(x, s).is_some() {
        return build_break(alloc, x, s);
    }
    if read_continue(x, s).is_some() {
        return build_continue(alloc, x, s);
    }
    if read_goto(x, s).is_some() {
        return build_goto(alloc, x, s);
    }
    if read_fallthrough(x, s).is_some() {
        return build_fallthrough(x, s);
    }
    if read_block_stmt(x, s).is_some() {
        return build_block_stmt(make, x, s);
    }
    if read_if_stmt(x, s).is_some() {
        return build_if_stmt(alloc, make, x, s);
    }
    if read_header_type_switch(x, s).is_some() {
        return build_header_type_switch(alloc, make, x, s);
    }
    if read_type_switch(x, s).is_some() {
        return build_type_switch(alloc, make, x, s);
    }
    if read_header_switch(x, s).is_some() {
        return build_header_switch(alloc, make, x, s);
    }
    if read_switch(x, s).is_some() {
        return build_switch(alloc, make, x, s);
    }
    if read_select(x, s).is_some() {
        return build_select(alloc, make, x, s);
    }
    if read_endless(x, s).is_some() {
        return build_endless(make, x, s);
    }
    if read_range(x, s).is_some() {
        return build_range(make, x, s);
    }
    if read_loop(x, s).is_some() {
        return build_loop(alloc, make, x, s);
    }
    build_while(make, x, s)
}

/// The statement of the place.
#[tactic(auto, using(gs_places::proofs::Laws::at_stmt, gs_places::proofs::Laws::end_stmt))]
pub fn stmt_tree<'a, M: Maker>(
    alloc: Global,
    make: &M,
    s: Rest<'a>,
) -> Result<Piece<'a, Stmt>, Stop>
    requires faithful { M.is_faithful make.now }
    ensures { Builds result ((stands s.entry.tokens.now).stmt) }
{
    let (x, rest) = s.next().ok_or(Stop::Absent)?;
    stmt_from(alloc, make, s, x, rest)
}

/// The form `last_stmt` of the statements.
#[inline(never)]
#[tactic(auto, unfolding(gs_grammar::specs::Reference::read_last_stmt, gs_build_base::specs::Pieces::joined))]
fn turn_last_stmt<'a, M: Maker>(
    alloc: Global,
    make: &M,
    place: Rest<'a>,
    x: &'a Token,
    s: Rest<'a>,
) -> Result<Turn<'a, Stmt>, Stop>
    requires faithful { M.is_faithful make.now }
    requires here { place.tokens.now ≡ x.now ∷ s.tokens.now }
    ensures { Turns (λ r. (stands r).stmts) result (reference.read_last_stmt s.entry.tokens.now stands x.now) }
{
    let f0 = stmt_here(place, x, s).ok_or(Stop::Absent)?;
    if mark(Operator::RightBrace, f0.rest).is_none() {
        return Err(Stop::Absent);
    }
    let t = stmt_from(alloc, make, place, x, s)?.tree;
    Ok(Turn::Last(t, f0.rest))
}

/// The form `more_stmts` of the statements.
#[inline(never)]
#[tactic(auto, unfolding(gs_grammar::specs::Reference::read_more_stmts, gs_build_base::specs::Pieces::joined))]
fn turn_more_stmts<'a, M: Maker>(
    alloc: Global,
    make: &M,
    place: Rest<'a>,
    x: &'a Token,
    s: Rest<'a>,
) -> Result<Turn<'a, Stmt>, Stop>
    requires faithful { M.is_faithful make.now }
    requires here { place.tokens.now ≡ x.now ∷ s.tokens.now }
    ensures { Turns (λ r. (stands r).stmts) result (reference.read_more_stmts s.entry.tokens.now stands x.now) }
{
    let f0 = stmt_here(place, x, s).ok_or(Stop::Absent)?;
    let r1 = semi(f0.rest).ok_or(Stop::Absent)?;
    let t = stmt_from(alloc, make, place, x, s)?.tree;
    Ok(Turn::More(t, r1))
}

/// The form `empty_stmt` of the statements.
#[tactic(auto, unfolding(gs_grammar::specs::Reference::read_empty_stmt, gs_grammar::specs::Front::front_at, gs_build_base::specs::Pieces::joined))]
fn turn_empty_stmt<'a>(x: &'a Token, s: Rest<'a>) -> Result<Turn<'a, Stmt>, Stop>
    ensures { Turns (λ r. (stands r).stmts) result (reference.read_empty_stmt s.entry.tokens.now stands x.now) }
{
    if !is_semi(&x.kind) {
        return Err(Stop::Absent);
    }
    Ok(Turn::More(Stmt::Simple(Simple::Empty), s))
}

/// What the statements have at the place.
#[tactic(auto, using(gs_places::proofs::Laws::at_stmts, gs_places::proofs::Laws::end_stmts), unfolding(gs_grammar::specs::Reference::stmts_step, gs_grammar::specs::Reference::read_no_stmts, gs_grammar::specs::Front::front_at))]
fn stmts_turn<'a, M: Maker>(alloc: Global, make: &M, s: Rest<'a>) -> Result<Turn<'a, Stmt>, Stop>
    requires faithful { M.is_faithful make.now }
    ensures { Turns (λ r. (stands r).stmts) result ((stands s.entry.tokens.now).stmts) }
{
    let (x, rest) = s.next().ok_or(Stop::Absent)?;
    let found = stmt_here(s, x, rest);
    if read_last_stmt(found, x, rest).is_some() {
        return turn_last_stmt(alloc, make, s, x, rest);
    }
    if read_more_stmts(found, x, rest).is_some() {
        return turn_more_stmts(alloc, make, s, x, rest);
    }
    if read_empty_stmt(x, rest).is_some() {
        return turn_empty_stmt(x, rest);
    }
    if is_list_end(&x.kind) {
        Ok(Turn::End(s))
    } else {
        Err(Stop::Absent)
    }
}

/// The statements of the place. There are at most as many as tokens.
#[tactic(auto, using(gs_build_base::proofs::Joins::joined_start, gs_build_base::proofs::Joins::joined_more, gs_build_base::proofs::Joins::joined_last, gs_build_base::proofs::Joins::joined_end, gs_build_base::proofs::Joins::joined_none))]
pub fn stmts_tree<'a, M: Maker>(
    alloc: Global,
    make: &M,
    s: Rest<'a>,
) -> Result<Piece<'a, Items<Stmt>>, Stop>
    requires faithful { M.is_faithful make.now }
    ensures { Builds result ((stands s.entry.tokens.now).stmts) }
{
    let mut found = Items::new(alloc);
    let mut rest = s;
    'turns: while found.len() <= s.tokens.len() {
        match stmts_turn(alloc, make, rest) {
            Ok(Turn::More(item, more)) => {
                found = Listed::grown(found, item)?;
                rest = more;
            }
            Ok(Turn::Last(item, more)) => {
                found = Listed::grown(found, item)?;
                return Ok(Piece {
                    tree: found,
                    rest: more,
                });
            }
            Ok(Turn::End(more)) => return Ok(Piece {
                tree: found,
                rest: more,
            }),
            Err(stop) => {
                Listed::let_go(found);
                return Err(stop);
            }
        }
    }
    Listed::let_go(found);
    Err(Stop::Absent)
}
