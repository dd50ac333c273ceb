//! Trees of clauses.
ghost use Rattle.std.specs.Prelude.{◌≡◌, ◌∷◌};
ghost use Rattle.gs_grammar.specs.Reference as reference;
ghost use Rattle.gs_places.specs.Places.{stands};
ghost use Rattle.gs_build_base.specs.Pieces.{Builds, Turns};

use gs_build_base::front::{first_word_span, mark_span};
use gs_build_base::here::{expr_here, exprs_here, type_here};
use gs_build_base::maker::{Maker, expr_made, exprs_made, type_made};
use gs_build_base::pieces::{Piece, Stop, Turn};
use gs_build_pairs::lists::Listed;
use gs_build_pairs::pairs::{
    comm_and_stmts, exprs_and_stmts, list_and_expr, two_exprs, types_and_stmts,
};
use gs_grammar::trees::{Clause, Comm, CommClause, TypeClause, TypeExpr};
use gs_places::at::{at_exprs, at_types};
use gs_places::front::{is_mark, mark};
use gs_places::rest::Rest;
use gs_rows::clauses::{
    comm, read_a_case, read_a_comm, read_a_comm_default, read_a_default, read_a_type_case,
    read_a_type_default, read_comm_assign, read_comm_define, read_comm_send, read_one_type,
};
use gs_rows_types::types::{type_by, type_name_by};
use gs_syntax::token::{Keyword, Operator, Token, TokenKind};
use sqlite_items::Items;
use std::alloc::Global;

/// The form `a_case` of the clauses of a switch.
#[inline(never)]
#[tactic(auto, unfolding(gs_grammar::specs::Reference::read_a_case, gs_build_base::specs::Pieces::joined))]
fn turn_a_case<'a, M: Maker>(make: &M, x: &'a Token, s: Rest<'a>) -> Result<Turn<'a, Clause>, Stop>
    requires faithful { M.is_faithful make.now }
    ensures { Turns (λ r. (stands r).clauses) result (reference.read_a_case s.entry.tokens.now stands x.now) }
{
    let (p, r0) = first_word_span(Keyword::Case, x, s).ok_or(Stop::Absent)?;
    let f1 = at_exprs(false, r0).ok_or(Stop::Absent)?;
    let r2 = mark(Operator::Colon, f1.rest).ok_or(Stop::Absent)?;
    let exprs = make.make_exprs(false, r0);
    let stmts = make.make_stmts(r2);
    let Piece {
        tree: (es, ts),
        rest: r3,
    } = exprs_and_stmts(exprs, stmts)?;
    Ok(Turn::More(Clause::Case(p, es, ts), r3))
}

/// The form `a_default` of the clauses of a switch.
#[inline(never)]
#[tactic(auto, unfolding(gs_grammar::specs::Reference::read_a_default, gs_build_base::specs::Pieces::joined))]
fn turn_a_default<'a, M: Maker>(
    make: &M,
    x: &'a Token,
    s: Rest<'a>,
) -> Result<Turn<'a, Clause>, Stop>
    requires faithful { M.is_faithful make.now }
    ensures { Turns (λ r. (stands r).clauses) result (reference.read_a_default s.entry.tokens.now stands x.now) }
{
    let (p, r0) = first_word_span(Keyword::Default, x, s).ok_or(Stop::Absent)?;
    let r1 = mark(Operator::Colon, r0).ok_or(Stop::Absent)?;
    let Piece { tree: ts, rest: r2 } = make.make_stmts(r1)?;
    Ok(Turn::More(Clause::Default(p, ts), r2))
}

/// What the clauses of a switch have at the place.
#[tactic(auto, using(gs_places::proofs::Laws::at_clauses, gs_places::proofs::Laws::end_clauses), unfolding(gs_grammar::specs::Reference::clauses_step, gs_grammar::specs::Reference::read_no_clauses, gs_grammar::specs::Front::mark_at))]
fn clauses_turn<'a, M: Maker>(make: &M, s: Rest<'a>) -> Result<Turn<'a, Clause>, Stop>
    requires faithful { M.is_faithful make.now }
    ensures { Turns (λ r. (stands r).clauses) result ((stands s.entry.tokens.now).clauses) }
{
    let (x, rest) = s.next().ok_or(Stop::Absent)?;
    if read_a_case(x, rest).is_some() {
        return turn_a_case(make, x, rest);
    }
    if read_a_default(x, rest).is_some() {
        return turn_a_default(make, x, rest);
    }
    if is_mark(Operator::RightBrace, &x.kind) {
        Ok(Turn::End(s))
    } else {
        Err(Stop::Absent)
    }
}

/// The clauses of a switch of the place. There are at most as many as tokens.
#[tactic(auto, using(gs_build_base::proofs::Joins::joined_start, gs_build_base::proofs::Joins::joined_more, gs_build_base::proofs::Joins::joined_last, gs_build_base::proofs::Joins::joined_end, gs_build_base::proofs::Joins::joined_none))]
pub fn clauses_tree<'a, M: Maker>(
    alloc: Global,
    make: &M,
    s: Rest<'a>,
) -> Result<Piece<'a, Items<Clause>>, Stop>
    requires faithful { M.is_faithful make.now }
    ensures { Builds result ((stands s.entry.tokens.now).clauses) }
{
    let mut found = Items::new(alloc);
    let mut rest = s;
    'turns: while found.len() <= s.tokens.len() {
        match clauses_turn(make, rest) {
            Ok(Turn::More(item, more)) => {
                found = Listed::grown(found, item)?;
                rest = more;
            }
            Ok(Turn::Last(item, more)) => {
                found = Listed::grown(found, item)?;
                return Ok(Piece {
                    tree: found,
                    rest: more,
                });
            }
            Ok(Turn::End(more)) => return Ok(Piece {
                tree: found,
                rest: more,
            }),
            Err(stop) => {
                Listed::let_go(found);
                return Err(stop);
            }
        }
    }
    Listed::let_go(found);
    Err(Stop::Absent)
}

/// The form `one_type` of the types.
#[inline(never)]
#[tactic(auto, unfolding(gs_grammar::specs::Reference::read_one_type, gs_build_base::specs::Pieces::joined))]
fn turn_one_type<'a, M: Maker>(
    make: &M,
    place: Rest<'a>,
    x: &'a Token,
    s: Rest<'a>,
) -> Result<Turn<'a, TypeExpr>, Stop>
    requires faithful { M.is_faithful make.now }
    requires here { place.tokens.now ≡ x.now ∷ s.tokens.now }
    ensures { Turns (λ r. (stands r).types) result (reference.read_one_type s.entry.tokens.now stands x.now) }
{
    let f0 = type_by(type_name_by(x, s), x, s).ok_or(Stop::Absent)?;
    if mark(Operator::Comma, f0.rest).is_some() {
        return Err(Stop::Absent);
    }
    let t = type_made(make, place, x, s)?.tree;
    Ok(Turn::Last(t, f0.rest))
}

/// The form `more_cases` of the types.
#[inline(never)]
#[tactic(auto, unfolding(gs_grammar::specs::Reference::read_more_cases, gs_build_base::specs::Pieces::joined))]
fn turn_more_cases<'a, M: Maker>(
    make: &M,
    place: Rest<'a>,
    x: &'a Token,
    s: Rest<'a>,
) -> Result<Turn<'a, TypeExpr>, Stop>
    requires faithful { M.is_faithful make.now }
    requires here { place.tokens.now ≡ x.now ∷ s.tokens.now }
    ensures { Turns (λ r. (stands r).types) result (reference.read_more_cases s.entry.tokens.now stands x.now) }
{
    let f0 = type_by(type_name_by(x, s), x, s).ok_or(Stop::Absent)?;
    let r1 = mark(Operator::Comma, f0.rest).ok_or(Stop::Absent)?;
    let t = type_made(make, place, x, s)?.tree;
    Ok(Turn::More(t, r1))
}

/// What the types have at the place.
#[tactic(auto, using(gs_places::proofs::Laws::at_types, gs_places::proofs::Laws::end_types), unfolding(gs_grammar::specs::Reference::types_step))]
fn types_turn<'a, M: Maker>(make: &M, s: Rest<'a>) -> Result<Turn<'a, TypeExpr>, Stop>
    requires faithful { M.is_faithful make.now }
    ensures { Turns (λ r. (stands r).types) result ((stands s.entry.tokens.now).types) }
{
    let (x, rest) = s.next().ok_or(Stop::Absent)?;
    let found_type = type_here(s, x, rest);
    if read_one_type(found_type, x, rest).is_some() {
        return turn_one_type(make, s, x, rest);
    }
    turn_more_cases(make, s, x, rest)
}

/// The types of the place. There are at most as many as tokens.
#[tactic(auto, using(gs_build_base::proofs::Joins::joined_start, gs_build_base::proofs::Joins::joined_more, gs_build_base::proofs::Joins::joined_last, gs_build_base::proofs::Joins::joined_end, gs_build_base::proofs::Joins::joined_none))]
pub fn types_tree<'a, M: Maker>(
    alloc: Global,
    make: &M,
    s: Rest<'a>,
) -> Result<Piece<'a, Items<TypeExpr>>, Stop>
    requires faithful { M.is_faithful make.now }
    ensures { Builds result ((stands s.entry.tokens.now).types) }
{
    let mut found = Items::new(alloc);
    let mut rest = s;
    'turns: while found.len() <= s.tokens.len() {
        match types_turn(make, rest) {
            Ok(Turn::More(item, more)) => {
                found = Listed::grown(found, item)?;
                rest = more;
            }
            Ok(Turn::Last(item, more)) => {
                found = Listed::grown(found, item)?;
                return Ok(Piece {
                    tree: found,
                    rest: more,
                });
            }
            Ok(Turn::End(more)) => return Ok(Piece {
                tree: found,
                rest: more,
            }),
            Err(stop) => {
                Listed::let_go(found);
                return Err(stop);
            }
        }
    }
    Listed::let_go(found);
    Err(Stop::Absent)
}

/// The form `a_type_case` of the clauses of a type switch.
#[inline(never)]
#[tactic(auto, unfolding(gs_grammar::specs::Reference::read_a_type_case, gs_build_base::specs::Pieces::joined))]
fn turn_a_type_case<'a, M: Maker>(
    alloc: Global,
    make: &M,
    x: &'a Token,
    s: Rest<'a>,
) -> Result<Turn<'a, TypeClause>, Stop>
    requires faithful { M.is_faithful make.now }
    ensures { Turns (λ r. (stands r).type_clauses) result (reference.read_a_type_case s.entry.tokens.now stands x.now) }
{
    let (p, r0) = first_word_span(Keyword::Case, x, s).ok_or(Stop::Absent)?;
    let f1 = at_types(r0).ok_or(Stop::Absent)?;
    let r2 = mark(Operator::Colon, f1.rest).ok_or(Stop::Absent)?;
    let types = types_tree(alloc, make, r0);
    let stmts = make.make_stmts(r2);
    let Piece {
        tree: (us, ts),
        rest: r3,
    } = types_and_stmts(types, stmts)?;
    Ok(Turn::More(TypeClause::Case(p, us, ts), r3))
}

/// The form `a_type_default` of the clauses of a type switch.
#[inline(never)]
#[tactic(auto, unfolding(gs_grammar::specs::Reference::read_a_type_default, gs_build_base::specs::Pieces::joined))]
fn turn_a_type_default<'a, M: Maker>(
    make: &M,
    x: &'a Token,
    s: Rest<'a>,
) -> Result<Turn<'a, TypeClause>, Stop>
    requires faithful { M.is_faithful make.now }
    ensures { Turns (λ r. (stands r).type_clauses) result (reference.read_a_type_default s.entry.tokens.now stands x.now) }
{
    let (p, r0) = first_word_span(Keyword::Default, x, s).ok_or(Stop::Absent)?;
    let r1 = mark(Operator::Colon, r0).ok_or(Stop::Absent)?;
    let Piece { tree: ts, rest: r2 } = make.make_stmts(r1)?;
    Ok(Turn::More(TypeClause::Default(p, ts), r2))
}

/// What the clauses of a type switch have at the place.
#[tactic(auto, using(gs_places::proofs::Laws::at_type_clauses, gs_places::proofs::Laws::end_type_clauses), unfolding(gs_grammar::specs::Reference::type_clauses_step, gs_grammar::specs::Reference::read_no_type_clauses, gs_grammar::specs::Front::mark_at))]
fn type_clauses_turn<'a, M: Maker>(
    alloc: Global,
    make: &M,
    s: Rest<'a>,
) -> Result<Turn<'a, TypeClause>, Stop>
    requires faithful { M.is_faithful make.now }
    ensures { Turns (λ r. (stands r).type_clauses) result ((stands s.entry.tokens.now).type_clauses) }
{
    let (x, rest) = s.next().ok_or(Stop::Absent)?;
    if read_a_type_case(x, rest).is_some() {
        return turn_a_type_case(alloc, make, x, rest);
    }
    if read_a_type_default(x, rest).is_some() {
        return turn_a_type_default(make, x, rest);
    }
    if is_mark(Operator::RightBrace, &x.kind) {
        Ok(Turn::End(s))
    } else {
        Err(Stop::Absent)
    }
}

/// The clauses of a type switch of the place. There are at most as many as tokens.
#[tactic(auto, using(gs_build_base::proofs::Joins::joined_start, gs_build_base::proofs::Joins::joined_more, gs_build_base::proofs::Joins::joined_last, gs_build_base::proofs::Joins::joined_end, gs_build_base::proofs::Joins::joined_none))]
pub fn type_clauses_tree<'a, M: Maker>(
    alloc: Global,
    make: &M,
    s: Rest<'a>,
) -> Result<Piece<'a, Items<TypeClause>>, Stop>
    requires faithful { M.is_faithful make.now }
    ensures { Builds result ((stands s.entry.tokens.now).type_clauses) }
{
    let mut found = Items::new(alloc);
    let mut rest = s;
    'turns: while found.len() <= s.tokens.len() {
        match type_clauses_turn(alloc, make, rest) {
            Ok(Turn::More(item, more)) => {
                found = Listed::grown(found, item)?;
                rest = more;
            }
            Ok(Turn::Last(item, more)) => {
                found = Listed::grown(found, item)?;
                return Ok(Piece {
                    tree: found,
                    rest: more,
                });
            }
            Ok(Turn::End(more)) => return Ok(Piece {
                tree: found,
                rest: more,
            }),
            Err(stop) => {
                Listed::let_go(found);
                return Err(stop);
            }
        }
    }
    Listed::let_go(found);
    Err(Stop::Absent)
}

/// The form `comm_assign` of the communication.
#[inline(never)]
#[tactic(auto, unfolding(gs_grammar::specs::Reference::read_comm_assign))]
fn build_comm_assign<'a, M: Maker>(
    make: &M,
    place: Rest<'a>,
    x: &'a Token,
    s: Rest<'a>,
) -> Result<Piece<'a, Comm>, Stop>
    requires faithful { M.is_faithful make.now }
    requires here { place.tokens.now ≡ x.now ∷ s.tokens.now }
    ensures { Builds result (reference.read_comm_assign s.entry.tokens.now stands x.now) }
{
    let f0 = exprs_here(false, place, x, s).ok_or(Stop::Absent)?;
    let (p, r1) = mark_span(Operator::Assign, f0.rest).ok_or(Stop::Absent)?;
    let left = exprs_made(make, false, place, x, s);
    let right = make.make_expr(5, false, false, r1);
    let Piece {
        tree: (ts, u),
        rest: r2,
    } = list_and_expr(left, right)?;
    Ok(Piece {
        tree: Comm::Assign(ts, p, u),
        rest: r2,
    })
}

/// The form `comm_define` of the communication.
#[inline(never)]
#[tactic(auto, unfolding(gs_grammar::specs::Reference::read_comm_define))]
fn build_comm_define<'a, M: Maker>(
    make: &M,
    place: Rest<'a>,
    x: &'a Token,
    s: Rest<'a>,
) -> Result<Piece<'a, Comm>, Stop>
    requires faithful { M.is_faithful make.now }
    requires here { place.tokens.now ≡ x.now ∷ s.tokens.now }
    ensures { Builds result (reference.read_comm_define s.entry.tokens.now stands x.now) }
{
    let f0 = exprs_here(false, place, x, s).ok_or(Stop::Absent)?;
    let (p, r1) = mark_span(Operator::Define, f0.rest).ok_or(Stop::Absent)?;
    let left = exprs_made(make, false, place, x, s);
    let right = make.make_expr(5, false, false, r1);
    let Piece {
        tree: (ts, u),
        rest: r2,
    } = list_and_expr(left, right)?;
    Ok(Piece {
        tree: Comm::Define(ts, p, u),
        rest: r2,
    })
}

/// The form `comm_send` of the communication.
#[inline(never)]
#[tactic(auto, unfolding(gs_grammar::specs::Reference::read_comm_send))]
fn build_comm_send<'a, M: Maker>(
    make: &M,
    place: Rest<'a>,
    x: &'a Token,
    s: Rest<'a>,
) -> Result<Piece<'a, Comm>, Stop>
    requires faithful { M.is_faithful make.now }
    requires here { place.tokens.now ≡ x.now ∷ s.tokens.now }
    ensures { Builds result (reference.read_comm_send s.entry.tokens.now stands x.now) }
{
    let f0 = expr_here(5, false, place, x, s).ok_or(Stop::Absent)?;
    let (p, r1) = mark_span(Operator::Arrow, f0.rest).ok_or(Stop::Absent)?;
    let left = expr_made(make, 5, false, false, place, x, s);
    let right = make.make_expr(5, false, false, r1);
    let Piece {
        tree: (t, u),
        rest: r2,
    } = two_exprs(left, right)?;
    Ok(Piece {
        tree: Comm::Send(
            t,
            Token {
                kind: TokenKind::Operator(Operator::Arrow),
                span: p,
            },
            u,
        ),
        rest: r2,
    })
}

/// The form `comm_receive` of the communication.
#[inline(never)]
#[tactic(auto, unfolding(gs_grammar::specs::Reference::read_comm_receive))]
fn build_comm_receive<'a, M: Maker>(
    make: &M,
    place: Rest<'a>,
    x: &'a Token,
    s: Rest<'a>,
) -> Result<Piece<'a, Comm>, Stop>
    requires faithful { M.is_faithful make.now }
    requires here { place.tokens.now ≡ x.now ∷ s.tokens.now }
    ensures { Builds result (reference.read_comm_receive s.entry.tokens.now stands x.now) }
{
    let f0 = expr_here(5, false, place, x, s).ok_or(Stop::Absent)?;
    if mark(Operator::Colon, f0.rest).is_none() {
        return Err(Stop::Absent);
    }
    let t = expr_made(make, 5, false, false, place, x, s)?.tree;
    Ok(Piece {
        tree: Comm::Receive(t),
        rest: f0.rest,
    })
}

/// The communication that begins with the token.
#[tactic(auto, unfolding(gs_grammar::specs::Reference::comm_step))]
pub fn comm_from<'a, M: Maker>(
    make: &M,
    place: Rest<'a>,
    x: &'a Token,
    s: Rest<'a>,
) -> Result<Piece<'a, Comm>, Stop>
    requires faithful { M.is_faithful make.now }
    requires here { place.tokens.now ≡ x.now ∷ s.tokens.now }
    ensures { Builds result (reference.comm_step s.entry.tokens.now stands x.now) }
{
    let exprs = exprs_here(false, place, x, s);
    let expr = expr_here(5, false, place, x, s);
    if read_comm_assign(exprs, x, s).is_some() {
        return build_comm_assign(make, place, x, s);
    }
    if read_comm_define(exprs, x, s).is_some() {
        return build_comm_define(make, place, x, s);
    }
    if read_comm_send(expr, x, s).is_some() {
        return build_comm_send(make, place, x, s);
    }
    build_comm_receive(make, place, x, s)
}

/// The communication of the place.
#[tactic(auto, using(gs_places::proofs::Laws::at_comm, gs_places::proofs::Laws::end_comm))]
pub fn comm_tree<'a, M: Maker>(make: &M, s: Rest<'a>) -> Result<Piece<'a, Comm>, Stop>
    requires faithful { M.is_faithful make.now }
    ensures { Builds result ((stands s.entry.tokens.now).comm) }
{
    let (x, rest) = s.next().ok_or(Stop::Absent)?;
    comm_from(make, s, x, rest)
}

/// The form `a_comm` of the clauses of a select.
#[inline(never)]
#[tactic(auto, unfolding(gs_grammar::specs::Reference::read_a_comm, gs_build_base::specs::Pieces::joined))]
fn turn_a_comm<'a, M: Maker>(
    make: &M,
    x: &'a Token,
    s: Rest<'a>,
) -> Result<Turn<'a, CommClause>, Stop>
    requires faithful { M.is_faithful make.now }
    ensures { Turns (λ r. (stands r).comm_clauses) result (reference.read_a_comm s.entry.tokens.now stands x.now) }
{
    let (p, r0) = first_word_span(Keyword::Case, x, s).ok_or(Stop::Absent)?;
    let f1 = comm(r0).ok_or(Stop::Absent)?;
    let r2 = mark(Operator::Colon, f1.rest).ok_or(Stop::Absent)?;
    let found = comm_tree(make, r0);
    let stmts = make.make_stmts(r2);
    let Piece {
        tree: (c, ts),
        rest: r3,
    } = comm_and_stmts(found, stmts)?;
    Ok(Turn::More(CommClause::Case(p, c, ts), r3))
}

/// The form `a_comm_default` of the clauses of a select.
#[inline(never)]
#[tactic(auto, unfolding(gs_grammar::specs::Reference::read_a_comm_default, gs_build_base::specs::Pieces::joined))]
fn turn_a_comm_default<'a, M: Maker>(
    make: &M,
    x: &'a Token,
    s: Rest<'a>,
) -> Result<Turn<'a, CommClause>, Stop>
    requires faithful { M.is_faithful make.now }
    ensures { Turns (λ r. (stands r).comm_clauses) result (reference.read_a_comm_default s.entry.tokens.now stands x.now) }
{
    let (p, r0) = first_word_span(Keyword::Default, x, s).ok_or(Stop::Absent)?;
    let r1 = mark(Operator::Colon, r0).ok_or(Stop::Absent)?;
    let Piece { tree: ts, rest: r2 } = make.make_stmts(r1)?;
    Ok(Turn::More(CommClause::Default(p, ts), r2))
}

/// What the clauses of a select have at the place.
#[tactic(auto, using(gs_places::proofs::Laws::at_comm_clauses, gs_places::proofs::Laws::end_comm_clauses), unfolding(gs_grammar::specs::Reference::comm_clauses_step, gs_grammar::specs::Reference::read_no_comms, gs_grammar::specs::Front::mark_at))]
fn comm_clauses_turn<'a, M: Maker>(make: &M, s: Rest<'a>) -> Result<Turn<'a, CommClause>, Stop>
    requires faithful { M.is_faithful make.now }
    ensures { Turns (λ r. (stands r).comm_clauses) result ((stands s.entry.tokens.now).comm_clauses) }
{
    let (x, rest) = s.next().ok_or(Stop::Absent)?;
    if read_a_comm(x, rest).is_some() {
        return turn_a_comm(make, x, rest);
    }
    if read_a_comm_default(x, rest).is_some() {
        return turn_a_comm_default(make, x, rest);
    }
    if is_mark(Operator::RightBrace, &x.kind) {
        Ok(Turn::End(s))
    } else {
        Err(Stop::Absent)
    }
}

/// The clauses of a select of the place. There are at most as many as tokens.
#[tactic(auto, using(gs_build_base::proofs::Joins::joined_start, gs_build_base::proofs::Joins::joined_more, gs_build_base::proofs::Joins::joined_last, gs_build_base::proofs::Joins::joined_end, gs_build_base::proofs::Joins::joined_none))]
pub fn comm_clauses_tree<'a, M: Maker>(
    alloc: Global,
    make: &M,
    s: Rest<'a>,
) -> Result<Piece<'a, Items<CommClause>>, Stop>
    requires faithful { M.is_faithful make.now }
    ensures { Builds result ((stands s.entry.tokens.now).comm_clauses) }
{
    let mut found = Items::new(alloc);
    let mut rest = s;
    'turns: while found.len() <= s.tokens.len() {
        match comm_clauses_turn(make, rest) {
            Ok(Turn::More(item, more)) => {
                found = Listed::grown(found, item)?;
                rest = more;
            }
            Ok(Turn::Last(item, more)) => {
                found = Listed::grown(found, item)?;
                return Ok(Piece {
                    tree: found,
                    rest: more,
                });
            }
            Ok(Turn::End(more)) => return Ok(Piece {
                tree: found,
                rest: more,
            }),
            Err(stop) => {
                Listed::let_go(found);
                return Err(stop);
            }
        }
    }
    Listed::let_go(found);
    Err(Stop::Absent)
}
