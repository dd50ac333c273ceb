//! Trees of the arms of an if.
ghost use Rattle.std.specs.Prelude.{◌≡◌, ◌∷◌};
ghost use Rattle.gs_grammar.specs.Reference as reference;
ghost use Rattle.gs_places.specs.Places.{stands};
ghost use Rattle.gs_build_clauses.specs.Tails.{tail_of_header_arm};
ghost use Rattle.gs_build_base.specs.Pieces.{Builds, Gives, Parts};

use crate::simples::simple_from;
use gs_build_base::here::{expr_here, exprs_here};
use gs_build_base::maker::{Maker, expr_made};
use gs_build_base::pieces::{Part, Piece, Stop};
use gs_build_pairs::lists::{Listed, last_arm};
use gs_build_pairs::pairs::{arm_and_block, expr_and_block, header_and_block};
use gs_grammar::trees::{Arm, Block, Expr, Simple};
use gs_places::at::at_expr;
use gs_places::classes::is_semi;
use gs_places::front::{mark, semi, word};
use gs_places::rest::Rest;
use gs_rows::arms::{arm_by, read_bare_arm, read_header_arm, read_last_arm, read_more_arms};
use gs_rows::simples::simple_by;
use gs_syntax::token::{Keyword, Operator, Token};
use sqlite_items::Items;
use std::alloc::Global;

/// The end of the form `header_arm` of the arm of an if.
#[inline(never)]
#[tactic(auto, unfolding(crate::specs::Tails::tail_of_header_arm))]
fn build_header_arm_end<'a, M: Maker>(
    make: &M,
    s: Rest<'a>,
) -> Result<Piece<'a, (Expr, Block)>, Stop>
    requires faithful { M.is_faithful make.now }
    ensures { Gives result (tail_of_header_arm s.entry.tokens.now) }
{
    let f0 = at_expr(5, true, s).ok_or(Stop::Absent)?;
    expr_and_block(make.make_expr(5, true, false, s), make.make_block(f0.rest))
}

/// The form `header_arm` of the arm of an if.
#[inline(never)]
#[tactic(auto, unfolding(gs_grammar::specs::Reference::read_header_arm, crate::specs::Tails::tail_of_header_arm))]
fn build_header_arm<'a, M: Maker>(
    alloc: Global,
    make: &M,
    place: Rest<'a>,
    x: &'a Token,
    s: Rest<'a>,
) -> Result<Piece<'a, Arm>, Stop>
    requires faithful { M.is_faithful make.now }
    requires here { place.tokens.now ≡ x.now ∷ s.tokens.now }
    ensures { Builds result (reference.read_header_arm s.entry.tokens.now stands x.now) }
{
    let f0 = simple_by(
        true,
        exprs_here(true, place, x, s),
        expr_here(5, true, place, x, s),
        x,
        s,
    )
    .ok_or(Stop::Absent)?;
    let r1 = semi(f0.rest).ok_or(Stop::Absent)?;
    let header = simple_from(alloc, make, true, place, x, s);
    let end = build_header_arm_end(make, r1);
    let Piece {
        tree: (i, (c, b)),
        rest: r2,
    } = header_and_block(header, end)?;
    Ok(Piece {
        tree: Arm {
            header: i,
            condition: c,
            body: b,
        },
        rest: r2,
    })
}

/// The form `bare_arm` of the arm of an if.
#[inline(never)]
#[tactic(auto, unfolding(gs_grammar::specs::Reference::read_bare_arm))]
fn build_bare_arm<'a, M: Maker>(
    make: &M,
    place: Rest<'a>,
    x: &'a Token,
    s: Rest<'a>,
) -> Result<Piece<'a, Arm>, Stop>
    requires faithful { M.is_faithful make.now }
    requires here { place.tokens.now ≡ x.now ∷ s.tokens.now }
    ensures { Builds result (reference.read_bare_arm s.entry.tokens.now stands x.now) }
{
    let f0 = expr_here(5, true, place, x, s).ok_or(Stop::Absent)?;
    if mark(Operator::LeftBrace, f0.rest).is_none() {
        return Err(Stop::Absent);
    }
    let condition = expr_made(make, 5, true, false, place, x, s);
    let body = make.make_block(f0.rest);
    let Piece {
        tree: (c, b),
        rest: r2,
    } = expr_and_block(condition, body)?;
    Ok(Piece {
        tree: Arm {
            header: Simple::Empty,
            condition: c,
            body: b,
        },
        rest: r2,
    })
}

/// The form `empty_arm` of the arm of an if.
#[inline(never)]
#[tactic(auto, unfolding(gs_grammar::specs::Reference::read_empty_arm, gs_grammar::specs::Front::front_at))]
fn build_empty_arm<'a, M: Maker>(
    make: &M,
    x: &'a Token,
    s: Rest<'a>,
) -> Result<Piece<'a, Arm>, Stop>
    requires faithful { M.is_faithful make.now }
    ensures { Builds result (reference.read_empty_arm s.entry.tokens.now stands x.now) }
{
    if !is_semi(&x.kind) {
        return Err(Stop::Absent);
    }
    let f1 = at_expr(5, true, s).ok_or(Stop::Absent)?;
    let condition = make.make_expr(5, true, false, s);
    let body = make.make_block(f1.rest);
    let Piece {
        tree: (c, b),
        rest: r2,
    } = expr_and_block(condition, body)?;
    Ok(Piece {
        tree: Arm {
            header: Simple::Empty,
            condition: c,
            body: b,
        },
        rest: r2,
    })
}

/// The arm of an if that begins with the token.
#[tactic(auto, unfolding(gs_grammar::specs::Reference::arm_step))]
pub fn arm_from<'a, M: Maker>(
    alloc: Global,
    make: &M,
    place: Rest<'a>,
    x: &'a Token,
    s: Rest<'a>,
) -> Result<Piece<'a, Arm>, Stop>
    requires faithful { M.is_faithful make.now }
    requires here { place.tokens.now ≡ x.now ∷ s.tokens.now }
    ensures { Builds result (reference.arm_step s.entry.tokens.now stands x.now) }
{
    let simple = simple_by(
        true,
        exprs_here(true, place, x, s),
        expr_here(5, true, place, x, s),
        x,
        s,
    );
    let expr = expr_here(5, true, place, x, s);
    if read_header_arm(simple, x, s).is_some() {
        return build_header_arm(alloc, make, place, x, s);
    }
    if read_bare_arm(expr, x, s).is_some() {
        return build_bare_arm(make, place, x, s);
    }
    build_empty_arm(make, x, s)
}

/// The form `last_arm` of the arms of an if.
#[inline(never)]
#[tactic(auto, unfolding(gs_grammar::specs::Reference::read_last_arm, gs_build_base::specs::Pieces::joined_to))]
fn turn_last_arm<'a, M: Maker>(
    alloc: Global,
    make: &M,
    place: Rest<'a>,
    x: &'a Token,
    s: Rest<'a>,
) -> Result<Part<'a, Arm, Option<Block>>, Stop>
    requires faithful { M.is_faithful make.now }
    requires here { place.tokens.now ≡ x.now ∷ s.tokens.now }
    ensures { Parts (λ r. (stands r).arms) result (reference.read_last_arm s.entry.tokens.now stands x.now) }
{
    let f0 = arm_by(
        simple_by(
            true,
            exprs_here(true, place, x, s),
            expr_here(5, true, place, x, s),
            x,
            s,
        ),
        expr_here(5, true, place, x, s),
        x,
        s,
    )
    .ok_or(Stop::Absent)?;
    if word(Keyword::Else, f0.rest).is_some() {
        return Err(Stop::Absent);
    }
    let a = arm_from(alloc, make, place, x, s)?.tree;
    Ok(Part::Last(a, None, f0.rest))
}

/// The form `more_arms` of the arms of an if.
#[inline(never)]
#[tactic(auto, unfolding(gs_grammar::specs::Reference::read_more_arms, gs_build_base::specs::Pieces::joined_to))]
fn turn_more_arms<'a, M: Maker>(
    alloc: Global,
    make: &M,
    place: Rest<'a>,
    x: &'a Token,
    s: Rest<'a>,
) -> Result<Part<'a, Arm, Option<Block>>, Stop>
    requires faithful { M.is_faithful make.now }
    requires here { place.tokens.now ≡ x.now ∷ s.tokens.now }
    ensures { Parts (λ r. (stands r).arms) result (reference.read_more_arms s.entry.tokens.now stands x.now) }
{
    let f0 = arm_by(
        simple_by(
            true,
            exprs_here(true, place, x, s),
            expr_here(5, true, place, x, s),
            x,
            s,
        ),
        expr_here(5, true, place, x, s),
        x,
        s,
    )
    .ok_or(Stop::Absent)?;
    let r1 = word(Keyword::Else, f0.rest).ok_or(Stop::Absent)?;
    let r2 = word(Keyword::If, r1).ok_or(Stop::Absent)?;
    let a = arm_from(alloc, make, place, x, s)?.tree;
    Ok(Part::More(a, r2))
}

/// The form `last_block` of the arms of an if.
#[inline(never)]
#[tactic(auto, unfolding(gs_grammar::specs::Reference::read_last_block, gs_build_base::specs::Pieces::joined_to))]
fn turn_last_block<'a, M: Maker>(
    alloc: Global,
    make: &M,
    place: Rest<'a>,
    x: &'a Token,
    s: Rest<'a>,
) -> Result<Part<'a, Arm, Option<Block>>, Stop>
    requires faithful { M.is_faithful make.now }
    requires here { place.tokens.now ≡ x.now ∷ s.tokens.now }
    ensures { Parts (λ r. (stands r).arms) result (reference.read_last_block s.entry.tokens.now stands x.now) }
{
    let f0 = arm_by(
        simple_by(
            true,
            exprs_here(true, place, x, s),
            expr_here(5, true, place, x, s),
            x,
            s,
        ),
        expr_here(5, true, place, x, s),
        x,
        s,
    )
    .ok_or(Stop::Absent)?;
    let r1 = word(Keyword::Else, f0.rest).ok_or(Stop::Absent)?;
    if word(Keyword::If, r1).is_some() {
        return Err(Stop::Absent);
    }
    let arm = arm_from(alloc, make, place, x, s);
    let block = make.make_block(r1);
    let Piece {
        tree: (a, b),
        rest: r3,
    } = arm_and_block(arm, block)?;
    Ok(Part::Last(a, Some(b), r3))
}

/// What the arms of an if have at the place.
#[tactic(auto, using(gs_places::proofs::Laws::at_arms, gs_places::proofs::Laws::end_arms), unfolding(gs_grammar::specs::Reference::arms_step))]
fn arms_turn<'a, M: Maker>(
    alloc: Global,
    make: &M,
    s: Rest<'a>,
) -> Result<Part<'a, Arm, Option<Block>>, Stop>
    requires faithful { M.is_faithful make.now }
    ensures { Parts (λ r. (stands r).arms) result ((stands s.entry.tokens.now).arms) }
{
    let (x, rest) = s.next().ok_or(Stop::Absent)?;
    let found = arm_by(
        simple_by(
            true,
            exprs_here(true, s, x, rest),
            expr_here(5, true, s, x, rest),
            x,
            rest,
        ),
        expr_here(5, true, s, x, rest),
        x,
        rest,
    );
    if read_last_arm(found, x, rest).is_some() {
        return turn_last_arm(alloc, make, s, x, rest);
    }
    if read_more_arms(found, x, rest).is_some() {
        return turn_more_arms(alloc, make, s, x, rest);
    }
    turn_last_block(alloc, make, s, x, rest)
}

/// The arms of an if of the place. There are at most as many as tokens.
#[tactic(auto, using(gs_build_base::proofs::Joins::joined_to_start, gs_build_base::proofs::Joins::joined_to_more, gs_build_base::proofs::Joins::joined_to_last, gs_build_base::proofs::Joins::joined_to_end, gs_build_base::proofs::Joins::joined_to_none))]
pub fn arms_tree<'a, M: Maker>(
    alloc: Global,
    make: &M,
    s: Rest<'a>,
) -> Result<Piece<'a, (Items<Arm>, Option<Block>)>, Stop>
    requires faithful { M.is_faithful make.now }
    ensures { Builds result ((stands s.entry.tokens.now).arms) }
{
    let mut found = Items::new(alloc);
    let mut rest = s;
    'turns: while found.len() <= s.tokens.len() {
        match arms_turn(alloc, make, rest) {
            Ok(Part::More(item, more)) => {
                found = Listed::grown(found, item)?;
                rest = more;
            }
            Ok(Part::Last(item, end, more)) => return Ok(Piece {
                tree: last_arm(found, item, end)?,
                rest: more,
            }),
            Ok(Part::End(end, more)) => return Ok(Piece {
                tree: (found, end),
                rest: more,
            }),
            Err(stop) => {
                Listed::let_go(found);
                return Err(stop);
            }
        }
    }
    Listed::let_go(found);
    Err(Stop::Absent)
}
