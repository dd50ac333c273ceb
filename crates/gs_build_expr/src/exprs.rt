//! Trees of expressions.
ghost use Rattle.std.specs.Prelude.{◌≡◌, ◌≤◌, ◌∷◌, suc};
ghost use Rattle.gs_grammar.specs.Steps as steps;
ghost use Rattle.gs_places.specs.Places.{stands};
ghost use Rattle.gs_build_base.specs.Pieces.{Builds, Turns};

use gs_build_base::copies::copy;
use gs_build_base::here::expr_here;
use gs_build_base::maker::Maker;
use gs_build_base::pieces::{Piece, Stop, Turn};
use gs_build_operands::operands::unary_from;
use gs_build_pairs::lists::Listed;
use gs_build_pairs::nodes::with_operands;
use gs_build_pairs::pairs::expr_and_operands;
use gs_grammar::trees::Expr;
use gs_places::classes::is_binary;
use gs_places::front::mark;
use gs_places::rest::Rest;
use gs_rows_expr::lists::{operand_by, read_one_expr};
use gs_syntax::token::{Operator, Token};
use sqlite_items::Items;
use std::alloc::Global;

/// The expression with one more precedence of operators outside brackets.
#[tactic(auto, unfolding(gs_grammar::specs::Steps::expr_step))]
fn looser<'a, M: Maker>(
    alloc: Global,
    make: &M,
    level: u8,
    header: bool,
    first: bool,
    tighter: Result<Piece<'a, Expr>, Stop>,
    x: &'a Token,
    s: Rest<'a>,
) -> Result<Piece<'a, Expr>, Stop>
    requires faithful { M.is_faithful make.now }
    requires low { level ≤ 4 }
    requires tighter { Builds tighter (steps.expr_step s.tokens.now stands level header first x.now) }
    ensures { Builds result (steps.expr_step s.entry.tokens.now stands (suc level) header first x.now) }
{
    let tighter = tighter?;
    let operands = operands_tree(alloc, make, level, header, tighter.rest);
    let Piece {
        tree: (t, os),
        rest: r1,
    } = expr_and_operands(Ok(tighter), operands)?;
    Ok(Piece {
        tree: with_operands(alloc, t, os)?,
        rest: r1,
    })
}

/// The expression that begins with the token.
#[tactic(auto, unfolding(gs_grammar::specs::Steps::expr_step))]
pub fn expr_from<'a, M: Maker>(
    alloc: Global,
    make: &M,
    level: u8,
    header: bool,
    first: bool,
    place: Rest<'a>,
    x: &'a Token,
    s: Rest<'a>,
) -> Result<Piece<'a, Expr>, Stop>
    requires faithful { M.is_faithful make.now }
    requires low { level ≤ 5 }
    requires here { place.tokens.now ≡ x.now ∷ s.tokens.now }
    ensures { Builds result (steps.expr_step s.entry.tokens.now stands level header first x.now) }
{
    let found = unary_from(alloc, make, header, first, place, x, s);
    if level == 0 {
        return found;
    }
    let found = looser(alloc, make, 0, header, first, found, x, s);
    if level == 1 {
        return found;
    }
    let found = looser(alloc, make, 1, header, first, found, x, s);
    if level == 2 {
        return found;
    }
    let found = looser(alloc, make, 2, header, first, found, x, s);
    if level == 3 {
        return found;
    }
    let found = looser(alloc, make, 3, header, first, found, x, s);
    if level == 4 {
        return found;
    }
    let found = looser(alloc, make, 4, header, first, found, x, s);
    if level == 5 {
        return found;
    }
    unreachable!()
}

/// The expression of the place.
#[tactic(auto, using(gs_places::proofs::Laws::at_expr, gs_places::proofs::Laws::end_expr))]
pub fn expr_tree<'a, M: Maker>(
    alloc: Global,
    make: &M,
    level: u8,
    header: bool,
    first: bool,
    s: Rest<'a>,
) -> Result<Piece<'a, Expr>, Stop>
    requires faithful { M.is_faithful make.now }
    requires low { level ≤ 5 }
    ensures { Builds result ((stands s.entry.tokens.now).expr level header first) }
{
    let (x, rest) = s.next().ok_or(Stop::Absent)?;
    expr_from(alloc, make, level, header, first, s, x, rest)
}

/// The form `operand` of the operator with its right operand.
#[inline(never)]
#[tactic(auto, unfolding(gs_grammar::specs::Steps::read_operand, gs_grammar::specs::Front::front_at))]
fn build_operand<'a, M: Maker>(
    alloc: Global,
    make: &M,
    level: u8,
    header: bool,
    x: &'a Token,
    s: Rest<'a>,
) -> Result<Piece<'a, (Token, Expr)>, Stop>
    requires faithful { M.is_faithful make.now }
    requires low { level ≤ 4 }
    ensures { Builds result (steps.read_operand s.entry.tokens.now stands level header x.now) }
{
    if !is_binary(level, &x.kind) {
        return Err(Stop::Absent);
    }
    let token = copy(alloc, x)?;
    let Piece { tree: t, rest: r1 } = make.make_expr(level, header, false, s)?;
    Ok(Piece {
        tree: (token, t),
        rest: r1,
    })
}

/// The operator with its right operand that begins with the token.
#[tactic(auto, unfolding(gs_grammar::specs::Steps::operand_step))]
pub fn operand_from<'a, M: Maker>(
    alloc: Global,
    make: &M,
    level: u8,
    header: bool,
    x: &'a Token,
    s: Rest<'a>,
) -> Result<Piece<'a, (Token, Expr)>, Stop>
    requires faithful { M.is_faithful make.now }
    requires low { level ≤ 4 }
    ensures { Builds result (steps.operand_step s.entry.tokens.now stands level header x.now) }
{
    build_operand(alloc, make, level, header, x, s)
}

/// The form `more_operands` of the operators with their right operands.
#[inline(never)]
#[tactic(auto, unfolding(gs_grammar::specs::Steps::read_more_operands, gs_build_base::specs::Pieces::joined))]
fn turn_more_operands<'a, M: Maker>(
    alloc: Global,
    make: &M,
    level: u8,
    header: bool,
    x: &'a Token,
    s: Rest<'a>,
) -> Result<Turn<'a, (Token, Expr)>, Stop>
    requires faithful { M.is_faithful make.now }
    requires low { level ≤ 4 }
    ensures { Turns (λ r. (stands r).operands level header) result (steps.read_more_operands s.entry.tokens.now stands level header x.now) }
{
    let Piece {
        tree: item,
        rest: r0,
    } = operand_from(alloc, make, level, header, x, s)?;
    Ok(Turn::More(item, r0))
}

/// What the operators with their right operands have at the place.
#[tactic(auto, using(gs_places::proofs::Laws::at_operands, gs_places::proofs::Laws::end_operands, gs_rows_expr::proofs::Greedy::operands_stay, gs_rows_expr::proofs::Greedy::operands_go))]
fn operands_turn<'a, M: Maker>(
    alloc: Global,
    make: &M,
    level: u8,
    header: bool,
    s: Rest<'a>,
) -> Result<Turn<'a, (Token, Expr)>, Stop>
    requires faithful { M.is_faithful make.now }
    requires low { level ≤ 4 }
    ensures { Turns (λ r. (stands r).operands level header) result ((stands s.entry.tokens.now).operands level header) }
{
    let Some((x, rest)) = s.next() else {
        return Ok(Turn::End(s));
    };
    if operand_by(level, header, x, rest).is_none() {
        return Ok(Turn::End(s));
    }
    turn_more_operands(alloc, make, level, header, x, rest)
}

/// The operators with their right operands of the place. There are at most as many as tokens.
#[tactic(auto, using(gs_build_base::proofs::Joins::joined_start, gs_build_base::proofs::Joins::joined_more, gs_build_base::proofs::Joins::joined_last, gs_build_base::proofs::Joins::joined_end, gs_build_base::proofs::Joins::joined_none))]
pub fn operands_tree<'a, M: Maker>(
    alloc: Global,
    make: &M,
    level: u8,
    header: bool,
    s: Rest<'a>,
) -> Result<Piece<'a, Items<(Token, Expr)>>, Stop>
    requires faithful { M.is_faithful make.now }
    requires low { level ≤ 4 }
    ensures { Builds result ((stands s.entry.tokens.now).operands level header) }
{
    let mut found = Items::new(alloc);
    let mut rest = s;
    'turns: while found.len() <= s.tokens.len() {
        match operands_turn(alloc, make, level, header, rest) {
            Ok(Turn::More(item, more)) => {
                found = Listed::grown(found, item)?;
                rest = more;
            }
            Ok(Turn::Last(item, more)) => {
                found = Listed::grown(found, item)?;
                return Ok(Piece {
                    tree: found,
                    rest: more,
                });
            }
            Ok(Turn::End(more)) => return Ok(Piece {
                tree: found,
                rest: more,
            }),
            Err(stop) => {
                Listed::let_go(found);
                return Err(stop);
            }
        }
    }
    Listed::let_go(found);
    Err(Stop::Absent)
}

/// The form `one_expr` of the expressions.
#[inline(never)]
#[tactic(auto, unfolding(gs_grammar::specs::Steps::read_one_expr, gs_build_base::specs::Pieces::joined))]
fn turn_one_expr<'a, M: Maker>(
    alloc: Global,
    make: &M,
    header: bool,
    place: Rest<'a>,
    x: &'a Token,
    s: Rest<'a>,
) -> Result<Turn<'a, Expr>, Stop>
    requires faithful { M.is_faithful make.now }
    requires here { place.tokens.now ≡ x.now ∷ s.tokens.now }
    ensures { Turns (λ r. (stands r).exprs header) result (steps.read_one_expr s.entry.tokens.now stands header x.now) }
{
    let f0 = expr_here(5, header, place, x, s).ok_or(Stop::Absent)?;
    if mark(Operator::Comma, f0.rest).is_some() {
        return Err(Stop::Absent);
    }
    let t = expr_from(alloc, make, 5, header, false, place, x, s)?.tree;
    Ok(Turn::Last(t, f0.rest))
}

/// The form `more_exprs` of the expressions.
#[inline(never)]
#[tactic(auto, unfolding(gs_grammar::specs::Steps::read_more_exprs, gs_build_base::specs::Pieces::joined))]
fn turn_more_exprs<'a, M: Maker>(
    alloc: Global,
    make: &M,
    header: bool,
    place: Rest<'a>,
    x: &'a Token,
    s: Rest<'a>,
) -> Result<Turn<'a, Expr>, Stop>
    requires faithful { M.is_faithful make.now }
    requires here { place.tokens.now ≡ x.now ∷ s.tokens.now }
    ensures { Turns (λ r. (stands r).exprs header) result (steps.read_more_exprs s.entry.tokens.now stands header x.now) }
{
    let f0 = expr_here(5, header, place, x, s).ok_or(Stop::Absent)?;
    let r1 = mark(Operator::Comma, f0.rest).ok_or(Stop::Absent)?;
    let t = expr_from(alloc, make, 5, header, false, place, x, s)?.tree;
    Ok(Turn::More(t, r1))
}

/// What the expressions have at the place.
#[tactic(auto, using(gs_places::proofs::Laws::at_exprs, gs_places::proofs::Laws::end_exprs), unfolding(gs_grammar::specs::Steps::exprs_step))]
fn exprs_turn<'a, M: Maker>(
    alloc: Global,
    make: &M,
    header: bool,
    s: Rest<'a>,
) -> Result<Turn<'a, Expr>, Stop>
    requires faithful { M.is_faithful make.now }
    ensures { Turns (λ r. (stands r).exprs header) result ((stands s.entry.tokens.now).exprs header) }
{
    let (x, rest) = s.next().ok_or(Stop::Absent)?;
    let found = expr_here(5, header, s, x, rest);
    if read_one_expr(header, found, x, rest).is_some() {
        return turn_one_expr(alloc, make, header, s, x, rest);
    }
    turn_more_exprs(alloc, make, header, s, x, rest)
}

/// The expressions of the place. There are at most as many as tokens.
#[tactic(auto, using(gs_build_base::proofs::Joins::joined_start, gs_build_base::proofs::Joins::joined_more, gs_build_base::proofs::Joins::joined_last, gs_build_base::proofs::Joins::joined_end, gs_build_base::proofs::Joins::joined_none))]
pub fn exprs_tree<'a, M: Maker>(
    alloc: Global,
    make: &M,
    header: bool,
    s: Rest<'a>,
) -> Result<Piece<'a, Items<Expr>>, Stop>
    requires faithful { M.is_faithful make.now }
    ensures { Builds result ((stands s.entry.tokens.now).exprs header) }
{
    let mut found = Items::new(alloc);
    let mut rest = s;
    'turns: while found.len() <= s.tokens.len() {
        match exprs_turn(alloc, make, header, rest) {
            Ok(Turn::More(item, more)) => {
                found = Listed::grown(found, item)?;
                rest = more;
            }
            Ok(Turn::Last(item, more)) => {
                found = Listed::grown(found, item)?;
                return Ok(Piece {
                    tree: found,
                    rest: more,
                });
            }
            Ok(Turn::End(more)) => return Ok(Piece {
                tree: found,
                rest: more,
            }),
            Err(stop) => {
                Listed::let_go(found);
                return Err(stop);
            }
        }
    }
    Listed::let_go(found);
    Err(Stop::Absent)
}

/// The expressions that begin with the token.
#[tactic(auto, using(gs_places::proofs::Laws::at_exprs))]
pub fn exprs_from<'a, M: Maker>(
    alloc: Global,
    make: &M,
    header: bool,
    place: Rest<'a>,
    x: &'a Token,
    s: Rest<'a>,
) -> Result<Piece<'a, Items<Expr>>, Stop>
    requires faithful { M.is_faithful make.now }
    requires here { place.tokens.now ≡ x.now ∷ s.tokens.now }
    ensures { Builds result (steps.exprs_step s.entry.tokens.now stands header x.now) }
{
    exprs_tree(alloc, make, header, place)
}
