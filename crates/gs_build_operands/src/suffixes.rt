//! Trees of what follows an operand.
ghost use Rattle.std.specs.Prelude.{◌≡◌, ◌∷◌};
ghost use Rattle.gs_grammar.specs.Steps as steps;
ghost use Rattle.gs_places.specs.Places.{stands};
ghost use Rattle.gs_build_operands.specs.Tails.{tail_of_full_slice};
ghost use Rattle.gs_build_base.specs.Pieces.{Builds, Gives, Parts, Turns};

use gs_build_base::copies::copy;
use gs_build_base::front::{mark_span, name_token};
use gs_build_base::here::{expr_here, inner_here};
use gs_build_base::maker::{Maker, expr_made};
use gs_build_base::pieces::{Part, Piece, Stop, Turn};
use gs_build_pairs::lists::Listed;
use gs_build_pairs::pairs::{expr_and_bound, expr_and_slice, two_exprs};
use gs_grammar::trees::{Expr, Suffix};
use gs_places::at::{at_args, at_expr, at_type};
use gs_places::classes::is_bound_end;
use gs_places::front::{first_mark, is_mark, mark, trail};
use gs_places::rest::Rest;
use gs_rows_expr::lists::{
    bound, read_a_bound, read_assertion, read_full_slice, read_index, read_last_arg,
    read_more_args, read_open_full_slice, read_open_slice, read_selector, read_slice_expr,
    read_spread, suffix_by,
};
use gs_syntax::token::{Operator, Span, Token};
use sqlite_items::Items;
use std::alloc::Global;

/// The form `a_bound` of the index of a slice expression.
#[inline(never)]
#[tactic(auto, unfolding(gs_grammar::specs::Steps::read_a_bound))]
fn build_a_bound<'a, M: Maker>(
    make: &M,
    place: Rest<'a>,
    x: &'a Token,
    s: Rest<'a>,
) -> Result<Piece<'a, Option<Expr>>, Stop>
    requires faithful { M.is_faithful make.now }
    requires here { place.tokens.now ≡ x.now ∷ s.tokens.now }
    ensures { Builds result (steps.read_a_bound s.entry.tokens.now stands x.now) }
{
    let Piece { tree: t, rest: r0 } = expr_made(make, 5, false, false, place, x, s)?;
    Ok(Piece {
        tree: Some(t),
        rest: r0,
    })
}

/// The index of a slice expression of the place.
#[tactic(auto, using(gs_places::proofs::Laws::at_bound, gs_places::proofs::Laws::end_bound), unfolding(gs_grammar::specs::Steps::bound_step, gs_grammar::specs::Steps::read_no_bound, gs_grammar::specs::Front::front_at))]
pub fn bound_tree<'a, M: Maker>(make: &M, s: Rest<'a>) -> Result<Piece<'a, Option<Expr>>, Stop>
    requires faithful { M.is_faithful make.now }
    ensures { Builds result ((stands s.entry.tokens.now).bound) }
{
    let (x, rest) = s.next().ok_or(Stop::Absent)?;
    let found = expr_here(5, false, s, x, rest);
    if read_a_bound(found, x, rest).is_some() {
        return build_a_bound(make, s, x, rest);
    }
    if is_bound_end(&x.kind) {
        Ok(Piece {
            tree: None,
            rest: s,
        })
    } else {
        Err(Stop::Absent)
    }
}

/// The form `spread` of the arguments.
#[inline(never)]
#[tactic(auto, unfolding(gs_grammar::specs::Steps::read_spread, gs_build_base::specs::Pieces::joined_to))]
fn turn_spread<'a, M: Maker>(
    make: &M,
    place: Rest<'a>,
    x: &'a Token,
    s: Rest<'a>,
) -> Result<Part<'a, Expr, Option<Span>>, Stop>
    requires faithful { M.is_faithful make.now }
    requires here { place.tokens.now ≡ x.now ∷ s.tokens.now }
    ensures { Parts (λ r. (stands r).args) result (steps.read_spread s.entry.tokens.now stands x.now) }
{
    let f0 = inner_here(place, x, s).ok_or(Stop::Absent)?;
    let (p, r1) = mark_span(Operator::Ellipsis, f0.rest).ok_or(Stop::Absent)?;
    let r2 = trail(Operator::RightParen, r1).ok_or(Stop::Absent)?;
    let t = expr_made(make, 5, false, true, place, x, s)?.tree;
    Ok(Part::Last(t, Some(p), r2))
}

/// The form `last_arg` of the arguments.
#[inline(never)]
#[tactic(auto, unfolding(gs_grammar::specs::Steps::read_last_arg, gs_build_base::specs::Pieces::joined_to))]
fn turn_last_arg<'a, M: Maker>(
    make: &M,
    place: Rest<'a>,
    x: &'a Token,
    s: Rest<'a>,
) -> Result<Part<'a, Expr, Option<Span>>, Stop>
    requires faithful { M.is_faithful make.now }
    requires here { place.tokens.now ≡ x.now ∷ s.tokens.now }
    ensures { Parts (λ r. (stands r).args) result (steps.read_last_arg s.entry.tokens.now stands x.now) }
{
    let f0 = inner_here(place, x, s).ok_or(Stop::Absent)?;
    if mark(Operator::Ellipsis, f0.rest).is_some() {
        return Err(Stop::Absent);
    }
    let r2 = trail(Operator::RightParen, f0.rest).ok_or(Stop::Absent)?;
    let t = expr_made(make, 5, false, true, place, x, s)?.tree;
    Ok(Part::Last(t, None, r2))
}

/// The form `more_args` of the arguments.
#[inline(never)]
#[tactic(auto, unfolding(gs_grammar::specs::Steps::read_more_args, gs_build_base::specs::Pieces::joined_to))]
fn turn_more_args<'a, M: Maker>(
    make: &M,
    place: Rest<'a>,
    x: &'a Token,
    s: Rest<'a>,
) -> Result<Part<'a, Expr, Option<Span>>, Stop>
    requires faithful { M.is_faithful make.now }
    requires here { place.tokens.now ≡ x.now ∷ s.tokens.now }
    ensures { Parts (λ r. (stands r).args) result (steps.read_more_args s.entry.tokens.now stands x.now) }
{
    let f0 = inner_here(place, x, s).ok_or(Stop::Absent)?;
    let r1 = mark(Operator::Comma, f0.rest).ok_or(Stop::Absent)?;
    if mark(Operator::RightParen, r1).is_some() {
        return Err(Stop::Absent);
    }
    let t = expr_made(make, 5, false, true, place, x, s)?.tree;
    Ok(Part::More(t, r1))
}

/// What the arguments have at the place.
#[tactic(auto, using(gs_places::proofs::Laws::at_args, gs_places::proofs::Laws::end_args), unfolding(gs_grammar::specs::Steps::args_step, gs_grammar::specs::Steps::read_no_args, gs_grammar::specs::Front::mark_at))]
fn args_turn<'a, M: Maker>(make: &M, s: Rest<'a>) -> Result<Part<'a, Expr, Option<Span>>, Stop>
    requires faithful { M.is_faithful make.now }
    ensures { Parts (λ r. (stands r).args) result ((stands s.entry.tokens.now).args) }
{
    let (x, rest) = s.next().ok_or(Stop::Absent)?;
    let inner = inner_here(s, x, rest);
    if read_spread(inner, x, rest).is_some() {
        return turn_spread(make, s, x, rest);
    }
    if read_last_arg(inner, x, rest).is_some() {
        return turn_last_arg(make, s, x, rest);
    }
    if read_more_args(inner, x, rest).is_some() {
        return turn_more_args(make, s, x, rest);
    }
    if is_mark(Operator::RightParen, &x.kind) {
        Ok(Part::End(None, s))
    } else {
        Err(Stop::Absent)
    }
}

/// The arguments of the place. There are at most as many as tokens.
#[tactic(auto, using(gs_build_base::proofs::Joins::joined_to_start, gs_build_base::proofs::Joins::joined_to_more, gs_build_base::proofs::Joins::joined_to_last, gs_build_base::proofs::Joins::joined_to_end, gs_build_base::proofs::Joins::joined_to_none))]
pub fn args_tree<'a, M: Maker>(
    alloc: Global,
    make: &M,
    s: Rest<'a>,
) -> Result<Piece<'a, (Items<Expr>, Option<Span>)>, Stop>
    requires faithful { M.is_faithful make.now }
    ensures { Builds result ((stands s.entry.tokens.now).args) }
{
    let mut found = Items::new(alloc);
    let mut rest = s;
    'turns: while found.len() <= s.tokens.len() {
        match args_turn(make, rest) {
            Ok(Part::More(item, more)) => {
                found = Listed::grown(found, item)?;
                rest = more;
            }
            Ok(Part::Last(item, end, more)) => {
                found = Listed::grown(found, item)?;
                return Ok(Piece {
                    tree: (found, end),
                    rest: more,
                });
            }
            Ok(Part::End(end, more)) => return Ok(Piece {
                tree: (found, end),
                rest: more,
            }),
            Err(stop) => {
                Listed::let_go(found);
                return Err(stop);
            }
        }
    }
    Listed::let_go(found);
    Err(Stop::Absent)
}

/// The form `selector` of the suffix.
#[tactic(auto, unfolding(gs_grammar::specs::Steps::read_selector))]
fn build_selector<'a>(alloc: Global, x: &'a Token, s: Rest<'a>) -> Result<Piece<'a, Suffix>, Stop>
    ensures { Builds result (steps.read_selector s.entry.tokens.now stands x.now) }
{
    let r0 = first_mark(Operator::Dot, x, s).ok_or(Stop::Absent)?;
    let (name, r1) = name_token(r0).ok_or(Stop::Absent)?;
    Ok(Piece {
        tree: Suffix::Selector(copy(alloc, name)?),
        rest: r1,
    })
}

/// The form `assertion` of the suffix.
#[inline(never)]
#[tactic(auto, unfolding(gs_grammar::specs::Steps::read_assertion))]
fn build_assertion<'a, M: Maker>(
    make: &M,
    x: &'a Token,
    s: Rest<'a>,
) -> Result<Piece<'a, Suffix>, Stop>
    requires faithful { M.is_faithful make.now }
    ensures { Builds result (steps.read_assertion s.entry.tokens.now stands x.now) }
{
    let r0 = first_mark(Operator::Dot, x, s).ok_or(Stop::Absent)?;
    let r1 = mark(Operator::LeftParen, r0).ok_or(Stop::Absent)?;
    let f2 = at_type(r1).ok_or(Stop::Absent)?;
    let (q, r3) = mark_span(Operator::RightParen, f2.rest).ok_or(Stop::Absent)?;
    let t = make.make_type(r1)?.tree;
    Ok(Piece {
        tree: Suffix::Assertion(t, q),
        rest: r3,
    })
}

/// The form `open_slice` of the suffix.
#[inline(never)]
#[tactic(auto, unfolding(gs_grammar::specs::Steps::read_open_slice))]
fn build_open_slice<'a, M: Maker>(
    make: &M,
    x: &'a Token,
    s: Rest<'a>,
) -> Result<Piece<'a, Suffix>, Stop>
    requires faithful { M.is_faithful make.now }
    ensures { Builds result (steps.read_open_slice s.entry.tokens.now stands x.now) }
{
    let r0 = first_mark(Operator::LeftBracket, x, s).ok_or(Stop::Absent)?;
    let r1 = mark(Operator::Colon, r0).ok_or(Stop::Absent)?;
    let f2 = bound(r1).ok_or(Stop::Absent)?;
    let (q, r3) = mark_span(Operator::RightBracket, f2.rest).ok_or(Stop::Absent)?;
    let b = bound_tree(make, r1)?.tree;
    Ok(Piece {
        tree: Suffix::Slice(None, b, q),
        rest: r3,
    })
}

/// The form `open_full_slice` of the suffix.
#[inline(never)]
#[tactic(auto, unfolding(gs_grammar::specs::Steps::read_open_full_slice))]
fn build_open_full_slice<'a, M: Maker>(
    make: &M,
    x: &'a Token,
    s: Rest<'a>,
) -> Result<Piece<'a, Suffix>, Stop>
    requires faithful { M.is_faithful make.now }
    ensures { Builds result (steps.read_open_full_slice s.entry.tokens.now stands x.now) }
{
    let r0 = first_mark(Operator::LeftBracket, x, s).ok_or(Stop::Absent)?;
    let r1 = mark(Operator::Colon, r0).ok_or(Stop::Absent)?;
    let f2 = at_expr(5, false, r1).ok_or(Stop::Absent)?;
    let r3 = mark(Operator::Colon, f2.rest).ok_or(Stop::Absent)?;
    let f4 = at_expr(5, false, r3).ok_or(Stop::Absent)?;
    let (q, r5) = mark_span(Operator::RightBracket, f4.rest).ok_or(Stop::Absent)?;
    let second = make.make_expr(5, false, false, r1);
    let third = make.make_expr(5, false, false, r3);
    let (b, c) = two_exprs(second, third)?.tree;
    Ok(Piece {
        tree: Suffix::FullSlice(None, b, c, q),
        rest: r5,
    })
}

/// The form `index` of the suffix.
#[inline(never)]
#[tactic(auto, unfolding(gs_grammar::specs::Steps::read_index))]
fn build_index<'a, M: Maker>(make: &M, x: &'a Token, s: Rest<'a>) -> Result<Piece<'a, Suffix>, Stop>
    requires faithful { M.is_faithful make.now }
    ensures { Builds result (steps.read_index s.entry.tokens.now stands x.now) }
{
    let r0 = first_mark(Operator::LeftBracket, x, s).ok_or(Stop::Absent)?;
    if mark(Operator::Colon, r0).is_some() {
        return Err(Stop::Absent);
    }
    let f2 = at_expr(5, false, r0).ok_or(Stop::Absent)?;
    let (q, r3) = mark_span(Operator::RightBracket, f2.rest).ok_or(Stop::Absent)?;
    let t = make.make_expr(5, false, false, r0)?.tree;
    Ok(Piece {
        tree: Suffix::Index(t, q),
        rest: r3,
    })
}

/// The form `slice_expr` of the suffix.
#[inline(never)]
#[tactic(auto, unfolding(gs_grammar::specs::Steps::read_slice_expr))]
fn build_slice_expr<'a, M: Maker>(
    make: &M,
    x: &'a Token,
    s: Rest<'a>,
) -> Result<Piece<'a, Suffix>, Stop>
    requires faithful { M.is_faithful make.now }
    ensures { Builds result (steps.read_slice_expr s.entry.tokens.now stands x.now) }
{
    let r0 = first_mark(Operator::LeftBracket, x, s).ok_or(Stop::Absent)?;
    if mark(Operator::Colon, r0).is_some() {
        return Err(Stop::Absent);
    }
    let f2 = at_expr(5, false, r0).ok_or(Stop::Absent)?;
    let r3 = mark(Operator::Colon, f2.rest).ok_or(Stop::Absent)?;
    let f4 = bound(r3).ok_or(Stop::Absent)?;
    let (q, r5) = mark_span(Operator::RightBracket, f4.rest).ok_or(Stop::Absent)?;
    let first = make.make_expr(5, false, false, r0);
    let (a, b) = expr_and_bound(first, bound_tree(make, r3))?.tree;
    Ok(Piece {
        tree: Suffix::Slice(Some(a), b, q),
        rest: r5,
    })
}

/// The end of the form `full_slice` of the suffix.
#[inline(never)]
#[tactic(auto, unfolding(crate::specs::Tails::tail_of_full_slice))]
fn build_full_slice_end<'a, M: Maker>(
    make: &M,
    s: Rest<'a>,
) -> Result<Piece<'a, (Expr, Expr, Span)>, Stop>
    requires faithful { M.is_faithful make.now }
    ensures { Gives result (tail_of_full_slice s.entry.tokens.now) }
{
    let f0 = at_expr(5, false, s).ok_or(Stop::Absent)?;
    let r1 = mark(Operator::Colon, f0.rest).ok_or(Stop::Absent)?;
    let f2 = at_expr(5, false, r1).ok_or(Stop::Absent)?;
    let (q, r3) = mark_span(Operator::RightBracket, f2.rest).ok_or(Stop::Absent)?;
    let second = make.make_expr(5, false, false, s);
    let third = make.make_expr(5, false, false, r1);
    let (b, c) = two_exprs(second, third)?.tree;
    Ok(Piece {
        tree: (b, c, q),
        rest: r3,
    })
}

/// The form `full_slice` of the suffix.
#[inline(never)]
#[tactic(auto, unfolding(gs_grammar::specs::Steps::read_full_slice, crate::specs::Tails::tail_of_full_slice))]
fn build_full_slice<'a, M: Maker>(
    make: &M,
    x: &'a Token,
    s: Rest<'a>,
) -> Result<Piece<'a, Suffix>, Stop>
    requires faithful { M.is_faithful make.now }
    ensures { Builds result (steps.read_full_slice s.entry.tokens.now stands x.now) }
{
    let r0 = first_mark(Operator::LeftBracket, x, s).ok_or(Stop::Absent)?;
    if mark(Operator::Colon, r0).is_some() {
        return Err(Stop::Absent);
    }
    let f2 = at_expr(5, false, r0).ok_or(Stop::Absent)?;
    let r3 = mark(Operator::Colon, f2.rest).ok_or(Stop::Absent)?;
    let first = make.make_expr(5, false, false, r0);
    let Piece {
        tree: (a, (b, c, q)),
        rest: r4,
    } = expr_and_slice(first, build_full_slice_end(make, r3))?;
    Ok(Piece {
        tree: Suffix::FullSlice(Some(a), b, c, q),
        rest: r4,
    })
}

/// The form `call` of the suffix.
#[inline(never)]
#[tactic(auto, unfolding(gs_grammar::specs::Steps::read_call))]
fn build_call<'a, M: Maker>(
    alloc: Global,
    make: &M,
    x: &'a Token,
    s: Rest<'a>,
) -> Result<Piece<'a, Suffix>, Stop>
    requires faithful { M.is_faithful make.now }
    ensures { Builds result (steps.read_call s.entry.tokens.now stands x.now) }
{
    let r0 = first_mark(Operator::LeftParen, x, s).ok_or(Stop::Absent)?;
    let f1 = at_args(r0).ok_or(Stop::Absent)?;
    let (q, r2) = mark_span(Operator::RightParen, f1.rest).ok_or(Stop::Absent)?;
    let (ts0, ts1) = args_tree(alloc, make, r0)?.tree;
    Ok(Piece {
        tree: Suffix::Call(ts0, ts1, q),
        rest: r2,
    })
}

/// The suffix that begins with the token.
#[tactic(auto, unfolding(gs_grammar::specs::Steps::suffix_step))]
pub fn suffix_from<'a, M: Maker>(
    alloc: Global,
    make: &M,
    x: &'a Token,
    s: Rest<'a>,
) -> Result<Piece<'a, Suffix>, Stop>
    requires faithful { M.is_faithful make.now }
    ensures { Builds result (steps.suffix_step s.entry.tokens.now stands x.now) }
{
    if read_selector(x, s).is_some() {
        return build_selector(alloc, x, s);
    }
    if read_assertion(x, s).is_some() {
        return build_assertion(make, x, s);
    }
    if read_open_slice(x, s).is_some() {
        return build_open_slice(make, x, s);
    }
    if read_open_full_slice(x, s).is_some() {
        return build_open_full_slice(make, x, s);
    }
    if read_index(x, s).is_some() {
        return build_index(make, x, s);
    }
    if read_slice_expr(x, s).is_some() {
        return build_slice_expr(make, x, s);
    }
    if read_full_slice(x, s).is_some() {
        return build_full_slice(make, x, s);
    }
    build_call(alloc, make, x, s)
}

/// The form `more_suffixes` of the suffixes.
#[inline(never)]
#[tactic(auto, unfolding(gs_grammar::specs::Steps::read_more_suffixes, gs_build_base::specs::Pieces::joined))]
fn turn_more_suffixes<'a, M: Maker>(
    alloc: Global,
    make: &M,
    x: &'a Token,
    s: Rest<'a>,
) -> Result<Turn<'a, Suffix>, Stop>
    requires faithful { M.is_faithful make.now }
    ensures { Turns (λ r. (stands r).suffixes) result (steps.read_more_suffixes s.entry.tokens.now stands x.now) }
{
    let Piece {
        tree: item,
        rest: r0,
    } = suffix_from(alloc, make, x, s)?;
    Ok(Turn::More(item, r0))
}

/// What the suffixes have at the place.
#[tactic(auto, using(gs_places::proofs::Laws::at_suffixes, gs_places::proofs::Laws::end_suffixes, gs_rows_expr::proofs::Greedy::suffixes_stay, gs_rows_expr::proofs::Greedy::suffixes_go))]
fn suffixes_turn<'a, M: Maker>(
    alloc: Global,
    make: &M,
    s: Rest<'a>,
) -> Result<Turn<'a, Suffix>, Stop>
    requires faithful { M.is_faithful make.now }
    ensures { Turns (λ r. (stands r).suffixes) result ((stands s.entry.tokens.now).suffixes) }
{
    let Some((x, rest)) = s.next() else {
        return Ok(Turn::End(s));
    };
    if suffix_by(x, rest).is_none() {
        return Ok(Turn::End(s));
    }
    turn_more_suffixes(alloc, make, x, rest)
}

/// The suffixes of the place. There are at most as many as tokens.
#[tactic(auto, using(gs_build_base::proofs::Joins::joined_start, gs_build_base::proofs::Joins::joined_more, gs_build_base::proofs::Joins::joined_last, gs_build_base::proofs::Joins::joined_end, gs_build_base::proofs::Joins::joined_none))]
pub fn suffixes_tree<'a, M: Maker>(
    alloc: Global,
    make: &M,
    s: Rest<'a>,
) -> Result<Piece<'a, Items<Suffix>>, Stop>
    requires faithful { M.is_faithful make.now }
    ensures { Builds result ((stands s.entry.tokens.now).suffixes) }
{
    let mut found = Items::new(alloc);
    let mut rest = s;
    'turns: while found.len() <= s.tokens.len() {
        match suffixes_turn(alloc, make, rest) {
            Ok(Turn::More(item, more)) => {
                found = Listed::grown(found, item)?;
                rest = more;
            }
            Ok(Turn::Last(item, more)) => {
                found = Listed::grown(found, item)?;
                return Ok(Piece {
                    tree: found,
                    rest: more,
                });
            }
            Ok(Turn::End(more)) => return Ok(Piece {
                tree: found,
                rest: more,
            }),
            Err(stop) => {
                Listed::let_go(found);
                return Err(stop);
            }
        }
    }
    Listed::let_go(found);
    Err(Stop::Absent)
}
