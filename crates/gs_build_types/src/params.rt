//! Trees of parameters and signatures.
ghost use Rattle.std.specs.Prelude.{◌≡◌, ◌∷◌};
ghost use Rattle.gs_grammar.specs.Steps as steps;
ghost use Rattle.gs_places.specs.Places.{stands};
ghost use Rattle.gs_build_base.specs.Pieces.{Builds, Turns};

use gs_build_base::front::{first_mark_span, mark_span};
use gs_build_base::here::{idents_here, type_here};
use gs_build_base::maker::{Maker, type_made};
use gs_build_base::names::idents_from;
use gs_build_base::parts::is_single;
use gs_build_base::pieces::{Piece, Stop, Turn};
use gs_build_pairs::lists::Listed;
use gs_build_pairs::pairs::{params_and_type, two_params};
use gs_grammar::trees::{Parameter, Parameters, Signature};
use gs_places::at::{at_named_params, at_type, at_unnamed};
use gs_places::front::{mark, trail};
use gs_places::rest::Rest;
use gs_rows_types::params::{
    params_by, read_last_named, read_last_named_dots, read_last_type, read_more_types,
    read_named_list, read_no_params, read_result, read_results,
};
use gs_syntax::token::{Operator, Token};
use sqlite_items::Items;
use std::alloc::Global;

/// The form `last_type` of the parameters without names.
#[inline(never)]
#[tactic(auto, unfolding(gs_grammar::specs::Steps::read_last_type, gs_build_base::specs::Pieces::joined))]
fn turn_last_type<'a, M: Maker>(
    make: &M,
    dots: bool,
    place: Rest<'a>,
    x: &'a Token,
    s: Rest<'a>,
) -> Result<Turn<'a, Parameter>, Stop>
    requires faithful { M.is_faithful make.now }
    requires here { place.tokens.now ≡ x.now ∷ s.tokens.now }
    ensures { Turns (λ r. (stands r).unnamed dots) result (steps.read_last_type s.entry.tokens.now stands dots x.now) }
{
    let f0 = type_here(place, x, s).ok_or(Stop::Absent)?;
    let r1 = trail(Operator::RightParen, f0.rest).ok_or(Stop::Absent)?;
    let t = type_made(make, place, x, s)?.tree;
    Ok(Turn::Last(Parameter::Plain(t), r1))
}

/// The form `more_types` of the parameters without names.
#[inline(never)]
#[tactic(auto, unfolding(gs_grammar::specs::Steps::read_more_types, gs_build_base::specs::Pieces::joined))]
fn turn_more_types<'a, M: Maker>(
    make: &M,
    dots: bool,
    place: Rest<'a>,
    x: &'a Token,
    s: Rest<'a>,
) -> Result<Turn<'a, Parameter>, Stop>
    requires faithful { M.is_faithful make.now }
    requires here { place.tokens.now ≡ x.now ∷ s.tokens.now }
    ensures { Turns (λ r. (stands r).unnamed dots) result (steps.read_more_types s.entry.tokens.now stands dots x.now) }
{
    let f0 = type_here(place, x, s).ok_or(Stop::Absent)?;
    let r1 = mark(Operator::Comma, f0.rest).ok_or(Stop::Absent)?;
    if mark(Operator::RightParen, r1).is_some() {
        return Err(Stop::Absent);
    }
    let t = type_made(make, place, x, s)?.tree;
    Ok(Turn::More(Parameter::Plain(t), r1))
}

/// The form `last_dots` of the parameters without names.
#[inline(never)]
#[tactic(auto, unfolding(gs_grammar::specs::Steps::read_last_dots, gs_build_base::specs::Pieces::joined))]
fn turn_last_dots<'a, M: Maker>(
    make: &M,
    dots: bool,
    x: &'a Token,
    s: Rest<'a>,
) -> Result<Turn<'a, Parameter>, Stop>
    requires faithful { M.is_faithful make.now }
    ensures { Turns (λ r. (stands r).unnamed dots) result (steps.read_last_dots s.entry.tokens.now stands dots x.now) }
{
    let (p, r0) = first_mark_span(Operator::Ellipsis, x, s).ok_or(Stop::Absent)?;
    if !dots {
        return Err(Stop::Absent);
    }
    let f2 = at_type(r0).ok_or(Stop::Absent)?;
    let r3 = trail(Operator::RightParen, f2.rest).ok_or(Stop::Absent)?;
    let t = make.make_type(r0)?.tree;
    Ok(Turn::Last(Parameter::Variadic(p, t), r3))
}

/// What the parameters without names have at the place.
#[tactic(auto, using(gs_places::proofs::Laws::at_unnamed, gs_places::proofs::Laws::end_unnamed), unfolding(gs_grammar::specs::Steps::unnamed_step))]
fn unnamed_turn<'a, M: Maker>(
    make: &M,
    dots: bool,
    s: Rest<'a>,
) -> Result<Turn<'a, Parameter>, Stop>
    requires faithful { M.is_faithful make.now }
    ensures { Turns (λ r. (stands r).unnamed dots) result ((stands s.entry.tokens.now).unnamed dots) }
{
    let (x, rest) = s.next().ok_or(Stop::Absent)?;
    let found_type = type_here(s, x, rest);
    if read_last_type(dots, found_type, x, rest).is_some() {
        return turn_last_type(make, dots, s, x, rest);
    }
    if read_more_types(dots, found_type, x, rest).is_some() {
        return turn_more_types(make, dots, s, x, rest);
    }
    turn_last_dots(make, dots, x, rest)
}

/// The parameters without names of the place. There are at most as many as tokens.
#[tactic(auto, using(gs_build_base::proofs::Joins::joined_start, gs_build_base::proofs::Joins::joined_more, gs_build_base::proofs::Joins::joined_last, gs_build_base::proofs::Joins::joined_end, gs_build_base::proofs::Joins::joined_none))]
pub fn unnamed_tree<'a, M: Maker>(
    alloc: Global,
    make: &M,
    dots: bool,
    s: Rest<'a>,
) -> Result<Piece<'a, Items<Parameter>>, Stop>
    requires faithful { M.is_faithful make.now }
    ensures { Builds result ((stands s.entry.tokens.now).unnamed dots) }
{
    let mut found = Items::new(alloc);
    let mut rest = s;
    'turns: while found.len() <= s.tokens.len() {
        match unnamed_turn(make, dots, rest) {
            Ok(Turn::More(item, more)) => {
                found = Listed::grown(found, item)?;
                rest = more;
            }
            Ok(Turn::Last(item, more)) => {
                found = Listed::grown(found, item)?;
                return Ok(Piece {
                    tree: found,
                    rest: more,
                });
            }
            Ok(Turn::End(more)) => return Ok(Piece {
                tree: found,
                rest: more,
            }),
            Err(stop) => {
                Listed::let_go(found);
                return Err(stop);
            }
        }
    }
    Listed::let_go(found);
    Err(Stop::Absent)
}

/// The form `last_named_dots` of the parameters with names.
#[inline(never)]
#[tactic(auto, unfolding(gs_grammar::specs::Steps::read_last_named_dots, gs_build_base::specs::Pieces::joined))]
fn turn_last_named_dots<'a, M: Maker>(
    alloc: Global,
    make: &M,
    dots: bool,
    place: Rest<'a>,
    x: &'a Token,
    s: Rest<'a>,
) -> Result<Turn<'a, Parameter>, Stop>
    requires faithful { M.is_faithful make.now }
    requires here { place.tokens.now ≡ x.now ∷ s.tokens.now }
    ensures { Turns (λ r. (stands r).named_params dots) result (steps.read_last_named_dots s.entry.tokens.now stands dots x.now) }
{
    let f0 = idents_here(place, x, s).ok_or(Stop::Absent)?;
    let (p, r1) = mark_span(Operator::Ellipsis, f0.rest).ok_or(Stop::Absent)?;
    if !dots {
        return Err(Stop::Absent);
    }
    let f4 = at_type(r1).ok_or(Stop::Absent)?;
    let r5 = trail(Operator::RightParen, f4.rest).ok_or(Stop::Absent)?;
    let xs = idents_from(alloc, place, x, s)?.tree;
    if !is_single(&xs) {
        return Err(Stop::Absent);
    }
    let t = make.make_type(r1)?.tree;
    Ok(Turn::Last(Parameter::NamedVariadic(xs, p, t), r5))
}

/// The form `last_named` of the parameters with names.
#[inline(never)]
#[tactic(auto, unfolding(gs_grammar::specs::Steps::read_last_named, gs_build_base::specs::Pieces::joined))]
fn turn_last_named<'a, M: Maker>(
    alloc: Global,
    make: &M,
    dots: bool,
    place: Rest<'a>,
    x: &'a Token,
    s: Rest<'a>,
) -> Result<Turn<'a, Parameter>, Stop>
    requires faithful { M.is_faithful make.now }
    requires here { place.tokens.now ≡ x.now ∷ s.tokens.now }
    ensures { Turns (λ r. (stands r).named_params dots) result (steps.read_last_named s.entry.tokens.now stands dots x.now) }
{
    let f0 = idents_here(place, x, s).ok_or(Stop::Absent)?;
    if mark(Operator::Ellipsis, f0.rest).is_some() {
        return Err(Stop::Absent);
    }
    let f2 = at_type(f0.rest).ok_or(Stop::Absent)?;
    let r3 = trail(Operator::RightParen, f2.rest).ok_or(Stop::Absent)?;
    let xs = idents_from(alloc, place, x, s)?.tree;
    let t = make.make_type(f0.rest)?.tree;
    Ok(Turn::Last(Parameter::Named(xs, t), r3))
}

/// The form `more_named` of the parameters with names.
#[inline(never)]
#[tactic(auto, unfolding(gs_grammar::specs::Steps::read_more_named, gs_build_base::specs::Pieces::joined))]
fn turn_more_named<'a, M: Maker>(
    alloc: Global,
    make: &M,
    dots: bool,
    place: Rest<'a>,
    x: &'a Token,
    s: Rest<'a>,
) -> Result<Turn<'a, Parameter>, Stop>
    requires faithful { M.is_faithful make.now }
    requires here { place.tokens.now ≡ x.now ∷ s.tokens.now }
    ensures { Turns (λ r. (stands r).named_params dots) result (steps.read_more_named s.entry.tokens.now stands dots x.now) }
{
    let f0 = idents_here(place, x, s).ok_or(Stop::Absent)?;
    if mark(Operator::Ellipsis, f0.rest).is_some() {
        return Err(Stop::Absent);
    }
    let f2 = at_type(f0.rest).ok_or(Stop::Absent)?;
    let r3 = mark(Operator::Comma, f2.rest).ok_or(Stop::Absent)?;
    if mark(Operator::RightParen, r3).is_some() {
        return Err(Stop::Absent);
    }
    let xs = idents_from(alloc, place, x, s)?.tree;
    let t = make.make_type(f0.rest)?.tree;
    Ok(Turn::More(Parameter::Named(xs, t), r3))
}

/// What the parameters with names have at the place.
#[tactic(auto, using(gs_places::proofs::Laws::at_named_params, gs_places::proofs::Laws::end_named_params), unfolding(gs_grammar::specs::Steps::named_params_step))]
fn named_params_turn<'a, M: Maker>(
    alloc: Global,
    make: &M,
    dots: bool,
    s: Rest<'a>,
) -> Result<Turn<'a, Parameter>, Stop>
    requires faithful { M.is_faithful make.now }
    ensures { Turns (λ r. (stands r).named_params dots) result ((stands s.entry.tokens.now).named_params dots) }
{
    let (x, rest) = s.next().ok_or(Stop::Absent)?;
    let names = idents_here(s, x, rest);
    if read_last_named_dots(dots, names, x, rest).is_some() {
        return turn_last_named_dots(alloc, make, dots, s, x, rest);
    }
    if read_last_named(dots, names, x, rest).is_some() {
        return turn_last_named(alloc, make, dots, s, x, rest);
    }
    turn_more_named(alloc, make, dots, s, x, rest)
}

/// The parameters with names of the place. There are at most as many as tokens.
#[tactic(auto, using(gs_build_base::proofs::Joins::joined_start, gs_build_base::proofs::Joins::joined_more, gs_build_base::proofs::Joins::joined_last, gs_build_base::proofs::Joins::joined_end, gs_build_base::proofs::Joins::joined_none))]
pub fn named_params_tree<'a, M: Maker>(
    alloc: Global,
    make: &M,
    dots: bool,
    s: Rest<'a>,
) -> Result<Piece<'a, Items<Parameter>>, Stop>
    requires faithful { M.is_faithful make.now }
    ensures { Builds result ((stands s.entry.tokens.now).named_params dots) }
{
    let mut found = Items::new(alloc);
    let mut rest = s;
    'turns: while found.len() <= s.tokens.len() {
        match named_params_turn(alloc, make, dots, rest) {
            Ok(Turn::More(item, more)) => {
                found = Listed::grown(found, item)?;
                rest = more;
            }
            Ok(Turn::Last(item, more)) => {
                found = Listed::grown(found, item)?;
                return Ok(Piece {
                    tree: found,
                    rest: more,
                });
            }
            Ok(Turn::End(more)) => return Ok(Piece {
                tree: found,
                rest: more,
            }),
            Err(stop) => {
                Listed::let_go(found);
                return Err(stop);
            }
        }
    }
    Listed::let_go(found);
    Err(Stop::Absent)
}

/// The form `no_params` of the parameters.
#[tactic(auto, unfolding(gs_grammar::specs::Steps::read_no_params))]
fn build_no_params<'a>(
    alloc: Global,
    dots: bool,
    x: &'a Token,
    s: Rest<'a>,
) -> Result<Piece<'a, Parameters>, Stop>
    ensures { Builds result (steps.read_no_params s.entry.tokens.now stands dots x.now) }
{
    let (p, r0) = first_mark_span(Operator::LeftParen, x, s).ok_or(Stop::Absent)?;
    let (q, r1) = mark_span(Operator::RightParen, r0).ok_or(Stop::Absent)?;
    Ok(Piece {
        tree: Parameters {
            left: p,
            list: Items::new(alloc),
            right: q,
        },
        rest: r1,
    })
}

/// The form `named_list` of the parameters.
#[inline(never)]
#[tactic(auto, unfolding(gs_grammar::specs::Steps::read_named_list))]
fn build_named_list<'a, M: Maker>(
    alloc: Global,
    make: &M,
    dots: bool,
    x: &'a Token,
    s: Rest<'a>,
) -> Result<Piece<'a, Parameters>, Stop>
    requires faithful { M.is_faithful make.now }
    ensures { Builds result (steps.read_named_list s.entry.tokens.now stands dots x.now) }
{
    let (p, r0) = first_mark_span(Operator::LeftParen, x, s).ok_or(Stop::Absent)?;
    if mark(Operator::RightParen, r0).is_some() {
        return Err(Stop::Absent);
    }
    let f2 = at_named_params(dots, r0).ok_or(Stop::Absent)?;
    let (q, r3) = mark_span(Operator::RightParen, f2.rest).ok_or(Stop::Absent)?;
    let ps = named_params_tree(alloc, make, dots, r0)?.tree;
    Ok(Piece {
        tree: Parameters {
            left: p,
            list: ps,
            right: q,
        },
        rest: r3,
    })
}

/// The form `unnamed_list` of the parameters.
#[inline(never)]
#[tactic(auto, unfolding(gs_grammar::specs::Steps::read_unnamed_list))]
fn build_unnamed_list<'a, M: Maker>(
    alloc: Global,
    make: &M,
    dots: bool,
    x: &'a Token,
    s: Rest<'a>,
) -> Result<Piece<'a, Parameters>, Stop>
    requires faithful { M.is_faithful make.now }
    ensures { Builds result (steps.read_unnamed_list s.entry.tokens.now stands dots x.now) }
{
    let (p, r0) = first_mark_span(Operator::LeftParen, x, s).ok_or(Stop::Absent)?;
    if mark(Operator::RightParen, r0).is_some() {
        return Err(Stop::Absent);
    }
    if at_named_params(dots, r0).is_some() {
        return Err(Stop::Absent);
    }
    let f3 = at_unnamed(dots, r0).ok_or(Stop::Absent)?;
    let (q, r4) = mark_span(Operator::RightParen, f3.rest).ok_or(Stop::Absent)?;
    let ps = unnamed_tree(alloc, make, dots, r0)?.tree;
    Ok(Piece {
        tree: Parameters {
            left: p,
            list: ps,
            right: q,
        },
        rest: r4,
    })
}

/// The parameters that begin with the token.
#[tactic(auto, unfolding(gs_grammar::specs::Steps::params_step))]
pub fn params_from<'a, M: Maker>(
    alloc: Global,
    make: &M,
    dots: bool,
    x: &'a Token,
    s: Rest<'a>,
) -> Result<Piece<'a, Parameters>, Stop>
    requires faithful { M.is_faithful make.now }
    ensures { Builds result (steps.params_step s.entry.tokens.now stands dots x.now) }
{
    if read_no_params(dots, x, s).is_some() {
        return build_no_params(alloc, dots, x, s);
    }
    if read_named_list(dots, x, s).is_some() {
        return build_named_list(alloc, make, dots, x, s);
    }
    build_unnamed_list(alloc, make, dots, x, s)
}

/// The parameters of the place.
#[tactic(auto, using(gs_places::proofs::Laws::at_params, gs_places::proofs::Laws::end_params))]
pub fn params_tree<'a, M: Maker>(
    alloc: Global,
    make: &M,
    dots: bool,
    s: Rest<'a>,
) -> Result<Piece<'a, Parameters>, Stop>
    requires faithful { M.is_faithful make.now }
    ensures { Builds result ((stands s.entry.tokens.now).params dots) }
{
    let (x, rest) = s.next().ok_or(Stop::Absent)?;
    params_from(alloc, make, dots, x, rest)
}

/// The form `results` of the signature.
#[inline(never)]
#[tactic(auto, unfolding(gs_grammar::specs::Steps::read_results))]
fn build_results<'a, M: Maker>(
    alloc: Global,
    make: &M,
    x: &'a Token,
    s: Rest<'a>,
) -> Result<Piece<'a, Signature>, Stop>
    requires faithful { M.is_faithful make.now }
    ensures { Builds result (steps.read_results s.entry.tokens.now stands x.now) }
{
    let f0 = params_by(true, x, s).ok_or(Stop::Absent)?;
    if mark(Operator::LeftParen, f0.rest).is_none() {
        return Err(Stop::Absent);
    }
    let params = params_from(alloc, make, true, x, s);
    let results = params_tree(alloc, make, false, f0.rest);
    let Piece {
        tree: (ps, qs),
        rest: r2,
    } = two_params(params, results)?;
    Ok(Piece {
        tree: Signature::Results(ps, qs),
        rest: r2,
    })
}

/// The form `result` of the signature.
#[inline(never)]
#[tactic(auto, unfolding(gs_grammar::specs::Steps::read_result))]
fn build_result<'a, M: Maker>(
    alloc: Global,
    make: &M,
    x: &'a Token,
    s: Rest<'a>,
) -> Result<Piece<'a, Signature>, Stop>
    requires faithful { M.is_faithful make.now }
    ensures { Builds result (steps.read_result s.entry.tokens.now stands x.now) }
{
    let f0 = params_by(true, x, s).ok_or(Stop::Absent)?;
    if mark(Operator::LeftParen, f0.rest).is_some() {
        return Err(Stop::Absent);
    }
    let params = params_from(alloc, make, true, x, s);
    let result = make.make_type(f0.rest);
    let Piece {
        tree: (ps, t),
        rest: r2,
    } = params_and_type(params, result)?;
    Ok(Piece {
        tree: Signature::Result(ps, t),
        rest: r2,
    })
}

/// The form `plain` of the signature.
#[inline(never)]
#[tactic(auto, unfolding(gs_grammar::specs::Steps::read_plain))]
fn build_plain<'a, M: Maker>(
    alloc: Global,
    make: &M,
    x: &'a Token,
    s: Rest<'a>,
) -> Result<Piece<'a, Signature>, Stop>
    requires faithful { M.is_faithful make.now }
    ensures { Builds result (steps.read_plain s.entry.tokens.now stands x.now) }
{
    let f0 = params_by(true, x, s).ok_or(Stop::Absent)?;
    if mark(Operator::LeftParen, f0.rest).is_some() {
        return Err(Stop::Absent);
    }
    if at_type(f0.rest).is_some() {
        return Err(Stop::Absent);
    }
    let ps = params_from(alloc, make, true, x, s)?.tree;
    Ok(Piece {
        tree: Signature::Plain(ps),
        rest: f0.rest,
    })
}

/// The signature that begins with the token.
#[tactic(auto, unfolding(gs_grammar::specs::Steps::signature_step))]
pub fn signature_from<'a, M: Maker>(
    alloc: Global,
    make: &M,
    x: &'a Token,
    s: Rest<'a>,
) -> Result<Piece<'a, Signature>, Stop>
    requires faithful { M.is_faithful make.now }
    ensures { Builds result (steps.signature_step s.entry.tokens.now stands x.now) }
{
    let found = params_by(true, x, s);
    if read_results(found, x, s).is_some() {
        return build_results(alloc, make, x, s);
    }
    if read_result(found, x, s).is_some() {
        return build_result(alloc, make, x, s);
    }
    build_plain(alloc, make, x, s)
}

/// The signature of the place.
#[tactic(auto, using(gs_places::proofs::Laws::at_signature, gs_places::proofs::Laws::end_signature))]
pub fn signature_tree<'a, M: Maker>(
    alloc: Global,
    make: &M,
    s: Rest<'a>,
) -> Result<Piece<'a, Signature>, Stop>
    requires faithful { M.is_faithful make.now }
    ensures { Builds result ((stands s.entry.tokens.now).signature) }
{
    let (x, rest) = s.next().ok_or(Stop::Absent)?;
    signature_from(alloc, make, x, rest)
}
