//! Trees of specs.
ghost use Rattle.std.specs.Prelude.{◌≡◌, ◌∷◌, false};
ghost use Rattle.gs_grammar.specs.Reference as reference;
ghost use Rattle.gs_places.specs.Places.{stands};
ghost use Rattle.gs_build_base.specs.Pieces.{Builds, Turns};

use gs_build_base::copies::copy;
use gs_build_base::front::first_name_token;
use gs_build_base::here::idents_here;
use gs_build_base::maker::Maker;
use gs_build_base::names::idents_from;
use gs_build_base::pieces::{Piece, Stop, Turn};
use gs_build_pairs::lists::Listed;
use gs_build_pairs::pairs::type_and_exprs;
use gs_grammar::trees::{ConstSpec, TypeSpec, VarSpec};
use gs_places::at::at_type;
use gs_places::front::{is_mark, mark, semi, spec_end};
use gs_places::rest::Rest;
use gs_rows_decls::groups::{
    const_spec_by, read_definition, read_implicit, read_last_const, read_last_type_spec,
    read_last_var, read_more_consts, read_more_type_specs, read_more_vars, read_typed_var,
    read_untyped, read_var_values, type_spec_by, var_spec_by,
};
use gs_syntax::token::{Operator, Token};
use sqlite_items::Items;
use std::alloc::Global;

/// The form `implicit` of the const spec.
#[tactic(auto, unfolding(gs_grammar::specs::Reference::read_implicit))]
fn build_implicit<'a>(
    alloc: Global,
    initial: bool,
    place: Rest<'a>,
    x: &'a Token,
    s: Rest<'a>,
) -> Result<Piece<'a, ConstSpec>, Stop>
    requires here { place.tokens.now ≡ x.now ∷ s.tokens.now }
    ensures { Builds result (reference.read_implicit s.entry.tokens.now stands initial x.now) }
{
    let f0 = idents_here(place, x, s).ok_or(Stop::Absent)?;
    if spec_end(f0.rest).is_none() {
        return Err(Stop::Absent);
    }
    if initial {
        return Err(Stop::Absent);
    }
    let xs = idents_from(alloc, place, x, s)?.tree;
    Ok(Piece {
        tree: ConstSpec::Implicit(xs),
        rest: f0.rest,
    })
}

/// The form `untyped` of the const spec.
#[inline(never)]
#[tactic(auto, unfolding(gs_grammar::specs::Reference::read_untyped))]
fn build_untyped<'a, M: Maker>(
    alloc: Global,
    make: &M,
    initial: bool,
    place: Rest<'a>,
    x: &'a Token,
    s: Rest<'a>,
) -> Result<Piece<'a, ConstSpec>, Stop>
    requires faithful { M.is_faithful make.now }
    requires here { place.tokens.now ≡ x.now ∷ s.tokens.now }
    ensures { Builds result (reference.read_untyped s.entry.tokens.now stands initial x.now) }
{
    let f0 = idents_here(place, x, s).ok_or(Stop::Absent)?;
    let r1 = mark(Operator::Assign, f0.rest).ok_or(Stop::Absent)?;
    let xs = idents_from(alloc, place, x, s)?.tree;
    let Piece { tree: ts, rest: r2 } = make.make_exprs(false, r1)?;
    Ok(Piece {
        tree: ConstSpec::Untyped(xs, ts),
        rest: r2,
    })
}

/// The form `typed_const` of the const spec.
#[inline(never)]
#[tactic(auto, unfolding(gs_grammar::specs::Reference::read_typed_const))]
fn build_typed_const<'a, M: Maker>(
    alloc: Global,
    make: &M,
    initial: bool,
    place: Rest<'a>,
    x: &'a Token,
    s: Rest<'a>,
) -> Result<Piece<'a, ConstSpec>, Stop>
    requires faithful { M.is_faithful make.now }
    requires here { place.tokens.now ≡ x.now ∷ s.tokens.now }
    ensures { Builds result (reference.read_typed_const s.entry.tokens.now stands initial x.now) }
{
    let f0 = idents_here(place, x, s).ok_or(Stop::Absent)?;
    if spec_end(f0.rest).is_some() {
        return Err(Stop::Absent);
    }
    if mark(Operator::Assign, f0.rest).is_some() {
        return Err(Stop::Absent);
    }
    let f3 = at_type(f0.rest).ok_or(Stop::Absent)?;
    let r4 = mark(Operator::Assign, f3.rest).ok_or(Stop::Absent)?;
    let xs = idents_from(alloc, place, x, s)?.tree;
    let typed = make.make_type(f0.rest);
    let values = make.make_exprs(false, r4);
    let Piece {
        tree: (t, ts),
        rest: r5,
    } = type_and_exprs(typed, values)?;
    Ok(Piece {
        tree: ConstSpec::Typed(xs, t, ts),
        rest: r5,
    })
}

/// The const spec that begins with the token.
#[tactic(auto, unfolding(gs_grammar::specs::Reference::const_spec_step))]
pub fn const_spec_from<'a, M: Maker>(
    alloc: Global,
    make: &M,
    initial: bool,
    place: Rest<'a>,
    x: &'a Token,
    s: Rest<'a>,
) -> Result<Piece<'a, ConstSpec>, Stop>
    requires faithful { M.is_faithful make.now }
    requires here { place.tokens.now ≡ x.now ∷ s.tokens.now }
    ensures { Builds result (reference.const_spec_step s.entry.tokens.now stands initial x.now) }
{
    let names = idents_here(place, x, s);
    if read_implicit(initial, names, x, s).is_some() {
        return build_implicit(alloc, initial, place, x, s);
    }
    if read_untyped(initial, names, x, s).is_some() {
        return build_untyped(alloc, make, initial, place, x, s);
    }
    build_typed_const(alloc, make, initial, place, x, s)
}

/// The const spec of the place.
#[tactic(auto, using(gs_places::proofs::Laws::at_const_spec, gs_places::proofs::Laws::end_const_spec))]
pub fn const_spec_tree<'a, M: Maker>(
    alloc: Global,
    make: &M,
    initial: bool,
    s: Rest<'a>,
) -> Result<Piece<'a, ConstSpec>, Stop>
    requires faithful { M.is_faithful make.now }
    ensures { Builds result ((stands s.entry.tokens.now).const_spec initial) }
{
    let (x, rest) = s.next().ok_or(Stop::Absent)?;
    const_spec_from(alloc, make, initial, s, x, rest)
}

/// The form `last_const` of the const specs.
#[inline(never)]
#[tactic(auto, unfolding(gs_grammar::specs::Reference::read_last_const, gs_build_base::specs::Pieces::joined))]
fn turn_last_const<'a, M: Maker>(
    alloc: Global,
    make: &M,
    initial: bool,
    place: Rest<'a>,
    x: &'a Token,
    s: Rest<'a>,
) -> Result<Turn<'a, ConstSpec>, Stop>
    requires faithful { M.is_faithful make.now }
    requires here { place.tokens.now ≡ x.now ∷ s.tokens.now }
    ensures { Turns (λ r. (stands r).const_specs false) result (reference.read_last_const s.entry.tokens.now stands initial x.now) }
{
    let f0 = const_spec_by(initial, idents_here(place, x, s), x, s).ok_or(Stop::Absent)?;
    if mark(Operator::RightParen, f0.rest).is_none() {
        return Err(Stop::Absent);
    }
    let c = const_spec_from(alloc, make, initial, place, x, s)?.tree;
    Ok(Turn::Last(c, f0.rest))
}

/// The form `more_consts` of the const specs.
#[inline(never)]
#[tactic(auto, unfolding(gs_grammar::specs::Reference::read_more_consts, gs_build_base::specs::Pieces::joined))]
fn turn_more_consts<'a, M: Maker>(
    alloc: Global,
    make: &M,
    initial: bool,
    place: Rest<'a>,
    x: &'a Token,
    s: Rest<'a>,
) -> Result<Turn<'a, ConstSpec>, Stop>
    requires faithful { M.is_faithful make.now }
    requires here { place.tokens.now ≡ x.now ∷ s.tokens.now }
    ensures { Turns (λ r. (stands r).const_specs false) result (reference.read_more_consts s.entry.tokens.now stands initial x.now) }
{
    let f0 = const_spec_by(initial, idents_here(place, x, s), x, s).ok_or(Stop::Absent)?;
    let r1 = semi(f0.rest).ok_or(Stop::Absent)?;
    let c = const_spec_from(alloc, make, initial, place, x, s)?.tree;
    Ok(Turn::More(c, r1))
}

/// What the const specs have at the place.
#[tactic(auto, using(gs_places::proofs::Laws::at_const_specs, gs_places::proofs::Laws::end_const_specs), unfolding(gs_grammar::specs::Reference::const_specs_step, gs_grammar::specs::Reference::read_no_consts, gs_grammar::specs::Front::mark_at))]
fn const_specs_turn<'a, M: Maker>(
    alloc: Global,
    make: &M,
    initial: bool,
    s: Rest<'a>,
) -> Result<Turn<'a, ConstSpec>, Stop>
    requires faithful { M.is_faithful make.now }
    ensures { Turns (λ r. (stands r).const_specs false) result ((stands s.entry.tokens.now).const_specs initial) }
{
    let (x, rest) = s.next().ok_or(Stop::Absent)?;
    let found = const_spec_by(initial, idents_here(s, x, rest), x, rest);
    if read_last_const(initial, found, x, rest).is_some() {
        return turn_last_const(alloc, make, initial, s, x, rest);
    }
    if read_more_consts(initial, found, x, rest).is_some() {
        return turn_more_consts(alloc, make, initial, s, x, rest);
    }
    if is_mark(Operator::RightParen, &x.kind) {
        Ok(Turn::End(s))
    } else {
        Err(Stop::Absent)
    }
}

/// The const specs of the place. There are at most as many as tokens.
#[tactic(auto, using(gs_build_base::proofs::Joins::joined_start, gs_build_base::proofs::Joins::joined_more, gs_build_base::proofs::Joins::joined_last, gs_build_base::proofs::Joins::joined_end, gs_build_base::proofs::Joins::joined_none))]
pub fn const_specs_tree<'a, M: Maker>(
    alloc: Global,
    make: &M,
    initial: bool,
    s: Rest<'a>,
) -> Result<Piece<'a, Items<ConstSpec>>, Stop>
    requires faithful { M.is_faithful make.now }
    ensures { Builds result ((stands s.entry.tokens.now).const_specs initial) }
{
    let mut found = Items::new(alloc);
    let mut rest = s;
    let mut now = initial;
    'turns: while found.len() <= s.tokens.len() {
        match const_specs_turn(alloc, make, now, rest) {
            Ok(Turn::More(item, more)) => {
                found = Listed::grown(found, item)?;
                rest = more;
                now = false;
            }
            Ok(Turn::Last(item, more)) => {
                found = Listed::grown(found, item)?;
                return Ok(Piece {
                    tree: found,
                    rest: more,
                });
            }
            Ok(Turn::End(more)) => return Ok(Piece {
                tree: found,
                rest: more,
            }),
            Err(stop) => {
                Listed::let_go(found);
                return Err(stop);
            }
        }
    }
    Listed::let_go(found);
    Err(Stop::Absent)
}

/// The form `definition` of the type spec.
#[inline(never)]
#[tactic(auto, unfolding(gs_grammar::specs::Reference::read_definition))]
fn build_definition<'a, M: Maker>(
    alloc: Global,
    make: &M,
    x: &'a Token,
    s: Rest<'a>,
) -> Result<Piece<'a, TypeSpec>, Stop>
    requires faithful { M.is_faithful make.now }
    ensures { Builds result (reference.read_definition s.entry.tokens.now stands x.now) }
{
    let (name, r0) = first_name_token(x, s).ok_or(Stop::Absent)?;
    if mark(Operator::Assign, r0).is_some() {
        return Err(Stop::Absent);
    }
    let name = copy(alloc, name)?;
    let Piece { tree: t, rest: r2 } = make.make_type(r0)?;
    Ok(Piece {
        tree: TypeSpec::Definition(name, t),
        rest: r2,
    })
}

/// The form `alias` of the type spec.
#[inline(never)]
#[tactic(auto, unfolding(gs_grammar::specs::Reference::read_alias))]
fn build_alias<'a, M: Maker>(
    alloc: Global,
    make: &M,
    x: &'a Token,
    s: Rest<'a>,
) -> Result<Piece<'a, TypeSpec>, Stop>
    requires faithful { M.is_faithful make.now }
    ensures { Builds result (reference.read_alias s.entry.tokens.now stands x.now) }
{
    let (name, r0) = first_name_token(x, s).ok_or(Stop::Absent)?;
    let r1 = mark(Operator::Assign, r0).ok_or(Stop::Absent)?;
    let name = copy(alloc, name)?;
    let Piece { tree: t, rest: r2 } = make.make_type(r1)?;
    Ok(Piece {
        tree: TypeSpec::Alias(name, t),
        rest: r2,
    })
}

/// The type spec that begins with the token.
#[tactic(auto, unfolding(gs_grammar::specs::Reference::type_spec_step))]
pub fn type_spec_from<'a, M: Maker>(
    alloc: Global,
    make: &M,
    x: &'a Token,
    s: Rest<'a>,
) -> Result<Piece<'a, TypeSpec>, Stop>
    requires faithful { M.is_faithful make.now }
    ensures { Builds result (reference.type_spec_step s.entry.tokens.now stands x.now) }
{
    if read_definition(x, s).is_some() {
        return build_definition(alloc, make, x, s);
    }
    build_alias(alloc, make, x, s)
}

/// The type spec of the place.
#[tactic(auto, using(gs_places::proofs::Laws::at_type_spec, gs_places::proofs::Laws::end_type_spec))]
pub fn type_spec_tree<'a, M: Maker>(
    alloc: Global,
    make: &M,
    s: Rest<'a>,
) -> Result<Piece<'a, TypeSpec>, Stop>
    requires faithful { M.is_faithful make.now }
    ensures { Builds result ((stands s.entry.tokens.now).type_spec) }
{
    let (x, rest) = s.next().ok_or(Stop::Absent)?;
    type_spec_from(alloc, make, x, rest)
}

/// The form `last_type_spec` of the type specs.
#[inline(never)]
#[tactic(auto, unfolding(gs_grammar::specs::Reference::read_last_type_spec, gs_build_base::specs::Pieces::joined))]
fn turn_last_type_spec<'a, M: Maker>(
    alloc: Global,
    make: &M,
    x: &'a Token,
    s: Rest<'a>,
) -> Result<Turn<'a, TypeSpec>, Stop>
    requires faithful { M.is_faithful make.now }
    ensures { Turns (λ r. (stands r).type_specs) result (reference.read_last_type_spec s.entry.tokens.now stands x.now) }
{
    let f0 = type_spec_by(x, s).ok_or(Stop::Absent)?;
    if mark(Operator::RightParen, f0.rest).is_none() {
        return Err(Stop::Absent);
    }
    let c = type_spec_from(alloc, make, x, s)?.tree;
    Ok(Turn::Last(c, f0.rest))
}

/// The form `more_type_specs` of the type specs.
#[inline(never)]
#[tactic(auto, unfolding(gs_grammar::specs::Reference::read_more_type_specs, gs_build_base::specs::Pieces::joined))]
fn turn_more_type_specs<'a, M: Maker>(
    alloc: Global,
    make: &M,
    x: &'a Token,
    s: Rest<'a>,
) -> Result<Turn<'a, TypeSpec>, Stop>
    requires faithful { M.is_faithful make.now }
    ensures { Turns (λ r. (stands r).type_specs) result (reference.read_more_type_specs s.entry.tokens.now stands x.now) }
{
    let f0 = type_spec_by(x, s).ok_or(Stop::Absent)?;
    let r1 = semi(f0.rest).ok_or(Stop::Absent)?;
    let c = type_spec_from(alloc, make, x, s)?.tree;
    Ok(Turn::More(c, r1))
}

/// What the type specs have at the place.
#[tactic(auto, using(gs_places::proofs::Laws::at_type_specs, gs_places::proofs::Laws::end_type_specs), unfolding(gs_grammar::specs::Reference::type_specs_step, gs_grammar::specs::Reference::read_no_type_specs, gs_grammar::specs::Front::mark_at))]
fn type_specs_turn<'a, M: Maker>(
    alloc: Global,
    make: &M,
    s: Rest<'a>,
) -> Result<Turn<'a, TypeSpec>, Stop>
    requires faithful { M.is_faithful make.now }
    ensures { Turns (λ r. (stands r).type_specs) result ((stands s.entry.tokens.now).type_specs) }
{
    let (x, rest) = s.next().ok_or(Stop::Absent)?;
    let found = type_spec_by(x, rest);
    if read_last_type_spec(found, x, rest).is_some() {
        return turn_last_type_spec(alloc, make, x, rest);
    }
    if read_more_type_specs(found, x, rest).is_some() {
        return turn_more_type_specs(alloc, make, x, rest);
    }
    if is_mark(Operator::RightParen, &x.kind) {
        Ok(Turn::End(s))
    } else {
        Err(Stop::Absent)
    }
}

/// The type specs of the place. There are at most as many as tokens.
#[tactic(auto, using(gs_build_base::proofs::Joins::joined_start, gs_build_base::proofs::Joins::joined_more, gs_build_base::proofs::Joins::joined_last, gs_build_base::proofs::Joins::joined_end, gs_build_base::proofs::Joins::joined_none))]
pub fn type_specs_tree<'a, M: Maker>(
    alloc: Global,
    make: &M,
    s: Rest<'a>,
) -> Result<Piece<'a, Items<TypeSpec>>, Stop>
    requires faithful { M.is_faithful make.now }
    ensures { Builds result ((stands s.entry.tokens.now).type_specs) }
{
    let mut found = Items::new(alloc);
    let mut rest = s;
    'turns: while found.len() <= s.tokens.len() {
        match type_specs_turn(alloc, make, rest) {
            Ok(Turn::More(item, more)) => {
                found = Listed::grown(found, item)?;
                rest = more;
            }
            Ok(Turn::Last(item, more)) => {
                found = Listed::grown(found, item)?;
                return Ok(Piece {
                    tree: found,
                    rest: more,
                });
            }
            Ok(Turn::End(more)) => return Ok(Piece {
                tree: found,
                rest: more,
            }),
            Err(stop) => {
                Listed::let_go(found);
                return Err(stop);
            }
        }
    }
    Listed::let_go(found);
    Err(Stop::Absent)
}

/// The form `var_values` of the var spec.
#[inline(never)]
#[tactic(auto, unfolding(gs_grammar::specs::Reference::read_var_values))]
fn build_var_values<'a, M: Maker>(
    alloc: Global,
    make: &M,
    place: Rest<'a>,
    x: &'a Token,
    s: Rest<'a>,
) -> Result<Piece<'a, VarSpec>, Stop>
    requires faithful { M.is_faithful make.now }
    requires here { place.tokens.now ≡ x.now ∷ s.tokens.now }
    ensures { Builds result (reference.read_var_values s.entry.tokens.now stands x.now) }
{
    let f0 = idents_here(place, x, s).ok_or(Stop::Absent)?;
    let r1 = mark(Operator::Assign, f0.rest).ok_or(Stop::Absent)?;
    let xs = idents_from(alloc, place, x, s)?.tree;
    let Piece { tree: ts, rest: r2 } = make.make_exprs(false, r1)?;
    Ok(Piece {
        tree: VarSpec::Values(xs, ts),
        rest: r2,
    })
}

/// The form `typed_var` of the var spec.
#[inline(never)]
#[tactic(auto, unfolding(gs_grammar::specs::Reference::read_typed_var))]
fn build_typed_var<'a, M: Maker>(
    alloc: Global,
    make: &M,
    place: Rest<'a>,
    x: &'a Token,
    s: Rest<'a>,
) -> Result<Piece<'a, VarSpec>, Stop>
    requires faithful { M.is_faithful make.now }
    requires here { place.tokens.now ≡ x.now ∷ s.tokens.now }
    ensures { Builds result (reference.read_typed_var s.entry.tokens.now stands x.now) }
{
    let f0 = idents_here(place, x, s).ok_or(Stop::Absent)?;
    if mark(Operator::Assign, f0.rest).is_some() {
        return Err(Stop::Absent);
    }
    let f2 = at_type(f0.rest).ok_or(Stop::Absent)?;
    if mark(Operator::Assign, f2.rest).is_some() {
        return Err(Stop::Absent);
    }
    let xs = idents_from(alloc, place, x, s)?.tree;
    let t = make.make_type(f0.rest)?.tree;
    Ok(Piece {
        tree: VarSpec::Typed(xs, t),
        rest: f2.rest,
    })
}

/// The form `typed_values` of the var spec.
#[inline(never)]
#[tactic(auto, unfolding(gs_grammar::specs::Reference::read_typed_values))]
fn build_typed_values<'a, M: Maker>(
    alloc: Global,
    make: &M,
    place: Rest<'a>,
    x: &'a Token,
    s: Rest<'a>,
) -> Result<Piece<'a, VarSpec>, Stop>
    requires faithful { M.is_faithful make.now }
    requires here { place.tokens.now ≡ x.now ∷ s.tokens.now }
    ensures { Builds result (reference.read_typed_values s.entry.tokens.now stands x.now) }
{
    let f0 = idents_here(place, x, s).ok_or(Stop::Absent)?;
    if mark(Operator::Assign, f0.rest).is_some() {
        return Err(Stop::Absent);
    }
    let f2 = at_type(f0.rest).ok_or(Stop::Absent)?;
    let r3 = mark(Operator::Assign, f2.rest).ok_or(Stop::Absent)?;
    let xs = idents_from(alloc, place, x, s)?.tree;
    let typed = make.make_type(f0.rest);
    let values = make.make_exprs(false, r3);
    let Piece {
        tree: (t, ts),
        rest: r4,
    } = type_and_exprs(typed, values)?;
    Ok(Piece {
        tree: VarSpec::TypedValues(xs, t, ts),
        rest: r4,
    })
}

/// The var spec that begins with the token.
#[tactic(auto, unfolding(gs_grammar::specs::Reference::var_spec_step))]
pub fn var_spec_from<'a, M: Maker>(
    alloc: Global,
    make: &M,
    place: Rest<'a>,
    x: &'a Token,
    s: Rest<'a>,
) -> Result<Piece<'a, VarSpec>, Stop>
    requires faithful { M.is_faithful make.now }
    requires here { place.tokens.now ≡ x.now ∷ s.tokens.now }
    ensures { Builds result (reference.var_spec_step s.entry.tokens.now stands x.now) }
{
    let names = idents_here(place, x, s);
    if read_var_values(names, x, s).is_some() {
        return build_var_values(alloc, make, place, x, s);
    }
    if read_typed_var(names, x, s).is_some() {
        return build_typed_var(alloc, make, place, x, s);
    }
    build_typed_values(alloc, make, place, x, s)
}

/// The var spec of the place.
#[tactic(auto, using(gs_places::proofs::Laws::at_var_spec, gs_places::proofs::Laws::end_var_spec))]
pub fn var_spec_tree<'a, M: Maker>(
    alloc: Global,
    make: &M,
    s: Rest<'a>,
) -> Result<Piece<'a, VarSpec>, Stop>
    requires faithful { M.is_faithful make.now }
    ensures { Builds result ((stands s.entry.tokens.now).var_spec) }
{
    let (x, rest) = s.next().ok_or(Stop::Absent)?;
    var_spec_from(alloc, make, s, x, rest)
}

/// The form `last_var` of the var specs.
#[inline(never)]
#[tactic(auto, unfolding(gs_grammar::specs::Reference::read_last_var, gs_build_base::specs::Pieces::joined))]
fn turn_last_var<'a, M: Maker>(
    alloc: Global,
    make: &M,
    place: Rest<'a>,
    x: &'a Token,
    s: Rest<'a>,
) -> Result<Turn<'a, VarSpec>, Stop>
    requires faithful { M.is_faithful make.now }
    requires here { place.tokens.now ≡ x.now ∷ s.tokens.now }
    ensures { Turns (λ r. (stands r).var_specs) result (reference.read_last_var s.entry.tokens.now stands x.now) }
{
    let f0 = var_spec_by(idents_here(place, x, s), x, s).ok_or(Stop::Absent)?;
    if mark(Operator::RightParen, f0.rest).is_none() {
        return Err(Stop::Absent);
    }
    let c = var_spec_from(alloc, make, place, x, s)?.tree;
    Ok(Turn::Last(c, f0.rest))
}

/// The form `more_vars` of the var specs.
#[inline(never)]
#[tactic(auto, unfolding(gs_grammar::specs::Reference::read_more_vars, gs_build_base::specs::Pieces::joined))]
fn turn_more_vars<'a, M: Maker>(
    alloc: Global,
    make: &M,
    place: Rest<'a>,
    x: &'a Token,
    s: Rest<'a>,
) -> Result<Turn<'a, VarSpec>, Stop>
    requires faithful { M.is_faithful make.now }
    requires here { place.tokens.now ≡ x.now ∷ s.tokens.now }
    ensures { Turns (λ r. (stands r).var_specs) result (reference.read_more_vars s.entry.tokens.now stands x.now) }
{
    let f0 = var_spec_by(idents_here(place, x, s), x, s).ok_or(Stop::Absent)?;
    let r1 = semi(f0.rest).ok_or(Stop::Absent)?;
    let c = var_spec_from(alloc, make, place, x, s)?.tree;
    Ok(Turn::More(c, r1))
}

/// What the var specs have at the place.
#[tactic(auto, using(gs_places::proofs::Laws::at_var_specs, gs_places::proofs::Laws::end_var_specs), unfolding(gs_grammar::specs::Reference::var_specs_step, gs_grammar::specs::Reference::read_no_vars, gs_grammar::specs::Front::mark_at))]
fn var_specs_turn<'a, M: Maker>(
    alloc: Global,
    make: &M,
    s: Rest<'a>,
) -> Result<Turn<'a, VarSpec>, Stop>
    requires faithful { M.is_faithful make.now }
    ensures { Turns (λ r. (stands r).var_specs) result ((stands s.entry.tokens.now).var_specs) }
{
    let (x, rest) = s.next().ok_or(Stop::Absent)?;
    let found = var_spec_by(idents_here(s, x, rest), x, rest);
    if read_last_var(found, x, rest).is_some() {
        return turn_last_var(alloc, make, s, x, rest);
    }
    if read_more_vars(found, x, rest).is_some() {
        return turn_more_vars(alloc, make, s, x, rest);
    }
    if is_mark(Operator::RightParen, &x.kind) {
        Ok(Turn::End(s))
    } else {
        Err(Stop::Absent)
    }
}

/// The var specs of the place. There are at most as many as tokens.
#[tactic(auto, using(gs_build_base::proofs::Joins::joined_start, gs_build_base::proofs::Joins::joined_more, gs_build_base::proofs::Joins::joined_last, gs_build_base::proofs::Joins::joined_end, gs_build_base::proofs::Joins::joined_none))]
pub fn var_specs_tree<'a, M: Maker>(
    alloc: Global,
    make: &M,
    s: Rest<'a>,
) -> Result<Piece<'a, Items<VarSpec>>, Stop>
    requires faithful { M.is_faithful make.now }
    ensures { Builds result ((stands s.entry.tokens.now).var_specs) }
{
    let mut found = Items::new(alloc);
    let mut rest = s;
    'turns: while found.len() <= s.tokens.len() {
        match var_specs_turn(alloc, make, rest) {
            Ok(Turn::More(item, more)) => {
                found = Listed::grown(found, item)?;
                rest = more;
            }
            Ok(Turn::Last(item, more)) => {
                found = Listed::grown(found, item)?;
                return Ok(Piece {
                    tree: found,
                    rest: more,
                });
            }
            Ok(Turn::End(more)) => return Ok(Piece {
                tree: found,
                rest: more,
            }),
            Err(stop) => {
                Listed::let_go(found);
                return Err(stop);
            }
        }
    }
    Listed::let_go(found);
    Err(Stop::Absent)
}
