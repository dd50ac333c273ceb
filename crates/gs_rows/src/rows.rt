//! What the table has of a token, from the rows behind it.
ghost use Rattle.std.specs.Prelude.{◌≡◌, ◌<◌, ◌+◌, ◌^◌, ◌∷◌, length, true, false};
ghost use Rattle.gs_grammar.specs.Steps as steps;
ghost use Rattle.gs_places.specs.Places.{lists_at, place, stands};
ghost use Rattle.gs_places.specs.Spots.{Spots};

use crate::arms::{arm_by, arms_by};
use crate::clauses::{clauses_by, comm_clauses_by, type_clauses_by, types_by};
use crate::joints::{is_joint, joint_by};
use crate::simples::simple_by;
use crate::stmts::{stmt_by, stmts_by};
use gs_places::place::{Lists, Place};
use gs_places::rest::{Rest, Spot, kept};
use gs_rows_decls::decls::{decl_by, import_spec_by, import_specs_by};
use gs_rows_decls::groups::{
    const_spec_by, const_specs_by, type_spec_by, type_specs_by, var_spec_by, var_specs_by,
};
use gs_rows_expr::rows::{Level, expr_row, level_by};
use gs_rows_types::rows::type_row;
use gs_rows_types::types::{idents_by, type_by, type_name_by};
use gs_syntax::token::Token;

/// What the table has of the statements and lists that begin with the token.
#[inline(always)]
#[tactic(auto, using(gs_places::proofs::Laws::at_stmts, gs_places::proofs::Laws::at_stmt, gs_places::proofs::Laws::at_arms, gs_places::proofs::Laws::at_clauses, gs_places::proofs::Laws::at_type_clauses, gs_places::proofs::Laws::at_comm_clauses, gs_places::proofs::Laws::at_types, gs_places::proofs::Laws::at_const_specs, gs_places::proofs::Laws::at_type_specs, gs_places::proofs::Laws::at_var_specs, gs_places::proofs::Laws::at_import_specs))]
fn list_row<'a>(
    names: Option<Spot<'a>>,
    found: Option<Spot<'a>>,
    plain: Level<'a>,
    header: Level<'a>,
    x: &Token,
    s: Rest<'a>,
) -> Lists
    requires few { length s.tokens.now + 1 < 2 ^ 32 }
    requires names { Spots names (steps.idents_step s.tokens.now stands x.now) }
    requires found { Spots found (steps.type_step s.tokens.now stands x.now) }
    requires plain { Spots plain.found (steps.expr_step s.tokens.now stands 5 false false x.now) }
    requires plains { Spots plain.exprs (steps.exprs_step s.tokens.now stands false x.now) }
    requires header { Spots header.found (steps.expr_step s.tokens.now stands 5 true false x.now) }
    requires headers { Spots header.exprs (steps.exprs_step s.tokens.now stands true x.now) }
    ensures { result ≡ lists_at (x.now ∷ s.entry.tokens.now) }
{
    let simple = simple_by(false, plain.exprs, plain.found, x, s);
    let stmt = stmt_by(simple, decl_by(x, s), x, s);
    let init = simple_by(true, header.exprs, header.found, x, s);
    Lists {
        stmts: stmts_by(stmt, x, s),
        stmt: kept(stmt),
        arms: kept(arms_by(arm_by(init, header.found, x, s), x, s)),
        clauses: clauses_by(x, s),
        type_clauses: type_clauses_by(x, s),
        comm_clauses: comm_clauses_by(x, s),
        types: kept(types_by(found, x, s)),
        const_specs: const_specs_by(false, const_spec_by(false, names, x, s), x, s),
        type_specs: type_specs_by(type_spec_by(x, s), x, s),
        var_specs: var_specs_by(var_spec_by(names, x, s), x, s),
        import_specs: import_specs_by(import_spec_by(x, s), x, s),
    }
}

/// What the table has of the token that stands before these places.
#[tactic(auto, unfolding(gs_places::specs::Places::place))]
pub fn place_by<'a>(x: &Token, s: Rest<'a>) -> Place
    requires few { length s.tokens.now + 1 < 2 ^ 32 }
    ensures { result ≡ place (x.now ∷ s.entry.tokens.now) }
{
    if is_joint(&x.kind) {
        return joint_by(x, s);
    }
    let names = idents_by(x, s);
    let found = type_by(type_name_by(x, s), x, s);
    let plain = level_by(false, found, x, s);
    let header = level_by(true, found, x, s);
    Place {
        types: type_row(names, found, x, s),
        exprs: expr_row(plain, header, found, x, s),
        lists: list_row(names, found, plain, header, x, s),
    }
}
