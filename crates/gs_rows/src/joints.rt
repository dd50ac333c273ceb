//! What the table has of a token that only joins or ends forms: nothing begins with it but the right side of an operator and
//! lists that are empty.
ghost use Rattle.std.specs.Prelude.{◌≡◌, ◌<◌, ◌+◌, ◌^◌, ◌∷◌, length, true};
ghost use Rattle.gs_rows.specs.Joints as spec;
ghost use Rattle.gs_places.specs.Places.{exprs_at, levels_at, lists_at, place, types_at};

use crate::arms::{arm_by, arms_by};
use crate::clauses::{clauses_by, comm_clauses_by, type_clauses_by};
use crate::stmts::stmts_by;
use gs_places::place::{Exprs, Levels, Lists, Place, Types};
use gs_places::rest::{Rest, kept};
use gs_rows_decls::decls::import_specs_by;
use gs_rows_decls::groups::{const_specs_by, type_specs_by, var_specs_by};
use gs_rows_expr::lists::{args_by, elements_by, suffixes_by};
use gs_rows_expr::rows::operators;
use gs_rows_types::members::{fields_by, members_by};
use gs_syntax::token::{Operator, Token, TokenKind};

/// Whether the token only joins or ends forms.
#[inline(always)]
pub fn is_joint(kind: &TokenKind) -> bool
    ensures { result ≡ spec.is_joint kind.now }
{
    match kind {
        TokenKind::Operator(mark) => match mark {
            Operator::Plus
            | Operator::Minus
            | Operator::Star
            | Operator::And
            | Operator::Caret
            | Operator::Arrow
            | Operator::Not
            | Operator::Ellipsis
            | Operator::LeftParen
            | Operator::LeftBracket
            | Operator::LeftBrace
            | Operator::Dot => false,
            _ => true,
        },
        TokenKind::Bad | TokenKind::Inserted => true,
        _ => false,
    }
}

/// The types that begin with the token, and their parts.
#[inline(always)]
#[tactic(auto, using(gs_places::proofs::Laws::at_idents, gs_places::proofs::Laws::at_type, gs_places::proofs::Laws::at_unnamed, gs_places::proofs::Laws::at_named_params, gs_places::proofs::Laws::at_fields, gs_places::proofs::Laws::at_members, crate::proofs::Absences::no_idents, crate::proofs::Absences::no_type, crate::proofs::Absences::no_unnamed, crate::proofs::Absences::no_named_params, crate::proofs::Absences::no_field, crate::proofs::Absences::no_member))]
fn joint_types(x: &Token, s: Rest<'_>) -> Types
    requires few { length s.tokens.now + 1 < 2 ^ 32 }
    requires joint { spec.is_joint x.now.kind ≡ true }
    ensures { result ≡ types_at (x.now ∷ s.entry.tokens.now) }
{
    Types {
        idents: None,
        type_expr: None,
        unnamed_dots: None,
        unnamed: None,
        named_dots: None,
        named: None,
        fields: fields_by(None, x, s),
        members: members_by(None, x, s),
    }
}

/// The expressions that begin with the token, in a header or not.
#[inline(always)]
#[tactic(auto, using(gs_places::proofs::Laws::at_unary, gs_places::proofs::Laws::at_expr, gs_places::proofs::Laws::at_exprs, crate::proofs::Absences::no_unary, crate::proofs::Absences::no_expr, crate::proofs::Absences::no_exprs))]
fn joint_levels(header: bool, x: &Token, s: Rest<'_>) -> Levels
    requires few { length s.tokens.now + 1 < 2 ^ 32 }
    requires joint { spec.is_joint x.now.kind ≡ true }
    ensures { result ≡ levels_at header (x.now ∷ s.entry.tokens.now) }
{
    Levels {
        unary: None,
        unary_first: None,
        product: None,
        sum: None,
        comparison: None,
        conjunction: None,
        disjunction: None,
        factors: operators(0, header, x, s),
        terms: operators(1, header, x, s),
        compared: operators(2, header, x, s),
        conjoined: operators(3, header, x, s),
        disjoined: operators(4, header, x, s),
        exprs: None,
    }
}

/// What the table has of the expressions that begin with the token.
#[inline(always)]
#[tactic(auto, using(gs_places::proofs::Laws::at_expr, gs_places::proofs::Laws::at_suffixes, gs_places::proofs::Laws::at_args, gs_places::proofs::Laws::at_elements, crate::proofs::Absences::no_expr, crate::proofs::Absences::no_suffix, crate::proofs::Absences::no_element))]
fn joint_exprs(x: &Token, s: Rest<'_>) -> Exprs
    requires few { length s.tokens.now + 1 < 2 ^ 32 }
    requires joint { spec.is_joint x.now.kind ≡ true }
    ensures { result ≡ exprs_at (x.now ∷ s.entry.tokens.now) }
{
    Exprs {
        plain: joint_levels(false, x, s),
        header: joint_levels(true, x, s),
        inner: None,
        suffixes: suffixes_by(None, x, s),
        args: args_by(None, x, s),
        elements: elements_by(None, x, s),
    }
}

/// What the table has of the statements and lists that begin with the token.
#[inline(always)]
#[tactic(auto, using(gs_places::proofs::Laws::at_stmts, gs_places::proofs::Laws::at_stmt, gs_places::proofs::Laws::at_arms, gs_places::proofs::Laws::at_clauses, gs_places::proofs::Laws::at_type_clauses, gs_places::proofs::Laws::at_comm_clauses, gs_places::proofs::Laws::at_types, gs_places::proofs::Laws::at_const_specs, gs_places::proofs::Laws::at_type_specs, gs_places::proofs::Laws::at_var_specs, gs_places::proofs::Laws::at_import_specs, crate::proofs::Absences::no_stmt, crate::proofs::Absences::no_simple, crate::proofs::Absences::no_expr, crate::proofs::Absences::no_types, crate::proofs::Absences::no_const_spec, crate::proofs::Absences::no_type_spec, crate::proofs::Absences::no_var_spec, crate::proofs::Absences::no_import_spec))]
fn joint_lists(x: &Token, s: Rest<'_>) -> Lists
    requires few { length s.tokens.now + 1 < 2 ^ 32 }
    requires joint { spec.is_joint x.now.kind ≡ true }
    ensures { result ≡ lists_at (x.now ∷ s.entry.tokens.now) }
{
    Lists {
        stmts: stmts_by(None, x, s),
        stmt: None,
        arms: kept(arms_by(arm_by(None, None, x, s), x, s)),
        clauses: clauses_by(x, s),
        type_clauses: type_clauses_by(x, s),
        comm_clauses: comm_clauses_by(x, s),
        types: None,
        const_specs: const_specs_by(false, None, x, s),
        type_specs: type_specs_by(None, x, s),
        var_specs: var_specs_by(None, x, s),
        import_specs: import_specs_by(None, x, s),
    }
}

/// What the table has of a token that only joins or ends forms, and stands before these places.
#[tactic(auto, unfolding(gs_places::specs::Places::place))]
pub fn joint_by(x: &Token, s: Rest<'_>) -> Place
    requires few { length s.tokens.now + 1 < 2 ^ 32 }
    requires joint { spec.is_joint x.now.kind ≡ true }
    ensures { result ≡ place (x.now ∷ s.entry.tokens.now) }
{
    Place {
        types: joint_types(x, s),
        exprs: joint_exprs(x, s),
        lists: joint_lists(x, s),
    }
}
