//! What the table has at a place, as a place further on.
ghost use Rattle.std.specs.Prelude.{◌≡◌, ◌≤◌, true, false};
ghost use Rattle.gs_places.specs.Places.{levels_at, stands};
ghost use Rattle.gs_places.specs.Spots.{Spots};

use crate::place::Levels;
use crate::rest::{Rest, Spot};

#[inline(always)]
#[tactic(auto, using(crate::proofs::Within::within_idents), unfolding(crate::specs::Places::place))]
pub fn at_idents<'a>(s: Rest<'a>) -> Option<Spot<'a>>
    ensures { Spots result ((stands s.entry.tokens.now).idents) }
{
    s.jump(s.here().types.idents)
}

#[inline(always)]
#[tactic(auto, using(crate::proofs::Within::within_type), unfolding(crate::specs::Places::place))]
pub fn at_type<'a>(s: Rest<'a>) -> Option<Spot<'a>>
    ensures { Spots result ((stands s.entry.tokens.now).type) }
{
    s.jump(s.here().types.type_expr)
}

#[inline(always)]
#[tactic(auto, using(crate::proofs::Within::within_fields), unfolding(crate::specs::Places::place))]
pub fn at_fields<'a>(s: Rest<'a>) -> Option<Spot<'a>>
    ensures { Spots result ((stands s.entry.tokens.now).fields) }
{
    s.jump(s.here().types.fields)
}

#[inline(always)]
#[tactic(auto, using(crate::proofs::Within::within_members), unfolding(crate::specs::Places::place))]
pub fn at_members<'a>(s: Rest<'a>) -> Option<Spot<'a>>
    ensures { Spots result ((stands s.entry.tokens.now).members) }
{
    s.jump(s.here().types.members)
}

#[inline(always)]
#[tactic(auto, using(crate::proofs::Within::within_unnamed), unfolding(crate::specs::Places::place))]
pub fn at_unnamed<'a>(dots: bool, s: Rest<'a>) -> Option<Spot<'a>>
    ensures { Spots result ((stands s.entry.tokens.now).unnamed dots) }
{
    let types = &s.here().types;
    s.jump(if dots {
        types.unnamed_dots
    } else {
        types.unnamed
    })
}

#[inline(always)]
#[tactic(auto, using(crate::proofs::Within::within_named_params), unfolding(crate::specs::Places::place))]
pub fn at_named_params<'a>(dots: bool, s: Rest<'a>) -> Option<Spot<'a>>
    ensures { Spots result ((stands s.entry.tokens.now).named_params dots) }
{
    let types = &s.here().types;
    s.jump(if dots { types.named_dots } else { types.named })
}

#[inline(always)]
#[tactic(auto, using(crate::proofs::Within::within_expr), unfolding(crate::specs::Places::place))]
pub fn at_inner<'a>(s: Rest<'a>) -> Option<Spot<'a>>
    ensures { Spots result ((stands s.entry.tokens.now).expr 5 false true) }
{
    s.jump(s.here().exprs.inner)
}

#[inline(always)]
#[tactic(auto, using(crate::proofs::Within::within_suffixes), unfolding(crate::specs::Places::place))]
pub fn at_suffixes<'a>(s: Rest<'a>) -> Option<Spot<'a>>
    ensures { Spots result ((stands s.entry.tokens.now).suffixes) }
{
    s.jump(s.here().exprs.suffixes)
}

#[inline(always)]
#[tactic(auto, using(crate::proofs::Within::within_args), unfolding(crate::specs::Places::place))]
pub fn at_args<'a>(s: Rest<'a>) -> Option<Spot<'a>>
    ensures { Spots result ((stands s.entry.tokens.now).args) }
{
    s.jump(s.here().exprs.args)
}

#[inline(always)]
#[tactic(auto, using(crate::proofs::Within::within_elements), unfolding(crate::specs::Places::place))]
pub fn at_elements<'a>(s: Rest<'a>) -> Option<Spot<'a>>
    ensures { Spots result ((stands s.entry.tokens.now).elements) }
{
    s.jump(s.here().exprs.elements)
}

/// The expressions of a place, in a header or not.
#[inline(always)]
#[tactic(auto, unfolding(crate::specs::Places::place))]
fn levels<'a>(header: bool, s: Rest<'a>) -> &'a Levels
    ensures { result.now ≡ levels_at header s.entry.tokens.now }
{
    let exprs = &s.here().exprs;
    if header { &exprs.header } else { &exprs.plain }
}

#[inline(always)]
#[tactic(auto, using(crate::proofs::Within::within_unary))]
pub fn at_unary<'a>(header: bool, first: bool, s: Rest<'a>) -> Option<Spot<'a>>
    ensures { Spots result ((stands s.entry.tokens.now).unary header first) }
{
    let levels = levels(header, s);
    s.jump(if first {
        levels.unary_first
    } else {
        levels.unary
    })
}

#[inline(always)]
#[tactic(auto, using(crate::proofs::Within::within_expr, crate::proofs::Within::expr_zero))]
pub fn at_expr<'a>(level: u8, header: bool, s: Rest<'a>) -> Option<Spot<'a>>
    requires { level ≤ 5 }
    ensures { Spots result ((stands s.entry.tokens.now).expr level header false) }
{
    let levels = levels(header, s);
    let cell = match level {
        0 => levels.unary,
        1 => levels.product,
        2 => levels.sum,
        3 => levels.comparison,
        4 => levels.conjunction,
        _ => levels.disjunction,
    };
    s.jump(cell)
}

#[inline(always)]
#[tactic(auto, using(crate::proofs::Within::within_operands))]
pub fn at_operands<'a>(level: u8, header: bool, s: Rest<'a>) -> Option<Spot<'a>>
    requires { level ≤ 4 }
    ensures { Spots result ((stands s.entry.tokens.now).operands level header) }
{
    let levels = levels(header, s);
    let cell = match level {
        0 => levels.factors,
        1 => levels.terms,
        2 => levels.compared,
        3 => levels.conjoined,
        _ => levels.disjoined,
    };
    s.jump(cell)
}

#[inline(always)]
#[tactic(auto, using(crate::proofs::Within::within_exprs))]
pub fn at_exprs<'a>(header: bool, s: Rest<'a>) -> Option<Spot<'a>>
    ensures { Spots result ((stands s.entry.tokens.now).exprs header) }
{
    s.jump(levels(header, s).exprs)
}

#[inline(always)]
#[tactic(auto, using(crate::proofs::Within::within_stmts), unfolding(crate::specs::Places::place))]
pub fn at_stmts<'a>(s: Rest<'a>) -> Option<Spot<'a>>
    ensures { Spots result ((stands s.entry.tokens.now).stmts) }
{
    s.jump(s.here().lists.stmts)
}

#[inline(always)]
#[tactic(auto, using(crate::proofs::Within::within_stmt), unfolding(crate::specs::Places::place))]
pub fn at_stmt<'a>(s: Rest<'a>) -> Option<Spot<'a>>
    ensures { Spots result ((stands s.entry.tokens.now).stmt) }
{
    s.jump(s.here().lists.stmt)
}

#[inline(always)]
#[tactic(auto, using(crate::proofs::Within::within_arms), unfolding(crate::specs::Places::place))]
pub fn at_arms<'a>(s: Rest<'a>) -> Option<Spot<'a>>
    ensures { Spots result ((stands s.entry.tokens.now).arms) }
{
    s.jump(s.here().lists.arms)
}

#[inline(always)]
#[tactic(auto, using(crate::proofs::Within::within_clauses), unfolding(crate::specs::Places::place))]
pub fn at_clauses<'a>(s: Rest<'a>) -> Option<Spot<'a>>
    ensures { Spots result ((stands s.entry.tokens.now).clauses) }
{
    s.jump(s.here().lists.clauses)
}

#[inline(always)]
#[tactic(auto, using(crate::proofs::Within::within_type_clauses), unfolding(crate::specs::Places::place))]
pub fn at_type_clauses<'a>(s: Rest<'a>) -> Option<Spot<'a>>
    ensures { Spots result ((stands s.entry.tokens.now).type_clauses) }
{
    s.jump(s.here().lists.type_clauses)
}

#[inline(always)]
#[tactic(auto, using(crate::proofs::Within::within_comm_clauses), unfolding(crate::specs::Places::place))]
pub fn at_comm_clauses<'a>(s: Rest<'a>) -> Option<Spot<'a>>
    ensures { Spots result ((stands s.entry.tokens.now).comm_clauses) }
{
    s.jump(s.here().lists.comm_clauses)
}

#[inline(always)]
#[tactic(auto, using(crate::proofs::Within::within_types), unfolding(crate::specs::Places::place))]
pub fn at_types<'a>(s: Rest<'a>) -> Option<Spot<'a>>
    ensures { Spots result ((stands s.entry.tokens.now).types) }
{
    s.jump(s.here().lists.types)
}

#[inline(always)]
#[tactic(auto, using(crate::proofs::Within::within_const_specs), unfolding(crate::specs::Places::place))]
pub fn at_const_specs<'a>(s: Rest<'a>) -> Option<Spot<'a>>
    ensures { Spots result ((stands s.entry.tokens.now).const_specs false) }
{
    s.jump(s.here().lists.const_specs)
}

#[inline(always)]
#[tactic(auto, using(crate::proofs::Within::within_type_specs), unfolding(crate::specs::Places::place))]
pub fn at_type_specs<'a>(s: Rest<'a>) -> Option<Spot<'a>>
    ensures { Spots result ((stands s.entry.tokens.now).type_specs) }
{
    s.jump(s.here().lists.type_specs)
}

#[inline(always)]
#[tactic(auto, using(crate::proofs::Within::within_var_specs), unfolding(crate::specs::Places::place))]
pub fn at_var_specs<'a>(s: Rest<'a>) -> Option<Spot<'a>>
    ensures { Spots result ((stands s.entry.tokens.now).var_specs) }
{
    s.jump(s.here().lists.var_specs)
}

#[inline(always)]
#[tactic(auto, using(crate::proofs::Within::within_import_specs), unfolding(crate::specs::Places::place))]
pub fn at_import_specs<'a>(s: Rest<'a>) -> Option<Spot<'a>>
    ensures { Spots result ((stands s.entry.tokens.now).import_specs) }
{
    s.jump(s.here().lists.import_specs)
}
