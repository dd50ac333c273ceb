//! Clauses in the notation.

use crate::part::{Part, Parts, Tree, put_list};
use gs_grammar::trees::{Clause, Comm, CommClause, Stmt, TypeClause};
use gs_syntax::token::Span;
use sqlite_items::Items;
use std::alloc::AllocError;

/// Puts the statements of a case.
fn put_body<'t>(parts: &mut Parts<'t>, statements: &'t Items<Stmt>) -> Result<(), AllocError> {
    parts.put(" {#}]", &[Part::Stmts(statements)])
}

/// Puts a clause without a case.
fn put_default<'t>(
    parts: &mut Parts<'t>,
    word: Span,
    statements: &'t Items<Stmt>,
) -> Result<(), AllocError> {
    parts.put("[default#", &[Part::At(word)])?;
    put_body(parts, statements)
}

impl Tree for Clause {
    fn put<'t>(&'t self, parts: &mut Parts<'t>) -> Result<(), AllocError> {
        match self {
            Clause::Case(word, values, statements) => {
                parts.put("[case# ", &[Part::At(*word)])?;
                put_list(parts, values, ", ")?;
                put_body(parts, statements)
            }
            Clause::Default(word, statements) => put_default(parts, *word, statements),
        }
    }
}

impl Tree for TypeClause {
    fn put<'t>(&'t self, parts: &mut Parts<'t>) -> Result<(), AllocError> {
        match self {
            TypeClause::Case(word, types, statements) => {
                parts.put("[case# ", &[Part::At(*word)])?;
                put_list(parts, types, ", ")?;
                put_body(parts, statements)
            }
            TypeClause::Default(word, statements) => put_default(parts, *word, statements),
        }
    }
}

impl Tree for CommClause {
    fn put<'t>(&'t self, parts: &mut Parts<'t>) -> Result<(), AllocError> {
        match self {
            CommClause::Case(word, comm, statements) => {
                parts.put("[case# ", &[Part::At(*word)])?;
                comm.put(parts)?;
                put_body(parts, statements)
            }
            CommClause::Default(word, statements) => put_default(parts, *word, statements),
        }
    }
}

impl Tree for Comm {
    fn put<'t>(&'t self, parts: &mut Parts<'t>) -> Result<(), AllocError> {
        match self {
            Comm::Send(channel, operator, value) => {
                parts.put(
                    "# # #",
                    &[
                        Part::Expr(channel),
                        Part::Token(operator),
                        Part::Expr(value),
                    ],
                )
            }
            Comm::Receive(operand) => parts.put("receive #", &[Part::Expr(operand)]),
            Comm::Assign(left, assign, right) => {
                put_list(parts, left, ", ")?;
                parts.put(" =# #", &[Part::At(*assign), Part::Expr(right)])
            }
            Comm::Define(left, define, right) => {
                put_list(parts, left, ", ")?;
                parts.put(" :=# #", &[Part::At(*define), Part::Expr(right)])
            }
        }
    }
}
