//! Statements in the notation.

use crate::part::{Part, Parts, Tree, put_list};
use gs_grammar::trees::{Arm, Block, Expr, RangeLeft, Simple, Stmt};
use gs_syntax::token::{Span, Token};
use std::alloc::AllocError;

/// An expression, or `none`.
fn perhaps(tree: &Option<Expr>) -> Part<'_> {
    match tree {
        None => Part::Word("none"),
        Some(tree) => Part::Expr(tree),
    }
}

/// Puts a keyword, and perhaps a label.
fn put_target<'t>(
    parts: &mut Parts<'t>,
    none: &'static str,
    some: &'static str,
    word: Span,
    label: &'t Option<Token>,
) -> Result<(), AllocError> {
    match label {
        None => parts.put(none, &[Part::At(word)]),
        Some(label) => parts.put(some, &[Part::At(word), Part::Token(label)]),
    }
}

/// Puts a statement that begins with a keyword and has no block of its own.
fn put_short_stmt<'t>(parts: &mut Parts<'t>, tree: &'t Stmt) -> Result<(), AllocError> {
    match tree {
        Stmt::Go(word, call) => parts.put("(go# #)", &[Part::At(*word), Part::Expr(call)]),
        Stmt::Defer(word, call) => parts.put("(defer# #)", &[Part::At(*word), Part::Expr(call)]),
        Stmt::Return(word, values) => {
            parts.put("(return#", &[Part::At(*word)])?;
            if !values.is_empty() {
                parts.put(" ", &[])?;
            }
            put_list(parts, values, ", ")?;
            parts.put(")", &[])
        }
        Stmt::Break(word, label) => put_target(parts, "(break#)", "(break# #)", *word, label),
        Stmt::Continue(word, label) => {
            put_target(parts, "(continue#)", "(continue# #)", *word, label)
        }
        Stmt::Goto(word, label) => parts.put("(goto# #)", &[Part::At(*word), Part::Token(label)]),
        Stmt::Fallthrough(word) => parts.put("(fallthrough#)", &[Part::At(*word)]),
        _ => parts.put("?", &[]),
    }
}

/// Puts a switch of either kind, or of a select.
fn put_switch<'t>(parts: &mut Parts<'t>, tree: &'t Stmt) -> Result<(), AllocError> {
    match tree {
        Stmt::Switch(word, header, tag, clauses, right) => {
            parts.put("(switch# ", &[Part::At(*word)])?;
            header.put(parts)?;
            parts.put("; # {", &[perhaps(tag)])?;
            put_list(parts, clauses, " ")?;
            parts.put("}#)", &[Part::At(*right)])
        }
        Stmt::TypeSwitch(word, header, symbol, operand, of, clauses, right) => {
            parts.put("(switch# ", &[Part::At(*word)])?;
            header.put(parts)?;
            parts.put("; ", &[])?;
            if let Some((symbol, define)) = symbol {
                parts.put("# :=# ", &[Part::Token(symbol), Part::At(*define)])?;
            }
            parts.put("# .type# {", &[Part::Expr(operand), Part::At(*of)])?;
            put_list(parts, clauses, " ")?;
            parts.put("}#)", &[Part::At(*right)])
        }
        Stmt::Select(word, clauses, right) => {
            parts.put("(select# {", &[Part::At(*word)])?;
            put_list(parts, clauses, " ")?;
            parts.put("}#)", &[Part::At(*right)])
        }
        other => put_short_stmt(parts, other),
    }
}

impl Tree for RangeLeft {
    fn put<'t>(&'t self, parts: &mut Parts<'t>) -> Result<(), AllocError> {
        match self {
            RangeLeft::Absent => Ok(()),
            RangeLeft::Assign(left, assign) => {
                put_list(parts, left, ", ")?;
                parts.put(" =# ", &[Part::At(*assign)])
            }
            RangeLeft::Define(left, define) => {
                put_list(parts, left, ", ")?;
                parts.put(" :=# ", &[Part::At(*define)])
            }
        }
    }
}

/// Puts a loop.
fn put_loop<'t>(parts: &mut Parts<'t>, tree: &'t Stmt) -> Result<(), AllocError> {
    match tree {
        Stmt::While(word, condition, body) => {
            parts.put("(while# # ", &[Part::At(*word), perhaps(condition)])?;
            body.put(parts)?;
        }
        Stmt::Loop(word, header, condition, post, body) => {
            parts.put("(for# ", &[Part::At(*word)])?;
            header.put(parts)?;
            parts.put("; #; ", &[perhaps(condition)])?;
            post.put(parts)?;
            parts.put(" ", &[])?;
            body.put(parts)?;
        }
        Stmt::Range(word, left, operand, body) => {
            parts.put("(range# ", &[Part::At(*word)])?;
            left.put(parts)?;
            parts.put("# ", &[Part::Expr(operand)])?;
            body.put(parts)?;
        }
        other => return put_switch(parts, other),
    }
    parts.put(")", &[])
}

impl Tree for Stmt {
    fn put<'t>(&'t self, parts: &mut Parts<'t>) -> Result<(), AllocError> {
        match self {
            Stmt::Declaration(declaration) => declaration.put(parts),
            Stmt::Labeled(label, inner) => {
                parts.put("(label # #)", &[Part::Token(label), Part::Labeled(inner)])
            }
            Stmt::Simple(simple) => simple.put(parts),
            Stmt::Block(block) => block.put(parts),
            Stmt::If(word, arms, last) => {
                parts.put("(if# ", &[Part::At(*word)])?;
                put_list(parts, arms, " ")?;
                if let Some(last) = last {
                    parts.put(" else ", &[])?;
                    last.put(parts)?;
                }
                parts.put(")", &[])
            }
            other => put_loop(parts, other),
        }
    }
}

impl Tree for Block {
    fn put<'t>(&'t self, parts: &mut Parts<'t>) -> Result<(), AllocError> {
        let statements = Part::Stmts(&self.statements);
        parts.put(
            "{#}##",
            &[statements, Part::At(self.left), Part::At(self.right)],
        )
    }
}

impl Tree for Arm {
    fn put<'t>(&'t self, parts: &mut Parts<'t>) -> Result<(), AllocError> {
        parts.put("[", &[])?;
        self.header.put(parts)?;
        parts.put("; # ", &[Part::Expr(&self.condition)])?;
        self.body.put(parts)?;
        parts.put("]", &[])
    }
}

impl Tree for Simple {
    fn put<'t>(&'t self, parts: &mut Parts<'t>) -> Result<(), AllocError> {
        match self {
            Simple::Empty => parts.put("empty", &[]),
            Simple::Expr(of) => of.put(parts),
            Simple::Send(left, operator, right) | Simple::Update(left, operator, right) => {
                parts.put(
                    "# # #",
                    &[Part::Expr(left), Part::Token(operator), Part::Expr(right)],
                )
            }
            Simple::Step(operand, operator) => {
                parts.put("# #", &[Part::Expr(operand), Part::Token(operator)])
            }
            Simple::Assign(left, assign, right) => {
                put_list(parts, left, ", ")?;
                parts.put(" =# ", &[Part::At(*assign)])?;
                put_list(parts, right, ", ")
            }
            Simple::Define(left, define, right) => {
                put_list(parts, left, ", ")?;
                parts.put(" :=# ", &[Part::At(*define)])?;
                put_list(parts, right, ", ")
            }
        }
    }
}
