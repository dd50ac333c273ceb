//! Expressions in the notation.

use crate::part::{Part, Parts, Tree, put_list};
use gs_grammar::trees::{Element, ElementValue, Expr, LiteralValue, Suffix};
use gs_syntax::token::Token;
use std::alloc::AllocError;

/// Puts the parts of an operand.
fn open_operand<'t>(parts: &mut Parts<'t>, tree: &'t Expr) -> Result<(), AllocError> {
    match tree {
        Expr::Literal(token) | Expr::Name(token) => parts.put("#", &[Part::Token(token)]),
        Expr::Paren(left, inner, right) => {
            parts.put(
                "(paren #)##",
                &[Part::Expr(inner.get()), Part::At(*left), Part::At(*right)],
            )
        }
        Expr::Composite(of, value) => {
            parts.put("(lit # #)", &[Part::Type(of.get()), Part::Literal(value)])
        }
        Expr::Counted(left, element, value) => {
            parts.put(
                "(counted# # #)",
                &[
                    Part::At(*left),
                    Part::Type(element.get()),
                    Part::Literal(value),
                ],
            )
        }
        Expr::Type(of) => parts.put("<#>", &[Part::Type(of.get())]),
        Expr::Function(word, signature, body) => {
            parts.put("(func# ", &[Part::At(*word)])?;
            signature.get().put(parts)?;
            parts.put(" ", &[])?;
            body.put(parts)?;
            parts.put(")", &[])
        }
        _ => parts.put("?", &[]),
    }
}

/// Puts the parts of an expression.
pub fn open_expr<'t>(parts: &mut Parts<'t>, tree: &'t Expr) -> Result<(), AllocError> {
    match tree {
        Expr::Suffixed(operand, suffixes) => {
            parts.put("(# ", &[Part::Expr(operand.get())])?;
            put_list(parts, suffixes, " ")?;
            parts.put(")", &[])
        }
        Expr::Prefixed(operator, operand) => {
            parts.put("(# #)", &[Part::Token(operator), Part::Expr(operand.get())])
        }
        Expr::Binary(first, operands) => {
            parts.put("(# ", &[Part::Expr(first.get())])?;
            put_list(parts, operands, " ")?;
            parts.put(")", &[])
        }
        operand => open_operand(parts, operand),
    }
}

impl Tree for (Token, Expr) {
    fn put<'t>(&'t self, parts: &mut Parts<'t>) -> Result<(), AllocError> {
        let (operator, right) = self;
        parts.put("# #", &[Part::Token(operator), Part::Expr(right)])
    }
}

/// Puts a bound of a slice, where there is one, and what stands around it.
fn put_bound<'t>(
    parts: &mut Parts<'t>,
    none: &'static str,
    some: &'static str,
    bound: &'t Option<Expr>,
) -> Result<(), AllocError> {
    match bound {
        None => parts.put(none, &[]),
        Some(bound) => parts.put(some, &[Part::Expr(bound)]),
    }
}

impl Tree for Suffix {
    fn put<'t>(&'t self, parts: &mut Parts<'t>) -> Result<(), AllocError> {
        match self {
            Suffix::Selector(name) => parts.put(".#", &[Part::Token(name)]),
            Suffix::Assertion(of, right) => {
                parts.put(".(#)#", &[Part::Type(of), Part::At(*right)])
            }
            Suffix::Index(index, right) => {
                parts.put("[#]#", &[Part::Expr(index), Part::At(*right)])
            }
            Suffix::Slice(from, to, right) => {
                put_bound(parts, "[:", "[# :", from)?;
                put_bound(parts, "]", " #]", to)?;
                parts.put("#", &[Part::At(*right)])
            }
            Suffix::FullSlice(from, to, most, right) => {
                put_bound(parts, "[:", "[# :", from)?;
                parts.put(
                    " # : #]#",
                    &[Part::Expr(to), Part::Expr(most), Part::At(*right)],
                )
            }
            Suffix::Call(arguments, dots, right) => {
                parts.put("(", &[])?;
                put_list(parts, arguments, ", ")?;
                match dots {
                    None => parts.put(")#", &[Part::At(*right)]),
                    Some(dots) => parts.put(" ...#)#", &[Part::At(*dots), Part::At(*right)]),
                }
            }
        }
    }
}

/// Puts the parts of a literal's braces.
pub fn open_literal<'t>(parts: &mut Parts<'t>, tree: &'t LiteralValue) -> Result<(), AllocError> {
    parts.put("{", &[])?;
    put_list(parts, &tree.elements, ", ")?;
    parts.put("}##", &[Part::At(tree.left), Part::At(tree.right)])
}

impl Tree for Element {
    fn put<'t>(&'t self, parts: &mut Parts<'t>) -> Result<(), AllocError> {
        match self {
            Element::Plain(value) => value.put(parts),
            Element::Keyed(key, value) => {
                key.put(parts)?;
                parts.put(" : ", &[])?;
                value.put(parts)
            }
        }
    }
}

impl Tree for ElementValue {
    fn put<'t>(&'t self, parts: &mut Parts<'t>) -> Result<(), AllocError> {
        match self {
            ElementValue::Expr(value) => value.put(parts),
            ElementValue::Literal(value) => parts.put("#", &[Part::Literal(value)]),
        }
    }
}
