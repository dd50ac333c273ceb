//! What is still to be written of a tree.

use gs_grammar::trees::{Expr, LiteralValue, Stmt, TypeExpr};
use gs_syntax::token::{Span, Token};
use sqlite_items::{Boxed, Items};
use std::alloc::{AllocError, Global};

/// A word of the notation, or a tree. A statement stands in its list or its box, since a reference to a type of that size is
/// refused where it is put into another type.
#[derive(Clone, Copy)]
pub enum Part<'t> {
    Word(&'static str),
    At(Span),
    Token(&'t Token),
    Type(&'t TypeExpr),
    Expr(&'t Expr),
    Literal(&'t LiteralValue),
    Stmts(&'t Items<Stmt>),
    Labeled(&'t Boxed<Stmt>),
}

/// What is still to be written of a tree.
#[derive(Drop)]
pub struct Parts<'t> {
    /// What was put since the last part was taken, in order.
    line: Vec<Part<'t>>,
    /// What comes behind the line, the next part last.
    stack: Vec<Part<'t>>,
}

impl<'t> Parts<'t> {
    pub fn new(alloc: Global) -> Self {
        Parts {
            line: Vec::new(alloc),
            stack: Vec::new(alloc),
        }
    }

    /// Puts a form: its words, and a part in the place of each `#`.
    pub fn put(&mut self, form: &'static str, parts: &[Part<'t>]) -> Result<(), AllocError> {
        let mut next = parts.iter();
        for word in form.split('#') {
            self.line.push(Part::Word(word))?;
            if let Some(part) = next.next() {
                self.line.push(*part)?;
            }
        }
        Ok(())
    }

    /// Takes the next part: the first of the line, where something was put, or else what comes behind it.
    pub fn next(&mut self) -> Result<Option<Part<'t>>, AllocError> {
        for part in self.line.iter().rev() {
            self.stack.push(*part)?;
        }
        self.line.clear();
        Ok(self.stack.pop())
    }
}

/// A tree, or a part of one.
pub trait Tree {
    /// Puts the tree.
    fn put<'t>(&'t self, parts: &mut Parts<'t>) -> Result<(), AllocError>;
}

impl Tree for Token {
    fn put<'t>(&'t self, parts: &mut Parts<'t>) -> Result<(), AllocError> {
        parts.put("#", &[Part::Token(self)])
    }
}

impl Tree for TypeExpr {
    fn put<'t>(&'t self, parts: &mut Parts<'t>) -> Result<(), AllocError> {
        parts.put("#", &[Part::Type(self)])
    }
}

impl Tree for Expr {
    fn put<'t>(&'t self, parts: &mut Parts<'t>) -> Result<(), AllocError> {
        parts.put("#", &[Part::Expr(self)])
    }
}

impl Tree for LiteralValue {
    fn put<'t>(&'t self, parts: &mut Parts<'t>) -> Result<(), AllocError> {
        parts.put("#", &[Part::Literal(self)])
    }
}

/// Puts the trees of a list, with a separator between them.
pub fn put_list<'t, T: Tree>(
    parts: &mut Parts<'t>,
    trees: &'t Items<T>,
    separator: &'static str,
) -> Result<(), AllocError> {
    for (at, tree) in trees.as_slice().iter().enumerate() {
        if at > 0 {
            parts.put(separator, &[])?;
        }
        tree.put(parts)?;
    }
    Ok(())
}
