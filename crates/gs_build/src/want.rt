//! What the knot is asked for, and what it gives.

use gs_grammar::trees::{Block, Chunk, Decl, Element, Expr, Parameters, Signature, Stmt, TypeExpr};
use sqlite_items::{Boxed, Items};

/// What tree is wanted.
#[derive(Clone, Copy, Drop)]
pub enum Want {
    Type,
    Signature,
    /// Parameters: whether dots may stand before the last one.
    Parameters(bool),
    /// An expression: of how many precedences its operators outside brackets are, whether in a header, and whether at the
    /// start of an argument.
    Expr(u8, bool, bool),
    /// A unary expression: whether in a header, and whether at the start of an argument.
    Unary(bool, bool),
    /// A primary expression: whether in a header.
    Primary(bool),
    /// A list of expressions: whether in a header.
    Exprs(bool),
    Elements,
    Block,
    Statements,
    Statement,
    Declaration,
    Chunk,
}

/// The tree that was made.
pub enum Made {
    Type(TypeExpr),
    Signature(Signature),
    Parameters(Parameters),
    Expr(Expr),
    Exprs(Items<Expr>),
    Elements(Items<Element>),
    Block(Block),
    Statements(Items<Stmt>),
    /// In a box, as what is large: so what is made of an expression takes little room on the stack.
    Statement(Boxed<Stmt>),
    Declaration(Decl),
    /// In a box.
    Chunk(Boxed<Chunk>),
}
