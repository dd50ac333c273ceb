//! Trees over trees that stand in boxes. Where memory runs out, what was given is let go here.
ghost use Rattle.gs_grammar.specs.declared.trees.Expr.TheVariants as expr;
ghost use Rattle.gs_grammar.specs.declared.trees.Stmt.TheVariants as stmt;
ghost use Rattle.gs_grammar.specs.declared.trees.TypeExpr.TheVariants as type;
ghost use Rattle.gs_grammar.specs.Parts as parts;
ghost use Rattle.gs_build_pairs.specs.Pairs.{IsMade};

use gs_build_base::pieces::Stop;
use gs_grammar::trees::{Block, Expr, LiteralValue, Signature, Stmt, Suffix, TypeExpr};
use gs_syntax::token::{Span, Token};
use sqlite_items::{Boxed, Items};
use std::alloc::Global;

/// An expression in parentheses.
pub fn paren(alloc: Global, left: Span, t: Expr, right: Span) -> Result<Expr, Stop>
    ensures { IsMade (expr.Paren left t right) result }
{
    Ok(Expr::Paren(left, Boxed::new(alloc, t)?, right))
}

/// A type that stands as an expression.
pub fn type_as_expr(alloc: Global, t: TypeExpr) -> Result<Expr, Stop>
    ensures { IsMade (expr.Type t) result }
{
    Ok(Expr::Type(Boxed::new(alloc, t)?))
}

/// A composite literal.
pub fn composite(alloc: Global, t: TypeExpr, v: LiteralValue) -> Result<Expr, Stop>
    ensures { IsMade (expr.Composite t v) result }
{
    Ok(Expr::Composite(Boxed::new(alloc, t)?, v))
}

/// An array literal whose length is counted.
pub fn counted(alloc: Global, left: Span, t: TypeExpr, v: LiteralValue) -> Result<Expr, Stop>
    ensures { IsMade (expr.Counted left t v) result }
{
    Ok(Expr::Counted(left, Boxed::new(alloc, t)?, v))
}

/// A function literal.
pub fn function(alloc: Global, keyword: Span, z: Signature, body: Block) -> Result<Expr, Stop>
    ensures { IsMade (expr.Function keyword z body) result }
{
    Ok(Expr::Function(keyword, Boxed::new(alloc, z)?, body))
}

/// A function type.
pub fn function_type(alloc: Global, keyword: Span, z: Signature) -> Result<TypeExpr, Stop>
    ensures { IsMade (type.Function keyword z) result }
{
    Ok(TypeExpr::Function(keyword, Boxed::new(alloc, z)?))
}

/// The type of a channel to receive from.
pub fn receive_channel(alloc: Global, arrow: Span, t: TypeExpr) -> Result<TypeExpr, Stop>
    ensures { IsMade (type.ReceiveChannel arrow t) result }
{
    Ok(TypeExpr::ReceiveChannel(arrow, Boxed::new(alloc, t)?))
}

/// A unary operator and its operand.
pub fn prefixed(alloc: Global, operator: Token, t: Expr) -> Result<Expr, Stop>
    ensures { IsMade (expr.Prefixed operator t) result }
{
    Ok(Expr::Prefixed(operator, Boxed::new(alloc, t)?))
}

/// The operand with what follows it.
pub fn with_suffixes(alloc: Global, t: Expr, xs: Items<Suffix>) -> Result<Expr, Stop>
    ensures { IsMade (parts.suffixed t xs) result }
{
    if xs.is_empty() {
        Ok(t)
    } else {
        Ok(Expr::Suffixed(Boxed::new(alloc, t)?, xs))
    }
}

/// The operand with operators of one precedence and their right operands.
pub fn with_operands(alloc: Global, t: Expr, os: Items<(Token, Expr)>) -> Result<Expr, Stop>
    ensures { IsMade (parts.binary t os) result }
{
    if os.is_empty() {
        Ok(t)
    } else {
        Ok(Expr::Binary(Boxed::new(alloc, t)?, os))
    }
}

/// A statement with a label.
pub fn labeled(alloc: Global, name: Token, t: Stmt) -> Result<Stmt, Stop>
    ensures { IsMade (stmt.Labeled name t) result }
{
    Ok(Stmt::Labeled(name, Boxed::new(alloc, t)?))
}
