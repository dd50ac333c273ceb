//! Two trees at once: a builder that has a tree and asks for another has both or none, so it never holds one that it lets go.
ghost use Rattle.gs_build_pairs.specs.Pairs.{IsPair};

use gs_build_base::pieces::{Piece, Stop};
use gs_grammar::trees::{
    Arm, Block, Clause, Comm, ElementValue, Expr, LiteralValue, Parameters, RangeLeft, Signature,
    Simple, Stmt, Suffix, TypeClause, TypeExpr,
};
use gs_syntax::token::{Span, Token};
use sqlite_items::{Boxed, Items};

/// Both trees, and what is left behind the second.
fn pair<'a, A: Drop, B: Drop>(
    one: Result<Piece<'a, A>, Stop>,
    two: Result<Piece<'a, B>, Stop>,
) -> Result<Piece<'a, (A, B)>, Stop>
    ensures { IsPair one.entry two.entry result }
{
    let one = one?;
    let two = two?;
    Ok(Piece {
        tree: (one.tree, two.tree),
        rest: two.rest,
    })
}

/// The length of an array and its element.
pub fn length_and_element<'a>(
    one: Result<Piece<'a, Boxed<Expr>>, Stop>,
    two: Result<Piece<'a, Boxed<TypeExpr>>, Stop>,
) -> Result<Piece<'a, (Boxed<Expr>, Boxed<TypeExpr>)>, Stop>
    ensures { IsPair one.entry two.entry result }
{
    pair(one, two)
}

/// Two types.
pub fn two_types<'a>(
    one: Result<Piece<'a, Boxed<TypeExpr>>, Stop>,
    two: Result<Piece<'a, Boxed<TypeExpr>>, Stop>,
) -> Result<Piece<'a, (Boxed<TypeExpr>, Boxed<TypeExpr>)>, Stop>
    ensures { IsPair one.entry two.entry result }
{
    pair(one, two)
}

/// A token and an expression.
pub fn token_and_expr<'a>(
    one: Result<Piece<'a, Token>, Stop>,
    two: Result<Piece<'a, Expr>, Stop>,
) -> Result<Piece<'a, (Token, Expr)>, Stop>
    ensures { IsPair one.entry two.entry result }
{
    pair(one, two)
}

/// Two expressions.
pub fn two_exprs<'a>(
    one: Result<Piece<'a, Expr>, Stop>,
    two: Result<Piece<'a, Expr>, Stop>,
) -> Result<Piece<'a, (Expr, Expr)>, Stop>
    ensures { IsPair one.entry two.entry result }
{
    pair(one, two)
}

/// Both sides of an assignment.
pub fn two_lists<'a>(
    one: Result<Piece<'a, Items<Expr>>, Stop>,
    two: Result<Piece<'a, Items<Expr>>, Stop>,
) -> Result<Piece<'a, (Items<Expr>, Items<Expr>)>, Stop>
    ensures { IsPair one.entry two.entry result }
{
    pair(one, two)
}

/// Both sides of what receives.
pub fn list_and_expr<'a>(
    one: Result<Piece<'a, Items<Expr>>, Stop>,
    two: Result<Piece<'a, Expr>, Stop>,
) -> Result<Piece<'a, (Items<Expr>, Expr)>, Stop>
    ensures { IsPair one.entry two.entry result }
{
    pair(one, two)
}

/// Both sides of an operator.
pub fn expr_and_token_expr<'a>(
    one: Result<Piece<'a, Expr>, Stop>,
    two: Result<Piece<'a, (Token, Expr)>, Stop>,
) -> Result<Piece<'a, (Expr, (Token, Expr))>, Stop>
    ensures { IsPair one.entry two.entry result }
{
    pair(one, two)
}

/// A condition and its block.
pub fn expr_and_block<'a>(
    one: Result<Piece<'a, Expr>, Stop>,
    two: Result<Piece<'a, Block>, Stop>,
) -> Result<Piece<'a, (Expr, Block)>, Stop>
    ensures { IsPair one.entry two.entry result }
{
    pair(one, two)
}

/// A header, a condition and its block.
pub fn header_and_block<'a>(
    one: Result<Piece<'a, Simple>, Stop>,
    two: Result<Piece<'a, (Expr, Block)>, Stop>,
) -> Result<Piece<'a, (Simple, (Expr, Block))>, Stop>
    ensures { IsPair one.entry two.entry result }
{
    pair(one, two)
}

/// An arm and the last block.
pub fn arm_and_block<'a>(
    one: Result<Piece<'a, Arm>, Stop>,
    two: Result<Piece<'a, Block>, Stop>,
) -> Result<Piece<'a, (Arm, Block)>, Stop>
    ensures { IsPair one.entry two.entry result }
{
    pair(one, two)
}

/// A clause.
pub fn exprs_and_stmts<'a>(
    one: Result<Piece<'a, Items<Expr>>, Stop>,
    two: Result<Piece<'a, Items<Stmt>>, Stop>,
) -> Result<Piece<'a, (Items<Expr>, Items<Stmt>)>, Stop>
    ensures { IsPair one.entry two.entry result }
{
    pair(one, two)
}

/// A clause over types.
pub fn types_and_stmts<'a>(
    one: Result<Piece<'a, Items<TypeExpr>>, Stop>,
    two: Result<Piece<'a, Items<Stmt>>, Stop>,
) -> Result<Piece<'a, (Items<TypeExpr>, Items<Stmt>)>, Stop>
    ensures { IsPair one.entry two.entry result }
{
    pair(one, two)
}

/// A clause of a select statement.
pub fn comm_and_stmts<'a>(
    one: Result<Piece<'a, Comm>, Stop>,
    two: Result<Piece<'a, Items<Stmt>>, Stop>,
) -> Result<Piece<'a, (Comm, Items<Stmt>)>, Stop>
    ensures { IsPair one.entry two.entry result }
{
    pair(one, two)
}

/// What a type switch is over, and its clauses.
pub fn guard_and_clauses<'a>(
    one: Result<Piece<'a, (Option<(Token, Span)>, Expr, Span)>, Stop>,
    two: Result<Piece<'a, Items<TypeClause>>, Stop>,
) -> Result<Piece<'a, ((Option<(Token, Span)>, Expr, Span), Items<TypeClause>)>, Stop>
    ensures { IsPair one.entry two.entry result }
{
    pair(one, two)
}

/// What a switch is over, and its clauses.
pub fn tag_and_clauses<'a>(
    one: Result<Piece<'a, Option<Expr>>, Stop>,
    two: Result<Piece<'a, Items<Clause>>, Stop>,
) -> Result<Piece<'a, (Option<Expr>, Items<Clause>)>, Stop>
    ensures { IsPair one.entry two.entry result }
{
    pair(one, two)
}

/// A header and the rest of a type switch.
pub fn header_and_type_switch<'a>(
    one: Result<Piece<'a, Simple>, Stop>,
    two: Result<Piece<'a, ((Option<(Token, Span)>, Expr, Span), Items<TypeClause>, Span)>, Stop>,
) -> Result<
    Piece<
        'a,
        (
            Simple,
            ((Option<(Token, Span)>, Expr, Span), Items<TypeClause>, Span),
        ),
    >,
    Stop,
>
    ensures { IsPair one.entry two.entry result }
{
    pair(one, two)
}

/// A header and the rest of a switch.
pub fn header_and_switch<'a>(
    one: Result<Piece<'a, Simple>, Stop>,
    two: Result<Piece<'a, (Option<Expr>, Items<Clause>, Span)>, Stop>,
) -> Result<Piece<'a, (Simple, (Option<Expr>, Items<Clause>, Span))>, Stop>
    ensures { IsPair one.entry two.entry result }
{
    pair(one, two)
}

/// The left side of a range clause, and the rest of the loop.
pub fn left_and_range<'a>(
    one: Result<Piece<'a, RangeLeft>, Stop>,
    two: Result<Piece<'a, (Expr, Block)>, Stop>,
) -> Result<Piece<'a, (RangeLeft, (Expr, Block))>, Stop>
    ensures { IsPair one.entry two.entry result }
{
    pair(one, two)
}

/// The last part of a for clause, and the block.
pub fn post_and_block<'a>(
    one: Result<Piece<'a, Simple>, Stop>,
    two: Result<Piece<'a, Block>, Stop>,
) -> Result<Piece<'a, (Simple, Block)>, Stop>
    ensures { IsPair one.entry two.entry result }
{
    pair(one, two)
}

/// The first two parts of a for clause.
pub fn header_and_condition<'a>(
    one: Result<Piece<'a, Simple>, Stop>,
    two: Result<Piece<'a, Option<Expr>>, Stop>,
) -> Result<Piece<'a, (Simple, Option<Expr>)>, Stop>
    ensures { IsPair one.entry two.entry result }
{
    pair(one, two)
}

/// The parts of a loop.
pub fn loop_parts<'a>(
    one: Result<Piece<'a, (Simple, Option<Expr>)>, Stop>,
    two: Result<Piece<'a, (Simple, Block)>, Stop>,
) -> Result<Piece<'a, ((Simple, Option<Expr>), (Simple, Block))>, Stop>
    ensures { IsPair one.entry two.entry result }
{
    pair(one, two)
}

/// A label and its statement.
pub fn name_and_stmt<'a>(
    one: Result<Piece<'a, Token>, Stop>,
    two: Result<Piece<'a, Boxed<Stmt>>, Stop>,
) -> Result<Piece<'a, (Token, Boxed<Stmt>)>, Stop>
    ensures { IsPair one.entry two.entry result }
{
    pair(one, two)
}

/// Parameters and results.
pub fn two_params<'a>(
    one: Result<Piece<'a, Parameters>, Stop>,
    two: Result<Piece<'a, Parameters>, Stop>,
) -> Result<Piece<'a, (Parameters, Parameters)>, Stop>
    ensures { IsPair one.entry two.entry result }
{
    pair(one, two)
}

/// Parameters and one result.
pub fn params_and_type<'a>(
    one: Result<Piece<'a, Parameters>, Stop>,
    two: Result<Piece<'a, TypeExpr>, Stop>,
) -> Result<Piece<'a, (Parameters, TypeExpr)>, Stop>
    ensures { IsPair one.entry two.entry result }
{
    pair(one, two)
}

/// A type and the values behind it.
pub fn type_and_exprs<'a>(
    one: Result<Piece<'a, TypeExpr>, Stop>,
    two: Result<Piece<'a, Items<Expr>>, Stop>,
) -> Result<Piece<'a, (TypeExpr, Items<Expr>)>, Stop>
    ensures { IsPair one.entry two.entry result }
{
    pair(one, two)
}

/// A type and the braces of its literal.
pub fn type_and_value<'a>(
    one: Result<Piece<'a, TypeExpr>, Stop>,
    two: Result<Piece<'a, LiteralValue>, Stop>,
) -> Result<Piece<'a, (TypeExpr, LiteralValue)>, Stop>
    ensures { IsPair one.entry two.entry result }
{
    pair(one, two)
}

/// A signature and the block of its literal.
pub fn signature_and_block<'a>(
    one: Result<Piece<'a, Signature>, Stop>,
    two: Result<Piece<'a, Block>, Stop>,
) -> Result<Piece<'a, (Signature, Block)>, Stop>
    ensures { IsPair one.entry two.entry result }
{
    pair(one, two)
}

/// A signature and its body.
pub fn signature_and_body<'a>(
    one: Result<Piece<'a, Signature>, Stop>,
    two: Result<Piece<'a, Option<Block>>, Stop>,
) -> Result<Piece<'a, (Signature, Option<Block>)>, Stop>
    ensures { IsPair one.entry two.entry result }
{
    pair(one, two)
}

/// A receiver and the rest of a method.
pub fn params_and_method<'a>(
    one: Result<Piece<'a, Parameters>, Stop>,
    two: Result<Piece<'a, (Signature, Option<Block>)>, Stop>,
) -> Result<Piece<'a, (Parameters, (Signature, Option<Block>))>, Stop>
    ensures { IsPair one.entry two.entry result }
{
    pair(one, two)
}

/// An operand and what follows it.
pub fn expr_and_suffixes<'a>(
    one: Result<Piece<'a, Expr>, Stop>,
    two: Result<Piece<'a, Items<Suffix>>, Stop>,
) -> Result<Piece<'a, (Expr, Items<Suffix>)>, Stop>
    ensures { IsPair one.entry two.entry result }
{
    pair(one, two)
}

/// An operand and the operators behind it.
pub fn expr_and_operands<'a>(
    one: Result<Piece<'a, Expr>, Stop>,
    two: Result<Piece<'a, Items<(Token, Expr)>>, Stop>,
) -> Result<Piece<'a, (Expr, Items<(Token, Expr)>)>, Stop>
    ensures { IsPair one.entry two.entry result }
{
    pair(one, two)
}

/// A key and its value.
pub fn two_values<'a>(
    one: Result<Piece<'a, ElementValue>, Stop>,
    two: Result<Piece<'a, ElementValue>, Stop>,
) -> Result<Piece<'a, (ElementValue, ElementValue)>, Stop>
    ensures { IsPair one.entry two.entry result }
{
    pair(one, two)
}

/// Both bounds of a slice.
pub fn expr_and_bound<'a>(
    one: Result<Piece<'a, Expr>, Stop>,
    two: Result<Piece<'a, Option<Expr>>, Stop>,
) -> Result<Piece<'a, (Expr, Option<Expr>)>, Stop>
    ensures { IsPair one.entry two.entry result }
{
    pair(one, two)
}

/// The first bound of a slice and the rest of it.
pub fn expr_and_slice<'a>(
    one: Result<Piece<'a, Expr>, Stop>,
    two: Result<Piece<'a, (Expr, Expr, Span)>, Stop>,
) -> Result<Piece<'a, (Expr, (Expr, Expr, Span))>, Stop>
    ensures { IsPair one.entry two.entry result }
{
    pair(one, two)
}

/// Lets the parameters go.
pub fn let_params_go(params: Parameters) {
    let _gone = params;
}
