//! Trees that stand in lists: their lists grow here and are let go here, so no other crate proves how each tree is let go.
ghost use Rattle.std.specs.Prelude.{[], ◌∷◌, ◌++◌};
ghost use Rattle.gs_build_pairs.specs.Pairs.{IsMade};

use gs_build_base::pieces::Stop;
use gs_grammar::trees::{
    Arm, Block, Clause, CommClause, ConstSpec, Element, Expr, Field, Member, Parameter, Stmt,
    Suffix, TypeClause, TypeExpr, TypeSpec, VarSpec,
};
use gs_syntax::token::Token;
use sqlite_items::Items;

/// What stands in lists.
pub trait Listed: Sized {
    /// The list, with the item at its end. Both are let go where memory runs out.
    fn grown(found: Items<Self>, item: Self) -> Result<Items<Self>, Stop>
        ensures { IsMade (found ++ item ∷ []) result };

    /// Lets the list go.
    fn let_go(found: Items<Self>);
}

fn grown_by<T: Drop>(found: Items<T>, item: T) -> Result<Items<T>, Stop>
    ensures { IsMade (found ++ item ∷ []) result }
{
    let mut found = found;
    found.push(item)?;
    Ok(found)
}

impl Listed for Arm {
    fn grown(found: Items<Arm>, item: Arm) -> Result<Items<Arm>, Stop>
        ensures { IsMade (found ++ item ∷ []) result }
    {
        grown_by(found, item)
    }

    fn let_go(found: Items<Arm>) {
        let _gone = found;
    }
}

impl Listed for Clause {
    fn grown(found: Items<Clause>, item: Clause) -> Result<Items<Clause>, Stop>
        ensures { IsMade (found ++ item ∷ []) result }
    {
        grown_by(found, item)
    }

    fn let_go(found: Items<Clause>) {
        let _gone = found;
    }
}

impl Listed for CommClause {
    fn grown(found: Items<CommClause>, item: CommClause) -> Result<Items<CommClause>, Stop>
        ensures { IsMade (found ++ item ∷ []) result }
    {
        grown_by(found, item)
    }

    fn let_go(found: Items<CommClause>) {
        let _gone = found;
    }
}

impl Listed for ConstSpec {
    fn grown(found: Items<ConstSpec>, item: ConstSpec) -> Result<Items<ConstSpec>, Stop>
        ensures { IsMade (found ++ item ∷ []) result }
    {
        grown_by(found, item)
    }

    fn let_go(found: Items<ConstSpec>) {
        let _gone = found;
    }
}

impl Listed for Element {
    fn grown(found: Items<Element>, item: Element) -> Result<Items<Element>, Stop>
        ensures { IsMade (found ++ item ∷ []) result }
    {
        grown_by(found, item)
    }

    fn let_go(found: Items<Element>) {
        let _gone = found;
    }
}

impl Listed for Expr {
    fn grown(found: Items<Expr>, item: Expr) -> Result<Items<Expr>, Stop>
        ensures { IsMade (found ++ item ∷ []) result }
    {
        grown_by(found, item)
    }

    fn let_go(found: Items<Expr>) {
        let _gone = found;
    }
}

impl Listed for Field {
    fn grown(found: Items<Field>, item: Field) -> Result<Items<Field>, Stop>
        ensures { IsMade (found ++ item ∷ []) result }
    {
        grown_by(found, item)
    }

    fn let_go(found: Items<Field>) {
        let _gone = found;
    }
}

impl Listed for Member {
    fn grown(found: Items<Member>, item: Member) -> Result<Items<Member>, Stop>
        ensures { IsMade (found ++ item ∷ []) result }
    {
        grown_by(found, item)
    }

    fn let_go(found: Items<Member>) {
        let _gone = found;
    }
}

impl Listed for Parameter {
    fn grown(found: Items<Parameter>, item: Parameter) -> Result<Items<Parameter>, Stop>
        ensures { IsMade (found ++ item ∷ []) result }
    {
        grown_by(found, item)
    }

    fn let_go(found: Items<Parameter>) {
        let _gone = found;
    }
}

impl Listed for Stmt {
    fn grown(found: Items<Stmt>, item: Stmt) -> Result<Items<Stmt>, Stop>
        ensures { IsMade (found ++ item ∷ []) result }
    {
        grown_by(found, item)
    }

    fn let_go(found: Items<Stmt>) {
        let _gone = found;
    }
}

impl Listed for Suffix {
    fn grown(found: Items<Suffix>, item: Suffix) -> Result<Items<Suffix>, Stop>
        ensures { IsMade (found ++ item ∷ []) result }
    {
        grown_by(found, item)
    }

    fn let_go(found: Items<Suffix>) {
        let _gone = found;
    }
}

impl Listed for TypeClause {
    fn grown(found: Items<TypeClause>, item: TypeClause) -> Result<Items<TypeClause>, Stop>
        ensures { IsMade (found ++ item ∷ []) result }
    {
        grown_by(found, item)
    }

    fn let_go(found: Items<TypeClause>) {
        let _gone = found;
    }
}

impl Listed for TypeExpr {
    fn grown(found: Items<TypeExpr>, item: TypeExpr) -> Result<Items<TypeExpr>, Stop>
        ensures { IsMade (found ++ item ∷ []) result }
    {
        grown_by(found, item)
    }

    fn let_go(found: Items<TypeExpr>) {
        let _gone = found;
    }
}

impl Listed for TypeSpec {
    fn grown(found: Items<TypeSpec>, item: TypeSpec) -> Result<Items<TypeSpec>, Stop>
        ensures { IsMade (found ++ item ∷ []) result }
    {
        grown_by(found, item)
    }

    fn let_go(found: Items<TypeSpec>) {
        let _gone = found;
    }
}

impl Listed for VarSpec {
    fn grown(found: Items<VarSpec>, item: VarSpec) -> Result<Items<VarSpec>, Stop>
        ensures { IsMade (found ++ item ∷ []) result }
    {
        grown_by(found, item)
    }

    fn let_go(found: Items<VarSpec>) {
        let _gone = found;
    }
}

impl Listed for (Token, Expr) {
    fn grown(found: Items<(Token, Expr)>, item: (Token, Expr)) -> Result<Items<(Token, Expr)>, Stop>
        ensures { IsMade (found ++ item ∷ []) result }
    {
        grown_by(found, item)
    }

    fn let_go(found: Items<(Token, Expr)>) {
        let _gone = found;
    }
}

/// The arms with the last one at their end, and the block behind it.
pub fn last_arm(
    found: Items<Arm>,
    item: Arm,
    end: Option<Block>,
) -> Result<(Items<Arm>, Option<Block>), Stop>
    ensures { IsMade (found ++ item ∷ [], end) result }
{
    let mut found = found;
    found.push(item)?;
    Ok((found, end))
}
