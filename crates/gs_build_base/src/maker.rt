//! The maker of trees that a builder is given, so that builders need not call one another in a circle.
ghost use Rattle.std.specs.Prelude.{◌≡◌, ◌∷◌};
ghost use Rattle.gs_grammar.specs.Reference as reference;
ghost use Rattle.gs_grammar.specs.Steps as steps;
ghost use Rattle.gs_places.specs.Places.{stands};
ghost use Rattle.gs_build_base.specs.Pieces.{Builds};

use crate::pieces::{Piece, Stop};
use gs_grammar::trees::{Block, Decl, Element, Expr, Parameters, Signature, Stmt, TypeExpr};
use gs_places::rest::Rest;
use gs_syntax::token::Token;
use sqlite_items::{Boxed, Items};

/// What makes the trees that a builder finds inside its own.
pub trait Maker {
    /// What it gives is the tree that stands there.
    ghost is_faithful: { Self → Type 0 };

    /// The type of the place.
    fn make_type<'a>(&self, s: Rest<'a>) -> Result<Piece<'a, TypeExpr>, Stop>
        requires faithful { is_faithful self.now }
        ensures { Builds result ((stands s.entry.tokens.now).type) };

    /// The signature of the place.
    fn make_signature<'a>(&self, s: Rest<'a>) -> Result<Piece<'a, Signature>, Stop>
        requires faithful { is_faithful self.now }
        ensures { Builds result ((stands s.entry.tokens.now).signature) };

    /// The parameters of the place. Dots may stand before the last one, or not.
    fn make_params<'a>(&self, dots: bool, s: Rest<'a>) -> Result<Piece<'a, Parameters>, Stop>
        requires faithful { is_faithful self.now }
        ensures { Builds result ((stands s.entry.tokens.now).params dots) };

    /// The expression of the place. Its operators outside brackets are of so many precedences; it stands in a header, or at the
    /// start of an argument, or not.
    fn make_expr<'a>(
        &self,
        level: u8,
        header: bool,
        first: bool,
        s: Rest<'a>,
    ) -> Result<Piece<'a, Expr>, Stop>
        requires faithful { is_faithful self.now }
        ensures { Builds result ((stands s.entry.tokens.now).expr level header first) };

    /// The unary expression of the place. It stands in a header, or at the start of an argument, or not.
    fn make_unary<'a>(
        &self,
        header: bool,
        first: bool,
        s: Rest<'a>,
    ) -> Result<Piece<'a, Expr>, Stop>
        requires faithful { is_faithful self.now }
        ensures { Builds result ((stands s.entry.tokens.now).unary header first) };

    /// The primary expression of the place. It stands in a header, or not.
    fn make_primary<'a>(&self, header: bool, s: Rest<'a>) -> Result<Piece<'a, Expr>, Stop>
        requires faithful { is_faithful self.now }
        ensures { Builds result ((stands s.entry.tokens.now).primary header) };

    /// The expressions of the place. They stand in a header, or not.
    fn make_exprs<'a>(&self, header: bool, s: Rest<'a>) -> Result<Piece<'a, Items<Expr>>, Stop>
        requires faithful { is_faithful self.now }
        ensures { Builds result ((stands s.entry.tokens.now).exprs header) };

    /// The elements of the place.
    fn make_elements<'a>(&self, s: Rest<'a>) -> Result<Piece<'a, Items<Element>>, Stop>
        requires faithful { is_faithful self.now }
        ensures { Builds result ((stands s.entry.tokens.now).elements) };

    /// The block of the place.
    fn make_block<'a>(&self, s: Rest<'a>) -> Result<Piece<'a, Block>, Stop>
        requires faithful { is_faithful self.now }
        ensures { Builds result ((stands s.entry.tokens.now).block) };

    /// The statements of the place.
    fn make_stmts<'a>(&self, s: Rest<'a>) -> Result<Piece<'a, Items<Stmt>>, Stop>
        requires faithful { is_faithful self.now }
        ensures { Builds result ((stands s.entry.tokens.now).stmts) };

    /// The statement of the place, in a box, since it is large.
    fn make_stmt<'a>(&self, s: Rest<'a>) -> Result<Piece<'a, Boxed<Stmt>>, Stop>
        requires faithful { is_faithful self.now }
        ensures { Builds result ((stands s.entry.tokens.now).stmt) };

    /// The declaration of the place.
    fn make_decl<'a>(&self, s: Rest<'a>) -> Result<Piece<'a, Decl>, Stop>
        requires faithful { is_faithful self.now }
        ensures { Builds result ((stands s.entry.tokens.now).decl) };
}

/// The type that begins with the token.
#[tactic(auto, using(gs_places::proofs::Laws::at_type))]
pub fn type_made<'a, M: Maker>(
    make: &M,
    place: Rest<'a>,
    x: &Token,
    s: Rest<'a>,
) -> Result<Piece<'a, TypeExpr>, Stop>
    requires faithful { M.is_faithful make.now }
    requires here { place.tokens.now ≡ x.now ∷ s.tokens.now }
    ensures { Builds result (steps.type_step s.entry.tokens.now stands x.now) }
{
    make.make_type(place)
}

/// The expression that begins with the token.
#[tactic(auto, using(gs_places::proofs::Laws::at_expr))]
pub fn expr_made<'a, M: Maker>(
    make: &M,
    level: u8,
    header: bool,
    first: bool,
    place: Rest<'a>,
    x: &Token,
    s: Rest<'a>,
) -> Result<Piece<'a, Expr>, Stop>
    requires faithful { M.is_faithful make.now }
    requires here { place.tokens.now ≡ x.now ∷ s.tokens.now }
    ensures { Builds result (steps.expr_step s.entry.tokens.now stands level header first x.now) }
{
    make.make_expr(level, header, first, place)
}

/// The expressions that begin with the token.
#[tactic(auto, using(gs_places::proofs::Laws::at_exprs))]
pub fn exprs_made<'a, M: Maker>(
    make: &M,
    header: bool,
    place: Rest<'a>,
    x: &Token,
    s: Rest<'a>,
) -> Result<Piece<'a, Items<Expr>>, Stop>
    requires faithful { M.is_faithful make.now }
    requires here { place.tokens.now ≡ x.now ∷ s.tokens.now }
    ensures { Builds result (steps.exprs_step s.entry.tokens.now stands header x.now) }
{
    make.make_exprs(header, place)
}

/// The primary expression that begins with the token.
#[tactic(auto, using(gs_places::proofs::Laws::at_primary))]
pub fn primary_made<'a, M: Maker>(
    make: &M,
    header: bool,
    place: Rest<'a>,
    x: &Token,
    s: Rest<'a>,
) -> Result<Piece<'a, Expr>, Stop>
    requires faithful { M.is_faithful make.now }
    requires here { place.tokens.now ≡ x.now ∷ s.tokens.now }
    ensures { Builds result (steps.primary_step s.entry.tokens.now stands header x.now) }
{
    make.make_primary(header, place)
}

/// The block that begins with the token.
#[tactic(auto, using(gs_places::proofs::Laws::at_block))]
pub fn block_made<'a, M: Maker>(
    make: &M,
    place: Rest<'a>,
    x: &Token,
    s: Rest<'a>,
) -> Result<Piece<'a, Block>, Stop>
    requires faithful { M.is_faithful make.now }
    requires here { place.tokens.now ≡ x.now ∷ s.tokens.now }
    ensures { Builds result (steps.block_step s.entry.tokens.now stands x.now) }
{
    make.make_block(place)
}

/// The declaration that begins with the token.
#[tactic(auto, using(gs_places::proofs::Laws::at_decl))]
pub fn decl_made<'a, M: Maker>(
    make: &M,
    place: Rest<'a>,
    x: &Token,
    s: Rest<'a>,
) -> Result<Piece<'a, Decl>, Stop>
    requires faithful { M.is_faithful make.now }
    requires here { place.tokens.now ≡ x.now ∷ s.tokens.now }
    ensures { Builds result (reference.decl_step s.entry.tokens.now stands x.now) }
{
    make.make_decl(place)
}
