//! The laws of the grammar: at a place one tree stands at most, and the rows of the reference say which.
ghost use Rattle.std.specs.Prelude.{◌≡◌, ◌≤◌, ◌++◌, ℕ, Bool, false, List, Some, length};
ghost use Rattle.gs_syntax.specs.declared.token.Token.{Token as AToken};
ghost use Rattle.gs_grammar.specs.Grammar.{AreStmts, IsTypeAt, IsExprAt, IsBlockAt, IsChunkAt, StandsBelow};
ghost use Rattle.gs_grammar.specs.Parts.{found};
ghost use Rattle.gs_grammar.specs.Plain.{IsPlainTypeAt, IsPlainExprAt, IsPlainBlockAt, IsPlainChunkAt, ArePlainStmtsAt};
ghost use Rattle.gs_grammar.specs.Reference.{row};
ghost use Rattle.gs_grammar.specs.declared.trees.TypeExpr.{TypeExpr};
ghost use Rattle.gs_grammar.specs.declared.trees.Expr.{Expr};
ghost use Rattle.gs_grammar.specs.declared.trees.Block.{Block};
ghost use Rattle.gs_grammar.specs.declared.trees.Stmt.{Stmt};
ghost use Rattle.gs_grammar.specs.declared.trees.Chunk.{Chunk};

/// At a place at most one type stands, with one end and one depth.
pub fn one_type()
    ensures { (t u : TypeExpr) (s r v : List AToken) (c d : ℕ) → IsTypeAt t s r c → IsTypeAt u s v d → (t ≡ u) × (r ≡ v) × (c ≡ d) }
{}

/// The type that stands at a place is the one that its row has; where the row has none, none stands.
pub fn row_of_type()
    ensures { (t : TypeExpr) (s r : List AToken) (d : ℕ) → (IsTypeAt t s r d → (row s).type ≡ Some (found t r d)) × ((row s).type ≡ Some (found t r d) → IsTypeAt t s r d) }
{}

/// At a place at most one expression stands, with one end and one depth.
pub fn one_expr()
    ensures { (h : Bool) (t u : Expr) (s r v : List AToken) (c d : ℕ) → IsExprAt h t s r c → IsExprAt h u s v d → (t ≡ u) × (r ≡ v) × (c ≡ d) }
{}

/// The expression that stands at a place is the one that its row has; where the row has none, none stands.
pub fn row_of_expr()
    ensures { (h : Bool) (t : Expr) (s r : List AToken) (d : ℕ) → (IsExprAt h t s r d → (row s).expr 5 h false ≡ Some (found t r d)) × ((row s).expr 5 h false ≡ Some (found t r d) → IsExprAt h t s r d) }
{}

/// At a place at most one block stands, with one end and one depth.
pub fn one_block()
    ensures { (t u : Block) (s r v : List AToken) (c d : ℕ) → IsBlockAt t s r c → IsBlockAt u s v d → (t ≡ u) × (r ≡ v) × (c ≡ d) }
{}

/// The block that stands at a place is the one that its row has; where the row has none, none stands.
pub fn row_of_block()
    ensures { (t : Block) (s r : List AToken) (d : ℕ) → (IsBlockAt t s r d → (row s).block ≡ Some (found t r d)) × ((row s).block ≡ Some (found t r d) → IsBlockAt t s r d) }
{}

/// At a place at most one chunk stands, with one end and one depth.
pub fn one_chunk()
    ensures { (t u : Chunk) (s r v : List AToken) (c d : ℕ) → IsChunkAt t s r c → IsChunkAt u s v d → (t ≡ u) × (r ≡ v) × (c ≡ d) }
{}

/// The chunk that stands at a place is the one that its row has; where the row has none, none stands.
pub fn row_of_chunk()
    ensures { (t : Chunk) (s r : List AToken) (d : ℕ) → (IsChunkAt t s r d → (row s).chunk ≡ Some (found t r d)) × ((row s).chunk ≡ Some (found t r d) → IsChunkAt t s r d) }
{}

/// The expression that stands at a place is one of the plain grammar, and none that the plain grammar has there is
/// longer; where none stands, the plain grammar has none.
pub fn longest_expr()
    ensures plain { (h : Bool) (t : Expr) (s r : List AToken) (d : ℕ) → IsExprAt h t s r d → IsPlainExprAt h t s r d }
    ensures longest { (h : Bool) (t : Expr) (s r : List AToken) (d : ℕ) → IsPlainExprAt h t s r d → (u : Expr) × (v : List AToken) × (c : ℕ) × IsExprAt h u s v c × (length v ≤ length r) }
{}

/// The plain grammar has at a place the type that stands there and no other, with one end and one depth; where none
/// stands, it has none.
pub fn longest_type()
    ensures plain { (t : TypeExpr) (s r : List AToken) (d : ℕ) → IsTypeAt t s r d → IsPlainTypeAt t s r d }
    ensures stands { (t : TypeExpr) (s r : List AToken) (d : ℕ) → IsPlainTypeAt t s r d → IsTypeAt t s r d }
    ensures one { (t u : TypeExpr) (s r v : List AToken) (c d : ℕ) → IsPlainTypeAt t s r c → IsPlainTypeAt u s v d → (t ≡ u) × (r ≡ v) × (c ≡ d) }
{}

/// The plain grammar has at a place the block that stands there and no other, with one end and one depth; where none
/// stands, it has none.
pub fn longest_block()
    ensures plain { (t : Block) (s r : List AToken) (d : ℕ) → IsBlockAt t s r d → IsPlainBlockAt t s r d }
    ensures stands { (t : Block) (s r : List AToken) (d : ℕ) → IsPlainBlockAt t s r d → IsBlockAt t s r d }
    ensures one { (t u : Block) (s r v : List AToken) (c d : ℕ) → IsPlainBlockAt t s r c → IsPlainBlockAt u s v d → (t ≡ u) × (r ≡ v) × (c ≡ d) }
{}

/// The plain grammar has at a place the chunk that stands there and no other, with one end and one depth; where none
/// stands, it has none.
pub fn longest_chunk()
    ensures plain { (t : Chunk) (s r : List AToken) (d : ℕ) → IsChunkAt t s r d → IsPlainChunkAt t s r d }
    ensures stands { (t : Chunk) (s r : List AToken) (d : ℕ) → IsPlainChunkAt t s r d → IsChunkAt t s r d }
    ensures one { (t u : Chunk) (s r v : List AToken) (c d : ℕ) → IsPlainChunkAt t s r c → IsPlainChunkAt u s v d → (t ≡ u) × (r ≡ v) × (c ≡ d) }
{}

/// The list of statements that stands at a place is one of the plain grammar; each that the plain grammar has there is a
/// front of it, and none is longer.
pub fn longest_stmts()
    ensures plain { (ts : List Stmt) (s r : List AToken) (d : ℕ) → AreStmts (StandsBelow (length s)) ts s r d → ArePlainStmtsAt ts s r d }
    ensures front { (ts us : List Stmt) (s r v : List AToken) (c d : ℕ) → AreStmts (StandsBelow (length s)) ts s r c → ArePlainStmtsAt us s v d → (vs : List Stmt) × (ts ≡ us ++ vs) }
    ensures longest { (ts us : List Stmt) (s r v : List AToken) (c d : ℕ) → AreStmts (StandsBelow (length s)) ts s r c → ArePlainStmtsAt us s v d → length r ≤ length v }
{}
