//! Trees of chunks, declarations, statements, expressions and types.
//!
//! A name, a literal and an operator is its token. Of other tokens a tree keeps the span, where it begins or ends a
//! form or a fault may be told at it.

use gs_base::Text;
use gs_syntax::token::{Span, Token};
use sqlite_items::{Boxed, Items};

/// A file: its chunks that have trees, the docs of what it declares by the offset of the first token, and the
/// faults of its form, each a code and its place.
#[derive(Drop)]
pub struct FileTree {
    pub chunks: Items<Chunk>,
    pub docs: Items<(u32, Text)>,
    pub faults: Items<(u16, Span)>,
}

/// What ends with a semicolon outside brackets (Go specification, Source file organization).
#[derive(Drop)]
pub enum Chunk {
    /// The name (Package clause).
    Package(Token),
    /// The specs of one import declaration (Import declarations).
    Import(Items<ImportSpec>),
    Top(Top),
}

/// An import spec; the last token is the path (Import declarations).
#[derive(Drop)]
pub enum ImportSpec {
    Plain(Token),
    Dot(Span, Token),
    Named(Token, Token),
}

/// A top level declaration (Declarations and scope).
#[derive(Drop)]
pub enum Top {
    Declaration(Decl),
    /// The keyword, the name, the signature and the body (Function declarations).
    Function(Span, Token, Signature, Option<Block>),
    /// The keyword, the receiver, the name, the signature and the body (Method declarations).
    Method(Span, Parameters, Token, Signature, Option<Block>),
}

/// A declaration: its keyword, and its spec or its group of specs (Declarations and scope).
#[cycle(ast)]
#[derive(Drop)]
pub enum Decl {
    Const(Span, ConstSpec),
    ConstGroup(Span, Items<ConstSpec>),
    Type(Span, TypeSpec),
    TypeGroup(Span, Items<TypeSpec>),
    Var(Span, VarSpec),
    VarGroup(Span, Items<VarSpec>),
}

/// A const spec (Constant declarations).
#[cycle(ast)]
#[derive(Drop)]
pub enum ConstSpec {
    /// In a group, with the list of the spec before.
    Implicit(Items<Token>),
    Untyped(Items<Token>, Items<Expr>),
    Typed(Items<Token>, TypeExpr, Items<Expr>),
}

/// A type spec (Type declarations).
#[cycle(ast)]
#[derive(Drop)]
pub enum TypeSpec {
    Definition(Token, TypeExpr),
    Alias(Token, TypeExpr),
}

/// A var spec (Variable declarations).
#[cycle(ast)]
#[derive(Drop)]
pub enum VarSpec {
    Typed(Items<Token>, TypeExpr),
    TypedValues(Items<Token>, TypeExpr, Items<Expr>),
    Values(Items<Token>, Items<Expr>),
}

/// A type (Types).
#[cycle(ast)]
#[derive(Drop)]
pub enum TypeExpr {
    Name(Token),
    /// A package and a name in it.
    Qualified(Token, Token),
    Paren(Span, Boxed<TypeExpr>, Span),
    Pointer(Span, Boxed<TypeExpr>),
    Slice(Span, Boxed<TypeExpr>),
    Array(Span, Boxed<Expr>, Boxed<TypeExpr>),
    Map(Span, Boxed<TypeExpr>, Boxed<TypeExpr>),
    Channel(Span, Boxed<TypeExpr>),
    SendChannel(Span, Boxed<TypeExpr>),
    ReceiveChannel(Span, Boxed<TypeExpr>),
    Function(Span, Boxed<Signature>),
    /// The keyword, the fields and the closing brace.
    Struct(Span, Items<Field>, Span),
    /// The keyword, the members and the closing brace.
    Interface(Span, Items<Member>, Span),
}

/// Parameters and what is given back (Function types).
#[cycle(ast)]
#[derive(Drop)]
pub enum Signature {
    Plain(Parameters),
    Result(Parameters, TypeExpr),
    Results(Parameters, Parameters),
}

/// The parentheses and what stands between them (Function types).
#[cycle(ast)]
#[derive(Drop)]
pub struct Parameters {
    pub left: Span,
    pub list: Items<Parameter>,
    pub right: Span,
}

/// A parameter declaration; a span is that of the dots (Function types).
#[cycle(ast)]
#[derive(Drop)]
pub enum Parameter {
    Plain(TypeExpr),
    Variadic(Span, TypeExpr),
    Named(Items<Token>, TypeExpr),
    /// One name, the dots and the type.
    NamedVariadic(Items<Token>, Span, TypeExpr),
}

/// A field declaration, perhaps with a tag (Struct types).
#[cycle(ast)]
#[derive(Drop)]
pub enum Field {
    Named(Items<Token>, TypeExpr, Option<Token>),
    /// A type name or a pointer to one.
    Embedded(TypeExpr, Option<Token>),
}

/// A method or an embedded interface (Interface types).
#[cycle(ast)]
#[derive(Drop)]
pub enum Member {
    Method(Token, Signature),
    Embedded(TypeExpr),
}

/// An expression (Expressions).
#[cycle(ast)]
#[derive(Drop)]
pub enum Expr {
    /// An integer, floating, imaginary, rune or string literal.
    Literal(Token),
    Name(Token),
    Paren(Span, Boxed<Expr>, Span),
    /// A literal with its type (Composite literals).
    Composite(Boxed<TypeExpr>, LiteralValue),
    /// An array literal whose length is counted: the bracket, the element type and the value.
    Counted(Span, Boxed<TypeExpr>, LiteralValue),
    /// A type that begins with a token which begins no other expression.
    Type(Boxed<TypeExpr>),
    /// The keyword, the signature and the body (Function literals).
    Function(Span, Boxed<Signature>, Block),
    /// An operand and all that follows it (Primary expressions).
    Suffixed(Boxed<Expr>, Items<Suffix>),
    /// A unary operator and its operand (Operators).
    Prefixed(Token, Boxed<Expr>),
    /// Operators of one precedence, each with the operand on its right (Operators).
    Binary(Boxed<Expr>, Items<(Token, Expr)>),
}

/// What may follow an operand; the last span is the closing bracket (Primary expressions).
#[cycle(ast)]
#[derive(Drop)]
pub enum Suffix {
    Selector(Token),
    Assertion(TypeExpr, Span),
    Index(Expr, Span),
    Slice(Option<Expr>, Option<Expr>, Span),
    FullSlice(Option<Expr>, Expr, Expr, Span),
    /// The arguments, the dots after the last one, and the closing parenthesis.
    Call(Items<Expr>, Option<Span>, Span),
}

/// The braces of a composite literal and its elements (Composite literals).
#[cycle(ast)]
#[derive(Drop)]
pub struct LiteralValue {
    pub left: Span,
    pub elements: Items<Element>,
    pub right: Span,
}

/// An element, perhaps with its key (Composite literals).
#[cycle(ast)]
#[derive(Drop)]
pub enum Element {
    Plain(ElementValue),
    Keyed(ElementValue, ElementValue),
}

/// An expression, or a literal without its type (Composite literals).
#[cycle(ast)]
#[derive(Drop)]
pub enum ElementValue {
    Expr(Expr),
    Literal(LiteralValue),
}

/// The braces of a block and its statements (Blocks).
#[cycle(ast)]
#[derive(Drop)]
pub struct Block {
    pub left: Span,
    pub statements: Items<Stmt>,
    pub right: Span,
}

/// A statement; the first span is its keyword (Statements).
#[cycle(ast)]
#[derive(Drop)]
pub enum Stmt {
    Declaration(Decl),
    Labeled(Token, Boxed<Stmt>),
    Simple(Simple),
    Go(Span, Expr),
    Defer(Span, Expr),
    Return(Span, Items<Expr>),
    Break(Span, Option<Token>),
    Continue(Span, Option<Token>),
    Goto(Span, Token),
    Fallthrough(Span),
    Block(Block),
    /// The arms in order, and the block behind the last `else`.
    If(Span, Items<Arm>, Option<Block>),
    Switch(Span, Simple, Option<Expr>, Items<Clause>, Span),
    /// The header, the symbol and its `:=`, the operand, the keyword `type`, the clauses and the closing brace.
    TypeSwitch(Span, Simple, Option<(Token, Span)>, Expr, Span, Items<TypeClause>, Span),
    Select(Span, Items<CommClause>, Span),
    While(Span, Option<Expr>, Block),
    Loop(Span, Simple, Option<Expr>, Simple, Block),
    Range(Span, RangeLeft, Expr, Block),
}

/// A simple statement (Statements).
#[cycle(ast)]
#[derive(Drop)]
pub enum Simple {
    Empty,
    Expr(Expr),
    /// The channel, the operator and the value (Send statements).
    Send(Expr, Token, Expr),
    /// The operand and `++` or `--` (IncDec statements).
    Step(Expr, Token),
    /// Both sides and the `=` (Assignments).
    Assign(Items<Expr>, Span, Items<Expr>),
    /// An assignment operation: both sides and the operator (Assignments).
    Update(Expr, Token, Expr),
    /// Both sides and the `:=` (Short variable declarations).
    Define(Items<Expr>, Span, Items<Expr>),
}

/// A header, a condition and a block (If statements).
#[cycle(ast)]
#[derive(Drop)]
pub struct Arm {
    pub header: Simple,
    pub condition: Expr,
    pub body: Block,
}

/// A clause of an expression switch (Switch statements).
#[cycle(ast)]
#[derive(Drop)]
pub enum Clause {
    Case(Span, Items<Expr>, Items<Stmt>),
    Default(Span, Items<Stmt>),
}

/// A clause of a type switch (Switch statements).
#[cycle(ast)]
#[derive(Drop)]
pub enum TypeClause {
    Case(Span, Items<TypeExpr>, Items<Stmt>),
    Default(Span, Items<Stmt>),
}

/// A clause of a select statement (Select statements).
#[cycle(ast)]
#[derive(Drop)]
pub enum CommClause {
    Case(Span, Comm, Items<Stmt>),
    Default(Span, Items<Stmt>),
}

/// What a clause of a select statement waits for (Select statements).
#[cycle(ast)]
#[derive(Drop)]
pub enum Comm {
    Send(Expr, Token, Expr),
    Receive(Expr),
    Assign(Items<Expr>, Span, Expr),
    Define(Items<Expr>, Span, Expr),
}

/// The left side of a range clause (For statements).
#[cycle(ast)]
#[derive(Drop)]
pub enum RangeLeft {
    Absent,
    Assign(Items<Expr>, Span),
    Define(Items<Expr>, Span),
}
