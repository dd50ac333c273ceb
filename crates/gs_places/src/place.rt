//! What the table has for a place.

/// Where a form that begins at the place ends, by how many tokens are left, and how deep it nests, counted up to 201.
/// The depth is as wide as the other, since a narrower one would leave a gap, and gaps are slow to copy.
#[derive(Clone, Copy, Debug)]
pub struct Cell {
    pub left: u32,
    pub depth: u32,
}

/// The types that begin at a place, and their parts. `dots`: the last parameter may be variadic.
#[derive(Clone, Copy, Debug)]
pub struct Types {
    pub idents: Option<Cell>,
    pub type_expr: Option<Cell>,
    pub unnamed_dots: Option<Cell>,
    pub unnamed: Option<Cell>,
    pub named_dots: Option<Cell>,
    pub named: Option<Cell>,
    pub fields: Option<Cell>,
    pub members: Option<Cell>,
}

/// The expressions that begin at a place, by the loosest operator that stands outside brackets, and the operators of each
/// precedence with what is on their right.
#[derive(Clone, Copy, Debug)]
pub struct Levels {
    pub unary: Option<Cell>,
    pub unary_first: Option<Cell>,
    pub product: Option<Cell>,
    pub sum: Option<Cell>,
    pub comparison: Option<Cell>,
    pub conjunction: Option<Cell>,
    pub disjunction: Option<Cell>,
    pub factors: Option<Cell>,
    pub terms: Option<Cell>,
    pub compared: Option<Cell>,
    pub conjoined: Option<Cell>,
    pub disjoined: Option<Cell>,
    pub exprs: Option<Cell>,
}

/// The expressions that begin at a place, and their parts. `header`: where a name takes no literal; `inner`: where a type
/// that begins with an arrow may stand.
#[derive(Clone, Copy, Debug)]
pub struct Exprs {
    pub plain: Levels,
    pub header: Levels,
    pub inner: Option<Cell>,
    pub suffixes: Option<Cell>,
    pub args: Option<Cell>,
    pub elements: Option<Cell>,
}

/// The statements and the lists that begin at a place.
#[derive(Clone, Copy, Debug)]
pub struct Lists {
    pub stmts: Option<Cell>,
    pub stmt: Option<Cell>,
    pub arms: Option<Cell>,
    pub clauses: Option<Cell>,
    pub type_clauses: Option<Cell>,
    pub comm_clauses: Option<Cell>,
    pub types: Option<Cell>,
    pub const_specs: Option<Cell>,
    pub type_specs: Option<Cell>,
    pub var_specs: Option<Cell>,
    pub import_specs: Option<Cell>,
}

/// What begins at a place.
#[derive(Clone, Copy, Debug)]
pub struct Place {
    pub types: Types,
    pub exprs: Exprs,
    pub lists: Lists,
}
