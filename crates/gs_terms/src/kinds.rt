ghost use Rattle.std.specs.Prelude.{◌≡◌};
ghost use Rattle.gs_terms.specs.Number.{basic_number, kind_number, dir_number};

/// A predeclared basic type. `byte` is `Uint8`, and `rune` is `Int32`. Go specification, "Types".
#[derive(Clone, Copy, Debug, PartialEq, Eq)]
pub enum Basic {
    Bool,
    String,
    Int,
    Int8,
    Int16,
    Int32,
    Int64,
    Uint,
    Uint8,
    Uint16,
    Uint32,
    Uint64,
    Uintptr,
    Float32,
    Float64,
    Complex64,
    Complex128,
}

/// The kind of an untyped operand. Go specification, "Constants".
#[derive(Clone, Copy, Debug, PartialEq, Eq)]
pub enum Kind {
    Bool,
    Rune,
    Int,
    String,
}

/// The direction of a channel type. Go specification, "Channel types".
#[derive(Clone, Copy, Debug, PartialEq, Eq)]
pub enum Dir {
    Both,
    Send,
    Receive,
}

/// What a declaration declares.
#[derive(Clone, Copy, Debug, PartialEq, Eq)]
pub enum SigKind {
    Const,
    Var,
    Defined,
    Alias,
    Func,
}

/// A binary operator. Go specification, "Operators".
#[derive(Clone, Copy, Debug, PartialEq, Eq)]
pub enum Op {
    Add,
    Sub,
    Mul,
    Div,
    Rem,
    And,
    Or,
    Xor,
    AndNot,
    Shl,
    Shr,
    Eq,
    Ne,
    Lt,
    Le,
    Gt,
    Ge,
    LogAnd,
    LogOr,
}

/// Why an operator on two constants gives no constant.
#[derive(Clone, Copy, Debug, PartialEq, Eq)]
pub enum ConstFault {
    /// The exact result leaves signed 128 bits.
    Wide,
    /// The divisor of `/` or `%` is 0.
    ZeroDivisor,
    /// The shift count is negative.
    BadShift,
    /// The operator isn't defined on values of these kinds.
    WrongKind,
    /// Memory was wanting for a text.
    NoMemory,
}

impl Basic {
    /// Its place in the list of basic types, from 0.
    pub fn number(self) -> u8
        ensures { result ≡ basic_number self }
    {
        self as u8
    }
}

impl Kind {
    /// Its place in the list of kinds, from 0.
    pub fn number(self) -> u8
        ensures { result ≡ kind_number self }
    {
        self as u8
    }
}

impl Dir {
    /// Its place in the list of directions, from 0.
    pub fn number(self) -> u8
        ensures { result ≡ dir_number self }
    {
        self as u8
    }
}
