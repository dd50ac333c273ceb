ghost use Rattle.std.specs.Prelude.{◌≡◌, IfOk, [], ◌∷◌};
ghost use Rattle.gs_terms.specs.Universe as spec;
ghost use Rattle.gs_terms.specs.Identity.{same_symbol};
ghost use Rattle.gs_terms.specs.Bare.{nowhere};
ghost use Rattle.gs_terms.specs.Shown.{methods_of};

use crate::kinds::{Basic, SigKind};
use crate::sig::Sig;
use crate::symbol::{Place, Symbol};
use crate::term::{Method, Term};
use gs_base::{Mem, Text};
use sqlite_items::Items;
use std::alloc::{AllocError, Global};

/// A predeclared function. Go specification, "Built-in functions".
#[derive(Clone, Copy, Debug, PartialEq, Eq)]
pub enum Builtin {
    Append,
    Cap,
    Close,
    Complex,
    Copy,
    Delete,
    Imag,
    Len,
    Make,
    New,
    Panic,
    Print,
    Println,
    Real,
    Recover,
}

/// What a predeclared name stands for. Go specification, "Predeclared identifiers".
#[derive(Clone, Copy, Debug, PartialEq, Eq)]
pub enum Known {
    Basic(Basic),
    /// The interface type `error`.
    Error,
    Truth(bool),
    Iota,
    Nil,
    Function(Builtin),
}

/// What a name stands for where no block of the program declares it. Takes no memory.
pub fn universe(name: &str) -> Option<Known>
    ensures { result ≡ spec.lookup spec.table name.now }
{
    let name = name.as_bytes();
    if let Some(known) = signed_integer(name) {
        return Some(known);
    }
    if let Some(known) = unsigned_integer(name) {
        return Some(known);
    }
    if let Some(known) = other_type(name) {
        return Some(known);
    }
    if let Some(known) = constant(name) {
        return Some(known);
    }
    if let Some(known) = collection_function(name) {
        return Some(known);
    }
    other_function(name)
}

/// No name stands twice in the table of predeclared names, so each line of it counts. Does nothing.
pub fn universe_law()
    ensures { spec.EachCounts spec.table spec.table }
{}

fn signed_integer(name: &[u8]) -> Option<Known>
    ensures { result ≡ spec.lookup spec.signed_integers name.now }
{
    if name == b"int".as_slice() {
        Some(Known::Basic(Basic::Int))
    } else if name == b"int8".as_slice() {
        Some(Known::Basic(Basic::Int8))
    } else if name == b"int16".as_slice() {
        Some(Known::Basic(Basic::Int16))
    } else if name == b"int32".as_slice() {
        Some(Known::Basic(Basic::Int32))
    } else if name == b"int64".as_slice() {
        Some(Known::Basic(Basic::Int64))
    } else if name == b"rune".as_slice() {
        Some(Known::Basic(Basic::Int32))
    } else {
        None
    }
}

fn unsigned_integer(name: &[u8]) -> Option<Known>
    ensures { result ≡ spec.lookup spec.unsigned_integers name.now }
{
    if name == b"uint".as_slice() {
        Some(Known::Basic(Basic::Uint))
    } else if name == b"uint8".as_slice() {
        Some(Known::Basic(Basic::Uint8))
    } else if name == b"uint16".as_slice() {
        Some(Known::Basic(Basic::Uint16))
    } else if name == b"uint32".as_slice() {
        Some(Known::Basic(Basic::Uint32))
    } else if name == b"uint64".as_slice() {
        Some(Known::Basic(Basic::Uint64))
    } else if name == b"uintptr".as_slice() {
        Some(Known::Basic(Basic::Uintptr))
    } else if name == b"byte".as_slice() {
        Some(Known::Basic(Basic::Uint8))
    } else {
        None
    }
}

fn other_type(name: &[u8]) -> Option<Known>
    ensures { result ≡ spec.lookup spec.other_types name.now }
{
    if name == b"bool".as_slice() {
        Some(Known::Basic(Basic::Bool))
    } else if name == b"string".as_slice() {
        Some(Known::Basic(Basic::String))
    } else if name == b"float32".as_slice() {
        Some(Known::Basic(Basic::Float32))
    } else if name == b"float64".as_slice() {
        Some(Known::Basic(Basic::Float64))
    } else if name == b"complex64".as_slice() {
        Some(Known::Basic(Basic::Complex64))
    } else if name == b"complex128".as_slice() {
        Some(Known::Basic(Basic::Complex128))
    } else if name == b"error".as_slice() {
        Some(Known::Error)
    } else {
        None
    }
}

fn constant(name: &[u8]) -> Option<Known>
    ensures { result ≡ spec.lookup spec.constants name.now }
{
    if name == b"true".as_slice() {
        Some(Known::Truth(true))
    } else if name == b"false".as_slice() {
        Some(Known::Truth(false))
    } else if name == b"iota".as_slice() {
        Some(Known::Iota)
    } else if name == b"nil".as_slice() {
        Some(Known::Nil)
    } else {
        None
    }
}

fn collection_function(name: &[u8]) -> Option<Known>
    ensures { result ≡ spec.lookup spec.collection_functions name.now }
{
    if name == b"append".as_slice() {
        Some(Known::Function(Builtin::Append))
    } else if name == b"cap".as_slice() {
        Some(Known::Function(Builtin::Cap))
    } else if name == b"close".as_slice() {
        Some(Known::Function(Builtin::Close))
    } else if name == b"copy".as_slice() {
        Some(Known::Function(Builtin::Copy))
    } else if name == b"delete".as_slice() {
        Some(Known::Function(Builtin::Delete))
    } else if name == b"len".as_slice() {
        Some(Known::Function(Builtin::Len))
    } else if name == b"make".as_slice() {
        Some(Known::Function(Builtin::Make))
    } else if name == b"new".as_slice() {
        Some(Known::Function(Builtin::New))
    } else {
        None
    }
}

fn other_function(name: &[u8]) -> Option<Known>
    ensures { result ≡ spec.lookup spec.other_functions name.now }
{
    if name == b"complex".as_slice() {
        Some(Known::Function(Builtin::Complex))
    } else if name == b"imag".as_slice() {
        Some(Known::Function(Builtin::Imag))
    } else if name == b"panic".as_slice() {
        Some(Known::Function(Builtin::Panic))
    } else if name == b"print".as_slice() {
        Some(Known::Function(Builtin::Print))
    } else if name == b"println".as_slice() {
        Some(Known::Function(Builtin::Println))
    } else if name == b"real".as_slice() {
        Some(Known::Function(Builtin::Real))
    } else if name == b"recover".as_slice() {
        Some(Known::Function(Builtin::Recover))
    } else {
        None
    }
}

/// The symbol of the predeclared type `error`, which no package declares.
pub fn error_symbol(alloc: Global) -> Mem<Symbol>
    ensures { IfOk result (λ s. s ≡ spec.error_symbol) }
{
    let package = Text::new(alloc, "")?;
    let name = Text::new(alloc, "error")?;
    Ok(Symbol {
        package,
        name,
        local: u32::MAX,
    })
}

/// Whether a symbol is that of `error`. Takes no memory.
pub fn is_error(symbol: &Symbol) -> bool
    ensures { result ≡ same_symbol symbol.now spec.error_symbol }
{
    symbol.package.as_bytes() == b"".as_slice()
        && symbol.name.as_bytes() == b"error".as_slice()
        && symbol.local == u32::MAX
}

/// The description of `error`: an interface with the method `Error() string`.
pub fn error_sig(alloc: Global) -> Mem<Sig>
    ensures { IfOk result (λ s. s ≡ spec.error_sig) }
{
    let method = error_method(alloc)?;
    let methods = one_method(alloc, method)?;
    let place = nowhere(alloc)?;
    let doc = Text::new(alloc, "")?;
    Ok(Sig {
        kind: SigKind::Defined,
        term: Term::interface(methods),
        value: None,
        methods: Items::new(alloc),
        place,
        doc,
    })
}

/// A place in no file.
fn nowhere(alloc: Global) -> Mem<Place>
    ensures { IfOk result (λ p. p ≡ nowhere) }
{
    let package = Text::new(alloc, "")?;
    let file = Text::new(alloc, "")?;
    Ok(Place {
        package,
        file,
        offset: 0,
    })
}

/// `Error() string`.
fn error_method(alloc: Global) -> Mem<Method>
    ensures { IfOk result (λ m. methods_of (m ∷ []) ≡ spec.error_methods) }
{
    let name = Text::new(alloc, "Error")?;
    let package = Text::new(alloc, "")?;
    let results = one_term(alloc, Term::basic(Basic::String))?;
    let place = nowhere(alloc)?;
    let doc = Text::new(alloc, "")?;
    Ok(Method {
        name,
        package,
        pointer: false,
        term: Term::func(Vec::new(alloc), results, false),
        place,
        doc,
    })
}

fn one_term(alloc: Global, term: Term) -> Result<Vec<Term>, AllocError>
    ensures { IfOk result (λ all. all.items ≡ term ∷ []) }
{
    let mut all = Vec::new(alloc);
    all.push(term)?;
    Ok(all)
}

fn one_method(alloc: Global, method: Method) -> Result<Vec<Method>, AllocError>
    ensures { IfOk result (λ all. all.items ≡ method ∷ []) }
{
    let mut all = Vec::new(alloc);
    all.push(method)?;
    Ok(all)
}
