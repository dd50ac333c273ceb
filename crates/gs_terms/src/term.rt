ghost use Rattle.std.specs.Prelude.{◌≡◌, IfOk};
ghost use Rattle.gs_terms.specs.Term as term;
ghost use Rattle.gs_terms.specs.Shown.{terms_of, fields_of, methods_of};

use crate::kinds::{Basic, Dir, Kind};
use crate::symbol::{Place, Symbol};
use gs_base::{Mem, Text};
use sqlite_items::Items;
use std::alloc::{AllocError, Global};
use std::marker::Model;

/// A type. Go specification, "Types". Contracts see the `Term` of `specs/Term.antt`.
#[cycle(terms)]
#[derive(Drop)]
pub struct Term {
    pub node: Node,
}

/// The form of a type.
#[cycle(terms)]
#[derive(Drop)]
pub enum Node {
    /// What has no type because of a fault.
    Invalid,
    Basic(Basic),
    /// A defined type, by the symbol that declares it.
    Named(Symbol),
    Pointer(Box<Term>),
    Slice(Box<Term>),
    Array(i128, Box<Term>),
    /// Key and element.
    Map(Box<Term>, Box<Term>),
    Chan(Dir, Box<Term>),
    Struct(Vec<FieldTerm>),
    /// Parameters, results, and whether it is variadic; then the last parameter is a slice.
    Func(Vec<Term>, Vec<Term>, bool),
    /// Methods, sorted by name and then package.
    Interface(Vec<Method>),
    /// The values of a call with other than one result.
    Tuple(Vec<Term>),
    Untyped(Kind),
    /// The type of `nil`.
    Nil,
}

/// A field of a struct type. `package` is empty where the name is exported. An embedded field has the
/// name of its type.
#[cycle(terms)]
#[derive(Drop)]
pub struct FieldTerm {
    pub name: Text,
    pub package: Text,
    pub embedded: bool,
    pub tag: Items<u8>,
    pub term: Term,
    pub place: Place,
}

/// A method of an interface or of a defined type. `package` is empty where the name is exported;
/// `pointer` says that the receiver is a pointer; `term` is the function without its receiver.
#[cycle(terms)]
#[derive(Drop)]
pub struct Method {
    pub name: Text,
    pub package: Text,
    pub pointer: bool,
    pub term: Term,
    pub place: Place,
    pub doc: Text,
}

impl Model for Term {
    ghost use Rattle.gs_terms.specs.Term.{Term as Meaning, weight};
    ghost use Rattle.gs_terms.specs.Coding.{coded_term};

    ghost Value = { Meaning };

    ghost coded = { coded_term };

    ghost use Rattle.gs_terms.specs.Shown.{term_of};

    ghost view = { λ t. term_of t.node };

    ghost size = { weight };

    ghost use Rattle.gs_terms.specs.TermFalls.{deep_le-weight};

    ghost size_decreases = { λ a h. deep_le-weight a.node };
}

impl Term {
    /// The type of what has none because of a fault.
    pub fn invalid() -> Term
        ensures { result ≡ term.invalid }
    {
        Term {
            node: Node::Invalid,
        }
    }

    /// A basic type.
    pub fn basic(basic: Basic) -> Term
        ensures { result ≡ term.basic basic }
    {
        Term {
            node: Node::Basic(basic),
        }
    }

    /// A defined type.
    pub fn named(symbol: Symbol) -> Term
        ensures { result ≡ term.named symbol }
    {
        Term {
            node: Node::Named(symbol),
        }
    }

    /// `*T`.
    pub fn pointer(alloc: Global, base: Term) -> Mem<Term>
        ensures { IfOk result (λ t. t ≡ term.pointer base) }
    {
        Ok(Term {
            node: Node::Pointer(boxed(alloc, base)?),
        })
    }

    /// `[]T`.
    pub fn slice(alloc: Global, element: Term) -> Mem<Term>
        ensures { IfOk result (λ t. t ≡ term.slice element) }
    {
        Ok(Term {
            node: Node::Slice(boxed(alloc, element)?),
        })
    }

    /// `[N]T`.
    pub fn array(alloc: Global, length: i128, element: Term) -> Mem<Term>
        ensures { IfOk result (λ t. t ≡ term.array length element) }
    {
        Ok(Term {
            node: Node::Array(length, boxed(alloc, element)?),
        })
    }

    /// `map[K]V`.
    pub fn map(alloc: Global, key: Term, element: Term) -> Mem<Term>
        ensures { IfOk result (λ t. t ≡ term.map key element) }
    {
        let key = boxed(alloc, key)?;
        let element = boxed(alloc, element)?;
        Ok(Term {
            node: Node::Map(key, element),
        })
    }

    /// `chan T`, `chan<- T` or `<-chan T`.
    pub fn chan(alloc: Global, dir: Dir, element: Term) -> Mem<Term>
        ensures { IfOk result (λ t. t ≡ term.chan dir element) }
    {
        Ok(Term {
            node: Node::Chan(dir, boxed(alloc, element)?),
        })
    }

    /// A struct type with these fields, in order.
    pub fn of_fields(fields: Vec<FieldTerm>) -> Term
        ensures { result ≡ term.struct (fields_of fields.items) }
    {
        Term {
            node: Node::Struct(fields),
        }
    }

    /// A function type; the last parameter of a variadic one is a slice.
    pub fn func(params: Vec<Term>, results: Vec<Term>, variadic: bool) -> Term
        ensures { result ≡ term.func (terms_of params.items) (terms_of results.items) variadic }
    {
        Term {
            node: Node::Func(params, results, variadic),
        }
    }

    /// An interface type with these methods, which are sorted by name and then package.
    pub fn interface(methods: Vec<Method>) -> Term
        ensures { result ≡ term.interface (methods_of methods.items) }
    {
        Term {
            node: Node::Interface(methods),
        }
    }

    /// The values of a call.
    pub fn tuple(terms: Vec<Term>) -> Term
        ensures { result ≡ term.tuple (terms_of terms.items) }
    {
        Term {
            node: Node::Tuple(terms),
        }
    }

    /// The type of an untyped operand.
    pub fn untyped(kind: Kind) -> Term
        ensures { result ≡ term.untyped kind }
    {
        Term {
            node: Node::Untyped(kind),
        }
    }

    /// The type of `nil`.
    pub fn nil() -> Term
        ensures { result ≡ term.nil }
    {
        Term { node: Node::Nil }
    }
}

/// The type in a box.
pub(crate) fn boxed(alloc: Global, term: Term) -> Result<Box<Term>, AllocError>
    ensures { IfOk result (λ b. b.value ≡ term) }
{
    Ok(Box::new(alloc, term)?)
}
