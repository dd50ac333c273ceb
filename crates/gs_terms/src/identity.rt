ghost use Rattle.std.specs.Prelude.{◌≡◌, ◌↔◌, IsTrue};
ghost use Rattle.gs_terms.specs.Identity as spec;
ghost use Rattle.gs_terms.specs.Term as term;
ghost use Rattle.gs_terms.specs.Bare.{bare};
ghost use Rattle.gs_terms.specs.Shown.{terms_of, fields_of, methods_of};

use crate::symbol::Symbol;
use crate::term::{FieldTerm, Method, Node, Term};

/// Whether two types are identical. Go specification, "Type identity".
#[cycle(identity)]
pub fn identical(a: &Term, b: &Term) -> bool
    ensures { result ≡ spec.identical a.now b.now }
{
    match (&a.node, &b.node) {
        (Node::Invalid, Node::Invalid) => true,
        (Node::Basic(x), Node::Basic(y)) => x.number() == y.number(),
        (Node::Named(x), Node::Named(y)) => same_symbol(x, y),
        (Node::Pointer(x), Node::Pointer(y)) => identical(x, y),
        (Node::Slice(x), Node::Slice(y)) => identical(x, y),
        (Node::Array(m, x), Node::Array(n, y)) => *m == *n && identical(x, y),
        (Node::Map(j, x), Node::Map(k, y)) => identical(j, k) && identical(x, y),
        (Node::Chan(d, x), Node::Chan(e, y)) => d.number() == e.number() && identical(x, y),
        (Node::Struct(x), Node::Struct(y)) => identical_fields(x, y),
        (Node::Func(ps, rs, v), Node::Func(qs, ss, w)) => {
            identical_all(ps, qs) && identical_all(rs, ss) && same_bool(*v, *w)
        }
        (Node::Interface(x), Node::Interface(y)) => identical_methods(x, y),
        (Node::Tuple(x), Node::Tuple(y)) => identical_all(x, y),
        (Node::Untyped(x), Node::Untyped(y)) => x.number() == y.number(),
        (Node::Nil, Node::Nil) => true,
        _ => false,
    }
}

#[cycle(identity)]
fn identical_all(a: &[Term], b: &[Term]) -> bool
    ensures { result ≡ spec.identical_all (terms_of a.now) (terms_of b.now) }
{
    if a.len() != b.len() {
        return false;
    }
    for (i, x) in a.iter().enumerate() {
        if !identical(x, &b[i]) {
            return false;
        }
    }
    true
}

#[cycle(identity)]
fn identical_fields(a: &[FieldTerm], b: &[FieldTerm]) -> bool
    ensures { result ≡ spec.identical_fields (fields_of a.now) (fields_of b.now) }
{
    if a.len() != b.len() {
        return false;
    }
    for (i, x) in a.iter().enumerate() {
        if !same_field(x, &b[i]) {
            return false;
        }
    }
    true
}

#[cycle(identity)]
fn same_field(x: &FieldTerm, y: &FieldTerm) -> bool
    ensures { result ≡ spec.same_field x.now y.now }
{
    x.name.is(&y.name)
        && x.package.is(&y.package)
        && same_bool(x.embedded, y.embedded)
        && x.tag.as_slice() == y.tag.as_slice()
        && identical(&x.term, &y.term)
}

#[cycle(identity)]
fn identical_methods(a: &[Method], b: &[Method]) -> bool
    ensures { result ≡ spec.identical_methods (methods_of a.now) (methods_of b.now) }
{
    if a.len() != b.len() {
        return false;
    }
    for (i, x) in a.iter().enumerate() {
        if !same_method(x, &b[i]) {
            return false;
        }
    }
    true
}

#[cycle(identity)]
fn same_method(x: &Method, y: &Method) -> bool
    ensures { result ≡ spec.same_method x.now y.now }
{
    x.name.is(&y.name) && x.package.is(&y.package) && identical(&x.term, &y.term)
}

/// What identity means, for every two types: the rules of the Go specification hold of them, which is an
/// equivalence, and the same as being equal once places, doc comments and receivers are set aside. Does nothing.
pub fn identity_law()
    ensures rules { (a b : term.Term) → IsTrue (spec.identical a b) ↔ spec.AreIdentical a b }
    ensures equal { (a b : term.Term) → IsTrue (spec.identical a b) ↔ (bare a ≡ bare b) }
    ensures reflexive { (a : term.Term) → IsTrue (spec.identical a a) }
    ensures symmetric { (a b : term.Term) → IsTrue (spec.identical a b) → IsTrue (spec.identical b a) }
    ensures transitive { (a b c : term.Term) → IsTrue (spec.identical a b) → IsTrue (spec.identical b c) → IsTrue (spec.identical a c) }
{}

/// Whether two symbols are the same. Takes no memory.
pub fn same_symbol(a: &Symbol, b: &Symbol) -> bool
    ensures { result ≡ spec.same_symbol a.now b.now }
{
    a.package.is(&b.package) && a.name.is(&b.name) && a.local == b.local
}

fn same_bool(a: bool, b: bool) -> bool
    ensures { result ≡ spec.same_bool a b }
{
    if a { b } else { !b }
}
