ghost use Rattle.std.specs.Prelude.{◌≡◌, IfOk, [], ◌∷◌, ◌++◌};

use crate::term::{FieldTerm, Method, Node, Term, boxed};
use gs_base::Mem;
use sqlite_items::Items;
use std::alloc::{AllocError, Global};

impl Term {
    /// A copy.
    #[cycle(copy)]
    pub fn copy(&self, alloc: Global) -> Mem<Term>
        ensures { IfOk result (λ t. t ≡ self.now) }
    {
        let node = match &self.node {
            Node::Invalid => Node::Invalid,
            Node::Basic(basic) => Node::Basic(*basic),
            Node::Named(symbol) => Node::Named(symbol.copy(alloc)?),
            Node::Pointer(base) => Node::Pointer(copy_boxed(alloc, base)?),
            Node::Slice(element) => Node::Slice(copy_boxed(alloc, element)?),
            Node::Array(length, element) => Node::Array(*length, copy_boxed(alloc, element)?),
            Node::Map(key, element) => {
                let key = copy_boxed(alloc, key)?;
                Node::Map(key, copy_boxed(alloc, element)?)
            }
            Node::Chan(dir, element) => Node::Chan(*dir, copy_boxed(alloc, element)?),
            Node::Struct(fields) => Node::Struct(copy_fields(alloc, fields)?),
            Node::Func(params, results, variadic) => {
                let params = copy_terms(alloc, params)?;
                Node::Func(params, copy_terms(alloc, results)?, *variadic)
            }
            Node::Interface(methods) => Node::Interface(copy_methods(alloc, methods)?),
            Node::Tuple(terms) => Node::Tuple(copy_terms(alloc, terms)?),
            Node::Untyped(kind) => Node::Untyped(*kind),
            Node::Nil => Node::Nil,
        };
        Ok(Term { node })
    }
}

impl FieldTerm {
    /// A copy.
    #[cycle(copy)]
    pub fn copy(&self, alloc: Global) -> Mem<FieldTerm>
        ensures { IfOk result (λ f. f ≡ self.now) }
    {
        let name = self.name.copy(alloc)?;
        let package = self.package.copy(alloc)?;
        let tag = Items::from_slice(alloc, self.tag.as_slice())?;
        let term = self.term.copy(alloc)?;
        let place = self.place.copy(alloc)?;
        Ok(FieldTerm {
            name,
            package,
            embedded: self.embedded,
            tag,
            term,
            place,
        })
    }
}

impl Method {
    /// A copy.
    #[cycle(copy)]
    pub fn copy(&self, alloc: Global) -> Mem<Method>
        ensures { IfOk result (λ m. m ≡ self.now) }
    {
        let name = self.name.copy(alloc)?;
        let package = self.package.copy(alloc)?;
        let term = self.term.copy(alloc)?;
        let place = self.place.copy(alloc)?;
        let doc = self.doc.copy(alloc)?;
        Ok(Method {
            name,
            package,
            pointer: self.pointer,
            term,
            place,
            doc,
        })
    }
}

#[cycle(copy)]
fn copy_boxed(alloc: Global, term: &Box<Term>) -> Mem<Box<Term>>
    ensures { IfOk result (λ t. t.value ≡ term.now.value) }
{
    let copied = term.copy(alloc)?;
    Ok(boxed(alloc, copied)?)
}

#[cycle(copy)]
fn copy_terms(alloc: Global, terms: &Vec<Term>) -> Mem<Vec<Term>>
    ensures { IfOk result (λ all. all.items ≡ terms.now.items) }
{
    let mut all = Vec::new(alloc);
    for term in terms {
        let copied = term.copy(alloc)?;
        push_term(&mut all, copied)?;
    }
    Ok(all)
}

#[cycle(copy)]
fn copy_fields(alloc: Global, fields: &Vec<FieldTerm>) -> Mem<Vec<FieldTerm>>
    ensures { IfOk result (λ all. all.items ≡ fields.now.items) }
{
    let mut all = Vec::new(alloc);
    for field in fields {
        let copied = field.copy(alloc)?;
        push_field(&mut all, copied)?;
    }
    Ok(all)
}

#[cycle(copy)]
fn copy_methods(alloc: Global, methods: &Vec<Method>) -> Mem<Vec<Method>>
    ensures { IfOk result (λ all. all.items ≡ methods.now.items) }
{
    let mut all = Vec::new(alloc);
    for method in methods {
        let copied = method.copy(alloc)?;
        push_method(&mut all, copied)?;
    }
    Ok(all)
}

fn push_term(all: &mut Vec<Term>, term: Term) -> Result<(), AllocError>
    ensures { IfOk result (λ _. all.new.items ≡ all.old.items ++ term ∷ []) }
{
    all.push(term)?;
    Ok(())
}

fn push_field(all: &mut Vec<FieldTerm>, field: FieldTerm) -> Result<(), AllocError>
    ensures { IfOk result (λ _. all.new.items ≡ all.old.items ++ field ∷ []) }
{
    all.push(field)?;
    Ok(())
}

fn push_method(all: &mut Vec<Method>, method: Method) -> Result<(), AllocError>
    ensures { IfOk result (λ _. all.new.items ≡ all.old.items ++ method ∷ []) }
{
    all.push(method)?;
    Ok(())
}
