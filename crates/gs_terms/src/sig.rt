ghost use Rattle.std.specs.Prelude.{◌≡◌, IfOk};

use crate::kinds::SigKind;
use crate::symbol::Place;
use crate::term::{Method, Term};
use gs_base::{Mem, Text};
use sqlite_items::Items;
use std::alloc::Global;

/// The value of a constant: a truth, a whole number, or the bytes of a string.
#[derive(Debug, Drop)]
pub enum Value {
    Truth(bool),
    Whole(i128),
    Text(Items<u8>),
}

/// The description of a declaration. `term` is a constant's, variable's or function's type, and the right
/// side of a type declaration; `methods` are those declared with a defined type as receiver.
#[derive(Drop)]
pub struct Sig {
    pub kind: SigKind,
    pub term: Term,
    pub value: Option<Value>,
    pub methods: Items<Method>,
    pub place: Place,
    pub doc: Text,
}

impl Value {
    /// A copy.
    pub fn copy(&self, alloc: Global) -> Mem<Value>
        ensures { IfOk result (λ v. v ≡ self.now) }
    {
        match self {
            Value::Truth(truth) => Ok(Value::Truth(*truth)),
            Value::Whole(whole) => Ok(Value::Whole(*whole)),
            Value::Text(bytes) => Ok(Value::Text(Items::from_slice(alloc, bytes.as_slice())?)),
        }
    }
}

impl Sig {
    /// A copy.
    pub fn copy(&self, alloc: Global) -> Mem<Sig>
        ensures { IfOk result (λ s. s ≡ self.now) }
    {
        let term = self.term.copy(alloc)?;
        let value = copy_value(alloc, &self.value)?;
        let methods = copy_methods(alloc, self.methods.as_slice())?;
        let place = self.place.copy(alloc)?;
        let doc = self.doc.copy(alloc)?;
        Ok(Sig {
            kind: self.kind,
            term,
            value,
            methods,
            place,
            doc,
        })
    }
}

fn copy_value(alloc: Global, value: &Option<Value>) -> Mem<Option<Value>>
    ensures { IfOk result (λ v. v ≡ value.now) }
{
    match value {
        Some(value) => Ok(Some(value.copy(alloc)?)),
        None => Ok(None),
    }
}

fn copy_methods(alloc: Global, methods: &[Method]) -> Mem<Items<Method>>
    ensures { IfOk result (λ all. all ≡ methods.now) }
{
    let mut all = Items::new(alloc);
    for method in methods {
        let copied = method.copy(alloc)?;
        all.push(copied)?;
    }
    Ok(all)
}
