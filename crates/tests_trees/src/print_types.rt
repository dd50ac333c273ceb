//! Types and signatures in the notation.

use crate::part::{Part, Parts, Tree, put_list};
use gs_grammar::trees::{Field, Member, Parameter, Parameters, Signature, TypeExpr};
use std::alloc::AllocError;

/// Puts the parts of the type of a channel.
fn open_channel<'t>(parts: &mut Parts<'t>, tree: &'t TypeExpr) -> Result<(), AllocError> {
    match tree {
        TypeExpr::Channel(word, element) => {
            parts.put("(chan# #)", &[Part::At(*word), Part::Type(element.get())])
        }
        TypeExpr::SendChannel(word, element) => {
            parts.put("(chan<-# #)", &[Part::At(*word), Part::Type(element.get())])
        }
        TypeExpr::ReceiveChannel(arrow, element) => {
            parts.put(
                "(<-chan# #)",
                &[Part::At(*arrow), Part::Type(element.get())],
            )
        }
        _ => parts.put("?", &[]),
    }
}

/// Puts the parts of a type with an element.
fn open_prefixed<'t>(parts: &mut Parts<'t>, tree: &'t TypeExpr) -> Result<(), AllocError> {
    match tree {
        TypeExpr::Pointer(star, base) => {
            parts.put("(*# #)", &[Part::At(*star), Part::Type(base.get())])
        }
        TypeExpr::Slice(left, element) => {
            parts.put("([]# #)", &[Part::At(*left), Part::Type(element.get())])
        }
        TypeExpr::Array(left, length, element) => {
            let (length, element) = (Part::Expr(length.get()), Part::Type(element.get()));
            parts.put("(array# # #)", &[Part::At(*left), length, element])
        }
        TypeExpr::Map(word, key, value) => {
            let (key, value) = (Part::Type(key.get()), Part::Type(value.get()));
            parts.put("(map# # #)", &[Part::At(*word), key, value])
        }
        other => open_channel(parts, other),
    }
}

/// Puts the parts of a type.
pub fn open_type<'t>(parts: &mut Parts<'t>, tree: &'t TypeExpr) -> Result<(), AllocError> {
    match tree {
        TypeExpr::Name(name) => name.put(parts),
        TypeExpr::Qualified(package, name) => {
            parts.put("#.#", &[Part::Token(package), Part::Token(name)])
        }
        TypeExpr::Paren(left, inner, right) => {
            let inner = Part::Type(inner.get());
            parts.put("(paren #)##", &[inner, Part::At(*left), Part::At(*right)])
        }
        TypeExpr::Function(word, signature) => {
            parts.put("(func# ", &[Part::At(*word)])?;
            signature.get().put(parts)?;
            parts.put(")", &[])
        }
        TypeExpr::Struct(word, fields, right) => {
            parts.put("(struct# {", &[Part::At(*word)])?;
            put_list(parts, fields, "; ")?;
            parts.put("}#)", &[Part::At(*right)])
        }
        TypeExpr::Interface(word, members, right) => {
            parts.put("(interface# {", &[Part::At(*word)])?;
            put_list(parts, members, "; ")?;
            parts.put("}#)", &[Part::At(*right)])
        }
        other => open_prefixed(parts, other),
    }
}

impl Tree for Signature {
    fn put<'t>(&'t self, parts: &mut Parts<'t>) -> Result<(), AllocError> {
        match self {
            Signature::Plain(given) => given.put(parts),
            Signature::Result(given, back) => {
                given.put(parts)?;
                parts.put(" #", &[Part::Type(back)])
            }
            Signature::Results(given, back) => {
                given.put(parts)?;
                parts.put(" ", &[])?;
                back.put(parts)
            }
        }
    }
}

impl Tree for Parameters {
    fn put<'t>(&'t self, parts: &mut Parts<'t>) -> Result<(), AllocError> {
        parts.put("[", &[])?;
        put_list(parts, &self.list, ", ")?;
        parts.put("]##", &[Part::At(self.left), Part::At(self.right)])
    }
}

impl Tree for Parameter {
    fn put<'t>(&'t self, parts: &mut Parts<'t>) -> Result<(), AllocError> {
        match self {
            Parameter::Plain(of) => of.put(parts),
            Parameter::Variadic(dots, of) => {
                parts.put("...# #", &[Part::At(*dots), Part::Type(of)])
            }
            Parameter::Named(names, of) => {
                put_list(parts, names, " ")?;
                parts.put(" : #", &[Part::Type(of)])
            }
            Parameter::NamedVariadic(names, dots, of) => {
                put_list(parts, names, " ")?;
                parts.put(" : ...# #", &[Part::At(*dots), Part::Type(of)])
            }
        }
    }
}

impl Tree for Field {
    fn put<'t>(&'t self, parts: &mut Parts<'t>) -> Result<(), AllocError> {
        let tag = match self {
            Field::Named(names, of, tag) => {
                put_list(parts, names, " ")?;
                parts.put(" : #", &[Part::Type(of)])?;
                tag
            }
            Field::Embedded(of, tag) => {
                of.put(parts)?;
                tag
            }
        };
        match tag {
            None => Ok(()),
            Some(tag) => parts.put(" #", &[Part::Token(tag)]),
        }
    }
}

impl Tree for Member {
    fn put<'t>(&'t self, parts: &mut Parts<'t>) -> Result<(), AllocError> {
        match self {
            Member::Method(name, signature) => {
                parts.put("# ", &[Part::Token(name)])?;
                signature.put(parts)
            }
            Member::Embedded(of) => of.put(parts),
        }
    }
}
