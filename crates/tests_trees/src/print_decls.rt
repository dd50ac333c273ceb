//! Declarations and chunks in the notation.

use crate::part::{Part, Parts, Tree, put_list};
use gs_grammar::trees::{Block, Chunk, ConstSpec, Decl, ImportSpec, Top, TypeSpec, VarSpec};
use std::alloc::AllocError;

impl Tree for Decl {
    fn put<'t>(&'t self, parts: &mut Parts<'t>) -> Result<(), AllocError> {
        match self {
            Decl::Const(word, spec) => {
                parts.put("(const# ", &[Part::At(*word)])?;
                spec.put(parts)?;
                parts.put(")", &[])
            }
            Decl::ConstGroup(word, specs) => {
                parts.put("(const# {", &[Part::At(*word)])?;
                put_list(parts, specs, "; ")?;
                parts.put("})", &[])
            }
            Decl::Type(word, spec) => {
                parts.put("(type# ", &[Part::At(*word)])?;
                spec.put(parts)?;
                parts.put(")", &[])
            }
            Decl::TypeGroup(word, specs) => {
                parts.put("(type# {", &[Part::At(*word)])?;
                put_list(parts, specs, "; ")?;
                parts.put("})", &[])
            }
            Decl::Var(word, spec) => {
                parts.put("(var# ", &[Part::At(*word)])?;
                spec.put(parts)?;
                parts.put(")", &[])
            }
            Decl::VarGroup(word, specs) => {
                parts.put("(var# {", &[Part::At(*word)])?;
                put_list(parts, specs, "; ")?;
                parts.put("})", &[])
            }
        }
    }
}

impl Tree for ConstSpec {
    fn put<'t>(&'t self, parts: &mut Parts<'t>) -> Result<(), AllocError> {
        match self {
            ConstSpec::Implicit(names) => put_list(parts, names, " "),
            ConstSpec::Untyped(names, values) => {
                put_list(parts, names, " ")?;
                parts.put(" = ", &[])?;
                put_list(parts, values, ", ")
            }
            ConstSpec::Typed(names, of, values) => {
                put_list(parts, names, " ")?;
                parts.put(" : # = ", &[Part::Type(of)])?;
                put_list(parts, values, ", ")
            }
        }
    }
}

impl Tree for TypeSpec {
    fn put<'t>(&'t self, parts: &mut Parts<'t>) -> Result<(), AllocError> {
        match self {
            TypeSpec::Definition(name, of) => {
                parts.put("# #", &[Part::Token(name), Part::Type(of)])
            }
            TypeSpec::Alias(name, of) => {
                parts.put("# = #", &[Part::Token(name), Part::Type(of)])
            }
        }
    }
}

impl Tree for VarSpec {
    fn put<'t>(&'t self, parts: &mut Parts<'t>) -> Result<(), AllocError> {
        match self {
            VarSpec::Typed(names, of) => {
                put_list(parts, names, " ")?;
                parts.put(" : #", &[Part::Type(of)])
            }
            VarSpec::TypedValues(names, of, values) => {
                put_list(parts, names, " ")?;
                parts.put(" : # = ", &[Part::Type(of)])?;
                put_list(parts, values, ", ")
            }
            VarSpec::Values(names, values) => {
                put_list(parts, names, " ")?;
                parts.put(" = ", &[])?;
                put_list(parts, values, ", ")
            }
        }
    }
}

impl Tree for ImportSpec {
    fn put<'t>(&'t self, parts: &mut Parts<'t>) -> Result<(), AllocError> {
        match self {
            ImportSpec::Plain(path) => parts.put("#", &[Part::Token(path)]),
            ImportSpec::Dot(dot, path) => parts.put(".# #", &[Part::At(*dot), Part::Token(path)]),
            ImportSpec::Named(name, path) => {
                parts.put("# #", &[Part::Token(name), Part::Token(path)])
            }
        }
    }
}

/// Puts the body of a function, where it has one, and the end of its declaration.
fn put_body<'t>(parts: &mut Parts<'t>, body: &'t Option<Block>) -> Result<(), AllocError> {
    if let Some(body) = body {
        parts.put(" ", &[])?;
        body.put(parts)?;
    }
    parts.put(")", &[])
}

impl Tree for Top {
    fn put<'t>(&'t self, parts: &mut Parts<'t>) -> Result<(), AllocError> {
        match self {
            Top::Declaration(declaration) => declaration.put(parts),
            Top::Function(word, name, signature, body) => {
                parts.put("(func# # ", &[Part::At(*word), Part::Token(name)])?;
                signature.put(parts)?;
                put_body(parts, body)
            }
            Top::Method(word, receiver, name, signature, body) => {
                parts.put("(method# ", &[Part::At(*word)])?;
                receiver.put(parts)?;
                parts.put(" # ", &[Part::Token(name)])?;
                signature.put(parts)?;
                put_body(parts, body)
            }
        }
    }
}

impl Tree for Chunk {
    fn put<'t>(&'t self, parts: &mut Parts<'t>) -> Result<(), AllocError> {
        match self {
            Chunk::Package(name) => parts.put("(package #)", &[Part::Token(name)]),
            Chunk::Import(specs) => {
                parts.put("(import {", &[])?;
                put_list(parts, specs, "; ")?;
                parts.put("})", &[])
            }
            Chunk::Top(top) => top.put(parts),
        }
    }
}
