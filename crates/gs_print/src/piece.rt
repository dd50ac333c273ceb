ghost use Rattle.std.specs.Prelude.{◌≡◌, ◌++◌, IfOk, string_bytes, codes};
ghost use Rattle.std.specs.Fmt.{signed_decimal};
ghost use Rattle.gs_print.specs.Adds.{Adds};
ghost use Rattle.gs_print.specs.Text as spec;

use gs_base::Mem;
use gs_terms::{Basic, Dir, Kind, Node, Symbol, Term, is_error};
use std::alloc::Global;

/// Adds a text.
pub(crate) fn push(out: &mut String, text: &str) -> Mem<()>
    ensures { Adds out.old out.new result text.now }
{
    out.push_str(text)?;
    Ok(())
}

/// Adds a whole number in decimal digits.
pub(crate) fn push_decimal(alloc: Global, out: &mut String, number: i128) -> Mem<()>
    ensures { Adds out.old out.new result (signed_decimal number) }
{
    let digits = number.to_string(alloc)?;
    push(out, digits.as_str())
}

/// Adds the name of a defined type for a reader in the package `own`.
pub(crate) fn push_symbol(out: &mut String, symbol: &Symbol, own: &str) -> Mem<()>
    ensures { Adds out.old out.new result (spec.symbol_text own.now symbol.now) }
{
    if symbol.package.as_bytes() == own.as_bytes() || is_error(symbol) {
        push(out, symbol.name.as_str())
    } else {
        push_path(out, symbol.package.as_str(), symbol.name.as_str())
    }
}

fn push_path(out: &mut String, path: &str, name: &str) -> Mem<()>
    ensures { Adds out.old out.new result (path.now ++ codes "." ++ name.now) }
{
    push(out, path)?;
    push(out, ".")?;
    push(out, name)
}

pub(crate) fn basic_text(basic: Basic) -> &'static str
    ensures { result.now ≡ spec.basic_text basic }
{
    match basic {
        Basic::Bool => "bool",
        Basic::String => "string",
        Basic::Int => "int",
        Basic::Int8 => "int8",
        Basic::Int16 => "int16",
        Basic::Int32 => "int32",
        Basic::Int64 => "int64",
        Basic::Uint => "uint",
        Basic::Uint8 => "uint8",
        Basic::Uint16 => "uint16",
        Basic::Uint32 => "uint32",
        Basic::Uint64 => "uint64",
        Basic::Uintptr => "uintptr",
        Basic::Float32 => "float32",
        Basic::Float64 => "float64",
        Basic::Complex64 => "complex64",
        Basic::Complex128 => "complex128",
    }
}

pub(crate) fn kind_text(kind: Kind) -> &'static str
    ensures { result.now ≡ spec.kind_text kind }
{
    match kind {
        Kind::Bool => "untyped bool",
        Kind::Rune => "untyped rune",
        Kind::Int => "untyped int",
        Kind::String => "untyped string",
    }
}

pub(crate) fn chan_text(dir: Dir) -> &'static str
    ensures { result.now ≡ spec.chan_text dir }
{
    match dir {
        Dir::Both => "chan ",
        Dir::Send => "chan<- ",
        Dir::Receive => "<-chan ",
    }
}

/// Whether a channel's element stands in parentheses.
pub(crate) fn has_parentheses(dir: Dir, element: &Term) -> bool
    ensures { result ≡ spec.has_parentheses dir element.now }
{
    match (dir, &element.node) {
        (Dir::Both, Node::Chan(Dir::Receive, _)) => true,
        _ => false,
    }
}
