ghost use Rattle.std.specs.Prelude.{◌≡◌, ◌++◌, IfOk, string_bytes, flat_map, codes, [], ◌∷◌, ◌/◌, ◌%◌, ◌<◌};
ghost use Rattle.gs_print.specs.Adds.{Adds};
ghost use Rattle.gs_print.specs.Text as text;
ghost use Rattle.gs_print.specs.Hover as spec;

use crate::piece::{push, push_decimal};
use crate::text::{write_after_name, write_term};
use gs_base::{Mem, Text};
use gs_terms::{Sig, SigKind, Term, Value};
use std::alloc::Global;

/// What a reader is told of the declaration of `name`: the declaration in one line, and its doc comment.
pub fn hover_text(alloc: Global, name: &str, sig: &Sig) -> Mem<Text>
    ensures { IfOk result (λ t. t ≡ spec.hover_text name.now sig.now) }
{
    let mut out = String::new(alloc);
    write_declaration(alloc, &mut out, name, sig)?;
    write_doc(&mut out, sig.doc.as_str())?;
    Ok(Text::from_string(out))
}

fn write_declaration(alloc: Global, out: &mut String, name: &str, sig: &Sig) -> Mem<()>
    ensures { Adds out.old out.new result
        (spec.declaration sig.now.kind name.now sig.now.term
        (text.term_text sig.now.place.package sig.now.term) sig.now.value) }
{
    let own = sig.place.package.as_str();
    match sig.kind {
        SigKind::Var => write_typed(alloc, out, "var ", name, " ", &sig.term, own),
        SigKind::Const => write_const(alloc, out, name, sig, own),
        SigKind::Defined => write_typed(alloc, out, "type ", name, " ", &sig.term, own),
        SigKind::Alias => write_typed(alloc, out, "type ", name, " = ", &sig.term, own),
        SigKind::Func => write_func(alloc, out, name, &sig.term, own),
    }
}

/// Adds a keyword, a name, a mark and a type.
fn write_typed(
    alloc: Global,
    out: &mut String,
    keyword: &str,
    name: &str,
    mark: &str,
    term: &Term,
    own: &str,
) -> Mem<()>
    ensures { Adds out.old out.new result
        (keyword.now ++ name.now ++ mark.now ++ text.term_text own.now term.now) }
{
    push(out, keyword)?;
    push(out, name)?;
    push(out, mark)?;
    write_term(alloc, out, term, own)
}

fn write_const(alloc: Global, out: &mut String, name: &str, sig: &Sig, own: &str) -> Mem<()>
    ensures { Adds out.old out.new result
        (codes "const " ++ name.now ++ codes " " ++ text.term_text own.now sig.now.term ++
        spec.value_part sig.now.value) }
{
    write_typed(alloc, out, "const ", name, " ", &sig.term, own)?;
    match &sig.value {
        Some(value) => write_equals(alloc, out, value),
        None => Ok(()),
    }
}

fn write_func(alloc: Global, out: &mut String, name: &str, term: &Term, own: &str) -> Mem<()>
    ensures { Adds out.old out.new result
        (codes "func " ++ name.now ++
        text.after_name term.now (text.term_text own.now term.now)) }
{
    push(out, "func ")?;
    push(out, name)?;
    write_after_name(alloc, out, term, own)
}

fn write_equals(alloc: Global, out: &mut String, value: &Value) -> Mem<()>
    ensures { Adds out.old out.new result (codes " = " ++ spec.value_text value.now) }
{
    push(out, " = ")?;
    write_value(alloc, out, value)
}

fn write_value(alloc: Global, out: &mut String, value: &Value) -> Mem<()>
    ensures { Adds out.old out.new result (spec.value_text value.now) }
{
    match value {
        Value::Truth(truth) => push(out, if *truth { "true" } else { "false" }),
        Value::Whole(whole) => push_decimal(alloc, out, *whole),
        Value::Text(bytes) => write_quoted(out, bytes.as_slice()),
    }
}

fn write_quoted(out: &mut String, bytes: &[u8]) -> Mem<()>
    ensures { Adds out.old out.new result
        (34 ∷ [] ++ flat_map spec.byte_text bytes.now ++ 34 ∷ []) }
{
    push(out, "\"")?;
    write_bytes(out, bytes)?;
    push(out, "\"")
}

fn write_bytes(out: &mut String, bytes: &[u8]) -> Mem<()>
    ensures { Adds out.old out.new result (flat_map spec.byte_text bytes.now) }
{
    for byte in bytes {
        write_byte(out, *byte)?;
    }
    Ok(())
}

fn write_byte(out: &mut String, byte: u8) -> Mem<()>
    ensures { Adds out.old out.new result (spec.byte_text byte) }
{
    if byte == b'"' {
        push(out, "\\\"")
    } else if byte == b'\\' {
        push(out, "\\\\")
    } else if 32 <= byte && byte <= 126 {
        push_ascii(out, byte)
    } else {
        write_hex(out, byte)
    }
}

/// Adds a byte by its number, as `\x0a`.
fn write_hex(out: &mut String, byte: u8) -> Mem<()>
    ensures { Adds out.old out.new result
        (92 ∷ 120 ∷ spec.hex_digit (byte / 16) ∷ spec.hex_digit (byte % 16) ∷ []) }
{
    push(out, "\\x")?;
    push_ascii(out, hex_digit(byte / 16))?;
    push_ascii(out, hex_digit(byte % 16))
}

fn hex_digit(digit: u8) -> u8
    requires { digit < 16 }
    ensures value { result ≡ spec.hex_digit digit }
    ensures ascii { result < 128 }
{
    if digit < 10 {
        b'0' + digit
    } else {
        b'a' - 10 + digit
    }
}

/// Adds an ASCII character.
fn push_ascii(out: &mut String, byte: u8) -> Mem<()>
    requires { byte < 128 }
    ensures { Adds out.old out.new result (byte ∷ []) }
{
    out.push(byte as char)?;
    Ok(())
}

/// Adds two LF and the doc comment, where there is one.
fn write_doc(out: &mut String, doc: &str) -> Mem<()>
    ensures { Adds out.old out.new result (spec.doc_part doc.now) }
{
    if doc.is_empty() {
        Ok(())
    } else {
        push(out, "\n\n")?;
        push(out, doc)
    }
}
