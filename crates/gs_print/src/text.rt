ghost use Rattle.std.specs.Prelude.{◌≡◌, ◌++◌, IfOk, string_bytes, codes, if◌then◌else◌};
ghost use Rattle.std.specs.Fmt.{signed_decimal};
ghost use Rattle.gs_terms.specs.Shown.{terms_of, fields_of, methods_of};
ghost use Rattle.gs_print.specs.Adds.{Adds};
ghost use Rattle.gs_print.specs.Text as spec;
ghost use Rattle.gs_print.specs.Front.{terms_front, fields_front, methods_front, field_written, method_written};

use crate::piece::{
    basic_text, chan_text, has_parentheses, kind_text, push, push_decimal, push_symbol,
};
use gs_base::{Mem, Text};
use gs_terms::{Dir, FieldTerm, Method, Node, Term};
use std::alloc::Global;

/// The text of a type for a reader in the package `own`.
pub fn term_text(alloc: Global, term: &Term, own: &str) -> Mem<Text>
    ensures { IfOk result (λ t. t ≡ spec.term_text own.now term.now) }
{
    let mut out = String::new(alloc);
    write_term(alloc, &mut out, term, own)?;
    Ok(Text::from_string(out))
}

/// What stands behind the name of a function or method of this type, for a reader in the package `own`: `(A) B`, or a
/// blank and the type where that is no function.
pub fn after_name_text(alloc: Global, term: &Term, own: &str) -> Mem<Text>
    ensures { IfOk result (λ t. t ≡ spec.after_name term.now (spec.term_text own.now term.now)) }
{
    let mut out = String::new(alloc);
    write_after_name(alloc, &mut out, term, own)?;
    Ok(Text::from_string(out))
}

/// Adds the text of a type for a reader in the package `own`.
#[cycle(write)]
pub(crate) fn write_term(alloc: Global, out: &mut String, term: &Term, own: &str) -> Mem<()>
    ensures { Adds out.old out.new result (spec.term_text own.now term.now) }
{
    match &term.node {
        Node::Invalid => push(out, "invalid"),
        Node::Basic(basic) => push(out, basic_text(*basic)),
        Node::Named(symbol) => push_symbol(out, symbol, own),
        Node::Pointer(base) => write_marked(alloc, out, "*", base, own),
        Node::Slice(element) => write_marked(alloc, out, "[]", element, own),
        Node::Array(length, element) => write_array(alloc, out, *length, element, own),
        Node::Map(key, element) => write_map(alloc, out, key, element, own),
        Node::Chan(dir, element) => write_chan(alloc, out, *dir, element, own),
        Node::Struct(fields) => write_struct(alloc, out, fields, own),
        Node::Func(params, results, variadic) => write_func(
            alloc, out, params, results, *variadic, own,
        ),
        Node::Interface(methods) => write_interface(alloc, out, methods, own),
        Node::Tuple(terms) => write_params(alloc, out, terms, false, own),
        Node::Untyped(kind) => push(out, kind_text(*kind)),
        Node::Nil => push(out, "untyped nil"),
    }
}

/// Adds a type after a mark.
#[cycle(write)]
fn write_marked(alloc: Global, out: &mut String, mark: &str, term: &Term, own: &str) -> Mem<()>
    ensures { Adds out.old out.new result (mark.now ++ spec.term_text own.now term.now) }
{
    push(out, mark)?;
    write_term(alloc, out, term, own)
}

#[cycle(write)]
fn write_array(alloc: Global, out: &mut String, length: i128, element: &Term, own: &str) -> Mem<()>
    ensures { Adds out.old out.new result
        (codes "[" ++ signed_decimal length ++ codes "]" ++
        spec.term_text own.now element.now) }
{
    push(out, "[")?;
    push_decimal(alloc, out, length)?;
    push(out, "]")?;
    write_term(alloc, out, element, own)
}

#[cycle(write)]
fn write_map(alloc: Global, out: &mut String, key: &Term, element: &Term, own: &str) -> Mem<()>
    ensures { Adds out.old out.new result
        (codes "map[" ++ spec.term_text own.now key.now ++ codes "]" ++
        spec.term_text own.now element.now) }
{
    push(out, "map[")?;
    write_term(alloc, out, key, own)?;
    push(out, "]")?;
    write_term(alloc, out, element, own)
}

#[cycle(write)]
fn write_chan(alloc: Global, out: &mut String, dir: Dir, element: &Term, own: &str) -> Mem<()>
    ensures { Adds out.old out.new result
        (spec.chan_text dir ++ (if spec.has_parentheses dir element.now then codes "(" ++
        spec.term_text own.now element.now ++
        codes ")" else spec.term_text own.now element.now)) }
{
    push(out, chan_text(dir))?;
    if has_parentheses(dir, element) {
        write_enclosed(alloc, out, element, own)
    } else {
        write_term(alloc, out, element, own)
    }
}

#[cycle(write)]
fn write_enclosed(alloc: Global, out: &mut String, term: &Term, own: &str) -> Mem<()>
    ensures { Adds out.old out.new result
        (codes "(" ++ spec.term_text own.now term.now ++ codes ")") }
{
    push(out, "(")?;
    write_term(alloc, out, term, own)?;
    push(out, ")")
}

#[cycle(write)]
fn write_struct(alloc: Global, out: &mut String, fields: &[FieldTerm], own: &str) -> Mem<()>
    ensures { Adds out.old out.new result
        (codes "struct{" ++
        spec.joined (codes "; ") (spec.field_texts own.now (fields_of fields.now)) ++
        codes "}") }
{
    push(out, "struct{")?;
    write_fields(alloc, out, fields, own)?;
    push(out, "}")
}

#[cycle(write)]
fn write_interface(alloc: Global, out: &mut String, methods: &[Method], own: &str) -> Mem<()>
    ensures { Adds out.old out.new result
        (codes "interface{" ++
        spec.joined (codes "; ") (spec.method_texts own.now (methods_of methods.now)) ++
        codes "}") }
{
    push(out, "interface{")?;
    write_methods(alloc, out, methods, own)?;
    push(out, "}")
}

#[cycle(write)]
fn write_func(
    alloc: Global,
    out: &mut String,
    params: &[Term],
    results: &[Term],
    variadic: bool,
    own: &str,
) -> Mem<()>
    ensures { Adds out.old out.new result
        (codes "func" ++
        spec.signature_text own.now (terms_of params.now) (terms_of results.now) variadic) }
{
    push(out, "func")?;
    write_signature(alloc, out, params, results, variadic, own)
}

/// Adds parameters and results.
#[cycle(write)]
fn write_signature(
    alloc: Global,
    out: &mut String,
    params: &[Term],
    results: &[Term],
    variadic: bool,
    own: &str,
) -> Mem<()>
    ensures { Adds out.old out.new result
        (spec.signature_text own.now (terms_of params.now) (terms_of results.now) variadic) }
{
    write_params(alloc, out, params, variadic, own)?;
    write_results(alloc, out, results, own)
}

#[cycle(write)]
fn write_results(alloc: Global, out: &mut String, results: &[Term], own: &str) -> Mem<()>
    ensures { Adds out.old out.new result (spec.results_text own.now (terms_of results.now)) }
{
    match results {
        [] => Ok(()),
        [one] => write_marked(alloc, out, " ", one, own),
        [_first, _second, ..] => write_several(alloc, out, results, own),
    }
}

#[cycle(write)]
fn write_several(alloc: Global, out: &mut String, results: &[Term], own: &str) -> Mem<()>
    ensures { Adds out.old out.new result
        (codes " " ++ spec.in_parentheses (spec.texts own.now (terms_of results.now))) }
{
    push(out, " ")?;
    write_params(alloc, out, results, false, own)
}

#[cycle(write)]
fn write_params(
    alloc: Global,
    out: &mut String,
    params: &[Term],
    variadic: bool,
    own: &str,
) -> Mem<()>
    ensures { Adds out.old out.new result
        (spec.in_parentheses (spec.param_texts own.now (terms_of params.now) variadic)) }
{
    push(out, "(")?;
    write_list(alloc, out, params, variadic, own)?;
    push(out, ")")
}

#[cycle(write)]
fn write_list(
    alloc: Global,
    out: &mut String,
    params: &[Term],
    variadic: bool,
    own: &str,
) -> Mem<()>
    ensures { Adds out.old out.new result
        (spec.joined (codes ", ") (spec.param_texts own.now (terms_of params.now) variadic)) }
{
    match params.split_last() {
        None => Ok(()),
        Some((last, front)) => {
            write_front(alloc, out, front, own)?;
            write_last(alloc, out, last, variadic, own)
        }
    }
}

/// Adds types, each before a comma.
#[cycle(write)]
fn write_front(alloc: Global, out: &mut String, front: &[Term], own: &str) -> Mem<()>
    ensures { Adds out.old out.new result (terms_front own.now front.now) }
{
    for term in front {
        write_before(alloc, out, term, ", ", own)?;
    }
    Ok(())
}

#[cycle(write)]
fn write_before(alloc: Global, out: &mut String, term: &Term, mark: &str, own: &str) -> Mem<()>
    ensures { Adds out.old out.new result (spec.term_text own.now term.now ++ mark.now) }
{
    write_term(alloc, out, term, own)?;
    push(out, mark)
}

/// Adds the last parameter.
#[cycle(write)]
fn write_last(alloc: Global, out: &mut String, term: &Term, variadic: bool, own: &str) -> Mem<()>
    ensures { Adds out.old out.new result
        (if variadic then spec.last_text term.now (spec.term_text own.now term.now)
        else spec.term_text own.now term.now) }
{
    if variadic {
        write_rest(alloc, out, term, own)
    } else {
        write_term(alloc, out, term, own)
    }
}

/// Adds the parameter that takes the rest of the arguments.
#[cycle(write)]
fn write_rest(alloc: Global, out: &mut String, term: &Term, own: &str) -> Mem<()>
    ensures { Adds out.old out.new result
        (spec.last_text term.now (spec.term_text own.now term.now)) }
{
    match &term.node {
        Node::Slice(element) => write_marked(alloc, out, "...", element, own),
        _ => write_marked(alloc, out, "...", term, own),
    }
}

#[cycle(write)]
fn write_fields(alloc: Global, out: &mut String, fields: &[FieldTerm], own: &str) -> Mem<()>
    ensures { Adds out.old out.new result
        (spec.joined (codes "; ") (spec.field_texts own.now (fields_of fields.now))) }
{
    match fields.split_last() {
        None => Ok(()),
        Some((last, front)) => {
            write_front_fields(alloc, out, front, own)?;
            write_field(alloc, out, last, "", own)
        }
    }
}

/// Adds fields, each before a semicolon.
#[cycle(write)]
fn write_front_fields(alloc: Global, out: &mut String, front: &[FieldTerm], own: &str) -> Mem<()>
    ensures { Adds out.old out.new result (fields_front own.now front.now) }
{
    for field in front {
        write_field(alloc, out, field, "; ", own)?;
    }
    Ok(())
}

/// Adds a field before a mark.
#[cycle(write)]
fn write_field(alloc: Global, out: &mut String, field: &FieldTerm, mark: &str, own: &str) -> Mem<()>
    ensures { Adds out.old out.new result (field_written own.now field.now ++ mark.now) }
{
    if !field.embedded {
        push(out, field.name.as_str())?;
        push(out, " ")?;
    }
    write_before(alloc, out, &field.term, mark, own)
}

#[cycle(write)]
fn write_methods(alloc: Global, out: &mut String, methods: &[Method], own: &str) -> Mem<()>
    ensures { Adds out.old out.new result
        (spec.joined (codes "; ") (spec.method_texts own.now (methods_of methods.now))) }
{
    match methods.split_last() {
        None => Ok(()),
        Some((last, front)) => {
            write_front_methods(alloc, out, front, own)?;
            write_method(alloc, out, last, "", own)
        }
    }
}

/// Adds methods, each before a semicolon.
#[cycle(write)]
fn write_front_methods(alloc: Global, out: &mut String, front: &[Method], own: &str) -> Mem<()>
    ensures { Adds out.old out.new result (methods_front own.now front.now) }
{
    for method in front {
        write_method(alloc, out, method, "; ", own)?;
    }
    Ok(())
}

/// Adds a method before a mark.
#[cycle(write)]
fn write_method(alloc: Global, out: &mut String, method: &Method, mark: &str, own: &str) -> Mem<()>
    ensures { Adds out.old out.new result (method_written own.now method.now ++ mark.now) }
{
    push(out, method.name.as_str())?;
    write_after_name(alloc, out, &method.term, own)?;
    push(out, mark)
}

/// Adds what stands after the name of a function or method of this type.
#[cycle(write)]
pub(crate) fn write_after_name(alloc: Global, out: &mut String, term: &Term, own: &str) -> Mem<()>
    ensures { Adds out.old out.new result
        (spec.after_name term.now (spec.term_text own.now term.now)) }
{
    match &term.node {
        Node::Func(params, results, variadic) => write_signature(
            alloc, out, params, results, *variadic, own,
        ),
        _ => write_marked(alloc, out, " ", term, own),
    }
}
