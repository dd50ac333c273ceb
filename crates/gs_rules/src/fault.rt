//! Faults: their codes and texts.

ghost use Rattle.std.specs.Prelude.{◌≡◌, IfOk, string_bytes};
ghost use Rattle.gs_rules.specs.Faults as spec;

use gs_base::{Mem, Text};
use gs_syntax::token::Span;
use std::alloc::{AllocError, Global};

/// A fault: its file, the bytes that it marks, its code (1 is `G01`) and what is said of it.
#[derive(Debug, Drop)]
pub struct Fault {
    pub file: Text,
    pub span: Span,
    pub code: u16,
    pub text: Text,
}

impl Fault {
    /// A fault of a file's form: a code of 1 to 5, and its place.
    pub fn of_form(alloc: Global, file: &str, fault: (u16, Span)) -> Mem<Fault>
        ensures { IfOk result (λ it. it ≡ spec.form_fault file.now fault) }
    {
        let (code, span) = fault;
        Ok(Fault {
            file: Text::new(alloc, file)?,
            span,
            code,
            text: Text::new(alloc, form_text(code))?,
        })
    }

    /// A name that nothing declares.
    pub fn undeclared_name(alloc: Global, file: &str, span: Span, name: &str) -> Mem<Fault>
        ensures { IfOk result (λ fault. fault ≡ spec.undeclared_name file.now span name.now) }
    {
        Ok(Fault {
            file: Text::new(alloc, file)?,
            span,
            code: 10,
            text: Text::from_string(undeclared_text(alloc, name)?),
        })
    }
}

/// What is said of a fault of a file's form.
fn form_text(code: u16) -> &'static str
    ensures { result.now ≡ spec.form_text code }
{
    match code {
        1 => "syntax error",
        2 => "bad token",
        3 => "file is not UTF-8",
        4 => "nesting above 200",
        5 => "file above 4194304 bytes",
        _ => "",
    }
}

/// What is said of a name that nothing declares.
fn undeclared_text(alloc: Global, name: &str) -> Result<String, AllocError>
    ensures { IfOk result (λ text. string_bytes text ≡ spec.undeclared_text name.now) }
{
    let mut text = String::from_str(alloc, "undeclared name: ")?;
    text.push_str(name)?;
    Ok(text)
}
