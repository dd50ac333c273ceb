//! What is answered to an input.

ghost use Rattle.std.specs.Prelude.{◌≡◌, ◌≢◌, ◌≤◌, [], length, IfOk};
ghost use Rattle.gs_syntax.specs.Tokens.{AreTokens};
ghost use Rattle.gs_chunks.specs.Files.{HasFaults};
ghost use Rattle.goserve.specs.Answers.{AreFaults, HasAnswered, IsReport, IsWellFormed};
ghost use Rattle.goserve.specs.FirstForm.{IsPlainText};
ghost use Rattle.goserve.specs.Moves.{most_input};

use crate::file::{declarations_of, form_faults, right_faults};
use crate::form::{have_form, names_of, plain_text};
use crate::line::output;
use gs_base::Mem;
use gs_chunks::faults::faults;
use gs_chunks::laws::few_tokens;
use gs_rules::fault::Fault;
use gs_scan::chunk::chunks;
use gs_scan::scan::scan;
use gs_syntax::laws::one_list;
use gs_syntax::token::{Span, Token};
use std::alloc::Global;

/// The name under which the standard input is checked.
const FILE: &str = "stdin.go";

/// The bytes that are written for an input, and whether it has no fault.
#[derive(Drop)]
pub struct Report {
    pub output: Vec<u8>,
    pub clean: bool,
}

/// What is written for an input with these faults.
fn make_report(alloc: Global, input: &[u8], faults: &[Fault]) -> Mem<Report>
    requires size { length input.now ≤ most_input }
    requires faults { AreFaults input.now faults.now }
    ensures { IfOk result (IsReport input.now) }
{
    let output = output(alloc, input, faults)?;
    Ok(Report {
        output,
        clean: faults.is_empty(),
    })
}

/// What is written for an input whose form has faults.
fn report_form(alloc: Global, input: &[u8], found: &[(u16, Span)]) -> Mem<Report>
    requires size { length input.now ≤ most_input }
    requires found { HasFaults input.now found.now }
    requires faulty { found.now ≢ [] }
    ensures { IfOk result (IsReport input.now) }
{
    let faults = form_faults(alloc, FILE, found)?;
    make_report(alloc, input, faults.as_slice())
}

/// What a well-formed input with these tokens is answered.
fn answer_tokens(alloc: Global, input: &[u8], tokens: &[Token]) -> Mem<Option<Report>>
    requires size { length input.now ≤ most_input }
    requires form { IsWellFormed input.now }
    requires text { IsPlainText input.now }
    requires scanned { AreTokens input.now tokens.now }
    ensures { IfOk result (HasAnswered input.now) }
{
    few_tokens();
    one_list();
    if !have_form(input, tokens) {
        return Ok(None);
    }
    let places = chunks(alloc, tokens)?;
    let declarations = declarations_of(alloc, tokens, places.as_slice())?;
    match names_of(alloc, declarations.as_slice())? {
        None => Ok(None),
        Some(names) => {
            let faults = right_faults(alloc, FILE, &names, declarations.as_slice())?;
            Ok(Some(make_report(alloc, input, faults.as_slice())?))
        }
    }
}

/// What a well-formed input is answered.
fn answer_text(alloc: Global, input: &[u8]) -> Mem<Option<Report>>
    requires size { length input.now ≤ most_input }
    requires form { IsWellFormed input.now }
    ensures { IfOk result (HasAnswered input.now) }
{
    match plain_text(input) {
        None => Ok(None),
        Some(text) => {
            let tokens = scan(alloc, text)?;
            answer_tokens(alloc, input, tokens.as_slice())
        }
    }
}

/// What an input is answered. None: it has no fault of its form, and is not in the first form.
pub fn answer(alloc: Global, input: &[u8]) -> Mem<Option<Report>>
    requires { length input.now ≤ most_input }
    ensures { IfOk result (HasAnswered input.now) }
{
    let list = faults(alloc, input)?;
    let found = list.as_slice();
    if found.is_empty() {
        answer_text(alloc, input)
    } else {
        Ok(Some(report_form(alloc, input, found)?))
    }
}
