//! The first form: the files that are checked so far.

ghost use Rattle.std.specs.Prelude.{◌≡◌, ◌<◌, ◌↔◌, ◌&&◌, IsTrue, Some, length, map, slice_get, false, MatchOption, OnOk, IfOk};
ghost use Rattle.std.specs.List.{list_all};
ghost use Rattle.goserve.specs.Seen.{found, seen, seen_right, with_name};
ghost use Rattle.goserve.specs.FirstForm as spec;
ghost use Rattle.goserve.specs.FirstForm.{IsPlainText};
ghost use Rattle.goserve.specs.Simple.{HasCollected, HasNamed, is_next, is_simple as is_simple_by};

use crate::chunk::{Declaration, Right};
use crate::names::{Names, is_declared, is_variable, note};
use crate::token::{is_name, is_plain};
use crate::universe::{is_kept, is_reserved};
use gs_syntax::token::Token;
use std::alloc::{AllocError, Global};
use std::collections::BTreeMap;

/// Whether an input has ASCII alone and no `/`.
fn is_plain_text(input: &[u8]) -> bool
    ensures { IsTrue result ↔ IsPlainText input.now }
{
    input.is_ascii() && !input.contains(&b'/')
}

/// The text of an input, if it has ASCII alone and no `/`.
pub fn plain_text(input: &[u8]) -> Option<&str>
    ensures { MatchOption result (IsPlainText input.entry.now → ⊥) (λ text. IsPlainText input.entry.now × (text.now ≡ input.entry.now)) }
{
    if !is_plain_text(input) {
        return None;
    }
    match std::str::from_utf8(input) {
        Ok(text) => Some(text),
        Err(_) => unreachable!(),
    }
}

/// Whether each token is one of the first form.
fn are_plain(input: &[u8], tokens: &[Token]) -> bool
    ensures { result ≡ list_all (spec.is_plain input.now) tokens.now }
{
    for token in tokens {
        if !is_plain(input, token) {
            return false;
        }
    }
    true
}

/// Whether no two names stand directly one after the other.
fn are_apart(tokens: &[Token]) -> bool
    ensures { result ≡ spec.are_apart false tokens.now }
{
    let mut named = false;
    for token in tokens {
        let name = is_name(&token.kind);
        if named && name {
            return false;
        }
        named = name;
    }
    true
}

/// Whether the tokens of an input are those of the first form.
pub fn have_form(input: &[u8], tokens: &[Token]) -> bool
    ensures { result ≡ (list_all (spec.is_plain input.now) tokens.now && spec.are_apart false tokens.now) }
{
    are_plain(input, tokens) && are_apart(tokens)
}

/// Whether a right side is the name of one of the declarations.
fn is_named_by(names: &Names<'_>, right: Right<'_>) -> bool
    ensures { result ≡ spec.is_named_in (found names.now) (seen_right right.entry) }
{
    match right {
        Right::Name(name, _) => is_declared(names, name),
        Right::Number => false,
    }
}

/// Whether a right side is a variable's name.
fn is_variable_of(names: &Names<'_>, right: Right<'_>) -> bool
    ensures { result ≡ spec.is_variable_of (found names.now) (seen_right right.entry) }
{
    match right {
        Right::Name(name, _) => is_variable(names, name),
        Right::Number => false,
    }
}

/// Whether a right side is none of the reserved names.
fn is_free(right: Right<'_>) -> bool
    ensures { result ≡ spec.is_free (seen_right right.entry) }
{
    match right {
        Right::Name(name, _) => !is_reserved(name.as_bytes()),
        Right::Number => true,
    }
}

/// Adds the name of a declaration before the others, and says whether no other has it and its right side is neither it nor
/// the name of another.
fn add<'a>(names: &mut Names<'a>, declaration: Declaration<'a>) -> Result<bool, AllocError>
    ensures names { OnOk result (found names.new ≡ with_name (found names.old) declaration.entry.name.now declaration.entry.constant) }
    ensures next { IfOk result (λ next. next ≡ is_next (found names.old) (seen declaration.entry)) }
{
    let twice = is_declared(names, declaration.name);
    note(names, declaration.name, declaration.constant)?;
    let early = is_named_by(names, declaration.right);
    Ok(!twice && !early)
}

fn item_at<'a>(declarations: &[Declaration<'a>], at: usize) -> Declaration<'a>
    requires { at < length declarations.now }
    ensures { slice_get declarations.now at ≡ Some result }
{
    declarations[at]
}

/// The names of declarations, and whether none is declared twice and no right side is the name of the same declaration
/// or of a later one.
fn collect<'a>(
    alloc: Global,
    declarations: &[Declaration<'a>],
) -> Result<(Names<'a>, bool), AllocError>
    ensures { IfOk result (HasCollected (map seen declarations.now)) }
{
    let mut names = BTreeMap::new(alloc);
    let mut in_order = true;
    let mut at = declarations.len();
    while at > 0 {
        at -= 1;
        let next = add(&mut names, item_at(declarations, at))?;
        in_order = next && in_order;
    }
    Ok((names, in_order))
}

/// Whether the name and the right side of a declaration are those of the first form.
fn is_simple(names: &Names<'_>, declaration: Declaration<'_>) -> bool
    ensures { result ≡ is_simple_by (found names.now) (seen declaration.entry) }
{
    !is_kept(declaration.name.as_bytes())
        && (is_free(declaration.right)
            && !(declaration.constant && is_variable_of(names, declaration.right)))
}

/// Whether those of all are.
fn are_simple(names: &Names<'_>, declarations: &[Declaration<'_>]) -> bool
    ensures { result ≡ list_all (is_simple_by (found names.now)) (map seen declarations.now) }
{
    for declaration in declarations {
        if !is_simple(names, *declaration) {
            return false;
        }
    }
    true
}

/// The names of declarations, if these are declarations of the first form.
pub fn names_of<'a>(
    alloc: Global,
    declarations: &[Declaration<'a>],
) -> Result<Option<Names<'a>>, AllocError>
    ensures { IfOk result (HasNamed (map seen declarations.now)) }
{
    let (names, in_order) = collect(alloc, declarations)?;
    if in_order && are_simple(&names, declarations) {
        Ok(Some(names))
    } else {
        Ok(None)
    }
}
