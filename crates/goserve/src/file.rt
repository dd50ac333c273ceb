//! What a file declares, and its faults.

ghost use Rattle.std.specs.Prelude.{◌≡◌, ◌++◌, [], ◌∷◌, map, IfOk, OnOk};
ghost use Rattle.gs_syntax.specs.Chunks.{chunks_of};
ghost use Rattle.std.specs.Option.{option_to_list};
ghost use Rattle.gs_rules.specs.Trees.{declaration_of as declaration_is};
ghost use Rattle.gs_rules.specs.Files.{parts_of, part_of, lookup_of, declarations_in, declarations_of as declarations_are};
ghost use Rattle.gs_rules.specs.Faults as spec;
ghost use Rattle.goserve.specs.Seen.{found, seen, seen_right, HasNames};

use crate::chunk::{Declaration, Right, declaration_of};
use crate::names::{Names, is_declared};
use crate::part::part;
use gs_base::Mem;
use gs_rules::fault::Fault;
use gs_syntax::token::{Span, Token};
use std::alloc::{AllocError, Global};

/// The tokens of a chunk.
fn part_at(tokens: &[Token], place: (u32, u32)) -> &[Token]
    ensures { result.now ≡ part_of tokens.now place }
{
    part(tokens, place.0 as usize, place.1 as usize)
}

/// Adds what a chunk declares.
fn put_declaration<'a>(
    declarations: &mut Vec<Declaration<'a>>,
    chunk: &'a [Token],
) -> Result<(), AllocError>
    ensures { OnOk result (map seen declarations.new.items ≡ map seen declarations.old.items ++ option_to_list (declaration_is chunk.entry.now)) }
{
    if let Some(declaration) = declaration_of(chunk) {
        declarations.push(declaration)?;
    }
    Ok(())
}

/// Adds what chunks declare.
fn put_declarations<'a>(
    declarations: &mut Vec<Declaration<'a>>,
    tokens: &'a [Token],
    places: &[(u32, u32)],
) -> Result<(), AllocError>
    ensures { OnOk result (map seen declarations.new.items ≡ map seen declarations.old.items ++ declarations_in (parts_of tokens.entry.now places.now)) }
{
    for place in places {
        put_declaration(declarations, part_at(tokens, *place))?;
    }
    Ok(())
}

/// What the chunks of a file declare.
#[tactic(auto, unfolding(gs_rules::specs::Files::declarations_of))]
pub fn declarations_of<'a>(
    alloc: Global,
    tokens: &'a [Token],
    places: &[(u32, u32)],
) -> Result<Vec<Declaration<'a>>, AllocError>
    requires { places.now ≡ chunks_of tokens.now }
    ensures { IfOk result (λ v. map seen v.items ≡ declarations_are tokens.entry.now) }
{
    let mut declarations = Vec::new(alloc);
    if let Some((_, later)) = places.split_first() {
        put_declarations(&mut declarations, tokens, later)?;
    }
    Ok(declarations)
}

/// Adds a fault.
fn put(faults: &mut Vec<Fault>, fault: Fault) -> Result<(), AllocError>
    ensures { OnOk result (faults.new.items ≡ faults.old.items ++ fault ∷ []) }
{
    faults.push(fault)?;
    Ok(())
}

/// The faults of a file's form, as they are told.
pub fn form_faults(alloc: Global, file: &str, faults: &[(u16, Span)]) -> Mem<Vec<Fault>>
    ensures { IfOk result (λ v. v.items ≡ spec.form_faults file.now faults.now) }
{
    let mut told = Vec::new(alloc);
    for fault in faults {
        put(&mut told, Fault::of_form(alloc, file, *fault)?)?;
    }
    Ok(told)
}

/// Adds the fault of a right side that nothing declares.
fn put_right_fault(
    alloc: Global,
    faults: &mut Vec<Fault>,
    file: &str,
    names: &Names<'_>,
    right: Right<'_>,
) -> Mem<()>
    ensures { OnOk result (faults.new.items ≡ faults.old.items ++ spec.right_fault file.now (found names.now) (seen_right right.entry)) }
{
    match right {
        Right::Name(name, span) => {
            if !is_declared(names, name) {
                put(faults, Fault::undeclared_name(alloc, file, span, name)?)?;
            }
            Ok(())
        }
        Right::Number => Ok(()),
    }
}

/// Adds the faults of the right sides.
fn put_right_faults(
    alloc: Global,
    faults: &mut Vec<Fault>,
    file: &str,
    names: &Names<'_>,
    declarations: &[Declaration<'_>],
) -> Mem<()>
    ensures { OnOk result (faults.new.items ≡ faults.old.items ++ spec.right_faults file.now (found names.now) (map seen declarations.now)) }
{
    for declaration in declarations {
        put_right_fault(alloc, faults, file, names, declaration.right)?;
    }
    Ok(())
}

/// The faults of the right sides of declarations with these names.
pub fn right_faults(
    alloc: Global,
    file: &str,
    names: &Names<'_>,
    declarations: &[Declaration<'_>],
) -> Mem<Vec<Fault>>
    requires { HasNames names.now (map seen declarations.now) }
    ensures { IfOk result (λ v. v.items ≡ spec.right_faults file.now (lookup_of (map seen declarations.now)) (map seen declarations.now)) }
{
    let mut faults = Vec::new(alloc);
    put_right_faults(alloc, &mut faults, file, names, declarations)?;
    Ok(faults)
}
