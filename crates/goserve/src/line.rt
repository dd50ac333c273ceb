//! What is written of a check.

ghost use Rattle.std.specs.Prelude.{◌≡◌, ◌≤◌, ◌<◌, ◌+◌, ◌^◌, ◌++◌, length, OnOk, IfOk};
ghost use Rattle.gs_rules.specs.Lines as spec;
ghost use Rattle.goserve.specs.Moves.{most_input};

use crate::part::part;
use gs_rules::fault::Fault;
use gs_rules::place::Place;
use std::alloc::{AllocError, Global};

/// The place behind some bytes, from the place of the first on.
fn place_behind(start: Place, bytes: &[u8]) -> Place
    requires line { start.line + length bytes.now < 2 ^ 63 }
    requires column { start.column + length bytes.now < 2 ^ 63 }
    ensures { result ≡ spec.place_behind start bytes.now }
{
    let mut place = start;
    for b in bytes {
        if *b == 10 {
            place.line += 1;
            place.column = 1;
        } else {
            place.column += 1;
        }
    }
    place
}

/// The place of an offset, from the place of another one. It is carried on from there, or begins at the front again where
/// the other lies behind it.
fn place_at(input: &[u8], from: usize, place: Place, at: usize) -> Place
    requires size { length input.now ≤ most_input }
    requires place { place ≡ spec.place_of input.now from }
    ensures { result ≡ spec.place_of input.now at }
{
    if at < from {
        place_behind(FRONT, part(input, 0, at))
    } else {
        place_behind(place, part(input, from, at))
    }
}

/// Appends a number in decimal.
fn put_number(out: &mut Vec<u8>, alloc: Global, number: usize) -> Result<(), AllocError>
    ensures { OnOk result (out.new.items ≡ out.old.items ++ spec.decimal number) }
{
    let digits = number.to_string(alloc)?;
    out.extend_from_slice(digits.as_bytes())?;
    Ok(())
}

/// Appends a fault's code.
fn put_code(out: &mut Vec<u8>, alloc: Global, code: u16) -> Result<(), AllocError>
    ensures { OnOk result (out.new.items ≡ out.old.items ++ spec.code_text code) }
{
    if code < 10 {
        out.extend_from_slice(b"G0")?;
    } else {
        out.extend_from_slice(b"G")?;
    }
    put_number(out, alloc, code as usize)
}

/// Appends a file, a line and a column.
#[tactic(auto, unfolding(gs_rules::specs::Lines::place_text))]
fn put_place(out: &mut Vec<u8>, alloc: Global, file: &[u8], place: Place) -> Result<(), AllocError>
    ensures { OnOk result (out.new.items ≡ out.old.items ++ spec.place_text file.now place) }
{
    out.extend_from_slice(file)?;
    out.extend_from_slice(b":")?;
    put_number(out, alloc, place.line)?;
    out.extend_from_slice(b":")?;
    put_number(out, alloc, place.column)
}

/// Appends the line of a fault.
#[tactic(auto, unfolding(gs_rules::specs::Lines::fault_line))]
fn put_fault(
    out: &mut Vec<u8>,
    alloc: Global,
    place: Place,
    fault: &Fault,
) -> Result<(), AllocError>
    ensures { OnOk result (out.new.items ≡ out.old.items ++ spec.fault_line place fault.now) }
{
    put_place(out, alloc, fault.file.as_bytes(), place)?;
    out.extend_from_slice(b": ")?;
    put_code(out, alloc, fault.code)?;
    out.extend_from_slice(b" ")?;
    out.extend_from_slice(fault.text.as_bytes())?;
    out.extend_from_slice(b"\n")?;
    Ok(())
}

/// Appends the lines of the faults.
fn put_faults(
    out: &mut Vec<u8>,
    alloc: Global,
    input: &[u8],
    faults: &[Fault],
) -> Result<(), AllocError>
    requires { length input.now ≤ most_input }
    ensures { OnOk result (out.new.items ≡ out.old.items ++ spec.lines_of input.now faults.now) }
{
    let mut offset = 0usize;
    let mut place = FRONT;
    for fault in faults {
        let at = fault.span.offset as usize;
        place = place_at(input, offset, place, at);
        offset = at;
        put_fault(out, alloc, place, fault)?;
    }
    Ok(())
}

/// Appends the line of the counts: packages of the graph, packages that were typed, packages that were loaded, faults.
#[tactic(auto, unfolding(gs_rules::specs::Lines::counts_line))]
fn put_counts(
    out: &mut Vec<u8>,
    alloc: Global,
    packages: usize,
    checked: usize,
    loaded: usize,
    faults: usize,
) -> Result<(), AllocError>
    ensures { OnOk result (out.new.items ≡ out.old.items ++ spec.counts_line packages checked loaded faults) }
{
    out.extend_from_slice(b"packages ")?;
    put_number(out, alloc, packages)?;
    out.extend_from_slice(b" checked ")?;
    put_number(out, alloc, checked)?;
    out.extend_from_slice(b" loaded ")?;
    put_number(out, alloc, loaded)?;
    out.extend_from_slice(b" faults ")?;
    put_number(out, alloc, faults)?;
    out.extend_from_slice(b"\n")?;
    Ok(())
}

/// What is written for one file with these faults.
#[tactic(auto, unfolding(gs_rules::specs::Lines::output_of))]
pub fn output(alloc: Global, input: &[u8], faults: &[Fault]) -> Result<Vec<u8>, AllocError>
    requires { length input.now ≤ most_input }
    ensures { IfOk result (λ v. v.items ≡ spec.output_of input.now faults.now) }
{
    let mut out = Vec::new(alloc);
    put_faults(&mut out, alloc, input, faults)?;
    put_counts(&mut out, alloc, 1, 1, 0, faults.len())?;
    Ok(out)
}

/// The place of the first byte.
const FRONT: Place = Place { line: 1, column: 1 };
