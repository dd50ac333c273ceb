//! What a file says.
ghost use Rattle.std.specs.Prelude.{◌≡◌, ◌<◌, ◌≤◌, ◌^◌, [], length, map, IfOk, OnOk, Some, None, if◌then◌else◌};
ghost use Rattle.std.specs.Option.{is_some, option_map};
ghost use Rattle.std.specs.Str.Lines.{lines as lines_are};
ghost use Rattle.gs_gomod.specs.Files.{HasRead};
ghost use Rattle.gs_gomod.specs.Steps.{HasReadLine, HasReadText, Finds, Concludes};
ghost use Rattle.gs_gomod.specs.Forms as spec;
ghost use Rattle.gs_gomod.specs.Shown.{seen, seen_form};

use crate::form::{Form, block_behind, form_of};
use crate::word::{Word, words};
use gs_base::{Mem, NoMemory, Text};
use sqlite_items::Items;
use std::alloc::{AllocError, Global};
use std::collections::BTreeMap;

/// What a go.mod says: the path of its module, and for each replaced module its path and the path that stands in its
/// place, in byte order of the replaced paths.
#[derive(Debug, Drop)]
pub struct Mod {
    pub module: Text,
    pub replaced: Items<(Text, Text)>,
}

/// Why a go.mod says nothing: the number of its first bad line, counted from 1, or want of memory.
#[derive(Clone, Copy, Debug, PartialEq, Eq)]
pub enum ModFault {
    Line(u32),
    NoMemory,
}

impl From<NoMemory> for ModFault {
    ghost use Rattle.gs_gomod.specs.declared.read.ModFault.{ModFault};

    ghost from_gives = { λ _ e. e ≡ ModFault.NoMemory };

    fn from(_: NoMemory) -> ModFault {
        ModFault::NoMemory
    }
}

impl From<AllocError> for ModFault {
    ghost use Rattle.gs_gomod.specs.declared.read.ModFault.{ModFault};

    ghost from_gives = { λ _ e. e ≡ ModFault.NoMemory };

    fn from(_: AllocError) -> ModFault {
        ModFault::NoMemory
    }
}

/// The path of the first module, where a line says this.
fn next_path<'a>(path: Option<&'a str>, form: Form<'a>) -> Option<&'a str>
    ensures { option_map (λ x. x.now) result ≡ spec.or_else (option_map (λ x. x.now) path.entry) (spec.module_in (seen_form form.entry)) }
{
    match path {
        Some(path) => Some(path),
        None => match form {
            Form::Module(path) => Some(path),
            _ => None,
        },
    }
}

/// Whether a line is wrong, where a module stands before it or not.
fn is_wrong(named: bool, form: Form<'_>) -> bool
    ensures { result ≡ spec.is_wrong named (seen_form form.entry) }
{
    match form {
        Form::Bad => true,
        Form::Module(_) => named,
        _ => false,
    }
}

/// The number of the first wrong line, where the line of this number may be wrong.
fn next_wrong(wrong: Option<u32>, number: u32, is_wrong: bool) -> Option<u32>
    ensures { result ≡ spec.or_else wrong (if is_wrong then Some number else None) }
{
    match wrong {
        Some(line) => Some(line),
        None => { if is_wrong { Some(number) } else { None } }
    }
}

/// Puts what a line replaces in the place of an earlier replacement of its path.
fn put(alloc: Global, replaced: &mut BTreeMap<Text, Text>, form: Form<'_>) -> Mem<()>
    ensures { OnOk result (replaced.new.entries ≡ spec.put replaced.old.entries (seen_form form.entry)) }
{
    if let Form::Replace(path, target) = form {
        let path = Text::new(alloc, path)?;
        let target = Text::new(alloc, target)?;
        replaced.insert(path, target)?;
    }
    Ok(())
}

/// What lines say one behind the other: the path of the first module, the number of the first wrong line, the block
/// that is open behind them, and the replacements.
#[derive(Drop)]
struct Found<'a> {
    path: Option<&'a str>,
    wrong: Option<u32>,
    block: Option<Word<'a>>,
    replaced: BTreeMap<Text, Text>,
}

/// What one line more says, which has this number.
fn read_line<'a>(alloc: Global, found: &mut Found<'a>, number: u32, line: &'a str) -> Mem<()>
    ensures { OnOk result (HasReadLine found.old found.new number line.now) }
{
    let words = words(alloc, line)?;
    let form = form_of(found.block, words.as_slice());
    put(alloc, &mut found.replaced, form)?;
    found.wrong = next_wrong(found.wrong, number, is_wrong(found.path.is_some(), form));
    found.path = next_path(found.path, form);
    found.block = block_behind(found.block, form);
    Ok(())
}

/// What lines say.
fn read_lines<'a>(alloc: Global, lines: &[&'a str]) -> Mem<Found<'a>>
    requires { length lines.now < 2 ^ 32 }
    ensures { IfOk result (Finds (map (λ x. x.now) lines.now)) }
{
    let mut found = Found {
        path: None,
        wrong: None,
        block: None,
        replaced: BTreeMap::new(alloc),
    };
    let mut number = 0u32;
    for line in lines {
        number += 1;
        read_line(alloc, &mut found, number, line)?;
    }
    Ok(found)
}

/// The lines of a text.
fn lines_of<'a>(alloc: Global, text: &'a str) -> Result<Vec<&'a str>, AllocError>
    ensures lines { IfOk result (λ v. map (λ x. x.now) v.items ≡ lines_are text.now) }
    ensures few { IfOk result (λ v. length v.items ≤ length text.now) }
{
    text.lines().collect(alloc)
}

/// The replacements, as a list.
fn list_of(alloc: Global, replaced: BTreeMap<Text, Text>) -> Result<Vec<(Text, Text)>, AllocError>
    ensures { IfOk result (λ v. v.items ≡ replaced.entries) }
{
    replaced.into_iter().collect(alloc)
}

/// What a go.mod says, from what its lines say.
fn conclude(alloc: Global, found: Found<'_>, last: u32) -> Result<Mod, ModFault>
    ensures { Concludes found.entry last result }
{
    let Found {
        path,
        wrong,
        block,
        replaced,
    } = found;
    let Some(path) = path else {
        return Err(ModFault::Line(1));
    };
    if let Some(line) = wrong {
        return Err(ModFault::Line(line));
    }
    if block.is_some() {
        return Err(ModFault::Line(last));
    }
    let module = Text::new(alloc, path)?;
    let replaced = Items::from_vec(list_of(alloc, replaced)?);
    Ok(Mod { module, replaced })
}

/// What the text of a go.mod says.
fn read_text(alloc: Global, text: &str) -> Result<Mod, ModFault>
    requires { length text.now < 2 ^ 32 }
    ensures { HasReadText text.now result }
{
    let lines = lines_of(alloc, text)?;
    let lines = lines.as_slice();
    let found = read_lines(alloc, lines)?;
    conclude(alloc, found, lines.len() as u32)
}

/// What a go.mod of fewer than 2^32 bytes says (go.mod reference).
pub fn read_mod(alloc: Global, bytes: &[u8]) -> Result<Mod, ModFault>
    requires { length bytes.now < 2 ^ 32 }
    ensures { HasRead bytes.now result }
{
    match str::from_utf8(bytes) {
        Err(_) => Err(ModFault::Line(1)),
        Ok(text) => read_text(alloc, text),
    }
}
