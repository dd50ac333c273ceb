//! The names that declarations declare.

ghost use Rattle.std.specs.Prelude.{◌≡◌, OnOk};
ghost use Rattle.std.specs.Option.{is_some};
ghost use Rattle.goserve.specs.FirstForm as spec;
ghost use Rattle.goserve.specs.Seen.{found, with_name};

use std::alloc::AllocError;
use std::collections::BTreeMap;

/// What each name is declared as: whether as a constant.
pub type Names<'a> = BTreeMap<&'a str, bool>;

/// Notes what a name is declared as.
pub fn note<'a>(names: &mut Names<'a>, name: &'a str, constant: bool) -> Result<(), AllocError>
    ensures { OnOk result (found names.new ≡ with_name (found names.old) name.entry.now constant) }
{
    names.insert(name, constant)?;
    Ok(())
}

/// Whether a name is declared.
pub fn is_declared(names: &Names<'_>, name: &str) -> bool
    ensures { result ≡ is_some (found names.now name.now) }
{
    names.contains_key(name)
}

/// Whether a name is declared as a variable.
pub fn is_variable(names: &Names<'_>, name: &str) -> bool
    ensures { result ≡ spec.is_variable (found names.now name.now) }
{
    match names.get(name) {
        None => false,
        Some(constant) => !*constant,
    }
}
