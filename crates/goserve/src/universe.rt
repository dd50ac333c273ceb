//! The names that have a meaning of their own.

ghost use Rattle.std.specs.Prelude.{◌≡◌};
ghost use Rattle.gs_rules.specs.Universe as universe;
ghost use Rattle.gs_rules.specs.Universe.{is_one_of};
ghost use Rattle.goserve.specs.FirstForm as spec;

fn is_type(name: &[u8]) -> bool
    ensures { result ≡ is_one_of universe.types name.now }
{
    name == b"bool".as_slice()
        || name == b"byte".as_slice()
        || name == b"complex64".as_slice()
        || name == b"complex128".as_slice()
        || name == b"error".as_slice()
        || name == b"float32".as_slice()
        || name == b"float64".as_slice()
        || name == b"int".as_slice()
        || name == b"int8".as_slice()
        || name == b"int16".as_slice()
        || name == b"int32".as_slice()
        || name == b"int64".as_slice()
        || name == b"rune".as_slice()
        || name == b"string".as_slice()
        || name == b"uint".as_slice()
        || name == b"uint8".as_slice()
        || name == b"uint16".as_slice()
        || name == b"uint32".as_slice()
        || name == b"uint64".as_slice()
        || name == b"uintptr".as_slice()
}

fn is_constant(name: &[u8]) -> bool
    ensures { result ≡ is_one_of universe.constants name.now }
{
    name == b"true".as_slice()
        || name == b"false".as_slice()
        || name == b"iota".as_slice()
        || name == b"nil".as_slice()
}

fn is_function(name: &[u8]) -> bool
    ensures { result ≡ is_one_of universe.functions name.now }
{
    name == b"append".as_slice()
        || name == b"cap".as_slice()
        || name == b"close".as_slice()
        || name == b"complex".as_slice()
        || name == b"copy".as_slice()
        || name == b"delete".as_slice()
        || name == b"imag".as_slice()
        || name == b"len".as_slice()
        || name == b"make".as_slice()
        || name == b"new".as_slice()
        || name == b"panic".as_slice()
        || name == b"print".as_slice()
        || name == b"println".as_slice()
        || name == b"real".as_slice()
        || name == b"recover".as_slice()
}

/// Whether a name is one of the universe block (Go specification, "Predeclared identifiers").
fn is_universe(name: &[u8]) -> bool
    ensures { result ≡ universe.is_universe name.now }
{
    is_type(name) || (is_constant(name) || is_function(name))
}

/// Whether a name is `_` or one of the universe.
pub fn is_reserved(name: &[u8]) -> bool
    ensures { result ≡ spec.is_reserved name.now }
{
    name == b"_".as_slice() || is_universe(name)
}

/// Whether no declaration of the first form has this name.
pub fn is_kept(name: &[u8]) -> bool
    ensures { result ≡ spec.is_kept name.now }
{
    name == b"init".as_slice() || (name == b"main".as_slice() || is_reserved(name))
}
