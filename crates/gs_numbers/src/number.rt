//! Numbers of any kind.
ghost use Rattle.std.specs.Prelude.{◌≡◌, ◌&&◌, ◌==◌, nat_lt, slice_index, IfSome, IfNone};
ghost use Rattle.gs_numbers.specs.Spelling.{IsLongestNumber, HasNoNumber};

use crate::digits::{byte_at, run_len};
use crate::float::float_len;
use crate::integer::{integer_len, integer_value};

/// A number literal. An integer has its value, where it is at most 2^127 - 1.
#[derive(Clone, Copy, Debug, PartialEq, Eq)]
pub enum Number {
    Integer(Option<i128>),
    Float,
    Imaginary,
}

/// Whether `i` stands behind the part of that length.
fn is_imaginary(rest: &[u8], part: usize) -> bool
    ensures { result ≡ (nat_lt 0 part && slice_index rest.now part == 105) }
{
    part > 0 && byte_at(rest, part) == b'i'
}

/// The longest number at the front of a text, and its length in bytes.
/// Go specification, "Integer literals", "Floating-point literals" and "Imaginary literals".
pub fn number_at(rest: &[u8]) -> Option<(Number, usize)>
    ensures found { IfSome result (λ r. IsLongestNumber rest.now r.0 r.1) }
    ensures none { IfNone result (HasNoNumber rest.now) }
{
    let integer = integer_len(rest);
    let float = float_len(rest);
    let longest = run_len(rest, 10).max(integer).max(float);
    if is_imaginary(rest, longest) {
        return Some((Number::Imaginary, longest + 1));
    }
    if float > integer {
        return Some((Number::Float, float));
    }
    if integer == 0 {
        return None;
    }
    let (front, _) = rest.split_at(integer);
    Some((Number::Integer(integer_value(front)), integer))
}
