//! Integers.
ghost use Rattle.std.specs.Prelude.{◌≡◌, ◌≤◌, length, slice_index, drop};
ghost use Rattle.gs_syntax.specs.Numbers as syntax;
ghost use Rattle.gs_syntax.specs.Numbers.{bounded};
ghost use Rattle.gs_numbers.specs.Reading as spec;

use crate::digits::{byte_at, digits_len, digits_value, run_len};

/// The base that a letter behind `0` stands for.
fn base_of(letter: u8) -> Option<u8>
    ensures { result ≡ syntax.base_of letter }
{
    match letter {
        b'b' | b'B' => Some(2),
        b'o' | b'O' => Some(8),
        b'x' | b'X' => Some(16),
        _ => None,
    }
}

/// The length of `0`, a letter and digits of its base, where the text begins with `0`; 0 where there are none.
fn lettered_len(rest: &[u8]) -> usize
    ensures size { result ≡ spec.lettered_size (syntax.base_of (slice_index rest.now 1)) (drop 2 rest.now) }
    ensures within { result ≤ length rest.now }
{
    let Some(base) = base_of(byte_at(rest, 1)) else {
        return 0;
    };
    let (_, after) = rest.split_at(2);
    let digits = digits_len(after, base);
    if digits == 0 { 0 } else { 2 + digits }
}

/// The length of the longest integer at the front, or 0.
#[tactic(auto, unfolding(crate::specs::Reading::integer_size))]
pub fn integer_len(rest: &[u8]) -> usize
    ensures size { result ≡ spec.integer_size rest.now }
    ensures within { result ≤ length rest.now }
{
    if byte_at(rest, 0) != b'0' {
        return run_len(rest, 10);
    }
    let (_, after) = rest.split_at(1);
    let octal = 1 + digits_len(after, 8);
    octal.max(lettered_len(rest))
}

/// The value of an integer, if an `i128` has it.
pub fn integer_value(integer: &[u8]) -> Option<i128>
    ensures { result ≡ bounded (spec.integer_value integer.now) }
{
    if byte_at(integer, 0) != b'0' {
        return digits_value(integer, 10);
    }
    match base_of(byte_at(integer, 1)) {
        None => digits_value(integer, 8),
        Some(base) => {
            let (_, digits) = integer.split_at(2);
            digits_value(digits, base)
        }
    }
}
