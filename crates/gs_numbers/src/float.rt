//! Floats.
ghost use Rattle.std.specs.Prelude.{◌≡◌, ◌≤◌, ◌<◌, ◌+◌, ◌^◌, ◌||◌, nat_lt, length};
ghost use Rattle.gs_syntax.specs.Floats as syntax;
ghost use Rattle.gs_numbers.specs.Reading as spec;

use crate::digits::{byte_at, digits_len, run_len};

/// Whether a letter begins the exponent of a number in this base: `e`, or `p` in base 16.
fn marks_exponent(letter: u8, base: u8) -> bool
    ensures { result ≡ syntax.marks_exponent base letter }
{
    if base == 16 {
        letter == b'p' || letter == b'P'
    } else {
        letter == b'e' || letter == b'E'
    }
}

/// The length of the sign at the front, or 0.
fn sign_len(rest: &[u8]) -> usize
    ensures size { result ≡ spec.sign_size rest.now }
    ensures within { result ≤ length rest.now }
{
    let sign = byte_at(rest, 0);
    if sign == b'+' || sign == b'-' { 1 } else { 0 }
}

/// The length of the exponent at the front, or 0.
#[tactic(auto, unfolding(crate::specs::Reading::exponent_size))]
fn exponent_len(rest: &[u8], base: u8) -> usize
    ensures size { result ≡ spec.exponent_size base rest.now }
    ensures within { result ≤ length rest.now }
{
    if !marks_exponent(byte_at(rest, 0), base) {
        return 0;
    }
    let (_, after) = rest.split_at(1);
    let before = 1 + sign_len(after);
    let (_, after) = rest.split_at(before);
    let digits = run_len(after, 10);
    if digits == 0 { 0 } else { before + digits }
}

/// The length of the point at the front and the digits behind it, or 0.
#[tactic(auto, unfolding(crate::specs::Reading::fraction_size))]
fn fraction_len(rest: &[u8], base: u8) -> usize
    ensures size { result ≡ spec.fraction_size base rest.now }
    ensures within { result ≤ length rest.now }
{
    if byte_at(rest, 0) != b'.' {
        return 0;
    }
    let (_, after) = rest.split_at(1);
    1 + run_len(after, base)
}

/// The lengths of the digits, the fraction and the exponent at the front.
#[derive(Clone, Copy)]
struct Parts {
    whole: usize,
    fraction: usize,
    exponent: usize,
}

#[tactic(auto, unfolding(crate::specs::Reading::fraction_behind, crate::specs::Reading::exponent_behind))]
fn parts_at(rest: &[u8], base: u8) -> Parts
    ensures whole { result.whole ≡ spec.digits_size base rest.now }
    ensures fraction { result.fraction ≡ spec.fraction_behind base rest.now }
    ensures exponent { result.exponent ≡ spec.exponent_behind base rest.now }
    ensures within { result.whole + result.fraction + result.exponent ≤ length rest.now }
{
    let whole = digits_len(rest, base);
    let (_, after) = rest.split_at(whole);
    let fraction = fraction_len(after, base);
    let (_, after) = rest.split_at(whole + fraction);
    let exponent = exponent_len(after, base);
    Parts {
        whole,
        fraction,
        exponent,
    }
}

impl Parts {
    /// Whether a digit stands before the point or behind it.
    fn has_digit(&self) -> bool
        ensures { result ≡ (nat_lt 0 self.now.whole || nat_lt 1 self.now.fraction) }
    {
        self.whole > 0 || self.fraction > 1
    }

    fn len(&self) -> usize
        requires { self.now.whole + self.now.fraction + self.now.exponent < 2 ^ 64 }
        ensures { result ≡ self.now.whole + self.now.fraction + self.now.exponent }
    {
        self.whole + self.fraction + self.exponent
    }
}

/// The length of the longest decimal float at the front, or 0.
#[tactic(auto, unfolding(crate::specs::Reading::decimal_float_size, crate::specs::Reading::has_digit, crate::specs::Reading::real_size))]
fn decimal_float_len(rest: &[u8]) -> usize
    ensures size { result ≡ spec.decimal_float_size rest.now }
    ensures within { result ≤ length rest.now }
{
    if byte_at(rest, 0) == b'_' {
        return 0;
    }
    let parts = parts_at(rest, 10);
    if parts.has_digit() && parts.fraction + parts.exponent > 0 {
        parts.len()
    } else {
        0
    }
}

/// The length of the longest hexadecimal float at the front, or 0.
#[tactic(auto, unfolding(crate::specs::Reading::hex_float_size, crate::specs::Reading::has_digit, crate::specs::Reading::real_size))]
fn hex_float_len(rest: &[u8]) -> usize
    ensures size { result ≡ spec.hex_float_size rest.now }
    ensures within { result ≤ length rest.now }
{
    let letter = byte_at(rest, 1);
    if byte_at(rest, 0) != b'0' || letter != b'x' && letter != b'X' {
        return 0;
    }
    let (_, after) = rest.split_at(2);
    let parts = parts_at(after, 16);
    if parts.has_digit() && parts.exponent > 0 {
        2 + parts.len()
    } else {
        0
    }
}

/// The length of the longest float at the front, or 0.
#[tactic(auto, unfolding(crate::specs::Reading::float_size))]
pub fn float_len(rest: &[u8]) -> usize
    ensures size { result ≡ spec.float_size rest.now }
    ensures within { result ≤ length rest.now }
{
    decimal_float_len(rest).max(hex_float_len(rest))
}
