//! Runs of digits.
ghost use Rattle.std.specs.Prelude.{◌≡◌, ◌≤◌, ◌||◌, ◌&&◌, ◌==◌, length, slice_index};
ghost use Rattle.std.specs.Char as char_spec;
ghost use Rattle.gs_syntax.specs.Numbers.{bounded, value_of};
ghost use Rattle.gs_numbers.specs.Reading as spec;

/// The byte at `index`, or 0 past the end.
#[inline]
pub fn byte_at(bytes: &[u8], index: usize) -> u8
    ensures { result ≡ slice_index bytes.now index }
{
    if index < bytes.len() { bytes[index] } else { 0 }
}

/// What a digit of any base stands for; 36 for no digit.
#[inline]
pub fn digit_value(byte: u8) -> u8
    ensures { result ≡ char_spec.digit_value byte }
{
    match byte {
        b'0'..=b'9' => byte - b'0',
        b'A'..=b'Z' => byte - b'A' + 10,
        b'a'..=b'z' => byte - b'a' + 10,
        _ => 36,
    }
}

/// Whether a byte is a digit of the base, or a `_` before one.
#[inline]
fn is_digit_or_mark(byte: u8, next: u8, base: u8) -> bool
    ensures { result ≡ (char_spec.is_digit byte base || (byte == 95 && char_spec.is_digit next base)) }
{
    digit_value(byte) < base || byte == b'_' && digit_value(next) < base
}

/// The length of the digits at the front, single underscores before and between them.
pub fn digits_len(rest: &[u8], base: u8) -> usize
    ensures size { result ≡ spec.digits_size base rest.now }
    ensures within { result ≤ length rest.now }
{
    let mut at = 0;
    while at < rest.len() && is_digit_or_mark(rest[at], byte_at(rest, at + 1), base) {
        at += 1;
    }
    at
}

/// The length of the digits at the front, single underscores between them.
pub fn run_len(rest: &[u8], base: u8) -> usize
    ensures size { result ≡ spec.run_size base rest.now }
    ensures within { result ≤ length rest.now }
{
    if digit_value(byte_at(rest, 0)) < base {
        digits_len(rest, base)
    } else {
        0
    }
}

/// The value of digits, if an `i128` has it.
pub fn digits_value(digits: &[u8], base: u8) -> Option<i128>
    requires { 1 ≤ base }
    ensures { result ≡ bounded (value_of base digits.now) }
{
    let mut value = 0u128;
    for b in digits {
        if *b != b'_' {
            let digit = digit_value(*b);
            let Some(product) = value.checked_mul(u128::from(base)) else {
                return None;
            };
            let Some(sum) = product.checked_add(u128::from(digit)) else {
                return None;
            };
            if sum > i128::MAX as u128 {
                return None;
            }
            value = sum;
        }
    }
    Some(value as i128)
}
