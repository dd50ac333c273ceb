//! Escapes, in runes and in strings.
ghost use Rattle.std.specs.Prelude.{◌≡◌, ◌≤◌, length, drop, slice_index};
ghost use Rattle.gs_syntax.specs.Quotes as syntax;
ghost use Rattle.gs_scan.specs.Escapes as spec;

use crate::mark::byte_at;

/// What an escape, or a byte of a string, stands for.
#[derive(Clone, Copy, Debug, PartialEq, Eq)]
pub enum Item {
    Byte(u8),
    Character(char),
}

/// What a single letter behind a backslash stands for.
fn escape_value(quote: u8, letter: u8) -> Option<u8>
    ensures { result ≡ syntax.escape_value quote letter }
{
    match letter {
        b'a' => Some(7),
        b'b' => Some(8),
        b'f' => Some(12),
        b'n' => Some(10),
        b'r' => Some(13),
        b't' => Some(9),
        b'v' => Some(11),
        b'\\' => Some(b'\\'),
        _ => { if letter == quote { Some(quote) } else { None } }
    }
}

/// The number that digits of the base write.
fn numeral(digits: &[u8], base: u32) -> Option<u32>
    requires short { length digits.now ≤ 8 }
    requires low { 2 ≤ base }
    requires high { base ≤ 16 }
    ensures { result ≡ spec.numeral base digits.now }
{
    let mut value = 0u32;
    for b in digits {
        let Some(digit) = char::from(*b).to_digit(base) else {
            return None;
        };
        value = value * base + digit;
    }
    Some(value)
}

/// The number that the first `count` bytes write.
#[tactic(auto, unfolding(crate::specs::Escapes::numeral_at))]
fn numeral_at(rest: &[u8], base: u32, count: usize) -> Option<u32>
    requires short { count ≤ 8 }
    requires low { 2 ≤ base }
    requires high { base ≤ 16 }
    ensures { result ≡ spec.numeral_at base count rest.now }
{
    if rest.len() < count {
        return None;
    }
    let (digits, _) = rest.split_at(count);
    numeral(digits, base)
}

/// The byte that the first `count` digits write, in an escape of `len` bytes.
#[tactic(auto, unfolding(crate::specs::Escapes::byte_escape))]
fn byte_escape(rest: &[u8], base: u32, count: usize, len: usize) -> Option<(Item, usize)>
    requires short { count ≤ 8 }
    requires low { 2 ≤ base }
    requires high { base ≤ 16 }
    ensures { result ≡ spec.byte_escape base count len rest.now }
{
    match numeral_at(rest, base, count) {
        Some(value) => {
            if value < 256 {
                Some((Item::Byte(value as u8), len))
            } else {
                None
            }
        }
        None => None,
    }
}

/// The character whose code the first `count` digits write, in an escape of `len` bytes.
#[tactic(auto, unfolding(crate::specs::Escapes::character_escape))]
fn character_escape(rest: &[u8], count: usize, len: usize) -> Option<(Item, usize)>
    requires { count ≤ 8 }
    ensures { result ≡ spec.character_escape count len rest.now }
{
    match numeral_at(rest, 16, count) {
        Some(value) => match char::from_u32(value) {
            Some(c) => Some((Item::Character(c), len)),
            None => None,
        },
        None => None,
    }
}

/// What follows the first byte.
pub fn behind_first(rest: &[u8]) -> &[u8]
    ensures { result.now ≡ drop 1 rest.now }
{
    match rest.split_first() {
        Some((_, tail)) => tail,
        None => rest,
    }
}

/// The escape with digits whose backslash stands before `rest`, and its length with the backslash.
#[tactic(auto, unfolding(crate::specs::Escapes::numbered_at))]
fn numbered_at(rest: &[u8]) -> Option<(Item, usize)>
    ensures { result ≡ spec.numbered_at rest.now }
{
    let first = byte_at(rest, 0);
    if first == b'x' {
        byte_escape(behind_first(rest), 16, 2, 4)
    } else if first == b'u' {
        character_escape(behind_first(rest), 4, 6)
    } else if first == b'U' {
        character_escape(behind_first(rest), 8, 10)
    } else {
        byte_escape(rest, 8, 3, 4)
    }
}

/// The escape whose backslash stands before `rest`, and its length with the backslash.
#[tactic(auto, unfolding(crate::specs::Escapes::escape_at))]
pub fn escape_at(quote: u8, rest: &[u8]) -> Option<(Item, usize)>
    ensures { result ≡ spec.escape_at quote rest.now }
{
    match escape_value(quote, byte_at(rest, 0)) {
        Some(value) => Some((Item::Byte(value), 2)),
        None => numbered_at(rest),
    }
}

/// The item of a string at the front, and its length.
#[tactic(auto, unfolding(crate::specs::Escapes::item_at))]
pub fn item_at(rest: &[u8]) -> Option<(Item, usize)>
    ensures { result ≡ spec.item_at rest.now }
{
    if rest.is_empty() {
        return None;
    }
    let first = rest[0];
    if first == b'\n' || first == b'"' {
        None
    } else if first == b'\\' {
        escape_at(b'"', behind_first(rest))
    } else {
        Some((Item::Byte(first), 1))
    }
}
