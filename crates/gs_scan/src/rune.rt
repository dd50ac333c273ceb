//! Runes.
ghost use Rattle.std.specs.Prelude.{◌≡◌, ◌≢◌, slice_index, MatchOption};
ghost use Rattle.gs_syntax.specs.Quotes.{IsRune, IsRuneItem};
ghost use Rattle.gs_scan.specs.Escapes as spec;
ghost use Rattle.gs_scan.specs.Reading.{IsOnlyFront, NoFront};

use crate::escape::{Item, behind_first, escape_at};
use crate::mark::byte_at;

fn code_of(item: Item) -> u32
    ensures { result ≡ spec.code_of item }
{
    match item {
        Item::Byte(b) => u32::from(b),
        Item::Character(c) => c as u32,
    }
}

/// The code and the length of the character at the front, where it is no backslash.
fn plain_at(inside: &str) -> Option<(u32, usize)>
    requires { slice_index inside.now 0 ≢ 92 }
    ensures { MatchOption result (NoFront IsRuneItem inside.now) (λ r. IsOnlyFront IsRuneItem inside.now r.0 r.1) }
{
    let mut chars = inside.chars();
    let Some(c) = chars.next() else {
        return None;
    };
    if c == '\'' {
        return None;
    }
    if c == '\n' {
        return None;
    }
    Some((c as u32, c.len_utf8()))
}

/// The code and the length of the character or the escape at the front.
fn item_at(inside: &str) -> Option<(u32, usize)>
    ensures { MatchOption result (NoFront IsRuneItem inside.now) (λ r. IsOnlyFront IsRuneItem inside.now r.0 r.1) }
{
    let bytes = inside.as_bytes();
    if byte_at(bytes, 0) != b'\\' {
        return plain_at(inside);
    }
    match escape_at(b'\'', behind_first(bytes)) {
        Some((item, len)) => Some((code_of(item), len)),
        None => None,
    }
}

/// The code and the length of the rune at the front, if there is one.
pub fn rune_at(rest: &str) -> Option<(u32, usize)>
    requires { slice_index rest.now 0 ≡ 39 }
    ensures { MatchOption result (NoFront IsRune rest.now) (λ r. IsOnlyFront IsRune rest.now r.0 r.1) }
{
    let (_, inside) = rest.split_at(1);
    let Some((code, len)) = item_at(inside) else {
        return None;
    };
    if byte_at(inside.as_bytes(), len) == b'\'' {
        Some((code, len + 2))
    } else {
        None
    }
}
