//! Strings.
ghost use Rattle.std.specs.Prelude.{◌≡◌, ◌<◌, ◌≤◌, ◌==◌, ◌++◌, not, filter, length, slice_index, IfOk, OnOk, MatchOption};
ghost use Rattle.gs_syntax.specs.Quotes.{IsText, IsRawText, IsOpenRawText};
ghost use Rattle.gs_scan.specs.Escapes as spec;
ghost use Rattle.gs_scan.specs.Reading.{IsOnlyFront, NoFront};

use crate::blank::len_until;
use crate::escape::{Item, item_at};
use crate::mark::byte_at;
use gs_base::Mem;
use gs_syntax::bytes::Bytes;
use std::alloc::{AllocError, Global};

/// Adds what an item stands for to a string's value.
fn push_item(value: &mut Vec<u8>, item: Item) -> Result<(), AllocError>
    ensures { OnOk result (value.new.items ≡ value.old.items ++ spec.bytes_of item) }
{
    match item {
        Item::Byte(b) => {
            value.push(b)?;
            Ok(())
        }
        Item::Character(c) => {
            let mut buffer = [0u8; 4];
            let encoded = c.encode_utf8(&mut buffer);
            value.extend_from_slice(encoded.as_bytes())?;
            Ok(())
        }
    }
}

/// The value and the length of the string at the front, if there is one.
pub fn text_at(alloc: Global, rest: &[u8]) -> Mem<Option<(Bytes, usize)>>
    requires { slice_index rest.now 0 ≡ 34 }
    ensures { IfOk result (λ found. MatchOption found (NoFront IsText rest.now) (λ r. IsOnlyFront IsText rest.now r.0 r.1)) }
{
    let mut value = Vec::new(alloc);
    let mut at = 1;
    while let Some((item, len)) = item_at(&rest[at..]) {
        push_item(&mut value, item)?;
        at += len;
    }
    if byte_at(rest, at) == b'"' {
        let value = Bytes::from_vec(alloc, value)?;
        Ok(Some((value, at + 1)))
    } else {
        Ok(None)
    }
}

/// The bytes without each CR.
fn without_returns(alloc: Global, text: &[u8]) -> Result<Vec<u8>, AllocError>
    ensures { IfOk result (λ v. v.items ≡ filter (λ c. not (c == 13)) text.now) }
{
    text.iter().copied().filter(|b| *b != b'\r').collect(alloc)
}

/// The value and the length of the raw string at the front, if something closes it.
pub fn raw_at(alloc: Global, rest: &[u8]) -> Mem<Option<(Bytes, usize)>>
    requires { slice_index rest.now 0 ≡ 96 }
    ensures { IfOk result (λ found. MatchOption found (IsOpenRawText rest.now) (λ r. IsOnlyFront IsRawText rest.now r.0 r.1)) }
{
    let (_, inside) = rest.split_at(1);
    let len = len_until(inside, b'`');
    if len == inside.len() {
        return Ok(None);
    }
    let (text, _) = inside.split_at(len);
    let value = Bytes::from_vec(alloc, without_returns(alloc, text)?)?;
    Ok(Some((value, len + 2)))
}
