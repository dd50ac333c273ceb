//! Bytes that stand in the value itself where they are few.
ghost use Rattle.std.specs.Prelude.{◌≡◌, ◌≤◌, length, take, IfOk};
ghost use Rattle.gs_syntax.specs.Held as held;

use gs_base::Mem;
use sqlite_items::{Boxed, Items};
use std::alloc::Global;
use std::marker::Model;

/// The most bytes that stand in the value itself.
const MOST_SHORT: usize = 14;

/// Where the bytes stand.
#[derive(Debug, Drop)]
enum Held {
    /// How many there are, and the bytes. What follows them means nothing.
    Short(u8, [u8; MOST_SHORT]),
    Long(Boxed<Items<u8>>),
}

/// Bytes that contracts see as their list. Up to 14 take no memory but the 16 bytes of the value itself, and more are kept in
/// memory of their own.
#[derive(Debug, Drop)]
pub struct Bytes {
    held: Held,
}

impl Model for Bytes {
    ghost use Rattle.std.specs.Prelude.{List, ℕ};

    ghost Value = { List ℕ };

    ghost use Rattle.gs_syntax.specs.Held.{bytes_of, IsWithin};

    ghost view = { λ b. bytes_of b.held };

    ghost invariant = { λ b. IsWithin b.held };
}

impl Bytes {
    /// The first `count` bytes of a text. Where it is longer, fourteen bytes are copied at once, however few are wanted.
    pub fn front(alloc: Global, text: &[u8], count: usize) -> Mem<Bytes>
        requires { count ≤ length text.now }
        ensures { IfOk result (λ b. b ≡ take count text.now) }
    {
        if count <= MOST_SHORT {
            return Ok(Bytes {
                held: Held::Short(count as u8, first_of(text)),
            });
        }
        let items = Items::from_slice(alloc, &text[..count])?;
        Ok(Bytes {
            held: Held::Long(Boxed::new(alloc, items)?),
        })
    }

    /// The bytes of a list.
    pub fn from_vec(alloc: Global, list: Vec<u8>) -> Mem<Bytes>
        ensures { IfOk result (λ b. b ≡ list.items) }
    {
        let count = list.len();
        if count <= MOST_SHORT {
            return Ok(Bytes {
                held: Held::Short(count as u8, first_of(list.as_slice())),
            });
        }
        Ok(Bytes {
            held: Held::Long(Boxed::new(alloc, Items::from_vec(list))?),
        })
    }

    /// The bytes, borrowed.
    pub fn as_slice(&self) -> &[u8]
        ensures { result.now ≡ self.now }
    {
        match &self.held {
            Held::Short(count, first) => &first[..*count as usize],
            Held::Long(items) => items.get().as_slice(),
        }
    }
}

/// The first 14 bytes of a text. Where it has fewer, zeros follow them.
#[inline(always)]
fn first_of(text: &[u8]) -> [u8; MOST_SHORT]
    ensures { held.IsFront text.now result }
{
    if let Some(first) = text.first_chunk::<MOST_SHORT>() {
        return *first;
    }
    let mut first = [0u8; MOST_SHORT];
    first[..text.len()].copy_from_slice(text);
    first
}
