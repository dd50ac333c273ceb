//! Names.
ghost use Rattle.std.specs.Prelude.{◌≡◌, take, IfOk};
ghost use Rattle.std.specs.Str.{IsCharBoundary};

use crate::bytes::Bytes;
use gs_base::Mem;
use std::alloc::Global;
use std::marker::Model;
use std::str::from_utf8_unchecked;

/// A text that contracts see as the list of its bytes, kept as `Bytes` are.
#[derive(Debug, Drop)]
pub struct Name {
    bytes: Bytes,
}

impl Model for Name {
    ghost use Rattle.std.specs.Prelude.{List, ℕ, IsUtf8};

    ghost Value = { List ℕ };

    ghost view = { λ n. n.bytes };

    ghost invariant = { λ n. IsUtf8 n.bytes };
}

impl Name {
    /// The first `count` bytes of a text.
    pub fn front(alloc: Global, text: &str, count: usize) -> Mem<Name>
        requires { IsCharBoundary text.now count }
        ensures { IfOk result (λ n. n ≡ take count text.now) }
    {
        Ok(Name {
            bytes: Bytes::front(alloc, text.as_bytes(), count)?,
        })
    }

    /// The name as a text, borrowed.
    pub fn as_str(&self) -> &str
        ensures { result.now ≡ self.now }
    {
        unsafe { from_utf8_unchecked(self.bytes.as_slice()) }
    }

    /// The bytes of the name, borrowed.
    pub fn as_bytes(&self) -> &[u8]
        ensures { result.now ≡ self.now }
    {
        self.bytes.as_slice()
    }
}
