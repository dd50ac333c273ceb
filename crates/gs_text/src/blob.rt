ghost use Rattle.std.specs.Prelude.{◌≡◌, IfOk};

use gs_base::{Mem, NoMemory};
use std::alloc::{AllocError, Global};
use std::marker::Model;
use std::sync::Arc;

/// Bytes that several owners share, seen by contracts as their list.
#[derive(Debug, Drop)]
pub struct Blob {
    bytes: Arc<Vec<u8>>,
}

impl Model for Blob {
    ghost use Rattle.std.specs.Prelude.{List, ℕ};
    ghost use Rattle.std.specs.Arc.{arc_value};

    ghost Value = { List ℕ };

    ghost view = { λ b. (arc_value b.bytes).items };
}

impl Clone for Blob {
    ghost is_clone = { λ blob copy. copy ≡ blob };

    fn clone(&self) -> Result<Blob, AllocError> {
        Ok(Blob {
            bytes: Arc::try_clone(&self.bytes)?,
        })
    }
}

impl Blob {
    /// Takes the bytes over, without a copy of them.
    pub fn new(alloc: Global, bytes: Vec<u8>) -> Mem<Blob>
        ensures { IfOk result (λ blob. blob ≡ bytes.items) }
    {
        match Arc::new(alloc, bytes) {
            Ok(bytes) => Ok(Blob { bytes }),
            Err(_) => Err(NoMemory),
        }
    }

    /// One owner more of the same bytes. It copies none; `NoMemory` says that no owner more can be counted.
    pub fn share(&self) -> Mem<Blob>
        ensures { IfOk result (λ blob. blob ≡ self.now) }
    {
        Ok(self.clone()?)
    }

    /// The bytes, borrowed.
    pub fn as_slice(&self) -> &[u8]
        ensures { result.now ≡ self.now }
    {
        self.bytes.as_slice()
    }
}
