ghost use Rattle.std.specs.Prelude.{◌≡◌, IfOk};

use gs_base::{Mem, Text};
use std::alloc::Global;

/// A declared type or other name: the path of its package, its name, and the number of a type that a
/// function declares. At package level `local` is 0.
#[derive(Debug, Drop)]
pub struct Symbol {
    pub package: Text,
    pub name: Text,
    pub local: u32,
}

/// Where a name is declared: a package's path, a file of it, and the byte offset in the file.
#[derive(Debug, Drop)]
pub struct Place {
    pub package: Text,
    pub file: Text,
    pub offset: u32,
}

impl Symbol {
    /// A copy.
    pub fn copy(&self, alloc: Global) -> Mem<Symbol>
        ensures { IfOk result (λ s. s ≡ self.now) }
    {
        let package = self.package.copy(alloc)?;
        let name = self.name.copy(alloc)?;
        Ok(Symbol {
            package,
            name,
            local: self.local,
        })
    }
}

impl Place {
    /// A copy.
    pub fn copy(&self, alloc: Global) -> Mem<Place>
        ensures { IfOk result (λ p. p ≡ self.now) }
    {
        let package = self.package.copy(alloc)?;
        let file = self.file.copy(alloc)?;
        Ok(Place {
            package,
            file,
            offset: self.offset,
        })
    }
}
