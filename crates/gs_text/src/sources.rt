ghost use Rattle.std.specs.Prelude.{◌≡◌, IfOk};
ghost use Rattle.std.specs.Option.{option_copied};

use crate::files::Files;
use gs_base::{Mem, Text};
use std::alloc::Global;

/// What a session reads: its folders, the files on disk, and those that an editor has open. A path has `/` between
/// its elements.
#[derive(Drop)]
pub struct Sources {
    /// The folder of the main module.
    pub root: Option<Text>,
    /// The folder of the packages that no module has.
    pub lib: Option<Text>,
    pub disk: Files,
    pub opened: Files,
}

impl Sources {
    ghost use Rattle.gs_text.specs.Sources.{text_of};

    /// A copy, whose files share their bytes with these.
    pub fn copy(&self, alloc: Global) -> Mem<Sources>
        ensures { IfOk result (λ sources. sources ≡ self.now) }
    {
        Ok(Sources {
            root: copy_folder(alloc, &self.root)?,
            lib: copy_folder(alloc, &self.lib)?,
            disk: self.disk.copy()?,
            opened: self.opened.copy()?,
        })
    }

    /// The text of a path: as it is open, else as it is on disk. Takes no memory.
    pub fn bytes(&self, path: &str) -> Option<&[u8]>
        ensures { option_copied result ≡ text_of self.now path.now }
    {
        match self.opened.get(path) {
            Some(blob) => Some(blob.as_slice()),
            None => match self.disk.get(path) {
                Some(blob) => Some(blob.as_slice()),
                None => None,
            },
        }
    }
}

fn copy_folder(alloc: Global, folder: &Option<Text>) -> Mem<Option<Text>>
    ensures { IfOk result (λ copy. copy ≡ folder.now) }
{
    match folder {
        Some(path) => Ok(Some(path.copy(alloc)?)),
        None => Ok(None),
    }
}
