ghost use Rattle.std.specs.Prelude.{◌≡◌, IfOk, OnOk, OnErr, string_bytes};
ghost use Rattle.std.specs.Option.{option_copied};
ghost use Rattle.std.specs.FinMap as map;

use crate::blob::Blob;
use gs_base::{Mem, NoMemory};
use std::alloc::Global;
use std::collections::BTreeMap;
use std::marker::Model;

/// The bytes of paths, seen by contracts as a finite map from the bytes of a path, in byte order.
#[derive(Drop)]
pub struct Files {
    files: BTreeMap<String, Blob>,
}

impl Model for Files {
    ghost use Rattle.std.specs.Prelude.{List, ℕ};
    ghost use Rattle.std.specs.FinMap as map;
    ghost use Rattle.std.specs.Coded.{coded_ℕ, coded_list};
    ghost use Rattle.gs_text.specs.FileMap.{FileMap, files_of};

    ghost Value = { FileMap };

    ghost coded = { map.code (coded_list coded_ℕ) (coded_list coded_ℕ) };

    ghost view = { λ f. files_of f.files.entries };
}

impl Files {
    /// No files. Takes no memory.
    pub fn new(alloc: Global) -> Files
        ensures { result ≡ map.empty }
    {
        Files {
            files: BTreeMap::new(alloc),
        }
    }

    /// A copy, whose files share their bytes with these.
    pub fn copy(&self) -> Mem<Files>
        ensures { IfOk result (λ files. files ≡ self.now) }
    {
        Ok(Files {
            files: self.files.clone()?,
        })
    }

    /// The bytes of a path.
    pub fn get(&self, path: &str) -> Option<&Blob>
        ensures { option_copied result ≡ map.get self.now path.now }
    {
        self.files.get(path)
    }

    /// Gives a path its bytes, in place of those that it had.
    pub fn insert(&mut self, path: String, bytes: Blob) -> Mem<()>
        ensures ok { OnOk result (self.new ≡ map.insert self.old (string_bytes path) bytes) }
        ensures err { OnErr result (self.new ≡ self.old) }
    {
        match self.files.insert(path, bytes) {
            Ok(_) => Ok(()),
            Err(_) => Err(NoMemory),
        }
    }

    /// Takes a path out, with its bytes. Takes no memory.
    pub fn remove(&mut self, path: &str)
        ensures { self.new ≡ map.remove self.old path.now }
    {
        let _ = self.files.remove(path);
    }
}
