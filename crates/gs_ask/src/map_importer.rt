ghost use Rattle.std.specs.Prelude.{◌≡◌, [], ◌∷◌, ◌++◌, OnOk, OnErr};
ghost use Rattle.gs_ask.specs.Described.{said_of};
ghost use Rattle.gs_ask.specs.Answers.{Answers};

use crate::importer::{Found, Importer};
use gs_base::Mem;
use gs_terms::{Sig, Symbol, same_symbol};
use sqlite_items::Items;
use std::alloc::Global;

/// A name with its description.
#[derive(Drop)]
pub struct Described {
    pub symbol: Symbol,
    pub sig: Sig,
}

/// An importer over a finite map from names to descriptions: no name waits, and no package is broken. The first description
/// that bears a name counts.
#[derive(Drop)]
pub struct MapImporter {
    pub names: Items<Described>,
}

impl MapImporter {
    /// An importer that knows no name. Takes no memory.
    pub fn new(alloc: Global) -> MapImporter
        ensures { result.names ≡ [] }
    {
        MapImporter {
            names: Items::new(alloc),
        }
    }

    /// Gives a name its description. A name that has one keeps it.
    pub fn add(&mut self, described: Described) -> Mem<()>
        ensures ok { OnOk result (self.new.names ≡ self.old.names ++ described ∷ []) }
        ensures err { OnErr result (self.new.names ≡ self.old.names) }
    {
        self.names.push(described)?;
        Ok(())
    }
}

impl Importer for MapImporter {
    ghost use Rattle.gs_ask.specs.Described.{said_of};

    ghost stands = { λ m. said_of m.names };

    fn find(&mut self, alloc: Global, symbol: &Symbol) -> Found {
        find_among(alloc, self.names.as_slice(), symbol)
    }
}

fn find_among(alloc: Global, names: &[Described], symbol: &Symbol) -> Found
    ensures { Answers (said_of names.now symbol.now) result }
{
    match names {
        [] => Found::Absent,
        [first, rest @ ..] => {
            if same_symbol(&first.symbol, symbol) {
                match first.sig.copy(alloc) {
                    Ok(sig) => Found::Sig(sig),
                    Err(_) => Found::NoMemory,
                }
            } else {
                find_among(alloc, rest, symbol)
            }
        }
    }
}
