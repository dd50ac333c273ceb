ghost use Rattle.std.specs.Prelude.{◌≡◌};

use gs_base::NoMemory;
use gs_terms::{Sig, Symbol};
use std::alloc::{AllocError, Global};

/// What an importer answers for a name.
#[derive(Drop)]
pub enum Found {
    /// The description of its declaration.
    Sig(Sig),
    /// Its package is not broken and does not declare it.
    Absent,
    /// Its package is broken and does not declare it.
    Broken,
    /// It is declared in the package that is being typed, and is not described yet.
    Unready,
    /// Memory was wanting.
    NoMemory,
}

/// Why a typing call gave no answer.
#[derive(Drop)]
pub enum Stop {
    /// Its rule needs the description of this name, which is not there yet.
    Unready(Symbol),
    /// Memory was wanting.
    NoMemory,
}

/// What a typing call answers.
pub type Typed<T> = Result<T, Stop>;

impl From<AllocError> for Stop {
    ghost use Rattle.std.specs.Prelude.{◌≡◌};
    ghost use Rattle.gs_ask.specs.declared.importer.Stop.TheVariants.{NoMemory};

    ghost from_gives = { λ _ stop. stop ≡ NoMemory };

    fn from(_: AllocError) -> Stop {
        Stop::NoMemory
    }
}

impl From<NoMemory> for Stop {
    ghost use Rattle.std.specs.Prelude.{◌≡◌};
    ghost use Rattle.gs_ask.specs.declared.importer.Stop.TheVariants.{NoMemory};

    ghost from_gives = { λ _ stop. stop ≡ NoMemory };

    fn from(_: NoMemory) -> Stop {
        Stop::NoMemory
    }
}

/// What typing asks for the descriptions of names.
pub trait Importer: Drop {
    ghost use Rattle.gs_ask.specs.Reply.{Sigs};

    /// The description of each name, as far as they are there.
    ghost stands: { Self → Sigs };

    ghost use Rattle.gs_ask.specs.Answers.{Answers};

    /// What is said of a name. Whatever it answers, the importer stands for the same afterwards.
    fn find(&mut self, alloc: Global, symbol: &Symbol) -> Found
        ensures answer { Answers (stands self.old symbol.now) result }
        ensures same { stands self.new ≡ stands self.old };
}
