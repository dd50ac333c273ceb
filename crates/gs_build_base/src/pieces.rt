//! What a builder gives: a tree and what is left behind it, or why there is none.
ghost use Rattle.std.specs.Prelude.{◌≡◌};

use gs_base::NoMemory;
use gs_places::rest::Rest;
use std::alloc::AllocError;

/// A tree, and the tokens behind it.
#[derive(Drop)]
pub struct Piece<'a, T> {
    pub tree: T,
    pub rest: Rest<'a>,
}

/// What a list has at a place: an item and more behind it, the last item, or nothing more.
#[derive(Drop)]
pub enum Turn<'a, T> {
    More(T, Rest<'a>),
    Last(T, Rest<'a>),
    End(Rest<'a>),
}

/// The same, of a list that something follows.
#[derive(Drop)]
pub enum Part<'a, T, E> {
    More(T, Rest<'a>),
    Last(T, E, Rest<'a>),
    End(E, Rest<'a>),
}

/// Why there is no tree.
#[derive(Clone, Copy, Debug, Drop)]
pub enum Stop {
    /// None begins there.
    Absent,
    NoMemory,
}

impl From<AllocError> for Stop {
    ghost use Rattle.gs_build_base.specs.declared.pieces.Stop.TheVariants.{NoMemory};

    ghost from_gives = { λ _ r. r ≡ NoMemory };

    fn from(_error: AllocError) -> Stop {
        Stop::NoMemory
    }
}

impl From<NoMemory> for Stop {
    ghost use Rattle.gs_build_base.specs.declared.pieces.Stop.TheVariants.{NoMemory};

    ghost from_gives = { λ _ r. r ≡ NoMemory };

    fn from(_error: NoMemory) -> Stop {
        Stop::NoMemory
    }
}
