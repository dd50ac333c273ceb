//! Where bytes come from and where they go: sources and sinks that count their faults.
#![tactic(auto)]

pub mod adapters;
pub mod memory;

ghost use Rattle.std.specs.Prelude.{ℕ, List, Option};
ghost use Rattle.gs_outside.specs.Pulling.{Pulls, HasPullCause};
ghost use Rattle.gs_outside.specs.Pushing.{Pushes, HasPushCause};

/// What a pull answers: how many bytes it gave, or that it failed and gave none.
#[derive(Clone, Copy, PartialEq, Eq, Debug, Drop)]
pub enum Pulled {
    Got(usize),
    Failed,
}

/// Bytes to come. `left` is what is to come, where it is told, and `faults` counts the failures.
pub trait Source {
    ghost left: { Self → Option (List ℕ) };

    ghost faults: { Self → ℕ };

    /// Gives the next bytes: as many as it says, to the front of the buffer. `Got(0)` with a buffer that is not empty is the
    /// end.
    fn pull(&mut self, buf: &mut [u8]) -> Pulled
        ensures bytes { Pulls (left self.old) (left self.new) buf.new result }
        ensures cause { HasPullCause (faults self.old) (faults self.new) result };
}

/// What a push answers: how many bytes of the piece it took, or that it failed and took none.
#[derive(Clone, Copy, PartialEq, Eq, Debug, Drop)]
pub enum Pushed {
    Took(usize),
    Failed,
}

/// Bytes that were written. `written` is what was written, where it is told, and `faults` counts the failures.
pub trait Sink {
    ghost written: { Self → Option (List ℕ) };

    ghost faults: { Self → ℕ };

    /// Takes as many bytes of the piece as it says, from its front: some, where the piece is not empty.
    fn push(&mut self, piece: &[u8]) -> Pushed
        ensures bytes { Pushes (written self.old) (written self.new) piece.now result }
        ensures cause { HasPushCause (faults self.old) (faults self.new) result };
}
