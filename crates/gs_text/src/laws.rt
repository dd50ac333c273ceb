// What holds of positions and offsets for every text. Each law is a function that does nothing.
ghost use Rattle.std.specs.Prelude.{◌≡◌, ◌≤◌, ◌-◌, length, IsTrue, false};
ghost use Rattle.std.specs.Str.{IsCharBoundary};
ghost use Rattle.gs_text.specs.LastFit.{IsLastFit};
ghost use Rattle.gs_text.specs.LineEnds.{line_starts, splits_line_end};
ghost use Rattle.gs_text.specs.Lines.{line_start};
ghost use Rattle.gs_text.specs.Order.{IsUpTo};
ghost use Rattle.gs_text.specs.Positions.{position_of, offset_of};

use crate::position::{Pos, PosUnit};

/// The offset of a position is the last place of its line with no more than so many units of the line before it. So
/// the line's end stands for what lies past it, and a character's beginning for what lies inside it.
pub fn offset_is_last_fit(text: &str, position: Pos, unit: PosUnit)
    ensures { IsLastFit unit text.now (line_start text.now position.line) position.character (offset_of unit text.now position) }
{}

/// A line past the last one stands for the text's end.
pub fn lines_end_with_text(text: &str, position: Pos, unit: PosUnit)
    requires { length (line_starts text.now) ≤ position.line }
    ensures { offset_of unit text.now position ≡ length text.now }
{}

/// The offset of an offset's position is that offset, unless it lies between a CR and its LF.
pub fn offset_comes_back(text: &str, offset: usize, unit: PosUnit)
    requires whole { IsCharBoundary text.now offset }
    requires outside { splits_line_end text.now offset ≡ false }
    ensures { offset_of unit text.now (position_of unit text.now offset) ≡ offset }
{}

/// Between a CR and its LF an offset has the position that its line's end has, before the CR.
pub fn line_end_is_one_place(text: &str, offset: usize, unit: PosUnit)
    requires { IsTrue (splits_line_end text.now offset) }
    ensures { position_of unit text.now offset ≡ position_of unit text.now (offset - 1) }
{}

/// A later offset has no earlier position.
pub fn positions_rise(text: &str, offset: usize, later: usize, unit: PosUnit)
    requires whole { IsCharBoundary text.now offset }
    requires order { offset ≤ later }
    ensures { IsUpTo (position_of unit text.now offset) (position_of unit text.now later) }
{}

/// A later position has no smaller offset.
pub fn offsets_rise(text: &str, position: Pos, later: Pos, unit: PosUnit)
    requires { IsUpTo position later }
    ensures { offset_of unit text.now position ≤ offset_of unit text.now later }
{}
