ghost use Rattle.std.specs.Prelude.{◌≡◌};

/// What a position counts (LSP 3.17, `PositionEncodingKind`).
#[derive(Clone, Copy, PartialEq, Eq, Debug)]
pub enum PosUnit {
    /// The 16-bit units of UTF-16.
    Utf16,
}

/// A place in a text (LSP 3.17, "Position"): a line, counted from 0, and units from its beginning on.
#[derive(Clone, Copy, PartialEq, Eq, Debug)]
pub struct Pos {
    pub line: u32,
    pub character: u32,
}

impl PosUnit {
    ghost use Rattle.gs_text.specs.Units.{units_of_character};

    /// How many units a character takes.
    pub fn width(self, character: char) -> u32
        ensures { result ≡ units_of_character self character }
    {
        match self {
            PosUnit::Utf16 => { if (character as u32) < 0x1_0000 { 1 } else { 2 } }
        }
    }
}
