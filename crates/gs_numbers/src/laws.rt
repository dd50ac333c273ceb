//! The laws of number literals.
ghost use Rattle.std.specs.Prelude.{◌≡◌, ℕ, List};
ghost use Rattle.std.specs.Str.{IsAscii};
ghost use Rattle.gs_numbers.specs.declared.number.Number.{Number as ANumber};
ghost use Rattle.gs_numbers.specs.Spelling.{SpellsNumber, BeginsNumber};

/// The same bytes spell at most one number.
pub fn one_number()
    ensures { (bytes : List ℕ) (a b : ANumber) → SpellsNumber a bytes → SpellsNumber b bytes → a ≡ b }
{}

/// A number begins with a digit, or with a point and a digit, and is of ASCII.
pub fn number_bytes()
    ensures begins { (bytes : List ℕ) (number : ANumber) → SpellsNumber number bytes → BeginsNumber bytes }
    ensures ascii { (bytes : List ℕ) (number : ANumber) → SpellsNumber number bytes → IsAscii bytes }
{}
