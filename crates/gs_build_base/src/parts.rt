//! Small parts of trees.
ghost use Rattle.std.specs.Prelude.{◌≡◌};
ghost use Rattle.gs_grammar.specs.Parts as spec;

use gs_syntax::token::Token;
use sqlite_items::Items;

/// Whether the list has one name.
pub fn is_single(names: &Items<Token>) -> bool
    ensures { result ≡ spec.is_single names.now }
{
    match names.as_slice() {
        [_] => true,
        _ => false,
    }
}
