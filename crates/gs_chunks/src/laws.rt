//! The laws of file trees.

ghost use Rattle.std.specs.Prelude.{◌≡◌, ◌≤◌, ◌+◌, ℕ, List, length};
ghost use Rattle.gs_grammar.specs.declared.trees.Chunk.{Chunk};
ghost use Rattle.gs_syntax.specs.Tokens.{AreTokens};
ghost use Rattle.gs_syntax.specs.declared.token.Token.{Token};
ghost use Rattle.gs_chunks.specs.Files.{IsRead};
ghost use Rattle.gs_chunks.specs.Verdicts.{Fault};

use gs_grammar::laws::one_chunk;
use gs_scan::laws::one_comments;
use gs_syntax::laws::one_list;

/// A text has at most one token more than bytes.
pub fn few_tokens()
    ensures { (text : List ℕ) (tokens : List Token) → AreTokens text tokens → length tokens ≤ length text + 1 }
{}

/// A file has at most one list of chunks, one of docs and one of faults.
pub fn one_reading()
    ensures { (bytes : List ℕ) (cs ds : List Chunk) (ms ns : List (ℕ × List ℕ)) (fs gs : List Fault) → IsRead bytes cs ms fs → IsRead bytes ds ns gs → (cs ≡ ds) × (ms ≡ ns) × (fs ≡ gs) }
{
    one_chunk();
    one_list();
    one_comments();
}
