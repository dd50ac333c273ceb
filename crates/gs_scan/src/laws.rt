//! The laws of comments.
ghost use Rattle.std.specs.Prelude.{◌≡◌, ℕ, List, length};
ghost use Rattle.gs_syntax.specs.declared.token.Token.{Token as AToken};
ghost use Rattle.gs_syntax.specs.Tokens.{AreTokens};
ghost use Rattle.gs_scan.specs.Comments.{AreComments, Ascends};

use gs_syntax::laws::one_cut;

/// A text has at most one list of comments.
pub fn one_comments()
    ensures { (text : List ℕ) (a b : List ℕ) → AreComments text a → AreComments text b → a ≡ b }
{
    one_cut();
}

/// A text that has a list of tokens has a list of comments.
pub fn some_comments()
    ensures { (text : List ℕ) (tokens : List AToken) → AreTokens text tokens → (offsets : List ℕ) × AreComments text offsets }
{}

/// The offsets of a text's comments ascend, and lie within it.
pub fn comments_ascend()
    ensures { (text : List ℕ) (offsets : List ℕ) → AreComments text offsets → Ascends 0 (length text) offsets }
{}
