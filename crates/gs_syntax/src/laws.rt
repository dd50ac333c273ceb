//! The laws of tokens.
ghost use Rattle.std.specs.Prelude.{◌≡◌, ℕ, List, length};
ghost use Rattle.gs_syntax.specs.declared.token.Token.{Token as AToken};
ghost use Rattle.gs_syntax.specs.Tokens.{AreTokens, Cut, IsCutInto};
ghost use Rattle.gs_syntax.specs.Chunks.{Follow, chunks_of};

/// A text is cut into tokens and what stands between them in one way at most.
pub fn one_cut()
    ensures { (text : List ℕ) (cs ds : List Cut) → IsCutInto text cs → IsCutInto text ds → cs ≡ ds }
{}

/// A text has at most one list of tokens.
pub fn one_list()
    ensures { (text : List ℕ) (ts us : List AToken) → AreTokens text ts → AreTokens text us → ts ≡ us }
{}

/// The chunks of a list of tokens are all of it: each begins where the one before ends, and none is empty.
pub fn chunks_follow()
    ensures { (ts : List AToken) → Follow 0 (length ts) (chunks_of ts) }
{}
