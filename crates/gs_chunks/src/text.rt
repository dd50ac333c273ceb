//! The text of a file.

ghost use Rattle.std.specs.Prelude.{◌≡◌, ◌≤◌, [], length, MatchResult};
ghost use Rattle.gs_chunks.specs.Files.{IsRead, most_bytes};
ghost use Rattle.gs_chunks.specs.Verdicts as spec;

/// The most bytes that a file may have.
const MOST_BYTES: usize = 4_194_304;

/// The text of a file, or the code of the fault of a file that has none.
pub fn text_of(bytes: &[u8]) -> Result<&str, u16>
    ensures { MatchResult result (λ text. (text.now ≡ bytes.now) × (length bytes.now ≤ most_bytes)) (λ code. IsRead bytes.now [] [] (spec.at_first code [])) }
{
    if bytes.len() > MOST_BYTES {
        return Err(5);
    }
    match std::str::from_utf8(bytes) {
        Err(_) => Err(3),
        Ok(text) => Ok(text),
    }
}
