// One line of a header.
ghost use Rattle.std.specs.Prelude.{◌≡◌, ◌==◌, ◌↔◌, ◌++◌, ◌∷◌, ℕ, List, [], false, true, IsTrue, IsUtf8, MatchOption};
ghost use Rattle.std.specs.Str.Parse.{digits_value};
ghost use Rattle.std.specs.Char.{is_ascii_digit};
ghost use Rattle.std.specs.List.{list_all, position};
ghost use Rattle.gs_frames.specs.Header.{has, IsNumber, is_blank, names_length, without_blanks_before, without_blanks_behind};
ghost use Rattle.gs_frames.specs.Lines.{Cuts, IsReadAs};

// What a line says, of which nothing is known but that it has no LF.
#[derive(Clone, Copy, PartialEq, Eq, Debug, Drop)]
pub(crate) enum Field {
    // A Content-Length with this number.
    Length(u64),
    // Any other field.
    Other,
    // No field.
    Broken,
}

fn index_of(bytes: &[u8], mark: u8) -> Option<usize>
    ensures { result ≡ position (λ b. b == mark) bytes.now }
{
    bytes.iter().position(|b| *b == mark)
}

// What stands before and behind the first byte `mark`.
pub(crate) fn split_at_byte(bytes: &[u8], mark: u8) -> Option<(&[u8], &[u8])>
    ensures { MatchOption result (has mark bytes.now ≡ false) (λ x. Cuts mark bytes.now x.0.now x.1.now) }
{
    let at = index_of(bytes, mark)?;
    let (front, rest) = bytes.split_at(at);
    let (_, behind) = rest.split_at(1);
    Some((front, behind))
}

// The line without the CR at its end, where it has one.
pub(crate) fn without_cr(line: &[u8]) -> Option<&[u8]>
    ensures { MatchOption result ((front : List ℕ) → line.now ≡ front ++ 13 ∷ [] → ⊥) (λ front. line.now ≡ front.now ++ 13 ∷ []) }
{
    match line {
        [front @ .., b'\r'] => Some(front),
        _ => None,
    }
}

fn is_blank(byte: u8) -> bool
    ensures { result ≡ is_blank byte }
{
    byte == b' ' || byte == b'\t'
}

fn skip_blanks(text: &[u8]) -> &[u8]
    ensures { result.now ≡ without_blanks_before text.now }
{
    let mut rest = text;
    while let Some((first, behind)) = rest.split_first() {
        if !is_blank(*first) {
            return rest;
        }
        rest = behind;
    }
    rest
}

fn cut_blanks(text: &[u8]) -> &[u8]
    ensures { result.now ≡ without_blanks_behind text.now }
{
    let mut rest = text;
    while let Some((last, front)) = rest.split_last() {
        if !is_blank(*last) {
            return rest;
        }
        rest = front;
    }
    rest
}

fn all_digits(text: &[u8]) -> bool
    ensures { result ≡ list_all is_ascii_digit text.now }
{
    text.iter().all(|b| b.is_ascii_digit())
}

fn is_number(text: &[u8]) -> bool
    ensures { IsTrue result ↔ IsNumber text.now }
{
    !text.is_empty() && text.len() <= 19 && all_digits(text)
}

fn number(text: &[u8]) -> Option<u64>
    ensures { MatchOption result (IsNumber text.now → ⊥) (λ n. IsNumber text.now × (n ≡ digits_value 10 text.now)) }
{
    if !is_number(text) {
        return None;
    }
    match str::from_utf8(text) {
        Ok(digits) => digits.parse::<u64>().ok(),
        Err(_) => None,
    }
}

// A line's text is UTF-8 and has no CR of its own.
fn is_text(line: &[u8]) -> bool
    ensures { IsTrue result ↔ ((has 13 line.now ≡ false) × IsUtf8 line.now) }
{
    !line.contains(&b'\r') && str::from_utf8(line).is_ok()
}

fn names_length(name: &[u8]) -> bool
    ensures { result ≡ names_length name.now }
{
    name.eq_ignore_ascii_case(b"content-length")
}

// Reads a line without its CR LF.
pub(crate) fn read_field(line: &[u8]) -> Field
    requires { has 10 line.now ≡ false }
    ensures { IsReadAs line.now result }
{
    if !is_text(line) {
        return Field::Broken;
    }
    let Some((name, value)) = split_at_byte(line, b':') else {
        return Field::Broken;
    };
    if !names_length(name) {
        return Field::Other;
    }
    match number(cut_blanks(skip_blanks(value))) {
        Some(n) => Field::Length(n),
        None => Field::Broken,
    }
}
