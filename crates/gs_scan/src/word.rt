//! Identifiers and keywords.
ghost use Rattle.std.specs.Prelude.{◌≡◌, ◌≢◌, ◌≤◌, length, IfSome, IfNone};
ghost use Rattle.std.specs.List.{prefix_len};
ghost use Rattle.std.specs.Str.{IsCharBoundary};
ghost use Rattle.gs_syntax.specs.Words as spec;
ghost use Rattle.gs_scan.specs.Reading as spec_reading;
ghost use Rattle.gs_syntax.specs.Kinds.{keyword_text};

use crate::mark::byte_at;
use gs_syntax::token::Keyword;
use unicode::properties::GeneralCategory;

/// Whether a character is `_` or of Lu, Ll, Lt, Lm or Lo (Go specification, "Letters and digits").
#[tactic(auto, using(crate::proofs::WordLemmas::is_letter_ascii), unfolding(gs_syntax::specs::Words::is_letter))]
pub fn is_letter(c: char) -> bool
    ensures { result ≡ spec.is_letter c }
{
    if c < '\u{80}' {
        return c.is_ascii_alphabetic() || c == '_';
    }
    matches!(
        GeneralCategory::for_char(c),
        GeneralCategory::UppercaseLetter
            | GeneralCategory::LowercaseLetter
            | GeneralCategory::TitlecaseLetter
            | GeneralCategory::ModifierLetter
            | GeneralCategory::OtherLetter
    )
}

/// Whether a character is a letter or of Nd.
#[tactic(auto, using(crate::proofs::WordLemmas::is_word_char_ascii), unfolding(gs_syntax::specs::Words::is_word_char))]
pub fn is_word_char(c: char) -> bool
    ensures { result ≡ spec.is_word_char c }
{
    if c < '\u{80}' {
        return c.is_ascii_alphanumeric() || c == '_';
    }
    is_letter(c) || GeneralCategory::for_char(c) == GeneralCategory::DecimalNumber
}

#[inline]
fn is_ascii_word(b: u8) -> bool
    ensures { result ≡ spec_reading.is_ascii_word b }
{
    b.is_ascii_alphanumeric() || b == b'_'
}

/// The length of the ASCII letters and digits at the front.
fn ascii_word_len(bytes: &[u8]) -> usize
    ensures { result ≡ prefix_len spec_reading.is_ascii_word bytes.now }
{
    bytes.iter().take_while(|b| is_ascii_word(**b)).count()
}

/// The length of the letters and digits at the front, character by character.
fn wide_word_len(rest: &str) -> usize
    ensures size { result ≡ spec_reading.word_size rest.now }
    ensures within { result ≤ length rest.now }
{
    let mut len = 0;
    for c in rest.chars() {
        if !is_word_char(c) {
            break;
        }
        len += c.len_utf8();
    }
    len
}

/// The length of the letters and digits at the front.
pub fn word_len(rest: &str) -> usize
    ensures size { result ≡ spec_reading.word_size rest.now }
    ensures boundary { IsCharBoundary rest.now result }
{
    let bytes = rest.as_bytes();
    let len = ascii_word_len(bytes);
    if byte_at(bytes, len) >= 128 {
        len + wide_word_len(&rest[len..])
    } else {
        len
    }
}

/// Whether a keyword has this length and this first letter.
#[inline]
fn begins_keyword(len: usize, first: u8) -> bool
    ensures { result ≡ spec_reading.begins_keyword len first }
{
    match len {
        2 => matches!(first, b'g' | b'i'),
        3 => matches!(first, b'f' | b'm' | b'v'),
        4 => matches!(first, b'c' | b'e' | b'f' | b'g' | b't'),
        5 => matches!(first, b'b' | b'c' | b'd' | b'r'),
        6 => matches!(first, b'i' | b'r' | b's'),
        7 => matches!(first, b'd' | b'p'),
        8 => first == b'c',
        9 => first == b'i',
        11 => first == b'f',
        _ => false,
    }
}

/// The keyword that a word is (Go specification, "Keywords").
#[inline]
pub fn keyword_of(word: &[u8]) -> Option<Keyword>
    ensures value { result ≡ spec_reading.keyword_of word.now }
    ensures found { IfSome result (λ k. word.now ≡ keyword_text k) }
{
    if begins_keyword(word.len(), byte_at(word, 0)) {
        keyword_among(word)
    } else {
        None
    }
}

/// The keyword that a word is, by comparison with each.
#[inline(never)]
fn keyword_among(word: &[u8]) -> Option<Keyword>
    ensures value { result ≡ spec_reading.keyword_of word.now }
    ensures found { IfSome result (λ k. word.now ≡ keyword_text k) }
{
    if word == b"break".as_slice() {
        Some(Keyword::Break)
    } else if word == b"case".as_slice() {
        Some(Keyword::Case)
    } else if word == b"chan".as_slice() {
        Some(Keyword::Chan)
    } else if word == b"const".as_slice() {
        Some(Keyword::Const)
    } else if word == b"continue".as_slice() {
        Some(Keyword::Continue)
    } else if word == b"default".as_slice() {
        Some(Keyword::Default)
    } else if word == b"defer".as_slice() {
        Some(Keyword::Defer)
    } else if word == b"else".as_slice() {
        Some(Keyword::Else)
    } else if word == b"fallthrough".as_slice() {
        Some(Keyword::Fallthrough)
    } else if word == b"for".as_slice() {
        Some(Keyword::For)
    } else if word == b"func".as_slice() {
        Some(Keyword::Func)
    } else if word == b"go".as_slice() {
        Some(Keyword::Go)
    } else if word == b"goto".as_slice() {
        Some(Keyword::Goto)
    } else if word == b"if".as_slice() {
        Some(Keyword::If)
    } else if word == b"import".as_slice() {
        Some(Keyword::Import)
    } else if word == b"interface".as_slice() {
        Some(Keyword::Interface)
    } else if word == b"map".as_slice() {
        Some(Keyword::Map)
    } else if word == b"package".as_slice() {
        Some(Keyword::Package)
    } else if word == b"range".as_slice() {
        Some(Keyword::Range)
    } else if word == b"return".as_slice() {
        Some(Keyword::Return)
    } else if word == b"select".as_slice() {
        Some(Keyword::Select)
    } else if word == b"struct".as_slice() {
        Some(Keyword::Struct)
    } else if word == b"switch".as_slice() {
        Some(Keyword::Switch)
    } else if word == b"type".as_slice() {
        Some(Keyword::Type)
    } else if word == b"var".as_slice() {
        Some(Keyword::Var)
    } else {
        None
    }
}
