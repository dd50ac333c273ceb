//! What a first byte says of what stands there.
ghost use Rattle.std.specs.Prelude.{◌≡◌};
ghost use Rattle.gs_scan.specs.Reading as spec;

#[derive(Clone, Copy, Debug, PartialEq, Eq)]
pub enum Class {
    Space,
    LineFeed,
    Letter,
    Wide,
    Digit,
    Dot,
    Quote,
    Apostrophe,
    BackQuote,
    Slash,
    Mark,
}

#[inline(always)]
pub fn class_of(b: u8) -> Class
    ensures { result ≡ spec.class_of b }
{
    match b {
        128.. => Class::Wide,
        b'a'..=b'z' | b'A'..=b'Z' | b'_' => Class::Letter,
        b' ' | b'\t' | b'\r' => Class::Space,
        b'\n' => Class::LineFeed,
        b'0'..=b'9' => Class::Digit,
        b'.' => Class::Dot,
        b'"' => Class::Quote,
        b'\'' => Class::Apostrophe,
        b'`' => Class::BackQuote,
        b'/' => Class::Slash,
        _ => Class::Mark,
    }
}
