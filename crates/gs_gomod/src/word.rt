//! The words of a line.
ghost use Rattle.std.specs.Prelude.{◌≡◌, ◌<◌, ◌≤◌, ◌∷◌, [], length, map, true, IfOk};
ghost use Rattle.std.specs.Option.{option_map};
ghost use Rattle.gs_gomod.specs.Reading as spec;
ghost use Rattle.gs_gomod.specs.Words.{words, words_from, between, in_quotes};
ghost use Rattle.gs_gomod.specs.Shown.{seen};

use gs_base::Mem;
use std::alloc::Global;

/// A word of a line.
#[derive(Clone, Copy, Debug)]
pub enum Word<'a> {
    Plain(&'a str),
    Quoted(&'a str),
    /// A quote that is not closed, up to the end of the line.
    Unclosed,
}

/// The byte at a place, or 0.
fn byte_at(bytes: &[u8], at: usize) -> u8
    ensures { result ≡ spec.byte_at bytes.now at }
{
    match bytes.get(at) {
        Some(b) => *b,
        None => 0,
    }
}

/// Whether a byte is a space or a tab.
fn is_blank(b: u8) -> bool
    ensures { result ≡ spec.is_blank b }
{
    b == b' ' || b == b'\t'
}

/// Whether a word that begins with this byte stands in quotes.
fn is_quote(b: u8) -> bool
    ensures { result ≡ spec.is_quote b }
{
    b == b'"' || b == b'`'
}

/// Whether a comment begins with this byte and those behind it.
fn begins_comment(first: u8, after: &[u8]) -> bool
    ensures { result ≡ spec.begins_comment first after.now }
{
    first == b'/' && byte_at(after, 0) == b'/'
}

/// How far a plain word goes: up to a blank, a comment or the end of the line.
fn plain_len(bytes: &[u8]) -> usize
    ensures { result ≡ spec.plain_size bytes.now }
{
    for at in 0..bytes.len() {
        if is_blank(bytes[at]) || bytes[at] == b'/' && byte_at(bytes, at + 1) == b'/' {
            return at;
        }
    }
    bytes.len()
}

/// How far a quoted word goes.
fn quoted_len(bytes: &[u8], quote: u8) -> usize
    ensures { result ≡ spec.quoted_size quote bytes.now }
{
    bytes.iter().take_while(|b| **b != quote).count()
}

/// A word whose quote stands before `inside`, and what follows it.
fn quoted<'a>(inside: &'a str, quote: u8) -> (Word<'a>, &'a str)
    requires { spec.is_quote quote ≡ true }
    ensures leads { words_from (in_quotes quote []) inside.now ≡ seen result.0 ∷ words_from between result.1.now }
    ensures shorter { length result.1.now ≤ length inside.now }
{
    let len = quoted_len(inside.as_bytes(), quote);
    let (word, rest) = inside.split_at(len);
    if rest.is_empty() {
        return (Word::Unclosed, rest);
    }
    let (_, left) = rest.split_at(1);
    (Word::Quoted(word), left)
}

/// What stands at the front of a line, a word or what only separates words, and what follows it.
fn front<'a>(rest: &'a str) -> (Option<Word<'a>>, &'a str)
    requires { 0 < length rest.now }
    ensures leads { words_from between rest.now ≡ spec.in_front (option_map seen result.0) (words_from between result.1.now) }
    ensures shorter { length result.1.now < length rest.now }
{
    let bytes = rest.as_bytes();
    let Some((first, after)) = bytes.split_first() else {
        unreachable!();
    };
    if is_blank(*first) {
        let (_, left) = rest.split_at(1);
        return (None, left);
    }
    if begins_comment(*first, after) {
        let (_, left) = rest.split_at(rest.len());
        return (None, left);
    }
    if is_quote(*first) {
        let (_, inside) = rest.split_at(1);
        let (word, left) = quoted(inside, *first);
        return (Some(word), left);
    }
    let (word, left) = rest.split_at(plain_len(bytes));
    (Some(Word::Plain(word)), left)
}

/// The words of a line.
#[tactic(auto, unfolding(crate::specs::Words::words))]
pub fn words<'a>(alloc: Global, line: &'a str) -> Mem<Vec<Word<'a>>>
    ensures { IfOk result (λ v. map seen v.items ≡ words line.now) }
{
    let mut words = Vec::new(alloc);
    let mut rest = line;
    while !rest.is_empty() {
        let (word, left) = front(rest);
        if let Some(word) = word {
            words.push(word)?;
        }
        rest = left;
    }
    Ok(words)
}
