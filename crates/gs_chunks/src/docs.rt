//! The docs of a file: what the line comments say that stand directly above what begins on a line.

ghost use Rattle.std.specs.Prelude.{◌≡◌, ◌≢◌, ℕ, List, ◌+◌, ◌++◌, ◌∷◌, nat_lt, take, drop, length, IfOk, OnOk, MatchOption};
ghost use Rattle.std.specs.List.{prefix_len};
ghost use Rattle.std.specs.Option.{option_copied, option_map};
ghost use Rattle.std.specs.Str.{IsCharBoundary};
ghost use Rattle.gs_syntax.specs.Tokens.{mark_size};
ghost use Rattle.gs_scan.specs.Comments.{Ascends};
ghost use Rattle.gs_chunks.specs.Docs as spec;
ghost use Rattle.gs_chunks.specs.Walks.{AreSlashed, IsSaidAt, docs_on, with_line, words};

use gs_base::{Mem, Text};
use std::alloc::Global;

/// The text behind a byte order mark at its front.
fn without_mark(text: &str) -> &str
    ensures rest { result.now ≡ drop (mark_size text.now) text.now }
    ensures len { mark_size text.now + length result.now ≡ length text.now }
{
    text.strip_prefix('\u{feff}').unwrap_or(text)
}

fn is_blank(byte: u8) -> bool
    ensures { result ≡ spec.is_blank byte }
{
    matches!(byte, b' ' | b'\t')
}

/// How many blanks a line begins with.
fn indent(line: &str) -> usize
    ensures blanks { result ≡ spec.indent line.now }
    ensures boundary { IsCharBoundary line.now result }
{
    for (i, byte) in line.as_bytes().iter().enumerate() {
        if !is_blank(*byte) {
            return i;
        }
    }
    line.len()
}

/// What a comment says, if it begins with `//`.
fn said(comment: &str) -> Option<&str>
    ensures { MatchOption result ((rest : List ℕ) → comment.now ≢ 47 ∷ 47 ∷ rest) (λ s. s.now ≡ words comment.now) }
{
    let comment = comment.strip_prefix("//")?;
    let comment = comment.strip_suffix('\r').unwrap_or(comment);
    Some(comment.strip_prefix(' ').unwrap_or(comment))
}

/// What a line says from its front on, if the first of the comments stands there.
fn said_at<'a>(line: &'a str, front: usize, comments: &[u32]) -> Option<&'a str>
    ensures { IsSaidAt comments.now front line.now result }
{
    match comments {
        [first, ..] if *first as usize == front => said(line),
        _ => None,
    }
}

/// The numbers below an end, up to the first that is not, and the others.
fn split_below(numbers: &[u32], end: usize) -> (&[u32], &[u32])
    ensures front { result.0.now ≡ take (prefix_len (λ n. nat_lt n end) numbers.now) numbers.now }
    ensures back { result.1.now ≡ drop (prefix_len (λ n. nat_lt n end) numbers.now) numbers.now }
{
    for (i, number) in numbers.iter().enumerate() {
        if *number as usize >= end {
            return numbers.split_at(i);
        }
    }
    (numbers, &[])
}

/// Comment lines with another below.
fn add_line(alloc: Global, above: Option<Text>, line: &str) -> Mem<Text>
    ensures { IfOk result (λ t. t ≡ with_line above line.now) }
{
    let Some(above) = above else {
        return Text::new(alloc, line);
    };
    let mut text = above.into_string();
    text.push_str("\n")?;
    text.push_str(line)?;
    Ok(Text::from_string(text))
}

/// The comment lines directly above the next line, from those above this one and what this one says, if it is one.
fn below(alloc: Global, above: Option<Text>, line: Option<&str>) -> Mem<Option<Text>>
    ensures { IfOk result (λ next. next ≡ option_map (with_line above) (option_copied line.entry)) }
{
    match line {
        None => Ok(None),
        Some(line) => Ok(Some(add_line(alloc, above, line)?)),
    }
}

/// Adds the docs of what begins at these offsets of a line, where nothing but blanks stands before it.
fn put_docs(
    alloc: Global,
    docs: &mut Vec<(u32, Text)>,
    starts: &[u32],
    front: usize,
    above: &Option<Text>,
) -> Mem<()>
    ensures { OnOk result (docs.new.items ≡ docs.old.items ++ docs_on front above.now starts.now) }
{
    let Some(doc) = above else {
        return Ok(());
    };
    for start in starts {
        if *start as usize <= front {
            docs.push((*start, doc.copy(alloc)?))?;
        }
    }
    Ok(())
}

/// The docs of what begins at these offsets of a text, each with its offset, of those that have one. The comments are given by
/// their offsets. One pass over the lines.
pub fn docs_of(alloc: Global, text: &str, comments: &[u32], starts: &[u32]) -> Mem<Vec<(u32, Text)>>
    requires comments { Ascends 0 (length text.now) comments.now }
    requires slashed { AreSlashed text.now comments.now }
    requires starts { Ascends (mark_size text.now) (length text.now + 1) starts.now }
    ensures { IfOk result (λ v. v.items ≡ spec.docs_at text.now comments.now starts.now) }
{
    let mut docs = Vec::new(alloc);
    let mut rest = without_mark(text);
    let mut at = text.len() - rest.len();
    let mut left = comments;
    let mut coming = starts;
    let mut above = None;
    while let Some((line, behind)) = rest.split_once('\n') {
        let blanks = indent(line);
        let front = at + blanks;
        at += line.len() + 1;
        let (here, later) = split_below(coming, at);
        put_docs(alloc, &mut docs, here, front, &above)?;
        let (_, ahead) = split_below(left, front);
        above = below(alloc, above, said_at(&line[blanks..], front, ahead))?;
        coming = later;
        left = ahead;
        rest = behind;
    }
    put_docs(alloc, &mut docs, coming, at + indent(rest), &above)?;
    Ok(docs)
}
