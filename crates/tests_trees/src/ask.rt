//! What is asked of each table.
ghost use Rattle.std.specs.Prelude.{◌<◌, ◌^◌, length};

use crate::part::{Parts, Tree};
use crate::print::written;
use gs_ends::parsed::Parsed;
use gs_parse_expr::at::{block_at, chunk_at, expr_at, type_at};
use gs_scan::scan::scan;
use gs_syntax::token::Token;
use std::alloc::Global;
use std::process::Abort;
use std::test::Fail;

/// What is asked for at a place.
#[derive(Clone, Copy)]
pub enum Form {
    Type,
    Expr,
    /// An expression in a header.
    Header,
    Block,
    Chunk,
}

/// How an answer is written.
#[derive(Clone, Copy)]
enum Style {
    /// The tree, and ` .. ` with the text that it leaves, where it leaves any.
    Front,
    /// The same with spans.
    Spans,
    /// The tree, and ` to ` with the place behind it.
    End,
}

/// The text from a place on.
fn left<'t>(source: &'t str, tokens: &[Token], end: u32) -> &'t str {
    match tokens.get(end as usize) {
        None => "",
        Some(token) => source
            .get(token.span.offset as usize..)
            .unwrap_or("?")
            .trim(),
    }
}

/// The tree, or why there is none.
fn answer<T: Tree + Drop>(
    alloc: Global,
    source: &str,
    tokens: &[Token],
    style: Style,
    parsed: Parsed<T>,
) -> Result<String, Fail> {
    Ok(match parsed {
        Parsed::Tree(tree, end) => {
            let mut parts = Parts::new(alloc);
            tree.put(&mut parts)?;
            let text = written(alloc, source, matches!(style, Style::Spans), &mut parts)?;
            match (style, left(source, tokens, end)) {
                (Style::End, _) => format!(in alloc; "{} to {end}", text.as_str())?,
                (_, "") => text,
                (_, rest) => format!(in alloc; "{} .. {rest}", text.as_str())?,
            }
        }
        Parsed::None => format!(in alloc; "none")?,
        Parsed::TooDeep => format!(in alloc; "too deep")?,
        Parsed::NoMemory => format!(in alloc; "no memory")?,
    })
}

/// What stands at a place of a text.
fn found(
    rt: &impl Abort,
    alloc: Global,
    form: Form,
    style: Style,
    source: &str,
    at: u32,
) -> Result<String, Fail> {
    assert!(rt; source.len() < 1_000_000);
    let list = scan(alloc, source)?;
    assert!(rt; list.len() < 1_000_000);
    assert!(rt; at as usize <= list.len());
    let tokens = list.as_slice();
    match form {
        Form::Type => answer(alloc, source, tokens, style, type_at(alloc, tokens, at)),
        Form::Expr => answer(
            alloc,
            source,
            tokens,
            style,
            expr_at(alloc, tokens, at, false),
        ),
        Form::Header => answer(
            alloc,
            source,
            tokens,
            style,
            expr_at(alloc, tokens, at, true),
        ),
        Form::Block => answer(alloc, source, tokens, style, block_at(alloc, tokens, at)),
        Form::Chunk => answer(alloc, source, tokens, style, chunk_at(alloc, tokens, at)),
    }
}

/// At the front of each text stands what is beside it.
pub fn each_gives(
    rt: &impl Abort,
    alloc: Global,
    form: Form,
    spans: bool,
    cases: &[(&str, &str)],
) -> Result<(), Fail> {
    let style = if spans { Style::Spans } else { Style::Front };
    for (source, want) in cases {
        assert_eq!(rt;
            found(rt, alloc, form, style, source, 0)?.as_str(),
            *want,
            "of {source:?}"
        );
    }
    Ok(())
}

/// At the place of each text stands what is beside it, with that end.
pub fn each_at(
    rt: &impl Abort,
    alloc: Global,
    form: Form,
    cases: &[(&str, u32, &str)],
) -> Result<(), Fail> {
    for (source, at, want) in cases {
        assert_eq!(rt;
            found(rt, alloc, form, Style::End, source, *at)?.as_str(),
            *want,
            "at {at} of {source:?}"
        );
    }
    Ok(())
}

/// A text with parts of it repeated: its front, what opens a level, the middle, what closes it, and the back.
pub fn repeated(alloc: Global, parts: [&str; 5], count: u32) -> Result<String, Fail> {
    let [front, left, middle, right, back] = parts;
    let mut text = String::new(alloc);
    text.push_str(front)?;
    for _ in 0..count {
        text.push_str(left)?;
    }
    text.push_str(middle)?;
    for _ in 0..count {
        text.push_str(right)?;
    }
    text.push_str(back)?;
    Ok(text)
}

/// With its parts repeated so often a text has the tree that is made so, or nests too deep.
fn nested_is(
    rt: &impl Abort,
    alloc: Global,
    form: Form,
    case: &[&str; 10],
    count: u32,
    fits: bool,
) -> Result<(), Fail> {
    let [
        front,
        left,
        middle,
        right,
        back,
        head,
        opening,
        core,
        closing,
        tail,
    ] = *case;
    let text = repeated(alloc, [front, left, middle, right, back], count)?;
    let tree = if fits {
        repeated(alloc, [head, opening, core, closing, tail], count)?
    } else {
        format!(in alloc; "too deep")?
    };
    assert_eq!(rt;
        found(rt, alloc, form, Style::Front, text.as_str(), 0)?.as_str(),
        tree.as_str(),
        "of {count} times {case:?}"
    );
    Ok(())
}

/// Each text nests as deep as a tree may where its parts are repeated `most` times.
pub fn each_nests(
    rt: &impl Abort,
    alloc: Global,
    form: Form,
    cases: &[[&str; 10]],
    most: u32,
) -> Result<(), Fail> {
    assert!(rt; 0 < most && most < 1000);
    for case in cases {
        nested_is(rt, alloc, form, case, 1, true)?;
        nested_is(rt, alloc, form, case, most - 1, true)?;
        nested_is(rt, alloc, form, case, most, true)?;
        nested_is(rt, alloc, form, case, most + 1, false)?;
    }
    Ok(())
}
