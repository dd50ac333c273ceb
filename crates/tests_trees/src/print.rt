//! Trees in the notation.

use crate::part::{Part, Parts, Tree, put_list};
use crate::print_exprs::{open_expr, open_literal};
use crate::print_types::open_type;
use crate::words::{push_span, push_token};
use std::alloc::Global;
use std::test::Fail;

/// What is written has fewer parts than that.
const MOST_PARTS: u32 = 10_000_000;

/// The text of what was put, of this source, perhaps with spans.
pub fn written<'t>(
    alloc: Global,
    source: &str,
    spans: bool,
    parts: &mut Parts<'t>,
) -> Result<String, Fail> {
    let mut text = String::new(alloc);
    for _ in 0..MOST_PARTS {
        match parts.next()? {
            None => return Ok(text),
            Some(Part::Word(word)) => text.push_str(word)?,
            Some(Part::Token(token)) => push_token(alloc, &mut text, source, spans, token)?,
            Some(Part::At(span)) => push_span(alloc, &mut text, spans, span)?,
            Some(Part::Type(tree)) => open_type(parts, tree)?,
            Some(Part::Expr(tree)) => open_expr(parts, tree)?,
            Some(Part::Literal(tree)) => open_literal(parts, tree)?,
            Some(Part::Stmts(trees)) => put_list(parts, trees, "; ")?,
            Some(Part::Labeled(tree)) => tree.get().put(parts)?,
        }
    }
    Err(Fail::new("a tree of too many parts"))
}
