//! Tokens and spans in the notation of the tables.

use gs_syntax::token::{Operator, Span, Token, TokenKind};
use std::alloc::{AllocError, Global};

/// The operators that a tree keeps.
const OPERATORS: [(Operator, &str); 36] = [
    (Operator::Plus, "+"),
    (Operator::Minus, "-"),
    (Operator::Star, "*"),
    (Operator::Slash, "/"),
    (Operator::Percent, "%"),
    (Operator::And, "&"),
    (Operator::Or, "|"),
    (Operator::Caret, "^"),
    (Operator::ShiftLeft, "<<"),
    (Operator::ShiftRight, ">>"),
    (Operator::AndNot, "&^"),
    (Operator::PlusAssign, "+="),
    (Operator::MinusAssign, "-="),
    (Operator::StarAssign, "*="),
    (Operator::SlashAssign, "/="),
    (Operator::PercentAssign, "%="),
    (Operator::AndAssign, "&="),
    (Operator::OrAssign, "|="),
    (Operator::CaretAssign, "^="),
    (Operator::ShiftLeftAssign, "<<="),
    (Operator::ShiftRightAssign, ">>="),
    (Operator::AndNotAssign, "&^="),
    (Operator::LogicalAnd, "&&"),
    (Operator::LogicalOr, "||"),
    (Operator::Arrow, "<-"),
    (Operator::Increment, "++"),
    (Operator::Decrement, "--"),
    (Operator::Equal, "=="),
    (Operator::Less, "<"),
    (Operator::Greater, ">"),
    (Operator::Not, "!"),
    (Operator::NotEqual, "!="),
    (Operator::LessEqual, "<="),
    (Operator::GreaterEqual, ">="),
    (Operator::Assign, "="),
    (Operator::Define, ":="),
];

/// The text of an operator.
fn operator_text(operator: Operator) -> &'static str {
    for (each, text) in &OPERATORS {
        if *each == operator {
            return text;
        }
    }
    "?"
}

/// The source text from a span on, as long as the span.
fn source_text(source: &str, span: Span) -> &str {
    let start = span.offset as usize;
    source
        .get(start..start + span.length as usize)
        .unwrap_or("?")
}

/// Adds an offset and a length, where spans are wanted.
pub fn push_span(
    alloc: Global,
    text: &mut String,
    spans: bool,
    span: Span,
) -> Result<(), AllocError> {
    if spans {
        text.push_str(format!(in alloc; "@{}+{}", span.offset, span.length)?.as_str())?;
    }
    Ok(())
}

/// Adds the value of a string literal.
fn push_value(text: &mut String, value: &[u8]) -> Result<(), AllocError> {
    text.push('"')?;
    text.push_str(std::str::from_utf8(value).unwrap_or("?"))?;
    text.push('"')
}

/// Adds a token: a name, an operator, or the value of a literal, of those without a value the text.
pub fn push_token(
    alloc: Global,
    text: &mut String,
    source: &str,
    spans: bool,
    token: &Token,
) -> Result<(), AllocError> {
    match &token.kind {
        TokenKind::Identifier(name) => text.push_str(name.as_str())?,
        TokenKind::Operator(operator) => text.push_str(operator_text(*operator))?,
        TokenKind::Integer(value) => match value.get() {
            Some(value) => text.push_str(format!(in alloc; "{value}")?.as_str())?,
            None => text.push_str("wide")?,
        },
        TokenKind::Float | TokenKind::Imaginary => text.push_str(source_text(source, token.span))?,
        TokenKind::Rune(code) => {
            let rune = char::from_u32(*code).unwrap_or('?');
            text.push_str(format!(in alloc; "{rune:?}")?.as_str())?
        }
        TokenKind::Text(value) => push_value(text, value.as_slice())?,
        TokenKind::Keyword(_) | TokenKind::Bad | TokenKind::Inserted => text.push('?')?,
    }
    push_span(alloc, text, spans, token.span)
}
