//! What is asked of each table.
ghost use Rattle.std.specs.Prelude.{◌<◌, ◌≤◌, ◌^◌, length};

use crate::declarations::{NO_CHUNKS, NO_DECLARATIONS, WHOLE_CHUNKS, WHOLE_DECLARATIONS};
use crate::expressions::{NO_EXPRESSIONS, WHOLE_EXPRESSIONS};
use crate::nesting::{
    NESTED_99, NESTED_100, NESTED_198, NESTED_199, NESTED_200, NO_RETRIES, WHOLE_RETRIES, WIDE,
};
use crate::readings::{ENDS, NO_READINGS, NO_UNLIKE, WHOLE_READINGS, WHOLE_UNLIKE};
use crate::statements::{
    NO_HEADERS, NO_STATEMENTS, NO_SWITCHES, WHOLE_HEADERS, WHOLE_STATEMENTS, WHOLE_SWITCHES,
};
use crate::types::{NO_TYPES, WHOLE_TYPES};
use gs_ends::end::{End, chunk_end};
use gs_ends::parsed::Parsed;
use gs_parse_expr::at::chunk_at;
use gs_scan::scan::scan;
use gs_syntax::token::Token;
use std::alloc::Global;
use std::process::Abort;
use std::test::Fail;

/// Where the tree ends.
fn end_of<T: Drop>(parsed: Parsed<T>) -> End {
    match &parsed {
        Parsed::Tree(_, end) => End::At(*end),
        Parsed::None => End::None,
        Parsed::TooDeep => End::TooDeep,
        Parsed::NoMemory => End::NoMemory,
    }
}

/// Where the tree ends that is built of the chunk at a place.
fn tree_end(alloc: Global, tokens: &[Token], at: u32) -> End
    requires few { length tokens.now < 2 ^ 32 }
    requires within { at ≤ length tokens.now }
{
    end_of(chunk_at(alloc, tokens, at))
}

/// What stands at a place of a text: a chunk that ends where the text ends, one that ends before that token, or none. The
/// tree that is built there ends alike.
fn found(rt: &impl Abort, alloc: Global, text: &str, at: u32) -> Result<String, Fail> {
    assert!(rt; text.len() < 10_000_000);
    let tokens = scan(alloc, text)?;
    assert!(rt; tokens.len() < 10_000_000);
    assert!(rt; at as usize <= tokens.len());
    let place = chunk_end(alloc, tokens.as_slice(), at);
    assert_eq!(rt;
        tree_end(alloc, tokens.as_slice(), at),
        place,
        "at {at} of {text:?}"
    );
    Ok(match place {
        End::At(end) if end as usize == tokens.len() => format!(in alloc; "whole")?,
        End::At(end) => format!(in alloc; "{end}")?,
        End::None => format!(in alloc; "none")?,
        End::TooDeep => format!(in alloc; "too deep")?,
        End::NoMemory => format!(in alloc; "no memory")?,
    })
}

/// At the front of each text stands the same.
fn each_is(rt: &impl Abort, alloc: Global, texts: &[&str], want: &str) -> Result<(), Fail> {
    for text in texts {
        assert_eq!(rt; found(rt, alloc, text, 0)?.as_str(), want, "of {text:?}");
    }
    Ok(())
}

#[test]
fn chunks_and_declarations(rt: HostRuntime) -> Result<(), Fail> {
    each_is(&rt, rt.alloc(), &WHOLE_CHUNKS, "whole")?;
    each_is(&rt, rt.alloc(), &NO_CHUNKS, "none")?;
    each_is(&rt, rt.alloc(), &WHOLE_DECLARATIONS, "whole")?;
    each_is(&rt, rt.alloc(), &NO_DECLARATIONS, "none")?;
    for (text, at, want) in &ENDS {
        assert_eq!(rt;
            found(&rt, rt.alloc(), text, *at)?.as_str(),
            *want,
            "at {at} of {text:?}"
        );
    }
    Ok(())
}

#[test]
fn types_and_expressions(rt: HostRuntime) -> Result<(), Fail> {
    each_is(&rt, rt.alloc(), &WHOLE_TYPES, "whole")?;
    each_is(&rt, rt.alloc(), &NO_TYPES, "none")?;
    each_is(&rt, rt.alloc(), &WHOLE_EXPRESSIONS, "whole")?;
    each_is(&rt, rt.alloc(), &NO_EXPRESSIONS, "none")
}

#[test]
fn statements(rt: HostRuntime) -> Result<(), Fail> {
    each_is(&rt, rt.alloc(), &WHOLE_STATEMENTS, "whole")?;
    each_is(&rt, rt.alloc(), &NO_STATEMENTS, "none")?;
    each_is(&rt, rt.alloc(), &WHOLE_HEADERS, "whole")?;
    each_is(&rt, rt.alloc(), &NO_HEADERS, "none")?;
    each_is(&rt, rt.alloc(), &WHOLE_SWITCHES, "whole")?;
    each_is(&rt, rt.alloc(), &NO_SWITCHES, "none")
}

#[test]
fn readings(rt: HostRuntime) -> Result<(), Fail> {
    each_is(&rt, rt.alloc(), &WHOLE_READINGS, "whole")?;
    each_is(&rt, rt.alloc(), &NO_READINGS, "none")?;
    each_is(&rt, rt.alloc(), &WHOLE_UNLIKE, "whole")?;
    each_is(&rt, rt.alloc(), &NO_UNLIKE, "none")
}

/// A text with parts of it repeated: its front, what opens a level, the middle, what closes it, and the back.
fn repeated(alloc: Global, parts: &[&str; 5], count: u32) -> Result<String, Fail> {
    let [front, left, middle, right, back] = *parts;
    let mut text = String::new(alloc);
    text.push_str(front)?;
    for _ in 0..count {
        text.push_str(left)?;
    }
    text.push_str(middle)?;
    for _ in 0..count {
        text.push_str(right)?;
    }
    text.push_str(back)?;
    Ok(text)
}

/// A text with parts of it repeated has this at its front.
fn repeated_is(
    rt: &impl Abort,
    alloc: Global,
    parts: &[&str; 5],
    count: u32,
    want: &str,
) -> Result<(), Fail> {
    let text = repeated(alloc, parts, count)?;
    assert_eq!(rt;
        found(rt, alloc, text.as_str(), 0)?.as_str(),
        want,
        "of {count} times {parts:?}"
    );
    Ok(())
}

/// The deepest nesting that is read is 200. Each text nests so deep, or 199 deep, with its parts repeated `most`
/// times.
fn each_nests(rt: &impl Abort, alloc: Global, cases: &[[&str; 5]], most: u32) -> Result<(), Fail> {
    assert!(rt; 0 < most && most < 1000);
    for parts in cases {
        repeated_is(rt, alloc, parts, 1, "whole")?;
        repeated_is(rt, alloc, parts, most - 1, "whole")?;
        repeated_is(rt, alloc, parts, most, "whole")?;
        repeated_is(rt, alloc, parts, most + 1, "too deep")?;
        repeated_is(rt, alloc, parts, 5000, "too deep")?;
    }
    Ok(())
}

#[test]
fn nesting(rt: HostRuntime) -> Result<(), Fail> {
    each_nests(&rt, rt.alloc(), &NESTED_200, 200)?;
    each_nests(&rt, rt.alloc(), &NESTED_199, 199)?;
    each_nests(&rt, rt.alloc(), &NESTED_198, 198)?;
    each_nests(&rt, rt.alloc(), &NESTED_100, 100)?;
    each_nests(&rt, rt.alloc(), &NESTED_99, 99)
}

/// With parts of it repeated so often, each text has the same at its front.
fn each_repeated_is(
    rt: &impl Abort,
    alloc: Global,
    cases: &[[&str; 5]],
    count: u32,
    want: &str,
) -> Result<(), Fail> {
    for parts in cases {
        repeated_is(rt, alloc, parts, count, want)?;
    }
    Ok(())
}

/// What stands side by side nests no deeper, and each part of a text is read a few times at most.
#[test]
fn long_texts(rt: HostRuntime) -> Result<(), Fail> {
    each_repeated_is(&rt, rt.alloc(), &WIDE, 1000, "whole")?;
    each_repeated_is(&rt, rt.alloc(), &WHOLE_RETRIES, 40, "whole")?;
    each_repeated_is(&rt, rt.alloc(), &NO_RETRIES, 40, "none")
}
