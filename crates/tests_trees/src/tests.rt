//! The tests.

use crate::ask::{Form, each_at, each_gives, each_nests};
use crate::chunks::{CHUNKS, DECLARATION_CHUNKS, FUNCTION_CHUNKS, UNLIKE_CHUNKS};
use crate::expressions::{
    ARROW_EXPRS, EXPRS, HEADERS, LITERAL_EXPRS, OPERATOR_EXPRS, SUFFIX_EXPRS, UNLIKE_EXPRS,
    UNLIKE_HEADERS,
};
use crate::places::{
    BLOCK_199, BLOCK_200, BLOCK_PLACES, CHUNK_199, CHUNK_200, CHUNK_PLACES, EXPR_100, EXPR_199,
    EXPR_200, EXPR_PLACES, HEADER_199, HEADER_PLACES, TYPE_100, TYPE_199, TYPE_200, TYPE_PLACES,
};
use crate::spans::{SPAN_BLOCKS, SPAN_CHUNKS, SPAN_EXPRS, SPAN_TYPES};
use crate::statements::{BLOCKS, FOR_BLOCKS, IF_BLOCKS};
use crate::switches::{
    GUARD_BLOCKS, SELECT_BLOCKS, SWITCH_BLOCKS, UNLIKE_BLOCKS, UNLIKE_GUARD_BLOCKS,
};
use crate::types::{MEMBER_TYPES, SIGNATURE_TYPES, TYPES, UNLIKE_TYPES};
use std::test::Fail;

#[test]
fn types(rt: HostRuntime) -> Result<(), Fail> {
    each_gives(&rt, rt.alloc(), Form::Type, false, &TYPES)?;
    each_gives(&rt, rt.alloc(), Form::Type, false, &SIGNATURE_TYPES)?;
    each_gives(&rt, rt.alloc(), Form::Type, false, &MEMBER_TYPES)?;
    each_gives(&rt, rt.alloc(), Form::Type, false, &UNLIKE_TYPES)
}

#[test]
fn expressions(rt: HostRuntime) -> Result<(), Fail> {
    each_gives(&rt, rt.alloc(), Form::Expr, false, &EXPRS)?;
    each_gives(&rt, rt.alloc(), Form::Expr, false, &LITERAL_EXPRS)?;
    each_gives(&rt, rt.alloc(), Form::Expr, false, &SUFFIX_EXPRS)?;
    each_gives(&rt, rt.alloc(), Form::Expr, false, &OPERATOR_EXPRS)?;
    each_gives(&rt, rt.alloc(), Form::Expr, false, &ARROW_EXPRS)?;
    each_gives(&rt, rt.alloc(), Form::Expr, false, &UNLIKE_EXPRS)?;
    each_gives(&rt, rt.alloc(), Form::Header, false, &HEADERS)?;
    each_gives(&rt, rt.alloc(), Form::Header, false, &UNLIKE_HEADERS)
}

#[test]
fn statements(rt: HostRuntime) -> Result<(), Fail> {
    each_gives(&rt, rt.alloc(), Form::Block, false, &BLOCKS)?;
    each_gives(&rt, rt.alloc(), Form::Block, false, &IF_BLOCKS)?;
    each_gives(&rt, rt.alloc(), Form::Block, false, &FOR_BLOCKS)?;
    each_gives(&rt, rt.alloc(), Form::Block, false, &SWITCH_BLOCKS)?;
    each_gives(&rt, rt.alloc(), Form::Block, false, &GUARD_BLOCKS)?;
    each_gives(&rt, rt.alloc(), Form::Block, false, &UNLIKE_GUARD_BLOCKS)?;
    each_gives(&rt, rt.alloc(), Form::Block, false, &SELECT_BLOCKS)?;
    each_gives(&rt, rt.alloc(), Form::Block, false, &UNLIKE_BLOCKS)
}

#[test]
fn chunks(rt: HostRuntime) -> Result<(), Fail> {
    each_gives(&rt, rt.alloc(), Form::Chunk, false, &CHUNKS)?;
    each_gives(&rt, rt.alloc(), Form::Chunk, false, &DECLARATION_CHUNKS)?;
    each_gives(&rt, rt.alloc(), Form::Chunk, false, &FUNCTION_CHUNKS)?;
    each_gives(&rt, rt.alloc(), Form::Chunk, false, &UNLIKE_CHUNKS)
}

#[test]
fn spans(rt: HostRuntime) -> Result<(), Fail> {
    each_gives(&rt, rt.alloc(), Form::Type, true, &SPAN_TYPES)?;
    each_gives(&rt, rt.alloc(), Form::Expr, true, &SPAN_EXPRS)?;
    each_gives(&rt, rt.alloc(), Form::Block, true, &SPAN_BLOCKS)?;
    each_gives(&rt, rt.alloc(), Form::Chunk, true, &SPAN_CHUNKS)
}

#[test]
fn places(rt: HostRuntime) -> Result<(), Fail> {
    each_at(&rt, rt.alloc(), Form::Type, &TYPE_PLACES)?;
    each_at(&rt, rt.alloc(), Form::Expr, &EXPR_PLACES)?;
    each_at(&rt, rt.alloc(), Form::Header, &HEADER_PLACES)?;
    each_at(&rt, rt.alloc(), Form::Block, &BLOCK_PLACES)?;
    each_at(&rt, rt.alloc(), Form::Chunk, &CHUNK_PLACES)
}

#[test]
fn deep_types_and_expressions(rt: HostRuntime) -> Result<(), Fail> {
    each_nests(&rt, rt.alloc(), Form::Type, &TYPE_200, 200)?;
    each_nests(&rt, rt.alloc(), Form::Type, &TYPE_199, 199)?;
    each_nests(&rt, rt.alloc(), Form::Type, &TYPE_100, 100)?;
    each_nests(&rt, rt.alloc(), Form::Expr, &EXPR_200, 200)?;
    each_nests(&rt, rt.alloc(), Form::Expr, &EXPR_199, 199)?;
    each_nests(&rt, rt.alloc(), Form::Expr, &EXPR_100, 100)?;
    each_nests(&rt, rt.alloc(), Form::Header, &HEADER_199, 199)
}

#[test]
fn deep_blocks_and_chunks(rt: HostRuntime) -> Result<(), Fail> {
    each_nests(&rt, rt.alloc(), Form::Block, &BLOCK_200, 200)?;
    each_nests(&rt, rt.alloc(), Form::Block, &BLOCK_199, 199)?;
    each_nests(&rt, rt.alloc(), Form::Chunk, &CHUNK_200, 200)?;
    each_nests(&rt, rt.alloc(), Form::Chunk, &CHUNK_199, 199)
}
