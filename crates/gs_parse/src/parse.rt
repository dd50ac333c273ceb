//! The tree of a file.

ghost use Rattle.std.specs.Prelude.{◌≤◌, length, IfOk};
ghost use Rattle.gs_chunks.specs.Files.{IsFileTree, most_bytes};
ghost use Rattle.gs_parse.specs.Alone.{IsAlone};

use crate::look::Trees;
use gs_base::Mem;
use gs_chunks::docs::docs_of;
use gs_chunks::faults::fault_alone;
use gs_chunks::judge::{Draft, judge_chunks};
use gs_chunks::laws::few_tokens;
use gs_chunks::text::text_of;
use gs_grammar::trees::{Chunk, FileTree};
use gs_scan::laws::comments_ascend;
use gs_scan::scan::scan_all;
use gs_syntax::laws::chunks_follow;
use sqlite_items::Items;
use std::alloc::Global;

/// The tree of a file that has one fault, at its start, and nothing else.
fn tree_alone(alloc: Global, code: u16) -> Mem<FileTree>
    ensures { IfOk result (IsAlone code) }
{
    let faults = fault_alone(alloc, code)?;
    Ok(FileTree {
        chunks: Items::new(alloc),
        docs: Items::new(alloc),
        faults: Items::from_vec(faults),
    })
}

/// The tree of a text.
fn text_tree(alloc: Global, text: &str) -> Mem<FileTree>
    requires { length text.now ≤ most_bytes }
    ensures { IfOk result (IsFileTree text.now) }
{
    few_tokens();
    chunks_follow();
    comments_ascend();
    let found = scan_all(alloc, text)?;
    let tokens = found.tokens.as_slice();
    if tokens.is_empty() {
        return tree_alone(alloc, 1);
    }
    let draft = judge_chunks::<Chunk, Trees>(alloc, tokens)?;
    let docs = docs_of(
        alloc,
        text,
        found.comments.as_slice(),
        draft.starts.as_slice(),
    )?;
    let Draft { chunks, faults, .. } = draft;
    Ok(FileTree {
        chunks: Items::from_vec(chunks),
        docs: Items::from_vec(docs),
        faults: Items::from_vec(faults),
    })
}

/// The tree of a file: the chunks that have a tree and stand where they may, in order, the docs of what they declare, each at
/// the offset of its first token, and the faults of the file's form, each a code of 1 to 5 and its place. The time grows with
/// the file.
pub fn parse(alloc: Global, bytes: &[u8]) -> Mem<FileTree>
    ensures { IfOk result (IsFileTree bytes.now) }
{
    match text_of(bytes) {
        Err(code) => tree_alone(alloc, code),
        Ok(text) => text_tree(alloc, text),
    }
}
