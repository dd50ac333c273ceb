//! What is said of each chunk.

ghost use Rattle.std.specs.Prelude.{◌≡◌, ◌<◌, ◌^◌, ◌++◌, ◌∷◌, [], length, IfOk, OnOk, Option};
ghost use Rattle.gs_grammar.specs.declared.trees.Chunk.{Chunk};
ghost use Rattle.gs_syntax.specs.Chunks.{chunks_of};
ghost use Rattle.gs_chunks.specs.Drafts.{HasAdded, HasJudged, HasVerdicts, starts_with_tree, trees_of};
ghost use Rattle.gs_chunks.specs.Verdicts as spec;
ghost use Rattle.gs_chunks.specs.Verdicts.{Dropped, parts_of};

use crate::look::Look;
use crate::part::part;
use crate::stage::{Stage, first_class};
use crate::starts::put_starts;
use gs_base::{Mem, NoMemory};
use gs_ends::parsed::Parsed;
use gs_grammar::laws::one_chunk;
use gs_scan::chunk::chunks;
use gs_syntax::token::{Span, Token, TokenKind};
use std::alloc::{AllocError, Global};

/// What is said of the chunks so far.
#[derive(Drop)]
pub struct Draft<T> {
    /// What is kept of their trees.
    pub chunks: Vec<T>,
    /// The offsets at which the chunks of these, their declarations and their specs begin.
    pub starts: Vec<u32>,
    /// The faults of those that are dropped, each a code and its place.
    pub faults: Vec<(u16, Span)>,
}

fn is_bad(kind: &TokenKind) -> bool
    ensures { result ≡ spec.is_bad kind.now }
{
    matches!(kind, TokenKind::Bad)
}

/// The span of the first token, or of nothing at the start.
fn first_span(tokens: &[Token]) -> Span
    ensures { result ≡ spec.first_span tokens.now }
{
    match tokens {
        [] => Span {
            offset: 0,
            length: 0,
        },
        [first, ..] => first.span,
    }
}

/// The fault at the first token.
pub fn at_first(code: u16, tokens: &[Token]) -> (u16, Span)
    ensures { result ∷ [] ≡ spec.at_first code tokens.now }
{
    (code, first_span(tokens))
}

fn put(faults: &mut Vec<(u16, Span)>, fault: (u16, Span)) -> Result<(), AllocError>
    ensures { OnOk result (faults.new.items ≡ faults.old.items ++ fault ∷ []) }
{
    faults.push(fault)?;
    Ok(())
}

/// Adds a fault for each bad token.
fn put_bad_tokens(faults: &mut Vec<(u16, Span)>, tokens: &[Token]) -> Result<(), AllocError>
    ensures { OnOk result (faults.new.items ≡ faults.old.items ++ spec.bad_tokens tokens.now) }
{
    for token in tokens {
        if is_bad(&token.kind) {
            put(faults, (2, token.span))?;
        }
    }
    Ok(())
}

/// Drops a chunk for a fault at its first token.
fn drop_chunk<T>(draft: &mut Draft<T>, stage: Stage, code: u16, tokens: &[Token]) -> Mem<Stage>
    ensures { IfOk result (λ next. (keeps : Chunk → Option T) → HasAdded keeps draft.old draft.new stage next tokens.now (Dropped (spec.at_first code tokens.now))) }
{
    put(&mut draft.faults, at_first(code, tokens))?;
    Ok(stage.passed())
}

/// Keeps a chunk: what is kept of its tree and, where that is something, where it, its declarations and their specs begin.
fn keep_chunk<T: Drop>(
    alloc: Global,
    draft: &mut Draft<T>,
    tree: Option<T>,
    tokens: &[Token],
) -> Result<(), AllocError>
    ensures chunks { OnOk result (draft.new.chunks.items ≡ draft.old.chunks.items ++ trees_of tree) }
    ensures starts { OnOk result (draft.new.starts.items ≡ draft.old.starts.items ++ starts_with_tree tokens.now tree) }
    ensures faults { draft.new.faults.items ≡ draft.old.faults.items }
{
    if let Some(tree) = tree {
        draft.chunks.push(tree)?;
        put_starts(alloc, &mut draft.starts, tokens)?;
    }
    Ok(())
}

/// Judges a chunk without bad tokens.
fn judge_tree<T: Drop, L: Look<T>>(
    alloc: Global,
    draft: &mut Draft<T>,
    stage: Stage,
    tokens: &[Token],
) -> Mem<Stage>
    requires few { length tokens.now < 2 ^ 32 }
    requires good { spec.bad_tokens tokens.now ≡ [] }
    ensures { IfOk result (HasJudged L.keeps draft.old draft.new stage tokens.now) }
{
    one_chunk();
    match L::look(alloc, tokens) {
        Parsed::NoMemory => Err(NoMemory),
        Parsed::TooDeep => drop_chunk(draft, stage, 4, tokens),
        Parsed::None => drop_chunk(draft, stage, 1, tokens),
        Parsed::Tree(tree, end) => {
            let class = first_class(tokens);
            if end as usize == tokens.len() && stage.takes(class) {
                keep_chunk(alloc, draft, tree, tokens)?;
                Ok(stage.behind(class))
            } else {
                drop(tree);
                drop_chunk(draft, stage, 1, tokens)
            }
        }
    }
}

/// Judges a chunk: adds what is said of it, and says what may stand behind it.
fn judge<T: Drop, L: Look<T>>(
    alloc: Global,
    draft: &mut Draft<T>,
    stage: Stage,
    tokens: &[Token],
) -> Mem<Stage>
    requires { length tokens.now < 2 ^ 32 }
    ensures { IfOk result (HasJudged L.keeps draft.old draft.new stage tokens.now) }
{
    let before = draft.faults.len();
    put_bad_tokens(&mut draft.faults, tokens)?;
    if draft.faults.len() > before {
        Ok(stage.passed())
    } else {
        judge_tree::<T, L>(alloc, draft, stage, tokens)
    }
}

/// Judges the chunks of a file one behind the other.
pub fn judge_chunks<T: Drop, L: Look<T>>(alloc: Global, tokens: &[Token]) -> Mem<Draft<T>>
    requires { length tokens.now < 2 ^ 32 }
    ensures { IfOk result (HasVerdicts L.keeps (parts_of tokens.now (chunks_of tokens.now))) }
{
    let places = chunks(alloc, tokens)?;
    let mut draft = Draft {
        chunks: Vec::new(alloc),
        starts: Vec::new(alloc),
        faults: Vec::new(alloc),
    };
    let mut stage = Stage::Clause;
    for place in &places {
        let chunk = part(tokens, place.0 as usize, place.1 as usize);
        stage = judge::<T, L>(alloc, &mut draft, stage, chunk)?;
    }
    Ok(draft)
}
