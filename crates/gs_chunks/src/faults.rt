//! The faults of a file's form.

ghost use Rattle.std.specs.Prelude.{[], ◌≡◌, ◌≤◌, length, IfOk};
ghost use Rattle.gs_chunks.specs.Files.{HasFaults, most_bytes};
ghost use Rattle.gs_chunks.specs.Verdicts as spec;

use crate::judge::{at_first, judge_chunks};
use crate::laws::few_tokens;
use crate::look::Faults;
use crate::text::text_of;
use gs_base::Mem;
use gs_scan::laws::some_comments;
use gs_scan::scan::scan;
use gs_syntax::token::Span;
use std::alloc::Global;

/// One fault, at the start.
pub fn fault_alone(alloc: Global, code: u16) -> Mem<Vec<(u16, Span)>>
    ensures { IfOk result (λ v. v.items ≡ spec.at_first code []) }
{
    let mut faults = Vec::new(alloc);
    faults.push(at_first(code, &[]))?;
    Ok(faults)
}

/// The faults of a text.
fn text_faults(alloc: Global, text: &str) -> Mem<Vec<(u16, Span)>>
    requires { length text.now ≤ most_bytes }
    ensures { IfOk result (λ v. HasFaults text.now v.items) }
{
    few_tokens();
    some_comments();
    let list = scan(alloc, text)?;
    let tokens = list.as_slice();
    if tokens.is_empty() {
        return fault_alone(alloc, 1);
    }
    let draft = judge_chunks::<(), Faults>(alloc, tokens)?;
    Ok(draft.faults)
}

/// The faults of a file's form, each a code of 1 to 5 and its place, by the place of their chunks. The time grows with the
/// file, and no tree is built.
pub fn faults(alloc: Global, bytes: &[u8]) -> Mem<Vec<(u16, Span)>>
    ensures { IfOk result (λ v. HasFaults bytes.now v.items) }
{
    match text_of(bytes) {
        Err(code) => fault_alone(alloc, code),
        Ok(text) => text_faults(alloc, text),
    }
}
