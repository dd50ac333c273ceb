//! The writing of an output.

ghost use Rattle.std.specs.Prelude.{◌≤◌};
ghost use Rattle.goserve.specs.Writes.{HasWritten};

use gs_outside::{Pushed, Sink};

/// Pushes all bytes, and says whether the sink took them.
pub fn write_output<K: Sink>(sink: &mut K, bytes: &[u8]) -> bool
    ensures written { HasWritten (K.written sink.old) (K.written sink.new) bytes.now (K.faults sink.old) (K.faults sink.new) result }
    ensures later { K.faults sink.old ≤ K.faults sink.new }
{
    let mut rest = bytes;
    while !rest.is_empty() {
        match sink.push(rest) {
            Pushed::Took(count) => {
                let (_, left) = rest.split_at(count);
                rest = left;
            }
            Pushed::Failed => return false,
        }
    }
    true
}
