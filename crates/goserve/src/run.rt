//! The top call.

ghost use Rattle.std.specs.Prelude.{◌≡◌, ◌≢◌, ◌↔◌, ◌≤◌, IsTrue, codes, length};
ghost use Rattle.std.specs.Io.KnownBytes.{Keeps, IsAtEnd};
ghost use Rattle.gs_outside.specs.Causes.{Rose};
ghost use Rattle.goserve.specs.Moves.{most_input};
ghost use Rattle.goserve.specs.Words.{IsCommand};
ghost use Rattle.goserve.specs.Runs.{Concluded, HasChecked, HasEnded, HasCounts, IsFinished};

use crate::answering::answer;
use crate::reading::{Reading, read_input};
use crate::status::Status;
use crate::writing::write_output;
use gs_outside::{Sink, Source};
use std::alloc::Global;

/// How a run ended: the exit status, and how many packages were typed and how many loaded.
#[derive(Clone, Copy, PartialEq, Eq, Debug, Drop)]
pub struct Outcome {
    pub status: u8,
    pub checked: u64,
    pub loaded: u64,
}

/// Whether the two words are the command.
fn are_command(first: &str, second: &str) -> bool
    ensures { IsTrue result ↔ ((first.now ≡ codes "check") × (second.now ≡ codes "-")) }
{
    first == "check" && second == "-"
}

/// Whether the words are the command.
fn is_command(words: &[String]) -> bool
    ensures { IsTrue result ↔ IsCommand words.now }
{
    match words {
        [first, second] => are_command(first.as_str(), second.as_str()),
        _ => false,
    }
}

/// Writes what an input is answered.
fn conclude<K: Sink>(alloc: Global, input: &[u8], sink: &mut K) -> Status
    requires { length input.now ≤ most_input }
    ensures concluded { Concluded input.now (K.written sink.old) (K.written sink.new) result }
    ensures read { result ≢ Status.ReadFailed }
    ensures long { result ≢ Status.TooLong }
    ensures write { result ≡ Status.WriteFailed → Rose (K.faults sink.old) (K.faults sink.new) }
    ensures later { K.faults sink.old ≤ K.faults sink.new }
{
    match answer(alloc, input) {
        Err(_) => Status::NoMemory,
        Ok(None) => Status::NotBuilt,
        Ok(Some(report)) => {
            if !write_output(sink, report.output.as_slice()) {
                return Status::WriteFailed;
            }
            if report.clean {
                Status::Clean
            } else {
                Status::Faulty
            }
        }
    }
}

/// Reads an input, and writes what it is answered.
fn check_source<S: Source, K: Sink>(alloc: Global, source: &mut S, sink: &mut K) -> Status
    ensures did { HasChecked (S.left source.old) (S.left source.new) (K.written sink.old) (K.written sink.new) result }
    ensures read { result ≡ Status.ReadFailed → Rose (S.faults source.old) (S.faults source.new) }
    ensures write { result ≡ Status.WriteFailed → Rose (K.faults sink.old) (K.faults sink.new) }
    ensures source_later { S.faults source.old ≤ S.faults source.new }
    ensures sink_later { K.faults sink.old ≤ K.faults sink.new }
{
    match read_input(alloc, source) {
        Reading::Failed => Status::ReadFailed,
        Reading::TooLong => Status::TooLong,
        Reading::NoMemory => Status::NoMemory,
        Reading::Input(input) => conclude(alloc, input.as_slice(), sink),
    }
}

/// Checks the file that the source gives, where the words are `check -`, and writes its faults and the counts to the
/// sink. The exit status is the outcome's: 0 no fault, 1 faults, 2 other words, 5 a pull failed, 6 a push failed, 7 no
/// memory, 8 more than 2^30 bytes, 11 a file without faults of its form that is not in the first form.
pub fn run<S: Source, K: Sink>(
    alloc: Global,
    words: &[String],
    source: &mut S,
    sink: &mut K,
) -> Outcome
    // status 2 comes exactly where the words are not the command
    ensures usage { (result.status ≡ 2) ↔ (IsCommand words.now → ⊥) }
    // and then nothing is read and nothing is written
    ensures untouched { result.status ≡ 2 → Keeps (S.left source.old) (S.left source.new) × Keeps (K.written sink.old) (K.written sink.new) }
    // else an input was taken; each status has its cause in that input, and says what was written
    ensures did { IsCommand words.now → HasEnded (S.left source.old) (S.left source.new) (K.written sink.old) (K.written sink.new) result }
    // 0, 1, 6 and 11 come only where the source has nothing left
    ensures finished { IsFinished result.status → IsAtEnd (S.left source.new) }
    // 5 comes only where a pull failed
    ensures read { result.status ≡ 5 → Rose (S.faults source.old) (S.faults source.new) }
    // 6 comes only where a push failed
    ensures write { result.status ≡ 6 → Rose (K.faults sink.old) (K.faults sink.new) }
    // one package was typed where the status is 0 or 1, and none is loaded
    ensures counts { HasCounts result }
    ensures source_later { S.faults source.old ≤ S.faults source.new }
    ensures sink_later { K.faults sink.old ≤ K.faults sink.new }
{
    let status = if is_command(words) {
        check_source(alloc, source, sink)
    } else {
        Status::Usage
    };
    Outcome {
        status: status.number(),
        checked: status.checked(),
        loaded: 0,
    }
}
