//! A source and a sink in memory, made from their contents and the calls that are to fail.

ghost use Rattle.std.specs.Prelude.{◌≡◌, ◌≤◌, ◌+◌, min, Some, length, IfOk, IsTrue, ◌↔◌, Contains, vec_len, vec_capacity, drop};
ghost use Rattle.gs_outside.specs.Causes.{one_more};
ghost use Rattle.gs_outside.specs.Pulling.{Gives, Pulls, HasPullCause};
ghost use Rattle.gs_outside.specs.Pushing.{Pushes, HasPushCause};

use crate::{Pulled, Pushed, Sink, Source};
use gs_base::{Mem, NoMemory};

/// The calls of an object, numbered from 0, and those that are to fail.
#[derive(Drop)]
struct Calls {
    next: u64,
    failing: Vec<u64>,
}

impl Calls {
    fn new(failing: Vec<u64>) -> Calls
        ensures next { result.next ≡ 0 }
        ensures failing { result.failing ≡ failing }
    {
        Calls { next: 0, failing }
    }

    /// Counts a call, and says whether it is to fail.
    fn fails(&mut self) -> bool
        ensures fails { IsTrue result ↔ Contains self.old.failing.items self.old.next }
        ensures next { self.new.next ≡ one_more self.old.next }
        ensures failing { self.new.failing ≡ self.old.failing }
    {
        let fails = self.failing.contains(&self.next);
        self.next = self.next.saturating_add(1);
        fails
    }
}

/// Copies as many bytes as there are and fit to the front of the buffer.
fn hand_out(rest: &[u8], buf: &mut [u8]) -> usize
    ensures gives { Gives (Some rest.now) (Some (drop result rest.now)) buf.new result }
    ensures within { result ≤ length rest.now }
    ensures whole { result ≡ min (length buf.new) (length rest.now) }
{
    let count = buf.len().min(rest.len());
    let (front, _) = rest.split_at(count);
    buf[..count].copy_from_slice(front);
    count
}

/// A source in memory. It gives all that is left, or as much as the buffer holds.
#[derive(Drop)]
pub struct MemSource {
    bytes: Vec<u8>,
    given: usize,
    calls: Calls,
    faults: u64,
    ghost within: { given ≤ vec_len bytes },
}

impl MemSource {
    ghost use Rattle.gs_outside.specs.Memory.{left_of, pulls_of, failing_pulls_of, source_faults_of};

    /// A source of these bytes, of which these calls fail, numbered from 0. Takes no memory.
    pub fn new(left: Vec<u8>, failing: Vec<u64>) -> MemSource
        ensures left { left_of result ≡ left.items }
        ensures pulls { pulls_of result ≡ 0 }
        ensures failing { failing_pulls_of result ≡ failing.items }
        ensures faults { source_faults_of result ≡ 0 }
    {
        MemSource {
            bytes: left,
            given: 0,
            calls: Calls::new(failing),
            faults: 0,
        }
    }
}

impl Source for MemSource {
    ghost use Rattle.gs_outside.specs.Memory.{left_of, pulls_of, failing_pulls_of, source_faults_of, PullsAll, CountsPull};

    ghost left = { λ s. Some (left_of s) };

    ghost faults = { λ s. source_faults_of s };

    fn pull(&mut self, buf: &mut [u8]) -> Pulled
        ensures bytes { Pulls (Some (left_of self.old)) (Some (left_of self.new)) buf.new result }
        ensures cause { HasPullCause (source_faults_of self.old) (source_faults_of self.new) result }
        ensures whole { PullsAll self.old buf.new result }
        ensures counts { CountsPull self.old self.new result }
        ensures pulls { pulls_of self.new ≡ one_more (pulls_of self.old) }
        ensures failing { failing_pulls_of self.new ≡ failing_pulls_of self.old }
    {
        if self.calls.fails() {
            self.faults = self.faults.saturating_add(1);
            return Pulled::Failed;
        }
        let (_, rest) = self.bytes.as_slice().split_at(self.given);
        let count = hand_out(rest, buf);
        self.given += count;
        Pulled::Got(count)
    }
}

/// A sink in memory with room for so many more bytes. A push that finds no room left fails.
#[derive(Drop)]
pub struct MemSink {
    bytes: Vec<u8>,
    room: usize,
    calls: Calls,
    faults: u64,
    ghost reserved: { vec_len bytes + room ≤ vec_capacity bytes },
}

impl MemSink {
    ghost use Rattle.gs_outside.specs.Memory.{written_of, room_of, pushes_of, failing_pushes_of, sink_faults_of};

    /// A sink that holds these bytes, with room for so many more, of which these calls fail, numbered from 0.
    pub fn new(mut written: Vec<u8>, room: usize, failing: Vec<u64>) -> Mem<MemSink>
        ensures written { IfOk result (λ s. written_of s ≡ written.items) }
        ensures room { IfOk result (λ s. room_of s ≡ room) }
        ensures pushes { IfOk result (λ s. pushes_of s ≡ 0) }
        ensures failing { IfOk result (λ s. failing_pushes_of s ≡ failing.items) }
        ensures faults { IfOk result (λ s. sink_faults_of s ≡ 0) }
    {
        written.reserve(room).map_err(|_| NoMemory)?;
        Ok(MemSink {
            bytes: written,
            room,
            calls: Calls::new(failing),
            faults: 0,
        })
    }

    /// The bytes that it holds.
    pub fn written(&self) -> &[u8]
        ensures { result.now ≡ written_of self.now }
    {
        self.bytes.as_slice()
    }
}

impl Sink for MemSink {
    ghost use Rattle.gs_outside.specs.Memory.{written_of, pushes_of, failing_pushes_of, sink_faults_of, PushesAll, CountsPush};

    ghost written = { λ s. Some (written_of s) };

    ghost faults = { λ s. sink_faults_of s };

    fn push(&mut self, piece: &[u8]) -> Pushed
        ensures bytes { Pushes (Some (written_of self.old)) (Some (written_of self.new)) piece.now result }
        ensures cause { HasPushCause (sink_faults_of self.old) (sink_faults_of self.new) result }
        ensures whole { PushesAll self.old self.new piece.now result }
        ensures counts { CountsPush self.old self.new result }
        ensures pushes { pushes_of self.new ≡ one_more (pushes_of self.old) }
        ensures failing { failing_pushes_of self.new ≡ failing_pushes_of self.old }
    {
        if self.calls.fails() || self.room == 0 {
            self.faults = self.faults.saturating_add(1);
            return Pushed::Failed;
        }
        let count = piece.len().min(self.room);
        match self.bytes.extend_from_slice(&piece[..count]) {
            Ok(()) => {
                self.room -= count;
                Pushed::Took(count)
            }
            Err(_) => unreachable!(),
        }
    }
}
