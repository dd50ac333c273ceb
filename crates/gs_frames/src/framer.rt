// A stream of bytes, cut into frames.
ghost use Rattle.std.specs.Prelude.{◌≡◌, ◌≤◌, ◌<◌, ◌+◌, ◌^◌, ◌++◌, OnOk, OnErr, length, drop};
ghost use Rattle.gs_frames.specs.Unread.{at_start, held};

use crate::front::{Front, front_of};
use gs_base::Mem;
use sqlite_items::Items;
use std::alloc::Global;
use std::marker::Model;

/// What stands at the front of what was fed and is not read yet.
#[derive(Debug, Drop)]
pub enum Next {
    /// The body of a whole frame, which is read with this answer.
    Frame(Items<u8>),
    /// Neither a whole frame nor a fault.
    More,
    /// A header fault. The header begins at this place, counted in all bytes that were fed.
    Header(u64),
    /// A well-formed header whose Content-Length is this number, above 67,108,864.
    TooLong(u64),
    /// A whole frame, for which memory was wanting.
    NoMemory,
}

/// Takes a stream of bytes piece by piece, and gives its frames.
#[derive(Drop)]
pub struct Framer {
    // Bytes that were fed, of which the first `start` are read.
    buffer: Option<Vec<u8>>,
    start: usize,
    // How many bytes were read in all.
    at: u64,
}

impl Model for Framer {
    ghost use Rattle.std.specs.Prelude.{◌≤◌, ◌<◌, ◌+◌, ◌-◌, ◌^◌, length, drop};
    ghost use Rattle.gs_frames.specs.Unread.{Unread, held};

    ghost Value = { Unread };

    ghost view = { λ f. record { at = f.at; rest = drop f.start (held f.buffer) } };

    ghost invariant = { λ f. (f.start ≤ length (held f.buffer)) × (f.at + (length (held f.buffer) - f.start) < 2 ^ 64) };
}

// The bytes that are not read.
fn unread(buffer: &Option<Vec<u8>>, start: usize) -> &[u8]
    requires { start ≤ length (held buffer.now) }
    ensures { result.now ≡ drop start (held buffer.now) }
{
    match buffer {
        Some(buffer) => buffer.as_slice().split_at(start).1,
        None => &[],
    }
}

// Lets go of the bytes that are read, once they are at least as many as those that are not.
fn without_read(buffer: &mut Vec<u8>, start: usize) -> usize
    requires { start ≤ length buffer.old.items }
    ensures within { result ≤ length buffer.new.items }
    ensures same { drop result buffer.new.items ≡ drop start buffer.old.items }
{
    if start < buffer.len() - start {
        return start;
    }
    buffer.drain(..start);
    0
}

ghost use Rattle.gs_frames.specs.Calls.{IsAnswerAt};

// The answer, and how many bytes it takes from the front.
fn answer(alloc: Global, at: u64, rest: &[u8]) -> (Next, usize)
    ensures { IsAnswerAt at rest.now result.0 result.1 }
{
    match front_of(rest) {
        Front::Incomplete => (Next::More, 0),
        Front::Fault => (Next::Header(at), 0),
        Front::TooLong(number) => (Next::TooLong(number), 0),
        Front::Frame(start, end) => match Items::from_slice(alloc, &rest[start..end]) {
            Ok(body) => (Next::Frame(body), end),
            Err(_) => (Next::NoMemory, 0),
        },
    }
}

impl Framer {
    ghost use Rattle.gs_frames.specs.Calls.{Answers};

    /// A Framer to which nothing was fed. Takes no memory.
    pub fn new() -> Framer
        ensures { result ≡ at_start }
    {
        Framer {
            buffer: None,
            start: 0,
            at: 0,
        }
    }

    /// Takes the next piece of the stream. The cost is that of the piece, taken over all calls.
    pub fn feed(&mut self, alloc: Global, piece: &[u8]) -> Mem<()>
        requires { self.old.at + length self.old.rest + length piece.now < 2 ^ 64 }
        ensures ok { OnOk result (self.new ≡ record self.old { rest = self.old.rest ++ piece.now }) }
        ensures err { OnErr result (self.new ≡ self.old) }
    {
        let mut buffer = match self.buffer.take() {
            Some(buffer) => buffer,
            None => Vec::new(alloc),
        };
        self.start = without_read(&mut buffer, self.start);
        let fed = buffer.extend_from_slice(piece);
        self.buffer = Some(buffer);
        fed?;
        Ok(())
    }

    /// What stands at the front. It looks at no more than 1,024 bytes and the frame that it gives, and after
    /// `Header` or `TooLong` it answers the same again.
    pub fn next(&mut self, alloc: Global) -> Next
        ensures answer { Answers self.old result self.new }
        ensures place { self.new.at + length self.new.rest ≡ self.old.at + length self.old.rest }
    {
        let (next, taken) = answer(alloc, self.at, unread(&self.buffer, self.start));
        self.start += taken;
        self.at += taken as u64;
        next
    }
}
