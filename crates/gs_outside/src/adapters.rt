//! A source over any reader and a sink over any writer. They tell what these tell, and count their failures.

ghost use Rattle.std.specs.Prelude.{◌≡◌};
ghost use Rattle.gs_outside.specs.Adapters.{reader_of, failed_reads_of, writer_of, failed_writes_of};

use crate::{Pulled, Pushed, Sink, Source};
use std::io::{Read, Write};

/// A source that pulls from a reader.
#[derive(Drop)]
pub struct ReaderSource<R> {
    reader: R,
    faults: u64,
}

impl<R: Read> ReaderSource<R> {
    /// A source over a reader. Takes no memory.
    pub fn new(reader: R) -> ReaderSource<R>
        ensures reader { reader_of result ≡ reader }
        ensures faults { failed_reads_of result ≡ 0 }
    {
        ReaderSource { reader, faults: 0 }
    }
}

impl<R: Read> Source for ReaderSource<R> {
    ghost left = { λ s. R.remaining (reader_of s) };

    ghost faults = { λ s. failed_reads_of s };

    fn pull(&mut self, buf: &mut [u8]) -> Pulled {
        match self.reader.read(buf) {
            Ok(count) => Pulled::Got(count),
            Err(_) => {
                self.faults = self.faults.saturating_add(1);
                Pulled::Failed
            }
        }
    }
}

/// A sink that pushes into a writer. A writer that takes nothing of a piece that is not empty has failed.
#[derive(Drop)]
pub struct WriterSink<W> {
    writer: W,
    faults: u64,
}

impl<W: Write> WriterSink<W> {
    /// A sink over a writer. Takes no memory.
    pub fn new(writer: W) -> WriterSink<W>
        ensures writer { writer_of result ≡ writer }
        ensures faults { failed_writes_of result ≡ 0 }
    {
        WriterSink { writer, faults: 0 }
    }
}

impl<W: Write> Sink for WriterSink<W> {
    ghost written = { λ s. W.contents (writer_of s) };

    ghost faults = { λ s. failed_writes_of s };

    fn push(&mut self, piece: &[u8]) -> Pushed {
        match self.writer.write(piece) {
            Ok(count) if count > 0 || piece.is_empty() => Pushed::Took(count),
            _ => {
                self.faults = self.faults.saturating_add(1);
                Pushed::Failed
            }
        }
    }
}
