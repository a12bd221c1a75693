//! Readers and writers of the standard library, with their faults counted.

ghost use Rattle.std.specs.Prelude.{◌≡◌, Some, false, true};
ghost use Rattle.journal_single.specs.Disk.{counted};

use crate::streams::{Sink, Source, StreamFault};
use std::io;
use std::io::{Read, Write};
use std::marker::Model;

/// The calls that may be interrupted, one behind another, before that is a fault.
const MOST_TRIES: u64 = 4_294_967_296;

/// A reader, and how often reading it failed. A read that is interrupted is tried again.
#[derive(Drop)]
pub struct CountedReader<R> {
    reader: R,
    failures: u64,
}

impl<R> Model for CountedReader<R> {
    ghost use Rattle.node_wire.specs.Counted.{ReaderTold};

    ghost Value = { ReaderTold R };

    ghost view = { λ counted. record { inner = counted.reader; failures = counted.failures } };
}

impl<R: Read> CountedReader<R> {
    /// No read has failed yet.
    pub fn new(reader: R) -> Self
        ensures { result ≡ record { inner = reader; failures = 0 } }
    {
        CountedReader {
            reader,
            failures: 0,
        }
    }

    /// The reader alone.
    pub fn into_inner(self) -> R
        ensures { result ≡ self.inner }
    {
        self.reader
    }

    /// A fault, which is counted.
    fn fault(&mut self) -> StreamFault
        ensures { self.new ≡ record self.old { failures = counted false self.old.failures } }
    {
        self.failures = self.failures.saturating_add(1);
        StreamFault
    }
}

impl<R: Read> Source for CountedReader<R> {
    ghost remaining = { λ counted. R.remaining counted.inner };

    ghost failed = { λ counted. counted.failures };

    fn failures(&self) -> u64 {
        self.failures
    }

    fn read(&mut self, piece: &mut [u8]) -> Result<usize, StreamFault> {
        for _ in 0..MOST_TRIES {
            match self.reader.read(piece) {
                Ok(count) => return Ok(count),
                Err(error) if error.kind() == io::ErrorKind::Interrupted => {}
                Err(_) => return Err(self.fault()),
            }
        }
        Err(self.fault())
    }
}

/// Bytes in memory: no read of them fails.
impl Source for &[u8] {
    ghost remaining = { λ bytes. Some bytes.now };

    ghost failed = { λ _. 0 };

    fn failures(&self) -> u64 {
        0
    }

    fn read(&mut self, piece: &mut [u8]) -> Result<usize, StreamFault> {
        let all: &[u8] = *self;
        let count = all.len().min(piece.len());
        piece[..count].copy_from_slice(&all[..count]);
        *self = &all[count..];
        Ok(count)
    }
}

/// A writer, how often writing to it or flushing it failed, and whether anything was written since the last flush that succeeded.
/// A write that is interrupted is tried again; one that takes nothing has failed.
#[derive(Drop)]
pub struct CountedWriter<W> {
    writer: W,
    failures: u64,
    is_flushed: bool,
}

impl<W> Model for CountedWriter<W> {
    ghost use Rattle.node_wire.specs.Counted.{WriterTold};

    ghost Value = { WriterTold W };

    ghost view = { λ counted. record { inner = counted.writer; failures = counted.failures; is_flushed = counted.is_flushed } };
}

impl<W: Write> CountedWriter<W> {
    /// No write has failed yet.
    pub fn new(writer: W) -> Self
        ensures { result ≡ record { inner = writer; failures = 0; is_flushed = true } }
    {
        CountedWriter {
            writer,
            failures: 0,
            is_flushed: true,
        }
    }

    /// The writer alone.
    pub fn into_inner(self) -> W
        ensures { result ≡ self.inner }
    {
        self.writer
    }

    /// A fault, which is counted.
    fn fault(&mut self) -> StreamFault
        ensures { self.new ≡ record self.old { failures = counted false self.old.failures } }
    {
        self.failures = self.failures.saturating_add(1);
        StreamFault
    }
}

impl<W: Write> Sink for CountedWriter<W> {
    ghost contents = { λ counted. W.contents counted.inner };

    ghost is_flushed = { λ counted. counted.is_flushed ≡ true };

    ghost failed = { λ counted. counted.failures };

    fn failures(&self) -> u64 {
        self.failures
    }

    fn write(&mut self, bytes: &[u8]) -> Result<usize, StreamFault> {
        self.is_flushed = false;
        for _ in 0..MOST_TRIES {
            match self.writer.write(bytes) {
                Ok(0) => return Err(self.fault()),
                Ok(count) => return Ok(count),
                Err(error) if error.kind() == io::ErrorKind::Interrupted => {}
                Err(_) => return Err(self.fault()),
            }
        }
        Err(self.fault())
    }

    fn flush(&mut self) -> Result<(), StreamFault> {
        match self.writer.flush() {
            Ok(()) => {
                self.is_flushed = true;
                Ok(())
            }
            Err(_) => Err(self.fault()),
        }
    }
}
