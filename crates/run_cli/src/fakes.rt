//! Streams that move little at a time, end early, or fail once.

use std::alloc::Global;
use std::io;
use std::io::{Read, Write};
use test_words::{Trouble, Words};

/// A failure that comes once, after so many calls, if it comes.
#[derive(Clone, Copy)]
struct Fault {
    calls_left: Option<u64>,
    kind: io::ErrorKind,
}

impl Fault {
    /// None comes.
    fn never() -> Self {
        Fault {
            calls_left: None,
            kind: io::ErrorKind::Other,
        }
    }

    /// `never`, or `KIND CALLS`.
    fn read(words: &mut Words<'_>) -> Result<Self, Trouble> {
        match words.word() {
            "never" => Ok(Fault::never()),
            word => {
                let kind = kind_of(word)?;
                let calls_left = Some(words.number()?);
                Ok(Fault { calls_left, kind })
            }
        }
    }

    /// Fails if it is this call's turn.
    fn call(&mut self) -> io::Result<()> {
        match self.calls_left {
            Some(0) => {
                self.calls_left = None;
                Err(io::Error::from(self.kind))
            }
            Some(calls) => {
                self.calls_left = Some(calls - 1);
                Ok(())
            }
            None => Ok(()),
        }
    }
}

/// How a stream behaves.
#[derive(Clone, Copy)]
pub(crate) struct Manner {
    /// How many bytes a call moves at most.
    size: usize,
    /// How many bytes there are, or have room, at most.
    room: usize,
    fault: Fault,
}

impl Manner {
    /// All is moved at once, and nothing fails.
    pub(crate) fn whole() -> Self {
        Manner {
            size: usize::MAX,
            room: usize::MAX,
            fault: Fault::never(),
        }
    }

    /// `SIZE ROOM FAULT`.
    pub(crate) fn read(words: &mut Words<'_>) -> Result<Self, Trouble> {
        let size = bound(words)?;
        let room = bound(words)?;
        let fault = Fault::read(words)?;
        words.end()?;
        if size == 0 {
            return Err(Trouble::Unreadable);
        }
        Ok(Manner { size, room, fault })
    }
}

/// A number, or `-` for no bound.
fn bound(words: &mut Words<'_>) -> Result<usize, Trouble> {
    match words.optional()? {
        Some(number) => Ok(number as usize),
        None => Ok(usize::MAX),
    }
}

/// The kind of error that a word names.
pub(crate) fn kind_of(word: &str) -> Result<io::ErrorKind, Trouble> {
    match word {
        "interrupted" => Ok(io::ErrorKind::Interrupted),
        "other" => Ok(io::ErrorKind::Other),
        "would-block" => Ok(io::ErrorKind::WouldBlock),
        "broken-pipe" => Ok(io::ErrorKind::BrokenPipe),
        "out-of-memory" => Ok(io::ErrorKind::OutOfMemory),
        "invalid-data" => Ok(io::ErrorKind::InvalidData),
        _ => Err(Trouble::Unreadable),
    }
}

/// Gives bytes in such a manner.
#[derive(Drop)]
pub(crate) struct FakeReader<'a> {
    rest: &'a [u8],
    size: usize,
    fault: Fault,
}

impl<'a> FakeReader<'a> {
    pub(crate) fn new(bytes: &'a [u8], manner: Manner) -> Self {
        FakeReader {
            rest: bytes.get(..manner.room).unwrap_or(bytes),
            size: manner.size,
            fault: manner.fault,
        }
    }

    /// How many bytes were not read.
    pub(crate) fn left(&self) -> usize {
        self.rest.len()
    }
}

impl Read for FakeReader<'_> {
    fn read(&mut self, buffer: &mut [u8]) -> io::Result<usize> {
        self.fault.call()?;
        let count = buffer.len().min(self.size).min(self.rest.len());
        let (front, behind) = self.rest.split_at(count);
        buffer[..count].copy_from_slice(front);
        self.rest = behind;
        Ok(count)
    }
}

/// Takes bytes in such a manner.
#[derive(Drop)]
pub(crate) struct FakeWriter {
    taken: Vec<u8>,
    manner: Manner,
}

impl FakeWriter {
    pub(crate) fn new(alloc: Global, manner: Manner) -> Self {
        FakeWriter {
            taken: Vec::new(alloc),
            manner,
        }
    }

    /// What was written.
    pub(crate) fn taken(&self) -> &[u8] {
        self.taken.as_slice()
    }
}

impl Write for FakeWriter {
    fn write(&mut self, bytes: &[u8]) -> io::Result<usize> {
        self.manner.fault.call()?;
        let room = self.manner.room.saturating_sub(self.taken.len());
        let count = bytes.len().min(self.manner.size).min(room);
        self.taken.extend_from_slice(&bytes[..count])?;
        Ok(count)
    }

    fn flush(&mut self) -> io::Result<()> {
        self.manner.fault.call()
    }
}
