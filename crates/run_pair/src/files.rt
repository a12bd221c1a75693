//! Disks in files.

use crate::item::bytes;
use crate::session::Session;
use journal_single::FileDisk;
use std::fs;
use std::io::{self, ErrorKind};
use test_words::{Say, Trouble, Words};
use types_core::{EncodeSize, Read};

/// `ok`, or why the system refused.
fn say_done(say: &mut Say, done: io::Result<()>) -> Result<(), Trouble> {
    match done {
        Ok(()) => say.ok(),
        Err(error) => say_reason(say, error.kind()),
    }
}

/// Why the system refused.
fn say_reason(say: &mut Say, reason: ErrorKind) -> Result<(), Trouble> {
    match reason {
        ErrorKind::NotFound => say.text("NotFound"),
        ErrorKind::OutOfMemory => Err(Trouble::Memory),
        _ => say.text("Refused"),
    }
}

/// Two disks in the files whose paths are the last words. A condition isn't met where one can't be opened.
pub(crate) fn session<M: Read + EncodeSize + Drop>(
    files: &HostRuntime,
    words: &mut Words<'_>,
) -> Result<Session<M, FileDisk>, Trouble> {
    let first = words.word();
    let second = words.word();
    words.end()?;
    let Ok(first) = FileDisk::open(files, first) else {
        return Err(Trouble::Condition);
    };
    match FileDisk::open(files, second) {
        Ok(second) => Ok(Session::new(first, second)),
        Err(_) => Err(Trouble::Condition),
    }
}

/// `file read PATH`, `file write PATH BYTES` and `file remove PATH`.
pub(crate) fn answer(
    files: &HostRuntime,
    words: &mut Words<'_>,
    say: &mut Say,
) -> Result<(), Trouble> {
    let name = words.word();
    let path = words.word();
    if name == "write" {
        let bytes = bytes(words, say.alloc)?;
        words.end()?;
        return say_done(say, fs::write(files, path, &bytes));
    }
    words.end()?;
    if name == "remove" {
        return say_done(say, fs::remove_file(files, path));
    }
    if name != "read" {
        return Err(Trouble::Unreadable);
    }
    match fs::read(files, path) {
        Ok(bytes) => say.bytes(&bytes),
        Err(error) => say_reason(say, error.kind()),
    }
}
