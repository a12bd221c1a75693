//! The system's files.

use crate::item::bytes;
use crate::session::Session;
use journal_single::FileDisk;
use std::fs;
use std::io::{self, ErrorKind};
use test_words::{Say, Trouble, Words};
use types_core::{EncodeSize, Read};

/// Why the system refused.
fn say_reason(say: &mut Say, reason: ErrorKind) -> Result<(), Trouble> {
    match reason {
        ErrorKind::WouldBlock => say.text("WouldBlock"),
        ErrorKind::NotFound => say.text("NotFound"),
        ErrorKind::IsADirectory => say.text("IsADirectory"),
        ErrorKind::OutOfMemory => Err(Trouble::Memory),
        _ => say.text("Refused"),
    }
}

/// `ok`, or why the system refused.
fn say_done(say: &mut Say, done: io::Result<()>) -> Result<(), Trouble> {
    match done {
        Ok(()) => say.ok(),
        Err(error) => say_reason(say, error.kind()),
    }
}

/// A disk in the file whose path is the last word. A condition isn't met where it can't be opened: `file open`
/// tells why.
pub(crate) fn session<M: Read + EncodeSize + Drop>(
    files: &HostRuntime,
    words: &mut Words<'_>,
) -> Result<Session<M, FileDisk>, Trouble> {
    let path = words.word();
    words.end()?;
    match FileDisk::open(files, path) {
        Ok(disk) => Ok(Session::new(disk)),
        Err(_) => Err(Trouble::Condition),
    }
}

/// `file write PATH BYTES`, and the calls that have a path alone.
pub(crate) fn answer(
    files: &HostRuntime,
    words: &mut Words<'_>,
    say: &mut Say,
) -> Result<(), Trouble> {
    let name = words.word();
    let path = words.word();
    if name == "write" {
        let bytes = bytes(words, say.alloc)?;
        words.end()?;
        return say_done(say, fs::write(files, path, &bytes));
    }
    words.end()?;
    match name {
        "open" => open(files, path, say),
        "read" => read(files, path, say),
        "remove" => say_done(say, fs::remove_file(files, path)),
        "make_folder" => say_done(say, fs::create_dir(files, path)),
        "remove_folder" => say_done(say, fs::remove_dir(files, path)),
        _ => Err(Trouble::Unreadable),
    }
}

/// `file open PATH`: opens a disk in the file beside whatever is open, and lets it go at once.
fn open(files: &HostRuntime, path: &str, say: &mut Say) -> Result<(), Trouble> {
    match FileDisk::open(files, path) {
        Ok(_) => say.ok(),
        Err(error) => say_reason(say, error.kind()),
    }
}

/// `file read PATH`: what the file holds.
fn read(files: &HostRuntime, path: &str, say: &mut Say) -> Result<(), Trouble> {
    match fs::read(files, path) {
        Ok(bytes) => say.bytes(&bytes),
        Err(error) => say_reason(say, error.kind()),
    }
}
