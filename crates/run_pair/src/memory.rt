//! Disks in memory.

use crate::item::bytes;
use crate::pair_history;
use crate::session::Session;
use journal_single::MemoryDisk;
use std::alloc::Global;
use test_words::{Say, Trouble, Words};
use types_core::{EncodeSize, Read};

/// A disk in memory that holds these bytes.
fn disk(alloc: Global, bytes: &[u8]) -> Result<MemoryDisk, Trouble> {
    if bytes.is_empty() {
        return Ok(MemoryDisk::new(alloc));
    }
    Ok(MemoryDisk::with(alloc, bytes)?)
}

/// Two disks in memory that hold the bytes of the last two words.
pub(crate) fn session<M: Read + EncodeSize + Drop>(
    words: &mut Words<'_>,
    alloc: Global,
) -> Result<Session<M, MemoryDisk>, Trouble> {
    let first = bytes(words, alloc)?;
    let second = bytes(words, alloc)?;
    words.end()?;
    Ok(Session::new(disk(alloc, &first)?, disk(alloc, &second)?))
}

/// The calls of two disks in memory, and of the journal on them.
pub(crate) fn answer<M: Read + EncodeSize + Drop>(
    session: &mut Session<M, MemoryDisk>,
    name: &str,
    words: &mut Words<'_>,
    say: &mut Say,
) -> Result<(), Trouble> {
    match name {
        "fuse" | "fail_at" => plan(session, name, words, say),
        "bytes" => held(session, words, say),
        "run" => pair_history::answer(session, words, say),
        _ => session.answer(name, words, say),
    }
}

/// `fuse DISK CALLS`: lets so many calls of the disk through, and has every later one fail. `fail_at DISK CALLS`: has
/// the call behind so many others fail.
fn plan<M: Read + EncodeSize + Drop>(
    session: &mut Session<M, MemoryDisk>,
    name: &str,
    words: &mut Words<'_>,
    say: &mut Say,
) -> Result<(), Trouble> {
    let which = words.number()?;
    let calls = words.number()?;
    words.end()?;
    let disks = session.disks()?;
    let disk = match which {
        1 => &mut disks.0,
        2 => &mut disks.1,
        _ => return Err(Trouble::Unreadable),
    };
    if name == "fuse" {
        disk.fuse(calls);
    } else {
        disk.fail_at(calls);
    }
    say.ok()
}

/// `bytes`: what both disks hold, while no journal is open.
fn held<M: Read + EncodeSize + Drop>(
    session: &mut Session<M, MemoryDisk>,
    words: &Words<'_>,
    say: &mut Say,
) -> Result<(), Trouble> {
    words.end()?;
    let disks = session.disks()?;
    say.bytes(disks.0.bytes())?;
    say.gap()?;
    say.bytes(disks.1.bytes())
}
