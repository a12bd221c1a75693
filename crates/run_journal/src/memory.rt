//! The calls of a disk in memory.

use crate::history;
use crate::item::bytes;
use crate::session::Session;
use journal_single::{Crash, MemoryDisk};
use std::alloc::Global;
use test_words::{Say, Trouble, Words};
use types_core::{EncodeSize, Read};

/// A disk in memory that holds the bytes of the last word.
pub(crate) fn session<M: Read + EncodeSize + Drop>(
    words: &mut Words<'_>,
    alloc: Global,
) -> Result<Session<M, MemoryDisk>, Trouble> {
    let bytes = bytes(words, alloc)?;
    words.end()?;
    if bytes.is_empty() {
        return Ok(Session::new(MemoryDisk::new(alloc)));
    }
    Ok(Session::new(MemoryDisk::with(alloc, &bytes)?))
}

/// `finds BYTES`: what an opening of a disk that holds these bytes finds, and what it leaves.
pub(crate) fn finds<M: Read + EncodeSize + Drop>(
    words: &mut Words<'_>,
    say: &mut Say,
) -> Result<(), Trouble> {
    found_and_left(&mut session::<M>(words, say.alloc)?, say)
}

fn found_and_left<M: Read + EncodeSize + Drop>(
    session: &mut Session<M, MemoryDisk>,
    say: &mut Say,
) -> Result<(), Trouble> {
    session.open(say)?;
    session.close();
    say.text(" left ")?;
    session.bytes(say)
}

/// The calls of a disk in memory, and of the journal on it.
pub(crate) fn answer<M: Read + EncodeSize + Drop>(
    session: &mut Session<M, MemoryDisk>,
    name: &str,
    words: &mut Words<'_>,
    say: &mut Say,
) -> Result<(), Trouble> {
    match name {
        "fuse" => fuse(session, words, say),
        "fail_at" => fail_at(session, words, say),
        "crash" => crash(session, words, say),
        "run" => history::answer(session, words, say),
        _ => session.answer(name, words, say),
    }
}

/// `fuse CALLS`: lets so many calls of the disk through, and has every later one fail.
fn fuse<M: Read + EncodeSize + Drop>(
    session: &mut Session<M, MemoryDisk>,
    words: &mut Words<'_>,
    say: &mut Say,
) -> Result<(), Trouble> {
    let calls = words.number()?;
    words.end()?;
    session.disk()?.fuse(calls);
    say.ok()
}

/// `fail_at CALLS`: has the call of the disk behind so many others fail.
fn fail_at<M: Read + EncodeSize + Drop>(
    session: &mut Session<M, MemoryDisk>,
    words: &mut Words<'_>,
    say: &mut Say,
) -> Result<(), Trouble> {
    let calls = words.number()?;
    words.end()?;
    session.disk()?.fail_at(calls);
    say.ok()
}

/// `crash`: a crash of the process, which takes the journal and leaves all that was written.
fn crash<M: Read + EncodeSize + Drop>(
    session: &mut Session<M, MemoryDisk>,
    words: &Words<'_>,
    say: &mut Say,
) -> Result<(), Trouble> {
    words.end()?;
    session.close();
    session.disk()?.crash();
    say.ok()
}
