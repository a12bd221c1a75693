//! The calls of a disk that the script tears.

use crate::item::bytes;
use crate::session::Session;
use crate::torn_disk::TornDisk;
use std::alloc::Global;
use test_words::{Say, Trouble, Words};
use types_core::{EncodeSize, Read};

/// Such a disk, which holds the bytes of the last word.
pub(crate) fn session<M: Read + EncodeSize + Drop>(
    words: &mut Words<'_>,
    alloc: Global,
) -> Result<Session<M, TornDisk>, Trouble> {
    let bytes = bytes(words, alloc)?;
    words.end()?;
    Ok(Session::new(TornDisk::with(alloc, bytes)))
}

/// The calls of such a disk, and of the journal on it.
pub(crate) fn answer<M: Read + EncodeSize + Drop>(
    session: &mut Session<M, TornDisk>,
    name: &str,
    words: &mut Words<'_>,
    say: &mut Say,
) -> Result<(), Trouble> {
    match name {
        "stop" => stop(session, words, say),
        "crash" => crash(session, words, say),
        "calls" => calls(session, words, say),
        _ => session.answer(name, words, say),
    }
}

/// `stop CALLS BYTES`: lets so many calls through. The next fails and leaves the bytes, and each further one fails.
fn stop<M: Read + EncodeSize + Drop>(
    session: &mut Session<M, TornDisk>,
    words: &mut Words<'_>,
    say: &mut Say,
) -> Result<(), Trouble> {
    let calls = words.number()?;
    let left = bytes(words, say.alloc)?;
    words.end()?;
    session.disk()?.stop_after(calls, left);
    say.ok()
}

/// `crash BYTES`: a crash, which takes the journal and leaves the bytes.
fn crash<M: Read + EncodeSize + Drop>(
    session: &mut Session<M, TornDisk>,
    words: &mut Words<'_>,
    say: &mut Say,
) -> Result<(), Trouble> {
    let left = bytes(words, say.alloc)?;
    words.end()?;
    session.close();
    session.disk()?.crash(left);
    say.ok()
}

/// `calls`: the calls of the disk since they were told last, while no journal is open.
fn calls<M: Read + EncodeSize + Drop>(
    session: &mut Session<M, TornDisk>,
    words: &Words<'_>,
    say: &mut Say,
) -> Result<(), Trouble> {
    words.end()?;
    session.disk()?.say_calls(say)
}
