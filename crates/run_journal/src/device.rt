//! The calls of a disk itself.

use crate::item::bytes;
use crate::medium::Medium;
use journal_single::DiskFault;
use test_words::{Say, Trouble, Words};

/// The most bytes that a script reads at once.
const MOST: u64 = 65_535;

/// `ok`, or that the call of the disk failed.
fn say_done(say: &mut Say, done: Result<(), DiskFault>) -> Result<(), Trouble> {
    say.text(if done.is_ok() { "ok" } else { "DiskFault" })
}

/// `len`: how many bytes the disk holds.
pub(crate) fn len<K: Medium>(
    disk: &mut K,
    words: &Words<'_>,
    say: &mut Say,
) -> Result<(), Trouble> {
    words.end()?;
    match disk.len() {
        Ok(len) => say.number(len),
        Err(_) => say.text("DiskFault"),
    }
}

/// `read AT COUNT`: so many bytes from a place on.
pub(crate) fn read<K: Medium>(
    disk: &mut K,
    words: &mut Words<'_>,
    say: &mut Say,
) -> Result<(), Trouble> {
    let at = words.number()?;
    let count = words.number()?;
    words.end()?;
    let Some(end) = at.checked_add(count) else {
        return Err(Trouble::Condition);
    };
    if count > MOST || !disk.reaches(end) {
        return Err(Trouble::Condition);
    }
    let mut buffer = vec![in say.alloc; 0u8; count as usize]?;
    match disk.read(at, &mut buffer) {
        Ok(()) => say.bytes(&buffer),
        Err(_) => say.text("DiskFault"),
    }
}

/// `write_at AT BYTES`: writes bytes from a place on.
pub(crate) fn write_at<K: Medium>(
    disk: &mut K,
    words: &mut Words<'_>,
    say: &mut Say,
) -> Result<(), Trouble> {
    let at = words.number()?;
    let bytes = bytes(words, say.alloc)?;
    words.end()?;
    if !disk.reaches(at) {
        return Err(Trouble::Condition);
    }
    let done = disk.write_at(at, &bytes);
    say_done(say, done)
}

/// `cut LEN`: cuts off all behind a length.
pub(crate) fn cut<K: Medium>(
    disk: &mut K,
    words: &mut Words<'_>,
    say: &mut Say,
) -> Result<(), Trouble> {
    let len = words.number()?;
    words.end()?;
    if !disk.reaches(len) {
        return Err(Trouble::Condition);
    }
    let done = disk.cut(len);
    say_done(say, done)
}

/// `sync`: fixes what a read gives.
pub(crate) fn sync<K: Medium>(
    disk: &mut K,
    words: &Words<'_>,
    say: &mut Say,
) -> Result<(), Trouble> {
    words.end()?;
    let done = disk.sync();
    say_done(say, done)
}
