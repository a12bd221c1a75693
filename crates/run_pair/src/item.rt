//! What the journals of a script keep.

ghost use Rattle.std.specs.Prelude.{IfOk};

use journal_single::BOUND;
use simplex_journal::PairFault;
use std::alloc::Global;
use test_words::{Say, Trouble, Words};
use types_core::{Read, Write, decode_cfg};

/// The bytes of the next word, `-` for none: the word has to be there.
pub(crate) fn bytes(words: &mut Words<'_>, alloc: Global) -> Result<Vec<u8>, Trouble> {
    if !words.more() {
        return Err(Trouble::Unreadable);
    }
    words.bytes(alloc)
}

/// The message that the next word spells, which can be read again.
pub(crate) fn message<M: Read + Drop>(words: &mut Words<'_>, alloc: Global) -> Result<M, Trouble>
    ensures { IfOk result (M.within 65535) }
{
    let bytes = words.bytes(alloc)?;
    match decode_cfg(alloc, &bytes, BOUND)? {
        Some(message) => Ok(message),
        None => Err(Trouble::Unreadable),
    }
}

/// Messages with a comma between two, or `-`.
pub(crate) fn say_items<M: Write>(say: &mut Say, items: &[M]) -> Result<(), Trouble> {
    let Some((first, rest)) = items.split_first() else {
        return say.none();
    };
    say.value(first)?;
    for item in rest {
        say.text(",")?;
        say.value(item)?;
    }
    Ok(())
}

/// The fault's name, and the place of a foreign entry. Where the journal was refused memory, so is the driver.
pub(crate) fn say_fault(say: &mut Say, fault: PairFault) -> Result<(), Trouble> {
    match fault {
        PairFault::Device => say.text("Device"),
        PairFault::Memory => Err(Trouble::Memory),
        PairFault::Foreign(place) => {
            say.text("Foreign ")?;
            say.number(place)
        }
        PairFault::TooLong => say.text("TooLong"),
        PairFault::Failed => say.text("Failed"),
        PairFault::Exhausted => say.text("Exhausted"),
    }
}
