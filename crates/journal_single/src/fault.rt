//! What a journal may answer in place of what was asked.

ghost use Rattle.std.specs.Prelude.{◌≡◌};
ghost use Rattle.journal_single.specs.declared.fault.JournalFault.TheVariants.{Memory};

use std::alloc::{AllocError, AllocFailed};

/// Why a journal did not do what was asked.
#[derive(Clone, Copy, Debug, Drop, PartialEq, Eq)]
pub enum JournalFault {
    /// A call of the disk failed.
    Device,
    /// Memory ran out.
    Memory,
    /// At this place, counted in bytes from the disk's start, stands the gate of a whole open entry whose
    /// body isn't exactly one message.
    Foreign(u64),
    /// A body of 2^32 bytes or more, or one behind which the gate would stand past place 2^63-1.
    TooLong,
    /// An append failed for the disk, and the journal was not opened again since.
    Failed,
}

impl From<AllocError> for JournalFault {
    ghost from_gives = { λ _ fault. fault ≡ Memory };

    fn from(_error: AllocError) -> JournalFault {
        JournalFault::Memory
    }
}

impl<T: Drop> From<AllocFailed<T>> for JournalFault {
    ghost from_gives = { λ _ fault. fault ≡ Memory };

    fn from(_error: AllocFailed<T>) -> JournalFault {
        JournalFault::Memory
    }
}
