//! What a journal over two disks may answer in place of what was asked.

ghost use Rattle.std.specs.Prelude.{◌≡◌};
ghost use Rattle.simplex_journal.specs.declared.fault.PairFault.TheVariants.{Memory};

use std::alloc::{AllocError, AllocFailed};

/// Why a journal over two disks did not do what was asked.
#[derive(Clone, Copy, Debug, Drop, PartialEq, Eq)]
pub enum PairFault {
    /// A call of a disk failed.
    Device,
    /// Memory ran out.
    Memory,
    /// At this place of the disk that is read, counted in bytes from its start, stands the gate of a whole open entry
    /// whose body isn't exactly one message, or has 2^32-1 bytes.
    Foreign(u64),
    /// A body of 2^32-1 bytes or more, or one behind which the gate would stand past place 2^63-1.
    TooLong,
    /// An append or a rewrite failed for a disk, and the journal was not opened again since.
    Failed,
    /// The disk that is read is of generation 2^32-1, the last.
    Exhausted,
}

impl From<AllocError> for PairFault {
    ghost from_gives = { λ _ fault. fault ≡ Memory };

    fn from(_error: AllocError) -> PairFault {
        PairFault::Memory
    }
}

impl<T: Drop> From<AllocFailed<T>> for PairFault {
    ghost from_gives = { λ _ fault. fault ≡ Memory };

    fn from(_error: AllocFailed<T>) -> PairFault {
        PairFault::Memory
    }
}
