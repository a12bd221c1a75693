//! Writing a generation over what the disk that is not read holds.

ghost use Rattle.std.specs.Prelude.{◌≡◌, ◌⊎◌, ◌∷◌, [], Bool, ℕ, OnOk, is_ok};
ghost use Rattle.journal_single.specs.Disk.{LeavesOnly, tallied};
ghost use Rattle.journal_single.specs.Record.{IsFixed};
ghost use Rattle.simplex_journal.specs.Generation.{IsPassed, IsPassedOrWritten};

use crate::number::MARK;
use crate::steps::{clear, put_marked};
use journal_single::{Disk, DiskFault};

/// Writes a generation over what a disk holds: these bytes, behind its first byte. A crash at any moment
/// leaves a disk that is not read beside the one that was, or the whole generation.
///
/// # Errors
///
/// A call of the disk failed.
pub fn write_generation<K: Disk>(disk: &mut K, bytes: &[u8]) -> Result<(), DiskFault>
    ensures ok { OnOk result (K.keeps → (K.seen disk.new ≡ 2 ∷ bytes.now) × IsFixed (K.seen disk.new) (K.calls disk.new)) }
    ensures any_moment { (is_first : Bool) (generation : ℕ)
        → K.keeps
        → IsFixed (K.seen disk.old) (K.calls disk.old)
        → IsPassed is_first (K.seen disk.old) generation
        → LeavesOnly (K.calls disk.old) (K.calls disk.new) (IsPassedOrWritten is_first generation bytes.now) }
    ensures cause { K.failed disk.new ≡ tallied (is_ok result) (K.failed disk.old) }
{
    clear(disk)?;
    put_marked(disk, 0, bytes, MARK)?;
    Ok(())
}
