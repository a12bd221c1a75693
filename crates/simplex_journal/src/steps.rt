//! The steps of a record on a disk, by its bytes.

ghost use Rattle.std.specs.Prelude.{◌≡◌, ◌+◌, ◌<◌, ◌^◌, ◌++◌, ◌∷◌, [], List, ℕ, length, OnOk, is_ok};
ghost use Rattle.journal_single.specs.Disk.{LeavesOnly, tallied};
ghost use Rattle.journal_single.specs.Record.{IsFixed};
ghost use Rattle.simplex_journal.specs.Steps.{IsClosed, IsBeingBegun, IsBeingCleared, IsBeingClosed, IsBeingMarked};

use journal_single::{Disk, DiskFault};

/// Writes the closed gate of an empty disk.
///
/// # Errors
///
/// A call of the disk failed.
pub fn begin<K: Disk>(disk: &mut K) -> Result<(), DiskFault>
    requires empty { K.keeps → K.seen disk.old ≡ [] }
    ensures ok { OnOk result (K.keeps → IsClosed [] (K.seen disk.new) (K.calls disk.new) 0) }
    ensures any_moment { K.keeps → IsFixed (K.seen disk.old) (K.calls disk.old) → LeavesOnly (K.calls disk.old) (K.calls disk.new) IsBeingBegun }
    ensures cause { K.failed disk.new ≡ tallied (is_ok result) (K.failed disk.old) }
{
    disk.write_at(0, &[0])?;
    disk.sync()?;
    Ok(())
}

/// Cuts off all that a disk holds, and writes a closed gate. The cut has to be on the disk before place 0
/// is written: what stands behind it would count if the write were torn.
///
/// # Errors
///
/// A call of the disk failed.
pub fn clear<K: Disk>(disk: &mut K) -> Result<(), DiskFault>
    ensures ok { OnOk result (K.keeps → IsClosed [] (K.seen disk.new) (K.calls disk.new) 0) }
    ensures any_moment { K.keeps
        → IsFixed (K.seen disk.old) (K.calls disk.old)
        → LeavesOnly (K.calls disk.old) (K.calls disk.new) (IsBeingCleared (K.seen disk.old)) }
    ensures cause { K.failed disk.new ≡ tallied (is_ok result) (K.failed disk.old) }
{
    disk.cut(0)?;
    disk.sync()?;
    begin(disk)?;
    Ok(())
}

/// Cuts off what stands behind a gate, and closes that gate.
///
/// # Errors
///
/// A call of the disk failed.
pub fn close_gate<K: Disk>(disk: &mut K, gate: u64) -> Result<(), DiskFault>
    requires room { gate < 2 ^ 63 }
    requires some { K.keeps → gate < length (K.seen disk.old) }
    ensures ok { OnOk result ((base end : List ℕ)
        → K.keeps
        → K.seen disk.old ≡ base ++ end
        → gate ≡ length base
        → IsClosed base (K.seen disk.new) (K.calls disk.new) gate) }
    ensures any_moment { (base end : List ℕ)
        → K.keeps
        → IsFixed (K.seen disk.old) (K.calls disk.old)
        → K.seen disk.old ≡ base ++ end
        → gate ≡ length base
        → LeavesOnly (K.calls disk.old) (K.calls disk.new) (IsBeingClosed base end) }
    ensures cause { K.failed disk.new ≡ tallied (is_ok result) (K.failed disk.old) }
{
    disk.cut(gate + 1)?;
    // The cut has to be on the disk first: behind a gate that is torn open, what was there would count.
    disk.sync()?;
    disk.write_at(gate, &[0])?;
    disk.sync()?;
    Ok(())
}

/// Puts bytes behind a closed gate, and then a mark in that gate's place.
///
/// # Errors
///
/// A call of the disk failed.
pub fn put_marked<K: Disk>(disk: &mut K, gate: u64, bytes: &[u8], mark: u8) -> Result<(), DiskFault>
    requires room { gate < 2 ^ 63 }
    requires closed { K.keeps → (base : List ℕ) × IsClosed base (K.seen disk.old) (K.calls disk.old) gate }
    ensures ok { OnOk result ((base : List ℕ) → K.keeps → IsClosed base (K.seen disk.old) (K.calls disk.old) gate
        → (K.seen disk.new ≡ base ++ mark ∷ bytes.now) × IsFixed (K.seen disk.new) (K.calls disk.new)) }
    ensures any_moment { (base : List ℕ) → K.keeps → IsClosed base (K.seen disk.old) (K.calls disk.old) gate
        → LeavesOnly (K.calls disk.old) (K.calls disk.new) (IsBeingMarked base bytes.now) }
    ensures cause { K.failed disk.new ≡ tallied (is_ok result) (K.failed disk.old) }
{
    disk.write_at(gate + 1, bytes)?;
    // What stands behind a mark counts, so it has to be on the disk first.
    disk.sync()?;
    disk.write_at(gate, &[mark])?;
    disk.sync()?;
    Ok(())
}
