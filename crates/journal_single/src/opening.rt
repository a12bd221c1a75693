//! The steps of an opening.

ghost use Rattle.std.specs.Prelude.{◌≡◌, ◌≢◌, ◌+◌, ◌<◌, ◌≤◌, ◌^◌, List, ℕ, length, map, [], ◌∷◌, All, IfErr, IfOk, OnOk, OnErr, is_ok, IsErrOf, true, false, ◌⊎◌};
ghost use Rattle.types_codec.specs.Codec.{Readable};
ghost use Rattle.journal_single.specs.declared.fault.JournalFault.TheVariants.{Device, Foreign, Memory};
ghost use Rattle.journal_single.specs.Disk.{LeavesOnly, Synced, tallied};
ghost use Rattle.journal_single.specs.Looking.{IsAtMostSynced};
ghost use Rattle.journal_single.specs.Record.{Reads, IsForeign, IsFound, IsFixed, IsAtRest};

use crate::disk::{Disk, DiskFault};
use crate::entries::{BOUND, Entries, read_entries};
use crate::fault::JournalFault;
use std::alloc::Global;
use types_core::Read;

/// Cuts behind the last gate, and closes it.
fn repair<K: Disk>(disk: &mut K, gate: u64) -> Result<(), DiskFault>
    requires room { gate < 2 ^ 63 }
    requires found { K.keeps → (bodies : List (List ℕ)) × IsFound [] (K.seen disk.old) gate bodies }
    requires some { K.keeps → gate < length (K.seen disk.old) }
    ensures ok { OnOk result ((bodies : List (List ℕ))
        → K.keeps
        → IsFixed (K.seen disk.old) (K.calls disk.old)
        → IsFound [] (K.seen disk.old) gate bodies
        → IsAtRest [] (K.seen disk.new) (K.calls disk.new) gate bodies) }
    ensures any_moment { (bodies : List (List ℕ)) → K.keeps → IsFixed (K.seen disk.old) (K.calls disk.old) → IsFound [] (K.seen disk.old) gate bodies
        → LeavesOnly (K.calls disk.old) (K.calls disk.new) (λ image. Reads image bodies) }
    ensures cause { K.failed disk.new ≡ tallied (is_ok result) (K.failed disk.old) }
{
    disk.cut(gate + 1)?;
    // The cut has to be on the disk first: behind a gate that is torn open, what was there would count.
    disk.sync()?;
    disk.write_at(gate, &[0])?;
    disk.sync()?;
    Ok(())
}

/// Writes the first gate of an empty disk.
fn begin<K: Disk>(disk: &mut K) -> Result<(), DiskFault>
    requires empty { K.keeps → K.seen disk.old ≡ [] }
    ensures ok { OnOk result (K.keeps → IsAtRest [] (K.seen disk.new) (K.calls disk.new) 0 []) }
    ensures any_moment { K.keeps
        → IsFixed (K.seen disk.old) (K.calls disk.old)
        → LeavesOnly (K.calls disk.old) (K.calls disk.new) (λ image. Reads image []) }
    ensures cause { K.failed disk.new ≡ tallied (is_ok result) (K.failed disk.old) }
{
    disk.write_at(0, &[0])?;
    disk.sync()?;
    Ok(())
}

/// Reads all that a disk holds, and asks no more of it.
///
/// # Errors
///
/// [`JournalFault::Device`] and [`JournalFault::Memory`].
pub fn read_disk<K: Disk>(alloc: Global, disk: &mut K) -> Result<Vec<u8>, JournalFault>
    ensures bytes { IfOk result (λ bytes. K.keeps → bytes.items ≡ K.seen disk.old) }
    ensures seen { OnOk result (K.keeps → K.seen disk.new ≡ K.seen disk.old) }
    ensures seen_of_others { IfErr result (λ fault. fault ≢ Device → K.keeps → K.seen disk.new ≡ K.seen disk.old) }
    ensures calls { K.keeps → K.calls disk.new ≡ K.calls disk.old }
    ensures device { IsErrOf result JournalFault.Device → K.failed disk.new ≡ tallied false (K.failed disk.old) }
    ensures no_fault { OnOk result (K.failed disk.new ≡ K.failed disk.old) }
    ensures no_fault_of_others { IfErr result (λ fault. fault ≢ Device → K.failed disk.new ≡ K.failed disk.old) }
    ensures faults { IfErr result (λ fault. (fault ≡ Device) ⊎ (fault ≡ Memory)) }
{
    let Ok(len) = disk.len() else {
        return Err(JournalFault::Device);
    };
    let Ok(size) = usize::try_from(len) else {
        return Err(JournalFault::Memory);
    };
    let Ok(mut bytes) = vec![in alloc; 0u8; size] else {
        return Err(JournalFault::Memory);
    };
    match disk.read(0, &mut bytes) {
        Ok(()) => Ok(bytes),
        Err(_) => Err(JournalFault::Device),
    }
}

/// Closes the last gate, or writes the first one.
pub(crate) fn finish<K: Disk>(disk: &mut K, gate: u64, is_empty: bool) -> Result<(), DiskFault>
    requires room { gate < 2 ^ 63 }
    requires found { K.keeps → (bodies : List (List ℕ)) × IsFound [] (K.seen disk.old) gate bodies }
    requires some { K.keeps → is_empty ≡ false → gate < length (K.seen disk.old) }
    requires none { K.keeps → is_empty ≡ true → K.seen disk.old ≡ [] }
    ensures ok { OnOk result ((bodies : List (List ℕ))
        → K.keeps
        → IsFixed (K.seen disk.old) (K.calls disk.old)
        → IsFound [] (K.seen disk.old) gate bodies
        → IsAtRest [] (K.seen disk.new) (K.calls disk.new) gate bodies) }
    ensures any_moment { (bodies : List (List ℕ)) → K.keeps → IsFixed (K.seen disk.old) (K.calls disk.old) → IsFound [] (K.seen disk.old) gate bodies
        → LeavesOnly (K.calls disk.old) (K.calls disk.new) (λ image. Reads image bodies) }
    ensures cause { K.failed disk.new ≡ tallied (is_ok result) (K.failed disk.old) }
{
    if is_empty {
        match begin(disk) {
            Ok(()) => return Ok(()),
            Err(fault) => return Err(fault),
        }
    }
    match repair(disk, gate) {
        Ok(()) => Ok(()),
        Err(fault) => Err(fault),
    }
}

/// Syncs a disk and reads its record, and asks no more of it. Answers how many bytes it holds, too.
pub(crate) fn read_record<M: Read + Drop, K: Disk>(
    alloc: Global,
    disk: &mut K,
) -> Result<(Entries<M>, usize), JournalFault>
    ensures found { IfOk result (λ read. K.keeps → IsFound [] (K.seen disk.old) read.0.gate (map M.spelling read.0.messages.items)) }
    ensures fitting { IfOk result (λ read. All (Readable M.fits (M.within BOUND)) read.0.messages.items) }
    ensures size { IfOk result (λ read. K.keeps → read.1 ≡ length (K.seen disk.old)) }
    ensures room { IfOk result (λ read. read.0.gate < 2 ^ 63) }
    ensures seen { OnOk result (K.keeps → K.seen disk.new ≡ K.seen disk.old) }
    ensures fixed { OnOk result (K.keeps → K.calls disk.new ≡ Synced (K.seen disk.old) ∷ K.calls disk.old) }
    ensures asked { OnErr result (K.keeps → IsAtMostSynced (K.seen disk.old) (K.calls disk.old) (K.calls disk.new)) }
    ensures seen_of_others { IfErr result (λ fault. fault ≢ Device → K.keeps → K.seen disk.new ≡ K.seen disk.old) }
    ensures fixed_of_others { IfErr result (λ fault. fault ≢ Device → K.keeps → K.calls disk.new ≡ Synced (K.seen disk.old) ∷ K.calls disk.old) }
    ensures device { IsErrOf result JournalFault.Device → K.failed disk.new ≡ tallied false (K.failed disk.old) }
    ensures no_fault { OnOk result (K.failed disk.new ≡ K.failed disk.old) }
    ensures no_fault_of_others { IfErr result (λ fault. fault ≢ Device → K.failed disk.new ≡ K.failed disk.old) }
    ensures foreign { IfErr result (λ fault.
        (place : ℕ) → fault ≡ Foreign place → K.keeps → IsForeign [] (Readable M.fits (M.within BOUND)) M.spelling (K.seen disk.old) place) }
    ensures faults { IfErr result (λ fault. (fault ≡ Device) ⊎ ((fault ≡ Memory) ⊎ ((place : ℕ) × (fault ≡ Foreign place)))) }
{
    // What was found may go on only once it is fixed, or a crash could still take it back.
    match disk.sync() {
        Ok(()) => {}
        Err(_) => return Err(JournalFault::Device),
    }
    let bytes = match read_disk(alloc, disk) {
        Ok(bytes) => bytes,
        Err(fault) => return Err(fault),
    };
    match read_entries(alloc, &bytes) {
        Ok(entries) => Ok((entries, bytes.len())),
        Err(fault) => Err(fault),
    }
}
