//! The steps of an opening.

ghost use Rattle.std.specs.Prelude.{◌≡◌, ◌≢◌, ◌+◌, ◌-◌, ◌<◌, ◌≤◌, ◌^◌, ◌⊎◌, ◌∷◌, List, ℕ, length, map, [], All, IfErr, IfOk, OnOk, OnErr, is_ok, IsErrOf, true, false};
ghost use Rattle.types_codec.specs.Codec.{Readable};
ghost use Rattle.simplex_journal.specs.declared.fault.PairFault.TheVariants.{Device, Foreign, Memory};
ghost use Rattle.journal_single.specs.Disk.{MayLeave, LeavesOnly, Synced, tallied};
ghost use Rattle.journal_single.specs.Record.{IsFixed, FitsBelow};
ghost use Rattle.simplex_journal.specs.Generation.{OneCounted};
ghost use Rattle.simplex_journal.specs.Leaving.{LeavesReading};
ghost use Rattle.simplex_journal.specs.PairLooking.{AreLeftAsTheyWere, IsPairFound};
ghost use Rattle.simplex_journal.specs.Reading.{ReadsAs, ReadsPair, IsFoundOf, IsForeignOf, IsForeignPair, IsAtRestOf, IsPairAtRest, BothLeaveOnly, IsPairReopened};

use crate::choosing::is_first_read;
use crate::fault::PairFault;
use crate::number::record_in;
use crate::spelling::TOO_LONG;
use crate::steps::{begin, close_gate};
use journal_single::{BOUND, Disk, DiskFault, JournalFault, read_disk, read_entries_below};
use std::alloc::Global;
use types_core::Read;

/// The record of a disk, and where it stands.
#[derive(Drop)]
pub(crate) struct Found<M> {
    pub(crate) messages: Vec<M>,
    pub(crate) generation: u32,
    pub(crate) gate: u64,
}

/// Closes the last gate, or writes the first one.
fn finish<K: Disk>(disk: &mut K, gate: u64, is_empty: bool) -> Result<(), DiskFault>
    requires room { gate < 2 ^ 63 }
    requires some { K.keeps → is_empty ≡ false → gate < length (K.seen disk.old) }
    requires none { K.keeps → is_empty ≡ true → K.seen disk.old ≡ [] }
    ensures ok { OnOk result ((g : ℕ) (bodies : List (List ℕ))
        → K.keeps
        → IsFoundOf g (K.seen disk.old) gate bodies
        → IsAtRestOf g (K.seen disk.new) (K.calls disk.new) gate bodies) }
    ensures any_moment { (g : ℕ) (bodies : List (List ℕ))
        → K.keeps
        → IsFixed (K.seen disk.old) (K.calls disk.old)
        → IsFoundOf g (K.seen disk.old) gate bodies
        → LeavesOnly (K.calls disk.old) (K.calls disk.new) (λ image. ReadsAs image g bodies) }
    ensures cause { K.failed disk.new ≡ tallied (is_ok result) (K.failed disk.old) }
{
    if is_empty {
        return begin(disk);
    }
    close_gate(disk, gate)
}

/// Reads the record of a disk.
fn read_record<M: Read + Drop, K: Disk>(
    alloc: Global,
    disk: &mut K,
) -> Result<(Found<M>, bool), PairFault>
    ensures found { IfOk result (λ read. K.keeps → IsFoundOf read.0.generation (K.seen disk.old) read.0.gate (map M.spelling read.0.messages.items)) }
    ensures fitting { IfOk result (λ read. All (FitsBelow (2 ^ 32 - 1) (Readable M.fits (M.within BOUND)) M.spelling) read.0.messages.items) }
    ensures room { IfOk result (λ read. read.0.gate < 2 ^ 63) }
    ensures some { IfOk result (λ read. K.keeps → read.1 ≡ false → read.0.gate < length (K.seen disk.old)) }
    ensures none { IfOk result (λ read. K.keeps → read.1 ≡ true → K.seen disk.old ≡ []) }
    ensures seen { OnOk result (K.keeps → K.seen disk.new ≡ K.seen disk.old) }
    ensures seen_of_others { IfErr result (λ fault. fault ≢ Device → K.keeps → K.seen disk.new ≡ K.seen disk.old) }
    ensures calls { K.keeps → K.calls disk.new ≡ K.calls disk.old }
    ensures device { IsErrOf result PairFault.Device → K.failed disk.new ≡ tallied false (K.failed disk.old) }
    ensures no_fault { OnOk result (K.failed disk.new ≡ K.failed disk.old) }
    ensures no_fault_of_others { IfErr result (λ fault. fault ≢ Device → K.failed disk.new ≡ K.failed disk.old) }
    ensures foreign { IfErr result (λ fault.
        (place : ℕ)
        → fault ≡ Foreign place
        → K.keeps
        → (g : ℕ) × IsForeignOf (FitsBelow (2 ^ 32 - 1) (Readable M.fits (M.within BOUND)) M.spelling) M.spelling (K.seen disk.old) g place) }
    ensures faults { IfErr result (λ fault. (fault ≡ Device) ⊎ ((fault ≡ Memory) ⊎ ((place : ℕ) × (fault ≡ Foreign place)))) }
{
    let bytes = match read_disk(alloc, disk) {
        Ok(bytes) => bytes,
        Err(JournalFault::Device) => return Err(PairFault::Device),
        Err(_) => return Err(PairFault::Memory),
    };
    let (generation, record) = record_in(&bytes);
    let start = (bytes.len() - record.len()) as u64;
    match read_entries_below(alloc, record, TOO_LONG) {
        Ok(entries) => {
            let found = Found {
                messages: entries.messages,
                generation,
                gate: start + entries.gate as u64,
            };
            Ok((found, bytes.is_empty()))
        }
        Err(JournalFault::Foreign(place)) => Err(PairFault::Foreign(start + place)),
        Err(_) => Err(PairFault::Memory),
    }
}

/// Syncs two disks: what was found may go on only once it is fixed, or a crash could still take it back.
fn sync_both<K: Disk>(first: &mut K, second: &mut K) -> Result<(), DiskFault>
    ensures fixed { OnOk result (K.keeps
        → (K.calls first.new ≡ Synced (K.seen first.old) ∷ K.calls first.old) ×
        (K.calls second.new ≡ Synced (K.seen second.old) ∷ K.calls second.old)) }
    ensures seen { OnOk result (K.keeps → (K.seen first.new ≡ K.seen first.old) × (K.seen second.new ≡ K.seen second.old)) }
    ensures first_left { K.keeps → LeavesOnly (K.calls first.old) (K.calls first.new) (MayLeave (K.calls first.old)) }
    ensures second_left { K.keeps → LeavesOnly (K.calls second.old) (K.calls second.new) (MayLeave (K.calls second.old)) }
    ensures cause { OneCounted (is_ok result) (K.failed first.old) (K.failed first.new) (K.failed second.old) (K.failed second.new) }
{
    first.sync()?;
    second.sync()?;
    Ok(())
}

/// Syncs two disks, chooses the one that is read, and reads its record. Answers it, whether the first disk
/// was chosen, and whether the chosen one is empty.
pub(crate) fn look_at_disks<M: Read + Drop, K: Disk>(
    alloc: Global,
    first: &mut K,
    second: &mut K,
) -> Result<(Found<M>, bool, bool), PairFault>
    ensures found { IfOk result (λ looked.
        K.keeps
        → IsPairFound looked.1 looked.0.generation (K.seen first.new) (K.calls first.new) (K.seen second.new) (K.calls second.new)
        looked.0.gate looked.2 (map M.spelling looked.0.messages.items)) }
    ensures fitting { IfOk result (λ looked. All (FitsBelow (2 ^ 32 - 1) (Readable M.fits (M.within BOUND)) M.spelling) looked.0.messages.items) }
    ensures reading { IfOk result (λ looked. K.keeps → ReadsPair (K.seen first.old) (K.seen second.old) (map M.spelling looked.0.messages.items)) }
    // After a crash at any moment both read as something that a crash before the call might have left of both.
    ensures any_moment { K.keeps
        → BothLeaveOnly (K.calls first.old) (K.calls first.new) (K.calls second.old) (K.calls second.new)
        (IsPairReopened (K.calls first.old) (K.calls second.old)) }
    ensures room { IfOk result (λ looked. looked.0.gate < 2 ^ 63) }
    ensures untouched { OnOk result (K.keeps → AreLeftAsTheyWere K.seen K.calls first.old second.old first.new second.new) }
    ensures untouched_by_others { IfErr result
        (λ fault. fault ≢ Device → K.keeps → AreLeftAsTheyWere K.seen K.calls first.old second.old first.new second.new) }
    ensures device { IsErrOf result PairFault.Device
        → OneCounted false (K.failed first.old) (K.failed first.new) (K.failed second.old) (K.failed second.new) }
    ensures no_fault { OnOk result ((K.failed first.new ≡ K.failed first.old) × (K.failed second.new ≡ K.failed second.old)) }
    ensures no_fault_of_others { IfErr result
        (λ fault. fault ≢ Device → (K.failed first.new ≡ K.failed first.old) × (K.failed second.new ≡ K.failed second.old)) }
    ensures foreign { IfErr result (λ fault.
        (place : ℕ)
        → fault ≡ Foreign place
        → K.keeps
        → IsForeignPair (FitsBelow (2 ^ 32 - 1) (Readable M.fits (M.within BOUND)) M.spelling) M.spelling (K.seen first.old)
        (K.seen second.old) place) }
    ensures faults { IfErr result (λ fault. (fault ≡ Device) ⊎ ((fault ≡ Memory) ⊎ ((place : ℕ) × (fault ≡ Foreign place)))) }
{
    if sync_both(first, second).is_err() {
        return Err(PairFault::Device);
    }
    let Ok(is_first) = is_first_read(first, second) else {
        return Err(PairFault::Device);
    };
    if is_first {
        return match read_record(alloc, first) {
            Ok((found, is_empty)) => Ok((found, true, is_empty)),
            Err(fault) => Err(fault),
        };
    }
    match read_record(alloc, second) {
        Ok((found, is_empty)) => Ok((found, false, is_empty)),
        Err(fault) => Err(fault),
    }
}

/// Closes the last gate of the disk that is read, or writes its first one.
pub(crate) fn finish_chosen<K: Disk>(
    first: &mut K,
    second: &mut K,
    is_first: bool,
    gate: u64,
    is_empty: bool,
) -> Result<(), DiskFault>
    requires room { gate < 2 ^ 63 }
    requires found { K.keeps
        → (g : ℕ) × (bodies : List (List ℕ)) × IsPairFound is_first g (K.seen first.old) (K.calls first.old) (K.seen second.old)
        (K.calls second.old) gate is_empty bodies }
    ensures ok { OnOk result ((g : ℕ) (bodies : List (List ℕ))
        → K.keeps
        → IsPairFound is_first g (K.seen first.old) (K.calls first.old) (K.seen second.old) (K.calls second.old) gate is_empty bodies
        → IsPairAtRest is_first g (K.seen first.new) (K.calls first.new) (K.seen second.new) (K.calls second.new) gate bodies) }
    ensures any_moment { (g : ℕ) (bodies : List (List ℕ))
        → K.keeps
        → IsPairFound is_first g (K.seen first.old) (K.calls first.old) (K.seen second.old) (K.calls second.old) gate is_empty bodies
        → LeavesReading is_first g (K.calls first.old) (K.calls first.new) (K.calls second.old) (K.calls second.new) (λ read. read ≡ bodies) }
    ensures cause { OneCounted (is_ok result) (K.failed first.old) (K.failed first.new) (K.failed second.old) (K.failed second.new) }
{
    if is_first {
        return finish(first, gate, is_empty);
    }
    finish(second, gate, is_empty)
}
