//! Faults of a journal over one disk, told as one over two would.

ghost use Rattle.std.specs.Prelude.{◌≡◌, ◌↔◌, ℕ};
ghost use Rattle.journal_single.specs.declared.fault.JournalFault.TheVariants as one_fault;
ghost use Rattle.simplex_journal.specs.declared.fault.PairFault.TheVariants.{Device, Failed, Foreign, Memory, TooLong};

use simplex_journal::{JournalFault, PairFault};

/// The fault of a journal over one disk.
pub(crate) fn told(fault: JournalFault) -> PairFault
    ensures device { (result ≡ Device) ↔ (fault ≡ one_fault.Device) }
    ensures memory { (result ≡ Memory) ↔ (fault ≡ one_fault.Memory) }
    ensures foreign { (place : ℕ) → (result ≡ Foreign place) ↔ (fault ≡ one_fault.Foreign place) }
    ensures too_long { (result ≡ TooLong) ↔ (fault ≡ one_fault.TooLong) }
    ensures failed { (result ≡ Failed) ↔ (fault ≡ one_fault.Failed) }
{
    match fault {
        JournalFault::Device => PairFault::Device,
        JournalFault::Memory => PairFault::Memory,
        JournalFault::Foreign(place) => PairFault::Foreign(place),
        JournalFault::TooLong => PairFault::TooLong,
        JournalFault::Failed => PairFault::Failed,
    }
}
