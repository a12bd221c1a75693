//! What an append and a rewrite do to two disks.

ghost use Rattle.std.specs.Prelude.{◌≡◌, ◌⊎◌, ◌+◌, ◌-◌, ◌<◌, ◌^◌, ◌++◌, ◌∷◌, [], Bool, List, ℕ, true, false, not, length, OnOk, is_ok};
ghost use Rattle.journal_single.specs.Record.{Spells};
ghost use Rattle.simplex_journal.specs.Generation.{OneCounted};
ghost use Rattle.simplex_journal.specs.Leaving.{LeavesReading};
ghost use Rattle.simplex_journal.specs.Reading.{IsPairAtRest, SpellsGeneration, BothLeaveOnly, ReadsEither};

use crate::steps::put_marked;
use crate::writing::write_generation;
use journal_single::{Disk, DiskFault};

/// The gate of an entry that counts.
const OPEN: u8 = 1;

/// Puts an entry behind the closed gate of the disk that is read, and opens the gate.
pub(crate) fn add_entry<K: Disk>(
    first: &mut K,
    second: &mut K,
    is_first: bool,
    gate: u64,
    entry: &[u8],
) -> Result<(), DiskFault>
    requires room { gate < 2 ^ 63 }
    requires at_rest { K.keeps
        → (g : ℕ) × (bodies : List (List ℕ)) × IsPairAtRest is_first g (K.seen first.old) (K.calls first.old) (K.seen second.old)
        (K.calls second.old) gate bodies }
    ensures ok { OnOk result ((g : ℕ) (bodies : List (List ℕ)) (body : List ℕ)
        → K.keeps
        → IsPairAtRest is_first g (K.seen first.old) (K.calls first.old) (K.seen second.old) (K.calls second.old) gate bodies
        → Spells entry.now body
        → IsPairAtRest is_first g (K.seen first.new) (K.calls first.new) (K.seen second.new) (K.calls second.new) (gate + 5 + length body)
        (bodies ++ body ∷ [])) }
    ensures any_moment { (g : ℕ) (bodies : List (List ℕ)) (body : List ℕ)
        → K.keeps
        → IsPairAtRest is_first g (K.seen first.old) (K.calls first.old) (K.seen second.old) (K.calls second.old) gate bodies
        → Spells entry.now body
        → length body < 2 ^ 32 - 1
        → BothLeaveOnly (K.calls first.old) (K.calls first.new) (K.calls second.old) (K.calls second.new)
        (ReadsEither bodies (bodies ++ body ∷ [])) }
    ensures one_disk { (g : ℕ) (bodies : List (List ℕ)) (body : List ℕ)
        → K.keeps
        → IsPairAtRest is_first g (K.seen first.old) (K.calls first.old) (K.seen second.old) (K.calls second.old) gate bodies
        → Spells entry.now body
        → length body < 2 ^ 32 - 1
        → LeavesReading is_first g (K.calls first.old) (K.calls first.new) (K.calls second.old) (K.calls second.new)
        (λ read. (read ≡ bodies) ⊎ (read ≡ bodies ++ body ∷ [])) }
    ensures cause { OneCounted (is_ok result) (K.failed first.old) (K.failed first.new) (K.failed second.old) (K.failed second.new) }
{
    if is_first {
        return put_marked(first, gate, entry, OPEN);
    }
    put_marked(second, gate, entry, OPEN)
}

/// Writes a generation on the disk that is not read: these bytes, behind its first byte. It is read from
/// then on.
pub(crate) fn rewrite_other<K: Disk>(
    first: &mut K,
    second: &mut K,
    is_first: bool,
    bytes: &[u8],
) -> Result<(), DiskFault>
    ensures ok { OnOk result ((g gate : ℕ) (old new : List (List ℕ))
        → K.keeps
        → IsPairAtRest is_first g (K.seen first.old) (K.calls first.old) (K.seen second.old) (K.calls second.old) gate old
        → SpellsGeneration bytes.now (g + 1) new
        → IsPairAtRest (not is_first) (g + 1) (K.seen first.new) (K.calls first.new) (K.seen second.new) (K.calls second.new)
        (length bytes.now) new) }
    // A crash at any moment leaves the old record or the new one.
    ensures any_moment { (g gate : ℕ) (old new : List (List ℕ))
        → K.keeps
        → IsPairAtRest is_first g (K.seen first.old) (K.calls first.old) (K.seen second.old) (K.calls second.old) gate old
        → SpellsGeneration bytes.now (g + 1) new
        → BothLeaveOnly (K.calls first.old) (K.calls first.new) (K.calls second.old) (K.calls second.new) (ReadsEither old new) }
    ensures cause { OneCounted (is_ok result) (K.failed first.old) (K.failed first.new) (K.failed second.old) (K.failed second.new) }
{
    if is_first {
        return write_generation(second, bytes);
    }
    write_generation(first, bytes)
}
