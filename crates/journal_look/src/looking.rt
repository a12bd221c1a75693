//! What stands in a file.

ghost use Rattle.std.specs.Prelude.{◌≡◌, ◌↔◌, ◌⊎◌, [], All, IfErr, IfOk, IsTrue, OnOk, drop, map};
ghost use Rattle.types_codec.specs.Codec.{Readable};
ghost use Rattle.journal_single.specs.Record.{IsFound};
ghost use Rattle.journal_look.specs.Look.{BeginsLikeOne, IsStrange, IsTooMuch, IsUnclosed};
ghost use Rattle.journal_look.specs.declared.looking.Strange.TheVariants.{Behind, Unclosed};

use crate::behind::{is_too_much, is_unclosed};
use journal_single::{BOUND, Entries, JournalFault, read_entries};
use std::alloc::Global;
use types_core::Read;

/// Why a file is not to be opened as a record.
#[derive(Clone, Copy, Debug, Drop, PartialEq, Eq)]
pub enum Strange {
    /// Memory ran out before it was known.
    Memory,
    /// It isn't empty, and no record begins with its first byte.
    NoRecord,
    /// A whole entry is no message: its gate's place.
    Foreign(u64),
    /// The gate at this place isn't closed, and no whole entry stands there: bytes are gone, or were changed.
    Unclosed(u64),
    /// Behind the closed gate at this place stands more than a crash leaves.
    Behind(u64),
}

/// Whether the bytes begin like a record's: with a gate, closed or open, or there are none.
fn begins_like_one(bytes: &[u8]) -> bool
    ensures { IsTrue result ↔ BeginsLikeOne bytes.now }
{
    match bytes.first() {
        Some(gate) => *gate < 2,
        None => true,
    }
}

/// Looks at what a file holds. Where that is a record as a crash may leave it, it is handed back.
///
/// # Errors
///
/// [`Strange::NoRecord`], then [`Strange::Foreign`], then [`Strange::Unclosed`] and [`Strange::Behind`], exactly where it is so; and
/// [`Strange::Memory`].
pub fn look<M: Read + Drop>(alloc: Global, bytes: &[u8]) -> Result<Entries<M>, Strange>
    ensures record { IfOk result (λ entries. IsFound [] bytes.now entries.gate (map M.spelling entries.messages.items)) }
    ensures fitting { IfOk result (λ entries. All (Readable M.fits (M.within BOUND)) entries.messages.items) }
    ensures begins { OnOk result (BeginsLikeOne bytes.now) }
    ensures closed { IfOk result (λ entries. ¬ IsUnclosed (drop entries.gate bytes.now)) }
    ensures left { IfOk result (λ entries. ¬ IsTooMuch (drop entries.gate bytes.now)) }
    ensures strange { IfErr result (IsStrange (Readable M.fits (M.within BOUND)) M.spelling bytes.now) }
{
    if !begins_like_one(bytes) {
        return Err(Strange::NoRecord);
    }
    match read_entries(alloc, bytes) {
        Ok(entries) => whole(bytes, entries),
        Err(JournalFault::Foreign(place)) => Err(Strange::Foreign(place)),
        Err(_) => Err(Strange::Memory),
    }
}

/// The entries, where a closed gate stands behind them, and no more behind that than a crash leaves.
fn whole<M: Read + Drop>(bytes: &[u8], entries: Entries<M>) -> Result<Entries<M>, Strange>
    requires { IsFound [] bytes.now entries.gate (map M.spelling entries.messages.items) }
    ensures same { IfOk result (λ found. found ≡ entries) }
    ensures closed { IfOk result (λ found. ¬ IsUnclosed (drop found.gate bytes.now)) }
    ensures left { IfOk result (λ found. ¬ IsTooMuch (drop found.gate bytes.now)) }
    ensures strange { IfErr result (λ why. ((why ≡ Unclosed entries.gate) × IsUnclosed (drop entries.gate bytes.now)) ⊎
        ((why ≡ Behind entries.gate) × IsTooMuch (drop entries.gate bytes.now))) }
{
    if is_unclosed(&bytes[entries.gate..]) {
        return Err(Strange::Unclosed(entries.gate as u64));
    }
    if is_too_much(&bytes[entries.gate..]) {
        return Err(Strange::Behind(entries.gate as u64));
    }
    Ok(entries)
}
