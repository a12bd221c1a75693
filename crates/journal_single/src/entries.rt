//! Reading the entries of a record.

ghost use Rattle.std.specs.Prelude.{◌≡◌, ◌⊎◌, ◌↔◌, ◌+◌, ◌-◌, ◌<◌, ◌≤◌, ◌^◌, [], ℕ, length, get_or, take, drop, map, All, IfOk, IfErr, IfSome, IfNone, IsTrue};
ghost use Rattle.types_codec.specs.Codec.{Readable};
ghost use Rattle.journal_single.specs.Record.{HasEntry, IsEnd, IsFound, FitsBelow, IsForeign, size};
ghost use Rattle.journal_single.specs.declared.fault.JournalFault.TheVariants.{Foreign, Memory};

use crate::fault::JournalFault;
use std::alloc::Global;
use types_core::{Read, decode_cfg};

/// The bound on a committee's size under which messages are read: no committee has more members.
pub const BOUND: u32 = 65_535;

/// The messages of a record, and the place of the gate behind the last.
#[derive(Drop)]
pub struct Entries<M> {
    /// The messages, the first one first.
    pub messages: Vec<M>,
    /// The place of the gate behind the last, counted from where the record begins.
    pub gate: usize,
}

/// Whether a gate is open: an entry counts only then.
fn is_open(gate: u8) -> bool
    ensures { IsTrue result ↔ (gate ≡ 1) }
{
    gate == 1
}

/// The number that four bytes spell from this place on, most significant first.
pub fn number_at(bytes: &[u8], at: usize) -> u32
    requires within { at + 4 ≤ length bytes.now }
    ensures number { result ≡ size (get_or bytes.now at 0) (get_or bytes.now (at + 1) 0) (get_or bytes.now (at + 2) 0) (get_or bytes.now (at + 3) 0) }
    ensures greatest { result ≡ 2 ^ 32 - 1
        → (get_or bytes.now at 0 ≡ 255) × (get_or bytes.now (at + 1) 0 ≡ 255) × (get_or bytes.now (at + 2) 0 ≡ 255) ×
        (get_or bytes.now (at + 3) 0 ≡ 255) }
{
    bytes[at] as u32 * 0x100_0000
        + bytes[at + 1] as u32 * 0x1_0000
        + bytes[at + 2] as u32 * 0x100
        + bytes[at + 3] as u32
}

/// The size of the body, where a whole open entry begins here.
fn first_entry(bytes: &[u8]) -> Option<usize>
    ensures some { IfSome result (λ n. HasEntry bytes.now (take n (drop 5 bytes.now)) (drop n (drop 5 bytes.now))) }
    ensures within { IfSome result (λ n. 5 + n < length bytes.now) }
    ensures none { IfNone result (IsEnd bytes.now) }
{
    if bytes.len() < 6 {
        return None;
    }
    if !is_open(bytes[0]) {
        return None;
    }
    let size = number_at(bytes, 1) as usize;
    if size >= bytes.len() - 5 {
        return None;
    }
    Some(size)
}

/// Reads the entries up to where no whole open one begins. A record may stand behind a head of other
/// bytes: these are its bytes alone.
///
/// # Errors
///
/// [`JournalFault::Memory`], and [`JournalFault::Foreign`] with a place among these bytes.
pub fn read_entries<M: Read + Drop>(alloc: Global, bytes: &[u8]) -> Result<Entries<M>, JournalFault>
    ensures found { IfOk result (λ entries. IsFound [] bytes.now entries.gate (map M.spelling entries.messages.items)) }
    ensures fitting { IfOk result (λ entries. All (Readable M.fits (M.within BOUND)) entries.messages.items) }
    ensures faults { IfErr result (λ fault.
        (fault ≡ Memory) ⊎
        ((place : ℕ) × (fault ≡ Foreign place) × IsForeign [] (Readable M.fits (M.within BOUND)) M.spelling bytes.now place)) }
{
    // No entry's body has as many bytes as there are.
    read_entries_below(alloc, bytes, bytes.len())
}

/// The same, where an entry is foreign too whose body has so many bytes or more.
///
/// # Errors
///
/// [`JournalFault::Memory`], and [`JournalFault::Foreign`] with a place among these bytes.
pub fn read_entries_below<M: Read + Drop>(
    alloc: Global,
    bytes: &[u8],
    limit: usize,
) -> Result<Entries<M>, JournalFault>
    ensures found { IfOk result (λ entries. IsFound [] bytes.now entries.gate (map M.spelling entries.messages.items)) }
    ensures fitting { IfOk result (λ entries. All (FitsBelow limit (Readable M.fits (M.within BOUND)) M.spelling) entries.messages.items) }
    ensures faults { IfErr result (λ fault.
        (fault ≡ Memory) ⊎ ((place : ℕ) × (fault ≡ Foreign place) × IsForeign []
        (FitsBelow limit (Readable M.fits (M.within BOUND)) M.spelling) M.spelling bytes.now place)) }
{
    let mut messages = Vec::new(alloc);
    let mut rest = bytes;
    while let Some(size) = first_entry(rest) {
        let (_, behind) = rest.split_at(5);
        let (body, after) = behind.split_at(size);
        if size >= limit {
            let place = bytes.len() - rest.len();
            return Err(JournalFault::Foreign(place as u64));
        }
        let Some(message) = decode_cfg(alloc, body, BOUND)? else {
            return Err(JournalFault::Foreign((bytes.len() - rest.len()) as u64));
        };
        messages.push(message)?;
        rest = after;
    }
    Ok(Entries {
        gate: bytes.len() - rest.len(),
        messages,
    })
}
