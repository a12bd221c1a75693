//! The bytes of a generation.

ghost use Rattle.std.specs.Prelude.{◌≡◌, ◌↔◌, All, ◌+◌, ◌<◌, ◌^◌, ◌++◌, length, map, IfOk, OnOk, IsTrue};
ghost use Rattle.simplex_journal.specs.Reading.{SpellsGeneration};
ghost use Rattle.simplex_journal.specs.Standing.{IsShortList, four_bytes, entry_of};

use std::alloc::{AllocError, Global};
use types_core::EncodeSize;

/// The first length of a body that is too long.
pub(crate) const TOO_LONG: usize = 0xffff_ffff;

/// The last place at which a gate may stand.
pub(crate) const LAST_GATE: u64 = 0x7fff_ffff_ffff_ffff;

/// Whether a list is short enough for a rewrite.
pub(crate) fn is_short<M: EncodeSize>(list: &[M]) -> bool
    ensures short { IsTrue result ↔ IsShortList M.spelling list.now }
    ensures readable { IsTrue result → All M.fits list.now }
{
    let mut gate: u64 = 9;
    for message in list {
        let size = message.encode_size();
        if size >= TOO_LONG || gate > LAST_GATE - 5 - size as u64 {
            return false;
        }
        gate = gate + 5 + size as u64;
    }
    true
}

/// Appends a number in four bytes, most significant first. Refused only where memory is.
fn push_number(bytes: &mut Vec<u8>, number: u32) -> Result<(), AllocError>
    ensures { OnOk result (bytes.new.items ≡ bytes.old.items ++ four_bytes number) }
{
    bytes.push((number / 0x100_0000) as u8)?;
    bytes.push((number / 0x1_0000 % 0x100) as u8)?;
    bytes.push((number / 0x100 % 0x100) as u8)?;
    bytes.push((number % 0x100) as u8)?;
    Ok(())
}

/// Appends the open entry of a message. Refused only where memory is.
fn push_entry<M: EncodeSize>(bytes: &mut Vec<u8>, message: &M) -> Result<(), AllocError>
    requires { length (M.spelling message.now) < 2 ^ 32 }
    ensures { OnOk result (bytes.new.items ≡ bytes.old.items ++ entry_of (M.spelling message.now)) }
{
    let size = message.encode_size() as u32;
    bytes.push(1)?;
    push_number(bytes, size)?;
    message.write(bytes)?;
    Ok(())
}

/// A generation without its first byte: the rest of its head, an open entry for each message, and a closed
/// gate. Refused only where memory is.
pub(crate) fn spell_generation<M: EncodeSize>(
    alloc: Global,
    generation: u32,
    list: &[M],
) -> Result<Vec<u8>, AllocError>
    requires from_one { 0 < generation }
    requires short { IsShortList M.spelling list.now }
    ensures { IfOk result (λ bytes. SpellsGeneration bytes.items generation (map M.spelling list.now)) }
{
    let mut bytes = Vec::new(alloc);
    push_number(&mut bytes, u32::MAX)?;
    push_number(&mut bytes, generation)?;
    for message in list {
        push_entry(&mut bytes, message)?;
    }
    bytes.push(0)?;
    Ok(bytes)
}
