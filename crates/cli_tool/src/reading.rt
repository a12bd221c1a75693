//! The values that bytes hold.

ghost use Rattle.std.specs.Prelude.{◌≡◌, ◌++◌, ◌<◌, ℕ, [], Err, IfOk, IfSome, IfNone, IsErr, length};
ghost use Rattle.types_codec.specs.Codec.{Readable};
ghost use Rattle.simplex_rules.specs.Audit.{IsRead};
ghost use Rattle.journal_single.specs.declared.fault.JournalFault.TheVariants.{Foreign};
ghost use Rattle.journal_single.specs.Record.{IsForeign};
ghost use Rattle.cli_tool.specs.ToolAnswers.{HoldsEntries, IsEntry, entry_spelling};

use journal_single::{JournalFault, read_entries};
use simplex_messages::Artifact;
use simplex_types::PlainScheme;
use std::alloc::{AllocError, Global};
use types_core::{CodecError, Read, Sha256Digest};

/// The value at the front, or nothing where none stands there: then the bytes stand where they stood. Refused only where
/// memory is.
fn next_value<M: Read + Drop>(
    alloc: Global,
    bound: u32,
    rest: &mut &[u8],
) -> Result<Option<M>, AllocError>
    ensures some { IfOk result
        (λ found. IfSome found (λ value. (rest.old.now ≡ M.spelling value ++ rest.new.now) × Readable M.fits (M.within bound) value)) }
    ensures none { IfOk result (λ found. IfNone found (IsErr (M.reading bound rest.old.now) × (rest.new.now ≡ rest.old.now))) }
{
    match M::read_cfg(alloc, rest, bound) {
        Ok(value) => Ok(Some(value)),
        Err(CodecError::Memory) => Err(AllocError),
        Err(CodecError::End) => Ok(None),
        Err(CodecError::Invalid) => Ok(None),
        Err(CodecError::TooLong) => Ok(None),
    }
}

/// The values that the bytes hold, one behind the other, and the place of the first byte at which none stands, if there is
/// one. Refused only where memory is.
pub(crate) fn read_values<M: Read + Drop>(
    alloc: Global,
    bound: u32,
    bytes: &[u8],
) -> Result<(Vec<M>, Option<usize>), AllocError>
    requires { (value : M) → 0 < length (M.spelling value) }
    ensures { IfOk result (λ found. IsRead (Readable M.fits (M.within bound)) M.spelling (M.reading bound) bytes.now found.0.items found.1) }
{
    let mut values = Vec::new(alloc);
    let mut rest = bytes;
    while !rest.is_empty() {
        match next_value(alloc, bound, &mut rest)? {
            Some(value) => values.push(value)?,
            None => return Ok((values, Some(bytes.len() - rest.len()))),
        }
    }
    Ok((values, None))
}

/// The entries of the record that the bytes hold.
///
/// # Errors
///
/// [`JournalFault::Foreign`] with the place of the first entry that is no artifact, else where memory ran out.
pub(crate) fn entries_of(
    alloc: Global,
    bytes: &[u8],
) -> Result<Vec<Artifact<PlainScheme, Sha256Digest>>, JournalFault>
    ensures entries { IfOk result (λ entries. HoldsEntries bytes.now entries.items) }
    ensures foreign { (place : ℕ) → result ≡ Err (Foreign place) → IsForeign [] IsEntry entry_spelling bytes.now place }
{
    match read_entries(alloc, bytes) {
        Ok(entries) => Ok(entries.messages),
        Err(fault) => Err(fault),
    }
}
