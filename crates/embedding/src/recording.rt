//! The journal.

use simplex_journal::{BOUND, Disk, Journal, JournalFault};
use simplex_messages::Artifact;
use simplex_types::{PlainScheme, Sha256Digest};
use std::alloc::Global;

/// What a record is made of.
pub(crate) type Item = Artifact<PlainScheme, Sha256Digest>;

/// Opens the record on this disk: the journal, and all artifacts that it holds.
pub(crate) fn open_record<K: Disk>(
    alloc: Global,
    disk: K,
) -> Result<(Journal<Item, K>, Vec<Item>), JournalFault> {
    match Journal::open(alloc, disk) {
        Ok(opened) => Ok(opened),
        Err((fault, _disk)) => Err(fault),
    }
}

/// Appends the artifact: whether it is one that can be read again. After `Ok(true)` no crash loses it, and only then may
/// what it says be sent.
pub(crate) fn remember<K: Disk>(
    journal: &mut Journal<Item, K>,
    artifact: &Item,
) -> Result<bool, JournalFault> {
    if !artifact.is_within(BOUND) {
        return Ok(false);
    }
    journal.append(artifact)?;
    Ok(true)
}
