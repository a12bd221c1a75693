//! A record that is held to the rules of a lawful one.

ghost use Rattle.std.specs.Prelude.{◌<◌, IfNone, IfOk, IfSome};
ghost use Rattle.simplex_record.specs.Lawful.{IsLawful, IsRefusedAt};
ghost use Rattle.cli_tool.specs.ToolAnswers.{AreHeld, IsHeld, attests_in, certifies_in};

use crate::reading::entries_of;
use cli_audit::scheme_of;
use journal_single::JournalFault;
use simplex_messages::Artifact;
use simplex_record::{Owner, first_refused};
use simplex_types::PlainScheme;
use std::alloc::{AllocError, Global};
use types_core::Sha256Digest;

/// What is found of a record's bytes.
#[derive(Drop)]
pub enum Checked {
    /// A lawful record of so many entries.
    Lawful {
        /// How many entries it has.
        entries: usize,
    },
    /// A record whose first entry that a lawful one refuses is this one.
    Refused {
        /// The entry's position, counted from 0.
        entry: usize,
        /// How many entries the record has.
        entries: usize,
    },
    /// An entry is no artifact.
    Foreign {
        /// Where the entry stands, in bytes.
        place: u64,
    },
}

/// Whether the bytes hold a lawful record of this owner, of a committee of so many. Refused only where memory is.
pub fn check_record(
    alloc: Global,
    count: u16,
    owner: Owner,
    bytes: &[u8],
) -> Result<Checked, AllocError>
    requires { 0 < count }
    ensures { IfOk result (IsHeld count owner bytes.now) }
{
    match entries_of(alloc, bytes) {
        Ok(entries) => check_artifacts(alloc, count, owner, &entries),
        Err(JournalFault::Foreign(place)) => Ok(Checked::Foreign { place }),
        Err(_) => Err(AllocError),
    }
}

/// The same of the record's artifacts.
fn check_artifacts(
    alloc: Global,
    count: u16,
    owner: Owner,
    artifacts: &[Artifact<PlainScheme, Sha256Digest>],
) -> Result<Checked, AllocError>
    requires { 0 < count }
    ensures { IfOk result (AreHeld count owner artifacts.now) }
{
    let entries = artifacts.len();
    match refused_in(alloc, count, owner, artifacts)? {
        Some(entry) => Ok(Checked::Refused { entry, entries }),
        None => Ok(Checked::Lawful { entries }),
    }
}

/// The position of the first artifact that a lawful record of this owner, of a committee of so many, refuses, if there is one.
fn refused_in(
    alloc: Global,
    count: u16,
    owner: Owner,
    artifacts: &[Artifact<PlainScheme, Sha256Digest>],
) -> Result<Option<usize>, AllocError>
    requires { 0 < count }
    ensures lawful { IfOk result (λ found. IfNone found (IsLawful (attests_in count) (certifies_in count) owner artifacts.now)) }
    ensures refused { IfOk result (λ found. IfSome found (IsRefusedAt (attests_in count) (certifies_in count) owner artifacts.now)) }
{
    let scheme = scheme_of(alloc, count)?;
    first_refused(alloc, &scheme, owner, artifacts)
}
