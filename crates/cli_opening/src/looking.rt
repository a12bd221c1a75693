//! What a record's bytes hold.

ghost use Rattle.std.specs.Prelude.{◌≡◌, ◌≢◌, ◌<◌, [], All, IfErr, IfOk, OnOk, drop, false, map, true};
ghost use Rattle.journal_single.specs.Disk.{tallied};
ghost use Rattle.journal_single.specs.Record.{IsFound};
ghost use Rattle.journal_look.specs.Look.{BeginsLikeOne, IsStrange, IsTooMuch, IsUnclosed};
ghost use Rattle.cli_tool.specs.ToolAnswers.{IsEntry, entry_spelling, owner_of};
ghost use Rattle.cli_opening.specs.Looking.{IsBarred, IsBarredBy, IsBeyondCut, IsFoundBy, IsFoundIn, barred_of};
ghost use Rattle.cli_opening.specs.declared.looking.Barred.TheVariants as barred;

use crate::reaching::{Plain, highest_view, last_finalized};
use cli_audit::scheme_of;
use journal_look::{Strange, look};
use journal_single::{Disk, Entries, JournalFault, read_disk, read_entries};
use simplex_record::{Owner, first_refused};
use simplex_types::PlainScheme;
use std::alloc::Global;
use types_core::{Epoch, Participant, TermLength};

/// How many views a term of the program's committees has.
const TERM: u32 = 4;

/// What was found: a lawful record of the member.
#[derive(Clone, Copy, Drop)]
pub struct Found {
    /// How many entries it has.
    pub entries: usize,
    /// The highest view that one of them is of, or 0.
    pub reaches: u64,
    /// The highest view of which it has a finalization, or 0.
    pub finalized: u64,
    /// How many bytes behind its last gate an opening cuts.
    pub cut: usize,
}

/// Why a file is left as it is.
#[derive(Clone, Copy, Drop)]
pub enum Barred {
    /// Memory ran out before it was known.
    Memory,
    /// It could not be read.
    Device,
    /// It isn't empty, and no record begins with its first byte.
    NoRecord,
    /// A whole entry is no artifact: its gate's place.
    Foreign(u64),
    /// A lawful record of this member refuses an entry: how many stand before it.
    Unlawful(usize),
    /// The gate at this place isn't closed, and no whole entry stands there.
    Unclosed(u64),
    /// Behind the closed gate at this place stands more than a crash leaves.
    Behind(u64),
}

impl Barred {
    /// Why a file is left that is so strange.
    fn of(strange: Strange) -> Barred
        ensures { result ≡ barred_of strange }
    {
        match strange {
            Strange::Memory => Barred::Memory,
            Strange::NoRecord => Barred::NoRecord,
            Strange::Foreign(place) => Barred::Foreign(place),
            Strange::Unclosed(place) => Barred::Unclosed(place),
            Strange::Behind(place) => Barred::Behind(place),
        }
    }
}

/// Looks at what a disk holds, as the member of this index, of so many, has it under the program's settings, and asks no more of the disk.
///
/// # Errors
///
/// [`Barred::Device`] where the disk could not be read, and those of [`look_at`].
pub fn look_over<K: Disk>(
    alloc: Global,
    disk: &mut K,
    index: u16,
    count: u16,
    cuts: bool,
) -> Result<Found, Barred>
    requires { index < count }
    ensures found { IfOk result (λ found. K.keeps → IsFoundIn index count cuts (K.seen disk.old) found) }
    ensures barred { IfErr result (λ why. K.keeps → IsBarred index count (K.seen disk.old) why) }
    ensures cut { IfErr result (λ why. cuts ≡ true → IsBeyondCut why) }
    ensures untouched { K.keeps → K.calls disk.new ≡ K.calls disk.old }
    ensures device { IfErr result (λ why. why ≡ barred.Device → K.failed disk.new ≡ tallied false (K.failed disk.old)) }
    ensures no_fault { OnOk result (K.failed disk.new ≡ K.failed disk.old) }
    ensures no_fault_of_others { IfErr result (λ why. why ≢ barred.Device → K.failed disk.new ≡ K.failed disk.old) }
{
    match scheme_of(alloc, count) {
        Ok(scheme) => look_over_by(alloc, disk, &scheme, owner_at(index), cuts),
        Err(_) => Err(Barred::Memory),
    }
}

/// Looks at what a disk holds, as its owner has it in the committee of this scheme, and asks no more of the disk.
///
/// # Errors
///
/// [`Barred::Device`] where the disk could not be read, and those of [`look_at`].
pub fn look_over_by<K: Disk>(
    alloc: Global,
    disk: &mut K,
    scheme: &PlainScheme,
    owner: Owner,
    cuts: bool,
) -> Result<Found, Barred>
    ensures found { IfOk result (λ found.
        K.keeps → IsFoundBy scheme.now.base scheme.now.participants owner cuts (K.seen disk.old) found) }
    ensures barred { IfErr result (λ why. K.keeps → IsBarredBy scheme.now.base scheme.now.participants owner (K.seen disk.old) why) }
    ensures cut { IfErr result (λ why. cuts ≡ true → IsBeyondCut why) }
    ensures seen { OnOk result (K.keeps → K.seen disk.new ≡ K.seen disk.old) }
    ensures untouched { K.keeps → K.calls disk.new ≡ K.calls disk.old }
    ensures device { IfErr result (λ why. why ≡ barred.Device → K.failed disk.new ≡ tallied false (K.failed disk.old)) }
    ensures no_fault { OnOk result (K.failed disk.new ≡ K.failed disk.old) }
    ensures no_fault_of_others { IfErr result (λ why. why ≢ barred.Device → K.failed disk.new ≡ K.failed disk.old) }
{
    match read_disk(alloc, disk) {
        Ok(bytes) => look_at_by(alloc, &bytes, scheme, owner, cuts),
        Err(JournalFault::Device) => Err(Barred::Device),
        Err(_) => Err(Barred::Memory),
    }
}

/// Looks at a record's bytes, as the member of this index, of so many, has it under the program's settings. Where `cuts`, its last
/// gate and what stands behind it may be anything.
///
/// # Errors
///
/// Each [`Barred`] but `Device`.
pub fn look_at(
    alloc: Global,
    bytes: &[u8],
    index: u16,
    count: u16,
    cuts: bool,
) -> Result<Found, Barred>
    requires { index < count }
    ensures found { IfOk result (IsFoundIn index count cuts bytes.now) }
    ensures barred { IfErr result (IsBarred index count bytes.now) }
    ensures cut { IfErr result (λ why. cuts ≡ true → IsBeyondCut why) }
    ensures not_device { IfErr result (λ why. why ≢ barred.Device) }
{
    match scheme_of(alloc, count) {
        Ok(scheme) => look_at_by(alloc, bytes, &scheme, owner_at(index), cuts),
        Err(_) => Err(Barred::Memory),
    }
}

/// Looks at a record's bytes, as its owner has it in the committee of this scheme. Where `cuts`, its last gate and what stands behind
/// it may be anything.
///
/// # Errors
///
/// Each [`Barred`] but `Device`.
#[tactic(auto, using(crate::proofs::Barring::barred_over, crate::proofs::Barring::found_over, crate::proofs::Barring::never_device, crate::proofs::Barring::unlawful_over))]
pub fn look_at_by(
    alloc: Global,
    bytes: &[u8],
    scheme: &PlainScheme,
    owner: Owner,
    cuts: bool,
) -> Result<Found, Barred>
    ensures found { IfOk result (IsFoundBy scheme.now.base scheme.now.participants owner cuts bytes.now) }
    ensures barred { IfErr result (IsBarredBy scheme.now.base scheme.now.participants owner bytes.now) }
    ensures cut { IfErr result (λ why. cuts ≡ true → IsBeyondCut why) }
    ensures not_device { IfErr result (λ why. why ≢ barred.Device) }
{
    let entries = match found_in(alloc, bytes, cuts) {
        Ok(entries) => entries,
        Err(strange) => return Err(Barred::of(strange)),
    };
    match first_refused(alloc, scheme, owner, &entries.messages) {
        Ok(None) => Ok(Found {
            entries: entries.messages.len(),
            reaches: highest_view(&entries.messages),
            finalized: last_finalized(&entries.messages),
            cut: bytes.len() - bytes.len().min(entries.gate + 1),
        }),
        Ok(Some(position)) => Err(Barred::Unlawful(position)),
        Err(_) => Err(Barred::Memory),
    }
}

/// The entries of a record that these bytes hold. Where `cuts`, its last gate and what stands behind it may be anything.
fn found_in(alloc: Global, bytes: &[u8], cuts: bool) -> Result<Entries<Plain>, Strange>
    ensures found { IfOk result (λ entries. IsFound [] bytes.now entries.gate (map entry_spelling entries.messages.items)) }
    ensures fitting { IfOk result (λ entries. All IsEntry entries.messages.items) }
    ensures begins { OnOk result (BeginsLikeOne bytes.now) }
    ensures closed { IfOk result (λ entries. cuts ≡ false → ¬ IsUnclosed (drop entries.gate bytes.now)) }
    ensures left { IfOk result (λ entries. cuts ≡ false → ¬ IsTooMuch (drop entries.gate bytes.now)) }
    ensures strange { IfErr result (IsStrange IsEntry entry_spelling bytes.now) }
    ensures cut { IfErr result (λ why. cuts ≡ true → IsBeyondCut (barred_of why)) }
{
    match look(alloc, bytes) {
        Err(Strange::Unclosed(_) | Strange::Behind(_)) if cuts => all_in(alloc, bytes),
        looked => looked,
    }
}

/// The same, whatever its last gate is and stands behind it.
fn all_in(alloc: Global, bytes: &[u8]) -> Result<Entries<Plain>, Strange>
    requires { BeginsLikeOne bytes.now }
    ensures found { IfOk result (λ entries. IsFound [] bytes.now entries.gate (map entry_spelling entries.messages.items)) }
    ensures fitting { IfOk result (λ entries. All IsEntry entries.messages.items) }
    ensures strange { IfErr result (IsStrange IsEntry entry_spelling bytes.now) }
    ensures cut { IfErr result (λ why. IsBeyondCut (barred_of why)) }
{
    match read_entries(alloc, bytes) {
        Ok(entries) => Ok(entries),
        Err(JournalFault::Foreign(place)) => Err(Strange::Foreign(place)),
        Err(_) => Err(Strange::Memory),
    }
}

/// Whose record a member's is that the program runs.
pub(crate) fn owner_at(index: u16) -> Owner
    ensures { result ≡ owner_of index }
{
    Owner {
        epoch: Epoch::new(0),
        term_length: TermLength::new(TERM),
        signer: Participant::new(u32::from(index)),
    }
}
