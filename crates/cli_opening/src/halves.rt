//! What one of two disks holds, over which a record stands: of the one of the greater generation the record is read, and the other is
//! written over by the next rewrite. So each has to be the member's.

ghost use Rattle.std.specs.Prelude.{◌≡◌, ◌≢◌, ◌+◌, ◌≤◌, ◌<◌, ◌^◌, ℕ, IfErr, IfOk, OnOk, codes, drop, false, length, true};
ghost use Rattle.journal_single.specs.Disk.{tallied};
ghost use Rattle.simplex_journal.specs.Generation.{IsOf};
ghost use Rattle.cli_tool.specs.ToolAnswers.{owner_of};
ghost use Rattle.cli_opening.specs.Halves.{IsBarredOnHalf, IsFoundOnHalf, behind, place_of};
ghost use Rattle.cli_opening.specs.Looking.{IsBeyondCut};
ghost use Rattle.cli_opening.specs.declared.looking.Barred.TheVariants as barred;

use crate::looking::{Barred, Found, look_at_by, owner_at};
use cli_audit::scheme_of;
use journal_single::{Disk, JournalFault, number_at, read_disk};
use simplex_record::Owner;
use simplex_types::PlainScheme;
use std::alloc::Global;

impl Barred {
    /// The same where its record stands behind so many bytes: places are counted from the first.
    fn behind(self, head: usize) -> Barred
        requires { place_of self + head < 2 ^ 64 }
        ensures { result ≡ behind head self }
    {
        match self {
            Barred::Foreign(place) => Barred::Foreign(place + head as u64),
            Barred::Unclosed(place) => Barred::Unclosed(place + head as u64),
            Barred::Behind(place) => Barred::Behind(place + head as u64),
            Barred::Memory => Barred::Memory,
            Barred::Device => Barred::Device,
            Barred::NoRecord => Barred::NoRecord,
            Barred::Unlawful(position) => Barred::Unlawful(position),
        }
    }
}

/// How many bytes stand in front of the record: nine where they begin with the head of a generation, else none.
fn head_of(bytes: &[u8]) -> usize
    ensures record { (generation : ℕ) × IsOf bytes.now generation (drop result bytes.now) }
    ensures within { result ≤ length bytes.now }
    ensures short { result ≤ 9 }
{
    if bytes.len() < 10 {
        return 0;
    }
    if bytes[0] != 2 {
        return 0;
    }
    if number_at(bytes, 1) != u32::MAX {
        return 0;
    }
    if number_at(bytes, 5) == 0 {
        return 0;
    }
    9
}

/// Looks at what one of two disks holds, as the member of this index, of so many, has it under the program's settings, and asks no more
/// of the disk. Where `cuts`, the last gate of its record and what stands behind it may be anything.
///
/// # Errors
///
/// [`Barred::Device`] where the disk could not be read, and why else it is left as it is.
pub fn look_over_half<K: Disk>(
    alloc: Global,
    disk: &mut K,
    index: u16,
    count: u16,
    cuts: bool,
) -> Result<Found, Barred>
    requires { index < count }
    ensures found { IfOk result (λ found. K.keeps → IsFoundOnHalf (codes "simplex") count (owner_of index) cuts (K.seen disk.old) found) }
    ensures barred { IfErr result (λ why. K.keeps → IsBarredOnHalf (codes "simplex") count (owner_of index) (K.seen disk.old) why) }
    ensures cut { IfErr result (λ why. cuts ≡ true → IsBeyondCut why) }
    ensures untouched { K.keeps → K.calls disk.new ≡ K.calls disk.old }
    ensures device { IfErr result (λ why. why ≡ barred.Device → K.failed disk.new ≡ tallied false (K.failed disk.old)) }
    ensures no_fault { OnOk result (K.failed disk.new ≡ K.failed disk.old) }
    ensures no_fault_of_others { IfErr result (λ why. why ≢ barred.Device → K.failed disk.new ≡ K.failed disk.old) }
{
    match scheme_of(alloc, count) {
        Ok(scheme) => look_over_half_by(alloc, disk, &scheme, owner_at(index), cuts),
        Err(_) => Err(Barred::Memory),
    }
}

/// The same, as its owner has it in the committee of this scheme.
///
/// # Errors
///
/// Those of [`look_over_half`].
pub fn look_over_half_by<K: Disk>(
    alloc: Global,
    disk: &mut K,
    scheme: &PlainScheme,
    owner: Owner,
    cuts: bool,
) -> Result<Found, Barred>
    ensures found { IfOk result (λ found.
        K.keeps → IsFoundOnHalf scheme.now.base scheme.now.participants owner cuts (K.seen disk.old) found) }
    ensures barred { IfErr result (λ why. K.keeps → IsBarredOnHalf scheme.now.base scheme.now.participants owner (K.seen disk.old) why) }
    ensures cut { IfErr result (λ why. cuts ≡ true → IsBeyondCut why) }
    ensures seen { OnOk result (K.keeps → K.seen disk.new ≡ K.seen disk.old) }
    ensures untouched { K.keeps → K.calls disk.new ≡ K.calls disk.old }
    ensures device { IfErr result (λ why. why ≡ barred.Device → K.failed disk.new ≡ tallied false (K.failed disk.old)) }
    ensures no_fault { OnOk result (K.failed disk.new ≡ K.failed disk.old) }
    ensures no_fault_of_others { IfErr result (λ why. why ≢ barred.Device → K.failed disk.new ≡ K.failed disk.old) }
{
    match read_disk(alloc, disk) {
        Ok(bytes) => look_at_half_by(alloc, &bytes, scheme, owner, cuts),
        Err(JournalFault::Device) => Err(Barred::Device),
        Err(_) => Err(Barred::Memory),
    }
}

/// Looks at the bytes of one of two disks, as the member of this index, of so many, has it under the program's settings. Where `cuts`, the
/// last gate of its record and what stands behind it may be anything.
///
/// # Errors
///
/// Each [`Barred`] but `Device`.
pub fn look_at_half(
    alloc: Global,
    bytes: &[u8],
    index: u16,
    count: u16,
    cuts: bool,
) -> Result<Found, Barred>
    requires { index < count }
    ensures found { IfOk result (IsFoundOnHalf (codes "simplex") count (owner_of index) cuts bytes.now) }
    ensures barred { IfErr result (IsBarredOnHalf (codes "simplex") count (owner_of index) bytes.now) }
    ensures cut { IfErr result (λ why. cuts ≡ true → IsBeyondCut why) }
    ensures not_device { IfErr result (λ why. why ≢ barred.Device) }
{
    match scheme_of(alloc, count) {
        Ok(scheme) => look_at_half_by(alloc, bytes, &scheme, owner_at(index), cuts),
        Err(_) => Err(Barred::Memory),
    }
}

/// The same, as its owner has it in the committee of this scheme.
///
/// # Errors
///
/// Those of [`look_at_half`].
pub fn look_at_half_by(
    alloc: Global,
    bytes: &[u8],
    scheme: &PlainScheme,
    owner: Owner,
    cuts: bool,
) -> Result<Found, Barred>
    ensures found { IfOk result (IsFoundOnHalf scheme.now.base scheme.now.participants owner cuts bytes.now) }
    ensures barred { IfErr result (IsBarredOnHalf scheme.now.base scheme.now.participants owner bytes.now) }
    ensures cut { IfErr result (λ why. cuts ≡ true → IsBeyondCut why) }
    ensures not_device { IfErr result (λ why. why ≢ barred.Device) }
{
    let head = head_of(bytes);
    match look_at_by(alloc, &bytes[head..], scheme, owner, cuts) {
        Ok(found) => Ok(found),
        Err(barred) => Err(barred.behind(head)),
    }
}
