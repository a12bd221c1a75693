//! What a disk holds, looked at by a member's settings.

ghost use Rattle.std.specs.Prelude.{◌≡◌, ◌≢◌, IfErr, IfOk, OnErr, OnOk, false, true};
ghost use Rattle.journal_single.specs.Disk.{tallied};
ghost use Rattle.cli_settings.specs.Checking.{IsGood};
ghost use Rattle.cli_opening.specs.Looking.{IsBeyondCut};
ghost use Rattle.cli_opening.specs.declared.looking.Barred.{Barred};
ghost use Rattle.cli_opening.specs.declared.looking.Barred.TheVariants as barred;
ghost use Rattle.cli_opening.specs.Members.{IsBarredFor, IsFoundFor, IsHalfBarredFor, IsHalfFoundFor};
ghost use Rattle.cli_member.specs.Members.{IsHalfFound, IsHalfLeft};

use cli_opening::{Barred, Found, look_over_by, look_over_half_by, owner_by, say_found};
use cli_record::left;
use cli_settings::Settings;
use journal_single::Disk;
use std::alloc::Global;
use std::io::Write;

/// What else may have been said of a record that isn't this member's.
pub(crate) const ASKED: &str = "other settings";

/// Looks at what a disk holds, as the member of these settings has it, and asks no more of the disk. Where `cuts`, the record's last
/// gate and what stands behind it may be anything.
///
/// # Errors
///
/// [`Barred::Device`] where the disk could not be read, and why else the disk is left as it is.
pub fn look_for<K: Disk>(
    alloc: Global,
    settings: &Settings,
    cuts: bool,
    disk: &mut K,
) -> Result<Found, Barred>
    requires { IsGood settings.now }
    ensures found { IfOk result (λ found. K.keeps → IsFoundFor settings.now cuts (K.seen disk.old) found) }
    ensures barred { IfErr result (λ why. K.keeps → IsBarredFor settings.now (K.seen disk.old) why) }
    ensures cut { IfErr result (λ why. cuts ≡ true → IsBeyondCut why) }
    ensures seen { OnOk result (K.keeps → K.seen disk.new ≡ K.seen disk.old) }
    ensures untouched { K.keeps → K.calls disk.new ≡ K.calls disk.old }
    ensures device { IfErr result (λ why. why ≡ barred.Device → K.failed disk.new ≡ tallied false (K.failed disk.old)) }
    ensures no_fault { OnOk result (K.failed disk.new ≡ K.failed disk.old) }
    ensures no_fault_of_others { IfErr result (λ why. why ≢ barred.Device → K.failed disk.new ≡ K.failed disk.old) }
{
    match settings.committee.scheme(alloc, None) {
        Ok(scheme) => look_over_by(alloc, disk, &scheme, owner_by(settings), cuts),
        Err(_) => Err(Barred::Memory),
    }
}

/// The same of one of two disks, over which a record stands.
///
/// # Errors
///
/// Those of [`look_for`].
fn look_for_half<K: Disk>(
    alloc: Global,
    settings: &Settings,
    cuts: bool,
    disk: &mut K,
) -> Result<Found, Barred>
    requires { IsGood settings.now }
    ensures found { IfOk result (λ found. K.keeps → IsHalfFoundFor settings.now cuts (K.seen disk.old) found) }
    ensures barred { IfErr result (λ why. K.keeps → IsHalfBarredFor settings.now (K.seen disk.old) why) }
    ensures cut { IfErr result (λ why. cuts ≡ true → IsBeyondCut why) }
    ensures seen { OnOk result (K.keeps → K.seen disk.new ≡ K.seen disk.old) }
    ensures untouched { K.keeps → K.calls disk.new ≡ K.calls disk.old }
{
    match settings.committee.scheme(alloc, None) {
        Ok(scheme) => look_over_half_by(alloc, disk, &scheme, owner_by(settings), cuts),
        Err(_) => Err(Barred::Memory),
    }
}

/// Looks at what one of two disks holds, as the member of these settings has it, and says it on `faults`. The disk is said to be the file
/// at this path. Where `cuts`, the last gate of its record and what stands behind it may be anything.
///
/// # Errors
///
/// The status 1, with words of why on `faults`, where the disk can't be one of a record of this member, or could not be read. It is left
/// as it is.
pub fn half_for<K: Disk, F: Write>(
    alloc: Global,
    settings: &Settings,
    path: &str,
    cuts: bool,
    disk: &mut K,
    faults: &mut F,
) -> Result<(), u8>
    requires { IsGood settings.now }
    ensures status { IfErr result (λ status. status ≡ 1) }
    ensures found { OnOk result (IsHalfFound K.Disk settings.now cuts disk.old disk.new path.now (F.contents faults.old) (F.contents faults.new)) }
    ensures left { OnErr result ((why : Barred)
        × IsHalfLeft K.Disk settings.now cuts disk.old disk.new why path.now (F.contents faults.old) (F.contents faults.new)) }
{
    match look_for_half(alloc, settings, cuts, disk) {
        Ok(found) => {
            say_found(alloc, path, found, faults);
            Ok(())
        }
        Err(barred) => Err(left(alloc, path, ASKED, barred, faults)),
    }
}
