//! Questions about bytes that a caller holds.

ghost use Rattle.std.specs.Prelude.{◌≡◌, ◌≢◌, ◌<◌, ◌⊎◌, ℕ, List, Option, [], length};
ghost use Rattle.journal_single.specs.Record.{IsForeign};
ghost use Rattle.simplex_record.specs.Lawful.{IsLawful, IsRefusedAt};
ghost use Rattle.cli_tool.specs.ToolAnswers.{Entry, HoldsEntries, IsEntry, IsEvidence, attests_in, certifies_in, entry_spelling};
ghost use Rattle.cli_calls.specs.Told.{IsPut, Names};
ghost use Rattle.cli_hosted.specs.declared.status.Status.TheVariants.{Done, Foreign as IsForeignEntry, Memory, Refused, Room};

use cli_calls::{Found, answered};
use cli_hosted::Status;
use cli_tool::{Checked, check_record, evidence_in};
use simplex_record::Owner;
use std::alloc::Global;

/// The evidence that an audit of these reports finds, at the front of the caller's room.
pub(crate) fn audited(
    alloc: Global,
    members: u16,
    reports: &[u8],
    room: &mut [u8],
    found: &mut Found,
) -> Status
    requires { 0 < members }
    ensures answers { (result ≡ Done) ⊎ ((result ≡ Memory) ⊎ (result ≡ Room)) }
    ensures evidence { result ≡ Done
        → (fault : Option ℕ) × (written : List ℕ) × Names found.new.named found.new.place fault × IsEvidence members reports.now written
        fault × (found.new.length ≡ length written) × IsPut written room.old room.new }
    ensures room { result ≡ Room
        → (fault : Option ℕ) × (written : List ℕ) × Names found.new.named found.new.place fault × IsEvidence members reports.now written
        fault × (found.new.length ≡ length written) × (length room.old < length written) }
    ensures unwritten { result ≢ Done → room.new ≡ room.old }
{
    match evidence_in(alloc, members, reports) {
        Ok((written, fault)) => Status::fitted(answered(&written, fault, room, found)),
        Err(_) => Status::Memory,
    }
}

/// Whether these bytes hold a lawful record of this member.
pub(crate) fn checked(
    alloc: Global,
    members: u16,
    owner: Owner,
    stored: &[u8],
    found: &mut Found,
) -> Status
    requires { 0 < members }
    ensures answers { (result ≡ Done) ⊎ ((result ≡ Memory) ⊎ ((result ≡ Refused) ⊎ (result ≡ IsForeignEntry))) }
    ensures lawful { result ≡ Done
        → (artifacts : List Entry) × HoldsEntries stored.now artifacts × IsLawful (attests_in members) (certifies_in members) owner
        artifacts × (found.new.length ≡ length artifacts) }
    ensures refused { result ≡ Refused
        → (artifacts : List Entry) × HoldsEntries stored.now artifacts × IsRefusedAt (attests_in members) (certifies_in members) owner
        artifacts found.new.place × (found.new.length ≡ length artifacts) }
    ensures foreign { result ≡ IsForeignEntry → IsForeign [] IsEntry entry_spelling stored.now found.new.place }
    ensures named { (result ≡ Refused) ⊎ (result ≡ IsForeignEntry) → found.new.named ≡ 1 }
    ensures unnamed { result ≡ Done → found.new.named ≡ 0 }
{
    match check_record(alloc, members, owner, stored) {
        Ok(Checked::Lawful { entries }) => {
            found.tell(entries, None);
            Status::Done
        }
        Ok(Checked::Refused { entry, entries }) => {
            found.tell(entries, Some(entry as u64));
            Status::Refused
        }
        Ok(Checked::Foreign { place }) => {
            found.tell(0, Some(place));
            Status::Foreign
        }
        Err(_) => Status::Memory,
    }
}
