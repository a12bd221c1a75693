//! What a caller in C asks of bytes that it holds.

ghost use Rattle.std.specs.Prelude.{◌≡◌, ◌≢◌, ◌<◌, ◌⊎◌, ◌≤◌, ℕ, List, Option, [], IfNone, IfSome, length};
ghost use Rattle.journal_single.specs.Record.{IsForeign};
ghost use Rattle.simplex_record.specs.Lawful.{IsLawful, IsRefusedAt};
ghost use Rattle.cli_tool.specs.ToolAnswers.{Entry, HoldsEntries, IsEntry, IsEvidence, attests_in, certifies_in, entry_spelling};
ghost use Rattle.cli_tool.specs.Decoding.{message_size};
ghost use Rattle.cli_calls.specs.Told.{IsPut, Names};
ghost use Rattle.simplex_c.specs.Answers.{Tells, kind_at, owner};

use crate::decoding::decoded;
use crate::told_answers::{audited, checked};
use cli_calls::Found;
use cli_hosted::Status;
use simplex_record::Owner;
use std::alloc::Global;
use types_core::{Epoch, Participant, TermLength};

/// The evidence that an audit of these reports of a committee finds, as reports.
///
/// Answers 0 where `evidence` begins with it, 1 where memory ran out, 2 where there are no members, and 3 where `evidence` has
/// no room for it: then its size is told.
#[unsafe(no_mangle)]
pub extern "C" fn voumlis_proved_audit(
    alloc: Global,
    members: u16,
    reports: &[u8],
    evidence: &mut [u8],
    found: &mut Found,
) -> u32
    ensures nobody { members ≡ 0 → result ≡ 2 }
    ensures somebody { members ≢ 0 → result ≢ 2 }
    ensures evidence { result ≡ 0
        → (fault : Option ℕ) × (written : List ℕ) × Names found.new.named found.new.place fault × IsEvidence members reports.now written
        fault × (found.new.length ≡ length written) × IsPut written evidence.old evidence.new }
    ensures room { result ≡ 3
        → (fault : Option ℕ) × (written : List ℕ) × Names found.new.named found.new.place fault × IsEvidence members reports.now written
        fault × (found.new.length ≡ length written) × (length evidence.old < length written) }
    ensures unwritten { result ≢ 0 → evidence.new ≡ evidence.old }
    ensures statuses { result ≤ 3 }
{
    if members == 0 {
        return Status::Argument.number();
    }
    audited(alloc, members, reports, evidence, found).number()
}

/// Whether these bytes hold a lawful record of this member.
///
/// Answers 0 where they do, with the number of its entries as the length; 1 where memory ran out; 2 where there are no members
/// or a term has no view; 7 with the number of its entries and the first that a lawful record refuses, counted from 0; and 8 with
/// the place of an entry that is no artifact, in bytes.
#[unsafe(no_mangle)]
pub extern "C" fn voumlis_proved_first_refused(
    alloc: Global,
    members: u16,
    epoch: u64,
    term: u32,
    member: u16,
    stored: &[u8],
    found: &mut Found,
) -> u32
    ensures nobody { members ≡ 0 → result ≡ 2 }
    ensures no_term { term ≡ 0 → result ≡ 2 }
    ensures asked { members ≢ 0 → term ≢ 0 → result ≢ 2 }
    ensures lawful { result ≡ 0
        → (artifacts : List Entry) × HoldsEntries stored.now artifacts × IsLawful (attests_in members) (certifies_in members)
        (owner epoch term member) artifacts × (found.new.length ≡ length artifacts) }
    ensures refused { result ≡ 7
        → (artifacts : List Entry) × HoldsEntries stored.now artifacts × IsRefusedAt (attests_in members) (certifies_in members)
        (owner epoch term member) artifacts found.new.place × (found.new.length ≡ length artifacts) }
    ensures foreign { result ≡ 8 → IsForeign [] IsEntry entry_spelling stored.now found.new.place }
    ensures named { (result ≡ 7) ⊎ (result ≡ 8) → found.new.named ≡ 1 }
    ensures unnamed { result ≡ 0 → found.new.named ≡ 0 }
    ensures statuses { (result ≤ 2) ⊎ ((result ≡ 7) ⊎ (result ≡ 8)) }
{
    if members == 0 {
        return Status::Argument.number();
    }
    if term == 0 {
        return Status::Argument.number();
    }
    let owner = Owner {
        epoch: Epoch::new(epoch),
        term_length: TermLength::new(term),
        signer: Participant::new(u32::from(member)),
    };
    checked(alloc, members, owner, stored, found).number()
}

/// Reads the message at the front of these bytes: a vote (kind 0), a certificate (1), an artifact (2) or a report (3) of a
/// committee of so many members, signed by the plain scheme.
///
/// Answers 0 with the message's size, 1 where memory ran out, 2 where there is no such kind, 4 where the bytes end within the
/// message, 5 where a byte or value can't stand there, and 6 where a count is above its bound. No place is named.
#[unsafe(no_mangle)]
pub extern "C" fn voumlis_proved_decode(
    alloc: Global,
    kind: u32,
    members: u32,
    bytes: &[u8],
    found: &mut Found,
) -> u32
    ensures known { IfSome (kind_at kind) (λ it. Tells (message_size it members bytes.now) result found.new.length) }
    ensures unknown { IfNone (kind_at kind) (result ≡ 2) }
    ensures unnamed { IfSome (kind_at kind) (λ _. found.new.named ≡ 0) }
{
    decoded(alloc, kind, members, bytes, found).number()
}
