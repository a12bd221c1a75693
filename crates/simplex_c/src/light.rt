//! What certificates certify, for callers in C that check what is final.

ghost use Rattle.std.specs.Prelude.{◌≡◌, ◌≢◌, ◌<◌, ◌⊎◌, ℕ, [], List, length, map, IfOk};
ghost use Rattle.types_core.specs.declared.proposal.Proposal.{Proposal as Proposed};
ghost use Rattle.cli_calls.specs.Told.{IsPut};
ghost use Rattle.cli_hosted.specs.Statuses.{status_number};
ghost use Rattle.cli_hosted.specs.declared.status.Status.TheVariants.{Argument, Done, Memory, NotFinal, Room, Settings as Faulty, Version};
ghost use Rattle.cli_light.specs.declared.certifying.Certified.{Certified as Saying};
ghost use Rattle.cli_light.specs.Certifying.{IsCertified};
ghost use Rattle.cli_light.specs.Chain.{IsChain};
ghost use Rattle.cli_settings.specs.Checking.{HasMembers};
ghost use Rattle.cli_settings.specs.declared.setting.Settings.{Settings as Setting};
ghost use Rattle.simplex_c.specs.Light.{BreaksOff, CertifiesNot, broken_number, certified_numbers, proposal_numbers, round_numbers, uncertified_number};
ghost use Rattle.simplex_c.specs.Settings.{HasFault, HasForm, SaysGood, SaysNothing};

use crate::decoding::refused;
use crate::settings::{SettingsNumbers, settings_of, tell_unfit};
use cli_calls::{Found, put};
use cli_hosted::Status;
use cli_light::{Broken, Certified, Uncertified, certifies, finalized_in};
use cli_settings::Committee;
use std::alloc::{AllocError, Global};
use types_core::{Digest, Proposal, Round, Sha256Digest};

/// What a certificate certifies. Any numbers may stand here before.
#[repr(C)]
#[derive(Clone, Copy)]
pub struct CertifiedNumbers {
    /// 0 that a proposal may be built on, 1 that a round is given up, 2 that a proposal is final.
    pub kind: u32,
    /// The epoch.
    pub epoch: u64,
    /// The view.
    pub view: u64,
    /// The parent's view, and 0 of a round.
    pub parent: u64,
    /// The payload, and zeros of a round.
    pub payload: [u8; 32],
}

/// A proposal that is certified, by the kind of its certificate.
fn of_proposal(kind: u32, proposal: &Proposal<Sha256Digest>) -> CertifiedNumbers
    ensures { result ≡ proposal_numbers kind proposal.now }
{
    let mut payload = [0; 32];
    payload.copy_from_slice(proposal.payload.as_bytes());
    CertifiedNumbers {
        kind,
        epoch: proposal.round.epoch.get(),
        view: proposal.round.view.get(),
        parent: proposal.parent.get(),
        payload,
    }
}

/// A round that is given up.
fn of_round(round: Round) -> CertifiedNumbers
    ensures { result ≡ round_numbers round }
{
    CertifiedNumbers {
        kind: 1,
        epoch: round.epoch.get(),
        view: round.view.get(),
        parent: 0,
        payload: [0; 32],
    }
}

/// What a certificate certifies, as numbers.
fn of_certified(certified: Certified) -> CertifiedNumbers
    ensures { result ≡ certified_numbers certified }
{
    match certified {
        Certified::Notarization(proposal) => of_proposal(0, &proposal),
        Certified::Nullification(round) => of_round(round),
        Certified::Finalization(proposal) => of_proposal(2, &proposal),
    }
}

/// Proposals that are final, as numbers.
fn of_final(
    alloc: Global,
    proposals: &[Proposal<Sha256Digest>],
) -> Result<Vec<CertifiedNumbers>, AllocError>
    ensures { IfOk result (λ told. told.items ≡ map (proposal_numbers 2) proposals.now) }
{
    let mut told = Vec::new(alloc);
    let mut rest = proposals;
    while let Some((proposal, behind)) = rest.split_first() {
        told.push(of_proposal(2, proposal))?;
        rest = behind;
    }
    Ok(told)
}

/// The status of why bytes certify nothing.
fn uncertified(why: Uncertified) -> Status
    ensures number { status_number result ≡ uncertified_number why }
    ensures answers { (result ≢ Done) × ((result ≢ Argument) × ((result ≢ Room) × ((result ≢ Faulty) × (result ≢ Version)))) }
{
    match why {
        Uncertified::Unread(trouble) => refused(trouble),
        Uncertified::OtherEpoch => Status::OtherEpoch,
        Uncertified::NotCertifying => Status::NotCertifying,
    }
}

/// The status of why a chain goes on no more.
fn broken_by(why: Option<Uncertified>) -> Status
    ensures number { status_number result ≡ broken_number why }
    ensures answers { (result ≢ Done) × ((result ≢ Argument) × ((result ≢ Room) × ((result ≢ Faulty) × (result ≢ Version)))) }
{
    match why {
        Some(why) => uncertified(why),
        None => Status::NotFinal,
    }
}

/// What a certificate of these members certifies.
fn certified_by(
    alloc: Global,
    committee: &Committee,
    bytes: &[u8],
    certified: &mut CertifiedNumbers,
    found: &mut Found,
) -> Status
    requires { HasMembers committee.now }
    ensures certified { result ≡ Done
        → (said : Saying) × IsCertified committee.now bytes.now said × (certified.new ≡ certified_numbers said) }
    ensures uncertified { result ≢ Done → CertifiesNot committee.now bytes.now (status_number result) }
    ensures answers { (result ≢ Argument) × ((result ≢ Room) × ((result ≢ Faulty) × (result ≢ Version))) }
    ensures unwritten { result ≢ Done → certified.new ≡ certified.old }
    ensures unnamed { found.new.named ≡ 0 }
{
    found.tell(0, None);
    match certifies(alloc, committee, bytes) {
        Ok(said) => {
            *certified = of_certified(said);
            Status::Done
        }
        Err(why) => uncertified(why),
    }
}

/// The proposals that a chain of finalizations of these members makes final.
fn finalized_by(
    alloc: Global,
    committee: &Committee,
    bytes: &[u8],
    room: &mut [CertifiedNumbers],
    found: &mut Found,
) -> Status
    requires { HasMembers committee.now }
    ensures finalized { result ≡ Done
        → (ps : List (Proposed (List ℕ))) × IsChain committee.now 0 bytes.now ps [] × (found.new.length ≡ length ps)
        × IsPut (map (proposal_numbers 2) ps) room.old room.new }
    ensures room { result ≡ Room
        → (ps : List (Proposed (List ℕ))) × IsChain committee.now 0 bytes.now ps [] × (found.new.length ≡ length ps)
        × (length room.old < length ps) }
    ensures broken { result ≢ Done → result ≢ Room → result ≢ Memory
        → BreaksOff committee.now bytes.now found.new.place (status_number result) × (found.new.named ≡ 1) }
    ensures answers { (result ≢ Argument) × ((result ≢ Faulty) × (result ≢ Version)) }
    ensures unwritten { result ≢ Done → room.new ≡ room.old }
    ensures unnamed { (result ≡ Done) ⊎ (result ≡ Room) → found.new.named ≡ 0 }
{
    match finalized_in(alloc, committee, bytes) {
        Ok(proposals) => told_final(alloc, &proposals, room, found),
        Err(Broken { place, why }) => {
            found.tell(0, Some(place as u64));
            broken_by(why)
        }
    }
}

/// Puts proposals that are final at the front of the caller's room, where they fit.
fn told_final(
    alloc: Global,
    proposals: &[Proposal<Sha256Digest>],
    room: &mut [CertifiedNumbers],
    found: &mut Found,
) -> Status
    ensures length { result ≢ Memory → found.new.length ≡ length proposals.now }
    ensures done { result ≡ Done → IsPut (map (proposal_numbers 2) proposals.now) room.old room.new }
    ensures room { result ≡ Room → length room.old < length proposals.now }
    ensures answers { (result ≡ Done) ⊎ ((result ≡ Room) ⊎ (result ≡ Memory)) }
    ensures unwritten { result ≢ Done → room.new ≡ room.old }
    ensures unnamed { result ≢ Memory → found.new.named ≡ 0 }
{
    let Ok(told) = of_final(alloc, proposals) else {
        return Status::Memory;
    };
    found.tell(told.len(), None);
    Status::fitted(put(told.as_slice(), room))
}

/// What a certificate certifies for the members of these settings.
#[tactic(auto, using(crate::proofs::Unfit::fault_by, crate::proofs::Unfit::form_by, crate::proofs::Unfit::never_done, crate::proofs::Unfit::no_place_by, crate::proofs::Unfit::nothing_by, crate::proofs::Unfit::place_by))]
fn certified_with(
    alloc: Global,
    numbers: &SettingsNumbers,
    base: &[u8],
    seed: &[u8],
    bytes: &[u8],
    certified: &mut CertifiedNumbers,
    found: &mut Found,
) -> Status
    ensures certified { result ≡ Done
        → (s : Setting) × SaysGood numbers.now base.now seed.now s
        × ((said : Saying) × IsCertified s.committee bytes.now said × (certified.new ≡ certified_numbers said)) }
    ensures nothing { result ≡ Argument → SaysNothing numbers.now base.now seed.now }
    ensures fault { result ≡ Faulty → HasFault numbers.now base.now seed.now found.new.place }
    ensures form { result ≡ Version → ¬ HasForm numbers.now }
    ensures uncertified { result ≢ Done → result ≢ Memory → result ≢ Argument → result ≢ Faulty → result ≢ Version
        → (s : Setting) × SaysGood numbers.now base.now seed.now s × CertifiesNot s.committee bytes.now (status_number result) }
    ensures unwritten { result ≢ Done → certified.new ≡ certified.old }
    ensures named { result ≡ Faulty → found.new.named ≡ 1 }
    ensures unnamed { result ≢ Faulty → found.new.named ≡ 0 }
{
    match settings_of(alloc, numbers, base, seed) {
        Ok(settings) => certified_by(alloc, &settings.committee, bytes, certified, found),
        Err(why) => tell_unfit(why, found),
    }
}

/// The proposals that a chain of finalizations makes final for the members of these settings.
#[tactic(auto, using(crate::proofs::Unfit::fault_by, crate::proofs::Unfit::form_by, crate::proofs::Unfit::never_done, crate::proofs::Unfit::no_place_by, crate::proofs::Unfit::nothing_by, crate::proofs::Unfit::place_by))]
fn finalized_with(
    alloc: Global,
    numbers: &SettingsNumbers,
    base: &[u8],
    seed: &[u8],
    bytes: &[u8],
    room: &mut [CertifiedNumbers],
    found: &mut Found,
) -> Status
    ensures finalized { result ≡ Done
        → (s : Setting) × SaysGood numbers.now base.now seed.now s
        × ((ps : List (Proposed (List ℕ))) × IsChain s.committee 0 bytes.now ps [] × (found.new.length ≡ length ps)
        × IsPut (map (proposal_numbers 2) ps) room.old room.new) }
    ensures room { result ≡ Room
        → (s : Setting) × SaysGood numbers.now base.now seed.now s
        × ((ps : List (Proposed (List ℕ))) × IsChain s.committee 0 bytes.now ps [] × (found.new.length ≡ length ps)
        × (length room.old < length ps)) }
    ensures nothing { result ≡ Argument → SaysNothing numbers.now base.now seed.now }
    ensures fault { result ≡ Faulty → HasFault numbers.now base.now seed.now found.new.place }
    ensures form { result ≡ Version → ¬ HasForm numbers.now }
    ensures broken { result ≢ Done → result ≢ Room → result ≢ Memory → result ≢ Argument → result ≢ Faulty → result ≢ Version
        → (s : Setting) × SaysGood numbers.now base.now seed.now s
        × (BreaksOff s.committee bytes.now found.new.place (status_number result) × (found.new.named ≡ 1)) }
    ensures unwritten { result ≢ Done → room.new ≡ room.old }
    ensures named { result ≡ Faulty → found.new.named ≡ 1 }
    ensures unnamed { (result ≡ Done) ⊎ ((result ≡ Room) ⊎ ((result ≡ Argument) ⊎ (result ≡ Version))) → found.new.named ≡ 0 }
{
    match settings_of(alloc, numbers, base, seed) {
        Ok(settings) => finalized_by(alloc, &settings.committee, bytes, room, found),
        Err(why) => tell_unfit(why, found),
    }
}

/// What a certificate of the members of these settings certifies, of which these are the bytes.
///
/// Answers 0 where `certified` has it; 1 where memory ran out; 2, 13 and 14 as `voumlis_proved_settings_check`; 4, 5 and 6 where the
/// bytes aren't just one certificate, for the first trouble from the left; 15 where it is of another epoch; and 16 where it isn't
/// signed as a certificate of these members.
#[unsafe(no_mangle)]
pub extern "C" fn voumlis_proved_certifies(
    alloc: Global,
    numbers: &SettingsNumbers,
    base: &[u8],
    seed: &[u8],
    bytes: &[u8],
    certified: &mut CertifiedNumbers,
    found: &mut Found,
) -> u32
    ensures certified { result ≡ 0
        → (s : Setting) × SaysGood numbers.now base.now seed.now s
        × ((said : Saying) × IsCertified s.committee bytes.now said × (certified.new ≡ certified_numbers said)) }
    ensures nothing { result ≡ 2 → SaysNothing numbers.now base.now seed.now }
    ensures fault { result ≡ 13 → HasFault numbers.now base.now seed.now found.new.place }
    ensures form { result ≡ 14 → ¬ HasForm numbers.now }
    ensures uncertified { result ≢ 0 → result ≢ 1 → result ≢ 2 → result ≢ 13 → result ≢ 14
        → (s : Setting) × SaysGood numbers.now base.now seed.now s × CertifiesNot s.committee bytes.now result }
    ensures unwritten { result ≢ 0 → certified.new ≡ certified.old }
    ensures named { result ≡ 13 → found.new.named ≡ 1 }
    ensures unnamed { result ≢ 13 → found.new.named ≡ 0 }
{
    certified_with(alloc, numbers, base, seed, bytes, certified, found).number()
}

/// The proposals that these certificates, one behind another, make final for the members of these settings, each of a later view than
/// the one before.
///
/// Answers 0 where `room` begins with them, with their number as the length; 1 where memory ran out; 2, 13 and 14 as
/// `voumlis_proved_settings_check`; 3 where there is no room for them, with their number. Else the place is that of the first
/// certificate that is none such, and the answer why: 4, 5, 6, 15 and 16 as `voumlis_proved_certifies`, and 17 where it is no
/// finalization or not of a later view.
#[unsafe(no_mangle)]
pub extern "C" fn voumlis_proved_finalized_in(
    alloc: Global,
    numbers: &SettingsNumbers,
    base: &[u8],
    seed: &[u8],
    bytes: &[u8],
    room: &mut [CertifiedNumbers],
    found: &mut Found,
) -> u32
    ensures finalized { result ≡ 0
        → (s : Setting) × SaysGood numbers.now base.now seed.now s
        × ((ps : List (Proposed (List ℕ))) × IsChain s.committee 0 bytes.now ps [] × (found.new.length ≡ length ps)
        × IsPut (map (proposal_numbers 2) ps) room.old room.new) }
    ensures room { result ≡ 3
        → (s : Setting) × SaysGood numbers.now base.now seed.now s
        × ((ps : List (Proposed (List ℕ))) × IsChain s.committee 0 bytes.now ps [] × (found.new.length ≡ length ps)
        × (length room.old < length ps)) }
    ensures nothing { result ≡ 2 → SaysNothing numbers.now base.now seed.now }
    ensures fault { result ≡ 13 → HasFault numbers.now base.now seed.now found.new.place }
    ensures form { result ≡ 14 → ¬ HasForm numbers.now }
    ensures broken { result ≢ 0 → result ≢ 3 → result ≢ 1 → result ≢ 2 → result ≢ 13 → result ≢ 14
        → (s : Setting) × SaysGood numbers.now base.now seed.now s
        × (BreaksOff s.committee bytes.now found.new.place result × (found.new.named ≡ 1)) }
    ensures unwritten { result ≢ 0 → room.new ≡ room.old }
    ensures named { result ≡ 13 → found.new.named ≡ 1 }
    ensures unnamed { (result ≡ 0) ⊎ ((result ≡ 3) ⊎ ((result ≡ 2) ⊎ (result ≡ 14))) → found.new.named ≡ 0 }
{
    finalized_with(alloc, numbers, base, seed, bytes, room, found).number()
}
