//! What a node's layers begin with, and what each is told of an artifact that the record has.

ghost use Rattle.std.specs.Prelude.{◌≡◌, ◌++◌, ◌∷◌, ℕ, Bool, List, None, Some, IfOk, OnOk, map, option_map, option_to_list, if◌then◌else◌};
ghost use Rattle.types_core.specs.Positions.{HasRoom};
ghost use Rattle.messages_certificates.specs.declared.artifact.Artifact.{Artifact};
ghost use Rattle.messages_certificates.specs.ProposalCertificate.{Finalization, Notarization};
ghost use Rattle.messages_certificates.specs.Artifact.{artifact_round};
ghost use Rattle.messages_certificates.specs.Certificate.{any_certificate_spelling, as_notarization};
ghost use Rattle.simplex_messages.specs.declared.activity.Activity.TheVariants as activity;
ghost use Rattle.simplex_record.specs.declared.owner.Owner.{Owner};
ghost use Rattle.voter_history.specs.History.{seen, started};
ghost use Rattle.voter_rounds.specs.Rounds.{Takes};
ghost use Rattle.simplex_state.specs.State as voting;
ghost use Rattle.simplex_resolver.specs.RepairHistory.{Judged};
ghost use Rattle.simplex_resolver.specs.Keeps as repairing;
ghost use Rattle.node_record.specs.Recorded.{HoldsRecord};
ghost use Rattle.simplex_member.specs.declared.fault.NodeFault.TheVariants as step_fault;
ghost use Rattle.simplex_member.specs.Deeds.{AreActions, Deed, Finalizes, Reports};
ghost use Rattle.simplex_member.specs.Layers.{finds, repair_found, repair_of};
ghost use Rattle.simplex_member.specs.Packet.{Formats};
ghost use Rattle.simplex_member.specs.Point.{History};
ghost use Rattle.simplex_member.specs.Recorded.{finalization_in, notarization_in, record_of, reported};
ghost use Rattle.simplex_member.specs.Setup.{Setup, genesis_of};
ghost use Rattle.node_core.specs.GoingThrough.{IsRecordOf};
ghost use Rattle.node_core.specs.Learning.{IsNew};
ghost use Rattle.node_core.specs.Recalling.{CanLearn, HasNotarization, IsOnRecorded};

use crate::saying::Said;
use crate::told_layers::{give, judge_repair, update_repair};
use messages_certificates::Artifact;
use node_outbox::{hand_out, report_if};
use node_record::Recorded;
use simplex_member::{Action, NodeFault, Speaks};
use simplex_messages::Activity;
use simplex_resolver::State as Repair;
use simplex_state::State as Voter;
use std::alloc::{AllocError, Global};
use types_core::{Digest, Duplicate, Scheme, View};
use types_terms::Elector;
use voter_rules::Floor;

/// The payload of view 0, where that is what a node starts from. Behind a finalization that it starts from none is known.
pub(crate) fn genesis_of<S: Scheme<D>, D: Digest>(floor: &Floor<S, D>) -> Option<D>
    ensures { result ≡ genesis_of floor.now }
{
    match floor {
        Floor::Genesis(payload) => Some(*payload),
        Floor::Finalized(_) => None,
    }
}

/// Starts the voter at this moment, on the payload of view 0 where that is known.
///
/// # Errors
///
/// `AllocError` where memory ran out.
pub(crate) fn start_voter<S: Scheme<D> + Drop, L: Elector<S, D>, D: Digest>(
    voter: &mut Voter<S, L, D>,
    now: u64,
    genesis: Option<D>,
) -> Result<(), AllocError>
    ensures { OnOk result
        (voting.AtEach S.Scheme L.Elector voter.old (λ s h. voting.Keeps S.Scheme L.Elector s voter.new (started now genesis ∷ h))) }
{
    match genesis {
        Some(payload) => voter.set_genesis(now, payload),
        None => voter.begin(now),
    }
}

/// Tells the voter of an artifact of a view with room, which is new to it where it is a certificate, and on what it knows where it is a
/// verdict.
///
/// # Errors
///
/// `AllocError` where memory ran out.
pub(crate) fn tell_voter<S: Scheme<D> + Drop, L: Elector<S, D>, D: Digest>(
    voter: &mut Voter<S, L, D>,
    alloc: Global,
    now: u64,
    artifact: &Artifact<S, D>,
) -> Result<(), AllocError>
    requires { CanLearn S.Scheme L.Elector voter.old artifact.now }
    ensures { OnOk result (voting.AtEach S.Scheme L.Elector voter.old (λ s h.
        HasRoom s.length (artifact_round artifact.now).view
        → IsNew s h artifact.now
        → (taken : Bool) × Takes (seen s h) artifact.now taken × voting.Keeps S.Scheme L.Elector s voter.new
        (finds now artifact.now taken ++ h))) }
{
    voter.replay(artifact)?;
    match Said::from(artifact.duplicate(alloc)?) {
        Said::Vote(_) => Ok(()),
        Said::Certificate(certificate) => give(alloc, now, &certificate, voter),
        Said::Verdict(round, ok) => match voter.certified(alloc, now, round.view, ok)? {
            Some(_) => Ok(()),
            None => unreachable!(),
        },
    }
}

/// Tells the repair: of a certificate as it is, of a verdict with the notarization that is recorded.
///
/// # Errors
///
/// `AllocError` where memory ran out.
pub(crate) fn tell_repair<S: Scheme<D>, D: Digest>(
    repair: &mut Repair,
    alloc: Global,
    recorded: &Recorded<S, D>,
    artifact: &Artifact<S, D>,
) -> Result<(), AllocError>
    requires { IsOnRecorded recorded.now artifact.now }
    ensures { OnOk result ((n : ℕ) (s : Setup S D S.Certificate) (h : History S D S.PublicKey S.Signature S.Certificate)
        (rest : List (Artifact S D S.PublicKey S.Signature S.Certificate))
        → HasRoom s.voter.length (artifact_round artifact.now).view
        → IsRecordOf S.Scheme s recorded.now (record_of h ++ artifact.now ∷ rest)
        → repairing.Keeps s.voter.length repair.old (repair_of (⟦<S as Speaks<D>>⟧.formats n) h)
        → repairing.Keeps s.voter.length repair.new
        (repair_found (⟦<S as Speaks<D>>⟧.formats n) h artifact.now ++ repair_of (⟦<S as Speaks<D>>⟧.formats n) h)) }
{
    match Said::from(artifact.duplicate(alloc)?) {
        Said::Vote(_) => Ok(()),
        Said::Certificate(certificate) => match update_repair(alloc, &certificate, repair) {
            Ok(()) => Ok(()),
            Err(fault) => Err(memory_alone(fault)),
        },
        Said::Verdict(round, ok) => judge(repair, alloc, recorded, round.view, ok),
    }
}

/// Tells the repair of a verdict on the recorded notarization of a view.
fn judge<S: Scheme<D>, D: Digest>(
    repair: &mut Repair,
    alloc: Global,
    recorded: &Recorded<S, D>,
    view: View,
    ok: bool,
) -> Result<(), AllocError>
    requires { HasNotarization recorded.now view }
    ensures { OnOk result ((owner : Owner) (xs : List (Artifact S D S.PublicKey S.Signature S.Certificate))
        → HoldsRecord owner recorded.now xs
        → (c : Notarization S D S.PublicKey S.Signature S.Certificate) × (notarization_in xs view ≡ Some c) × repairing.AtEach repair.old
        (λ views items.
        HasRoom views view
        → repairing.Keeps views repair.new
        (Judged view (any_certificate_spelling D.spelling S.Certificate.spelling (as_notarization c)) ok ∷ items))) }
{
    match recorded.notarization(view) {
        Some(certificate) => {
            let copy = certificate.duplicate(alloc)?;
            match judge_repair(alloc, copy, ok, repair) {
                Ok(()) => Ok(()),
                Err(fault) => Err(memory_alone(fault)),
            }
        }
        None => unreachable!(),
    }
}

/// Reports an artifact that is recorded.
///
/// # Errors
///
/// `AllocError` where memory ran out.
pub(crate) fn report<S: Scheme<D>, D: Digest>(
    alloc: Global,
    recorded: &Recorded<S, D>,
    artifact: &Artifact<S, D>,
    out: &mut Vec<Action<S, D>>,
) -> Result<(), AllocError>
    ensures { OnOk result ((f : Formats S D S.PublicKey S.Signature S.Certificate) (s : Setup S D S.Certificate)
        (before rest : List (Artifact S D S.PublicKey S.Signature S.Certificate))
        (deeds : List (Deed S D S.PublicKey S.Signature S.Certificate))
        → IsRecordOf S.Scheme s recorded.now (before ++ artifact.now ∷ rest)
        → AreActions f out.old.items deeds
        → AreActions f out.new.items (deeds ++ map Reports (reported before artifact.now))) }
{
    let report = report_of(alloc, recorded, artifact)?;
    match report_if(report, out) {
        Ok(()) => Ok(()),
        Err(fault) => Err(memory_alone(fault)),
    }
}

/// What an artifact that is recorded is reported as: all but a false verdict.
fn report_of<S: Scheme<D>, D: Digest>(
    alloc: Global,
    recorded: &Recorded<S, D>,
    artifact: &Artifact<S, D>,
) -> Result<Option<Activity<S, D>>, AllocError>
    ensures { IfOk result (λ report.
        (s : Setup S D S.Certificate) (before rest : List (Artifact S D S.PublicKey S.Signature S.Certificate))
        → IsRecordOf S.Scheme s recorded.now (before ++ artifact.now ∷ rest)
        → option_to_list report ≡ reported before artifact.now) }
{
    match Said::from(artifact.duplicate(alloc)?) {
        Said::Vote(vote) => Ok(Some(Activity::from(vote))),
        Said::Certificate(certificate) => Ok(Some(Activity::from(certificate))),
        Said::Verdict(round, ok) => report_of_verdict(alloc, recorded, round.view, ok),
    }
}

/// What a verdict on a view is reported as: a true one with the recorded notarization, a false one not at all.
fn report_of_verdict<S: Scheme<D>, D: Digest>(
    alloc: Global,
    recorded: &Recorded<S, D>,
    view: View,
    ok: bool,
) -> Result<Option<Activity<S, D>>, AllocError>
    ensures { IfOk result (λ report.
        (owner : Owner) (xs : List (Artifact S D S.PublicKey S.Signature S.Certificate))
        → HoldsRecord owner recorded.now xs
        → report ≡ (if ok then option_map activity.Certification (notarization_in xs view) else None)) }
{
    if !ok {
        return Ok(None);
    }
    match recorded.notarization(view) {
        Some(certificate) => Ok(Some(Activity::Certification(certificate.duplicate(alloc)?))),
        None => Ok(None),
    }
}

/// Hands out that the recorded finalization of a view is final, where there is one.
///
/// # Errors
///
/// `AllocError` where memory ran out.
pub(crate) fn finalize<S: Scheme<D>, D: Digest>(
    recorded: &Recorded<S, D>,
    view: View,
    out: &mut Vec<Action<S, D>>,
) -> Result<(), AllocError>
    ensures { OnOk result ((f : Formats S D S.PublicKey S.Signature S.Certificate) (owner : Owner)
        (xs : List (Artifact S D S.PublicKey S.Signature S.Certificate)) (deeds : List (Deed S D S.PublicKey S.Signature S.Certificate))
        → HoldsRecord owner recorded.now xs
        → AreActions f out.old.items deeds
        → AreActions f out.new.items (deeds ++ map (λ (c : Finalization S D S.PublicKey S.Signature S.Certificate). Finalizes c.proposal)
        (option_to_list (finalization_in xs view)))) }
{
    match recorded.finalization(view) {
        Some(finalization) => match hand_out(Action::Finalized(finalization.proposal), out) {
            Ok(()) => Ok(()),
            Err(fault) => Err(memory_alone(fault)),
        },
        None => Ok(()),
    }
}

/// Want of memory, where a layer tells of nothing else.
fn memory_alone(fault: NodeFault) -> AllocError
    requires { fault ≡ step_fault.Memory }
{
    match fault {
        NodeFault::Memory => AllocError,
        NodeFault::Device | NodeFault::Failed => unreachable!(),
    }
}
