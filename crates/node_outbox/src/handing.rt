//! What is handed out.

ghost use Rattle.std.specs.Prelude.{◌≡◌, ◌<◌, ◌∷◌, [], false, map, option_to_list, if◌then◌else◌, None, IfErr, IsOk, OnOk, vec_capacity, vec_len};
ghost use Rattle.simplex_messages.specs.declared.activity.Activity.TheVariants as activity;
ghost use Rattle.simplex_member.specs.declared.fault.NodeFault.TheVariants as step_fault;
ghost use Rattle.simplex_member.specs.Deeds.{Blocks, Deed, Finalizes, IsAction, IsPlan, Reports, own_way};
ghost use Rattle.simplex_member.specs.Packet.{Formats};
ghost use Rattle.node_outbox.specs.Handing.{AddsDeeds};

use messages_certificates::Notarization;
use simplex_member::{Action, NodeFault};
use simplex_messages::Activity;
use std::alloc::Global;
use types_core::{Digest, Duplicate, Participant, Proposal, Round, Scheme};
use types_terms::Plan;

/// Hands an action out, behind those before.
///
/// # Errors
///
/// [`NodeFault::Memory`], where no room was made for it before.
pub fn hand_out<S: Scheme<D>, D: Digest>(
    action: Action<S, D>,
    out: &mut Vec<Action<S, D>>,
) -> Result<(), NodeFault>
    ensures done { OnOk result ((f : Formats S D S.PublicKey S.Signature S.Certificate)
        (deed : Deed S D S.PublicKey S.Signature S.Certificate)
        → IsAction f action deed
        → AddsDeeds f out.old.items out.new.items (deed ∷ [])) }
    ensures without_memory { vec_len out.old < vec_capacity out.old → IsOk result }
    ensures fault { IfErr result (λ why. why ≡ step_fault.Memory) }
{
    let Ok(()) = out.push(action) else {
        return Err(NodeFault::Memory);
    };
    Ok(())
}

/// Reports this, where there is anything to report.
///
/// # Errors
///
/// [`NodeFault::Memory`].
pub fn report_if<S: Scheme<D>, D: Digest>(
    report: Option<Activity<S, D>>,
    out: &mut Vec<Action<S, D>>,
) -> Result<(), NodeFault>
    ensures done { OnOk result ((f : Formats S D S.PublicKey S.Signature S.Certificate)
        → AddsDeeds f out.old.items out.new.items (map Reports (option_to_list report))) }
    ensures without_memory { report ≡ None → IsOk result }
    ensures fault { IfErr result (λ why. why ≡ step_fault.Memory) }
{
    match report {
        Some(report) => hand_out(Action::Report(report), out),
        None => Ok(()),
    }
}

/// Tells that a proposal is final, if there is one.
///
/// # Errors
///
/// [`NodeFault::Memory`].
pub fn hand_out_final<S: Scheme<D>, D: Digest>(
    finalized: Option<Proposal<D>>,
    out: &mut Vec<Action<S, D>>,
) -> Result<(), NodeFault>
    ensures done { OnOk result ((f : Formats S D S.PublicKey S.Signature S.Certificate)
        → AddsDeeds f out.old.items out.new.items (map Finalizes (option_to_list finalized))) }
    ensures without_memory { finalized ≡ None → IsOk result }
    ensures fault { IfErr result (λ why. why ≡ step_fault.Memory) }
{
    match finalized {
        Some(proposal) => hand_out(Action::Finalized(proposal), out),
        None => Ok(()),
    }
}

/// Blocks these members.
///
/// # Errors
///
/// [`NodeFault::Memory`].
pub fn block_all<S: Scheme<D>, D: Digest>(
    members: &[Participant],
    out: &mut Vec<Action<S, D>>,
) -> Result<(), NodeFault>
    ensures done { OnOk result
        ((f : Formats S D S.PublicKey S.Signature S.Certificate) → AddsDeeds f out.old.items out.new.items (map Blocks members.now)) }
    ensures without_memory { members.now ≡ [] → IsOk result }
    ensures fault { IfErr result (λ why. why ≡ step_fault.Memory) }
{
    for member in members {
        match hand_out(Action::Block(*member), out) {
            Ok(()) => {}
            Err(fault) => return Err(fault),
        }
    }
    Ok(())
}

/// Reports a notarization on which the verdict is true, and one on which it is false not.
///
/// # Errors
///
/// [`NodeFault::Memory`].
pub fn report_verdict<S: Scheme<D>, D: Digest>(
    alloc: Global,
    notarization: &Notarization<S, D>,
    ok: bool,
    out: &mut Vec<Action<S, D>>,
) -> Result<(), NodeFault>
    ensures acts { OnOk result ((f : Formats S D S.PublicKey S.Signature S.Certificate)
        → AddsDeeds f out.old.items out.new.items (if ok then Reports (activity.Certification notarization.now) ∷ [] else [])) }
    ensures without_memory { ok ≡ false → IsOk result }
    ensures fault { IfErr result (λ why. why ≡ step_fault.Memory) }
{
    if !ok {
        return Ok(());
    }
    match notarization.duplicate(alloc) {
        Ok(copy) => hand_out(Action::Report(Activity::Certification(copy)), out),
        Err(_) => Err(NodeFault::Memory),
    }
}

/// How an own payload is handed on: as the application will for a handoff, and else to all.
pub fn own_plan(handoff: bool, round: Round) -> Plan<Participant>
    ensures { IsPlan result (own_way handoff round) }
{
    if handoff {
        return Plan::Prepare { round };
    }
    Plan::Propose { round }
}
