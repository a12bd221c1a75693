//! What the application answers: what it built, and whether a proposal is good.

ghost use Rattle.std.specs.Prelude.{◌≡◌, List, None, Some, IfErr, OnOk};
ghost use Rattle.simplex_state.specs.State as voting;
ghost use Rattle.simplex_member.specs.declared.action.Action.{Action};
ghost use Rattle.simplex_member.specs.declared.event.Event.TheVariants as event;
ghost use Rattle.simplex_member.specs.declared.fault.NodeFault.TheVariants as step_fault;
ghost use Rattle.simplex_member.specs.Asked.{build_at, check_at};
ghost use Rattle.simplex_member.specs.Layers.{voter_of};
ghost use Rattle.simplex_member.specs.Packet.{Formats};
ghost use Rattle.simplex_member.specs.Point.{History};
ghost use Rattle.simplex_member.specs.Setup.{Setup};
ghost use Rattle.node_record.specs.Tables.{build_parts};
ghost use Rattle.node_input.specs.Answering.{TakesAnswer, TakesEvent};
ghost use Rattle.node_core.specs.Keeps.{AtOwn, book_of};

use journal_single::Disk;
use node_core::Core;
use node_outbox::{hand_out, own_plan};
use node_record::Building;
use node_votes::silent_points_leave_votes;
use simplex_member::{Action, NodeFault, Speaks};
use simplex_state::State as Voter;
use types_core::{Digest, Scheme, View};
use types_terms::Elector;
use voter_history::TimeoutReason;

/// Tells the voter what was found of the proposal of a view.
///
/// # Errors
///
/// [`NodeFault::Memory`].
fn tell_answer<S: Scheme<D> + Drop, L: Elector<S, D>, D: Digest>(
    now: u64,
    view: View,
    answer: Option<bool>,
    voter: &mut Voter<S, L, D>,
) -> Result<(), NodeFault>
    ensures told { OnOk result ((f : Formats S D S.PublicKey S.Signature S.Certificate) (s : Setup S D S.Certificate)
        (h : History S D S.PublicKey S.Signature S.Certificate)
        → voting.Keeps S.Scheme L.Elector s.voter voter.old (voter_of s h)
        → TakesAnswer S.Scheme L.Elector f s voter.new h now view answer) }
    ensures fault { IfErr result (λ why. why ≡ step_fault.Memory) }
{
    match answer {
        Some(true) => match voter.verified(view) {
            Ok(_) => Ok(()),
            Err(_) => Err(NodeFault::Memory),
        },
        Some(false) => match voter.verification_failed(now, view, TimeoutReason::InvalidProposal) {
            Ok(_) => Ok(()),
            Err(_) => Err(NodeFault::Memory),
        },
        None => match voter.verification_failed(now, view, TimeoutReason::IgnoredProposal) {
            Ok(_) => Ok(()),
            Err(_) => Err(NodeFault::Memory),
        },
    }
}

/// Takes what was built under a number that stands, or that nothing was.
///
/// # Errors
///
/// [`NodeFault::Memory`].
pub(crate) fn take_built<S: Scheme<D> + Drop, L: Elector<S, D>, D: Digest, K: Disk>(
    core: &mut Core<S, L, D, K>,
    number: u64,
    building: Building<D, S::PublicKey>,
    payload: Option<D>,
    out: &mut Vec<Action<S, D>>,
) -> Result<(), NodeFault>
    ensures taken { OnOk result (AtOwn S.Scheme L.Elector K.Disk ⟦<S as Speaks<D>>⟧.formats core.old (λ f s h.
        build_at h number ≡ Some (build_parts building)
        → TakesEvent S.Scheme L.Elector K.Disk f s core.new h (event.Built number payload) out.old.items out.new.items)) }
    ensures book { book_of core.new ≡ book_of core.old }
    ensures fault { IfErr result (λ why. why ≡ step_fault.Memory) }
{
    match payload {
        Some(payload) => take_payload(core, number, building, payload, out),
        None => take_no_payload(core, number, building),
    }
}

/// Takes the payload that was built under a number: where it is proposed, it is handed on.
fn take_payload<S: Scheme<D> + Drop, L: Elector<S, D>, D: Digest, K: Disk>(
    core: &mut Core<S, L, D, K>,
    number: u64,
    building: Building<D, S::PublicKey>,
    payload: D,
    out: &mut Vec<Action<S, D>>,
) -> Result<(), NodeFault>
    ensures taken { OnOk result (AtOwn S.Scheme L.Elector K.Disk ⟦<S as Speaks<D>>⟧.formats core.old (λ f s h.
        build_at h number ≡ Some (build_parts building)
        → TakesEvent S.Scheme L.Elector K.Disk f s core.new h (event.Built number (Some payload)) out.old.items out.new.items)) }
    ensures book { book_of core.new ≡ book_of core.old }
    ensures fault { IfErr result (λ why. why ≡ step_fault.Memory) }
{
    silent_points_leave_votes::<S, D>();
    let now = core.tables.moment();
    let Ok(took) = core.voter.proposed(now, &building.context, payload) else {
        return Err(NodeFault::Memory);
    };
    core.tables.end_build(number);
    if !took {
        return Ok(());
    }
    let plan = own_plan(building.handoff, building.context.round);
    hand_out(Action::Forward { payload, plan }, out)
}

/// Takes it that nothing was built under a number: a reason to give its view up.
fn take_no_payload<S: Scheme<D> + Drop, L: Elector<S, D>, D: Digest, K: Disk>(
    core: &mut Core<S, L, D, K>,
    number: u64,
    building: Building<D, S::PublicKey>,
) -> Result<(), NodeFault>
    ensures taken { OnOk result (AtOwn S.Scheme L.Elector K.Disk ⟦<S as Speaks<D>>⟧.formats core.old (λ f s h.
        build_at h number ≡ Some (build_parts building)
        → (actions : List (Action S D S.PublicKey S.Signature S.Certificate))
        → TakesEvent S.Scheme L.Elector K.Disk f s core.new h (event.Built number None) actions actions)) }
    ensures book { book_of core.new ≡ book_of core.old }
    ensures fault { IfErr result (λ why. why ≡ step_fault.Memory) }
{
    silent_points_leave_votes::<S, D>();
    let now = core.tables.moment();
    let view = building.context.round.view;
    match core
        .voter
        .trigger_timeout(now, view, TimeoutReason::MissingProposal)
    {
        Ok(_) => {}
        Err(_) => return Err(NodeFault::Memory),
    }
    core.tables.end_build(number);
    Ok(())
}

/// Takes what was found of the proposal that was to be verified under a number that stands.
///
/// # Errors
///
/// [`NodeFault::Memory`].
pub(crate) fn take_checked<S: Scheme<D> + Drop, L: Elector<S, D>, D: Digest, K: Disk>(
    core: &mut Core<S, L, D, K>,
    number: u64,
    view: View,
    answer: Option<bool>,
) -> Result<(), NodeFault>
    ensures taken { OnOk result (AtOwn S.Scheme L.Elector K.Disk ⟦<S as Speaks<D>>⟧.formats core.old (λ f s h.
        check_at h number ≡ Some view
        → (actions : List (Action S D S.PublicKey S.Signature S.Certificate))
        → TakesEvent S.Scheme L.Elector K.Disk f s core.new h (event.Checked number answer) actions actions)) }
    ensures book { book_of core.new ≡ book_of core.old }
    ensures fault { IfErr result (λ why. why ≡ step_fault.Memory) }
{
    silent_points_leave_votes::<S, D>();
    let now = core.tables.moment();
    match tell_answer(now, view, answer, &mut core.voter) {
        Ok(()) => {}
        Err(fault) => return Err(fault),
    }
    core.tables.end_check(number);
    Ok(())
}
