//! Builds that are asked for, and those that are given back.

ghost use Rattle.std.specs.Prelude.{◌≡◌, ◌∷◌, ◌↔◌, [], ℕ, Bool, true, List, Some, IsOk, IsTrue, IfErr, IfOk, OnOk};
ghost use Rattle.voter_rules.specs.Building.{IsPrepared, context_of};
ghost use Rattle.voter_history.specs.History.{build_released};
ghost use Rattle.simplex_state.specs.Known.{AddsIfTracked};
ghost use Rattle.simplex_state.specs.State as voting;
ghost use Rattle.simplex_member.specs.declared.fault.NodeFault.TheVariants as step_fault;
ghost use Rattle.simplex_member.specs.Allowed.{AreAllowed, IsStopped};
ghost use Rattle.simplex_member.specs.Asked.{HasNumber, build_at, next_number};
ghost use Rattle.simplex_member.specs.Deeds.{Builds};
ghost use Rattle.simplex_member.specs.Layers.{voter_of};
ghost use Rattle.simplex_member.specs.Packet.{Formats};
ghost use Rattle.simplex_member.specs.Point.{History, AsksBuild};
ghost use Rattle.simplex_member.specs.Setup.{Setup};
ghost use Rattle.node_record.specs.Tables.{KeepsTables, build_parts};
ghost use Rattle.node_record.specs.Tables as tabled;
ghost use Rattle.node_outbox.specs.Handing.{AddsDeeds};
ghost use Rattle.node_requests.specs.Asking.{AtAnyAsker, ComesToAsk, is_none};
ghost use Rattle.node_requests.specs.Building.{IsKeptOrFalls};
ghost use Rattle.node_requests.specs.NoneDue.{NoBuildToAsk, NoBuildToGiveBack};

use crate::acted::Acted;
use node_outbox::hand_out;
use node_record::{Building, Tables};
use simplex_member::{Action, NodeFault, Speaks};
use simplex_state::{ProposalRequest, State as Voter};
use types_core::{Digest, Scheme, View};
use types_terms::Elector;
use voter_laws::what_is_known_stays;

/// Asks for the build of the lowest view where one is due, while a number is left for it.
///
/// # Errors
///
/// [`NodeFault::Memory`].
pub fn ask_for_build<S: Scheme<D> + Drop, L: Elector<S, D>, D: Digest>(
    voter: &mut Voter<S, L, D>,
    tables: &mut Tables<S, D>,
    out: &mut Vec<Action<S, D>>,
) -> Result<Acted, NodeFault>
    ensures acts { IfOk result (λ acted.
        AtAnyAsker S.Scheme L.Elector ⟦<S as Speaks<D>>⟧.formats voter.old tables.old (λ f s h.
        ComesToAsk S.Scheme L.Elector f s is_none (NoBuildToAsk S.Scheme f s) voter.new tables.new h out.old.items out.new.items acted)) }
    ensures without_memory { AtAnyAsker S.Scheme L.Elector ⟦<S as Speaks<D>>⟧.formats voter.old tables.old
        (λ f s h. NoBuildToAsk S.Scheme f s h → IsOk result) }
    ensures fault { IfErr result (λ why. why ≡ step_fault.Memory) }
{
    if !tables.has_number() {
        return Ok(Acted::Nothing);
    }
    match voter.try_propose() {
        Some(request) => match hand_build_out(request, tables, out) {
            Ok(()) => Ok(Acted::Did),
            Err(fault) => Err(fault),
        },
        None => Ok(Acted::Nothing),
    }
}

/// Hands a build out that the voter asked for, under the next number.
fn hand_build_out<S: Scheme<D>, D: Digest>(
    request: ProposalRequest<D, S::PublicKey>,
    tables: &mut Tables<S, D>,
    out: &mut Vec<Action<S, D>>,
) -> Result<(), NodeFault>
    requires { tabled.AtEach tables.old (λ low h. HasNumber h) }
    ensures keeps { OnOk result (tabled.AtEach tables.old (λ low h.
        (handoff : Bool)
        → IsTrue handoff ↔ IsPrepared request
        → KeepsTables low tables.new (AsksBuild (next_number h) handoff (context_of request) ∷ h))) }
    ensures acts { OnOk result (tabled.AtEach tables.old (λ low h.
        (f : Formats S D S.PublicKey S.Signature S.Certificate) (handoff : Bool)
        → IsTrue handoff ↔ IsPrepared request
        → AddsDeeds f out.old.items out.new.items (Builds (next_number h) handoff (context_of request) ∷ []))) }
    ensures fault { IfErr result (λ why. why ≡ step_fault.Memory) }
{
    let handoff = request.is_handoff();
    let context = request.into_context();
    let Ok(number) = tables.add_build(Building { handoff, context }) else {
        return Err(NodeFault::Memory);
    };
    let build = Action::Build {
        number,
        handoff,
        context,
    };
    hand_out(build, out)
}

/// Gives the first build back that is superseded, or is for a handoff that is to stop, or drops it where it is left behind.
///
/// # Errors
///
/// [`NodeFault::Memory`].
pub fn give_build_back<S: Scheme<D> + Drop, L: Elector<S, D>, D: Digest>(
    voter: &mut Voter<S, L, D>,
    tables: &mut Tables<S, D>,
) -> Result<Acted, NodeFault>
    ensures acts { IfOk result (λ acted.
        AtAnyAsker S.Scheme L.Elector ⟦<S as Speaks<D>>⟧.formats voter.old tables.old (λ f s h.
        (actions : List (Action S D S.PublicKey S.Signature S.Certificate))
        → ComesToAsk S.Scheme L.Elector f s is_none (NoBuildToGiveBack S.Scheme f s) voter.new tables.new h actions actions acted)) }
    ensures fault { IfErr result (λ why. why ≡ step_fault.Memory) }
{
    let mut from = 0;
    'builds: while let Some((number, building)) = tables.build_from(from) {
        match falls(voter, &building) {
            Ok(true) => {
                tables.end_build(number);
                return Ok(Acted::Did);
            }
            Ok(false) => {}
            Err(fault) => return Err(fault),
        }
        if number == u64::MAX {
            return Ok(Acted::Nothing);
        }
        from = number + 1;
    }
    Ok(Acted::Nothing)
}

/// Whether a build that stands is given back or left behind. In its view one may be asked for again then, unless that is behind.
fn falls<S: Scheme<D> + Drop, L: Elector<S, D>, D: Digest>(
    voter: &mut Voter<S, L, D>,
    building: &Building<D, S::PublicKey>,
) -> Result<bool, NodeFault>
    ensures falls { IfOk result (λ fallen.
        (f : Formats S D S.PublicKey S.Signature S.Certificate) (s : Setup S D S.Certificate)
        (h : History S D S.PublicKey S.Signature S.Certificate) (number : ℕ)
        → AreAllowed S.Scheme f s h
        → build_at h number ≡ Some (build_parts building.now)
        → voting.Keeps S.Scheme L.Elector s.voter voter.old (voter_of s h)
        → IsKeptOrFalls S.Scheme L.Elector f s voter.new h building.now.handoff building.now.context fallen) }
    ensures fault { IfErr result (λ why. why ≡ step_fault.Memory) }
{
    what_is_known_stays::<S, D>();
    let view = building.context.round.view;
    if view < voter.current_view() {
        return Ok(true);
    }
    if stops(voter, building) {
        return release(voter, view);
    }
    match voter.supersede_proposal_request(&building.context) {
        Ok(superseded) => Ok(superseded),
        Err(_) => Err(NodeFault::Memory),
    }
}

/// Whether a build is for a handoff that is to stop.
fn stops<S: Scheme<D> + Drop, L: Elector<S, D>, D: Digest>(
    voter: &Voter<S, L, D>,
    building: &Building<D, S::PublicKey>,
) -> bool
    ensures { (f : Formats S D S.PublicKey S.Signature S.Certificate) (s : Setup S D S.Certificate)
        (h : History S D S.PublicKey S.Signature S.Certificate)
        → voting.Keeps S.Scheme L.Elector s.voter voter.now (voter_of s h)
        → IsTrue result ↔ ((building.now.handoff ≡ true) × IsStopped S.Scheme f s h building.now.context) }
{
    building.handoff
        && voter
            .pending_handoff_abandonment(&building.context)
            .is_some()
}

/// Gives the build in a view back.
fn release<S: Scheme<D> + Drop, L: Elector<S, D>, D: Digest>(
    voter: &mut Voter<S, L, D>,
    view: View,
) -> Result<bool, NodeFault>
    ensures answer { IfOk result (λ given_back. given_back ≡ true) }
    ensures keeps { OnOk result
        (voting.AtEach S.Scheme L.Elector voter.old (λ s h. AddsIfTracked S.Scheme L.Elector s voter.new h view (build_released view))) }
    ensures fault { IfErr result (λ why. why ≡ step_fault.Memory) }
{
    match voter.release_proposal_request(view) {
        Ok(()) => Ok(true),
        Err(_) => Err(NodeFault::Memory),
    }
}
