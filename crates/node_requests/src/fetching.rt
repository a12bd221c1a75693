//! Views that are asked for of other members.

ghost use Rattle.std.specs.Prelude.{◌≡◌, ◌∷◌, [], ℕ, true, IfErr, IfOk};
ghost use Rattle.simplex_member.specs.declared.fault.NodeFault.TheVariants as step_fault;
ghost use Rattle.simplex_member.specs.Deeds.{Sends};
ghost use Rattle.simplex_member.specs.Layers.{finalized_of, repair_of};
ghost use Rattle.simplex_member.specs.Packet.{of_ask};
ghost use Rattle.simplex_member.specs.Point.{History};
ghost use Rattle.simplex_member.specs.Setup.{Setup};
ghost use Rattle.node_record.specs.Tables.{KeepsTables};
ghost use Rattle.simplex_resolver.specs.Keeps as repairing;
ghost use Rattle.node_outbox.specs.Handing.{AddsDeeds};
ghost use Rattle.node_requests.specs.Fetching.{Fetches};

use node_outbox::hand_out;
use node_record::Tables;
use simplex_member::{Action, Asked, Channel, NodeFault, Speaks, repair_and_voter_finalize_alike};
use simplex_resolver::State as Repair;
use std::alloc::Global;
use types_core::{Digest, Participant, Scheme, View, Write};
use voter_rules::config::Again;

/// Asks for this, where it isn't settled and the same was not asked before, or goes again: whether it was asked now.
///
/// # Errors
///
/// [`NodeFault::Memory`].
pub(crate) fn fetch<S: Scheme<D>, D: Digest>(
    alloc: Global,
    asked: Asked,
    again: Again,
    repair: &Repair,
    tables: &mut Tables<S, D>,
    out: &mut Vec<Action<S, D>>,
) -> Result<bool, NodeFault>
    ensures fetches { IfOk result (λ sent.
        (n : ℕ) (s : Setup S D S.Certificate) (h : History S D S.PublicKey S.Signature S.Certificate)
        → s.repair.again ≡ again
        → repairing.Keeps s.voter.length repair.now (repair_of (⟦<S as Speaks<D>>⟧.formats n) h)
        → KeepsTables (finalized_of s h) tables.old h
        → Fetches (⟦<S as Speaks<D>>⟧.formats n) s tables.new h asked out.old.items out.new.items sent) }
    ensures fault { IfErr result (λ why. why ≡ step_fault.Memory) }
{
    repair_and_voter_finalize_alike::<S, D>();
    let Asked { view, ask, to } = asked;
    if repair.settled(view, ask.kind) {
        return Ok(false);
    }
    if tables.was_sent(&asked, again) {
        return Ok(false);
    }
    match tables.add_ask(asked) {
        Ok(()) => send_ask(alloc, view, to, out),
        Err(_) => Err(NodeFault::Memory),
    }
}

/// Sends an ask for a view.
fn send_ask<S: Scheme<D>, D: Digest>(
    alloc: Global,
    view: View,
    to: Option<Participant>,
    out: &mut Vec<Action<S, D>>,
) -> Result<bool, NodeFault>
    ensures sent { IfOk result (λ sent.
        (sent ≡ true) × ((n : ℕ) → AddsDeeds (⟦<S as Speaks<D>>⟧.formats n) out.old.items out.new.items (Sends to (of_ask view) ∷ []))) }
    ensures fault { IfErr result (λ why. why ≡ step_fault.Memory) }
{
    let mut bytes = Vec::new(alloc);
    let Ok(()) = view.write(&mut bytes) else {
        return Err(NodeFault::Memory);
    };
    let send = Action::Send {
        to,
        channel: Channel::Fetches,
        bytes,
    };
    match hand_out(send, out) {
        Ok(()) => Ok(true),
        Err(fault) => Err(fault),
    }
}
