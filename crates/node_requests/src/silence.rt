//! Leaders that are silent.

ghost use Rattle.std.specs.Prelude.{List, ◌≡◌, IfErr, IfOk, IsOk};
ghost use Rattle.simplex_member.specs.declared.action.Action.{Action};
ghost use Rattle.simplex_member.specs.declared.fault.NodeFault.TheVariants as step_fault;
ghost use Rattle.simplex_member.specs.Allowed.{IsSilent};
ghost use Rattle.simplex_member.specs.Layers.{latest};
ghost use Rattle.node_requests.specs.Asking.{AtAnyAsker, ComesToAsk, is_none};
ghost use Rattle.node_requests.specs.NoneDue.{NoSilence};
ghost use Rattle.node_requests.specs.Silence.{IsSilenceOf, IsSilentFrom};

use crate::acted::Acted;
use node_record::Tables;
use simplex_member::{NodeFault, Speaks};
use simplex_state::State as Voter;
use types_core::{Digest, Participant, Scheme};
use types_terms::Elector;
use voter_history::TimeoutReason;

/// How long another leader may be silent.
#[derive(Clone, Copy)]
pub struct Silence {
    /// The member's own index.
    pub me: Participant,
    /// The time, in milliseconds, where views are given up for that.
    pub time: Option<u64>,
}

/// From when on the leader of the current view counts as silent, where another member leads it and views are given up for that.
pub(crate) fn silent_from<S: Scheme<D> + Drop, L: Elector<S, D>, D: Digest>(
    silence: Silence,
    voter: &Voter<S, L, D>,
    tables: &Tables<S, D>,
) -> Option<u64>
    ensures { AtAnyAsker S.Scheme L.Elector ⟦<S as Speaks<D>>⟧.formats voter.now tables.now
        (λ f s h. IsSilenceOf s silence → IsSilentFrom S.Scheme f s h result) }
{
    let Some(time) = silence.time else {
        return None;
    };
    let Some(leader) = voter.views().leader_index(voter.current_view()) else {
        return None;
    };
    if leader == silence.me {
        return None;
    }
    Some(tables.last_heard(leader).saturating_add(time))
}

/// Takes it for a reason to give the current view up that its leader is silent, where that is so and is the first reason.
///
/// # Errors
///
/// [`NodeFault::Memory`].
pub fn give_silent_leader_up<S: Scheme<D> + Drop, L: Elector<S, D>, D: Digest>(
    silence: Silence,
    voter: &mut Voter<S, L, D>,
    tables: &Tables<S, D>,
) -> Result<Acted, NodeFault>
    ensures acts { IfOk result (λ acted.
        AtAnyAsker S.Scheme L.Elector ⟦<S as Speaks<D>>⟧.formats voter.old tables.now (λ f s h.
        IsSilenceOf s silence
        → (actions : List (Action S D S.PublicKey S.Signature S.Certificate))
        → ComesToAsk S.Scheme L.Elector f s is_none (NoSilence S.Scheme f s) voter.new tables.now h actions actions acted)) }
    ensures without_memory { AtAnyAsker S.Scheme L.Elector ⟦<S as Speaks<D>>⟧.formats voter.old tables.now
        (λ f s h. IsSilenceOf s silence → (¬ IsSilent S.Scheme f s h (latest h)) → IsOk result) }
    ensures fault { IfErr result (λ why. why ≡ step_fault.Memory) }
{
    let Some(moment) = silent_from(silence, voter, tables) else {
        return Ok(Acted::Nothing);
    };
    let now = tables.moment();
    if now < moment {
        return Ok(Acted::Nothing);
    }
    let view = voter.current_view();
    match voter.trigger_timeout(now, view, TimeoutReason::Inactivity) {
        Ok(true) => Ok(Acted::Did),
        Ok(false) => Ok(Acted::Nothing),
        Err(_) => Err(NodeFault::Memory),
    }
}
