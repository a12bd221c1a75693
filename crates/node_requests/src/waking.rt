//! When the current view is given up, and when the member wants to be told the time.

ghost use Rattle.std.specs.Prelude.{◌≡◌, ◌↔◌, ◌⊎◌, ◌≤◌, ◌<◌, ◌^◌, ℕ, IsTrue, IfErr, IfOk, OnOk};
ghost use Rattle.voter_rules.specs.GivingUp.{MayGiveUp, NullifyIsDue};
ghost use Rattle.simplex_state.specs.State as voting;
ghost use Rattle.simplex_member.specs.declared.fault.NodeFault.TheVariants as step_fault;
ghost use Rattle.simplex_member.specs.Layers.{current_of, latest, voter_of};
ghost use Rattle.simplex_member.specs.Member.{EndsWith, IsGivenUpAt};
ghost use Rattle.node_requests.specs.Asking.{AtAnyAsker};
ghost use Rattle.node_requests.specs.Silence.{IsSilenceOf, SilenceCounts};
ghost use Rattle.node_requests.specs.Waking.{after_poll, wakes};

use crate::silence::{Silence, silent_from};
use node_record::Tables;
use simplex_member::{NodeFault, Speaks};
use simplex_state::State as Voter;
use types_core::{Digest, Scheme};
use types_terms::Elector;
use voter_history::TimeoutReason;
use voter_laws::the_timeout_is_the_earliest;

/// Whether the moment has come at which the current view is given up, or given up once more.
///
/// # Errors
///
/// [`NodeFault::Memory`].
pub fn is_given_up<S: Scheme<D> + Drop, L: Elector<S, D>, D: Digest>(
    voter: &mut Voter<S, L, D>,
    tables: &Tables<S, D>,
) -> Result<bool, NodeFault>
    ensures looks { OnOk result (AtAnyAsker S.Scheme L.Elector ⟦<S as Speaks<D>>⟧.formats voter.old tables.now
        (λ f s h. voting.Keeps S.Scheme L.Elector s.voter voter.new (voter_of s (after_poll s h)))) }
    ensures due { IfOk result (λ is_due.
        AtAnyAsker S.Scheme L.Elector ⟦<S as Speaks<D>>⟧.formats voter.old tables.now (λ f s h.
        MayGiveUp s.voter (voter_of s (after_poll s h)) (current_of s h)
        → IsTrue is_due ↔ NullifyIsDue s.voter (voter_of s (after_poll s h)) (latest h))) }
    ensures fault { IfErr result (λ why. why ≡ step_fault.Memory) }
{
    the_timeout_is_the_earliest::<S, D>();
    let now = tables.moment();
    match voter.next_timeout(now) {
        Ok(Some((moment, _))) => Ok(moment <= now),
        Ok(None) => Ok(false),
        Err(_) => Err(NodeFault::Memory),
    }
}

/// The earliest moment at which, with nothing else coming in, the current view is given up, or given up once more.
///
/// # Errors
///
/// [`NodeFault::Memory`].
pub fn next_wake<S: Scheme<D> + Drop, L: Elector<S, D>, D: Digest>(
    silence: Silence,
    voter: &mut Voter<S, L, D>,
    tables: &Tables<S, D>,
) -> Result<Option<u64>, NodeFault>
    ensures looks { OnOk result (AtAnyAsker S.Scheme L.Elector ⟦<S as Speaks<D>>⟧.formats voter.old tables.now
        (λ f s h. voting.Keeps S.Scheme L.Elector s.voter voter.new (voter_of s (after_poll s h)))) }
    ensures wakes { IfOk result (λ wake.
        AtAnyAsker S.Scheme L.Elector ⟦<S as Speaks<D>>⟧.formats voter.old tables.now (λ f s h.
        IsSilenceOf s silence → (¬ IsGivenUpAt S.Scheme f s (after_poll s h) (latest h)) → EndsWith S.Scheme f s (after_poll s h) (wakes wake))) }
    ensures fault { IfErr result (λ why. why ≡ step_fault.Memory) }
{
    the_timeout_is_the_earliest::<S, D>();
    let length = voter.views().lookahead().length;
    let has_room = voter.current_view().has_room(length);
    match voter.next_timeout(tables.moment()) {
        Ok(Some((moment, why))) => {
            if !has_room {
                return Ok(None);
            }
            if why == TimeoutReason::Retry {
                return Ok(Some(moment));
            }
            Ok(Some(earliest(moment, silence, voter, tables)))
        }
        Ok(None) => Ok(None),
        Err(_) => Err(NodeFault::Memory),
    }
}

/// The earlier one of the moment of a deadline, and of that from which on it would count that the leader is silent.
fn earliest<S: Scheme<D> + Drop, L: Elector<S, D>, D: Digest>(
    moment: u64,
    silence: Silence,
    voter: &Voter<S, L, D>,
    tables: &Tables<S, D>,
) -> u64
    ensures { AtAnyAsker S.Scheme L.Elector ⟦<S as Speaks<D>>⟧.formats voter.now tables.now
        (λ f s h. IsSilenceOf s silence → (t : ℕ) → t < 2 ^ 64 → (result ≤ t) ↔ ((moment ≤ t) ⊎ SilenceCounts S.Scheme f s h t)) }
{
    if !voter.counts_silence() {
        return moment;
    }
    match silent_from(silence, voter, tables) {
        Some(silent) => moment.min(silent),
        None => moment,
    }
}
