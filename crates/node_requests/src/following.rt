//! Views that are given up since their leader gave them up.

ghost use Rattle.std.specs.Prelude.{◌≡◌, ◌↔◌, ℕ, IsOk, IsTrue, IfErr, IfOk};
ghost use Rattle.simplex_state.specs.State as voting;
ghost use Rattle.node_votes.specs.KeepsVotes as accepting;
ghost use Rattle.simplex_member.specs.declared.fault.NodeFault.TheVariants as step_fault;
ghost use Rattle.simplex_member.specs.Allowed.{LeaderGaveUp};
ghost use Rattle.simplex_member.specs.Layers.{latest, voter_of};
ghost use Rattle.simplex_member.specs.Packet.{Formats};
ghost use Rattle.simplex_member.specs.Point.{History};
ghost use Rattle.simplex_member.specs.Setup.{Setup};
ghost use Rattle.node_requests.specs.Following.{FollowsIn, FollowsLeader};

use crate::acted::Acted;
use node_votes::{Acceptance, kept_votes_came_up};
use simplex_member::NodeFault;
use simplex_state::State as Voter;
use types_core::{Digest, Participant, Scheme, View};
use types_terms::Elector;
use voter_history::TimeoutReason;

/// Takes it for a reason to give a view up that a nullify of its leader, another member, was accepted: in the first view, from the
/// current one on, where that is the first reason.
///
/// # Errors
///
/// [`NodeFault::Memory`].
pub fn follow_leader<S: Scheme<D> + Drop, L: Elector<S, D>, D: Digest>(
    me: Participant,
    now: u64,
    voter: &mut Voter<S, L, D>,
    acceptance: &Acceptance<S, D>,
) -> Result<Acted, NodeFault>
    ensures follows { IfOk result (λ acted.
        (s : Setup S D S.Certificate) (h : History S D S.PublicKey S.Signature S.Certificate)
        (f : Formats S D S.PublicKey S.Signature S.Certificate)
        → s.me ≡ me
        → latest h ≡ now
        → voting.Keeps S.Scheme L.Elector s.voter voter.old (voter_of s h)
        → accepting.Keeps S.Scheme D.PartialEq.eq s acceptance.now h
        → FollowsLeader S.Scheme L.Elector f s voter.new h acted) }
    ensures without_memory { (s : Setup S D S.Certificate) (h : History S D S.PublicKey S.Signature S.Certificate)
        (f : Formats S D S.PublicKey S.Signature S.Certificate)
        → s.me ≡ me
        → latest h ≡ now
        → voting.Keeps S.Scheme L.Elector s.voter voter.old (voter_of s h)
        → accepting.Keeps S.Scheme D.PartialEq.eq s acceptance.now h
        → ((view : ℕ) → ¬ LeaderGaveUp S.Scheme f s h view)
        → IsOk result }
    ensures fault { IfErr result (λ why. why ≡ step_fault.Memory) }
{
    kept_votes_came_up::<S, D>();
    let _views = voter.views().lookahead().length.get();
    let mut next = voter.current_view();
    'views: while let Some(view) = voter.views().first_tracked(next) {
        match follow_in(view, me, now, voter, acceptance) {
            Ok(true) => return Ok(Acted::Did),
            Ok(false) => {}
            Err(fault) => return Err(fault),
        }
        if view.get() == u64::MAX {
            return Ok(Acted::Nothing);
        }
        next = view.next();
    }
    Ok(Acted::Nothing)
}

/// Takes it for a reason to give this view up that its leader did, where that is so: whether it is the first reason.
fn follow_in<S: Scheme<D> + Drop, L: Elector<S, D>, D: Digest>(
    view: View,
    me: Participant,
    now: u64,
    voter: &mut Voter<S, L, D>,
    acceptance: &Acceptance<S, D>,
) -> Result<bool, NodeFault>
    ensures follows { IfOk result (λ first.
        (s : Setup S D S.Certificate) (h : History S D S.PublicKey S.Signature S.Certificate)
        (f : Formats S D S.PublicKey S.Signature S.Certificate)
        → s.me ≡ me
        → latest h ≡ now
        → voting.Keeps S.Scheme L.Elector s.voter voter.old (voter_of s h)
        → accepting.Keeps S.Scheme D.PartialEq.eq s acceptance.now h
        → FollowsIn S.Scheme L.Elector f s voter.new h view first) }
    ensures without_memory { (s : Setup S D S.Certificate) (h : History S D S.PublicKey S.Signature S.Certificate)
        (f : Formats S D S.PublicKey S.Signature S.Certificate)
        → s.me ≡ me
        → voting.Keeps S.Scheme L.Elector s.voter voter.old (voter_of s h)
        → accepting.Keeps S.Scheme D.PartialEq.eq s acceptance.now h
        → (¬ LeaderGaveUp S.Scheme f s h view)
        → IsOk result }
    ensures fault { IfErr result (λ why. why ≡ step_fault.Memory) }
{
    if !is_left_by_leader(view, me, voter, acceptance) {
        return Ok(false);
    }
    match voter.trigger_timeout(now, view, TimeoutReason::LeaderNullify) {
        Ok(first) => Ok(first),
        Err(_) => Err(NodeFault::Memory),
    }
}

/// Whether a nullify of the view's leader, another member, was accepted.
fn is_left_by_leader<S: Scheme<D> + Drop, L: Elector<S, D>, D: Digest>(
    view: View,
    me: Participant,
    voter: &Voter<S, L, D>,
    acceptance: &Acceptance<S, D>,
) -> bool
    ensures { (s : Setup S D S.Certificate) (h : History S D S.PublicKey S.Signature S.Certificate)
        (f : Formats S D S.PublicKey S.Signature S.Certificate)
        → s.me ≡ me
        → voting.Keeps S.Scheme L.Elector s.voter voter.now (voter_of s h)
        → accepting.Keeps S.Scheme D.PartialEq.eq s acceptance.now h
        → IsTrue result ↔ LeaderGaveUp S.Scheme f s h view }
{
    match voter.views().leader_index(view) {
        Some(leader) => leader != me && acceptance.has_nullify(view, leader),
        None => false,
    }
}
