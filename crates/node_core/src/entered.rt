//! The view that is entered.

ghost use Rattle.std.specs.Prelude.{◌≡◌, ◌∷◌, true, IfErr, OnOk};
ghost use Rattle.simplex_state.specs.State as voting;
ghost use Rattle.node_votes.specs.KeepsVotes as accepting;
ghost use Rattle.simplex_member.specs.declared.fault.NodeFault.TheVariants as step_fault;
ghost use Rattle.simplex_member.specs.Layers.{may_enter, voter_of};
ghost use Rattle.simplex_member.specs.Point.{History, Point};
ghost use Rattle.simplex_member.specs.Setup.{Setup};

use node_votes::Acceptance;
use simplex_member::NodeFault;
use simplex_state::State as Voter;
use types_core::{Digest, Scheme};
use types_terms::Elector;

/// Enters the current view, where it wasn't entered before, and drops the votes of views that need not be kept: behind each point by
/// which a view may be entered, once the voter stands there.
///
/// # Errors
///
/// [`NodeFault::Memory`].
pub fn enter<S: Scheme<D> + Drop, L: Elector<S, D>, D: Digest>(
    voter: &Voter<S, L, D>,
    acceptance: &mut Acceptance<S, D>,
) -> Result<(), NodeFault>
    ensures entered { OnOk result ((s : Setup S D S.Certificate) (h : History S D S.PublicKey S.Signature S.Certificate)
        (p : Point S D S.PublicKey S.Signature S.Certificate)
        → may_enter p ≡ true
        → voting.Keeps S.Scheme L.Elector s.voter voter.now (voter_of s (p ∷ h))
        → accepting.KeepsAhead S.Scheme D.PartialEq.eq s acceptance.old h p
        → accepting.Keeps S.Scheme D.PartialEq.eq s acceptance.new (p ∷ h)) }
    ensures fault { IfErr result (λ why. why ≡ step_fault.Memory) }
{
    let current = voter.current_view();
    let floor = voter.views().min_active();
    match acceptance.enter(current, floor) {
        Ok(()) => Ok(()),
        Err(_) => Err(NodeFault::Memory),
    }
}
