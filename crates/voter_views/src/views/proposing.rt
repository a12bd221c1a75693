//! What a voter builds, and what it finds good.

ghost use Rattle.std.specs.Prelude.{◌≡◌, ◌↔◌, if◌then◌else◌, false, ◌∷◌, is_some, IsTrue, IfOk, OnOk, MatchOption};
ghost use Rattle.voter_history.specs.Held.{held, Agrees, IsUnverified};
ghost use Rattle.voter_history.specs.Past.{offers, has_nullified, MayPropose};
ghost use Rattle.simplex_round.specs.Round.{IsLeader};
ghost use Rattle.voter_history.specs.History.{build_asked, build_released, built, confirmed, seen, unbound};
ghost use Rattle.voter_history.specs.Leaders.{leader};
ghost use Rattle.voter_views.specs.Views.{Keeps, AtEach, round_of};

use crate::views::Views;
use simplex_round::Leader;
use std::alloc::AllocError;
use types_core::{Digest, Proposal, Scheme, View};
use types_terms::Elector;
use voter_rounds::Notice;

impl<S: Scheme<D> + Drop, L: Elector<S, D>, D: Digest> Views<S, L, D> {
    /// Asks for a build in the view: its leader, this member, where one may be asked for. Else nothing changes.
    pub fn try_propose(&mut self, view: View) -> Option<Leader<S::PublicKey>>
        ensures keeps { AtEach S.Scheme L.Elector self.old
            (λ s h. Keeps S.Scheme L.Elector s self.new (if is_some result then build_asked view ∷ h else h)) }
        ensures answer { AtEach S.Scheme L.Elector self.old (λ s h.
            MatchOption result (¬ MayPropose s.me (leader s h view) (seen s h view))
            (λ x. MayPropose s.me (leader s h view) (seen s h view) × IsLeader S.key_of (round_of s view) (leader s h view) x)) }
    {
        self.progress.tracked.try_propose(view)
    }

    /// Gives the build back that was asked for in the view.
    ///
    /// # Errors
    ///
    /// `AllocError` where memory ran out.
    pub fn clear_proposal_request(&mut self, view: View) -> Result<(), AllocError>
        ensures { OnOk result (AtEach S.Scheme L.Elector self.old (λ s h. Keeps S.Scheme L.Elector s self.new (build_released view ∷ h))) }
    {
        self.tell(view, Notice::BuildReleased)
    }

    /// Records an own build over its parent's payload, and binds it to that: whether it is taken, since its view was not given up
    /// here, and holds none or the same. Else nothing changes.
    ///
    /// # Errors
    ///
    /// `AllocError` where memory ran out.
    pub fn proposed(
        &mut self,
        now: u64,
        proposal: Proposal<D>,
        parent_payload: D,
    ) -> Result<bool, AllocError>
        ensures keeps { IfOk result (λ taken.
            AtEach S.Scheme L.Elector self.old
            (λ s h. Keeps S.Scheme L.Elector s self.new (if taken then built now proposal parent_payload ∷ h else h))) }
        ensures answer { IfOk result (λ taken.
            AtEach S.Scheme L.Elector self.old (λ s h.
            IsTrue taken ↔
            ((has_nullified (seen s h proposal.round.view) ≡ false) × Agrees (held (offers (seen s h proposal.round.view))) proposal))) }
    {
        self.progress
            .tracked
            .proposed(now, proposal, parent_payload)
    }

    /// Takes it that the held proposal of the view was found good: whether it became verified. Behind an own nullify that is not
    /// taken.
    ///
    /// # Errors
    ///
    /// `AllocError` where memory ran out.
    pub fn verified(&mut self, view: View) -> Result<bool, AllocError>
        ensures keeps { OnOk result (AtEach S.Scheme L.Elector self.old (λ s h. Keeps S.Scheme L.Elector s self.new (confirmed view ∷ h))) }
        ensures answer { IfOk result (λ became.
            AtEach S.Scheme L.Elector self.old
            (λ s h. IsTrue became ↔ ((has_nullified (seen s h view) ≡ false) × IsUnverified (offers (seen s h view))))) }
    {
        self.progress.tracked.verified(view)
    }

    /// Drops what the view's proposal was bound to.
    ///
    /// # Errors
    ///
    /// `AllocError` where memory ran out.
    pub fn clear_verifying(&mut self, view: View) -> Result<(), AllocError>
        ensures { OnOk result (AtEach S.Scheme L.Elector self.old (λ s h. Keeps S.Scheme L.Elector s self.new (unbound view ∷ h))) }
    {
        self.tell(view, Notice::Unbound)
    }
}
