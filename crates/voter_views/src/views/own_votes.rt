//! What a voter votes.

ghost use Rattle.std.specs.Prelude.{◌≡◌, if◌then◌else◌, ◌∷◌, Some, None, is_some, IfOk, MatchOption};
ghost use Rattle.voter_history.specs.Held.{held};
ghost use Rattle.voter_history.specs.Past.{offers, has_finalized, has_nullified, MayNotarize, MayFinalize};
ghost use Rattle.voter_history.specs.History.{seen, voted_finalize, voted_notarize, voted_nullify};
ghost use Rattle.voter_views.specs.Views.{Keeps, AtEach};

use crate::views::Views;
use std::alloc::AllocError;
use types_core::{Digest, Proposal, Scheme, View};
use types_terms::Elector;

impl<S: Scheme<D> + Drop, L: Elector<S, D>, D: Digest> Views<S, L, D> {
    /// Votes to notarize the view, where the view itself allows it: the held proposal. Behind that this member leads the next view,
    /// where it starts a term for which a schedule names it, and nobody is known to lead it. Else nothing changes.
    ///
    /// # Errors
    ///
    /// `AllocError` where memory ran out.
    pub fn construct_notarize(&mut self, view: View) -> Result<Option<Proposal<D>>, AllocError>
        ensures keeps { IfOk result (λ voted.
            AtEach S.Scheme L.Elector self.old (λ s h.
            MatchOption voted (Keeps S.Scheme L.Elector s self.new h) (λ p. Keeps S.Scheme L.Elector s self.new (voted_notarize view p ∷ h)))) }
        ensures answer { IfOk result (λ voted.
            AtEach S.Scheme L.Elector self.old (λ s h.
            MatchOption voted (¬ MayNotarize (seen s h view)) (λ p. MayNotarize (seen s h view) × (held (offers (seen s h view)) ≡ Some p)))) }
    {
        let next_leader = self.handoff_leader(view);
        let Some(proposal) = self.progress.tracked.construct_notarize(view) else {
            return Ok(None);
        };
        self.progress.tracked.follow_vote(view, next_leader)?;
        self.backed.mark(view)?;
        self.beginning.tell();
        Ok(Some(proposal))
    }

    /// Votes to nullify the view, unless this member voted to finalize it: whether it did before, so that this is a repetition.
    /// Else nothing changes.
    ///
    /// # Errors
    ///
    /// `AllocError` where memory ran out.
    pub fn construct_nullify(&mut self, view: View) -> Result<Option<bool>, AllocError>
        ensures keeps { IfOk result (λ voted.
            AtEach S.Scheme L.Elector self.old
            (λ s h. Keeps S.Scheme L.Elector s self.new (if is_some voted then voted_nullify view ∷ h else h))) }
        ensures answer { IfOk result (λ voted.
            AtEach S.Scheme L.Elector self.old
            (λ s h. voted ≡ (if has_finalized (seen s h view) then None else Some (has_nullified (seen s h view))))) }
    {
        let voted = self.progress.tracked.construct_nullify(view)?;
        self.beginning.nullify(voted);
        Ok(voted)
    }

    /// Votes to finalize the view, where the view itself allows it: the held proposal. Else nothing changes.
    pub fn construct_finalize(&mut self, view: View) -> Option<Proposal<D>>
        ensures keeps { AtEach S.Scheme L.Elector self.old (λ s h.
            MatchOption result (Keeps S.Scheme L.Elector s self.new h) (λ p. Keeps S.Scheme L.Elector s self.new (voted_finalize view p ∷ h))) }
        ensures answer { AtEach S.Scheme L.Elector self.old (λ s h.
            MatchOption result (¬ MayFinalize (seen s h view)) (λ p. MayFinalize (seen s h view) × (held (offers (seen s h view)) ≡ Some p))) }
    {
        let voted = self.progress.tracked.construct_finalize(view);
        self.beginning.tell_if(voted.is_some());
        voted
    }
}
