//! What a voter votes.

ghost use Rattle.std.specs.Prelude.{◌≡◌, ◌↔◌, ◌<◌, ◌∷◌, if◌then◌else◌, is_some, IsSome, IsTrue, IfOk, IfSome, MatchOption};
ghost use Rattle.types_core.specs.Positions.{HasRoom};
ghost use Rattle.types_core.specs.Subject.{notarize, finalize};
ghost use Rattle.voter_history.specs.Past.{has_nullified};
ghost use Rattle.voter_history.specs.History.{current, seen, voted_finalize, voted_notarize, voted_nullify};
ghost use Rattle.voter_history.specs.Known.{known};
ghost use Rattle.voter_rules.specs.Ancestry.{held_at, member};
ghost use Rattle.voter_rules.specs.VotesDue.{FinalizeIsDue, NotarizeIsDue};
ghost use Rattle.voter_rules.specs.GivingUp.{MayGiveUp};
ghost use Rattle.voter_laws.specs.Matching.{round_of};
ghost use Rattle.voter_laws.specs.Placing.{AreOfTheirViews};
ghost use Rattle.simplex_state.specs.State.{AtEach, Keeps};
ghost use Rattle.simplex_state.specs.Votes.{IsOwn, IsOwnNullify};

use crate::state::State;
use messages_certificates::{Finalize, Notarize, Nullify};
use std::alloc::AllocError;
use types_core::{Digest, Round, Scheme, View};
use types_terms::Elector;
use voter_history::TimeoutReason;
use voter_laws::held_lies_in_its_view;
use voter_rules::votes::{finalize_is_due, notarize_is_due};

impl<S: Scheme<D> + Drop, L: Elector<S, D>, D: Digest> State<S, L, D> {
    /// Votes to notarize the held proposal of the view, where that is due. Else nothing changes. Without a key nothing is voted.
    /// Where each proposal that came was of its view and the epoch, the vote is of this view and the epoch.
    ///
    /// # Errors
    ///
    /// `AllocError` where memory ran out.
    pub fn construct_notarize(&mut self, view: View) -> Result<Option<Notarize<S, D>>, AllocError>
        ensures keeps { IfOk result (λ vote.
            AtEach S.Scheme L.Elector self.old (λ s h.
            MatchOption vote (Keeps S.Scheme L.Elector s self.new h)
            (λ v. Keeps S.Scheme L.Elector s self.new (voted_notarize view v.proposal ∷ h)))) }
        ensures answer { IfOk result (λ vote.
            AtEach S.Scheme L.Elector self.old (λ s h.
            MatchOption vote (IsSome s.me → ¬ NotarizeIsDue (member s) (known s h) view) (λ v.
            NotarizeIsDue (member s) (known s h) view × (held_at (member s) (known s h) view ≡ Some v.proposal) × IsOwn S.Scheme s notarize v))) }
        ensures of_view { IfOk result
            (λ vote. AtEach S.Scheme L.Elector self.old (λ s h. AreOfTheirViews s h → IfSome vote (λ v. v.proposal.round ≡ round_of s view))) }
    {
        held_lies_in_its_view::<S, D>();
        if self.scheme.me().is_none() {
            return Ok(None);
        }
        if !notarize_is_due(&self.views, view) {
            return Ok(None);
        }
        let Some(proposal) = self.views.construct_notarize(view)? else {
            return Ok(None);
        };
        self.notarizes.remove(view);
        Ok(Notarize::sign(&*self.scheme, proposal))
    }

    /// Votes to finalize the held proposal of the view, where that is due. Else nothing changes. Without a key nothing is voted.
    /// Where each proposal that came was of its view and the epoch, the vote is of this view and the epoch.
    pub fn construct_finalize(&mut self, view: View) -> Option<Finalize<S, D>>
        ensures keeps { AtEach S.Scheme L.Elector self.old (λ s h.
            MatchOption result (Keeps S.Scheme L.Elector s self.new h)
            (λ v. Keeps S.Scheme L.Elector s self.new (voted_finalize view v.proposal ∷ h))) }
        ensures answer { AtEach S.Scheme L.Elector self.old (λ s h.
            MatchOption result (IsSome s.me → ¬ FinalizeIsDue (member s) (known s h) view) (λ v.
            FinalizeIsDue (member s) (known s h) view × (held_at (member s) (known s h) view ≡ Some v.proposal) × IsOwn S.Scheme s finalize v)) }
        ensures of_view { AtEach S.Scheme L.Elector self.old (λ s h. AreOfTheirViews s h → IfSome result (λ v. v.proposal.round ≡ round_of s view)) }
    {
        held_lies_in_its_view::<S, D>();
        if self.scheme.me().is_none() {
            return None;
        }
        if !finalize_is_due(&self.views, view) {
            return None;
        }
        let Some(proposal) = self.views.construct_finalize(view) else {
            return None;
        };
        self.finalizes.remove(view);
        Finalize::sign(&*self.scheme, proposal)
    }

    /// Votes to give the view up, where it is the current one and this member voted no finalize for it: whether it voted so before,
    /// with the vote. Else nothing changes. Without a key nothing is voted. The reason, as `next_timeout` tells it, decides
    /// nothing.
    ///
    /// # Errors
    ///
    /// `AllocError` where memory ran out.
    pub fn construct_nullify(
        &mut self,
        view: View,
        _reason: TimeoutReason,
    ) -> Result<Option<(bool, Nullify<S, D>)>, AllocError>
        ensures keeps { IfOk result (λ vote.
            AtEach S.Scheme L.Elector self.old (λ s h. Keeps S.Scheme L.Elector s self.new (if is_some vote then voted_nullify view ∷ h else h))) }
        ensures answer { IfOk result (λ vote.
            AtEach S.Scheme L.Elector self.old (λ s h.
            MatchOption vote (IsSome s.me → ¬ MayGiveUp s h view)
            (λ v. MayGiveUp s h view × (v.0 ≡ has_nullified (seen s h view)) × IsOwnNullify S.Scheme s view v.1))) }
    {
        if !self.is_current(view) {
            return Ok(None);
        }
        let Some(vote) = Nullify::sign(&*self.scheme, Round::new(self.views.epoch(), view)) else {
            return Ok(None);
        };
        match self.views.construct_nullify(view)? {
            Some(is_repetition) => {
                self.notarizes.remove(view);
                self.finalizes.remove(view);
                Ok(Some((is_repetition, vote)))
            }
            None => Ok(None),
        }
    }

    /// Whether the view is the current one, behind the start and with room.
    fn is_current(&self, view: View) -> bool
        ensures { AtEach S.Scheme L.Elector self.now (λ s h. IsTrue result ↔ ((view ≡ current s h) × (0 < view) × HasRoom s.length view)) }
    {
        if view.is_zero() {
            return false;
        }
        if view != self.views.current_view() {
            return false;
        }
        view.has_room(self.views.lookahead().length)
    }
}
