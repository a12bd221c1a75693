//! What a voter builds.

ghost use Rattle.std.specs.Prelude.{◌≡◌, ◌↔◌, if◌then◌else◌, false, ◌∷◌, IsTrue, IfOk, OnOk};
ghost use Rattle.voter_history.specs.Held.{held, Agrees};
ghost use Rattle.voter_history.specs.Past.{offers, has_nullified};
ghost use Rattle.voter_history.specs.History.{build_released, built, seen};
ghost use Rattle.voter_history.specs.Known.{known};
ghost use Rattle.voter_rules.specs.Ancestry.{member};
ghost use Rattle.voter_rules.specs.GivingUp.{IsTracked};
ghost use Rattle.voter_rules.specs.Requests.{IsCaptured, IsSuperseded, StopsHandoff};
ghost use Rattle.voter_rules.specs.Building.{proposal_on};
ghost use Rattle.simplex_state.specs.Known.{AddsIfTracked, AddsWhere};
ghost use Rattle.simplex_state.specs.State.{AtEach, Keeps};

use crate::state::State;
use crate::state::certifying::wake;
use std::alloc::AllocError;
use types_core::{Context, Digest, Proposal, Scheme, View};
use types_terms::Elector;
use voter_history::HandoffAbandonedReason;
use voter_rules::ancestry::{allows_parent, preferred_parent, prefers};

impl<S: Scheme<D> + Drop, L: Elector<S, D>, D: Digest> State<S, L, D> {
    /// Records an own build of this payload in a context in which one was asked for: whether it is taken, since something is known of
    /// its view, its parent may still be used, and its view was not given up here and holds none or the same. Else nothing changes.
    ///
    /// # Errors
    ///
    /// `AllocError` where memory ran out.
    pub fn proposed(
        &mut self,
        now: u64,
        context: &Context<D, S::PublicKey>,
        payload: D,
    ) -> Result<bool, AllocError>
        ensures keeps { IfOk result (λ taken.
            AtEach S.Scheme L.Elector self.old (λ s h.
            Keeps S.Scheme L.Elector s self.new (if taken then built now (proposal_on context.now payload) context.now.parent.1 ∷ h else h))) }
        ensures answer { IfOk result (λ taken.
            AtEach S.Scheme L.Elector self.old (λ s h.
            IsTrue taken ↔ (IsTracked s h context.now.round.view × IsCaptured (member s) (known s h) context.now.round.view context.now.parent.0
            context.now.parent.1 × (has_nullified (seen s h context.now.round.view) ≡ false) × Agrees
            (held (offers (seen s h context.now.round.view))) (proposal_on context.now payload)))) }
    {
        let (parent, parent_payload) = context.parent;
        if !self.views.is_tracked(context.round.view) {
            return Ok(false);
        }
        if !self.is_captured(context.round.view, parent, parent_payload) {
            return Ok(false);
        }
        let proposal = Proposal::new(context.round, parent, payload);
        wake(&mut self.candidates, context.round.view)?;
        self.notarizes.add(context.round.view)?;
        self.views.proposed(now, proposal, parent_payload)
    }

    /// Whether a parent that a build was asked for on may still be used: it is the one to build on, or the parent rule gives its payload.
    fn is_captured(&self, view: View, parent: View, payload: D) -> bool
        ensures { AtEach S.Scheme L.Elector self.now (λ s h. IsTrue result ↔ IsCaptured (member s) (known s h) view parent payload) }
    {
        if prefers(&self.views, view, parent, payload) {
            return true;
        }
        allows_parent(&self.views, view, parent, payload)
    }

    /// Gives the build back that was asked for in the view. Where nothing is known of the view, nothing changes.
    ///
    /// # Errors
    ///
    /// `AllocError` where memory ran out.
    pub fn release_proposal_request(&mut self, view: View) -> Result<(), AllocError>
        ensures { OnOk result (AtEach S.Scheme L.Elector self.old (λ s h. AddsIfTracked S.Scheme L.Elector s self.new h view (build_released view))) }
    {
        if !self.views.is_tracked(view) {
            return Ok(());
        }
        self.views.clear_proposal_request(view)
    }

    /// Gives the build back that was asked for in this context, where its parent may no longer be used and there is another to build on:
    /// whether that is so. Else nothing changes; nor does anything where nothing is known of the view.
    ///
    /// # Errors
    ///
    /// `AllocError` where memory ran out.
    pub fn supersede_proposal_request(
        &mut self,
        context: &Context<D, S::PublicKey>,
    ) -> Result<bool, AllocError>
        ensures keeps { IfOk result (λ superseded.
            AtEach S.Scheme L.Elector self.old
            (λ s h. AddsWhere S.Scheme L.Elector s self.new h context.now.round.view (build_released context.now.round.view) superseded)) }
        ensures answer { IfOk result (λ superseded.
            AtEach S.Scheme L.Elector self.old
            (λ s h. IsTrue superseded ↔ IsSuperseded (member s) (known s h) context.now.round.view context.now.parent.0 context.now.parent.1)) }
    {
        let (parent, parent_payload) = context.parent;
        let view = context.round.view;
        if !self.is_superseded(view, parent, parent_payload) {
            return Ok(false);
        }
        self.release_proposal_request(view)?;
        Ok(true)
    }

    /// Whether the parent may no longer be used, and there is another to build on.
    fn is_superseded(&self, view: View, parent: View, payload: D) -> bool
        ensures { AtEach S.Scheme L.Elector self.now (λ s h. IsTrue result ↔ IsSuperseded (member s) (known s h) view parent payload) }
    {
        if self.is_captured(view, parent, payload) {
            return false;
        }
        preferred_parent(&self.views, view).is_some()
    }

    /// Why a handoff that was asked for in this context is to stop: never where the parent is explicit with its payload; else since the
    /// current view was given up here; else since the parent may no longer be used.
    pub fn pending_handoff_abandonment(
        &self,
        context: &Context<D, S::PublicKey>,
    ) -> Option<HandoffAbandonedReason>
        ensures { AtEach S.Scheme L.Elector self.now
            (λ s h. StopsHandoff (member s) (known s h) context.now.round.view context.now.parent.0 context.now.parent.1 result) }
    {
        let (parent, payload) = context.parent;
        if self.parent_certified(parent, payload) {
            return None;
        }
        if self.voted_nullify(self.current_view()) {
            return Some(HandoffAbandonedReason::ParentNullify);
        }
        if !self.is_captured(context.round.view, parent, payload) {
            return Some(HandoffAbandonedReason::AncestryInvalidated);
        }
        None
    }
}
