//! What a voter's application answers of proposals.

ghost use Rattle.std.specs.Prelude.{◌≡◌, ◌↔◌, ◌⊎◌, false, ◌∷◌, IsTrue, IfOk, OnOk};
ghost use Rattle.voter_history.specs.Held.{IsUnverified};
ghost use Rattle.voter_history.specs.Past.{offers, has_nullified};
ghost use Rattle.voter_history.specs.History.{certify_asked, confirmed, latched, seen, unbound};
ghost use Rattle.voter_history.specs.Known.{known};
ghost use Rattle.voter_rules.specs.Ancestry.{IsSteady, member};
ghost use Rattle.voter_rules.specs.GivingUp.{IsFirstLatch, MayLatch};
ghost use Rattle.simplex_state.specs.Known.{AddsIfTracked};
ghost use Rattle.simplex_state.specs.State.{AtEach, Keeps};

use crate::state::State;
use std::alloc::AllocError;
use types_core::{Digest, Scheme, View};
use types_terms::Elector;
use voter_history::{TimeoutReason, Token};
use voter_rules::ancestry::is_steady;

impl<S: Scheme<D> + Drop, L: Elector<S, D>, D: Digest> State<S, L, D> {
    /// Takes it that the held proposal of the view was found good: whether it became verified. Behind an own nullify it doesn't. Where
    /// what it was bound to has fallen, that is dropped, and nothing else changes; nor does anything where nothing is known of the
    /// view.
    ///
    /// # Errors
    ///
    /// `AllocError` where memory ran out.
    pub fn verified(&mut self, view: View) -> Result<bool, AllocError>
        ensures keeps { OnOk result (AtEach S.Scheme L.Elector self.old (λ s h.
            (IsSteady (member s) (known s h) view × AddsIfTracked S.Scheme L.Elector s self.new h view (confirmed view)) ⊎
            ((¬ IsSteady (member s) (known s h) view) × Keeps S.Scheme L.Elector s self.new (unbound view ∷ h)))) }
        ensures answer { IfOk result (λ became.
            AtEach S.Scheme L.Elector self.old (λ s h.
            IsTrue became ↔
            (IsSteady (member s) (known s h) view × (has_nullified (seen s h view) ≡ false) × IsUnverified (offers (seen s h view))))) }
    {
        if !self.views.is_tracked(view) {
            return Ok(false);
        }
        if !is_steady(&self.views, view) {
            self.views.clear_verifying(view)?;
            return Ok(false);
        }
        self.notarizes.add(view)?;
        self.views.verified(view)
    }

    /// Takes it that the held proposal of the view wasn't found good, for this reason to give the view up: whether that is the view's
    /// first, as `trigger_timeout` says. Where what the proposal was bound to has fallen, that is dropped, and nothing else changes.
    ///
    /// # Errors
    ///
    /// `AllocError` where memory ran out.
    pub fn verification_failed(
        &mut self,
        now: u64,
        view: View,
        reason: TimeoutReason,
    ) -> Result<bool, AllocError>
        ensures keeps { OnOk result (AtEach S.Scheme L.Elector self.old (λ s h.
            (IsSteady (member s) (known s h) view ×
            (MayLatch s h view reason → Keeps S.Scheme L.Elector s self.new (latched now view reason ∷ h))) ⊎
            ((¬ IsSteady (member s) (known s h) view) × Keeps S.Scheme L.Elector s self.new (unbound view ∷ h)))) }
        ensures unchanged { IfOk result (λ first.
            first ≡ false
            → AtEach S.Scheme L.Elector self.old (λ s h. IsSteady (member s) (known s h) view → Keeps S.Scheme L.Elector s self.new h)) }
        ensures answer { IfOk result (λ first.
            AtEach S.Scheme L.Elector self.old (λ s h. IsTrue first ↔ (IsSteady (member s) (known s h) view × IsFirstLatch s h view reason))) }
    {
        if is_steady(&self.views, view) {
            return self.trigger_timeout(now, view, reason);
        }
        self.views.clear_verifying(view)?;
        Ok(false)
    }

    /// Takes it that a verdict on the view was asked for, under this name. Where nothing is known of the view, nothing changes.
    ///
    /// # Errors
    ///
    /// `AllocError` where memory ran out.
    pub fn set_certify_handle(&mut self, view: View, handle: Token) -> Result<(), AllocError>
        ensures { OnOk result
            (AtEach S.Scheme L.Elector self.old (λ s h. AddsIfTracked S.Scheme L.Elector s self.new h view (certify_asked view handle))) }
    {
        if !self.views.is_tracked(view) {
            return Ok(());
        }
        self.views.set_certify_handle(view, handle)
    }
}
