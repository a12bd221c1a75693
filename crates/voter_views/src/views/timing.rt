//! When a voter gives a view up.

ghost use Rattle.std.specs.Prelude.{◌≡◌, ◌≢◌, ◌<◌, if◌then◌else◌, false, nat_lt, [], ◌∷◌, None, IfOk, OnOk};
ghost use Rattle.voter_history.specs.Past as past;
ghost use Rattle.voter_history.specs.History.{current, latched, polled, seen};
ghost use Rattle.voter_views.specs.Views.{Keeps, AtEach};

use crate::views::Views;
use std::alloc::AllocError;
use types_core::{Digest, Scheme, View};
use types_terms::Elector;
use voter_history::TimeoutReason;

impl<S: Scheme<D> + Drop, L: Elector<S, D>, D: Digest> Views<S, L, D> {
    /// Takes a reason to give the view up, which came at this moment: whether it is the first that counts. Else nothing changes.
    ///
    /// # Errors
    ///
    /// `AllocError` where memory ran out.
    pub fn latch_timeout(
        &mut self,
        now: u64,
        view: View,
        reason: TimeoutReason,
    ) -> Result<bool, AllocError>
        ensures keeps { OnOk result (AtEach S.Scheme L.Elector self.old (λ s h. Keeps S.Scheme L.Elector s self.new (latched now view reason ∷ h))) }
        ensures unchanged { IfOk result (λ first. first ≡ false → AtEach S.Scheme L.Elector self.old (λ s h. Keeps S.Scheme L.Elector s self.new h)) }
        ensures answer { IfOk result (λ first. AtEach S.Scheme L.Elector self.old (λ s h. first ≡ past.is_unlatched (seen s h view))) }
    {
        self.progress.tracked.latch_timeout(view, now, reason)
    }

    /// When and why the current view's own rules give it up next: where a nullify was voted, an interval after this look, if none
    /// came since, or at the last moment of 64 bits. Nothing before the start. Where no nullify was voted, or that is known, nothing
    /// changes, if something happened to the current view, as it has behind the start. Moments and the interval are counted in
    /// milliseconds from a beginning of the caller's choice.
    ///
    /// # Errors
    ///
    /// `AllocError` where memory ran out.
    pub fn next_timeout(
        &mut self,
        now: u64,
        retry_interval: u64,
        allow_latched_timeout: bool,
    ) -> Result<Option<(u64, TimeoutReason)>, AllocError>
        ensures keeps { OnOk result (AtEach S.Scheme L.Elector self.old
            (λ s h. s.timeout_retry ≡ retry_interval → Keeps S.Scheme L.Elector s self.new (polled now ∷ h))) }
        ensures unchanged { OnOk result (AtEach S.Scheme L.Elector self.old
            (λ s h. (0 < current s h → seen s h (current s h) ≢ []) → past.RetryIsKnown (seen s h (current s h)) → Keeps S.Scheme L.Elector s self.new h)) }
        ensures answer { IfOk result (λ timeout.
            AtEach S.Scheme L.Elector self.old (λ s h.
            timeout ≡ (if nat_lt 0 (current s h) then past.next_timeout
            (past.polled (past.deadline now retry_interval) ∷ seen s h (current s h)) allow_latched_timeout else None))) }
    {
        let view = self.progress.view;
        if view.is_zero() {
            return Ok(None);
        }
        self.progress
            .tracked
            .next_timeout(view, now, retry_interval, allow_latched_timeout)
    }
}
