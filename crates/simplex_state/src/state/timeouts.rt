//! When a voter gives a view up.

ghost use Rattle.std.specs.Prelude.{◌≡◌, ◌↔◌, ◌+◌, ◌-◌, if◌then◌else◌, nat_lt, ℕ, false, true, ◌∷◌, None, is_some, IsTrue, IfOk, OnOk};
ghost use Rattle.std.specs.Option.{option_or};
ghost use Rattle.types_core.specs.Positions.{term_start};
ghost use Rattle.voter_history.specs.declared.timeout_reason.TimeoutReason.TheVariants as reason;
ghost use Rattle.voter_history.specs.Past as past;
ghost use Rattle.voter_history.specs.History.{current, latched, polled, seen};
ghost use Rattle.voter_rules.specs.GivingUp.{IsFirstLatch, MayLatch, first_from, has_budget, oldest_entered, term_deadline, timeout};
ghost use Rattle.simplex_state.specs.State.{AtEach, Keeps};
ghost use Rattle.simplex_state.specs.Stalling.{MayStall};

use crate::state::State;
use std::alloc::AllocError;
use types_core::{Digest, Scheme, View};
use types_terms::Elector;
use voter_history::TimeoutReason;
use voter_laws::the_timeout_is_the_earliest;
use voter_rules::timing::{earlier, has_budget};

impl<S: Scheme<D> + Drop, L: Elector<S, D>, D: Digest> State<S, L, D> {
    /// When and why the current view is given up next; nothing before the start. Behind an own nullify that is a retry interval after
    /// this look, or the last moment of 64 bits, if none came since the vote. Where there is none, or one came since, nothing changes.
    ///
    /// # Errors
    ///
    /// `AllocError` where memory ran out.
    pub fn next_timeout(&mut self, now: u64) -> Result<Option<(u64, TimeoutReason)>, AllocError>
        ensures keeps { OnOk result (AtEach S.Scheme L.Elector self.old (λ s h. Keeps S.Scheme L.Elector s self.new (polled now ∷ h))) }
        ensures unchanged { OnOk result (AtEach S.Scheme L.Elector self.old
            (λ s h. past.RetryIsKnown (seen s h (current s h)) → Keeps S.Scheme L.Elector s self.new h)) }
        ensures answer { IfOk result (λ next.
            AtEach S.Scheme L.Elector self.old (λ s h. next ≡ (if nat_lt 0 (current s h) then timeout s (polled now ∷ h) now else None))) }
    {
        the_timeout_is_the_earliest::<S, D>();
        let counts = self.has_skip_budget();
        let own = self.views.next_timeout(now, self.timeout_retry, counts)?;
        if !self.may_stall() {
            return Ok(own);
        }
        Ok(earlier(now, own, self.term_deadline()))
    }

    /// Whether fewer terms than may be were skipped since the last finalized view.
    pub fn has_skip_budget(&self) -> bool
        ensures { AtEach S.Scheme L.Elector self.now (λ s h. result ≡ has_budget s h) }
    {
        let finalized = self.views.last_finalized();
        if finalized.get() == u64::MAX {
            return false;
        }
        let current = self.views.current_view();
        let length = self.views.lookahead().length;
        // The proof takes from the number that a term has at least one view.
        let _views = length.get();
        // No more terms than views were skipped, so terms are counted only where that is not enough.
        if current.get().saturating_sub(finalized.get()) < self.skip_budget {
            return true;
        }
        has_budget(length, current, finalized, self.skip_budget)
    }

    /// Whether the current view, behind the start, is neither finalized nor decided by an own nullify or finalize.
    fn may_stall(&self) -> bool
        ensures { AtEach S.Scheme L.Elector self.now (λ s h. IsTrue result ↔ MayStall s h) }
    {
        let view = self.views.current_view();
        if view.is_zero() {
            return false;
        }
        let Some(round) = self.views.round(view) else {
            return true;
        };
        if round.finalization().is_some() {
            return false;
        }
        !round.broadcast_finalize() && !round.broadcast_nullify()
    }

    /// The stall deadline of the current term.
    fn term_deadline(&self) -> Option<u64>
        ensures { AtEach S.Scheme L.Elector self.now (λ s h. result ≡ term_deadline s h) }
    {
        let Some(oldest) = self.oldest_entered() else {
            return None;
        };
        match self.views.round(oldest) {
            Some(round) => round.stall_deadline(),
            None => None,
        }
    }

    /// The oldest view of the current term that was entered and isn't finalized.
    fn oldest_entered(&self) -> Option<View>
        ensures { AtEach S.Scheme L.Elector self.now (λ s h. result ≡ oldest_entered s h) }
    {
        let current = self.views.current_view();
        let start = self.start_of_term(current);
        let finalized = self.views.last_finalized();
        let behind = View::new(finalized.get().saturating_add(1));
        self.first_entered(behind.max(start), current)
    }

    /// The first view of this view's term. Where terms have one view, nothing is divided.
    fn start_of_term(&self, view: View) -> View
        ensures { AtEach S.Scheme L.Elector self.now (λ s h. result ≡ term_start s.length view) }
    {
        let length = self.views.lookahead().length;
        if length.get() == 1 {
            return view;
        }
        view.term_start(length)
    }

    /// The first view from this one on and up to the last that was entered.
    fn first_entered(&self, from: View, last: View) -> Option<View>
        ensures { AtEach S.Scheme L.Elector self.now
            (λ s h. result ≡ first_from (λ u. is_some (past.entered_at (seen s h u))) from (last + 1 - from)) }
    {
        // The proof takes from the number that it has 64 bits.
        let _number = last.get();
        let mut next = from;
        // Where terms have one view, this is the only one.
        if from == last && self.is_entered(from) {
            return Some(from);
        }
        'views: while let Some(view) = self.views.first_tracked(next) {
            if last < view {
                return None;
            }
            if self.is_entered(view) {
                return Some(view);
            }
            if last <= view {
                return None;
            }
            next = view.next();
        }
        None
    }

    /// Whether the view was entered.
    fn is_entered(&self, view: View) -> bool
        ensures { AtEach S.Scheme L.Elector self.now (λ s h. result ≡ is_some (past.entered_at (seen s h view))) }
    {
        match self.views.round(view) {
            Some(round) => round.is_entered(),
            None => false,
        }
    }

    /// Takes a reason to give the view up, which came at this moment: whether it is the view's first. It counts where
    /// `may_latch` says so, while neither nullify nor finalize was voted. Behind the first, or where it doesn't count, nothing changes.
    ///
    /// # Errors
    ///
    /// `AllocError` where memory ran out.
    pub fn trigger_timeout(
        &mut self,
        now: u64,
        view: View,
        reason: TimeoutReason,
    ) -> Result<bool, AllocError>
        ensures keeps { OnOk result (AtEach S.Scheme L.Elector self.old
            (λ s h. MayLatch s h view reason → Keeps S.Scheme L.Elector s self.new (latched now view reason ∷ h))) }
        ensures unchanged { IfOk result (λ first. first ≡ false → AtEach S.Scheme L.Elector self.old (λ s h. Keeps S.Scheme L.Elector s self.new h)) }
        ensures answer { IfOk result (λ first. AtEach S.Scheme L.Elector self.old (λ s h. IsTrue first ↔ IsFirstLatch s h view reason)) }
    {
        if !self.may_latch(view, reason) {
            return Ok(false);
        }
        self.views.latch_timeout(now, view, reason)
    }

    /// Whether it would count now that the leader of the current view is silent: as a reason to give the view up, and within the
    /// budget of terms that may be skipped for such a reason.
    pub fn counts_silence(&self) -> bool
        ensures { AtEach S.Scheme L.Elector self.now
            (λ s h. IsTrue result ↔ ((has_budget s h ≡ true) × MayLatch s h (current s h) reason.Inactivity)) }
    {
        if !self.has_skip_budget() {
            return false;
        }
        self.may_latch(self.views.current_view(), TimeoutReason::Inactivity)
    }

    /// Whether a reason to give the view up counts: it doesn't where the view is behind or nothing is known of it, and that its leader
    /// is silent doesn't where a proposal is held that nothing contradicts.
    pub fn may_latch(&self, view: View, reason: TimeoutReason) -> bool
        ensures { AtEach S.Scheme L.Elector self.now (λ s h. IsTrue result ↔ MayLatch s h view reason) }
    {
        if view < self.views.current_view() {
            return false;
        }
        let Some(round) = self.views.round(view) else {
            return false;
        };
        if reason != TimeoutReason::Inactivity {
            return true;
        }
        !round.has_unequivocated_proposal()
    }

    /// How long ago this member recorded its own proposal of the view, or else entered it; nothing before.
    pub fn elapsed_since_start(&self, now: u64, view: View) -> Option<u64>
        ensures { AtEach S.Scheme L.Elector self.now
            (λ s h. result ≡ past.elapsed now (option_or (past.proposed_at (seen s h view)) (past.entered_at (seen s h view)))) }
    {
        match self.views.round(view) {
            Some(round) => round.elapsed_since_start(now),
            None => None,
        }
    }

    /// How long ago the view was entered; nothing before.
    pub fn elapsed_since_entry(&self, now: u64, view: View) -> Option<u64>
        ensures { AtEach S.Scheme L.Elector self.now (λ s h. result ≡ past.elapsed now (past.entered_at (seen s h view))) }
    {
        match self.views.round(view) {
            Some(round) => round.elapsed_since_entry(now),
            None => None,
        }
    }
}
