//! What a voter has learnt of its views.
#![tactic(auto, unfolding(crate::specs::Views::Keeps))]

mod asking;
mod learning;
mod own_votes;
mod proposing;
mod pruning;
mod recalling;
mod sending;
mod timing;

ghost use Rattle.std.specs.Prelude.{◌≡◌, ◌↔◌, ◌+◌, ◌<◌, ◌≤◌, ◌^◌, ◌∷◌, ℕ, [], Some, None, IsTrue, IfSome, IfOk, OnOk, MatchOption, option_copied};
ghost use Rattle.std.specs.Option.{ForSome};
ghost use Rattle.types_core.specs.Positions.{InCoveringRange};
ghost use Rattle.types_terms.specs.Windows.{Admits, Retains};
ghost use Rattle.voter_history.specs.Past as past;
ghost use Rattle.simplex_round.specs.Round as one;
ghost use Rattle.voter_rounds.specs.Marks.{Shows};
ghost use Rattle.voter_history.specs.Pasts.{bears};
ghost use Rattle.voter_rounds.specs.Rounds.{AreUntracked, IsFirstTracked};
ghost use Rattle.voter_history.specs.History.{current, floor, last_finalized, min_active, nullification, scheduled_leader, seen};
ghost use Rattle.voter_history.specs.Leaders.{handoff_leader, leader};
ghost use Rattle.voter_rules.specs.GivingUp.{IsTracked};
ghost use Rattle.voter_views.specs.Views.{Keeps, AtEach, built, IsHighestCovering, noticed, round_of};

use crate::beginning::Beginning;
use crate::progress::Progress;
use messages_certificates::{Finalization, Notarization, Nullification};
use simplex_record::Coverage;
use simplex_round::Round;
use std::alloc::{AllocError, Global};
use std::collections::BTreeMap;
use std::rc::Rc;
use types_core::{
    Digest, Epoch, Participant, Proposal, Round as Position, Scheme, View, ViewDelta,
};
use types_terms::{Elector, Lookahead, Mode, Viewport};
use voter_history::Sign;
use voter_rounds::{Marks, Notice, Tracked};
use voter_rules::config::Config;

/// What a voter has learnt of its views, and how far it is. Behind a refused call it may be used no more.
#[derive(Drop)]
pub struct Views<S: Scheme<D>, L: Elector<S, D>, D: Digest> {
    scheme: Rc<S>,
    elector: L,
    epoch: Epoch,
    lookahead: Lookahead,
    retention: ViewDelta,
    progress: Progress<S, D>,
    last_finalized: View,
    /// Where the member's record begins.
    beginning: Beginning,
    pub(crate) genesis: Option<D>,
    /// What was ever covered.
    pub(crate) coverage: Coverage,
    /// The views whose own notarize was made here, or recalled with its proposal.
    pub(crate) backed: Marks,
    /// The views whose verdict was put off.
    pub(crate) waiting: Marks,
    /// The views whose nullification is kept.
    nullified: Marks,
    /// The nullifications of dropped views that cover views above the last finalized one.
    reaching: BTreeMap<View, Nullification<S, D>>,
}

impl<S: Scheme<D> + Drop, L: Elector<S, D>, D: Digest> Views<S, L, D> {
    /// A voter of this member of the committee that the elector was built for, to which nothing has happened.
    ///
    /// # Errors
    ///
    /// `AllocError` where memory ran out.
    pub fn new<F>(
        alloc: Global,
        scheme: Rc<S>,
        elector: L,
        config: &Config<F>,
    ) -> Result<Self, AllocError>
        requires { L.built_for elector (S.size scheme.value) }
        ensures { IfOk result (λ v. Keeps S.Scheme L.Elector (built S.Scheme L.Elector scheme.value elector config.now) v []) }
    {
        let terms = elector.terms();
        let shared = scheme.clone()?;
        let tracked = Tracked::new(alloc, shared, config.epoch, Lookahead::new(&terms));
        Ok(Views {
            scheme,
            elector,
            epoch: config.epoch,
            lookahead: Lookahead::new(&terms),
            retention: config.view_retention,
            progress: Progress {
                view: View::zero(),
                leader_timeout: config.leader_timeout,
                certification_timeout: config.certification_timeout,
                stall_timeout: terms.stall_timeout(),
                tracked,
            },
            last_finalized: View::zero(),
            beginning: Beginning::new(),
            genesis: None,
            coverage: Coverage::new(alloc),
            backed: Marks::new(alloc),
            waiting: Marks::new(alloc),
            nullified: Marks::new(alloc),
            reaching: BTreeMap::new(alloc),
        })
    }

    /// The current view: 0 before the start.
    pub fn current_view(&self) -> View
        ensures { AtEach S.Scheme L.Elector self.now (λ s h. result ≡ current s h) }
    {
        self.progress.view
    }

    /// The last finalized view, or 0.
    pub fn last_finalized(&self) -> View
        ensures value { AtEach S.Scheme L.Elector self.now (λ s h. result ≡ last_finalized h) }
        ensures behind { AtEach S.Scheme L.Elector self.now (λ s h. result + 1 < 2 ^ 64) }
    {
        self.last_finalized
    }

    /// The view that the member's record begins behind, or 0.
    pub fn floor(&self) -> View
        ensures { AtEach S.Scheme L.Elector self.now (λ s h. result ≡ floor s h) }
    {
        self.beginning.floor
    }

    /// Which views are kept and listened to.
    fn viewport(&self) -> Viewport
        ensures finalized { result.finalized ≡ self.now.last_finalized }
        ensures current { result.current ≡ self.now.progress.view }
        ensures view_retention { result.view_retention ≡ self.now.retention }
        ensures lookahead { result.lookahead ≡ self.now.lookahead }
    {
        Viewport {
            finalized: self.last_finalized,
            current: self.progress.view,
            view_retention: self.retention,
            lookahead: self.lookahead,
        }
    }

    /// The least view that is kept.
    pub fn min_active(&self) -> View
        ensures { AtEach S.Scheme L.Elector self.now (λ s h. result ≡ min_active s h) }
    {
        self.viewport().floor()
    }

    /// Whether a vote of the view is taken: the view is kept and listened to.
    pub fn admits_vote(&self, view: View) -> bool
        ensures { AtEach S.Scheme L.Elector self.now
            (λ s h. IsTrue result ↔ (Retains (last_finalized h) s.retention view × Admits s.length s.optimistic_views (current s h) view)) }
    {
        self.viewport().admits_vote(view)
    }

    /// Whether a certificate of the view is taken: the view is kept, however far ahead it lies.
    pub fn admits_certificate(&self, view: View) -> bool
        ensures { AtEach S.Scheme L.Elector self.now (λ s h. IsTrue result ↔ Retains (last_finalized h) s.retention view) }
    {
        self.viewport().admits_certificate(view)
    }

    /// Whether the index is this member's.
    pub fn is_me(&self, index: Participant) -> bool
        ensures { AtEach S.Scheme L.Elector self.now (λ s h. IsTrue result ↔ (s.me ≡ Some index)) }
    {
        self.scheme.me() == Some(index)
    }

    /// The epoch.
    pub fn epoch(&self) -> Epoch
        ensures { AtEach S.Scheme L.Elector self.now (λ s h. result ≡ s.epoch) }
    {
        self.epoch
    }

    /// The terms: their views, and how many of them are optimistic.
    pub fn lookahead(&self) -> Lookahead
        ensures length { AtEach S.Scheme L.Elector self.now (λ s h. result.length ≡ s.length) }
        ensures optimistic_views { AtEach S.Scheme L.Elector self.now (λ s h. result.optimistic_views ≡ s.optimistic_views) }
    {
        self.lookahead
    }

    /// Whom a schedule names for the view, whatever certificate it will be entered by; none where there is no schedule.
    pub fn scheduled_leader(&self, view: View) -> Option<Participant>
        ensures { AtEach S.Scheme L.Elector self.now (λ s h. result ≡ scheduled_leader s view) }
    {
        match self.elector.mode() {
            Mode::Scheduled => {
                let absent: Option<S::Certificate> = None;
                let round = Position::new(self.epoch, view);
                Some(self.elector.elect(round, absent.as_ref()))
            }
            Mode::Dynamic => None,
        }
    }

    /// This member, where it may lead the view behind this one before this one is decided: that view starts a term, and a schedule
    /// names this member for it.
    fn handoff_leader(&self, view: View) -> Option<Participant>
        ensures value { AtEach S.Scheme L.Elector self.now (λ s h. view + 1 < 2 ^ 64 → result ≡ handoff_leader s (view + 1)) }
        ensures member { AtEach S.Scheme L.Elector self.now (λ s h. ForSome result (λ i. i < S.size s.scheme)) }
    {
        if view.get() == u64::MAX {
            return None;
        }
        let next = view.next();
        if !next.is_term_start(self.lookahead.length) {
            return None;
        }
        let leader = self.scheduled_leader(next)?;
        if !self.is_me(leader) {
            return None;
        }
        Some(leader)
    }

    /// Who leads the view, where that is known.
    pub fn leader_index(&self, view: View) -> Option<Participant>
        ensures { AtEach S.Scheme L.Elector self.now (λ s h. result ≡ leader s h view) }
    {
        self.progress.tracked.leader(view)
    }

    /// What is known of a view, where something is.
    pub fn round(&self, view: View) -> Option<&Round<S, D>>
        ensures value { AtEach S.Scheme L.Elector self.now (λ s h.
            MatchOption result ((seen s h view ≡ []) × (leader s h view ≡ None))
            (λ r. IsTracked s h view × one.Keeps S.key_of (round_of s view) r.now (leader s h view) (seen s h view))) }
        ensures own { AtEach S.Scheme L.Elector self.now (λ s h. S.own s.scheme ≡ s.me) }
    {
        self.progress.tracked.round(view)
    }

    /// Whether something is known of the view.
    pub fn is_tracked(&self, view: View) -> bool
        ensures { AtEach S.Scheme L.Elector self.now (λ s h. IsTrue result ↔ IsTracked s h view) }
    {
        self.progress.tracked.round(view).is_some()
    }

    /// The first view from this one on of which something is known.
    pub fn first_tracked(&self, from: View) -> Option<View>
        ensures behind { IfSome result (λ first. from ≤ first) }
        ensures tracked { AtEach S.Scheme L.Elector self.now (λ s h.
            MatchOption result (AreUntracked (leader s h) (seen s h) from (2 ^ 64)) (λ first. IsFirstTracked (leader s h) (seen s h) from first)) }
    {
        self.progress.tracked.first_tracked(from)
    }

    /// The views that bear a sign, as far as they are kept.
    pub fn bearing(&self, sign: Sign) -> &Marks
        ensures { AtEach S.Scheme L.Elector self.now (λ s h. Shows result.now (λ view. bears sign (seen s h view))) }
    {
        self.progress.tracked.bearing(sign)
    }

    /// The notarization of the view.
    pub fn notarization(&self, view: View) -> Option<&Notarization<S, D>>
        ensures { AtEach S.Scheme L.Elector self.now (λ s h. option_copied result ≡ past.notarization (seen s h view)) }
    {
        match self.progress.tracked.round(view) {
            Some(round) => round.notarization(),
            None => None,
        }
    }

    /// The nullification of the view: it stays behind a prune while its term ends above the last finalized view.
    pub fn nullification(&self, view: View) -> Option<&Nullification<S, D>>
        ensures { AtEach S.Scheme L.Elector self.now (λ s h. option_copied result ≡ nullification s h view) }
    {
        if let Some(certificate) = self.reaching.get(&view) {
            return Some(certificate);
        }
        match self.progress.tracked.round(view) {
            Some(round) => round.nullification(),
            None => None,
        }
    }

    /// The highest nullification that covers the view: of those that are kept of the views from the start of its term up to it.
    pub fn covering_nullification(&self, view: View) -> Option<&Nullification<S, D>>
        ensures { AtEach S.Scheme L.Elector self.now (λ s h.
            MatchOption result ((u : ℕ) → InCoveringRange s.length view u → nullification s h u ≡ None) (λ c. IsHighestCovering s h view c.now)) }
    {
        let start = view.term_start(self.lookahead.length);
        let last = self.nullified.last_within(start, view)?;
        self.nullification(last)
    }

    /// The finalization of the view.
    pub fn finalization(&self, view: View) -> Option<&Finalization<S, D>>
        ensures { AtEach S.Scheme L.Elector self.now (λ s h. option_copied result ≡ past.finalization (seen s h view)) }
    {
        match self.progress.tracked.round(view) {
            Some(round) => round.finalization(),
            None => None,
        }
    }

    /// The proposal of the view that may be forwarded: the held one where its certificates support a payload.
    pub fn forwardable_proposal(&self, view: View) -> Option<Proposal<D>>
        ensures { AtEach S.Scheme L.Elector self.now (λ s h. result ≡ past.forwardable_proposal (seen s h view)) }
    {
        match self.progress.tracked.round(view) {
            Some(round) => round.forwardable_proposal(),
            None => None,
        }
    }

    /// Takes in what is told of a view and needs no answer.
    fn tell(&mut self, view: View, notice: Notice) -> Result<(), AllocError>
        ensures { OnOk result (AtEach S.Scheme L.Elector self.old (λ s h. Keeps S.Scheme L.Elector s self.new (noticed view notice ∷ h))) }
    {
        self.progress.tracked.tell(view, notice)
    }
}
