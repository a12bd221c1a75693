//! What a voter learns: the start, certificates, verdicts, and what leaders propose.

ghost use Rattle.std.specs.Prelude.{◌≡◌, ◌↔◌, ◌<◌, ◌+◌, ◌^◌, if◌then◌else◌, false, true, ◌∷◌, None, IsTrue, IfOk, OnOk, is_some, option_map};
ghost use Rattle.types_core.specs.Positions.{HasRoom};
ghost use Rattle.voter_history.specs.Held.{held, Agrees, Differs};
ghost use Rattle.voter_history.specs.Past.{offers, has_nullified};
ghost use Rattle.voter_history.specs.Past as past;
ghost use Rattle.voter_history.specs.History.{started, based, notarized, nullified, finalized, judged, forwarded, nullification, seen};
ghost use Rattle.voter_history.specs.Leaders.{leader};
ghost use Rattle.voter_views.specs.Views.{Keeps, AtEach};

use crate::views::Views;
use messages_certificates::{Finalization, Notarization, Nullification};
use std::alloc::{AllocError, Global};
use types_core::{Digest, Duplicate, Proposal, Round, Scheme, View, Viewable};
use types_terms::Elector;
use voter_history::TimeoutReason;
use voter_rounds::later;

impl<S: Scheme<D> + Drop, L: Elector<S, D>, D: Digest> Views<S, L, D> {
    /// Starts on the payload of view 0, where it is known, and enters view 1.
    ///
    /// # Errors
    ///
    /// `AllocError` where memory ran out.
    pub fn start(&mut self, now: u64, payload: Option<D>) -> Result<(), AllocError>
        ensures { OnOk result (AtEach S.Scheme L.Elector self.old (λ s h. Keeps S.Scheme L.Elector s self.new (started now payload ∷ h))) }
    {
        let first = View::zero().next();
        let absent: Option<S::Certificate> = None;
        let leader = self
            .elector
            .elect(Round::new(self.epoch, first), absent.as_ref());
        self.progress.enter(now, first)?;
        self.progress.tracked.lead(first, leader, first)?;
        self.genesis = payload;
        Ok(())
    }

    /// Takes it that the member's record begins behind this view, since it was rewritten; where one above was named before, or is
    /// that of its first entry, behind that.
    pub fn base(&mut self, view: View)
        ensures { AtEach S.Scheme L.Elector self.old (λ s h. Keeps S.Scheme L.Elector s self.new (based view ∷ h)) }
    {
        self.beginning.base(view);
    }

    /// Takes a notarization that certifies: whether it is the first of its view, and the known leader's key where it took
    /// the place of another proposal. One of a view without room is not taken.
    ///
    /// # Errors
    ///
    /// `AllocError` where memory ran out.
    pub fn add_notarization(
        &mut self,
        certificate: Notarization<S, D>,
    ) -> Result<(bool, Option<S::PublicKey>), AllocError>
        ensures keeps { IfOk result (λ r.
            AtEach S.Scheme L.Elector self.old (λ s h. Keeps S.Scheme L.Elector s self.new (if r.0 then notarized certificate ∷ h else h))) }
        ensures first { IfOk result (λ r.
            AtEach S.Scheme L.Elector self.old (λ s h.
            IsTrue r.0 ↔
            (HasRoom s.length certificate.proposal.round.view × (past.notarization (seen s h certificate.proposal.round.view) ≡ None)))) }
        ensures again { IfOk result (λ r. r.0 ≡ false → r.1 ≡ None) }
        ensures replaced { IfOk result (λ r.
            AtEach S.Scheme L.Elector self.old (λ s h.
            r.0 ≡ true
            → Differs (held (offers (seen s h certificate.proposal.round.view))) certificate.proposal
            → r.1 ≡ option_map (S.key_of s.scheme) (leader s h certificate.proposal.round.view))) }
        ensures same { IfOk result (λ r.
            AtEach S.Scheme L.Elector self.old
            (λ s h. Agrees (held (offers (seen s h certificate.proposal.round.view))) certificate.proposal → r.1 ≡ None)) }
    {
        let view = certificate.view();
        // The proof takes from the number that a term has at least one view.
        let _views = self.lookahead.length.get();
        if !view.has_room(self.lookahead.length) || self.notarization(view).is_some() {
            return Ok((false, None));
        }
        let next = view.next();
        let leader = self.elector.elect(
            Round::new(self.epoch, next),
            Some(&certificate.certificate),
        );
        let key = self.progress.tracked.add_notarization(certificate)?;
        let end = self.progress.tracked.first_unreached(view);
        self.progress.tracked.lead(next, leader, end)?;
        self.beginning.tell();
        Ok((true, key))
    }

    /// Takes a nullification that certifies, and enters the next term: whether it is the first of its view. One of a view
    /// without room is not taken.
    ///
    /// # Errors
    ///
    /// `AllocError` where memory ran out.
    pub fn add_nullification(
        &mut self,
        now: u64,
        certificate: Nullification<S, D>,
    ) -> Result<bool, AllocError>
        ensures keeps { IfOk result (λ new.
            AtEach S.Scheme L.Elector self.old (λ s h. Keeps S.Scheme L.Elector s self.new (if new then nullified now certificate ∷ h else h))) }
        ensures answer { IfOk result (λ new.
            AtEach S.Scheme L.Elector self.old
            (λ s h. IsTrue new ↔ (HasRoom s.length certificate.round.view × (nullification s h certificate.round.view ≡ None)))) }
    {
        let view = certificate.view();
        // The proof takes from the number that a term has at least one view.
        let _views = self.lookahead.length.get();
        if !view.has_room(self.lookahead.length) || self.nullification(view).is_some() {
            return Ok(false);
        }
        let next = self.lookahead.after_nullification(view);
        let leader = self.elector.elect(
            Round::new(self.epoch, next),
            Some(&certificate.certificate),
        );
        self.progress.enter(now, next)?;
        self.progress.tracked.add_nullification(certificate)?;
        self.progress.tracked.lead(next, leader, next)?;
        self.coverage
            .cover(view, view.term_end(self.lookahead.length))?;
        self.nullified.mark(view)?;
        self.beginning.tell();
        Ok(true)
    }

    /// Takes a finalization that certifies, and enters the next view: whether it is the first of its view, and the known
    /// leader's key where it took the place of another proposal. One of a view without room is not taken.
    ///
    /// # Errors
    ///
    /// `AllocError` where memory ran out.
    pub fn add_finalization(
        &mut self,
        now: u64,
        certificate: Finalization<S, D>,
    ) -> Result<(bool, Option<S::PublicKey>), AllocError>
        ensures keeps { IfOk result (λ r.
            AtEach S.Scheme L.Elector self.old (λ s h. Keeps S.Scheme L.Elector s self.new (if r.0 then finalized now certificate ∷ h else h))) }
        ensures first { IfOk result (λ r.
            AtEach S.Scheme L.Elector self.old (λ s h.
            IsTrue r.0 ↔
            (HasRoom s.length certificate.proposal.round.view × (past.finalization (seen s h certificate.proposal.round.view) ≡ None)))) }
        ensures again { IfOk result (λ r. r.0 ≡ false → r.1 ≡ None) }
        ensures replaced { IfOk result (λ r.
            AtEach S.Scheme L.Elector self.old (λ s h.
            r.0 ≡ true
            → Differs (held (offers (seen s h certificate.proposal.round.view))) certificate.proposal
            → r.1 ≡ option_map (S.key_of s.scheme) (leader s h certificate.proposal.round.view))) }
        ensures same { IfOk result (λ r.
            AtEach S.Scheme L.Elector self.old
            (λ s h. Agrees (held (offers (seen s h certificate.proposal.round.view))) certificate.proposal → r.1 ≡ None)) }
    {
        let view = certificate.view();
        // The proof takes from the number that a term has at least one view.
        let _views = self.lookahead.length.get();
        if !view.has_room(self.lookahead.length) || self.finalization(view).is_some() {
            return Ok((false, None));
        }
        let next = view.next();
        // The proof takes from the number that it has 64 bits.
        let _number = next.get();
        let leader = self.elector.elect(
            Round::new(self.epoch, next),
            Some(&certificate.certificate),
        );
        self.progress.enter(now, next)?;
        let key = self.progress.tracked.add_finalization(certificate)?;
        let end = self.progress.tracked.first_unreached(view);
        self.progress.tracked.lead(next, leader, end)?;
        self.last_finalized = later(self.last_finalized, view);
        self.beginning.finalize(view);
        Ok((true, key))
    }

    /// Takes the verdict on the notarization of a view, and answers that notarization. A true one enters the next view, a
    /// false one is a reason to give the view up, where that isn't behind. Where no notarization of the view is known, or
    /// it has no room, nothing changes, and none is answered.
    ///
    /// # Errors
    ///
    /// `AllocError` where memory ran out.
    pub fn certified(
        &mut self,
        alloc: Global,
        now: u64,
        view: View,
        is_success: bool,
    ) -> Result<Option<Notarization<S, D>>, AllocError>
        ensures keeps { IfOk result (λ answer.
            AtEach S.Scheme L.Elector self.old
            (λ s h. Keeps S.Scheme L.Elector s self.new (if is_some answer then judged now view is_success ∷ h else h))) }
        ensures answer { IfOk result
            (λ answer. AtEach S.Scheme L.Elector self.old (λ s h. HasRoom s.length view → answer ≡ past.notarization (seen s h view))) }
        ensures no_room { IfOk result (λ answer. AtEach S.Scheme L.Elector self.old (λ s h. (HasRoom s.length view → ⊥) → answer ≡ None)) }
    {
        // The proof takes from the number that a term has at least one view.
        let _views = self.lookahead.length.get();
        if !view.has_room(self.lookahead.length) {
            return Ok(None);
        }
        let Some(notarization) = self.notarization(view) else {
            return Ok(None);
        };
        let copy = notarization.duplicate(alloc)?;
        self.take_verdict(now, view, is_success)?;
        Ok(Some(copy))
    }

    /// Takes the verdict on a view: a true one enters the next view, a false one is a reason to give the view up, where that isn't behind.
    fn take_verdict(&mut self, now: u64, view: View, is_success: bool) -> Result<(), AllocError>
        requires { view + 1 < 2 ^ 64 }
        ensures { OnOk result (AtEach S.Scheme L.Elector self.old (λ s h. Keeps S.Scheme L.Elector s self.new (judged now view is_success ∷ h))) }
    {
        self.beginning.tell();
        self.progress.tracked.judge(view, is_success)?;
        if is_success {
            return self.progress.enter(now, view.next());
        }
        if view < self.progress.view {
            return Ok(());
        }
        let _first = self
            .progress
            .tracked
            .latch_timeout(view, now, TimeoutReason::FailedCertification)?;
        Ok(())
    }

    /// Offers the leader's proposal of a view: whether it is the first there. Behind an own nullify it is not taken.
    ///
    /// # Errors
    ///
    /// `AllocError` where memory ran out.
    pub fn set_proposal(&mut self, view: View, proposal: &Proposal<D>) -> Result<bool, AllocError>
        ensures keeps { OnOk result
            (AtEach S.Scheme L.Elector self.old (λ s h. Keeps S.Scheme L.Elector s self.new (forwarded view proposal.now ∷ h))) }
        ensures answer { IfOk result (λ first.
            AtEach S.Scheme L.Elector self.old
            (λ s h. IsTrue first ↔ ((has_nullified (seen s h view) ≡ false) × (held (offers (seen s h view)) ≡ None)))) }
    {
        self.progress.tracked.forward(view, proposal)
    }
}
