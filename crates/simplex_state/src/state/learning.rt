//! What a voter learns: the start, certificates, verdicts, and what leaders propose.

ghost use Rattle.std.specs.Prelude.{◌≡◌, ◌↔◌, ◌&&◌, if◌then◌else◌, false, true, ◌∷◌, None, Some, IsTrue, IfOk, OnOk, is_some, option_map};
ghost use Rattle.types_core.specs.Positions.{HasRoom};
ghost use Rattle.voter_history.specs.Held.{held, Agrees, Differs};
ghost use Rattle.voter_history.specs.Past.{offers, has_nullified};
ghost use Rattle.voter_history.specs.Past as past;
ghost use Rattle.voter_history.specs.History.{started, based, notarized, nullified, finalized, judged, forwarded, nullification, seen};
ghost use Rattle.voter_history.specs.Leaders.{leader};
ghost use Rattle.simplex_state.specs.State.{AtEach, Keeps};

use crate::state::State;
use crate::state::certifying::wake;
use messages_certificates::{Finalization, Notarization, Nullification};
use std::alloc::{AllocError, Global};
use types_core::{Digest, Proposal, Scheme, View, Viewable};
use types_terms::Elector;

impl<S: Scheme<D> + Drop, L: Elector<S, D>, D: Digest> State<S, L, D> {
    /// Starts on this payload of view 0, and enters view 1.
    ///
    /// # Errors
    ///
    /// `AllocError` where memory ran out.
    pub fn set_genesis(&mut self, now: u64, payload: D) -> Result<(), AllocError>
        ensures { OnOk result (AtEach S.Scheme L.Elector self.old (λ s h. Keeps S.Scheme L.Elector s self.new (started now (Some payload) ∷ h))) }
    {
        self.start(now, Some(payload))
    }

    /// Starts where the payload of view 0 isn't known, and enters view 1. Nothing is built on view 0 then.
    ///
    /// # Errors
    ///
    /// `AllocError` where memory ran out.
    pub fn begin(&mut self, now: u64) -> Result<(), AllocError>
        ensures { OnOk result (AtEach S.Scheme L.Elector self.old (λ s h. Keeps S.Scheme L.Elector s self.new (started now None ∷ h))) }
    {
        self.start(now, None)
    }

    /// Starts on the payload of view 0, where it is known.
    fn start(&mut self, now: u64, payload: Option<D>) -> Result<(), AllocError>
        ensures { OnOk result (AtEach S.Scheme L.Elector self.old (λ s h. Keeps S.Scheme L.Elector s self.new (started now payload ∷ h))) }
    {
        wake(&mut self.candidates, View::zero())?;
        self.views.start(now, payload)
    }

    /// Takes it that the member's record begins behind this view, since it was rewritten; where one above was named before, or is
    /// that of its first entry, behind that. No notarize of a view at or below it is due any more.
    pub fn base(&mut self, view: View)
        ensures { AtEach S.Scheme L.Elector self.old (λ s h. Keeps S.Scheme L.Elector s self.new (based view ∷ h)) }
    {
        self.views.base(view)
    }

    /// Takes a notarization that certifies: whether it is the first of its view, and the known leader's key where it took
    /// the place of another proposal. One of a view without room is not taken.
    ///
    /// # Errors
    ///
    /// `AllocError` where memory ran out.
    pub fn add_notarization(
        &mut self,
        certificate: Notarization<S, D>,
    ) -> Result<(bool, Option<S::PublicKey>), AllocError>
        ensures keeps { IfOk result (λ r.
            AtEach S.Scheme L.Elector self.old (λ s h. Keeps S.Scheme L.Elector s self.new (if r.0 then notarized certificate ∷ h else h))) }
        ensures first { IfOk result (λ r.
            AtEach S.Scheme L.Elector self.old (λ s h.
            IsTrue r.0 ↔
            (HasRoom s.length certificate.proposal.round.view × (past.notarization (seen s h certificate.proposal.round.view) ≡ None)))) }
        ensures again { IfOk result (λ r. r.0 ≡ false → r.1 ≡ None) }
        ensures replaced { IfOk result (λ r.
            AtEach S.Scheme L.Elector self.old (λ s h.
            r.0 ≡ true
            → Differs (held (offers (seen s h certificate.proposal.round.view))) certificate.proposal
            → r.1 ≡ option_map (S.key_of s.scheme) (leader s h certificate.proposal.round.view))) }
        ensures same { IfOk result (λ r.
            AtEach S.Scheme L.Elector self.old
            (λ s h. Agrees (held (offers (seen s h certificate.proposal.round.view))) certificate.proposal → r.1 ≡ None)) }
    {
        wake(&mut self.candidates, certificate.view())?;
        self.views.add_notarization(certificate)
    }

    /// Takes a nullification that certifies, and enters the next term: whether it is the first of its view. One of a view
    /// without room is not taken.
    ///
    /// # Errors
    ///
    /// `AllocError` where memory ran out.
    pub fn add_nullification(
        &mut self,
        now: u64,
        certificate: Nullification<S, D>,
    ) -> Result<bool, AllocError>
        ensures keeps { IfOk result (λ new.
            AtEach S.Scheme L.Elector self.old (λ s h. Keeps S.Scheme L.Elector s self.new (if new then nullified now certificate ∷ h else h))) }
        ensures answer { IfOk result (λ new.
            AtEach S.Scheme L.Elector self.old
            (λ s h. IsTrue new ↔ (HasRoom s.length certificate.round.view × (nullification s h certificate.round.view ≡ None)))) }
    {
        self.views.add_nullification(now, certificate)
    }

    /// Takes a finalization that certifies, and enters the next view: whether it is the first of its view, and the known
    /// leader's key where it took the place of another proposal. One of a view without room is not taken.
    ///
    /// # Errors
    ///
    /// `AllocError` where memory ran out.
    pub fn add_finalization(
        &mut self,
        now: u64,
        certificate: Finalization<S, D>,
    ) -> Result<(bool, Option<S::PublicKey>), AllocError>
        ensures keeps { IfOk result (λ r.
            AtEach S.Scheme L.Elector self.old (λ s h. Keeps S.Scheme L.Elector s self.new (if r.0 then finalized now certificate ∷ h else h))) }
        ensures first { IfOk result (λ r.
            AtEach S.Scheme L.Elector self.old (λ s h.
            IsTrue r.0 ↔
            (HasRoom s.length certificate.proposal.round.view × (past.finalization (seen s h certificate.proposal.round.view) ≡ None)))) }
        ensures again { IfOk result (λ r. r.0 ≡ false → r.1 ≡ None) }
        ensures replaced { IfOk result (λ r.
            AtEach S.Scheme L.Elector self.old (λ s h.
            r.0 ≡ true
            → Differs (held (offers (seen s h certificate.proposal.round.view))) certificate.proposal
            → r.1 ≡ option_map (S.key_of s.scheme) (leader s h certificate.proposal.round.view))) }
        ensures same { IfOk result (λ r.
            AtEach S.Scheme L.Elector self.old
            (λ s h. Agrees (held (offers (seen s h certificate.proposal.round.view))) certificate.proposal → r.1 ≡ None)) }
    {
        let finalized = certificate.view();
        wake(&mut self.candidates, finalized)?;
        self.views.add_finalization(now, certificate)
    }

    /// Takes the verdict on the notarization of a view, and answers that notarization. A true one enters the next view, a
    /// false one is a reason to give the view up, where that isn't behind. Where no notarization of the view is known, or
    /// it has no room, nothing changes, and none is answered.
    ///
    /// # Errors
    ///
    /// `AllocError` where memory ran out.
    pub fn certified(
        &mut self,
        alloc: Global,
        now: u64,
        view: View,
        is_success: bool,
    ) -> Result<Option<Notarization<S, D>>, AllocError>
        ensures keeps { IfOk result (λ answer.
            AtEach S.Scheme L.Elector self.old
            (λ s h. Keeps S.Scheme L.Elector s self.new (if is_some answer then judged now view is_success ∷ h else h))) }
        ensures answer { IfOk result
            (λ answer. AtEach S.Scheme L.Elector self.old (λ s h. HasRoom s.length view → answer ≡ past.notarization (seen s h view))) }
        ensures no_room { IfOk result (λ answer. AtEach S.Scheme L.Elector self.old (λ s h. (HasRoom s.length view → ⊥) → answer ≡ None)) }
    {
        let owes = self.owes_finalize(view, is_success);
        wake(&mut self.candidates, view)?;
        self.finalizes.add_if(view, owes)?;
        self.views.certified(alloc, now, view, is_success)
    }

    /// Whether the view may owe a finalize by this verdict: it is true, and neither nullify nor finalize was voted.
    fn owes_finalize(&self, view: View, is_success: bool) -> bool
        ensures { AtEach S.Scheme L.Elector self.now (λ s h. result ≡ (is_success && past.is_undecided (seen s h view))) }
    {
        if !is_success {
            return false;
        }
        match self.views.round(view) {
            Some(round) => !round.broadcast_nullify() && !round.broadcast_finalize(),
            None => true,
        }
    }

    /// Offers the leader's proposal of a view: whether it is the first there. Behind an own nullify it is not taken.
    ///
    /// # Errors
    ///
    /// `AllocError` where memory ran out.
    pub fn set_proposal(&mut self, view: View, proposal: &Proposal<D>) -> Result<bool, AllocError>
        ensures keeps { OnOk result
            (AtEach S.Scheme L.Elector self.old (λ s h. Keeps S.Scheme L.Elector s self.new (forwarded view proposal.now ∷ h))) }
        ensures answer { IfOk result (λ first.
            AtEach S.Scheme L.Elector self.old
            (λ s h. IsTrue first ↔ ((has_nullified (seen s h view) ≡ false) × (held (offers (seen s h view)) ≡ None)))) }
    {
        wake(&mut self.candidates, view)?;
        self.views.set_proposal(view, proposal)
    }
}
