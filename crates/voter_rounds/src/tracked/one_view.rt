//! What happens to one view. It is no certificate, and hands no leader on: a proposal lets `follow` do that, an own notarize
//! `follow_vote`.

ghost use Rattle.std.specs.Prelude.{◌≡◌, ◌↔◌, ◌≤◌, ◌^◌, if◌then◌else◌, Bool, false, ◌∷◌, Some, None, is_some, IsTrue, IfSome, IfOk, OnOk, MatchOption};
ghost use Rattle.voter_history.specs.Held.{held, building, confirmed, verifying, Agrees, IsUnverified};
ghost use Rattle.voter_history.specs.Past.{offered, sent_notarization, sent_nullification, sent_finalization, has_sent_notarization, has_sent_nullification, has_sent_finalization, judged, bound, built, deadline, is_unlatched, latched, polled, voted_finalize, voted_notarize, voted_nullify, notarization, nullification, finalization, offers, has_finalized, has_nullified, next_timeout, verdict, RetryIsKnown, MayFinalize, MayNotarize, MayPropose, MayVerify};
ghost use Rattle.simplex_round.specs.Round as one;
ghost use Rattle.voter_history.specs.Pasts.{bind, put};
ghost use Rattle.voter_rounds.specs.Rounds.{AreUntracked, IsFirstTracked, IsTracked, Takes, recalled, setup_of, told};
ghost use Rattle.voter_rounds.specs.Tracked.{Tables, Holds, AtEach};

use crate::notice::Notice;
use crate::tracked::Tracked;
use messages_certificates::{Artifact, Finalization, Notarization, Nullification};
use simplex_round::{Leader, Round};
use std::alloc::{AllocError, Global};
use types_core::{Digest, Proposal, Scheme, View, Viewable};
use voter_history::TimeoutReason;

impl<S: Scheme<D> + Drop, D: Digest> Tracked<S, D> {
    /// The first view from this one on of which something is known.
    pub fn first_tracked(&self, from: View) -> Option<View>
        ensures behind { IfSome result (λ first. from ≤ first) }
        ensures tracked { AtEach S.Scheme self.now
            (λ f t. MatchOption result (AreUntracked t.led t.past from (2 ^ 64)) (λ first. IsFirstTracked t.led t.past from first)) }
    {
        self.rounds.first_tracked(from)
    }

    /// Takes in the verdict on a view.
    pub fn judge(&mut self, view: View, is_success: bool) -> Result<(), AllocError>
        ensures { OnOk result
            (AtEach S.Scheme self.old (λ f t. Holds S.Scheme f self.new (record t { past = put view (judged is_success) t.past }))) }
    {
        // The first verdict stays.
        let is_first = !self.is_judged(view);
        self.certified.mark_if(view, is_first && is_success)?;
        self.failed.mark_if(view, is_first && !is_success)?;
        self.rounds.open(view)?.certified(is_success);
        Ok(())
    }

    /// Whether a verdict on the view came.
    fn is_judged(&self, view: View) -> bool
        ensures { AtEach S.Scheme self.now (λ f t. result ≡ is_some (verdict (t.past view))) }
    {
        match self.rounds.get(view) {
            Some(round) => round.is_certified() || round.has_failed(),
            None => false,
        }
    }

    /// Takes in what needs no answer.
    pub fn tell(&mut self, view: View, notice: Notice) -> Result<(), AllocError>
        ensures { OnOk result (AtEach S.Scheme self.old (λ f t. Holds S.Scheme f self.new (record t { past = put view (told notice) t.past }))) }
    {
        tell(self.rounds.open(view)?, notice);
        Ok(())
    }

    /// Takes a reason to give the view up, which came at this moment: whether it is the first that counts. Else nothing changes.
    pub fn latch_timeout(
        &mut self,
        view: View,
        now: u64,
        reason: TimeoutReason,
    ) -> Result<bool, AllocError>
        ensures keeps { OnOk result
            (AtEach S.Scheme self.old (λ f t. Holds S.Scheme f self.new (record t { past = put view (latched now reason) t.past }))) }
        ensures unchanged { IfOk result (λ first. first ≡ false → AtEach S.Scheme self.old (λ f t. Holds S.Scheme f self.new t)) }
        ensures answer { IfOk result (λ first. AtEach S.Scheme self.old (λ f t. first ≡ is_unlatched (t.past view))) }
    {
        Ok(self.rounds.open(view)?.latch_timeout(now, reason))
    }

    /// Takes it that the held proposal was found good: whether it became verified. Behind an own nullify nothing changes.
    pub fn verified(&mut self, view: View) -> Result<bool, AllocError>
        ensures keeps { OnOk result (AtEach S.Scheme self.old (λ f t.
            Holds S.Scheme f self.new (record t { past = if has_nullified (t.past view) then t.past else put view (offered confirmed) t.past }))) }
        ensures answer { IfOk result (λ became.
            AtEach S.Scheme self.old (λ f t. IsTrue became ↔ ((has_nullified (t.past view) ≡ false) × IsUnverified (offers (t.past view))))) }
    {
        Ok(self.rounds.open(view)?.verified())
    }

    /// Records an own build over its parent's payload: whether it is taken. Else nothing changes.
    pub fn proposed(
        &mut self,
        now: u64,
        proposal: Proposal<D>,
        payload: D,
    ) -> Result<bool, AllocError>
        ensures keeps { IfOk result (λ taken.
            AtEach S.Scheme self.old (λ f t.
            Holds S.Scheme f self.new (record t
            { past = if taken then put proposal.round.view (bound proposal payload) (put proposal.round.view (built now proposal) t.past) else t.past }))) }
        ensures answer { IfOk result (λ taken.
            AtEach S.Scheme self.old (λ f t.
            IsTrue taken ↔ ((has_nullified (t.past proposal.round.view) ≡ false) × Agrees (held (offers (t.past proposal.round.view))) proposal))) }
    {
        let round = self.rounds.open(proposal.view())?;
        Ok(record_build(round, now, proposal, payload))
    }

    /// Votes to notarize the view, where it allows that: the held proposal.
    pub fn construct_notarize(&mut self, view: View) -> Option<Proposal<D>>
        ensures keeps { AtEach S.Scheme self.old
            (λ f t. Holds S.Scheme f self.new (record t { past = if is_some result then put view voted_notarize t.past else t.past })) }
        ensures answer { AtEach S.Scheme self.old
            (λ f t. MatchOption result (¬ MayNotarize (t.past view)) (λ p. MayNotarize (t.past view) × (held (offers (t.past view)) ≡ Some p))) }
    {
        match self.rounds.get_mut(view) {
            Some(round) => round.construct_notarize(),
            None => None,
        }
    }

    /// Votes to finalize the view, where it allows that: the held proposal.
    pub fn construct_finalize(&mut self, view: View) -> Option<Proposal<D>>
        ensures keeps { AtEach S.Scheme self.old
            (λ f t. Holds S.Scheme f self.new (record t { past = if is_some result then put view voted_finalize t.past else t.past })) }
        ensures answer { AtEach S.Scheme self.old
            (λ f t. MatchOption result (¬ MayFinalize (t.past view)) (λ p. MayFinalize (t.past view) × (held (offers (t.past view)) ≡ Some p))) }
    {
        match self.rounds.get_mut(view) {
            Some(round) => round.construct_finalize(),
            None => None,
        }
    }

    /// Votes to nullify the view, unless this member voted to finalize it: whether it did before.
    pub fn construct_nullify(&mut self, view: View) -> Result<Option<bool>, AllocError>
        ensures keeps { IfOk result (λ voted.
            AtEach S.Scheme self.old
            (λ f t. Holds S.Scheme f self.new (record t { past = if is_some voted then put view voted_nullify t.past else t.past }))) }
        ensures answer { IfOk result (λ voted.
            AtEach S.Scheme self.old (λ f t. voted ≡ (if has_finalized (t.past view) then None else Some (has_nullified (t.past view))))) }
    {
        let voted = self.rounds.open(view)?.construct_nullify();
        self.given_up.mark_if(view, voted.is_some())?;
        Ok(voted)
    }

    /// When and why the view is given up next, where a nullify that was voted is due again an interval after this look, or at the
    /// last moment of 64 bits. Where none was voted in a tracked view, or that is known, nothing changes.
    pub fn next_timeout(
        &mut self,
        view: View,
        now: u64,
        retry_interval: u64,
        allow_latched_timeout: bool,
    ) -> Result<Option<(u64, TimeoutReason)>, AllocError>
        ensures keeps { OnOk result (AtEach S.Scheme self.old
            (λ f t. Holds S.Scheme f self.new (record t { past = put view (polled (deadline now retry_interval)) t.past }))) }
        ensures unchanged { OnOk result (AtEach S.Scheme self.old
            (λ f t. IsTracked (t.past view) (t.led view) → RetryIsKnown (t.past view) → Holds S.Scheme f self.new t)) }
        ensures answer { IfOk result (λ timeout.
            AtEach S.Scheme self.old (λ f t. timeout ≡ next_timeout (polled (deadline now retry_interval) ∷ t.past view) allow_latched_timeout)) }
    {
        let round = self.rounds.open(view)?;
        Ok(round.next_timeout(now, retry_interval, allow_latched_timeout))
    }

    /// Asks for a build in the view: its leader, this member, where one may be asked for. Else nothing changes.
    pub fn try_propose(&mut self, view: View) -> Option<Leader<S::PublicKey>>
        ensures keeps { AtEach S.Scheme self.old
            (λ f t. Holds S.Scheme f self.new (record t { past = if is_some result then put view (offered building) t.past else t.past })) }
        ensures answer { AtEach S.Scheme self.old (λ f t.
            MatchOption result (¬ MayPropose (S.own f.common.scheme) (t.led view) (t.past view))
            (λ x. MayPropose (S.own f.common.scheme) (t.led view) (t.past view) × one.IsLeader S.key_of (setup_of f.common view) (t.led view) x)) }
    {
        match self.rounds.get_mut(view) {
            Some(round) => round.try_propose(),
            None => None,
        }
    }

    /// Asks for a verification of the view's proposal over its parent's payload, and binds it to that: whether one may be asked
    /// for. Else nothing changes.
    pub fn request_verify(&mut self, view: View, proposal: Proposal<D>, payload: D) -> bool
        ensures keeps { AtEach S.Scheme self.old (λ f t.
            Holds S.Scheme f self.new
            (record t { past = if result then put view (bound proposal payload) (put view (offered verifying) t.past) else t.past })) }
        ensures answer { AtEach S.Scheme self.old (λ f t. IsTrue result ↔ MayVerify (S.own f.common.scheme) (t.led view) (t.past view)) }
    {
        match self.rounds.get_mut(view) {
            Some(round) => request_verify(round, proposal, payload),
            None => false,
        }
    }

    /// A copy of the notarization of the view to hand out, once.
    pub fn broadcast_notarization(
        &mut self,
        alloc: Global,
        view: View,
    ) -> Result<Option<Notarization<S, D>>, AllocError>
        ensures keeps { IfOk result (λ copy.
            AtEach S.Scheme self.old
            (λ f t. Holds S.Scheme f self.new (record t { past = if is_some copy then put view sent_notarization t.past else t.past }))) }
        ensures answer { IfOk result (λ copy.
            AtEach S.Scheme self.old (λ f t. copy ≡ (if has_sent_notarization (t.past view) then None else notarization (t.past view)))) }
    {
        match self.rounds.get_mut(view) {
            Some(round) => round.broadcast_notarization(alloc),
            None => Ok(None),
        }
    }

    /// A copy of the nullification of the view to hand out, once.
    pub fn broadcast_nullification(
        &mut self,
        alloc: Global,
        view: View,
    ) -> Result<Option<Nullification<S, D>>, AllocError>
        ensures keeps { IfOk result (λ copy.
            AtEach S.Scheme self.old
            (λ f t. Holds S.Scheme f self.new (record t { past = if is_some copy then put view sent_nullification t.past else t.past }))) }
        ensures answer { IfOk result (λ copy.
            AtEach S.Scheme self.old (λ f t. copy ≡ (if has_sent_nullification (t.past view) then None else nullification (t.past view)))) }
    {
        match self.rounds.get_mut(view) {
            Some(round) => round.broadcast_nullification(alloc),
            None => Ok(None),
        }
    }

    /// A copy of the finalization of the view to hand out, once.
    pub fn broadcast_finalization(
        &mut self,
        alloc: Global,
        view: View,
    ) -> Result<Option<Finalization<S, D>>, AllocError>
        ensures keeps { IfOk result (λ copy.
            AtEach S.Scheme self.old
            (λ f t. Holds S.Scheme f self.new (record t { past = if is_some copy then put view sent_finalization t.past else t.past }))) }
        ensures answer { IfOk result (λ copy.
            AtEach S.Scheme self.old (λ f t. copy ≡ (if has_sent_finalization (t.past view) then None else finalization (t.past view)))) }
    {
        match self.rounds.get_mut(view) {
            Some(round) => round.broadcast_finalization(alloc),
            None => Ok(None),
        }
    }

    /// Takes in an artifact of this member's record.
    pub fn replay(&mut self, artifact: &Artifact<S, D>) -> Result<(), AllocError>
        ensures { OnOk result (AtEach S.Scheme self.old (λ f t.
            (taken : Bool) × Takes t.past artifact.now taken × Holds S.Scheme f self.new
            (record t { past = recalled taken artifact.now t.past }))) }
    {
        match artifact {
            Artifact::Certification(round, is_success) => self.judge(round.view(), *is_success),
            Artifact::Nullify(vote) => {
                self.given_up.mark(vote.view())?;
                self.rounds.replay(artifact)
            }
            _ => self.rounds.replay(artifact),
        }
    }

    /// Binds the proposal to its parent's payload, where there is one.
    pub fn bind(&mut self, proposal: Proposal<D>, payload: Option<D>) -> Result<(), AllocError>
        ensures { OnOk result (AtEach S.Scheme self.old (λ f t. Holds S.Scheme f self.new (record t { past = bind payload proposal t.past }))) }
    {
        let Some(payload) = payload else {
            return Ok(());
        };
        self.rounds
            .open(proposal.view())?
            .set_verifying(proposal, payload);
        Ok(())
    }
}

/// Takes in what needs no answer.
fn tell<S: Scheme<D>, D: Digest>(round: &mut Round<S, D>, notice: Notice)
    ensures { one.Becomes S.key_of round.old round.new (λ h. told notice ∷ h) }
{
    match notice {
        Notice::Unbound => round.clear_verifying(),
        Notice::BuildReleased => round.clear_proposal_request(),
        Notice::AncestryAsked(missing) => {
            let _first = round.request(missing);
        }
        Notice::CertifyAsked(handle) => round.set_certify_handle(handle),
    }
}

/// Records an own build over its parent's payload: whether it is taken.
fn record_build<S: Scheme<D>, D: Digest>(
    round: &mut Round<S, D>,
    now: u64,
    proposal: Proposal<D>,
    payload: D,
) -> bool
    ensures keeps { one.Becomes S.key_of round.old round.new (λ h. if result then bound proposal payload ∷ built now proposal ∷ h else h) }
    ensures answer { one.AtEach S.key_of round.old (λ s l h. IsTrue result ↔ ((has_nullified h ≡ false) × Agrees (held (offers h)) proposal)) }
{
    if !round.proposed(now, proposal) {
        return false;
    }
    round.set_verifying(proposal, payload);
    true
}

/// Asks for a verification of the proposal over its parent's payload, and binds it to that: whether one may be asked for.
fn request_verify<S: Scheme<D>, D: Digest>(
    round: &mut Round<S, D>,
    proposal: Proposal<D>,
    payload: D,
) -> bool
    ensures keeps { one.Becomes S.key_of round.old round.new (λ h. if result then bound proposal payload ∷ offered verifying ∷ h else h) }
    ensures answer { one.AtEach S.key_of round.old (λ s l h. IsTrue result ↔ MayVerify (S.own s.scheme) l h) }
{
    if !round.request_verify() {
        return false;
    }
    round.set_verifying(proposal, payload);
    true
}
