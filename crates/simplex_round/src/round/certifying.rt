//! Verdicts, and what the certificates support.

ghost use Rattle.std.specs.Prelude.{◌≡◌, ◌||◌, ◌∷◌, is_some, option_map};
ghost use Rattle.voter_history.specs.Past.{certifying, aborted, judged, notarization, finalization, verdict, certify_handle, uncertified_proposal, certified_proposal, forwardable_proposal, certificate_payload, verdict_is_true, verdict_is_false};
ghost use Rattle.types_core.specs.declared.proposal.Proposal.{Proposal};
ghost use Rattle.simplex_round.specs.Round.{AtEach, Becomes};

use crate::round::Round;
use types_core::{Digest, Proposal, Scheme};
use voter_history::Token;

impl<S: Scheme<D>, D: Digest> Round<S, D> {
    /// The notarized proposal, until a verdict came, was asked for or given up.
    pub fn pending_certification(&self) -> Option<Proposal<D>>
        ensures { AtEach S.key_of self.now (λ s l h. result ≡ uncertified_proposal h) }
    {
        if self.certify_asked || self.verdict.is_some() {
            return None;
        }
        match &self.notarization {
            Some(certificate) => Some(certificate.proposal),
            None => None,
        }
    }

    /// Takes in that a verdict is asked for by the request of this name. Behind a verdict it is let go.
    pub fn set_certify_handle(&mut self, handle: Token)
        ensures { Becomes S.key_of self.old self.new (λ h. certifying handle ∷ h) }
    {
        self.certify_asked = true;
        if self.verdict.is_none() {
            self.certify_handle = Some(handle);
        }
    }

    /// Gives up asking for a verdict: the name of the request that stands, for the caller to withdraw.
    pub fn abort_certify(&mut self) -> Option<Token>
        ensures keeps { Becomes S.key_of self.old self.new (λ h. aborted ∷ h) }
        ensures answer { AtEach S.key_of self.old (λ s l h. result ≡ certify_handle h) }
    {
        self.certify_asked = true;
        self.certify_handle.take()
    }

    /// Takes in the verdict. The first stays.
    pub fn certified(&mut self, is_success: bool)
        ensures { Becomes S.key_of self.old self.new (λ h. judged is_success ∷ h) }
    {
        if self.verdict.is_none() {
            self.verdict = Some(is_success);
        }
        self.certify_handle = None;
    }

    /// Whether the verdict is true.
    pub fn is_certified(&self) -> bool
        ensures { AtEach S.key_of self.now (λ s l h. result ≡ verdict_is_true (verdict h)) }
    {
        match self.verdict {
            Some(ok) => ok,
            None => false,
        }
    }

    /// Whether the verdict is false.
    pub fn has_failed(&self) -> bool
        ensures { AtEach S.key_of self.now (λ s l h. result ≡ verdict_is_false (verdict h)) }
    {
        match self.verdict {
            Some(ok) => !ok,
            None => false,
        }
    }

    /// Whether a notarization or a finalization is there.
    pub fn is_directly_notarized(&self) -> bool
        ensures { AtEach S.key_of self.now (λ s l h. result ≡ is_some (notarization h) || is_some (finalization h)) }
    {
        self.notarization.is_some() || self.finalization.is_some()
    }

    /// The certified proposal: the held one where the view is finalized or the verdict true.
    pub fn certified_proposal(&self) -> Option<Proposal<D>>
        ensures { AtEach S.key_of self.now (λ s l h. result ≡ certified_proposal h) }
    {
        if self.finalization.is_some() {
            return self.proposal();
        }
        if self.verdict != Some(true) {
            return None;
        }
        self.proposal()
    }

    /// The payload of the certified proposal.
    pub fn certified_payload(&self) -> Option<D>
        ensures { AtEach S.key_of self.now (λ s l h. result ≡ option_map (λ (p : Proposal D). p.payload) (certified_proposal h)) }
    {
        match self.certified_proposal() {
            Some(proposal) => Some(proposal.payload),
            None => None,
        }
    }

    /// The payload that the certificates support: the finalization's, or the notarization's without a false
    /// verdict.
    pub fn certificate_ancestry_payload(&self) -> Option<D>
        ensures { AtEach S.key_of self.now (λ s l h. result ≡ certificate_payload h) }
    {
        if let Some(certificate) = &self.finalization {
            return Some(certificate.proposal.payload);
        }
        if self.verdict == Some(false) {
            return None;
        }
        match &self.notarization {
            Some(certificate) => Some(certificate.proposal.payload),
            None => None,
        }
    }

    /// The proposal that may be forwarded: the held one where the certificates support a payload.
    pub fn forwardable_proposal(&self) -> Option<Proposal<D>>
        ensures { AtEach S.key_of self.now (λ s l h. result ≡ forwardable_proposal h) }
    {
        match self.certificate_ancestry_payload() {
            Some(_) => self.proposal(),
            None => None,
        }
    }
}
