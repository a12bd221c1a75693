//! Own votes, and what a record says of them.

ghost use Rattle.std.specs.Prelude.{◌≡◌, ◌↔◌, if◌then◌else◌, ◌∷◌, Some, None, is_some, IsTrue, MatchOption};
ghost use Rattle.voter_history.specs.Held.{held};
ghost use Rattle.voter_history.specs.Past.{voted_notarize, voted_nullify, voted_finalize, offers, has_notarized, has_nullified, has_finalized, MayNotarize, MayFinalize};
ghost use Rattle.simplex_round.specs.Round.{AtEach, Becomes, Recalls};

use crate::round::Round;
use messages_certificates::Artifact;
use types_core::{Digest, Proposal, Scheme};

impl<S: Scheme<D>, D: Digest> Round<S, D> {
    /// Whether a notarize was voted.
    pub fn broadcast_notarize(&self) -> bool
        ensures { AtEach S.key_of self.now (λ s l h. result ≡ has_notarized h) }
    {
        self.votes.notarize
    }

    /// Whether a nullify was voted.
    pub fn broadcast_nullify(&self) -> bool
        ensures { AtEach S.key_of self.now (λ s l h. result ≡ has_nullified h) }
    {
        self.votes.nullify
    }

    /// Whether a finalize was voted.
    pub fn broadcast_finalize(&self) -> bool
        ensures { AtEach S.key_of self.now (λ s l h. result ≡ has_finalized h) }
    {
        self.votes.finalize
    }

    /// Whether a notarize may be voted: none was, no nullify was, and the held proposal is verified.
    pub fn can_construct_notarize(&self) -> bool
        ensures { AtEach S.key_of self.now (λ s l h. IsTrue result ↔ MayNotarize h) }
    {
        if self.votes.notarize || self.votes.nullify {
            return false;
        }
        self.is_verified()
    }

    /// Votes to notarize the held proposal, where it may.
    pub fn construct_notarize(&mut self) -> Option<Proposal<D>>
        ensures keeps { Becomes S.key_of self.old self.new (λ h. if is_some result then voted_notarize ∷ h else h) }
        ensures answer { AtEach S.key_of self.old (λ s l h. MatchOption result (¬ MayNotarize h) (λ p. MayNotarize h × (held (offers h) ≡ Some p))) }
    {
        if !self.can_construct_notarize() {
            return None;
        }
        let proposal = self.proposal()?;
        self.votes.notarize = true;
        Some(proposal)
    }

    /// Votes to give the view up: whether it did before, or `None` where it voted to finalize.
    pub fn construct_nullify(&mut self) -> Option<bool>
        ensures answer { AtEach S.key_of self.old (λ s l h. result ≡ (if has_finalized h then None else Some (has_nullified h))) }
        ensures keeps { Becomes S.key_of self.old self.new (λ h. if is_some result then voted_nullify ∷ h else h) }
    {
        if self.votes.finalize {
            return None;
        }
        let retry = self.votes.nullify;
        self.votes.nullify = true;
        self.deadlines.retry = None;
        Some(retry)
    }

    /// Whether a finalize may be voted: neither it nor a nullify was, and the held proposal, the only one that
    /// was seen, is notarized and judged good.
    pub fn can_construct_finalize(&self) -> bool
        ensures { AtEach S.key_of self.now (λ s l h. IsTrue result ↔ MayFinalize h) }
    {
        if self.votes.nullify || self.votes.finalize {
            return false;
        }
        if self.notarization.is_none() || self.verdict != Some(true) {
            return false;
        }
        self.has_unequivocated_proposal()
    }

    /// Votes to finalize the held proposal, where it may. It need not be verified here.
    pub fn construct_finalize(&mut self) -> Option<Proposal<D>>
        ensures keeps { Becomes S.key_of self.old self.new (λ h. if is_some result then voted_finalize ∷ h else h) }
        ensures answer { AtEach S.key_of self.old (λ s l h. MatchOption result (¬ MayFinalize h) (λ p. MayFinalize h × (held (offers h) ≡ Some p))) }
    {
        if !self.can_construct_finalize() {
            return None;
        }
        let proposal = self.proposal()?;
        self.votes.finalize = true;
        Some(proposal)
    }

    /// Takes in an artifact of this member's record, in the order of the record. A vote counts as its own. Of a
    /// certificate it only takes in that it was handed out: the certificate itself comes by its `add_` call.
    pub fn replay(&mut self, artifact: &Artifact<S, D>)
        ensures { AtEach S.key_of self.old (λ s l h. Recalls S.key_of s self.new l artifact.now h) }
    {
        match artifact {
            Artifact::Notarize(vote) => {
                let _taken = self.proposal.record_verified(vote.proposal);
                self.votes.notarize = true;
            }
            Artifact::Notarization(_) => self.broadcast_notarization = true,
            Artifact::Certification(_, is_success) => self.certified(*is_success),
            Artifact::Nullify(_) => {
                self.votes.nullify = true;
                self.deadlines.retry = None;
            }
            Artifact::Nullification(_) => self.broadcast_nullification = true,
            Artifact::Finalize(_) => self.votes.finalize = true,
            Artifact::Finalization(_) => self.broadcast_finalization = true,
        }
    }
}
