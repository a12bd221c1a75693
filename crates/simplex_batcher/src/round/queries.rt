//! What can be asked about the accepted votes.

ghost use Rattle.std.specs.Prelude.{◌≡◌, ◌||◌, ℕ, IfOk, find};
ghost use Rattle.std.specs.Option.{option_copied};
ghost use Rattle.batcher_verifier.specs.Votes.{is_notarize_of, is_other_of};
ghost use Rattle.batcher_verifier.specs.History.{accepted};
ghost use Rattle.simplex_batcher.specs.Queries.{passes, is_nullify, is_backing, has_nullify, is_missing_voter, missing_voters};
ghost use Rattle.simplex_batcher.specs.Rounds.{AtEach};

use crate::round::Round;
use crate::votes::{is_backing, is_nullify};
use simplex_messages::Vote;
use std::alloc::{AllocError, Global};
use types_core::{Digest, Participant, Proposal, Scheme};

impl<S: Scheme<D>, D: Digest> Round<S, D> {
    /// Whether a nullify of this member was accepted, its own ones among them.
    pub fn has_nullify(&self, signer: Participant) -> bool
        ensures { AtEach D.PartialEq.eq S.Scheme S.batchable self.now (λ s h. result ≡ has_nullify h signer) }
    {
        holds_nullify(self.verifier.vote_of(signer, false))
    }

    /// Whether no notarize and no finalize of this member for the proposal was accepted.
    pub fn is_missing_voter(&self, proposal: &Proposal<D>, signer: Participant) -> bool
        ensures { AtEach D.PartialEq.eq S.Scheme S.batchable self.now (λ s h. result ≡ is_missing_voter D.PartialEq.eq h proposal.now signer) }
    {
        !self.has_backed(signer, proposal)
    }

    /// Whether a notarize or a finalize of this member for the proposal was accepted.
    fn has_backed(&self, signer: Participant, proposal: &Proposal<D>) -> bool
        ensures { AtEach D.PartialEq.eq S.Scheme S.batchable self.now (λ s h.
            result ≡ (passes (is_backing D.PartialEq.eq proposal.now) (find (is_notarize_of signer) (accepted h)) || passes
            (is_backing D.PartialEq.eq proposal.now) (find (is_other_of signer) (accepted h)))) }
    {
        is_for(self.verifier.vote_of(signer, true), proposal)
            || is_for(self.verifier.vote_of(signer, false), proposal)
    }

    /// The members of which no notarize and no finalize for the proposal was accepted, ascending.
    pub fn missing_voters(
        &self,
        alloc: Global,
        proposal: &Proposal<D>,
    ) -> Result<Vec<Participant>, AllocError>
        ensures { IfOk result (λ missing.
            AtEach D.PartialEq.eq S.Scheme S.batchable self.now (λ s h. missing.items ≡ missing_voters D.PartialEq.eq s h proposal.now)) }
    {
        let mut missing = Vec::new(alloc);
        for index in 0..self.verifier.participants() {
            let signer = Participant::new(index);
            if self.is_missing_voter(proposal, signer) {
                missing.push(signer)?;
            }
        }
        Ok(missing)
    }
}

/// Whether there is a vote, and it is a nullify.
fn holds_nullify<S: Scheme<D>, D: Digest>(vote: Option<&Vote<S, D>>) -> bool
    ensures { result ≡ passes is_nullify (option_copied vote.entry) }
{
    match vote {
        Some(vote) => is_nullify(vote),
        None => false,
    }
}

/// Whether there is a vote, and it is to notarize or to finalize the proposal.
fn is_for<S: Scheme<D>, D: Digest>(vote: Option<&Vote<S, D>>, proposal: &Proposal<D>) -> bool
    ensures { result ≡ passes (is_backing D.PartialEq.eq proposal.now) (option_copied vote.entry) }
{
    match vote {
        Some(vote) => is_backing(vote, proposal),
        None => false,
    }
}
