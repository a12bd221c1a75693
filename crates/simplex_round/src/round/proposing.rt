//! Builds, and what is offered to the proposal.

ghost use Rattle.std.specs.Prelude.{◌≡◌, ◌↔◌, if◌then◌else◌, false, ◌∷◌, None, is_some, IsTrue, MatchBool, MatchOption, option_map};
ghost use Rattle.voter_history.specs.Held.{forwarded, certified, confirmed, building, released, held, Agrees, Differs, IsVerified, IsUnverified, IsUnequivocated};
ghost use Rattle.voter_history.specs.Past.{offered, built, offers, has_nullified, MayPropose};
ghost use Rattle.simplex_round.specs.Round.{Keeps, AtEach, Becomes, IsLeader};

use crate::leader::Leader;
use crate::round::Round;
use crate::slot::{Change, Status};
use types_core::{Digest, Proposal, Scheme};

impl<S: Scheme<D>, D: Digest> Round<S, D> {
    /// Whether a build is to be asked for: this member leads, didn't give the view up, holds nothing and asked
    /// for none.
    pub fn should_propose(&self) -> bool
        ensures { AtEach S.key_of self.now (λ s l h. IsTrue result ↔ MayPropose (S.own s.scheme) l h) }
    {
        if self.votes.nullify || !self.leads() {
            return false;
        }
        self.proposal.should_build()
    }

    /// Asks for a build, where one is to be asked for: the leader, which is this member.
    pub fn try_propose(&mut self) -> Option<Leader<S::PublicKey>>
        ensures keeps { Becomes S.key_of self.old self.new (λ h. if is_some result then offered building ∷ h else h) }
        ensures answer { AtEach S.key_of self.old
            (λ s l h. MatchOption result (¬ MayPropose (S.own s.scheme) l h) (λ x. MayPropose (S.own s.scheme) l h × IsLeader S.key_of s l x)) }
    {
        if !self.should_propose() {
            return None;
        }
        let leader = self.leader_copy()?;
        self.proposal.set_building();
        Some(leader)
    }

    /// Gives back the build that was asked for.
    pub fn clear_proposal_request(&mut self)
        ensures { Becomes S.key_of self.old self.new (λ h. offered released ∷ h) }
    {
        self.proposal.clear_request();
    }

    /// The held proposal.
    pub fn proposal(&self) -> Option<Proposal<D>>
        ensures { AtEach S.key_of self.now (λ s l h. result ≡ held (offers h)) }
    {
        self.proposal.proposal().copied()
    }

    /// Whether a proposal is held, and none other was seen.
    pub fn has_unequivocated_proposal(&self) -> bool
        ensures { AtEach S.key_of self.now (λ s l h. IsTrue result ↔ IsUnequivocated (offers h)) }
    {
        self.proposal.has_unequivocated_proposal()
    }

    /// Whether the held proposal is verified.
    pub fn is_verified(&self) -> bool
        ensures { AtEach S.key_of self.now (λ s l h. IsTrue result ↔ IsVerified (offers h)) }
    {
        self.proposal.status() == Status::Verified
    }

    /// Offers the proposal of the leader's vote: whether it is the first. Behind an own nullify nothing changes.
    pub fn set_proposal(&mut self, proposal: &Proposal<D>) -> bool
        ensures keeps { Becomes S.key_of self.old self.new (λ h. if has_nullified h then h else offered (forwarded proposal.now) ∷ h) }
        ensures answer { AtEach S.key_of self.old (λ s l h. IsTrue result ↔ ((has_nullified h ≡ false) × (held (offers h) ≡ None))) }
    {
        if self.votes.nullify {
            return false;
        }
        match self.proposal.update_vote(proposal) {
            Some(Change::New) => true,
            Some(Change::Unchanged) | Some(Change::Equivocated { .. }) | None => false,
        }
    }

    /// Offers a proposal that was built here at this moment: whether it is held then. Behind an own nullify, and
    /// where another one is held, nothing changes.
    pub fn proposed(&mut self, now: u64, proposal: Proposal<D>) -> bool
        ensures keeps { AtEach S.key_of self.old
            (λ s l h. MatchBool result (Keeps S.key_of s self.new l (built now proposal ∷ h)) (Keeps S.key_of s self.new l h)) }
        ensures answer { AtEach S.key_of self.old (λ s l h. IsTrue result ↔ ((has_nullified h ≡ false) × Agrees (held (offers h)) proposal)) }
    {
        if self.votes.nullify {
            return false;
        }
        if !self.proposal.record_verified(proposal) {
            return false;
        }
        self.proposed_at = Some(now);
        true
    }

    /// Takes in that the held proposal was found good: whether it became verified by that. Behind an own
    /// nullify nothing changes.
    pub fn verified(&mut self) -> bool
        ensures keeps { Becomes S.key_of self.old self.new (λ h. if has_nullified h then h else offered confirmed ∷ h) }
        ensures answer { AtEach S.key_of self.old (λ s l h. IsTrue result ↔ ((has_nullified h ≡ false) × IsUnverified (offers h))) }
    {
        if self.votes.nullify {
            return false;
        }
        self.proposal.mark_verified()
    }

    /// Offers the proposal of a certificate: the known leader's key where it took the place of another.
    pub fn add_recovered_proposal(&mut self, proposal: &Proposal<D>) -> Option<S::PublicKey>
        ensures keeps { Becomes S.key_of self.old self.new (λ h. offered (certified proposal.now) ∷ h) }
        ensures replaced { AtEach S.key_of self.old (λ s l h. Differs (held (offers h)) proposal.now → result ≡ option_map (S.key_of s.scheme) l) }
        ensures same { AtEach S.key_of self.old (λ s l h. Agrees (held (offers h)) proposal.now → result ≡ None) }
    {
        match self.proposal.update_certificate(proposal) {
            Change::New | Change::Unchanged => None,
            Change::Equivocated { .. } => match &self.leader {
                Some(leader) => Some(leader.key),
                None => None,
            },
        }
    }
}
