//! Verifications of the held proposal, and what it rests on.

ghost use Rattle.std.specs.Prelude.{◌≡◌, ◌≢◌, ◌↔◌, if◌then◌else◌, ◌∷◌, Some, None, IsSome, IsTrue, IfSome};
ghost use Rattle.voter_history.specs.Held.{verifying, held};
ghost use Rattle.voter_history.specs.Past.{offered, asked, bound, unbound, offers, last_asked, binding, MayVerify};
ghost use Rattle.simplex_round.specs.Round.{AtEach, Becomes, IsLeader};

use crate::leader::Leader;
use crate::round::Round;
use types_core::{Digest, Proposal, Scheme, View};

impl<S: Scheme<D>, D: Digest> Round<S, D> {
    /// Whether a verification may be asked for: another member leads, this one didn't give the view up and
    /// asked for none.
    fn may_verify(&self) -> bool
        ensures { AtEach S.key_of self.now (λ s l h. IsTrue result ↔ MayVerify (S.own s.scheme) l h) }
    {
        if self.votes.nullify || self.leader.is_none() {
            return false;
        }
        if self.leads() {
            return false;
        }
        self.proposal.should_verify()
    }

    /// The leader and the held proposal, where a verification is to be asked for.
    pub fn pending_verification(&self) -> Option<(Leader<S::PublicKey>, Proposal<D>)>
        ensures some { AtEach S.key_of self.now
            (λ s l h. IfSome result (λ p. MayVerify (S.own s.scheme) l h × IsLeader S.key_of s l p.0 × (held (offers h) ≡ Some p.1))) }
        ensures none { AtEach S.key_of self.now (λ s l h. result ≡ None → ¬ (MayVerify (S.own s.scheme) l h × IsSome (held (offers h)))) }
    {
        if !self.may_verify() {
            return None;
        }
        let leader = self.leader_copy()?;
        let proposal = self.proposal()?;
        Some((leader, proposal))
    }

    /// Asks for a verification: whether one was to be asked for. Else nothing changes.
    pub fn request_verify(&mut self) -> bool
        ensures keeps { Becomes S.key_of self.old self.new (λ h. if result then offered verifying ∷ h else h) }
        ensures answer { AtEach S.key_of self.old (λ s l h. IsTrue result ↔ MayVerify (S.own s.scheme) l h) }
    {
        if !self.may_verify() {
            return false;
        }
        self.proposal.request_verify()
    }

    /// Takes in that a view which the proposal rests on was asked for: whether the last one was another.
    pub fn request(&mut self, view: View) -> bool
        ensures keeps { Becomes S.key_of self.old self.new (λ h. asked view ∷ h) }
        ensures answer { AtEach S.key_of self.old (λ s l h. IsTrue result ↔ (last_asked h ≢ Some view)) }
    {
        if self.last_asked == Some(view) {
            return false;
        }
        self.last_asked = Some(view);
        true
    }

    /// Whether this view was asked for last.
    pub fn is_requested(&self, view: View) -> bool
        ensures { AtEach S.key_of self.now (λ s l h. IsTrue result ↔ (last_asked h ≡ Some view)) }
    {
        self.last_asked == Some(view)
    }

    /// Binds a proposal to its parent's payload.
    pub fn set_verifying(&mut self, proposal: Proposal<D>, parent_payload: D)
        ensures { Becomes S.key_of self.old self.new (λ h. bound proposal parent_payload ∷ h) }
    {
        self.verifying = Some((proposal, parent_payload));
    }

    /// The bound proposal, and the payload that it is bound to.
    pub fn verifying(&self) -> Option<(Proposal<D>, D)>
        ensures { AtEach S.key_of self.now (λ s l h. result ≡ binding h) }
    {
        self.verifying
    }

    /// Unbinds the proposal.
    pub fn clear_verifying(&mut self)
        ensures { Becomes S.key_of self.old self.new (λ h. unbound ∷ h) }
    {
        self.verifying = None;
    }
}
