//! Votes on a proposal: to notarize it, and to finalize it.

ghost use Rattle.std.specs.Prelude.{◌≡◌, ◌↔◌, ℕ, Option, Some, None, IsTrue, IsNone, IfSome};

use crate::attested::Attested;
use crate::kind::{Finalizing, Notarizing, ProposalKind};
use std::alloc::{AllocError, Global};
use std::marker::PhantomData;
use types_core::{
    Attestation, Attributable, CodecError, Digest, Duplicate, EncodeSize, Epoch, Epochable,
    MaxEncodeSize, Participant, Proposal, Read, Round, Scheme, View, Viewable, Write,
};

/// A member's vote to certify a proposal for its round.
pub type Notarize<S, D> = ProposalVote<Notarizing, S, D>;

/// A member's vote to finalize a proposal.
pub type Finalize<S, D> = ProposalVote<Finalizing, S, D>;

/// A member's vote on a proposal.
#[derive_where(Debug, PartialEq, Eq, Hash; D, S::Signature)]
#[derive(Drop)]
pub struct ProposalVote<K: ProposalKind<D>, S: Scheme<D>, D: Digest> {
    /// What is voted for.
    pub proposal: Proposal<D>,
    /// In whose name, and the signature.
    pub attestation: Attestation<S::Signature>,
    kind: PhantomData<K>,
}

impl<K: ProposalKind<D>, S: Scheme<D>, D: Digest> ProposalVote<K, S, D> {
    ghost use Rattle.std.specs.Prelude.{◌≡◌, ◌↔◌, ℕ, Option, Some, None, IsTrue, IsNone, IfSome};
    ghost use Rattle.messages_certificates.specs.ProposalVote.{Contradict, IsAttested, contradict};

    /// The vote on this proposal with this attestation.
    pub const fn new(proposal: Proposal<D>, attestation: Attestation<S::Signature>) -> Self
        ensures proposal { result.proposal ≡ proposal }
        ensures attestation { result.attestation ≡ attestation }
    {
        ProposalVote {
            proposal,
            attestation,
            kind: PhantomData,
        }
    }

    /// The vote of the member whose key the scheme has, or `None` without a key.
    pub fn sign(scheme: &S, proposal: Proposal<D>) -> Option<Self>
        ensures without_key { IsNone result ↔ (S.own scheme.now ≡ None) }
        ensures in_own_name { IfSome result (λ v. S.own scheme.now ≡ Some v.attestation.signer) }
        ensures proposal { IfSome result (λ v. v.proposal ≡ proposal) }
        ensures attests { IfSome result (λ v. IsAttested K.states (S.attests scheme.now) v) }
    {
        let attestation = scheme.sign(&K::subject(&proposal))?;
        Some(ProposalVote::new(proposal, attestation))
    }

    /// Whether the signer's attestation attests the vote.
    pub fn verify(&self, scheme: &S) -> bool
        ensures { IsTrue result ↔ IsAttested K.states (S.attests scheme.now) self.now }
    {
        scheme.verify_attestation(&K::subject(&self.proposal), &self.attestation)
    }

    /// The round that the vote is of.
    pub fn round(&self) -> Round
        ensures { result ≡ self.now.proposal.round }
    {
        self.proposal.round
    }

    /// Whether the two votes contradict each other: one signer and one round, two proposals.
    pub fn contradicts(&self, other: &Self) -> bool
        ensures exact { IsTrue result ↔ Contradict self.now other.now }
        ensures test { result ≡ contradict D.PartialEq.eq self.now other.now }
    {
        self.proposal.round == other.proposal.round
            && self.attestation.signer == other.attestation.signer
            && self.proposal != other.proposal
    }
}

impl<K: ProposalKind<D>, S: Scheme<D>, D: Digest> Epochable for ProposalVote<K, S, D> {
    ghost epoch_of = { λ v. v.proposal.round.epoch };

    fn epoch(&self) -> Epoch {
        self.proposal.round.epoch
    }
}

impl<K: ProposalKind<D>, S: Scheme<D>, D: Digest> Viewable for ProposalVote<K, S, D> {
    ghost view_of = { λ v. v.proposal.round.view };

    fn view(&self) -> View {
        self.proposal.round.view
    }
}

impl<K: ProposalKind<D>, S: Scheme<D>, D: Digest> Attributable for ProposalVote<K, S, D> {
    ghost signer_of = { λ v. v.attestation.signer };

    fn signer(&self) -> Participant {
        self.attestation.signer
    }
}

impl<K: ProposalKind<D>, S: Scheme<D>, D: Digest> Attested<S::Signature> for ProposalVote<K, S, D> {
    type Content = Proposal<D>;

    ghost content_of = { λ v. v.proposal };

    ghost attestation_of = { λ v. v.attestation };

    fn content(&self) -> Proposal<D> {
        self.proposal
    }

    fn attestation(&self) -> Attestation<S::Signature> {
        self.attestation
    }

    fn agrees(&self, other: &Self) -> bool {
        self.proposal == other.proposal
    }
}

impl<K: ProposalKind<D>, S: Scheme<D>, D: Digest> Duplicate for ProposalVote<K, S, D> {
    /// Never refused: a vote owns no memory.
    fn duplicate(&self, _alloc: Global) -> Result<Self, AllocError>
        ensures { result ≡ Ok self.now }
    {
        Ok(ProposalVote::new(self.proposal, self.attestation))
    }
}

impl<K: ProposalKind<D>, S: Scheme<D>, D: Digest> Write for ProposalVote<K, S, D> {
    ghost use Rattle.messages_certificates.specs.ProposalVote.{vote_fits, vote_spelling};

    ghost fits = { vote_fits D.fits S.Signature.fits };

    ghost spelling = { vote_spelling D.spelling S.Signature.spelling };

    fn append(&self, out: &mut Vec<u8>) -> Result<(), AllocError> {
        self.proposal.append(out)?;
        self.attestation.append(out)
    }
}

impl<K: ProposalKind<D>, S: Scheme<D>, D: Digest> EncodeSize for ProposalVote<K, S, D> {
    ghost use Rattle.std.specs.Prelude.{◌+◌};
    ghost use Rattle.std.proofs.Common.{arith};

    ghost max_size = { 35 + D.max_size + S.Signature.max_size };

    fn encode_size(&self) -> usize {
        self.proposal.encode_size() + self.attestation.encode_size()
    }

    ghost short = { Prim.omega (arith, D.small, S.Signature.small) };
}

impl<K: ProposalKind<D>, S: Scheme<D>, D: Digest> MaxEncodeSize for ProposalVote<K, S, D> {
    fn max_encode_size() -> usize {
        Proposal::<D>::max_encode_size() + Attestation::<S::Signature>::max_encode_size()
    }
}

impl<K: ProposalKind<D>, S: Scheme<D>, D: Digest> Read for ProposalVote<K, S, D> {
    ghost use Rattle.std.specs.Prelude.{⊤};
    ghost use Rattle.types_codec.specs.Codec.{bounded-IsCodec, unbounded-IsCodec};
    ghost use Rattle.messages_certificates.specs.ProposalVote.{vote_at, vote-IsCodec};

    ghost within = { λ _ _. ⊤ };

    ghost reading = { λ n. vote_at (D.reading n) (S.Signature.reading n) };

    ghost one_spelling = { λ n small. unbounded-IsCodec (vote-IsCodec (bounded-IsCodec (D.one_spelling n small) (D.unbounded n))
        (bounded-IsCodec (S.Signature.one_spelling n small) (S.Signature.unbounded n))) };

    ghost grows = { λ n m x up h. h };

    fn read_cfg(alloc: Global, input: &mut &[u8], bound: u32) -> Result<Self, CodecError> {
        let mut rest = *input;
        let proposal = Proposal::read_cfg(alloc, &mut rest, bound)?;
        let attestation = Attestation::read_cfg(alloc, &mut rest, bound)?;
        *input = rest;
        Ok(ProposalVote::new(proposal, attestation))
    }
}
