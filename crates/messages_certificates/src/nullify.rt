//! Votes to give a round up.

ghost use Rattle.std.specs.Prelude.{◌≡◌, ◌↔◌, ℕ, Option, Some, None, IsTrue, IsNone, IfSome};

use crate::attested::Attested;
use crate::proposal_vote::Finalize;
use std::alloc::{AllocError, Global};
use types_core::{
    Attestation, Attributable, CodecError, Digest, Duplicate, EncodeSize, Epoch, Epochable,
    MaxEncodeSize, Participant, Read, Round, Scheme, Subject, View, Viewable, Write,
};

/// A member's vote to give a round up.
#[derive_where(Debug, PartialEq, Eq, Hash; S::Signature)]
#[derive(Drop)]
pub struct Nullify<S: Scheme<D>, D: Digest> {
    /// What is given up.
    pub round: Round,
    /// In whose name, and the signature.
    pub attestation: Attestation<S::Signature>,
}

impl<S: Scheme<D>, D: Digest> Nullify<S, D> {
    ghost use Rattle.std.specs.Prelude.{◌≡◌, ◌↔◌, Some, None, IsTrue, IsNone, IfSome};
    ghost use Rattle.messages_certificates.specs.Nullify.{NullifyIsAttested};
    ghost use Rattle.messages_certificates.specs.StandsBeside.{StandsBeside, stands_beside};

    /// The vote of the member whose key the scheme has, or `None` without a key.
    pub fn sign(scheme: &S, round: Round) -> Option<Self>
        ensures without_key { IsNone result ↔ (S.own scheme.now ≡ None) }
        ensures in_own_name { IfSome result (λ v. S.own scheme.now ≡ Some v.attestation.signer) }
        ensures round { IfSome result (λ v. v.round ≡ round) }
        ensures attests { IfSome result (λ v. NullifyIsAttested (S.attests scheme.now) v) }
    {
        let given_up = round;
        let attestation = scheme.sign(&Subject::Nullify(given_up))?;
        Some(Nullify { round, attestation })
    }

    /// Whether the signer's attestation attests the vote.
    pub fn verify(&self, scheme: &S) -> bool
        ensures { IsTrue result ↔ NullifyIsAttested (S.attests scheme.now) self.now }
    {
        scheme.verify_attestation(&Subject::Nullify(self.round), &self.attestation)
    }

    /// Whether the other vote is the same signer's to finalize a proposal of the same round.
    pub fn stands_beside(&self, other: &Finalize<S, D>) -> bool
        ensures exact { IsTrue result ↔ StandsBeside self.now other.now }
        ensures test { result ≡ stands_beside self.now other.now }
    {
        self.round == other.proposal.round && self.attestation.signer == other.attestation.signer
    }

    /// The round that the vote is of.
    pub fn round(&self) -> Round
        ensures { result ≡ self.now.round }
    {
        self.round
    }
}

impl<S: Scheme<D>, D: Digest> Epochable for Nullify<S, D> {
    ghost epoch_of = { λ v. v.round.epoch };

    fn epoch(&self) -> Epoch {
        self.round.epoch
    }
}

impl<S: Scheme<D>, D: Digest> Viewable for Nullify<S, D> {
    ghost view_of = { λ v. v.round.view };

    fn view(&self) -> View {
        self.round.view
    }
}

impl<S: Scheme<D>, D: Digest> Attributable for Nullify<S, D> {
    ghost signer_of = { λ v. v.attestation.signer };

    fn signer(&self) -> Participant {
        self.attestation.signer
    }
}

impl<S: Scheme<D>, D: Digest> Attested<S::Signature> for Nullify<S, D> {
    type Content = Round;

    ghost content_of = { λ v. v.round };

    ghost attestation_of = { λ v. v.attestation };

    fn content(&self) -> Round {
        self.round
    }

    fn attestation(&self) -> Attestation<S::Signature> {
        self.attestation
    }

    fn agrees(&self, other: &Self) -> bool {
        self.round == other.round
    }
}

impl<S: Scheme<D>, D: Digest> Duplicate for Nullify<S, D> {
    /// Never refused: a vote owns no memory.
    fn duplicate(&self, _alloc: Global) -> Result<Self, AllocError>
        ensures { result ≡ Ok self.now }
    {
        Ok(Nullify {
            round: self.round,
            attestation: self.attestation,
        })
    }
}

impl<S: Scheme<D>, D: Digest> Write for Nullify<S, D> {
    ghost use Rattle.messages_certificates.specs.Nullify.{nullify_fits, nullify_spelling};

    ghost fits = { nullify_fits S.Signature.fits };

    ghost spelling = { nullify_spelling S.Signature.spelling };

    fn append(&self, out: &mut Vec<u8>) -> Result<(), AllocError> {
        self.round.append(out)?;
        self.attestation.append(out)
    }
}

impl<S: Scheme<D>, D: Digest> EncodeSize for Nullify<S, D> {
    ghost use Rattle.std.specs.Prelude.{◌+◌};
    ghost use Rattle.std.proofs.Common.{arith};

    ghost max_size = { 25 + S.Signature.max_size };

    fn encode_size(&self) -> usize {
        self.round.encode_size() + self.attestation.encode_size()
    }

    ghost short = { Prim.omega (arith, S.Signature.small) };
}

impl<S: Scheme<D>, D: Digest> MaxEncodeSize for Nullify<S, D> {
    fn max_encode_size() -> usize {
        Round::max_encode_size() + Attestation::<S::Signature>::max_encode_size()
    }
}

impl<S: Scheme<D>, D: Digest> Read for Nullify<S, D> {
    ghost use Rattle.std.specs.Prelude.{⊤};
    ghost use Rattle.types_codec.specs.Codec.{bounded-IsCodec, unbounded-IsCodec};
    ghost use Rattle.messages_certificates.specs.Nullify.{nullify_at, nullify-IsCodec};

    ghost within = { λ _ _. ⊤ };

    ghost reading = { λ n. nullify_at (S.Signature.reading n) };

    ghost one_spelling = { λ n small. unbounded-IsCodec
        (nullify-IsCodec (bounded-IsCodec (S.Signature.one_spelling n small) (S.Signature.unbounded n))) };

    ghost grows = { λ n m x up h. h };

    fn read_cfg(alloc: Global, input: &mut &[u8], bound: u32) -> Result<Self, CodecError> {
        let mut rest = *input;
        let round = Round::read_cfg(alloc, &mut rest, bound)?;
        let attestation = Attestation::read_cfg(alloc, &mut rest, bound)?;
        *input = rest;
        Ok(Nullify { round, attestation })
    }
}
