//! Certificates that a round is given up.

ghost use Rattle.std.specs.Prelude.{◌≡◌, ◌↔◌, ◌≤◌, ◌<◌, ◌^◌, ℕ, length, IsTrue};

use crate::assembly::{assembled, can_assemble};
use crate::nullify::Nullify;
use std::alloc::{AllocError, Global};
use types_core::{
    Aggregate, AssemblyError, CodecError, Digest, Duplicate, EncodeSize, Epoch, Epochable,
    MaxEncodeSize, Read, Round, Scheme, Subject, View, Viewable, Write,
};

/// A quorum's certificate that a round is given up.
#[derive_where(Debug, PartialEq, Eq, Hash; S::Certificate)]
#[derive(Drop)]
pub struct Nullification<S: Scheme<D>, D: Digest> {
    /// What is given up.
    pub round: Round,
    /// What certifies it.
    pub certificate: S::Certificate,
}

impl<S: Scheme<D>, D: Digest> Nullification<S, D> {
    ghost use Rattle.std.specs.Prelude.{◌+◌, ◌≡◌, ◌↔◌, ◌<◌, ◌≤◌, length, Err, IfOk, IfErr, IsTrue};
    ghost use Rattle.types_core.specs.Subject.{nullify};
    ghost use Rattle.types_core.specs.declared.scheme.AssemblyError.TheVariants.{InsufficientAttestations, Memory};
    ghost use Rattle.types_quorum.specs.Committee.{quorum};
    ghost use Rattle.messages_certificates.specs.Nullification.{CanNullify, IsNullificationOf};

    /// Whether a nullification can be made of the votes: one or more, on one round, by distinct
    /// members of a committee of so many. It is the test of what the calls that make one ask.
    /// Refused only where memory is.
    pub fn can_nullify(
        alloc: Global,
        participants: u32,
        votes: &[Nullify<S, D>],
    ) -> Result<bool, AllocError>
        ensures { IfOk result (λ answer. IsTrue answer ↔ CanNullify participants votes.now) }
    {
        can_assemble(alloc, participants, votes)
    }

    /// The nullification of these votes of distinct members on one round, as `can_nullify` tells.
    ///
    /// # Errors
    ///
    /// [`AssemblyError::InsufficientAttestations`] where they are fewer than a quorum, and
    /// [`AssemblyError::Memory`] where memory ran out.
    pub fn from_nullifies(
        alloc: Global,
        scheme: &S,
        votes: &[Nullify<S, D>],
    ) -> Result<Self, AssemblyError>
        requires { CanNullify (S.size scheme.now) votes.now }
        ensures made { IfOk result (IsNullificationOf (S.attests scheme.now) (S.certifies scheme.now) S.lists S.enumerates votes.now) }
        ensures readable { IfOk result (λ c. S.Certificate.within (S.size scheme.now) c.certificate) }
        ensures within { IfOk result (λ c. S.Certificate.within 65535 c.certificate) }
        ensures too_few { length votes.now < quorum (S.size scheme.now)
            → result ≡ Err (InsufficientAttestations (quorum (S.size scheme.now)) (length votes.now)) }
        ensures enough { quorum (S.size scheme.now) ≤ length votes.now → IfErr result (λ e. e ≡ Memory) }
    {
        let (round, certificate) = assembled(alloc, scheme, votes)?;
        Ok(Nullification { round, certificate })
    }

    /// The same of votes that are handed over.
    pub fn from_owned_nullifies(
        alloc: Global,
        scheme: &S,
        votes: Vec<Nullify<S, D>>,
    ) -> Result<Self, AssemblyError>
        requires { CanNullify (S.size scheme.now) votes.items }
        ensures made { IfOk result (IsNullificationOf (S.attests scheme.now) (S.certifies scheme.now) S.lists S.enumerates votes.items) }
        ensures readable { IfOk result (λ c. S.Certificate.within (S.size scheme.now) c.certificate) }
        ensures within { IfOk result (λ c. S.Certificate.within 65535 c.certificate) }
        ensures too_few { length votes.items < quorum (S.size scheme.now)
            → result ≡ Err (InsufficientAttestations (quorum (S.size scheme.now)) (length votes.items)) }
        ensures enough { quorum (S.size scheme.now) ≤ length votes.items → IfErr result (λ e. e ≡ Memory) }
    {
        Self::from_nullifies(alloc, scheme, &votes)
    }

    /// How many bytes the spelling of a certificate of a committee of so many has at most. Of each
    /// value `encode_size` says that it is no longer.
    pub fn max_encode_size(participants: u32) -> usize
        ensures { result ≡ 20 + S.Certificate.most_bytes participants }
    {
        Round::max_encode_size() + S::Certificate::max_encode_size(participants)
    }

    /// Whether the certificate certifies that the round is given up.
    pub fn verify(&self, scheme: &S) -> bool
        ensures { IsTrue result ↔ S.certifies scheme.now (nullify self.now.round) self.now.certificate }
    {
        scheme.verify_certificate(&Subject::Nullify(self.round), &self.certificate)
    }

    /// The round that the certificate is of.
    pub fn round(&self) -> Round
        ensures { result ≡ self.now.round }
    {
        self.round
    }
}

impl<S: Scheme<D>, D: Digest> Epochable for Nullification<S, D> {
    ghost epoch_of = { λ c. c.round.epoch };

    fn epoch(&self) -> Epoch {
        self.round.epoch
    }
}

impl<S: Scheme<D>, D: Digest> Viewable for Nullification<S, D> {
    ghost view_of = { λ c. c.round.view };

    fn view(&self) -> View {
        self.round.view
    }
}

impl<S: Scheme<D>, D: Digest> Duplicate for Nullification<S, D> {
    fn duplicate(&self, alloc: Global) -> Result<Self, AllocError> {
        let certificate = self.certificate.duplicate(alloc)?;
        Ok(Nullification {
            round: self.round,
            certificate,
        })
    }
}

impl<S: Scheme<D>, D: Digest> Write for Nullification<S, D> {
    ghost use Rattle.messages_certificates.specs.Nullification.{nullification_fits, nullification_spelling};

    ghost fits = { nullification_fits S.Certificate.fits };

    ghost spelling = { nullification_spelling S.Certificate.spelling };

    #[tactic(auto, unfolding(crate::specs::Nullification::nullification_spelling, crate::specs::Nullification::nullification_fits))]
    fn append(&self, out: &mut Vec<u8>) -> Result<(), AllocError> {
        self.round.append(out)?;
        self.certificate.append(out)
    }
}

impl<S: Scheme<D>, D: Digest> EncodeSize for Nullification<S, D> {
    ghost use Rattle.std.specs.Prelude.{◌+◌};
    ghost use Rattle.std.proofs.Common.{arith};
    ghost use Rattle.messages_certificates.specs.Nullification.{nullification_fits, nullification_spelling};

    ghost max_size = { 20 + S.Certificate.max_size };

    #[tactic(auto, unfolding(crate::specs::Nullification::nullification_spelling, crate::specs::Nullification::nullification_fits))]
    fn encode_size(&self) -> usize
        ensures size { result ≡ length (nullification_spelling S.Certificate.spelling self.now) }
        ensures bounded { result ≤ 20 + S.Certificate.max_size }
        ensures readable { nullification_fits S.Certificate.fits self.now }
        ensures planned { (n : ℕ) → n < 2 ^ 32 → S.Certificate.within n self.now.certificate → result ≤ 20 + S.Certificate.most_bytes n }
    {
        self.round.encode_size() + self.certificate.encode_size()
    }

    ghost short = { Prim.omega (arith, S.Certificate.small) };
}

impl<S: Scheme<D>, D: Digest> Read for Nullification<S, D> {
    ghost use Rattle.messages_certificates.specs.Nullification.{nullification_at, nullification-IsCodec};

    ghost within = { λ n c. S.Certificate.within n c.certificate };

    ghost reading = { λ n. nullification_at (S.Certificate.reading n) };

    ghost one_spelling = { λ n small. nullification-IsCodec (S.Certificate.one_spelling n small) };

    ghost grows = { λ n m c up h. S.Certificate.grows n m c.certificate up h };

    #[tactic(auto, unfolding(crate::specs::Nullification::nullification_at))]
    fn read_cfg(alloc: Global, input: &mut &[u8], bound: u32) -> Result<Self, CodecError> {
        let mut rest = *input;
        let round = Round::read_cfg(alloc, &mut rest, bound)?;
        let certificate = S::Certificate::read_cfg(alloc, &mut rest, bound)?;
        *input = rest;
        Ok(Nullification { round, certificate })
    }
}
