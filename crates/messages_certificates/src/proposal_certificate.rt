//! Certificates for a proposal: that it is notarized, and that it is finalized.

ghost use Rattle.std.specs.Prelude.{◌≡◌, ◌↔◌, ◌≤◌, ◌<◌, ◌^◌, ℕ, length, IsTrue};

use crate::assembly::{assembled, can_assemble};
use crate::kind::{Finalizing, Notarizing, ProposalKind};
use crate::proposal_vote::{Finalize, Notarize, ProposalVote};
use std::alloc::{AllocError, Global};
use std::marker::PhantomData;
use types_core::{
    Aggregate, AssemblyError, CodecError, Digest, Duplicate, EncodeSize, Epoch, Epochable,
    MaxEncodeSize, Proposal, Read, Round, Scheme, View, Viewable, Write,
};

/// A quorum's certificate that a proposal may be built on.
pub type Notarization<S, D> = ProposalCertificate<Notarizing, S, D>;

/// A quorum's certificate that a proposal is final.
pub type Finalization<S, D> = ProposalCertificate<Finalizing, S, D>;

/// A quorum's certificate for a proposal.
#[derive_where(Debug, PartialEq, Eq, Hash; D, S::Certificate)]
#[derive(Drop)]
pub struct ProposalCertificate<K: ProposalKind<D>, S: Scheme<D>, D: Digest> {
    /// What is certified.
    pub proposal: Proposal<D>,
    /// What certifies it.
    pub certificate: S::Certificate,
    kind: PhantomData<K>,
}

impl<K: ProposalKind<D>, S: Scheme<D>, D: Digest> ProposalCertificate<K, S, D> {
    ghost use Rattle.std.specs.Prelude.{◌+◌, ◌≡◌, ◌↔◌, ◌<◌, ◌≤◌, length, Err, IfOk, IfErr, IsTrue};
    ghost use Rattle.types_core.specs.declared.scheme.AssemblyError.TheVariants.{InsufficientAttestations, Memory};
    ghost use Rattle.types_quorum.specs.Committee.{quorum};
    ghost use Rattle.messages_certificates.specs.ProposalCertificate.{CanCertify, IsCertificateOf};

    /// The certificate for this proposal.
    pub const fn new(proposal: Proposal<D>, certificate: S::Certificate) -> Self
        ensures proposal { result.proposal ≡ proposal }
        ensures certificate { result.certificate ≡ certificate }
    {
        ProposalCertificate {
            proposal,
            certificate,
            kind: PhantomData,
        }
    }

    /// Whether a certificate can be made of the votes: one or more, on one proposal, by distinct
    /// members of a committee of so many. It is the test of what the calls that make one ask.
    /// Refused only where memory is.
    pub fn can_certify(
        alloc: Global,
        participants: u32,
        votes: &[ProposalVote<K, S, D>],
    ) -> Result<bool, AllocError>
        ensures { IfOk result (λ answer. IsTrue answer ↔ CanCertify participants votes.now) }
    {
        can_assemble(alloc, participants, votes)
    }

    /// The certificate of these votes.
    fn from_votes(
        alloc: Global,
        scheme: &S,
        votes: &[ProposalVote<K, S, D>],
    ) -> Result<Self, AssemblyError>
        requires { CanCertify (S.size scheme.now) votes.now }
        ensures made { IfOk result (IsCertificateOf K.states (S.attests scheme.now) (S.certifies scheme.now) S.lists S.enumerates votes.now) }
        ensures readable { IfOk result (λ c. S.Certificate.within (S.size scheme.now) c.certificate) }
        ensures within { IfOk result (λ c. S.Certificate.within 65535 c.certificate) }
        ensures too_few { length votes.now < quorum (S.size scheme.now)
            → result ≡ Err (InsufficientAttestations (quorum (S.size scheme.now)) (length votes.now)) }
        ensures enough { quorum (S.size scheme.now) ≤ length votes.now → IfErr result (λ e. e ≡ Memory) }
    {
        let (proposal, certificate) = assembled(alloc, scheme, votes)?;
        Ok(ProposalCertificate::new(proposal, certificate))
    }

    /// How many bytes the spelling of a certificate of a committee of so many has at most. Of each
    /// value `encode_size` says that it is no longer.
    pub fn max_encode_size(participants: u32) -> usize
        ensures { result ≡ 30 + D.max_size + S.Certificate.most_bytes participants }
    {
        Proposal::<D>::max_encode_size() + S::Certificate::max_encode_size(participants)
    }

    /// Whether the certificate certifies the proposal.
    pub fn verify(&self, scheme: &S) -> bool
        ensures { IsTrue result ↔ S.certifies scheme.now (K.states self.now.proposal) self.now.certificate }
    {
        scheme.verify_certificate(&K::subject(&self.proposal), &self.certificate)
    }

    /// The round that the certificate is of.
    pub fn round(&self) -> Round
        ensures { result ≡ self.now.proposal.round }
    {
        self.proposal.round
    }
}

impl<S: Scheme<D>, D: Digest> ProposalCertificate<Notarizing, S, D> {
    ghost use Rattle.std.specs.Prelude.{◌≡◌, ◌<◌, ◌≤◌, length, Err, IfOk, IfErr};
    ghost use Rattle.types_core.specs.Subject.{notarize};
    ghost use Rattle.types_core.specs.declared.scheme.AssemblyError.TheVariants.{InsufficientAttestations, Memory};
    ghost use Rattle.types_quorum.specs.Committee.{quorum};
    ghost use Rattle.messages_certificates.specs.ProposalCertificate.{CanCertify, IsCertificateOf};

    /// The notarization of these votes of distinct members on one proposal, as `can_certify` tells.
    ///
    /// # Errors
    ///
    /// [`AssemblyError::InsufficientAttestations`] where they are fewer than a quorum, and
    /// [`AssemblyError::Memory`] where memory ran out.
    pub fn from_notarizes(
        alloc: Global,
        scheme: &S,
        votes: &[Notarize<S, D>],
    ) -> Result<Self, AssemblyError>
        requires { CanCertify (S.size scheme.now) votes.now }
        ensures made { IfOk result (IsCertificateOf notarize (S.attests scheme.now) (S.certifies scheme.now) S.lists S.enumerates votes.now) }
        ensures readable { IfOk result (λ c. S.Certificate.within (S.size scheme.now) c.certificate) }
        ensures within { IfOk result (λ c. S.Certificate.within 65535 c.certificate) }
        ensures too_few { length votes.now < quorum (S.size scheme.now)
            → result ≡ Err (InsufficientAttestations (quorum (S.size scheme.now)) (length votes.now)) }
        ensures enough { quorum (S.size scheme.now) ≤ length votes.now → IfErr result (λ e. e ≡ Memory) }
    {
        Self::from_votes(alloc, scheme, votes)
    }

    /// The same of votes that are handed over.
    pub fn from_owned_notarizes(
        alloc: Global,
        scheme: &S,
        votes: Vec<Notarize<S, D>>,
    ) -> Result<Self, AssemblyError>
        requires { CanCertify (S.size scheme.now) votes.items }
        ensures made { IfOk result (IsCertificateOf notarize (S.attests scheme.now) (S.certifies scheme.now) S.lists S.enumerates votes.items) }
        ensures readable { IfOk result (λ c. S.Certificate.within (S.size scheme.now) c.certificate) }
        ensures within { IfOk result (λ c. S.Certificate.within 65535 c.certificate) }
        ensures too_few { length votes.items < quorum (S.size scheme.now)
            → result ≡ Err (InsufficientAttestations (quorum (S.size scheme.now)) (length votes.items)) }
        ensures enough { quorum (S.size scheme.now) ≤ length votes.items → IfErr result (λ e. e ≡ Memory) }
    {
        Self::from_votes(alloc, scheme, &votes)
    }
}

impl<S: Scheme<D>, D: Digest> ProposalCertificate<Finalizing, S, D> {
    ghost use Rattle.std.specs.Prelude.{◌≡◌, ◌<◌, ◌≤◌, length, Err, IfOk, IfErr};
    ghost use Rattle.types_core.specs.Subject.{finalize};
    ghost use Rattle.types_core.specs.declared.scheme.AssemblyError.TheVariants.{InsufficientAttestations, Memory};
    ghost use Rattle.types_quorum.specs.Committee.{quorum};
    ghost use Rattle.messages_certificates.specs.ProposalCertificate.{CanCertify, IsCertificateOf};

    /// The finalization of these votes of distinct members on one proposal, as `can_certify` tells.
    ///
    /// # Errors
    ///
    /// [`AssemblyError::InsufficientAttestations`] where they are fewer than a quorum, and
    /// [`AssemblyError::Memory`] where memory ran out.
    pub fn from_finalizes(
        alloc: Global,
        scheme: &S,
        votes: &[Finalize<S, D>],
    ) -> Result<Self, AssemblyError>
        requires { CanCertify (S.size scheme.now) votes.now }
        ensures made { IfOk result (IsCertificateOf finalize (S.attests scheme.now) (S.certifies scheme.now) S.lists S.enumerates votes.now) }
        ensures readable { IfOk result (λ c. S.Certificate.within (S.size scheme.now) c.certificate) }
        ensures within { IfOk result (λ c. S.Certificate.within 65535 c.certificate) }
        ensures too_few { length votes.now < quorum (S.size scheme.now)
            → result ≡ Err (InsufficientAttestations (quorum (S.size scheme.now)) (length votes.now)) }
        ensures enough { quorum (S.size scheme.now) ≤ length votes.now → IfErr result (λ e. e ≡ Memory) }
    {
        Self::from_votes(alloc, scheme, votes)
    }

    /// The same of votes that are handed over.
    pub fn from_owned_finalizes(
        alloc: Global,
        scheme: &S,
        votes: Vec<Finalize<S, D>>,
    ) -> Result<Self, AssemblyError>
        requires { CanCertify (S.size scheme.now) votes.items }
        ensures made { IfOk result (IsCertificateOf finalize (S.attests scheme.now) (S.certifies scheme.now) S.lists S.enumerates votes.items) }
        ensures readable { IfOk result (λ c. S.Certificate.within (S.size scheme.now) c.certificate) }
        ensures within { IfOk result (λ c. S.Certificate.within 65535 c.certificate) }
        ensures too_few { length votes.items < quorum (S.size scheme.now)
            → result ≡ Err (InsufficientAttestations (quorum (S.size scheme.now)) (length votes.items)) }
        ensures enough { quorum (S.size scheme.now) ≤ length votes.items → IfErr result (λ e. e ≡ Memory) }
    {
        Self::from_votes(alloc, scheme, &votes)
    }
}

impl<K: ProposalKind<D>, S: Scheme<D>, D: Digest> Epochable for ProposalCertificate<K, S, D> {
    ghost epoch_of = { λ c. c.proposal.round.epoch };

    fn epoch(&self) -> Epoch {
        self.proposal.round.epoch
    }
}

impl<K: ProposalKind<D>, S: Scheme<D>, D: Digest> Viewable for ProposalCertificate<K, S, D> {
    ghost view_of = { λ c. c.proposal.round.view };

    fn view(&self) -> View {
        self.proposal.round.view
    }
}

impl<K: ProposalKind<D>, S: Scheme<D>, D: Digest> Duplicate for ProposalCertificate<K, S, D> {
    fn duplicate(&self, alloc: Global) -> Result<Self, AllocError> {
        let certificate = self.certificate.duplicate(alloc)?;
        Ok(ProposalCertificate::new(self.proposal, certificate))
    }
}

impl<K: ProposalKind<D>, S: Scheme<D>, D: Digest> Write for ProposalCertificate<K, S, D> {
    ghost use Rattle.messages_certificates.specs.ProposalCertificate.{certificate_fits, certificate_spelling};

    ghost fits = { certificate_fits D.fits S.Certificate.fits };

    ghost spelling = { certificate_spelling D.spelling S.Certificate.spelling };

    #[tactic(auto, unfolding(crate::specs::ProposalCertificate::certificate_spelling, crate::specs::ProposalCertificate::certificate_fits))]
    fn append(&self, out: &mut Vec<u8>) -> Result<(), AllocError> {
        self.proposal.append(out)?;
        self.certificate.append(out)
    }
}

impl<K: ProposalKind<D>, S: Scheme<D>, D: Digest> EncodeSize for ProposalCertificate<K, S, D> {
    ghost use Rattle.std.specs.Prelude.{◌+◌};
    ghost use Rattle.std.proofs.Common.{arith};
    ghost use Rattle.messages_certificates.specs.ProposalCertificate.{certificate_fits, certificate_spelling};

    ghost max_size = { 30 + D.max_size + S.Certificate.max_size };

    #[tactic(auto, unfolding(crate::specs::ProposalCertificate::certificate_spelling, crate::specs::ProposalCertificate::certificate_fits))]
    fn encode_size(&self) -> usize
        ensures size { result ≡ length (certificate_spelling D.spelling S.Certificate.spelling self.now) }
        ensures bounded { result ≤ 30 + D.max_size + S.Certificate.max_size }
        ensures readable { certificate_fits D.fits S.Certificate.fits self.now }
        ensures planned { (n : ℕ) → n < 2 ^ 32 → S.Certificate.within n self.now.certificate → result ≤ 30 + D.max_size + S.Certificate.most_bytes n }
    {
        self.proposal.encode_size() + self.certificate.encode_size()
    }

    ghost short = { Prim.omega (arith, D.small, S.Certificate.small) };
}

impl<K: ProposalKind<D>, S: Scheme<D>, D: Digest> Read for ProposalCertificate<K, S, D> {
    ghost use Rattle.types_codec.specs.Codec.{bounded-IsCodec};
    ghost use Rattle.messages_certificates.specs.ProposalCertificate.{certificate_at, certificate-IsCodec};

    ghost within = { λ n c. S.Certificate.within n c.certificate };

    ghost reading = { λ n. certificate_at (D.reading n) (S.Certificate.reading n) };

    ghost one_spelling = { λ n small. certificate-IsCodec (bounded-IsCodec (D.one_spelling n small) (D.unbounded n))
        (S.Certificate.one_spelling n small) };

    ghost grows = { λ n m c up h. S.Certificate.grows n m c.certificate up h };

    #[tactic(auto, unfolding(crate::specs::ProposalCertificate::certificate_at))]
    fn read_cfg(alloc: Global, input: &mut &[u8], bound: u32) -> Result<Self, CodecError> {
        let mut rest = *input;
        let proposal = Proposal::read_cfg(alloc, &mut rest, bound)?;
        let certificate = S::Certificate::read_cfg(alloc, &mut rest, bound)?;
        *input = rest;
        Ok(ProposalCertificate::new(proposal, certificate))
    }
}
