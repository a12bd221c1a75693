//! Certificates of the three kinds.

ghost use Rattle.std.specs.Prelude.{◌≡◌, ◌≤◌, ◌<◌, ◌^◌, ℕ, length};
ghost use Rattle.types_codec.specs.Codec.{Gives};
ghost use Rattle.messages_certificates.specs.Certificate.{any_certificate_behind};

use crate::nullification::Nullification;
use crate::proposal_certificate::{Finalization, Notarization};
use std::alloc::{AllocError, Global};
use types_core::{
    CodecError, Digest, Duplicate, EncodeSize, Epoch, Epochable, Read, Round, Scheme, View,
    Viewable, Write,
};

/// A certificate of any kind.
#[derive_where(PartialEq, Eq, Hash; D, S::Certificate)]
#[derive(Drop)]
pub enum Certificate<S: Scheme<D>, D: Digest> {
    /// A certificate that a proposal may be built on. Its tag is 0.
    Notarization(Notarization<S, D>),
    /// A certificate that a round is given up. Its tag is 1.
    Nullification(Nullification<S, D>),
    /// A certificate that a proposal is final. Its tag is 2.
    Finalization(Finalization<S, D>),
}

impl<S: Scheme<D>, D: Digest> Certificate<S, D> {
    ghost use Rattle.std.specs.Prelude.{◌≡◌, ◌↔◌, ◌+◌, ◌++◌, IsTrue, OnOk, OnErr, take, vec_len};
    ghost use Rattle.messages_certificates.specs.Certificate.{any_certificate_body, any_certificate_fits, any_certificate_tag, certificate_round, certificate_statement, certified_by};

    /// How many bytes the spelling of a certificate of a committee of so many has at most, of any
    /// kind and with its tag. Of each value `encode_size` says that it is no longer.
    pub fn max_encode_size(participants: u32) -> usize
        ensures { result ≡ 31 + D.max_size + S.Certificate.most_bytes participants }
    {
        1 + Notarization::<S, D>::max_encode_size(participants)
    }

    /// Whether the certificate certifies what it is on.
    pub fn verify(&self, scheme: &S) -> bool
        ensures { IsTrue result ↔ S.certifies scheme.now (certificate_statement self.now) (certified_by self.now) }
    {
        match self {
            Certificate::Notarization(certificate) => certificate.verify(scheme),
            Certificate::Nullification(certificate) => certificate.verify(scheme),
            Certificate::Finalization(certificate) => certificate.verify(scheme),
        }
    }

    /// The round that the certificate is of.
    fn round(&self) -> Round
        ensures { result ≡ certificate_round self.now }
    {
        match self {
            Certificate::Notarization(certificate) => certificate.round(),
            Certificate::Nullification(certificate) => certificate.round(),
            Certificate::Finalization(certificate) => certificate.round(),
        }
    }

    /// The byte that the spelling begins with.
    #[tactic(auto, unfolding(crate::specs::Certificate::any_certificate_tag))]
    fn tag(&self) -> u8
        ensures { result ≡ any_certificate_tag self.now }
    {
        match self {
            Certificate::Notarization(_) => 0,
            Certificate::Nullification(_) => 1,
            Certificate::Finalization(_) => 2,
        }
    }

    /// Appends what stands behind the tag.
    #[tactic(auto, unfolding(crate::specs::Certificate::any_certificate_body, crate::specs::Certificate::any_certificate_fits))]
    fn append_behind(&self, out: &mut Vec<u8>) -> Result<(), AllocError>
        ensures ok { OnOk result (out.new.items ≡ out.old.items ++ any_certificate_body D.spelling S.Certificate.spelling self.now) }
        ensures readable { OnOk result (any_certificate_fits D.fits S.Certificate.fits self.now) }
        ensures err { OnErr result (take (vec_len out.old) out.new.items ≡ out.old.items) }
    {
        match self {
            Certificate::Notarization(certificate) => certificate.append(out),
            Certificate::Nullification(certificate) => certificate.append(out),
            Certificate::Finalization(certificate) => certificate.append(out),
        }
    }
}

impl<S: Scheme<D>, D: Digest> Epochable for Certificate<S, D> {
    ghost use Rattle.messages_certificates.specs.Certificate.{certificate_round};

    ghost epoch_of = { λ c. (certificate_round c).epoch };

    fn epoch(&self) -> Epoch {
        self.round().epoch
    }
}

impl<S: Scheme<D>, D: Digest> Viewable for Certificate<S, D> {
    ghost use Rattle.messages_certificates.specs.Certificate.{certificate_round};

    ghost view_of = { λ c. (certificate_round c).view };

    fn view(&self) -> View {
        self.round().view
    }
}

impl<S: Scheme<D>, D: Digest> Duplicate for Certificate<S, D> {
    fn duplicate(&self, alloc: Global) -> Result<Self, AllocError> {
        match self {
            Certificate::Notarization(certificate) => {
                Ok(Certificate::Notarization(certificate.duplicate(alloc)?))
            }
            Certificate::Nullification(certificate) => {
                Ok(Certificate::Nullification(certificate.duplicate(alloc)?))
            }
            Certificate::Finalization(certificate) => {
                Ok(Certificate::Finalization(certificate.duplicate(alloc)?))
            }
        }
    }
}

impl<S: Scheme<D>, D: Digest> Write for Certificate<S, D> {
    ghost use Rattle.messages_certificates.specs.Certificate.{any_certificate_fits, any_certificate_spelling};

    ghost fits = { any_certificate_fits D.fits S.Certificate.fits };

    ghost spelling = { any_certificate_spelling D.spelling S.Certificate.spelling };

    #[tactic(auto, unfolding(crate::specs::Certificate::any_certificate_spelling))]
    fn append(&self, out: &mut Vec<u8>) -> Result<(), AllocError> {
        out.push(self.tag())?;
        self.append_behind(out)
    }
}

impl<S: Scheme<D>, D: Digest> EncodeSize for Certificate<S, D> {
    ghost use Rattle.std.specs.Prelude.{◌+◌};
    ghost use Rattle.std.proofs.Common.{arith};
    ghost use Rattle.messages_certificates.specs.Certificate.{any_certificate_fits, any_certificate_spelling, certified_by};

    ghost max_size = { 31 + D.max_size + S.Certificate.max_size };

    #[tactic(auto, unfolding(crate::specs::Certificate::any_certificate_spelling, crate::specs::Certificate::any_certificate_tag, crate::specs::Certificate::any_certificate_body, crate::specs::Certificate::any_certificate_fits))]
    fn encode_size(&self) -> usize
        ensures size { result ≡ length (any_certificate_spelling D.spelling S.Certificate.spelling self.now) }
        ensures bounded { result ≤ 31 + D.max_size + S.Certificate.max_size }
        ensures readable { any_certificate_fits D.fits S.Certificate.fits self.now }
        ensures planned { (n : ℕ)
            → n < 2 ^ 32
            → S.Certificate.within n (certified_by self.now)
            → result ≤ 31 + D.max_size + S.Certificate.most_bytes n }
    {
        match self {
            Certificate::Notarization(certificate) => 1 + certificate.encode_size(),
            Certificate::Nullification(certificate) => 1 + certificate.encode_size(),
            Certificate::Finalization(certificate) => 1 + certificate.encode_size(),
        }
    }

    ghost short = { Prim.omega (arith, D.small, S.Certificate.small) };
}

impl<S: Scheme<D>, D: Digest> Read for Certificate<S, D> {
    ghost use Rattle.types_codec.specs.Codec.{bounded-IsCodec};
    ghost use Rattle.messages_certificates.specs.Certificate.{any_certificate_at, any_certificate_within, any_certificate_within-weaker, any_certificate-IsCodec};

    ghost within = { λ n. any_certificate_within (S.Certificate.within n) };

    ghost reading = { λ n. any_certificate_at (D.reading n) (S.Certificate.reading n) };

    ghost one_spelling = { λ n small. any_certificate-IsCodec (bounded-IsCodec (D.one_spelling n small) (D.unbounded n))
        (S.Certificate.one_spelling n small) };

    ghost grows = { λ n m x up h. any_certificate_within-weaker (λ c. S.Certificate.grows n m c up) x h };

    #[tactic(auto, unfolding(crate::specs::Certificate::any_certificate_at))]
    fn read_cfg(alloc: Global, input: &mut &[u8], bound: u32) -> Result<Self, CodecError> {
        let all: &[u8] = *input;
        let [tag, rest @ ..] = all else {
            return Err(CodecError::End);
        };
        let mut rest = rest;
        let certificate = read_behind(*tag, alloc, &mut rest, bound)?;
        *input = rest;
        Ok(certificate)
    }
}

/// Reads what stands behind the tag.
#[tactic(auto, unfolding(crate::specs::Certificate::any_certificate_behind))]
fn read_behind<S: Scheme<D>, D: Digest>(
    tag: u8,
    alloc: Global,
    input: &mut &[u8],
    bound: u32,
) -> Result<Certificate<S, D>, CodecError>
    ensures { Gives (any_certificate_behind (D.reading bound) (S.Certificate.reading bound) tag) input.old.now input.new.now result }
{
    match tag {
        0 => Ok(Certificate::Notarization(Notarization::read_cfg(alloc, input, bound)?)),
        1 => Ok(Certificate::Nullification(Nullification::read_cfg(alloc, input, bound)?)),
        2 => Ok(Certificate::Finalization(Finalization::read_cfg(alloc, input, bound)?)),
        _ => Err(CodecError::Invalid),
    }
}
