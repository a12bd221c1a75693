//! Artifacts of a record.

ghost use Rattle.std.specs.Prelude.{◌≡◌, ◌++◌, OnOk, OnErr, take, vec_len};
ghost use Rattle.types_codec.specs.Codec.{Gives, as_at, both_at};
ghost use Rattle.types_core.specs.Round.{round_at, round_fits, round_spelling};
ghost use Rattle.types_codec.specs.Truth.{truth_at, truth_spelling};
ghost use Rattle.messages_certificates.specs.Artifact.{artifact_behind, certification_artifact};

use crate::certificate::Certificate;
use crate::nullification::Nullification;
use crate::nullify::Nullify;
use crate::proposal_certificate::{Finalization, Notarization};
use crate::proposal_vote::{Finalize, Notarize};
use std::alloc::{AllocError, Global};
use types_core::{
    Aggregate, CodecError, Digest, Duplicate, EncodeSize, Epoch, Epochable, Read, Round, Scheme,
    View, Viewable, Write,
};

/// What a member keeps in its record.
#[derive_where(PartialEq, Eq, Hash; D, S::Signature, S::Certificate)]
#[derive(Drop)]
pub enum Artifact<S: Scheme<D>, D: Digest> {
    /// A vote to certify a proposal. Its tag is 0.
    Notarize(Notarize<S, D>),
    /// A certificate that a proposal may be built on. Its tag is 1.
    Notarization(Notarization<S, D>),
    /// The application's verdict on the proposal of a round. Its tag is 2.
    Certification(Round, bool),
    /// A vote to give a round up. Its tag is 3.
    Nullify(Nullify<S, D>),
    /// A certificate that a round is given up. Its tag is 4.
    Nullification(Nullification<S, D>),
    /// A vote to finalize a proposal. Its tag is 5.
    Finalize(Finalize<S, D>),
    /// A certificate that a proposal is final. Its tag is 6.
    Finalization(Finalization<S, D>),
}

impl<S: Scheme<D>, D: Digest> Artifact<S, D> {
    ghost use Rattle.std.specs.Prelude.{◌≡◌, ◌↔◌, ◌++◌, IsTrue, OnOk, OnErr, take, vec_len};
    ghost use Rattle.messages_certificates.specs.Artifact.{artifact_body, artifact_fits, artifact_round, artifact_tag, artifact_within};

    /// Whether the artifact can be read again under this bound on the committee's size: whether its
    /// certificate, where it has one, is within it.
    #[tactic(auto, unfolding(crate::specs::Artifact::artifact_within))]
    pub fn is_within(&self, bound: u32) -> bool
        ensures { IsTrue result ↔ artifact_within (S.Certificate.within bound) self.now }
    {
        match self {
            Artifact::Notarization(notarization) => notarization.certificate.is_within(bound),
            Artifact::Nullification(nullification) => nullification.certificate.is_within(bound),
            Artifact::Finalization(finalization) => finalization.certificate.is_within(bound),
            Artifact::Notarize(_)
            | Artifact::Certification(..)
            | Artifact::Nullify(_)
            | Artifact::Finalize(_) => true,
        }
    }

    /// The round that the artifact is of.
    fn round(&self) -> Round
        ensures { result ≡ artifact_round self.now }
    {
        match self {
            Artifact::Notarize(vote) => vote.round(),
            Artifact::Notarization(certificate) => certificate.round(),
            Artifact::Certification(round, _) => *round,
            Artifact::Nullify(vote) => vote.round(),
            Artifact::Nullification(certificate) => certificate.round(),
            Artifact::Finalize(vote) => vote.round(),
            Artifact::Finalization(certificate) => certificate.round(),
        }
    }

    /// The byte that the spelling begins with.
    #[tactic(auto, unfolding(crate::specs::Artifact::artifact_tag))]
    fn tag(&self) -> u8
        ensures { result ≡ artifact_tag self.now }
    {
        match self {
            Artifact::Notarize(_) => 0,
            Artifact::Notarization(_) => 1,
            Artifact::Certification(..) => 2,
            Artifact::Nullify(_) => 3,
            Artifact::Nullification(_) => 4,
            Artifact::Finalize(_) => 5,
            Artifact::Finalization(_) => 6,
        }
    }

    /// Appends what stands behind the tag.
    #[tactic(auto, unfolding(crate::specs::Artifact::artifact_body, crate::specs::Artifact::artifact_fits))]
    fn append_behind(&self, out: &mut Vec<u8>) -> Result<(), AllocError>
        ensures ok { OnOk result (out.new.items ≡ out.old.items ++ artifact_body D.spelling S.Signature.spelling S.Certificate.spelling self.now) }
        ensures readable { OnOk result (artifact_fits D.fits S.Signature.fits S.Certificate.fits self.now) }
        ensures err { OnErr result (take (vec_len out.old) out.new.items ≡ out.old.items) }
    {
        match self {
            Artifact::Notarize(vote) => vote.append(out),
            Artifact::Notarization(certificate) => certificate.append(out),
            Artifact::Certification(round, ok) => append_certification(round, *ok, out),
            Artifact::Nullify(vote) => vote.append(out),
            Artifact::Nullification(certificate) => certificate.append(out),
            Artifact::Finalize(vote) => vote.append(out),
            Artifact::Finalization(certificate) => certificate.append(out),
        }
    }
}

/// Appends a round and the verdict on its proposal.
fn append_certification(round: &Round, ok: bool, out: &mut Vec<u8>) -> Result<(), AllocError>
    ensures ok { OnOk result (out.new.items ≡ out.old.items ++ (round_spelling round.now ++ truth_spelling ok)) }
    ensures readable { OnOk result (round_fits round.now) }
    ensures err { OnErr result (take (vec_len out.old) out.new.items ≡ out.old.items) }
{
    round.append(out)?;
    ok.append(out)
}

impl<S: Scheme<D>, D: Digest> From<Certificate<S, D>> for Artifact<S, D> {
    ghost use Rattle.std.specs.Prelude.{◌≡◌};
    ghost use Rattle.messages_certificates.specs.Artifact.{certificate_artifact};

    ghost from_gives = { λ certificate artifact. artifact ≡ certificate_artifact certificate };

    fn from(certificate: Certificate<S, D>) -> Self {
        match certificate {
            Certificate::Notarization(certificate) => Artifact::Notarization(certificate),
            Certificate::Nullification(certificate) => Artifact::Nullification(certificate),
            Certificate::Finalization(certificate) => Artifact::Finalization(certificate),
        }
    }
}

impl<S: Scheme<D>, D: Digest> Epochable for Artifact<S, D> {
    ghost use Rattle.messages_certificates.specs.Artifact.{artifact_round};

    ghost epoch_of = { λ a. (artifact_round a).epoch };

    fn epoch(&self) -> Epoch {
        self.round().epoch
    }
}

impl<S: Scheme<D>, D: Digest> Viewable for Artifact<S, D> {
    ghost use Rattle.messages_certificates.specs.Artifact.{artifact_round};

    ghost view_of = { λ a. (artifact_round a).view };

    fn view(&self) -> View {
        self.round().view
    }
}

impl<S: Scheme<D>, D: Digest> Duplicate for Artifact<S, D> {
    fn duplicate(&self, alloc: Global) -> Result<Self, AllocError> {
        match self {
            Artifact::Notarize(vote) => Ok(Artifact::Notarize(vote.duplicate(alloc)?)),
            Artifact::Notarization(certificate) => {
                Ok(Artifact::Notarization(certificate.duplicate(alloc)?))
            }
            Artifact::Certification(round, ok) => Ok(Artifact::Certification(*round, *ok)),
            Artifact::Nullify(vote) => Ok(Artifact::Nullify(vote.duplicate(alloc)?)),
            Artifact::Nullification(certificate) => {
                Ok(Artifact::Nullification(certificate.duplicate(alloc)?))
            }
            Artifact::Finalize(vote) => Ok(Artifact::Finalize(vote.duplicate(alloc)?)),
            Artifact::Finalization(certificate) => {
                Ok(Artifact::Finalization(certificate.duplicate(alloc)?))
            }
        }
    }
}

impl<S: Scheme<D>, D: Digest> Write for Artifact<S, D> {
    ghost use Rattle.messages_certificates.specs.Artifact.{artifact_fits, artifact_spelling};

    ghost fits = { artifact_fits D.fits S.Signature.fits S.Certificate.fits };

    ghost spelling = { artifact_spelling D.spelling S.Signature.spelling S.Certificate.spelling };

    #[tactic(auto, unfolding(crate::specs::Artifact::artifact_spelling))]
    fn append(&self, out: &mut Vec<u8>) -> Result<(), AllocError> {
        out.push(self.tag())?;
        self.append_behind(out)
    }
}

impl<S: Scheme<D>, D: Digest> EncodeSize for Artifact<S, D> {
    ghost use Rattle.std.specs.Prelude.{◌+◌};
    ghost use Rattle.std.proofs.Common.{arith};

    ghost max_size = { 36 + D.max_size + S.Signature.max_size + S.Certificate.max_size };

    #[tactic(auto, unfolding(crate::specs::Artifact::artifact_spelling, crate::specs::Artifact::artifact_tag, crate::specs::Artifact::artifact_body, crate::specs::Artifact::artifact_fits))]
    fn encode_size(&self) -> usize {
        match self {
            Artifact::Notarize(vote) => 1 + vote.encode_size(),
            Artifact::Notarization(certificate) => 1 + certificate.encode_size(),
            Artifact::Certification(round, ok) => 1 + round.encode_size() + ok.encode_size(),
            Artifact::Nullify(vote) => 1 + vote.encode_size(),
            Artifact::Nullification(certificate) => 1 + certificate.encode_size(),
            Artifact::Finalize(vote) => 1 + vote.encode_size(),
            Artifact::Finalization(certificate) => 1 + certificate.encode_size(),
        }
    }

    ghost short = { Prim.omega (arith, D.small, S.Signature.small, S.Certificate.small) };
}

impl<S: Scheme<D>, D: Digest> Read for Artifact<S, D> {
    ghost use Rattle.types_codec.specs.Codec.{bounded-IsCodec};
    ghost use Rattle.messages_certificates.specs.Artifact.{artifact_at, artifact_within, artifact_within-weaker, artifact-IsCodec};

    ghost within = { λ n. artifact_within (S.Certificate.within n) };

    ghost reading = { λ n. artifact_at (D.reading n) (S.Signature.reading n) (S.Certificate.reading n) };

    ghost one_spelling = { λ n small. artifact-IsCodec (bounded-IsCodec (D.one_spelling n small) (D.unbounded n))
        (bounded-IsCodec (S.Signature.one_spelling n small) (S.Signature.unbounded n)) (S.Certificate.one_spelling n small) };

    ghost grows = { λ n m x up h. artifact_within-weaker (λ c. S.Certificate.grows n m c up) x h };

    #[tactic(auto, unfolding(crate::specs::Artifact::artifact_at))]
    fn read_cfg(alloc: Global, input: &mut &[u8], bound: u32) -> Result<Self, CodecError> {
        let all: &[u8] = *input;
        let [tag, rest @ ..] = all else {
            return Err(CodecError::End);
        };
        let mut rest = rest;
        let artifact = read_behind(*tag, alloc, &mut rest, bound)?;
        *input = rest;
        Ok(artifact)
    }
}

/// Reads what stands behind the tag.
#[tactic(auto, unfolding(crate::specs::Artifact::artifact_behind))]
fn read_behind<S: Scheme<D>, D: Digest>(
    tag: u8,
    alloc: Global,
    input: &mut &[u8],
    bound: u32,
) -> Result<Artifact<S, D>, CodecError>
    ensures { Gives (artifact_behind (D.reading bound) (S.Signature.reading bound) (S.Certificate.reading bound) tag) input.old.now
        input.new.now result }
{
    match tag {
        0 => Ok(Artifact::Notarize(Notarize::read_cfg(alloc, input, bound)?)),
        1 => Ok(Artifact::Notarization(Notarization::read_cfg(alloc, input, bound)?)),
        2 => read_certification(alloc, input, bound),
        3 => Ok(Artifact::Nullify(Nullify::read_cfg(alloc, input, bound)?)),
        4 => Ok(Artifact::Nullification(Nullification::read_cfg(alloc, input, bound)?)),
        5 => Ok(Artifact::Finalize(Finalize::read_cfg(alloc, input, bound)?)),
        6 => Ok(Artifact::Finalization(Finalization::read_cfg(alloc, input, bound)?)),
        _ => Err(CodecError::Invalid),
    }
}

/// Reads a round and the verdict on its proposal.
fn read_certification<S: Scheme<D>, D: Digest>(
    alloc: Global,
    input: &mut &[u8],
    bound: u32,
) -> Result<Artifact<S, D>, CodecError>
    ensures { Gives (as_at certification_artifact (both_at round_at truth_at)) input.old.now input.new.now result }
{
    let mut rest = *input;
    let round = Round::read_cfg(alloc, &mut rest, bound)?;
    let ok = bool::read_cfg(alloc, &mut rest, bound)?;
    *input = rest;
    Ok(Artifact::Certification(round, ok))
}
