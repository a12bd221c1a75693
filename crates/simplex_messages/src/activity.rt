//! What a member reports.

ghost use Rattle.std.specs.Prelude.{◌≡◌, ◌≤◌, IfNone, IfSome, Err};
ghost use Rattle.types_codec.specs.Codec.{Gives};
ghost use Rattle.types_codec.specs.declared.codec.CodecError.TheVariants.{End};
ghost use Rattle.simplex_messages.specs.Activity.{activity_behind};

use crate::conflicting_votes::{ConflictingFinalize, ConflictingNotarize};
use crate::nullify_finalize::NullifyFinalize;
use crate::vote::Vote;
use messages_certificates::{
    Certificate, Finalization, Finalize, Notarization, Notarize, Nullification, Nullify,
};
use std::alloc::{AllocError, Global};
use types_core::{
    CodecError, Digest, Duplicate, EncodeSize, Epoch, Epochable, Read, Round, Scheme, View,
    Viewable, Write,
};

/// A report: what a member saw of the others, or did itself.
#[derive_where(PartialEq, Eq, Hash; D, S::Signature, S::Certificate)]
#[derive(Drop)]
pub enum Activity<S: Scheme<D>, D: Digest> {
    /// A vote to certify a proposal. Its tag is 0.
    Notarize(Notarize<S, D>),
    /// A certificate that a proposal may be built on. Its tag is 1.
    Notarization(Notarization<S, D>),
    /// The certificate of a proposal that the application found good. Its tag is 2.
    Certification(Notarization<S, D>),
    /// A vote to give a round up. Its tag is 3.
    Nullify(Nullify<S, D>),
    /// A certificate that a round is given up. Its tag is 4.
    Nullification(Nullification<S, D>),
    /// A vote to finalize a proposal. Its tag is 5.
    Finalize(Finalize<S, D>),
    /// A certificate that a proposal is final. Its tag is 6.
    Finalization(Finalization<S, D>),
    /// Votes of one signer to certify two proposals of one round. Its tag is 7.
    ConflictingNotarize(ConflictingNotarize<S, D>),
    /// Votes of one signer to finalize two proposals of one round. Its tag is 8.
    ConflictingFinalize(ConflictingFinalize<S, D>),
    /// Votes of one signer to give a round up and to finalize a proposal of it. Its tag is 9.
    NullifyFinalize(NullifyFinalize<S, D>),
}

impl<S: Scheme<D>, D: Digest> Activity<S, D> {
    ghost use Rattle.std.specs.Prelude.{◌≡◌, ◌↔◌, ◌++◌, IsTrue, OnOk, OnErr, take, vec_len};
    ghost use Rattle.simplex_messages.specs.Activity.{activity_body, activity_fits, activity_round, activity_tag, HoldsCertificate, IsRight};

    /// Whether what the report holds is right: the attestation of a vote, both attestations of
    /// evidence, or the certificate.
    pub fn verify(&self, scheme: &S) -> bool
        ensures { IsTrue result ↔ IsRight (S.attests scheme.now) (S.certifies scheme.now) self.now }
    {
        match self {
            Activity::Notarize(vote) => vote.verify(scheme),
            Activity::Notarization(certificate) => certificate.verify(scheme),
            Activity::Certification(certificate) => certificate.verify(scheme),
            Activity::Nullify(vote) => vote.verify(scheme),
            Activity::Nullification(certificate) => certificate.verify(scheme),
            Activity::Finalize(vote) => vote.verify(scheme),
            Activity::Finalization(certificate) => certificate.verify(scheme),
            Activity::ConflictingNotarize(evidence) => evidence.verify(scheme),
            Activity::ConflictingFinalize(evidence) => evidence.verify(scheme),
            Activity::NullifyFinalize(evidence) => evidence.verify(scheme),
        }
    }

    /// Whether a member checks what the report holds before it reports it: so it is of certificates,
    /// and of these alone.
    pub fn verified(&self) -> bool
        ensures { IsTrue result ↔ HoldsCertificate self.now }
    {
        match self {
            Activity::Notarization(_) => true,
            Activity::Certification(_) => true,
            Activity::Nullification(_) => true,
            Activity::Finalization(_) => true,
            _ => false,
        }
    }

    /// The round that what is reported is of.
    fn round(&self) -> Round
        ensures { result ≡ activity_round self.now }
    {
        match self {
            Activity::Notarize(vote) => vote.round(),
            Activity::Notarization(certificate) => certificate.round(),
            Activity::Certification(certificate) => certificate.round(),
            Activity::Nullify(vote) => vote.round(),
            Activity::Nullification(certificate) => certificate.round(),
            Activity::Finalize(vote) => vote.round(),
            Activity::Finalization(certificate) => certificate.round(),
            Activity::ConflictingNotarize(evidence) => evidence.round(),
            Activity::ConflictingFinalize(evidence) => evidence.round(),
            Activity::NullifyFinalize(evidence) => evidence.round(),
        }
    }

    /// The byte that the spelling begins with.
    #[tactic(auto, unfolding(crate::specs::Activity::activity_tag))]
    fn tag(&self) -> u8
        ensures { result ≡ activity_tag self.now }
    {
        match self {
            Activity::Notarize(_) => 0,
            Activity::Notarization(_) => 1,
            Activity::Certification(_) => 2,
            Activity::Nullify(_) => 3,
            Activity::Nullification(_) => 4,
            Activity::Finalize(_) => 5,
            Activity::Finalization(_) => 6,
            Activity::ConflictingNotarize(_) => 7,
            Activity::ConflictingFinalize(_) => 8,
            Activity::NullifyFinalize(_) => 9,
        }
    }

    /// Appends what stands behind the tag.
    #[tactic(auto, unfolding(crate::specs::Activity::activity_body, crate::specs::Activity::activity_fits))]
    fn append_behind(&self, out: &mut Vec<u8>) -> Result<(), AllocError>
        ensures ok { OnOk result (out.new.items ≡ out.old.items ++ activity_body D.spelling S.Signature.spelling S.Certificate.spelling self.now) }
        ensures readable { OnOk result (activity_fits D.PartialEq.eq D.fits S.Signature.fits S.Certificate.fits self.now) }
        ensures err { OnErr result (take (vec_len out.old) out.new.items ≡ out.old.items) }
    {
        match self {
            Activity::Notarize(vote) => vote.append(out),
            Activity::Notarization(certificate) => certificate.append(out),
            Activity::Certification(certificate) => certificate.append(out),
            Activity::Nullify(vote) => vote.append(out),
            Activity::Nullification(certificate) => certificate.append(out),
            Activity::Finalize(vote) => vote.append(out),
            Activity::Finalization(certificate) => certificate.append(out),
            Activity::ConflictingNotarize(evidence) => evidence.append(out),
            Activity::ConflictingFinalize(evidence) => evidence.append(out),
            Activity::NullifyFinalize(evidence) => evidence.append(out),
        }
    }
}

/// A vote is reported as it is.
impl<S: Scheme<D>, D: Digest> From<Vote<S, D>> for Activity<S, D> {
    ghost use Rattle.std.specs.Prelude.{◌≡◌};
    ghost use Rattle.simplex_messages.specs.Activity.{vote_activity};

    ghost from_gives = { λ vote activity. activity ≡ vote_activity vote };

    fn from(vote: Vote<S, D>) -> Self {
        match &vote {
            Vote::Notarize(vote) => {
                Activity::Notarize(Notarize::new(vote.proposal, vote.attestation))
            }
            Vote::Nullify(vote) => Activity::Nullify(Nullify {
                round: vote.round,
                attestation: vote.attestation,
            }),
            Vote::Finalize(vote) => {
                Activity::Finalize(Finalize::new(vote.proposal, vote.attestation))
            }
        }
    }
}

/// A certificate is reported as one that was seen, never as one of a proposal that was found good.
impl<S: Scheme<D>, D: Digest> From<Certificate<S, D>> for Activity<S, D> {
    ghost use Rattle.std.specs.Prelude.{◌≡◌};
    ghost use Rattle.simplex_messages.specs.Activity.{certificate_activity};

    ghost from_gives = { λ certificate activity. activity ≡ certificate_activity certificate };

    fn from(certificate: Certificate<S, D>) -> Self {
        match certificate {
            Certificate::Notarization(certificate) => Activity::Notarization(certificate),
            Certificate::Nullification(certificate) => Activity::Nullification(certificate),
            Certificate::Finalization(certificate) => Activity::Finalization(certificate),
        }
    }
}

impl<S: Scheme<D>, D: Digest> Epochable for Activity<S, D> {
    ghost use Rattle.simplex_messages.specs.Activity.{activity_round};

    ghost epoch_of = { λ a. (activity_round a).epoch };

    fn epoch(&self) -> Epoch {
        self.round().epoch
    }
}

impl<S: Scheme<D>, D: Digest> Viewable for Activity<S, D> {
    ghost use Rattle.simplex_messages.specs.Activity.{activity_round};

    ghost view_of = { λ a. (activity_round a).view };

    fn view(&self) -> View {
        self.round().view
    }
}

impl<S: Scheme<D>, D: Digest> Duplicate for Activity<S, D> {
    fn duplicate(&self, alloc: Global) -> Result<Self, AllocError> {
        match self {
            Activity::Notarize(vote) => Ok(Activity::Notarize(vote.duplicate(alloc)?)),
            Activity::Notarization(certificate) => {
                Ok(Activity::Notarization(certificate.duplicate(alloc)?))
            }
            Activity::Certification(certificate) => {
                Ok(Activity::Certification(certificate.duplicate(alloc)?))
            }
            Activity::Nullify(vote) => Ok(Activity::Nullify(vote.duplicate(alloc)?)),
            Activity::Nullification(certificate) => {
                Ok(Activity::Nullification(certificate.duplicate(alloc)?))
            }
            Activity::Finalize(vote) => Ok(Activity::Finalize(vote.duplicate(alloc)?)),
            Activity::Finalization(certificate) => {
                Ok(Activity::Finalization(certificate.duplicate(alloc)?))
            }
            Activity::ConflictingNotarize(evidence) => {
                Ok(Activity::ConflictingNotarize(evidence.duplicate(alloc)?))
            }
            Activity::ConflictingFinalize(evidence) => {
                Ok(Activity::ConflictingFinalize(evidence.duplicate(alloc)?))
            }
            Activity::NullifyFinalize(evidence) => {
                Ok(Activity::NullifyFinalize(evidence.duplicate(alloc)?))
            }
        }
    }
}

impl<S: Scheme<D>, D: Digest> Write for Activity<S, D> {
    ghost use Rattle.simplex_messages.specs.Activity.{activity_fits, activity_spelling};

    ghost fits = { activity_fits D.PartialEq.eq D.fits S.Signature.fits S.Certificate.fits };

    ghost spelling = { activity_spelling D.spelling S.Signature.spelling S.Certificate.spelling };

    #[tactic(auto, unfolding(crate::specs::Activity::activity_spelling))]
    fn append(&self, out: &mut Vec<u8>) -> Result<(), AllocError> {
        out.push(self.tag())?;
        self.append_behind(out)
    }
}

impl<S: Scheme<D>, D: Digest> EncodeSize for Activity<S, D> {
    ghost use Rattle.std.specs.Prelude.{◌+◌, ◌*◌};
    ghost use Rattle.std.proofs.Common.{arith};

    ghost max_size = { 71 + 2 * D.max_size + 2 * S.Signature.max_size + S.Certificate.max_size };

    #[tactic(auto, unfolding(crate::specs::Activity::activity_spelling, crate::specs::Activity::activity_body, crate::specs::Activity::activity_fits))]
    fn encode_size(&self) -> usize {
        match self {
            Activity::Notarize(vote) => 1 + vote.encode_size(),
            Activity::Notarization(certificate) => 1 + certificate.encode_size(),
            Activity::Certification(certificate) => 1 + certificate.encode_size(),
            Activity::Nullify(vote) => 1 + vote.encode_size(),
            Activity::Nullification(certificate) => 1 + certificate.encode_size(),
            Activity::Finalize(vote) => 1 + vote.encode_size(),
            Activity::Finalization(certificate) => 1 + certificate.encode_size(),
            Activity::ConflictingNotarize(evidence) => 1 + evidence.encode_size(),
            Activity::ConflictingFinalize(evidence) => 1 + evidence.encode_size(),
            Activity::NullifyFinalize(evidence) => 1 + evidence.encode_size(),
        }
    }

    ghost short = { Prim.omega (arith, D.small, S.Signature.small, S.Certificate.small) };
}

impl<S: Scheme<D>, D: Digest> Read for Activity<S, D> {
    ghost use Rattle.types_codec.specs.Codec.{bounded-IsCodec};
    ghost use Rattle.simplex_messages.specs.Activity.{activity_at, activity_within, activity_within-weaker, activity-IsCodec};

    ghost within = { λ n. activity_within (S.Certificate.within n) };

    ghost reading = { λ n. activity_at D.PartialEq.eq (D.reading n) (S.Signature.reading n) (S.Certificate.reading n) };

    ghost one_spelling = { λ n small. activity-IsCodec D.PartialEq.eq (bounded-IsCodec (D.one_spelling n small) (D.unbounded n))
        (bounded-IsCodec (S.Signature.one_spelling n small) (S.Signature.unbounded n)) (S.Certificate.one_spelling n small) };

    ghost grows = { λ n m x up h. activity_within-weaker (λ c. S.Certificate.grows n m c up) x h };

    #[tactic(auto, unfolding(crate::specs::Activity::activity_at))]
    fn read_cfg(alloc: Global, input: &mut &[u8], bound: u32) -> Result<Self, CodecError> {
        let all: &[u8] = *input;
        let (tag, mut rest) = match all {
            [tag, rest @ ..] => (Some(*tag), rest),
            [] => (None, all),
        };
        let read = read_behind(tag, alloc, &mut rest, bound);
        if read.is_ok() {
            *input = rest;
        }
        read
    }
}

/// Reads what stands behind the tag, where one was there. Each arm returns on its own, since where they join the widest report is laid
/// down once more.
#[tactic(auto, unfolding(crate::specs::Activity::activity_behind))]
fn read_behind<S: Scheme<D>, D: Digest>(
    tag: Option<u8>,
    alloc: Global,
    input: &mut &[u8],
    bound: u32,
) -> Result<Activity<S, D>, CodecError>
    ensures some { IfSome tag (λ tag.
        Gives (activity_behind D.PartialEq.eq (D.reading bound) (S.Signature.reading bound) (S.Certificate.reading bound) tag) input.old.now
        input.new.now result) }
    ensures none { IfNone tag (result ≡ Err End) }
{
    let Some(tag) = tag else {
        return Err(CodecError::End);
    };
    match tag {
        0 => return Ok(Activity::Notarize(Notarize::read_cfg(alloc, input, bound)?)),
        1 => return Ok(Activity::Notarization(Notarization::read_cfg(alloc, input, bound)?)),
        2 => return Ok(Activity::Certification(Notarization::read_cfg(alloc, input, bound)?)),
        3 => return Ok(Activity::Nullify(Nullify::read_cfg(alloc, input, bound)?)),
        4 => return Ok(Activity::Nullification(Nullification::read_cfg(alloc, input, bound)?)),
        _ => return read_further(tag, alloc, input, bound),
    }
}

/// Reads what stands behind a tag from 5 on.
#[tactic(auto, unfolding(crate::specs::Activity::activity_behind))]
fn read_further<S: Scheme<D>, D: Digest>(
    tag: u8,
    alloc: Global,
    input: &mut &[u8],
    bound: u32,
) -> Result<Activity<S, D>, CodecError>
    requires { 5 ≤ tag }
    ensures { Gives (activity_behind D.PartialEq.eq (D.reading bound) (S.Signature.reading bound) (S.Certificate.reading bound) tag)
        input.old.now input.new.now result }
{
    match tag {
        5 => return Ok(Activity::Finalize(Finalize::read_cfg(alloc, input, bound)?)),
        6 => return Ok(Activity::Finalization(Finalization::read_cfg(alloc, input, bound)?)),
        7 => {
            let both = ConflictingNotarize::read_cfg(alloc, input, bound)?;
            return Ok(Activity::ConflictingNotarize(both));
        }
        8 => {
            let both = ConflictingFinalize::read_cfg(alloc, input, bound)?;
            return Ok(Activity::ConflictingFinalize(both));
        }
        9 => return Ok(Activity::NullifyFinalize(NullifyFinalize::read_cfg(alloc, input, bound)?)),
        _ => return Err(CodecError::Invalid),
    }
}
