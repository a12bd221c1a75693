//! Votes of the three kinds.

ghost use Rattle.std.specs.Prelude.{◌≡◌};
ghost use Rattle.types_codec.specs.Codec.{Gives};
ghost use Rattle.simplex_messages.specs.Vote.{any_vote_behind};

use messages_certificates::{Artifact, Finalize, Notarize, Nullify};
use std::alloc::{AllocError, Global};
use types_core::{
    Attributable, CodecError, Digest, Duplicate, EncodeSize, Epoch, Epochable, MaxEncodeSize,
    Participant, Read, Round, Scheme, View, Viewable, Write,
};

/// A vote of any kind.
#[derive_where(PartialEq, Eq, Hash; D, S::Signature)]
#[derive(Drop)]
pub enum Vote<S: Scheme<D>, D: Digest> {
    /// A vote to certify a proposal. Its tag is 0.
    Notarize(Notarize<S, D>),
    /// A vote to give a round up. Its tag is 1.
    Nullify(Nullify<S, D>),
    /// A vote to finalize a proposal. Its tag is 2.
    Finalize(Finalize<S, D>),
}

impl<S: Scheme<D>, D: Digest> Vote<S, D> {
    ghost use Rattle.std.specs.Prelude.{◌≡◌, ◌++◌, OnOk, OnErr, take, vec_len};
    ghost use Rattle.simplex_messages.specs.Vote.{any_vote_body, any_vote_fits, any_vote_tag};
    ghost use Rattle.simplex_messages.specs.VoteParts.{vote_round};

    /// The round that the vote is of.
    fn round(&self) -> Round
        ensures { result ≡ vote_round self.now }
    {
        match self {
            Vote::Notarize(vote) => vote.round(),
            Vote::Nullify(vote) => vote.round(),
            Vote::Finalize(vote) => vote.round(),
        }
    }

    /// The byte that the spelling begins with.
    #[tactic(auto, unfolding(crate::specs::Vote::any_vote_tag))]
    fn tag(&self) -> u8
        ensures { result ≡ any_vote_tag self.now }
    {
        match self {
            Vote::Notarize(_) => 0,
            Vote::Nullify(_) => 1,
            Vote::Finalize(_) => 2,
        }
    }

    /// Appends what stands behind the tag.
    #[tactic(auto, unfolding(crate::specs::Vote::any_vote_body, crate::specs::Vote::any_vote_fits))]
    fn append_behind(&self, out: &mut Vec<u8>) -> Result<(), AllocError>
        ensures ok { OnOk result (out.new.items ≡ out.old.items ++ any_vote_body D.spelling S.Signature.spelling self.now) }
        ensures readable { OnOk result (any_vote_fits D.fits S.Signature.fits self.now) }
        ensures err { OnErr result (take (vec_len out.old) out.new.items ≡ out.old.items) }
    {
        match self {
            Vote::Notarize(vote) => vote.append(out),
            Vote::Nullify(vote) => vote.append(out),
            Vote::Finalize(vote) => vote.append(out),
        }
    }
}

impl<S: Scheme<D>, D: Digest> Epochable for Vote<S, D> {
    ghost use Rattle.simplex_messages.specs.VoteParts.{vote_round};

    ghost epoch_of = { λ v. (vote_round v).epoch };

    fn epoch(&self) -> Epoch {
        self.round().epoch
    }
}

impl<S: Scheme<D>, D: Digest> Viewable for Vote<S, D> {
    ghost use Rattle.simplex_messages.specs.VoteParts.{vote_round};

    ghost view_of = { λ v. (vote_round v).view };

    fn view(&self) -> View {
        self.round().view
    }
}

impl<S: Scheme<D>, D: Digest> Attributable for Vote<S, D> {
    ghost use Rattle.simplex_messages.specs.VoteParts.{vote_signer};

    ghost signer_of = { vote_signer };

    fn signer(&self) -> Participant {
        match self {
            Vote::Notarize(vote) => vote.signer(),
            Vote::Nullify(vote) => vote.signer(),
            Vote::Finalize(vote) => vote.signer(),
        }
    }
}

impl<S: Scheme<D>, D: Digest> Duplicate for Vote<S, D> {
    /// Never refused: a vote owns no memory.
    fn duplicate(&self, alloc: Global) -> Result<Self, AllocError>
        ensures { result ≡ Ok self.now }
    {
        match self {
            Vote::Notarize(vote) => Ok(Vote::Notarize(vote.duplicate(alloc)?)),
            Vote::Nullify(vote) => Ok(Vote::Nullify(vote.duplicate(alloc)?)),
            Vote::Finalize(vote) => Ok(Vote::Finalize(vote.duplicate(alloc)?)),
        }
    }
}

impl<S: Scheme<D>, D: Digest> Write for Vote<S, D> {
    ghost use Rattle.simplex_messages.specs.Vote.{any_vote_fits, any_vote_spelling};

    ghost fits = { any_vote_fits D.fits S.Signature.fits };

    ghost spelling = { any_vote_spelling D.spelling S.Signature.spelling };

    #[tactic(auto, unfolding(crate::specs::Vote::any_vote_spelling))]
    fn append(&self, out: &mut Vec<u8>) -> Result<(), AllocError> {
        out.push(self.tag())?;
        self.append_behind(out)
    }
}

impl<S: Scheme<D>, D: Digest> EncodeSize for Vote<S, D> {
    ghost use Rattle.std.specs.Prelude.{◌+◌};
    ghost use Rattle.std.proofs.Common.{arith};

    ghost max_size = { 36 + D.max_size + S.Signature.max_size };

    #[tactic(auto, unfolding(crate::specs::Vote::any_vote_spelling, crate::specs::Vote::any_vote_tag, crate::specs::Vote::any_vote_body, crate::specs::Vote::any_vote_fits))]
    fn encode_size(&self) -> usize {
        match self {
            Vote::Notarize(vote) => 1 + vote.encode_size(),
            Vote::Nullify(vote) => 1 + vote.encode_size(),
            Vote::Finalize(vote) => 1 + vote.encode_size(),
        }
    }

    ghost short = { Prim.omega (arith, D.small, S.Signature.small) };
}

impl<S: Scheme<D>, D: Digest> MaxEncodeSize for Vote<S, D> {
    fn max_encode_size() -> usize {
        1 + Notarize::<S, D>::max_encode_size()
    }
}

impl<S: Scheme<D>, D: Digest> Read for Vote<S, D> {
    ghost use Rattle.std.specs.Prelude.{⊤};
    ghost use Rattle.types_codec.specs.Codec.{bounded-IsCodec, unbounded-IsCodec};
    ghost use Rattle.simplex_messages.specs.Vote.{any_vote_at, any_vote-IsCodec};

    ghost within = { λ _ _. ⊤ };

    ghost reading = { λ n. any_vote_at (D.reading n) (S.Signature.reading n) };

    ghost one_spelling = { λ n small. unbounded-IsCodec (any_vote-IsCodec (bounded-IsCodec (D.one_spelling n small) (D.unbounded n))
        (bounded-IsCodec (S.Signature.one_spelling n small) (S.Signature.unbounded n))) };

    ghost grows = { λ n m x up h. h };

    #[tactic(auto, unfolding(crate::specs::Vote::any_vote_at))]
    fn read_cfg(alloc: Global, input: &mut &[u8], bound: u32) -> Result<Self, CodecError> {
        let all: &[u8] = *input;
        let [tag, rest @ ..] = all else {
            return Err(CodecError::End);
        };
        let mut rest = rest;
        let vote = read_behind(*tag, alloc, &mut rest, bound)?;
        *input = rest;
        Ok(vote)
    }
}

/// Reads what stands behind the tag.
#[tactic(auto, unfolding(crate::specs::Vote::any_vote_behind))]
fn read_behind<S: Scheme<D>, D: Digest>(
    tag: u8,
    alloc: Global,
    input: &mut &[u8],
    bound: u32,
) -> Result<Vote<S, D>, CodecError>
    ensures { Gives (any_vote_behind (D.reading bound) (S.Signature.reading bound) tag) input.old.now input.new.now result }
{
    match tag {
        0 => Ok(Vote::Notarize(Notarize::read_cfg(alloc, input, bound)?)),
        1 => Ok(Vote::Nullify(Nullify::read_cfg(alloc, input, bound)?)),
        2 => Ok(Vote::Finalize(Finalize::read_cfg(alloc, input, bound)?)),
        _ => Err(CodecError::Invalid),
    }
}

impl<S: Scheme<D>, D: Digest> From<Vote<S, D>> for Artifact<S, D> {
    ghost use Rattle.std.specs.Prelude.{◌≡◌};
    ghost use Rattle.simplex_messages.specs.VoteParts.{vote_artifact};

    ghost from_gives = { λ vote artifact. artifact ≡ vote_artifact vote };

    fn from(vote: Vote<S, D>) -> Self {
        match &vote {
            Vote::Notarize(vote) => {
                Artifact::Notarize(Notarize::new(vote.proposal, vote.attestation))
            }
            Vote::Nullify(vote) => Artifact::Nullify(Nullify {
                round: vote.round,
                attestation: vote.attestation,
            }),
            Vote::Finalize(vote) => {
                Artifact::Finalize(Finalize::new(vote.proposal, vote.attestation))
            }
        }
    }
}
