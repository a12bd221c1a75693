//! Evidence of two votes for different proposals of one round.

ghost use Rattle.std.specs.Prelude.{◌≡◌};

use messages_certificates::{Finalizing, Notarizing, ProposalKind, ProposalVote};
use std::alloc::{AllocError, Global};
use std::marker::Model;
use types_core::{
    Attributable, CodecError, Digest, Duplicate, EncodeSize, Epoch, Epochable, MaxEncodeSize,
    Participant, Read, Round, Scheme, View, Viewable, Write,
};

/// Evidence of two notarizes.
pub type ConflictingNotarize<S, D> = ConflictingVotes<Notarizing, S, D>;

/// Evidence of two finalizes.
pub type ConflictingFinalize<S, D> = ConflictingVotes<Finalizing, S, D>;

/// Evidence against a signer: its votes for two different proposals of one round.
///
/// It keeps the order of its votes: with the votes swapped it is another value.
#[derive_where(PartialEq, Eq, Hash; D, S::Signature)]
#[derive(Drop)]
pub struct ConflictingVotes<K: ProposalKind<D>, S: Scheme<D>, D: Digest> {
    first: ProposalVote<K, S, D>,
    second: ProposalVote<K, S, D>,
}

impl<K: ProposalKind<D>, S: Scheme<D>, D: Digest> Model for ConflictingVotes<K, S, D> {
    ghost use Rattle.std.specs.Prelude.{◌≡◌, true};
    ghost use Rattle.messages_certificates.specs.ProposalVote.{contradict};
    ghost use Rattle.messages_certificates.specs.declared.proposal_vote.ProposalVote.{ProposalVote};

    ghost Value = { ProposalVote K S D S.PublicKey S.Signature S.Certificate × ProposalVote K S D S.PublicKey S.Signature S.Certificate };

    ghost view = { λ c. (c.first, c.second) };

    ghost invariant = { λ c. contradict D.PartialEq.eq c.first c.second ≡ true };

    ghost inverse = { λ p. record { first = p.0; second = p.1 } };
}

impl<K: ProposalKind<D>, S: Scheme<D>, D: Digest> ConflictingVotes<K, S, D> {
    ghost use Rattle.std.specs.Prelude.{◌≡◌, ◌↔◌, IsTrue};
    ghost use Rattle.messages_certificates.specs.ProposalVote.{Contradict, IsAttested};

    /// The evidence of two votes that contradict each other. [`ProposalVote::contradicts`] is the test.
    pub fn new(first: ProposalVote<K, S, D>, second: ProposalVote<K, S, D>) -> Self
        requires { Contradict first second }
        ensures { result ≡ (first, second) }
    {
        ConflictingVotes { first, second }
    }

    /// The vote that stands first.
    pub fn first(&self) -> &ProposalVote<K, S, D>
        ensures value { result.now ≡ self.now.0 }
        ensures contradict { Contradict self.now.0 self.now.1 }
    {
        &self.first
    }

    /// The vote that stands second.
    pub fn second(&self) -> &ProposalVote<K, S, D>
        ensures value { result.now ≡ self.now.1 }
        ensures contradict { Contradict self.now.0 self.now.1 }
    {
        &self.second
    }

    /// The round that both votes are of.
    pub fn round(&self) -> Round
        ensures first { result ≡ self.now.0.proposal.round }
        ensures second { result ≡ self.now.1.proposal.round }
    {
        self.first.round()
    }

    /// Whether both votes' attestations attest them.
    pub fn verify(&self, scheme: &S) -> bool
        ensures { IsTrue result
            ↔ (IsAttested K.states (S.attests scheme.now) self.now.0 × IsAttested K.states (S.attests scheme.now) self.now.1) }
    {
        self.first.verify(scheme) && self.second.verify(scheme)
    }
}

impl<K: ProposalKind<D>, S: Scheme<D>, D: Digest> Epochable for ConflictingVotes<K, S, D> {
    ghost epoch_of = { λ c. c.0.proposal.round.epoch };

    fn epoch(&self) -> Epoch {
        self.first.epoch()
    }
}

impl<K: ProposalKind<D>, S: Scheme<D>, D: Digest> Viewable for ConflictingVotes<K, S, D> {
    ghost view_of = { λ c. c.0.proposal.round.view };

    fn view(&self) -> View {
        self.first.view()
    }
}

impl<K: ProposalKind<D>, S: Scheme<D>, D: Digest> Attributable for ConflictingVotes<K, S, D> {
    ghost signer_of = { λ c. c.0.attestation.signer };

    fn signer(&self) -> Participant {
        self.first.signer()
    }
}

impl<K: ProposalKind<D>, S: Scheme<D>, D: Digest> Duplicate for ConflictingVotes<K, S, D> {
    /// Never refused: evidence owns no memory.
    fn duplicate(&self, alloc: Global) -> Result<Self, AllocError>
        ensures { result ≡ Ok self.now }
    {
        let first = self.first.duplicate(alloc)?;
        let second = self.second.duplicate(alloc)?;
        Ok(ConflictingVotes { first, second })
    }
}

impl<K: ProposalKind<D>, S: Scheme<D>, D: Digest> Write for ConflictingVotes<K, S, D> {
    ghost use Rattle.simplex_messages.specs.ConflictingVotes.{conflicting_fits, conflicting_spelling};

    ghost fits = { conflicting_fits D.PartialEq.eq D.fits S.Signature.fits };

    ghost spelling = { conflicting_spelling D.spelling S.Signature.spelling };

    #[tactic(auto, unfolding(crate::specs::ConflictingVotes::conflicting_spelling, crate::specs::ConflictingVotes::conflicting_fits))]
    fn append(&self, out: &mut Vec<u8>) -> Result<(), AllocError> {
        self.first.append(out)?;
        self.second.append(out)
    }
}

impl<K: ProposalKind<D>, S: Scheme<D>, D: Digest> EncodeSize for ConflictingVotes<K, S, D> {
    ghost use Rattle.std.specs.Prelude.{◌+◌, ◌*◌};
    ghost use Rattle.std.proofs.Common.{arith};

    ghost max_size = { 70 + 2 * D.max_size + 2 * S.Signature.max_size };

    #[tactic(auto, unfolding(crate::specs::ConflictingVotes::conflicting_spelling, crate::specs::ConflictingVotes::conflicting_fits))]
    fn encode_size(&self) -> usize {
        self.first.encode_size() + self.second.encode_size()
    }

    ghost short = { Prim.omega (arith, D.small, S.Signature.small) };
}

impl<K: ProposalKind<D>, S: Scheme<D>, D: Digest> MaxEncodeSize for ConflictingVotes<K, S, D> {
    fn max_encode_size() -> usize {
        2 * ProposalVote::<K, S, D>::max_encode_size()
    }
}

impl<K: ProposalKind<D>, S: Scheme<D>, D: Digest> Read for ConflictingVotes<K, S, D> {
    ghost use Rattle.std.specs.Prelude.{⊤};
    ghost use Rattle.types_codec.specs.Codec.{bounded-IsCodec, unbounded-IsCodec};
    ghost use Rattle.simplex_messages.specs.ConflictingVotes.{conflicting_at, conflicting-IsCodec};

    ghost within = { λ _ _. ⊤ };

    ghost reading = { λ n. conflicting_at D.PartialEq.eq (D.reading n) (S.Signature.reading n) };

    ghost one_spelling = { λ n small. unbounded-IsCodec (conflicting-IsCodec D.PartialEq.eq
        (bounded-IsCodec (D.one_spelling n small) (D.unbounded n))
        (bounded-IsCodec (S.Signature.one_spelling n small) (S.Signature.unbounded n))) };

    ghost grows = { λ n m x up h. h };

    #[tactic(auto, unfolding(crate::specs::ConflictingVotes::conflicting_at))]
    fn read_cfg(alloc: Global, input: &mut &[u8], bound: u32) -> Result<Self, CodecError> {
        let mut rest = *input;
        let first = ProposalVote::read_cfg(alloc, &mut rest, bound)?;
        let second = ProposalVote::read_cfg(alloc, &mut rest, bound)?;
        if !first.contradicts(&second) {
            return Err(CodecError::Invalid);
        }
        *input = rest;
        Ok(ConflictingVotes { first, second })
    }
}
