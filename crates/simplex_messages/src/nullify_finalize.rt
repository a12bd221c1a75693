//! Evidence of a nullify beside a finalize.

ghost use Rattle.std.specs.Prelude.{◌≡◌};

use messages_certificates::{Finalize, Nullify};
use std::alloc::{AllocError, Global};
use std::marker::Model;
use types_core::{
    Attributable, CodecError, Digest, Duplicate, EncodeSize, Epoch, Epochable, MaxEncodeSize,
    Participant, Read, Round, Scheme, View, Viewable, Write,
};

/// Evidence against a signer: its votes to give a round up and to finalize a proposal of it.
#[derive_where(PartialEq, Eq, Hash; D, S::Signature)]
#[derive(Drop)]
pub struct NullifyFinalize<S: Scheme<D>, D: Digest> {
    nullify: Nullify<S, D>,
    finalize: Finalize<S, D>,
}

impl<S: Scheme<D>, D: Digest> Model for NullifyFinalize<S, D> {
    ghost use Rattle.std.specs.Prelude.{◌≡◌, true};
    ghost use Rattle.messages_certificates.specs.ProposalVote.{Finalize};
    ghost use Rattle.messages_certificates.specs.StandsBeside.{stands_beside};
    ghost use Rattle.messages_certificates.specs.declared.nullify.Nullify.{Nullify};

    ghost Value = { Nullify S D S.PublicKey S.Signature S.Certificate × Finalize S D S.PublicKey S.Signature S.Certificate };

    ghost view = { λ c. (c.nullify, c.finalize) };

    ghost invariant = { λ c. stands_beside c.nullify c.finalize ≡ true };

    ghost inverse = { λ p. record { nullify = p.0; finalize = p.1 } };
}

impl<S: Scheme<D>, D: Digest> NullifyFinalize<S, D> {
    ghost use Rattle.std.specs.Prelude.{◌≡◌, ◌↔◌, IsTrue};
    ghost use Rattle.types_core.specs.Subject.{finalize};
    ghost use Rattle.messages_certificates.specs.ProposalVote.{IsAttested};
    ghost use Rattle.messages_certificates.specs.Nullify.{NullifyIsAttested};
    ghost use Rattle.messages_certificates.specs.StandsBeside.{StandsBeside};

    /// The evidence of two votes of one signer and one round. [`Nullify::stands_beside`] is the test.
    pub fn new(nullify: Nullify<S, D>, finalize: Finalize<S, D>) -> Self
        requires { StandsBeside nullify finalize }
        ensures { result ≡ (nullify, finalize) }
    {
        NullifyFinalize { nullify, finalize }
    }

    /// The vote to give the round up.
    pub fn nullify(&self) -> &Nullify<S, D>
        ensures value { result.now ≡ self.now.0 }
        ensures beside { StandsBeside self.now.0 self.now.1 }
    {
        &self.nullify
    }

    /// The vote to finalize a proposal of the round.
    pub fn finalize(&self) -> &Finalize<S, D>
        ensures value { result.now ≡ self.now.1 }
        ensures beside { StandsBeside self.now.0 self.now.1 }
    {
        &self.finalize
    }

    /// The round that both votes are of.
    pub fn round(&self) -> Round
        ensures nullify { result ≡ self.now.0.round }
        ensures finalize { result ≡ self.now.1.proposal.round }
    {
        self.nullify.round()
    }

    /// Whether both votes' attestations attest them.
    pub fn verify(&self, scheme: &S) -> bool
        ensures { IsTrue result
            ↔ (NullifyIsAttested (S.attests scheme.now) self.now.0 × IsAttested finalize (S.attests scheme.now) self.now.1) }
    {
        self.nullify.verify(scheme) && self.finalize.verify(scheme)
    }
}

impl<S: Scheme<D>, D: Digest> Epochable for NullifyFinalize<S, D> {
    ghost epoch_of = { λ c. c.0.round.epoch };

    fn epoch(&self) -> Epoch {
        self.nullify.epoch()
    }
}

impl<S: Scheme<D>, D: Digest> Viewable for NullifyFinalize<S, D> {
    ghost view_of = { λ c. c.0.round.view };

    fn view(&self) -> View {
        self.nullify.view()
    }
}

impl<S: Scheme<D>, D: Digest> Attributable for NullifyFinalize<S, D> {
    ghost signer_of = { λ c. c.0.attestation.signer };

    fn signer(&self) -> Participant {
        self.nullify.signer()
    }
}

impl<S: Scheme<D>, D: Digest> Duplicate for NullifyFinalize<S, D> {
    /// Never refused: evidence owns no memory.
    fn duplicate(&self, alloc: Global) -> Result<Self, AllocError>
        ensures { result ≡ Ok self.now }
    {
        let nullify = self.nullify.duplicate(alloc)?;
        let finalize = self.finalize.duplicate(alloc)?;
        Ok(NullifyFinalize { nullify, finalize })
    }
}

impl<S: Scheme<D>, D: Digest> Write for NullifyFinalize<S, D> {
    ghost use Rattle.simplex_messages.specs.NullifyFinalize.{beside_fits, beside_spelling};

    ghost fits = { beside_fits D.fits S.Signature.fits };

    ghost spelling = { beside_spelling D.spelling S.Signature.spelling };

    #[tactic(auto, unfolding(crate::specs::NullifyFinalize::beside_spelling, crate::specs::NullifyFinalize::beside_fits))]
    fn append(&self, out: &mut Vec<u8>) -> Result<(), AllocError> {
        self.nullify.append(out)?;
        self.finalize.append(out)
    }
}

impl<S: Scheme<D>, D: Digest> EncodeSize for NullifyFinalize<S, D> {
    ghost use Rattle.std.specs.Prelude.{◌+◌, ◌*◌};
    ghost use Rattle.std.proofs.Common.{arith};

    ghost max_size = { 60 + D.max_size + 2 * S.Signature.max_size };

    #[tactic(auto, unfolding(crate::specs::NullifyFinalize::beside_spelling, crate::specs::NullifyFinalize::beside_fits))]
    fn encode_size(&self) -> usize {
        self.nullify.encode_size() + self.finalize.encode_size()
    }

    ghost short = { Prim.omega (arith, D.small, S.Signature.small) };
}

impl<S: Scheme<D>, D: Digest> MaxEncodeSize for NullifyFinalize<S, D> {
    fn max_encode_size() -> usize {
        Nullify::<S, D>::max_encode_size() + Finalize::<S, D>::max_encode_size()
    }
}

impl<S: Scheme<D>, D: Digest> Read for NullifyFinalize<S, D> {
    ghost use Rattle.std.specs.Prelude.{⊤};
    ghost use Rattle.types_codec.specs.Codec.{bounded-IsCodec, unbounded-IsCodec};
    ghost use Rattle.simplex_messages.specs.NullifyFinalize.{beside_at, beside-IsCodec};

    ghost within = { λ _ _. ⊤ };

    ghost reading = { λ n. beside_at (D.reading n) (S.Signature.reading n) };

    ghost one_spelling = { λ n small. unbounded-IsCodec (beside-IsCodec (bounded-IsCodec (D.one_spelling n small) (D.unbounded n))
        (bounded-IsCodec (S.Signature.one_spelling n small) (S.Signature.unbounded n))) };

    ghost grows = { λ n m x up h. h };

    #[tactic(auto, unfolding(crate::specs::NullifyFinalize::beside_at))]
    fn read_cfg(alloc: Global, input: &mut &[u8], bound: u32) -> Result<Self, CodecError> {
        let mut rest = *input;
        let nullify = Nullify::read_cfg(alloc, &mut rest, bound)?;
        let finalize = Finalize::read_cfg(alloc, &mut rest, bound)?;
        if !nullify.stands_beside(&finalize) {
            return Err(CodecError::Invalid);
        }
        *input = rest;
        Ok(NullifyFinalize { nullify, finalize })
    }
}
