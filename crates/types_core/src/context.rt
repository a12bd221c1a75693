//! What a proposal is built on.

ghost use Rattle.std.specs.Prelude.{◌≡◌, ◌↔◌, IsTrue};
ghost use Rattle.types_core.specs.declared.context.Context.{Context};

use crate::attributes::{Epochable, Viewable};
use crate::digest::Digest;
use crate::duplicate::Duplicate;
use crate::key::PublicKey;
use crate::position::{Epoch, Round, View};
use std::alloc::{AllocError, Global};
use types_codec::{CodecError, EncodeSize, MaxEncodeSize, Read, Write};

/// What a proposal is built on.
#[derive(Clone, Copy, Debug, PartialEq, Eq, Hash)]
pub struct Context<D: Digest, P: PublicKey> {
    /// The round that is proposed for.
    pub round: Round,
    /// The key of the member that leads the round.
    pub leader: P,
    /// The view of the parent, and its payload's digest.
    pub parent: (View, D),
}

/// The law of comparing contexts: equality is identity.
pub fn equal_contexts_are_one<D: Digest, P: PublicKey>()
    ensures { (x y : Context D P) → IsTrue (⟦<Context<D, P> as PartialEq>⟧.eq x y) ↔ (x ≡ y) }
{}

impl<D: Digest, P: PublicKey> Epochable for Context<D, P> {
    ghost epoch_of = { λ c. c.round.epoch };

    fn epoch(&self) -> Epoch {
        self.round.epoch
    }
}

impl<D: Digest, P: PublicKey> Viewable for Context<D, P> {
    ghost view_of = { λ c. c.round.view };

    fn view(&self) -> View {
        self.round.view
    }
}

impl<D: Digest, P: PublicKey> Write for Context<D, P> {
    ghost use Rattle.types_core.specs.Context.{context_fits, context_spelling};

    ghost fits = { context_fits P.fits D.fits };

    ghost spelling = { context_spelling P.spelling D.spelling };

    fn append(&self, out: &mut Vec<u8>) -> Result<(), AllocError> {
        self.round.append(out)?;
        self.leader.append(out)?;
        self.parent.0.append(out)?;
        self.parent.1.append(out)
    }
}

impl<D: Digest, P: PublicKey> EncodeSize for Context<D, P> {
    ghost use Rattle.std.specs.Prelude.{◌+◌};
    ghost use Rattle.std.proofs.Common.{arith};

    ghost max_size = { 30 + P.max_size + D.max_size };

    fn encode_size(&self) -> usize {
        self.round.encode_size()
            + self.leader.encode_size()
            + self.parent.0.encode_size()
            + self.parent.1.encode_size()
    }

    ghost short = { Prim.omega (arith, P.small, D.small) };
}

impl<D: Digest, P: PublicKey> MaxEncodeSize for Context<D, P> {
    fn max_encode_size() -> usize {
        Round::max_encode_size()
            + P::max_encode_size()
            + View::max_encode_size()
            + D::max_encode_size()
    }
}

impl<D: Digest, P: PublicKey> Read for Context<D, P> {
    ghost use Rattle.std.specs.Prelude.{⊤};
    ghost use Rattle.types_codec.specs.Codec.{unbounded-IsCodec, bounded-IsCodec};
    ghost use Rattle.types_core.specs.Context.{context_at, context-IsCodec};

    ghost within = { λ _ _. ⊤ };

    ghost reading = { λ n. context_at (P.reading n) (D.reading n) };

    ghost one_spelling = { λ n small. unbounded-IsCodec (context-IsCodec (bounded-IsCodec (P.one_spelling n small) (P.unbounded n))
        (bounded-IsCodec (D.one_spelling n small) (D.unbounded n))) };

    ghost grows = { λ n m x up h. h };

    fn read_cfg(alloc: Global, input: &mut &[u8], bound: u32) -> Result<Self, CodecError> {
        let mut rest = *input;
        let round = Round::read_cfg(alloc, &mut rest, bound)?;
        let leader = P::read_cfg(alloc, &mut rest, bound)?;
        let parent = View::read_cfg(alloc, &mut rest, bound)?;
        let payload = D::read_cfg(alloc, &mut rest, bound)?;
        *input = rest;
        Ok(Context {
            round,
            leader,
            parent: (parent, payload),
        })
    }
}

impl<D: Digest, P: PublicKey> Duplicate for Context<D, P> {
    fn duplicate(&self, _alloc: Global) -> Result<Self, AllocError>
        ensures { result ≡ Ok self.now }
    {
        Ok(*self)
    }
}
