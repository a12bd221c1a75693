//! What is voted for.

ghost use Rattle.std.specs.Prelude.{◌≡◌, ◌+◌, ◌↔◌, IsTrue};
ghost use Rattle.types_core.specs.declared.proposal.Proposal.{Proposal};
ghost use Rattle.types_core.specs.Proposal.{proposal_cmp};

use crate::attributes::{Epochable, Viewable};
use crate::digest::Digest;
use crate::duplicate::Duplicate;
use crate::position::{Epoch, Round, View};
use std::alloc::{AllocError, Global};
use types_codec::{CodecError, EncodeSize, MaxEncodeSize, Read, Write};

/// A payload for a round, on top of the proposal of an earlier view, its parent.
///
/// Proposals are ordered by round, then parent, then payload.
#[derive(Clone, Copy, Debug, PartialEq, Eq, PartialOrd, Ord, Hash)]
pub struct Proposal<D: Digest> {
    /// The round that the payload is proposed for.
    pub round: Round,
    /// The view of the parent.
    pub parent: View,
    /// The payload's digest.
    pub payload: D,
}

impl<D: Digest> Proposal<D> {
    /// A proposal of this payload for this round.
    pub const fn new(round: Round, parent: View, payload: D) -> Self
        ensures round { result.round ≡ round }
        ensures parent { result.parent ≡ parent }
        ensures payload { result.payload ≡ payload }
    {
        Proposal {
            round,
            parent,
            payload,
        }
    }
}

/// The laws of comparing proposals: the order is by epoch, view, parent, then payload, and equality is
/// identity.
pub fn proposals_are_ordered<D: Digest>()
    ensures order { (p q : Proposal D) → ⟦<Proposal<D> as Ord>⟧.cmp p q ≡ proposal_cmp D.cmp p q }
    ensures equality { (p q : Proposal D) → IsTrue (⟦<Proposal<D> as PartialEq>⟧.eq p q) ↔ (p ≡ q) }
{}

impl<D: Digest> Epochable for Proposal<D> {
    ghost epoch_of = { λ p. p.round.epoch };

    fn epoch(&self) -> Epoch {
        self.round.epoch
    }
}

impl<D: Digest> Viewable for Proposal<D> {
    ghost view_of = { λ p. p.round.view };

    fn view(&self) -> View {
        self.round.view
    }
}

impl<D: Digest> Write for Proposal<D> {
    ghost use Rattle.types_core.specs.Proposal.{proposal_fits, proposal_spelling};

    ghost fits = { proposal_fits D.fits };

    ghost spelling = { proposal_spelling D.spelling };

    fn append(&self, out: &mut Vec<u8>) -> Result<(), AllocError> {
        self.round.append(out)?;
        self.parent.append(out)?;
        self.payload.append(out)
    }
}

impl<D: Digest> EncodeSize for Proposal<D> {
    ghost use Rattle.std.specs.Prelude.{◌+◌};
    ghost use Rattle.std.proofs.Common.{arith};

    ghost max_size = { 30 + D.max_size };

    fn encode_size(&self) -> usize {
        self.round.encode_size() + self.parent.encode_size() + self.payload.encode_size()
    }

    ghost short = { Prim.omega (arith, D.small) };
}

impl<D: Digest> MaxEncodeSize for Proposal<D> {
    fn max_encode_size() -> usize {
        Round::max_encode_size() + View::max_encode_size() + D::max_encode_size()
    }
}

impl<D: Digest> Read for Proposal<D> {
    ghost use Rattle.std.specs.Prelude.{⊤};
    ghost use Rattle.types_codec.specs.Codec.{unbounded-IsCodec, bounded-IsCodec};
    ghost use Rattle.types_core.specs.Proposal.{proposal_at, proposal-IsCodec};

    ghost within = { λ _ _. ⊤ };

    ghost reading = { λ n. proposal_at (D.reading n) };

    ghost one_spelling = { λ n small. unbounded-IsCodec (proposal-IsCodec (bounded-IsCodec (D.one_spelling n small) (D.unbounded n))) };

    ghost grows = { λ n m x up h. h };

    fn read_cfg(alloc: Global, input: &mut &[u8], bound: u32) -> Result<Self, CodecError> {
        let mut rest = *input;
        let round = Round::read_cfg(alloc, &mut rest, bound)?;
        let parent = View::read_cfg(alloc, &mut rest, bound)?;
        let payload = D::read_cfg(alloc, &mut rest, bound)?;
        *input = rest;
        Ok(Proposal {
            round,
            parent,
            payload,
        })
    }
}

impl<D: Digest> Duplicate for Proposal<D> {
    fn duplicate(&self, _alloc: Global) -> Result<Self, AllocError>
        ensures { result ≡ Ok self.now }
    {
        Ok(*self)
    }
}
