//! A member's signature on a subject.

ghost use Rattle.std.specs.Prelude.{◌≡◌, ◌↔◌, ◌≤◌, ◌<◌, ◌^◌, ℕ, Bool, List, Ok, length, IfSome, IfNone, IsErr, IsTrue};

use crate::attributes::Attributable;
use crate::duplicate::Duplicate;
use crate::position::Participant;
use std::alloc::{AllocError, Global};
use std::hash::Hash;
use types_codec::{CodecError, EncodeSize, MaxEncodeSize, Read, Write};

/// Signatures: short values that are compared as they are.
pub trait Signature: Copy + Eq + Hash + Read + MaxEncodeSize + Duplicate {
    /// Takes the signature that `read_cfg` reads, or nothing where that refuses. Lists are read by it,
    /// since here no error shares a byte with the value.
    fn take(input: &mut &[u8], bound: u32) -> Option<Self>
        ensures some { IfSome result (λ x. Self.reading bound input.old.now ≡ Ok (x, input.new.now)) }
        ensures none { IfNone result (IsErr (Self.reading bound input.old.now) × (input.new.now ≡ input.old.now)) };

    /// Equality is identity.
    ghost equal_is_same: { (x y : Self) → IsTrue (Self.PartialEq.eq x y) ↔ (x ≡ y) };

    /// A signature is short.
    ghost small: { Self.max_size ≤ 1024 };

    /// No spelling is longer than the most.
    ghost longest: { (x : Self) → Self.fits x → length (Self.spelling x) ≤ Self.max_size };

    /// No bound asks anything of a signature.
    ghost unbounded: { (n : ℕ) (x : Self) → Self.within n x };
}

/// A member's signature on a subject.
#[derive(Clone, Copy, Debug, PartialEq, Eq, Hash)]
pub struct Attestation<G> {
    /// The index of the member in whose name it stands.
    pub signer: Participant,
    /// The signature.
    pub signature: G,
}

impl<G> Attributable for Attestation<G> {
    ghost signer_of = { λ a. a.signer };

    fn signer(&self) -> Participant {
        self.signer
    }
}

impl<G: Signature> Write for Attestation<G> {
    ghost use Rattle.types_core.specs.Attestation.{attestation_fits, attestation_spelling};

    ghost fits = { attestation_fits G.fits };

    ghost spelling = { attestation_spelling G.spelling };

    fn append(&self, out: &mut Vec<u8>) -> Result<(), AllocError> {
        self.signer.append(out)?;
        self.signature.append(out)
    }
}

impl<G: Signature> EncodeSize for Attestation<G> {
    ghost use Rattle.std.specs.Prelude.{◌+◌};
    ghost use Rattle.std.proofs.Common.{arith};

    ghost max_size = { 5 + G.max_size };

    fn encode_size(&self) -> usize {
        self.signer.encode_size() + self.signature.encode_size()
    }

    ghost short = { Prim.omega (arith, G.small) };
}

impl<G: Signature> MaxEncodeSize for Attestation<G> {
    fn max_encode_size() -> usize {
        Participant::max_encode_size() + G::max_encode_size()
    }
}

impl<G: Signature> Read for Attestation<G> {
    ghost use Rattle.std.specs.Prelude.{⊤};
    ghost use Rattle.types_codec.specs.Codec.{unbounded-IsCodec, bounded-IsCodec};
    ghost use Rattle.types_core.specs.Attestation.{attestation_at, attestation-IsCodec};

    ghost within = { λ _ _. ⊤ };

    ghost reading = { λ n. attestation_at (G.reading n) };

    ghost one_spelling = { λ n small. unbounded-IsCodec (attestation-IsCodec (bounded-IsCodec (G.one_spelling n small) (G.unbounded n))) };

    ghost grows = { λ n m x up h. h };

    fn read_cfg(alloc: Global, input: &mut &[u8], bound: u32) -> Result<Self, CodecError> {
        let mut rest = *input;
        let signer = Participant::read_cfg(alloc, &mut rest, bound)?;
        let signature = G::read_cfg(alloc, &mut rest, bound)?;
        *input = rest;
        Ok(Attestation { signer, signature })
    }
}

impl<G: Copy> Duplicate for Attestation<G> {
    fn duplicate(&self, _alloc: Global) -> Result<Self, AllocError>
        ensures { result ≡ Ok self.now }
    {
        Ok(*self)
    }
}
