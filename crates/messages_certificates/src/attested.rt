//! The attestations of votes.

ghost use Rattle.std.specs.Prelude.{◌≡◌, ◌↔◌, IfOk, IsTrue, map};
ghost use Rattle.types_core.specs.declared.attestation.Attestation.{Attestation};

use std::alloc::{AllocError, Global};
use types_core::{Attestation, Signature};

/// A vote: what it is on, with one member's attestation.
pub trait Attested<G: Signature> {
    /// What votes of this type are on.
    type Content: Copy;

    /// What the vote is on.
    ghost content_of: { Self → Self.Content };

    /// The attestation.
    ghost attestation_of: { Self → Attestation G };

    /// What the vote is on.
    fn content(&self) -> Self::Content
        ensures { result ≡ content_of self.now };

    /// The attestation.
    fn attestation(&self) -> Attestation<G>
        ensures { result ≡ attestation_of self.now };

    /// Whether the two votes are on one content.
    fn agrees(&self, other: &Self) -> bool
        ensures { IsTrue result ↔ (content_of self.now ≡ content_of other.now) };
}

/// The attestations of the votes, in their order.
pub(crate) fn attestations_of<G: Signature, V: Attested<G>>(
    alloc: Global,
    votes: &[V],
) -> Result<Vec<Attestation<G>>, AllocError>
    ensures { IfOk result (λ attestations. attestations.items ≡ map V.attestation_of votes.now) }
{
    let mut attestations = Vec::new(alloc);
    for vote in votes {
        attestations.push(vote.attestation())?;
    }
    Ok(attestations)
}
