//! Whether attestations are of distinct members of a committee.

ghost use Rattle.std.specs.Prelude.{◌↔◌, ◌<◌, All, IsTrue, IfOk};
ghost use Rattle.types_core.specs.Ascending.{AscendsFrom};
ghost use Rattle.types_core.specs.Quorum.{AreDistinct};

use crate::attestation::{Attestation, Signature};
use std::alloc::{AllocError, Global};

/// Whether the attestations, in any order, are of distinct members of a committee of so many. It is
/// the test of what `AttestationList::new` and `Scheme::assemble` ask. Refused only where memory is.
pub fn are_of_distinct_members<G: Signature>(
    alloc: Global,
    participants: u32,
    attestations: &[Attestation<G>],
) -> Result<bool, AllocError>
    ensures { IfOk result (λ answer. IsTrue answer ↔ (AreDistinct attestations.now × All (λ a. a.signer < participants) attestations.now)) }
{
    let mut sorted = Vec::from_slice(alloc, attestations)?;
    sorted.sort_unstable_by_key(|attestation| attestation.signer.get());
    Ok(ascend_below(participants, &sorted))
}

/// Whether the indices ascend, each below the bound.
fn ascend_below<G: Signature>(bound: u32, attestations: &[Attestation<G>]) -> bool
    ensures { IsTrue result ↔ (AscendsFrom 0 attestations.now × All (λ a. a.signer < bound) attestations.now) }
{
    let mut low = 0;
    for attestation in attestations {
        let index = attestation.signer.get();
        if index < low || index >= bound {
            return false;
        }
        low = index + 1;
    }
    true
}
