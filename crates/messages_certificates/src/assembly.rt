//! What votes a certificate can be made of, and what is made of them.

ghost use Rattle.std.specs.Prelude.{◌≡◌, ◌↔◌, ◌<◌, ◌≤◌, length, AllPairs, Err, IfErr, IfOk, IsTrue};
ghost use Rattle.types_core.specs.declared.scheme.AssemblyError.TheVariants.{InsufficientAttestations, Memory};
ghost use Rattle.types_quorum.specs.Committee.{quorum};
ghost use Rattle.types_core.specs.Subject.{Statement};
ghost use Rattle.messages_certificates.specs.Assembly.{CanAssemble, IsMadeOf};

use crate::attested::{Attested, attestations_of};
use std::alloc::{AllocError, Global};
use types_core::{AssemblyError, Digest, Scheme, Signature, are_of_distinct_members, quorum};

/// Whether a certificate can be made of the votes: one or more, on one content, by distinct members
/// of a committee of so many. Refused only where memory is.
pub(crate) fn can_assemble<G: Signature, V: Attested<G>>(
    alloc: Global,
    participants: u32,
    votes: &[V],
) -> Result<bool, AllocError>
    ensures { IfOk result (λ answer. IsTrue answer ↔ CanAssemble V.content_of V.attestation_of participants votes.now) }
{
    if !agree::<G, V>(votes) {
        return Ok(false);
    }
    let attestations = attestations_of(alloc, votes)?;
    are_of_distinct_members(alloc, participants, &attestations)
}

/// Whether there are votes, and all are on one content.
fn agree<G: Signature, V: Attested<G>>(votes: &[V]) -> bool
    ensures { IsTrue result ↔ ((0 < length votes.now) × AllPairs (λ u v. V.content_of u ≡ V.content_of v) votes.now) }
{
    let Some(first) = votes.first() else {
        return false;
    };
    for vote in votes {
        if !vote.agrees(first) {
            return false;
        }
    }
    true
}

/// What the votes are on, and what the scheme makes of their attestations.
///
/// # Errors
///
/// [`AssemblyError::InsufficientAttestations`] where they are fewer than a quorum, and
/// [`AssemblyError::Memory`] where memory ran out.
pub(crate) fn assembled<S: Scheme<D>, D: Digest, V: Attested<S::Signature>>(
    alloc: Global,
    scheme: &S,
    votes: &[V],
) -> Result<(V::Content, S::Certificate), AssemblyError>
    requires { CanAssemble V.content_of V.attestation_of (S.size scheme.now) votes.now }
    ensures made { IfOk result (λ made.
        (states : V.Content → Statement D)
        → IsMadeOf V.content_of V.attestation_of states (S.attests scheme.now) (S.certifies scheme.now) S.lists S.enumerates votes.now
        made.0 made.1) }
    ensures readable { IfOk result (λ made. S.Certificate.within (S.size scheme.now) made.1) }
    ensures within { IfOk result (λ made. S.Certificate.within 65535 made.1) }
    ensures too_few { length votes.now < quorum (S.size scheme.now)
        → result ≡ Err (InsufficientAttestations (quorum (S.size scheme.now)) (length votes.now)) }
    ensures enough { quorum (S.size scheme.now) ≤ length votes.now → IfErr result (λ e. e ≡ Memory) }
{
    let needed = quorum(scheme.participants());
    let count = votes.len();
    if count < needed as usize {
        return Err(AssemblyError::InsufficientAttestations(needed, count as u32));
    }
    let content = votes[0].content();
    let attestations = attestations_of(alloc, votes)?;
    let certificate = scheme.assemble(alloc, &attestations)?;
    Ok((content, certificate))
}
