//! Committees in which each attestation is judged by itself: what their schemes have in common.

ghost use Rattle.std.specs.Prelude.{◌≡◌, ◌↔◌, ◌≤◌, ◌<◌, ℕ, length, All, Contains, IsTrue, IsSome, IfOk, IfSome};
ghost use Rattle.types_core.specs.declared.attestation.Attestation.{Attestation};
ghost use Rattle.types_core.specs.Ascending.{AscendsFrom};
ghost use Rattle.simplex_types.specs.AttestationList.{list_within};
ghost use Rattle.types_core.specs.Batching.{AreFailing};
ghost use Rattle.types_core.specs.Quorum.{IsQuorum};
ghost use Rattle.types_core.specs.Subject.{Statement, statement};

use crate::attestation_list::AttestationList;
use std::alloc::{AllocError, Global};
use types_core::{
    Attestation, Digest, Participant, Signature, Subject, are_of_distinct_members, quorum,
};

/// Committees in which each attestation is judged by itself. A scheme of one whose certificates list their
/// attestations has the calls below for bodies.
pub trait Attesting<D: Digest> {
    /// A member's signature.
    type Mark: Signature;

    /// How many members the committee has.
    ghost members: { Self → ℕ };

    /// The signature is one of the member with this index on this statement.
    ghost marks: { Self → ℕ → Statement D → Self.Mark → Type 0 };

    /// How many members the committee has: at least one, and at most 65,535.
    fn members(&self) -> u32
        ensures value { result ≡ members self.now }
        ensures some { 0 < members self.now }
        ensures at_most { members self.now ≤ 65535 };

    /// Whether the attestation attests the subject.
    fn attests(&self, subject: &Subject<'_, D>, attestation: &Attestation<Self::Mark>) -> bool
        ensures { IsTrue result ↔ marks self.now attestation.now.signer (statement subject.now) attestation.now.signature };

    /// Only members attest.
    ghost marks_member: { (s : Self) (i : ℕ) (x : Statement D) (a : Self.Mark) → marks s i x a → i < members s };
}

/// Whether each of the attestations attests the subject.
fn all_attest<C: Attesting<D>, D: Digest>(
    committee: &C,
    subject: &Subject<'_, D>,
    attestations: &[Attestation<C::Mark>],
) -> bool
    ensures { IsTrue result ↔ All (λ a. C.marks committee.now a.signer (statement subject.now) a.signature) attestations.now }
{
    for attestation in attestations {
        if !committee.attests(subject, attestation) {
            return false;
        }
    }
    true
}

/// The members in whose names an attestation of these fails, ascending, each once: in the names of all
/// others each attests. Refused only where memory is.
pub fn failing_signers<C: Attesting<D>, D: Digest>(
    alloc: Global,
    committee: &C,
    subject: &Subject<'_, D>,
    attestations: &[Attestation<C::Mark>],
) -> Result<Vec<Participant>, AllocError>
    ensures { IfOk result (λ failing. AreFailing (λ i a. C.marks committee.now i (statement subject.now) a) attestations.now failing.items) }
{
    let mut failing = Vec::new(alloc);
    for attestation in attestations {
        if !committee.attests(subject, attestation) {
            failing.push(attestation.signer)?;
        }
    }
    failing.sort_unstable();
    failing.dedup();
    Ok(failing)
}

/// Whether the list has attestations of a quorum on the subject.
pub fn lists_quorum<C: Attesting<D>, D: Digest>(
    committee: &C,
    subject: &Subject<'_, D>,
    certificate: &AttestationList<C::Mark>,
) -> bool
    ensures { IsTrue result ↔ IsQuorum (C.members committee.now) (λ i a. C.marks committee.now i (statement subject.now) a) certificate.now }
{
    let listed = certificate.attestations();
    quorum(committee.members()) as usize <= listed.len() && all_attest(committee, subject, listed)
}

/// The list of all the attestations, exactly where they are a quorum's on the subject. Refused only where
/// memory is.
pub fn list_of_quorum<C: Attesting<D>, D: Digest>(
    alloc: Global,
    committee: &C,
    subject: &Subject<'_, D>,
    attestations: &[Attestation<C::Mark>],
) -> Result<Option<AttestationList<C::Mark>>, AllocError>
    ensures exact { IfOk result (λ made.
        IsSome made ↔ IsQuorum (C.members committee.now) (λ i a. C.marks committee.now i (statement subject.now) a) attestations.now) }
    ensures certifies { IfOk result
        (λ made. IfSome made (λ c. IsQuorum (C.members committee.now) (λ i a. C.marks committee.now i (statement subject.now) a) c)) }
    ensures only_given { IfOk result (λ made. IfSome made (λ c. (a : Attestation C.Mark) → Contains c a → Contains attestations.now a)) }
    ensures all_given { IfOk result (λ made. IfSome made (λ c. (a : Attestation C.Mark) → Contains attestations.now a → Contains c a)) }
    ensures readable { IfOk result (λ made. IfSome made (λ c. list_within (C.members committee.now) c)) }
    ensures within { IfOk result (λ made. IfSome made (λ c. list_within 65535 c)) }
{
    let members = committee.members();
    if attestations.len() < quorum(members) as usize
        || !are_of_distinct_members(alloc, members, attestations)?
        || !all_attest(committee, subject, attestations)
    {
        return Ok(None);
    }
    Ok(Some(AttestationList::new(alloc, members, attestations)?))
}
