//! The scheme of whoever signs.

ghost use Rattle.std.specs.Prelude.{◌≡◌, ◌↔◌, None, Contains, IfOk, IfSome, IsSome, true, ⊤};
ghost use Rattle.std.proofs.lemmas.List.Sorted.{IsPermutation-sym};
ghost use Rattle.types_core.specs.declared.attestation.Attestation.{Attestation};
ghost use Rattle.simplex_types.specs.AttestationList.{list_within};
ghost use Rattle.types_core.specs.Quorum.{IsQuorum};
ghost use Rattle.types_core.specs.QuorumOrder.{IsQuorum-permutation};
ghost use Rattle.types_core.specs.Subject.{statement};

use crate::attestation_list::AttestationList;
use crate::attesting::{failing_signers, list_of_quorum, lists_quorum};
use crate::signing::Signing;
use std::alloc::{AllocError, Global};
use std::marker::Model;
use types_core::{AssemblyError, Attestation, Digest, Listing, Participant, Scheme, Subject};

/// The scheme of a committee whose certificates list their attestations.
#[derive(Debug, Drop)]
pub struct Listed<C> {
    /// The committee, as one member sees it.
    pub committee: C,
}

impl<C> Model for Listed<C> {
    ghost Value = { C };

    ghost view = { λ s. s.committee };

    ghost inverse = { λ c. record { committee = c } };
}

impl<C: Signing<D>, D: Digest> Scheme<D> for Listed<C> {
    type PublicKey = C::Key;

    type Signature = C::Mark;

    type Certificate = AttestationList<C::Mark>;

    ghost size = { λ s. C.members s };

    ghost own = { λ s. C.own s };

    ghost key_of = { λ s i. C.key_of s i };

    ghost attests = { λ s i x a. C.marks s i x a };

    ghost certifies = { λ s x c. IsQuorum (C.members s) (λ i a. C.marks s i x a) c };

    ghost lists = { λ c. c };

    ghost enumerates = { ⊤ };

    ghost batchable = { λ _. true };

    ghost may_decline = { λ s x given. IsQuorum (C.members s) (λ i a. C.marks s i x a) given → ⊥ };

    fn participants(&self) -> u32 {
        self.committee.members()
    }

    fn me(&self) -> Option<Participant> {
        self.committee.own()
    }

    fn key(&self, index: Participant) -> Option<C::Key> {
        if index.get() < self.committee.members() {
            Some(self.committee.key_of(index))
        } else {
            None
        }
    }

    fn sign(&self, subject: &Subject<'_, D>) -> Option<Attestation<C::Mark>> {
        let signer = self.committee.own()?;
        let signature = self.committee.mark(signer, subject);
        Some(Attestation { signer, signature })
    }

    fn verify_attestation(
        &self,
        subject: &Subject<'_, D>,
        attestation: &Attestation<C::Mark>,
    ) -> bool {
        self.committee.attests(subject, attestation)
    }

    fn is_batchable(&self) -> bool {
        true
    }

    fn verify_attestations(
        &self,
        alloc: Global,
        subject: &Subject<'_, D>,
        attestations: &[Attestation<C::Mark>],
    ) -> Result<Vec<Participant>, AllocError> {
        failing_signers(alloc, &self.committee, subject, attestations)
    }

    fn optimistic_assemble(
        &self,
        alloc: Global,
        subject: &Subject<'_, D>,
        attestations: &[Attestation<C::Mark>],
    ) -> Result<Option<AttestationList<C::Mark>>, AllocError>
        ensures exact { IfOk result
            (λ made. IsSome made ↔ IsQuorum (C.members self.now) (λ i a. C.marks self.now i (statement subject.now) a) attestations.now) }
        ensures certifies { IfOk result
            (λ made. IfSome made (λ c. IsQuorum (C.members self.now) (λ i a. C.marks self.now i (statement subject.now) a) c)) }
        ensures only_given { IfOk result (λ made. IfSome made (λ c. (a : Attestation C.Mark) → Contains c a → Contains attestations.now a)) }
        ensures all_given { IfOk result (λ made. IfSome made (λ c. (a : Attestation C.Mark) → Contains attestations.now a → Contains c a)) }
        ensures readable { IfOk result (λ made. IfSome made (λ c. list_within (C.members self.now) c)) }
        ensures within { IfOk result (λ made. IfSome made (λ c. list_within 65535 c)) }
        ensures declined { IfOk result
            (λ made. made ≡ None → IsQuorum (C.members self.now) (λ i a. C.marks self.now i (statement subject.now) a) attestations.now → ⊥) }
    {
        list_of_quorum(alloc, &self.committee, subject, attestations)
    }

    fn verify_certificate(
        &self,
        subject: &Subject<'_, D>,
        certificate: &AttestationList<C::Mark>,
    ) -> bool {
        lists_quorum(&self.committee, subject, certificate)
    }

    fn assemble(
        &self,
        alloc: Global,
        attestations: &[Attestation<C::Mark>],
    ) -> Result<AttestationList<C::Mark>, AssemblyError> {
        let members = self.committee.members();
        let certificate = AttestationList::assemble(alloc, members, attestations)?;
        Ok(certificate)
    }

    ghost attests_member = { λ s i x a h. C.marks_member s i x a h };

    ghost declined_in_each_order = { λ s x given others moved declined quorum. declined
        (IsQuorum-permutation (C.members s) (λ i a. C.marks s i x a) others given (IsPermutation-sym given others moved) quorum) };
}

impl<C: Signing<D>, D: Digest> Listing<D> for Listed<C> {
    fn attestations(certificate: &AttestationList<C::Mark>) -> &[Attestation<C::Mark>] {
        certificate.attestations()
    }

    ghost enumerated = { tt };

    ghost sufficient = { λ s x c h. h };

    ghost backed = { λ s x c h. h };
}
