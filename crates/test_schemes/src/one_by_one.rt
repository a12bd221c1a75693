//! A scheme that is not batchable.

ghost use Rattle.std.specs.Prelude.{◌≡◌, ◌<◌, ◌≤◌, Option, false, ⊤};
ghost use Rattle.simplex_types.specs.Plain.{Attests};
ghost use Rattle.types_core.specs.Quorum.{IsQuorum};

use simplex_types::{AttestationList, PlainKey, PlainScheme, PlainSignature};
use std::alloc::{AllocError, Global};
use types_core::{AssemblyError, Attestation, Listing, Participant, Scheme, Sha256Digest, Subject};

/// The plain scheme of a committee that has no faster way: it judges one by one, and assembles nothing at
/// once.
#[derive(Drop)]
pub struct OneByOne {
    /// The committee.
    pub plain: PlainScheme,
}

impl Scheme<Sha256Digest> for OneByOne {
    type PublicKey = PlainKey;

    type Signature = PlainSignature;

    type Certificate = AttestationList<PlainSignature>;

    ghost size = { λ s. s.plain.participants };

    ghost own = { λ s. s.plain.me };

    ghost key_of = { λ s i. i };

    ghost attests = { λ s i x a. Attests (λ d. d) s.plain.base s.plain.participants i x a };

    ghost certifies = { λ s x c. IsQuorum s.plain.participants (λ i a. Attests (λ d. d) s.plain.base s.plain.participants i x a) c };

    ghost lists = { λ c. c };

    ghost enumerates = { ⊤ };

    ghost batchable = { λ _. false };

    ghost may_decline = { λ s x given. ⊤ };

    fn participants(&self) -> u32 {
        Scheme::<Sha256Digest>::participants(&self.plain)
    }

    fn me(&self) -> Option<Participant> {
        Scheme::<Sha256Digest>::me(&self.plain)
    }

    fn key(&self, index: Participant) -> Option<PlainKey> {
        Scheme::<Sha256Digest>::key(&self.plain, index)
    }

    fn sign(&self, subject: &Subject<'_, Sha256Digest>) -> Option<Attestation<PlainSignature>> {
        self.plain.sign(subject)
    }

    fn verify_attestation(
        &self,
        subject: &Subject<'_, Sha256Digest>,
        attestation: &Attestation<PlainSignature>,
    ) -> bool {
        self.plain.verify_attestation(subject, attestation)
    }

    fn is_batchable(&self) -> bool {
        false
    }

    fn verify_attestations(
        &self,
        alloc: Global,
        subject: &Subject<'_, Sha256Digest>,
        attestations: &[Attestation<PlainSignature>],
    ) -> Result<Vec<Participant>, AllocError> {
        self.plain.verify_attestations(alloc, subject, attestations)
    }

    fn optimistic_assemble(
        &self,
        _alloc: Global,
        _subject: &Subject<'_, Sha256Digest>,
        _attestations: &[Attestation<PlainSignature>],
    ) -> Result<Option<AttestationList<PlainSignature>>, AllocError> {
        Ok(None)
    }

    fn verify_certificate(
        &self,
        subject: &Subject<'_, Sha256Digest>,
        certificate: &AttestationList<PlainSignature>,
    ) -> bool {
        self.plain.verify_certificate(subject, certificate)
    }

    fn assemble(
        &self,
        alloc: Global,
        attestations: &[Attestation<PlainSignature>],
    ) -> Result<AttestationList<PlainSignature>, AssemblyError> {
        Scheme::<Sha256Digest>::assemble(&self.plain, alloc, attestations)
    }

    ghost attests_member = { λ s i x a h. h.0 };

    ghost declined_in_each_order = { λ s x given others moved declined. tt };
}

impl Listing<Sha256Digest> for OneByOne {
    fn attestations(
        certificate: &AttestationList<PlainSignature>,
    ) -> &[Attestation<PlainSignature>] {
        certificate.attestations()
    }

    ghost enumerated = { tt };

    ghost sufficient = { λ s x c h. h };

    ghost backed = { λ s x c h. h };
}
