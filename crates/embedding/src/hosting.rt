//! A signing scheme of one's own: a function of the host judges its signatures.

ghost use Rattle.std.specs.Prelude.{◌≡◌, ◌↔◌, ◌<◌, if◌then◌else◌, ℕ, List, Some, None, nat_lt, IsTrue};
ghost use Rattle.sha2.specs.Hashers.{Holds256};
ghost use Rattle.simplex_types.specs.Plain.{signature};
ghost use Rattle.simplex_types.specs.Subject.{statement};

use sha2::{Digest as _, Sha256};
use simplex_types::{
    Attestation, Attesting, Digest, Participant, PlainKey, Signature64, Signing, Subject,
    hash_signed,
};

/// What the host brings: whose key it keeps, and signatures of 64 bytes on hashes.
pub(crate) trait Host: Drop {
    /// The member whose key the host keeps.
    ghost index: { Self → ℕ };

    /// The bytes are a signature by this member's key on this hash.
    ghost signs: { Self → ℕ → List ℕ → List ℕ → Type 0 };

    /// The member whose key the host keeps.
    fn index(&self) -> Participant
        ensures { result ≡ index self.now };

    /// Whether the bytes are a signature by this member's key on this hash.
    fn check(&self, member: Participant, hash: [u8; 32], signature: [u8; 64]) -> bool
        ensures { IsTrue result ↔ signs self.now member hash signature };

    /// A signature by the host's own key on this hash.
    fn sign(&self, hash: [u8; 32]) -> [u8; 64]
        ensures { signs self.now (index self.now) hash result };
}

/// A committee whose signatures the host makes and judges.
#[derive(Drop)]
pub(crate) struct Hosted<H> {
    pub(crate) host: H,
    pub(crate) base: [u8; 8],
    pub(crate) members: u16,
    ghost some: { 0 < members },
}

impl<H: Host> Hosted<H> {
    /// The hash that this member signs: what would be its signature by the plain scheme.
    fn hash_of<D: Digest>(&self, index: Participant, subject: &Subject<'_, D>) -> [u8; 32]
        ensures { result ≡ signature D.spelling self.now.base index (statement subject.now) }
    {
        let mut hasher = Sha256::new();
        hash_signed(&mut hasher, &self.base, index, subject);
        hasher.finalize()
    }
}

impl<H: Host, D: Digest> Attesting<D> for Hosted<H> {
    type Mark = Signature64;

    ghost members = { λ s. s.members };

    ghost marks = { λ s i x a. (i < s.members) × H.signs s.host i (signature D.spelling s.base i x) a };

    fn members(&self) -> u32 {
        u32::from(self.members)
    }

    fn attests(&self, subject: &Subject<'_, D>, attestation: &Attestation<Signature64>) -> bool {
        let Attestation { signer, signature } = *attestation;
        signer.get() < u32::from(self.members)
            && self
                .host
                .check(signer, self.hash_of(signer, subject), signature.bytes())
    }

    ghost marks_member = { λ s i x a h. h.0 };
}

impl<H: Host, D: Digest> Signing<D> for Hosted<H> {
    type Key = PlainKey;

    ghost own = { λ s. if nat_lt (H.index s.host) s.members then Some (H.index s.host) else None };

    ghost key_of = { λ s i. i };

    fn own(&self) -> Option<Participant> {
        let own = self.host.index();
        if own.get() < u32::from(self.members) {
            Some(own)
        } else {
            None
        }
    }

    fn key_of(&self, member: Participant) -> PlainKey {
        PlainKey::new(member)
    }

    fn mark(&self, signer: Participant, subject: &Subject<'_, D>) -> Signature64 {
        Signature64::new(self.host.sign(self.hash_of(signer, subject)))
    }
}
