//! Signing schemes.

ghost use Rattle.std.specs.Prelude.{◌≡◌, ◌↔◌, ◌<◌, ◌≤◌, ◌^◌, ℕ, Bool, List, length, All, Contains, Option, Some, None, Err, IsTrue, IfSome, IsSome, IsNone, IfOk, IfErr};
ghost use Rattle.types_core.specs.declared.attestation.Attestation.{Attestation};
ghost use Rattle.types_core.specs.declared.scheme.AssemblyError.TheVariants.{InsufficientAttestations, Memory};
ghost use Rattle.std.specs.List.Sorted.{IsPermutation};
ghost use Rattle.types_core.specs.Ascending.{AscendsFrom};
ghost use Rattle.types_core.specs.Batching.{AreFailing};
ghost use Rattle.types_core.specs.Quorum.{AreDistinct, IsQuorum};
ghost use Rattle.types_quorum.specs.Committee.{quorum};
ghost use Rattle.types_core.specs.Subject.{Statement, statement};

use crate::attestation::{Attestation, Signature};
use crate::digest::Digest;
use crate::duplicate::Duplicate;
use crate::key::PublicKey;
use crate::position::Participant;
use crate::subject::Subject;
use std::alloc::{AllocError, Global};
use std::hash::Hash;
use thiserror::Error;
use types_codec::{EncodeSize, Read};

/// What a scheme makes of the attestations of a quorum.
pub trait Aggregate: Eq + Hash + Read + EncodeSize + Duplicate + Drop {
    /// No spelling of a certificate of a committee of so many has more bytes.
    ghost most_bytes: { ℕ → ℕ };

    /// How many bytes the spelling of a certificate of a committee of so many has at most.
    fn max_encode_size(participants: u32) -> usize
        ensures { result ≡ most_bytes participants };

    /// Whether the certificate is within the bound of a committee of so many, under which it can be read
    /// again.
    fn is_within(&self, participants: u32) -> bool
        ensures { IsTrue result ↔ Self.within participants self.now };

    /// No spelling is longer than the most.
    ghost longest: { (n : ℕ) (x : Self) → n < 2 ^ 32 → Self.fits x → Self.within n x → length (Self.spelling x) ≤ most_bytes n };

    /// The most is far less than what memory holds.
    ghost modest: { (n : ℕ) → n < 2 ^ 32 → most_bytes n ≤ 2 ^ 43 };

    /// Equality is identity.
    ghost equal_is_same: { (x y : Self) → IsTrue (Self.PartialEq.eq x y) ↔ (x ≡ y) };

    /// A certificate is far shorter than memory is large.
    ghost small: { Self.max_size ≤ 2 ^ 43 };
}

/// Why attestations make no certificate.
#[derive(Clone, Copy, Debug, PartialEq, Eq, Error)]
pub enum AssemblyError {
    /// They are fewer than a quorum: the quorum, and how many they are.
    #[error("{1} attestations, where a quorum is {0}")]
    InsufficientAttestations(u32, u32),
    /// Memory ran out.
    #[error("out of memory")]
    Memory,
}

impl From<AllocError> for AssemblyError {
    ghost from_gives = { λ _ e. e ≡ Memory };

    fn from(_error: AllocError) -> AssemblyError {
        AssemblyError::Memory
    }
}

/// How a committee signs, and what counts as signed.
///
/// A value of a scheme is one member's view of its committee: who the members are, and its own key
/// if it has one.
pub trait Scheme<D: Digest> {
    /// A member's public key.
    type PublicKey: PublicKey;

    /// A member's signature. Signing one subject twice may give two signatures.
    type Signature: Signature;

    /// What is made of the attestations of a quorum.
    type Certificate: Aggregate;

    /// How many members the committee has.
    ghost size: { Self → ℕ };

    /// The index whose key this is, if it has one.
    ghost own: { Self → Option ℕ };

    /// The public key of a member.
    ghost key_of: { Self → ℕ → Self.PublicKey };

    /// The signature is one of the member with this index on this statement.
    ghost attests: { Self → ℕ → Statement D → Self.Signature → Type 0 };

    /// The certificate certifies this statement.
    ghost certifies: { Self → Statement D → Self.Certificate → Type 0 };

    /// The attestations that a certificate lists.
    ghost lists: { Self.Certificate → List (Attestation Self.Signature) };

    /// Certificates list all that they are made of.
    ghost enumerates: { Type 0 };

    /// Many attestations are judged faster together than one by one.
    ghost batchable: { Self → Bool };

    /// An assembly at once of these attestations of the statement may give no certificate.
    ghost may_decline: { Self → Statement D → List (Attestation Self.Signature) → Type 0 };

    /// How many members the committee has: at least one.
    fn participants(&self) -> u32
        ensures value { result ≡ size self.now }
        ensures some { 0 < size self.now };

    /// The index whose key this is, if it has one.
    fn me(&self) -> Option<Participant>
        ensures own { result ≡ own self.now }
        ensures member { IfSome result (λ i. i < size self.now) };

    /// The public key of the member with this index: there exactly below the committee's size.
    fn key(&self, index: Participant) -> Option<Self::PublicKey>
        ensures member { IsSome result ↔ (index < size self.now) }
        ensures value { IfSome result (λ k. k ≡ key_of self.now index) };

    /// An attestation of the subject in this member's name, or `None` without a key.
    fn sign(&self, subject: &Subject<'_, D>) -> Option<Attestation<Self::Signature>>
        ensures without_key { IsNone result ↔ (own self.now ≡ None) }
        ensures in_own_name { IfSome result (λ a. own self.now ≡ Some a.signer) }
        ensures attests { IfSome result (λ a. attests self.now a.signer (statement subject.now) a.signature) };

    /// Whether the attestation attests the subject.
    fn verify_attestation(
        &self,
        subject: &Subject<'_, D>,
        attestation: &Attestation<Self::Signature>,
    ) -> bool
        ensures { IsTrue result ↔ attests self.now attestation.now.signer (statement subject.now) attestation.now.signature };

    /// Whether many attestations are judged faster together than one by one.
    fn is_batchable(&self) -> bool
        ensures { result ≡ batchable self.now };

    /// The members in whose names an attestation of these fails, ascending, each once: in the names of
    /// all others each attests. Refused only where memory is.
    fn verify_attestations(
        &self,
        alloc: Global,
        subject: &Subject<'_, D>,
        attestations: &[Attestation<Self::Signature>],
    ) -> Result<Vec<Participant>, AllocError>
        ensures { IfOk result (λ failing. AreFailing (λ i a. attests self.now i (statement subject.now) a) attestations.now failing.items) };

    /// A certificate of attestations, where the scheme finds that they certify the subject, and `None`
    /// where it doesn't. Refused only where memory is.
    fn optimistic_assemble(
        &self,
        alloc: Global,
        subject: &Subject<'_, D>,
        attestations: &[Attestation<Self::Signature>],
    ) -> Result<Option<Self::Certificate>, AllocError>
        ensures certifies { IfOk result (λ made. IfSome made (λ c. certifies self.now (statement subject.now) c)) }
        ensures only_given { IfOk result
            (λ made. IfSome made (λ c. (a : Attestation Self.Signature) → Contains (lists c) a → Contains attestations.now a)) }
        ensures readable { IfOk result (λ made. IfSome made (λ c. Self.Certificate.within (size self.now) c)) }
        ensures within { IfOk result (λ made. IfSome made (λ c. Self.Certificate.within 65535 c)) }
        ensures declined { IfOk result (λ made. made ≡ None → may_decline self.now (statement subject.now) attestations.now) };

    /// Whether the certificate certifies the subject.
    fn verify_certificate(&self, subject: &Subject<'_, D>, certificate: &Self::Certificate) -> bool
        ensures { IsTrue result ↔ certifies self.now (statement subject.now) certificate.now };

    /// The certificate of attestations on one subject, of distinct members, as
    /// `are_of_distinct_members` tells.
    ///
    /// # Errors
    ///
    /// [`AssemblyError::InsufficientAttestations`] where they are fewer than a quorum, and
    /// [`AssemblyError::Memory`] where memory ran out.
    fn assemble(
        &self,
        alloc: Global,
        attestations: &[Attestation<Self::Signature>],
    ) -> Result<Self::Certificate, AssemblyError>
        requires distinct { AreDistinct attestations.now }
        requires members { All (λ a. a.signer < size self.now) attestations.now }
        ensures certifies { IfOk result
            (λ c. (x : Statement D) → All (λ a. attests self.now a.signer x a.signature) attestations.now → certifies self.now x c) }
        ensures only_given { IfOk result (λ c. (a : Attestation Self.Signature) → Contains (lists c) a → Contains attestations.now a) }
        ensures all_given { IfOk result
            (λ c. enumerates → (a : Attestation Self.Signature) → Contains attestations.now a → Contains (lists c) a) }
        ensures readable { IfOk result (λ c. Self.Certificate.within (size self.now) c) }
        ensures within { IfOk result (λ c. Self.Certificate.within 65535 c) }
        ensures too_few { length attestations.now < quorum (size self.now)
            → result ≡ Err (InsufficientAttestations (quorum (size self.now)) (length attestations.now)) }
        ensures enough { quorum (size self.now) ≤ length attestations.now → IfErr result (λ e. e ≡ Memory) };

    /// Only members attest.
    ghost attests_member: { (s : Self) (i : ℕ) (x : Statement D) (a : Self.Signature) → attests s i x a → i < size s };

    /// Whether attestations may be declined doesn't rest on their order.
    ghost declined_in_each_order: { (s : Self) (x : Statement D) (given others : List (Attestation Self.Signature))
        → IsPermutation given others
        → may_decline s x given
        → may_decline s x others };
}

/// Schemes whose certificates list their attestations.
pub trait Listing<D: Digest>: Scheme<D> {
    /// The attestations that the certificate lists, by strictly ascending index.
    fn attestations(certificate: &Self::Certificate) -> &[Attestation<Self::Signature>]
        ensures listed { result.now ≡ Self.lists certificate.now }
        ensures ascending { AscendsFrom 0 (Self.lists certificate.now) };

    /// Certificates list all that they are made of.
    ghost enumerated: { Self.enumerates };

    /// What lists attestations of a quorum certifies.
    ghost sufficient: { (s : Self) (x : Statement D) (c : Self.Certificate)
        → IsQuorum (Self.size s) (λ i a. Self.attests s i x a) (Self.lists c)
        → Self.certifies s x c };

    /// What certifies lists attestations of a quorum.
    ghost backed: { (s : Self) (x : Statement D) (c : Self.Certificate)
        → Self.certifies s x c
        → IsQuorum (Self.size s) (λ i a. Self.attests s i x a) (Self.lists c) };
}
