//! A scheme whose signatures of one subject differ, for tests.

ghost use Rattle.std.specs.Prelude.{◌≡◌, ◌↔◌, ◌<◌, ◌≤◌, ◌^◌, ◌++◌, ℕ, List, Some, None, length, IfOk, IfSome, IsNone, ⊤, Ok};
ghost use Rattle.std.specs.Option.{ForSome};
ghost use Rattle.std.proofs.Common.{rules, arith};
ghost use Rattle.sha2.specs.Hashers.{Holds256};
ghost use Rattle.types_codec.specs.Codec.{bytes_at, bytes-IsCodec, unbounded-IsCodec};
ghost use Rattle.types_core.specs.Subject.{Statement, statement};
ghost use Rattle.simplex_types.specs.Salted.{salted_hash, salted_signature, IsSalted, Attests};

use crate::attesting::Attesting;
use crate::hashing::hash_signed;
use crate::listed::Listed;
use crate::plain::{Plain, PlainKey, PlainScheme};
use crate::signing::Signing;
use sha2::{Digest as _, Sha256};
use std::alloc::{AllocError, Global};
use std::cell::Cell;
use std::marker::Model;
use types_codec::{read_bytes, take_bytes};
use types_core::{
    Attestation, CodecError, Digest, Duplicate, EncodeSize, MaxEncodeSize, Participant, Read,
    Signature, Subject, Write,
};

/// A signature of the salted scheme: a counter in 8 bytes, the most significant first, and a SHA-256
/// hash (FIPS 180-4).
#[derive(Clone, Copy, Debug, PartialEq, Eq, PartialOrd, Ord, Hash)]
pub struct SaltedSignature([u8; 40]);

impl Model for SaltedSignature {
    ghost Value = { List ℕ };

    ghost view = { λ s. s.0 };

    ghost inverse = { λ bytes. record { 0 = bytes } };
}

impl SaltedSignature {
    /// The signature of this salt and this hash.
    fn new(salt: [u8; 8], hash: [u8; 32]) -> Self
        ensures parts { result ≡ salt ++ hash }
        ensures length { length result ≡ 40 }
    {
        let mut bytes = [0; 40];
        let (front, back) = bytes.split_at_mut(8);
        front.copy_from_slice(&salt);
        back.copy_from_slice(&hash);
        SaltedSignature(bytes)
    }
}

impl Write for SaltedSignature {
    ghost fits = { λ s. length s ≡ 40 };

    ghost spelling = { λ s. s };

    fn append(&self, out: &mut Vec<u8>) -> Result<(), AllocError> {
        out.extend_from_slice(&self.0)
    }
}

impl EncodeSize for SaltedSignature {
    ghost max_size = { 40 };

    fn encode_size(&self) -> usize {
        let bytes: &[u8] = &self.0;
        bytes.len()
    }

    ghost short = { Prim.search rules };
}

impl MaxEncodeSize for SaltedSignature {
    fn max_encode_size() -> usize {
        40
    }
}

impl Read for SaltedSignature {
    ghost within = { λ _ _. ⊤ };

    ghost reading = { λ _. bytes_at 40 };

    ghost one_spelling = { λ _ _. unbounded-IsCodec (bytes-IsCodec 40) };

    ghost grows = { λ n m x up h. h };

    fn read_cfg(_alloc: Global, input: &mut &[u8], _bound: u32) -> Result<Self, CodecError> {
        Ok(SaltedSignature(read_bytes(input)?))
    }
}

impl Signature for SaltedSignature {
    fn take(input: &mut &[u8], _bound: u32) -> Option<Self> {
        Some(SaltedSignature(take_bytes(input)?))
    }

    ghost equal_is_same = { Prim.search rules };

    ghost small = { Prim.search rules };

    ghost longest = { λ s h. Prim.omega (arith, h) };

    ghost unbounded = { λ n x. tt };
}

impl Duplicate for SaltedSignature {
    fn duplicate(&self, _alloc: Global) -> Result<Self, AllocError>
        ensures { result ≡ Ok self.now }
    {
        Ok(*self)
    }
}

/// A committee whose signatures are a counter, and a hash of it and of what is signed, as one member sees
/// it. Anyone can make them. A value counts its signatures, so that each carries another counter.
#[derive(Debug, Drop)]
pub struct Salted {
    /// The same committee, as the plain scheme has it.
    plain: Plain,
    counter: Cell<u64>,
}

impl Model for Salted {
    ghost use Rattle.simplex_types.specs.Plain.{Committee};

    ghost Value = { Committee };

    ghost view = { λ s. s.plain };
}

impl Salted {
    /// The hash that stands behind this salt in the signature of this index.
    fn hash_of<D: Digest>(
        &self,
        salt: &[u8],
        index: Participant,
        subject: &Subject<'_, D>,
    ) -> [u8; 32]
        ensures { result ≡ salted_hash D.spelling self.now.base salt.now index (statement subject.now) }
    {
        let mut hasher = Sha256::new();
        hasher.update(salt);
        hash_signed(&mut hasher, self.plain.base(), index, subject);
        hasher.finalize()
    }

    /// The signature of this index that carries this counter.
    fn signature_of<D: Digest>(
        &self,
        counter: u64,
        index: Participant,
        subject: &Subject<'_, D>,
    ) -> SaltedSignature
        ensures salted { IsSalted D.spelling self.now.base index (statement subject.now) result }
        ensures signature { result ≡ salted_signature D.spelling self.now.base counter index (statement subject.now) }
    {
        let salt = counter.to_be_bytes();
        let hash = self.hash_of(&salt, index, subject);
        SaltedSignature::new(salt, hash)
    }
}

impl<D: Digest> Attesting<D> for Salted {
    type Mark = SaltedSignature;

    ghost members = { λ s. s.participants };

    ghost marks = { λ s i x a. Attests D.spelling s.base s.participants i x a };

    fn members(&self) -> u32 {
        Attesting::<D>::members(&self.plain)
    }

    fn attests(
        &self,
        subject: &Subject<'_, D>,
        attestation: &Attestation<SaltedSignature>,
    ) -> bool {
        let bytes: &[u8] = &attestation.signature.0;
        let (salt, hash) = bytes.split_at(8);
        attestation.signer.get() < Attesting::<D>::members(&self.plain)
            && self.hash_of(salt, attestation.signer, subject).as_slice() == hash
    }

    ghost marks_member = { λ s i x a h. h.0 };
}

impl<D: Digest> Signing<D> for Salted {
    type Key = PlainKey;

    ghost own = { λ s. s.me };

    ghost key_of = { λ s i. i };

    fn own(&self) -> Option<Participant> {
        Signing::<D>::own(&self.plain)
    }

    fn key_of(&self, member: Participant) -> PlainKey {
        PlainKey::new(member)
    }

    fn mark(&self, signer: Participant, subject: &Subject<'_, D>) -> SaltedSignature {
        let counter = self.counter.get();
        self.counter.set(counter.wrapping_add(1));
        self.signature_of(counter, signer, subject)
    }
}

/// The salted scheme: the scheme of such a committee.
pub type SaltedScheme = Listed<Salted>;

impl SaltedScheme {
    /// The committee with this base of its namespaces and so many members, seen by member `me`, or
    /// by nobody of it. Its first signature carries this counter. Refused only where memory is.
    pub fn new(
        alloc: Global,
        base: &[u8],
        participants: u32,
        me: Option<Participant>,
        counter: u64,
    ) -> Result<Self, AllocError>
        requires short_base { length base.now ≤ Plain.MAX_BASE }
        requires some { 0 < participants }
        requires at_most { participants ≤ Plain.MAX_PARTICIPANTS }
        requires member { ForSome me (λ i. i < participants) }
        ensures base { IfOk result (λ s. s.base ≡ base.now) }
        ensures participants { IfOk result (λ s. s.participants ≡ participants) }
        ensures me { IfOk result (λ s. s.me ≡ me) }
    {
        let plain = PlainScheme::new(alloc, base, participants, me)?.committee;
        let counter = Cell::new(counter);
        let committee = Salted { plain, counter };
        Ok(Listed { committee })
    }

    /// An attestation of the subject that carries this counter, or `None` without a key.
    pub fn sign_with<D: Digest>(
        &self,
        counter: u64,
        subject: &Subject<'_, D>,
    ) -> Option<Attestation<SaltedSignature>>
        ensures without_key { IsNone result ↔ (self.now.me ≡ None) }
        ensures in_own_name { IfSome result (λ a. self.now.me ≡ Some a.signer) }
        ensures member { IfSome result (λ a. a.signer < self.now.participants) }
        ensures attests { IfSome result (λ a. IsSalted D.spelling self.now.base a.signer (statement subject.now) a.signature) }
        ensures signature { IfSome result (λ a. a.signature ≡ salted_signature D.spelling self.now.base counter a.signer (statement subject.now)) }
    {
        let signer = Signing::<D>::own(&self.committee)?;
        let signature = self.committee.signature_of(counter, signer, subject);
        Some(Attestation { signer, signature })
    }
}

/// A law of the salted scheme: signatures that carry two counters differ, whatever they sign.
pub fn signatures_of_two_counters_differ<D: Digest>()
    ensures { (first second : ℕ)
        → first < 2 ^ 64
        → second < 2 ^ 64
        → (b c : List ℕ) (i j : ℕ) (x y : Statement D)
        → salted_signature D.spelling b first i x ≡ salted_signature D.spelling c second j y
        → first ≡ second }
{}
