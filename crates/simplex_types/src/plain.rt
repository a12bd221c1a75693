//! A scheme with no secret, for tests and tools: a signature is a hash of what is signed.

ghost use Rattle.std.specs.Prelude.{◌≡◌, ◌<◌, ◌≤◌, ◌^◌, ℕ, List, length, IfOk, ⊤, Ok};
ghost use Rattle.std.specs.Option.{ForSome};
ghost use Rattle.std.specs.Int.{w32, to_be_bytes};
ghost use Rattle.std.proofs.Common.{rules, arith};
ghost use Rattle.sha2.specs.Hashers.{Holds256};
ghost use Rattle.types_codec.specs.Codec.{bytes_at, bytes-IsCodec, unbounded-IsCodec};
ghost use Rattle.types_core.specs.Subject.{statement};
ghost use Rattle.simplex_types.specs.Plain.{Attests, signature, key_at, key-IsCodec};

use crate::attesting::Attesting;
use crate::hashing::hash_signed;
use crate::listed::Listed;
use crate::signing::Signing;
use sha2::{Digest as _, Sha256};
use std::alloc::{AllocError, Global};
use std::marker::Model;
use types_codec::{read_bytes, take_bytes};
use types_core::{
    Attestation, CodecError, Digest, Duplicate, EncodeSize, MaxEncodeSize, Namespace, Participant,
    PublicKey, Read, Signature, Subject, Write,
};

/// The public key of a member under the plain scheme: its index, spelled in four bytes, the most
/// significant first.
#[derive(Clone, Copy, Debug, PartialEq, Eq, PartialOrd, Ord, Hash)]
pub struct PlainKey(Participant);

impl Model for PlainKey {
    ghost Value = { ℕ };

    ghost view = { λ k. k.0 };

    ghost inverse = { λ n. record { 0 = n } };
}

impl PlainKey {
    /// The key of the member of this index.
    pub const fn new(index: Participant) -> Self
        ensures { result ≡ index }
    {
        PlainKey(index)
    }

    /// The member whose key it is.
    pub const fn index(self) -> Participant
        ensures { result ≡ self }
    {
        self.0
    }
}

impl Write for PlainKey {
    ghost fits = { λ index. index < 2 ^ 32 };

    ghost spelling = { to_be_bytes w32 };

    fn append(&self, out: &mut Vec<u8>) -> Result<(), AllocError> {
        out.extend_from_slice(&self.0.get().to_be_bytes())
    }
}

impl EncodeSize for PlainKey {
    ghost max_size = { 4 };

    fn encode_size(&self) -> usize {
        let bytes = self.0.get().to_be_bytes();
        bytes.as_slice().len()
    }

    ghost short = { Prim.search rules };
}

impl MaxEncodeSize for PlainKey {
    fn max_encode_size() -> usize {
        4
    }
}

impl Read for PlainKey {
    ghost within = { λ _ _. ⊤ };

    ghost reading = { λ _. key_at };

    ghost one_spelling = { λ _ _. unbounded-IsCodec key-IsCodec };

    ghost grows = { λ n m x up h. h };

    fn read_cfg(_alloc: Global, input: &mut &[u8], _bound: u32) -> Result<Self, CodecError> {
        let index = u32::from_be_bytes(read_bytes(input)?);
        Ok(PlainKey(Participant::new(index)))
    }
}

impl PublicKey for PlainKey {
    ghost equal_is_same = { Prim.search rules };

    ghost small = { Prim.search rules };

    ghost longest = { λ x h. Prim.omega arith };

    ghost unbounded = { λ n x. tt };
}

impl Duplicate for PlainKey {
    fn duplicate(&self, _alloc: Global) -> Result<Self, AllocError>
        ensures { result ≡ Ok self.now }
    {
        Ok(*self)
    }
}

/// A signature of the plain scheme: a SHA-256 hash (FIPS 180-4).
#[derive(Clone, Copy, Debug, PartialEq, Eq, PartialOrd, Ord, Hash)]
pub struct PlainSignature([u8; 32]);

impl Model for PlainSignature {
    ghost Value = { List ℕ };

    ghost view = { λ s. s.0 };

    ghost inverse = { λ bytes. record { 0 = bytes } };
}

impl Write for PlainSignature {
    ghost fits = { λ s. length s ≡ 32 };

    ghost spelling = { λ s. s };

    fn append(&self, out: &mut Vec<u8>) -> Result<(), AllocError> {
        out.extend_from_slice(&self.0)
    }
}

impl EncodeSize for PlainSignature {
    ghost max_size = { 32 };

    fn encode_size(&self) -> usize {
        let bytes: &[u8] = &self.0;
        bytes.len()
    }

    ghost short = { Prim.search rules };
}

impl MaxEncodeSize for PlainSignature {
    fn max_encode_size() -> usize {
        32
    }
}

impl Read for PlainSignature {
    ghost within = { λ _ _. ⊤ };

    ghost reading = { λ _. bytes_at 32 };

    ghost one_spelling = { λ _ _. unbounded-IsCodec (bytes-IsCodec 32) };

    ghost grows = { λ n m x up h. h };

    fn read_cfg(_alloc: Global, input: &mut &[u8], _bound: u32) -> Result<Self, CodecError> {
        Ok(PlainSignature(read_bytes(input)?))
    }
}

impl Signature for PlainSignature {
    fn take(input: &mut &[u8], _bound: u32) -> Option<Self> {
        Some(PlainSignature(take_bytes(input)?))
    }

    ghost equal_is_same = { Prim.search rules };

    ghost small = { Prim.search rules };

    ghost longest = { λ s h. Prim.omega (arith, h) };

    ghost unbounded = { λ n x. tt };
}

impl Duplicate for PlainSignature {
    fn duplicate(&self, _alloc: Global) -> Result<Self, AllocError>
        ensures { result ≡ Ok self.now }
    {
        Ok(*self)
    }
}

/// A committee whose signatures are hashes of what is signed, as one member sees it. Anyone can make them.
#[derive(Debug, Drop)]
pub struct Plain {
    namespace: Namespace,
    participants: u32,
    me: Option<Participant>,
}

impl Model for Plain {
    ghost use Rattle.std.specs.Prelude.{◌≤◌, ◌<◌, length};
    ghost use Rattle.std.specs.Option.{ForSome};
    ghost use Rattle.simplex_types.specs.Plain.{Committee};

    ghost Value = { Committee };

    ghost view = { λ s. record { base = s.namespace; participants = s.participants; me = s.me } };

    ghost invariant = { λ s. (length s.namespace ≤ 255) × (0 < s.participants) × (s.participants ≤ 65535) × ForSome s.me (λ i. i < s.participants) };
}

impl Plain {
    /// The most members of a committee.
    pub const MAX_PARTICIPANTS: u32 = 65_535;

    /// The most bytes of a namespace's base.
    pub const MAX_BASE: usize = 255;

    /// The base of the namespaces.
    pub(crate) fn base(&self) -> &[u8]
        ensures value { result.now ≡ self.now.base }
        ensures short { length result.now ≤ 255 }
    {
        self.namespace.base()
    }

    fn signature_of<D: Digest>(
        &self,
        index: Participant,
        subject: &Subject<'_, D>,
    ) -> PlainSignature
        ensures { result ≡ signature D.spelling self.now.base index (statement subject.now) }
    {
        let mut hasher = Sha256::new();
        hash_signed(&mut hasher, self.namespace.base(), index, subject);
        PlainSignature(hasher.finalize())
    }
}

impl<D: Digest> Attesting<D> for Plain {
    type Mark = PlainSignature;

    ghost members = { λ s. s.participants };

    ghost marks = { λ s i x a. Attests D.spelling s.base s.participants i x a };

    fn members(&self) -> u32 {
        self.participants
    }

    fn attests(&self, subject: &Subject<'_, D>, attestation: &Attestation<PlainSignature>) -> bool {
        attestation.signer.get() < self.participants
            && self.signature_of(attestation.signer, subject) == attestation.signature
    }

    ghost marks_member = { λ s i x a h. h.0 };
}

impl<D: Digest> Signing<D> for Plain {
    type Key = PlainKey;

    ghost own = { λ s. s.me };

    ghost key_of = { λ s i. i };

    fn own(&self) -> Option<Participant> {
        self.me
    }

    fn key_of(&self, member: Participant) -> PlainKey {
        PlainKey(member)
    }

    fn mark(&self, signer: Participant, subject: &Subject<'_, D>) -> PlainSignature {
        self.signature_of(signer, subject)
    }
}

/// The plain scheme: the scheme of such a committee.
pub type PlainScheme = Listed<Plain>;

impl PlainScheme {
    /// The most members of a committee.
    pub const MAX_PARTICIPANTS: u32 = Plain::MAX_PARTICIPANTS;

    /// The most bytes of a namespace's base.
    pub const MAX_BASE: usize = Plain::MAX_BASE;

    /// The committee with this base of its namespaces and so many members, seen by member `me`, or
    /// by nobody of it. Refused only where memory is.
    pub fn new(
        alloc: Global,
        base: &[u8],
        participants: u32,
        me: Option<Participant>,
    ) -> Result<Self, AllocError>
        requires short_base { length base.now ≤ Plain.MAX_BASE }
        requires some { 0 < participants }
        requires at_most { participants ≤ Plain.MAX_PARTICIPANTS }
        requires member { ForSome me (λ i. i < participants) }
        ensures base { IfOk result (λ s. s.base ≡ base.now) }
        ensures participants { IfOk result (λ s. s.participants ≡ participants) }
        ensures me { IfOk result (λ s. s.me ≡ me) }
    {
        let namespace = Namespace::new(alloc, base)?;
        let committee = Plain {
            namespace,
            participants,
            me,
        };
        Ok(Listed { committee })
    }
}
