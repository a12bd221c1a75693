//! Digests of one fixed length.

ghost use Rattle.std.specs.Prelude.{◌≡◌, ◌≤◌, ◌<◌, ◌^◌, ℕ, Bool, ◌↔◌, List, Some, length, IsTrue, ⊤};
ghost use Rattle.std.proofs.Common.{rules};
ghost use Rattle.hex.specs.Hex.{encode_lower};
ghost use Rattle.types_codec.specs.Codec.{bytes_at, bytes-IsCodec, unbounded-IsCodec};

use crate::duplicate::Duplicate;
use std::alloc::{AllocError, Global};
use std::fmt;
use std::hash::Hash;
use std::marker::Model;
use types_codec::{CodecError, EncodeSize, MaxEncodeSize, Read, Write, read_bytes};

/// A payload's name: a value that is its bytes, of one fixed length.
pub trait Digest: Copy + Ord + Hash + Read + MaxEncodeSize + Duplicate {
    /// How many bytes each value has.
    ghost size: { ℕ };

    /// The bytes of the value.
    fn as_bytes(&self) -> &[u8]
        ensures bytes { result.now ≡ Self.spelling self.now }
        ensures length { length result.now ≡ size };

    /// Each value has so many bytes.
    ghost one_length: { (x : Self) → Self.fits x → length (Self.spelling x) ≡ size };

    /// Two values of the same bytes are one.
    ghost identity: { (x y : Self) → Self.spelling x ≡ Self.spelling y → x ≡ y };

    /// Equality is identity.
    ghost equal_is_same: { (x y : Self) → IsTrue (Self.PartialEq.eq x y) ↔ (x ≡ y) };

    /// A digest is short.
    ghost small: { Self.max_size ≤ 1024 };

    /// No bound asks anything of a digest.
    ghost unbounded: { (n : ℕ) (x : Self) → Self.within n x };
}

/// A SHA-256 digest (FIPS 180-4). It prints as 64 lower-case hexadecimal digits.
#[derive(Clone, Copy, Debug, PartialEq, Eq, PartialOrd, Ord, Hash)]
pub struct Sha256Digest([u8; 32]);

impl Model for Sha256Digest {
    ghost Value = { List ℕ };

    ghost view = { λ d. d.0 };

    ghost inverse = { λ bytes. record { 0 = bytes } };
}

impl Sha256Digest {
    /// The digest with these bytes.
    pub const fn new(bytes: [u8; 32]) -> Self
        ensures { result ≡ bytes }
    {
        Sha256Digest(bytes)
    }
}

impl Write for Sha256Digest {
    ghost fits = { λ d. length d ≡ 32 };

    ghost spelling = { λ d. d };

    fn append(&self, out: &mut Vec<u8>) -> Result<(), AllocError> {
        out.extend_from_slice(&self.0)
    }
}

impl EncodeSize for Sha256Digest {
    ghost max_size = { 32 };

    fn encode_size(&self) -> usize {
        let bytes: &[u8] = &self.0;
        bytes.len()
    }

    ghost short = { Prim.search rules };
}

impl MaxEncodeSize for Sha256Digest {
    fn max_encode_size() -> usize {
        32
    }
}

impl Read for Sha256Digest {
    ghost within = { λ _ _. ⊤ };

    ghost reading = { λ _. bytes_at 32 };

    ghost one_spelling = { λ _ _. unbounded-IsCodec (bytes-IsCodec 32) };

    ghost grows = { λ n m x up h. h };

    fn read_cfg(_alloc: Global, input: &mut &[u8], _bound: u32) -> Result<Self, CodecError> {
        Ok(Sha256Digest(read_bytes(input)?))
    }
}

impl Duplicate for Sha256Digest {
    fn duplicate(&self, _alloc: Global) -> Result<Self, AllocError>
        ensures { result ≡ Ok self.now }
    {
        Ok(*self)
    }
}

impl Digest for Sha256Digest {
    ghost size = { 32 };

    fn as_bytes(&self) -> &[u8] {
        &self.0
    }

    ghost one_length = { λ x h. h };

    ghost identity = { λ x y e. e };

    ghost unbounded = { λ n x. tt };

    ghost equal_is_same = { Prim.search rules };

    ghost small = { Prim.search rules };
}

impl fmt::Display for Sha256Digest {
    ghost output = { λ d. Some (encode_lower d) };

    fn fmt<W: fmt::Write>(&self, f: &mut fmt::Formatter<W>) -> fmt::Result {
        let bytes: &[u8] = &self.0;
        let mut digits = [0; 64];
        hex::encode_to_slice(bytes, &mut digits).unwrap();
        f.write_str(str::from_utf8(&digits).unwrap())
    }
}
