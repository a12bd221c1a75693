//! Signatures of 64 bytes.

ghost use Rattle.std.specs.Prelude.{◌≡◌, ℕ, List, length, ⊤, Ok, Err, IfSome, IfNone};
ghost use Rattle.std.proofs.Common.{rules, arith};
ghost use Rattle.types_codec.specs.Codec.{bytes_at, bytes-IsCodec, unbounded-IsCodec};

use std::alloc::{AllocError, Global};
use std::marker::Model;
use types_codec::{read_bytes, take_bytes};
use types_core::{CodecError, Duplicate, EncodeSize, MaxEncodeSize, Read, Signature, Write};

/// A signature of 64 bytes.
#[derive(Clone, Copy, PartialEq, Eq, Hash)]
pub struct Signature64([u8; 64]);

impl Model for Signature64 {
    ghost Value = { List ℕ };

    ghost view = { λ s. s.0 };

    ghost inverse = { λ bytes. record { 0 = bytes } };
}

impl Signature64 {
    /// The signature of these bytes.
    pub const fn new(bytes: [u8; 64]) -> Self
        ensures { result ≡ bytes }
    {
        Signature64(bytes)
    }

    /// The bytes.
    pub const fn bytes(self) -> [u8; 64]
        ensures { result ≡ self }
    {
        self.0
    }
}

impl Write for Signature64 {
    ghost fits = { λ s. length s ≡ 64 };

    ghost spelling = { λ s. s };

    fn append(&self, out: &mut Vec<u8>) -> Result<(), AllocError> {
        out.extend_from_slice(&self.0)
    }
}

impl EncodeSize for Signature64 {
    ghost max_size = { 64 };

    fn encode_size(&self) -> usize {
        let bytes: &[u8] = &self.0;
        bytes.len()
    }

    ghost short = { Prim.search rules };
}

impl MaxEncodeSize for Signature64 {
    fn max_encode_size() -> usize {
        64
    }
}

impl Read for Signature64 {
    ghost within = { λ _ _. ⊤ };

    ghost reading = { λ _. bytes_at 64 };

    ghost one_spelling = { λ _ _. unbounded-IsCodec (bytes-IsCodec 64) };

    ghost grows = { λ n m x up h. h };

    fn read_cfg(_alloc: Global, input: &mut &[u8], _bound: u32) -> Result<Self, CodecError> {
        Ok(Signature64(read_bytes(input)?))
    }
}

impl Signature for Signature64 {
    fn take(input: &mut &[u8], _bound: u32) -> Option<Self> {
        Some(Signature64(take_bytes(input)?))
    }

    ghost equal_is_same = { Prim.search rules };

    ghost small = { Prim.search rules };

    ghost longest = { λ s h. Prim.omega (arith, h) };

    ghost unbounded = { λ n x. tt };
}

impl Duplicate for Signature64 {
    fn duplicate(&self, _alloc: Global) -> Result<Self, AllocError>
        ensures { result ≡ Ok self.now }
    {
        Ok(*self)
    }
}
