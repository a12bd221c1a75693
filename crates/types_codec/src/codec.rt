//! Values as bytes: each value has one spelling, and reading stops at the first trouble from the left.

ghost use Rattle.std.specs.Prelude.{◌≡◌, ◌++◌, ℕ, ◌<◌, ◌≤◌, ◌^◌, List, Result, Ok, Err, length, IfOk, IsErrOf, IfSome, IfNone, OnOk, OnErr, take, vec_len};
ghost use Rattle.types_codec.specs.Codec.{Gives, IsCodec, Readable, SpellsNone, bytes_at};
ghost use Rattle.types_codec.specs.declared.codec.CodecError.{CodecError};
ghost use Rattle.types_codec.specs.declared.codec.CodecError.TheVariants.{End, Memory};

use std::alloc::{AllocError, AllocFailed, Global};
use thiserror::Error;

/// Why no value was read: the first trouble from the left.
#[derive(Clone, Copy, Debug, PartialEq, Eq, Hash, Error)]
pub enum CodecError {
    /// The bytes end inside a value.
    #[error("the bytes end inside a value")]
    End,
    /// A byte or a value that can't stand there.
    #[error("a byte or a value that can't stand there")]
    Invalid,
    /// A count above its bound.
    #[error("a count above its bound")]
    TooLong,
    /// Memory ran out.
    #[error("out of memory")]
    Memory,
}

impl From<AllocError> for CodecError {
    ghost from_gives = { λ _ e. e ≡ Memory };

    fn from(_error: AllocError) -> CodecError {
        CodecError::Memory
    }
}

impl<T: Drop> From<AllocFailed<T>> for CodecError {
    ghost from_gives = { λ _ e. e ≡ Memory };

    fn from(_error: AllocFailed<T>) -> CodecError {
        CodecError::Memory
    }
}

/// Values that are written as bytes.
pub trait Write {
    /// What holds of each value of the type: its spelling can be read again.
    ghost fits: { Self → Type 0 };

    /// The value's one spelling.
    ghost spelling: { Self → List ℕ };

    /// Appends the spelling. Where memory is refused, a part of it may stand behind what was there.
    fn append(&self, out: &mut Vec<u8>) -> Result<(), AllocError>
        ensures ok { OnOk result (out.new.items ≡ out.old.items ++ spelling self.now) }
        ensures readable { OnOk result (fits self.now) }
        ensures err { OnErr result (take (vec_len out.old) out.new.items ≡ out.old.items) };

    /// Appends the spelling. Where memory is refused, the vector is as it was.
    final fn write(&self, out: &mut Vec<u8>) -> Result<(), AllocError>
        ensures ok { OnOk result (out.new.items ≡ out.old.items ++ spelling self.now) }
        ensures readable { OnOk result (fits self.now) }
        ensures err { OnErr result (out.new.items ≡ out.old.items) }
    {
        let start = out.len();
        let written = self.append(out);
        if written.is_err() {
            out.truncate(start);
        }
        written
    }
}

/// Values whose spelling has a known length.
pub trait EncodeSize: Write {
    /// No spelling of the type has more bytes.
    ghost max_size: { ℕ };

    /// How many bytes the spelling has.
    fn encode_size(&self) -> usize
        ensures size { result ≡ length (Self.spelling self.now) }
        ensures bounded { result ≤ max_size }
        ensures readable { Self.fits self.now };

    /// Spellings are far shorter than memory is large, so that their lengths can be added.
    ghost short: { max_size < 2 ^ 48 };
}

/// Values of a type whose longest spelling is short enough to be planned with, whatever the
/// committee's size.
pub trait MaxEncodeSize: EncodeSize {
    /// How many bytes a spelling of the type has at most.
    fn max_encode_size() -> usize
        ensures { result ≡ Self.max_size };
}

/// Values that are read from bytes.
pub trait Read: Write + Sized {
    /// What a bound on the committee's size asks of a value.
    ghost within: { ℕ → Self → Type 0 };

    /// What reading gives, under a bound on the committee's size: the value and the bytes behind it,
    /// or the first trouble from the left.
    ghost reading: { ℕ → List ℕ → Result (Self × List ℕ) CodecError };

    /// Reads the value at the front, and leaves the slice behind it. `bound` is the committee's size.
    /// After any refusal the slice stands where it stood.
    fn read_cfg(alloc: Global, input: &mut &[u8], bound: u32) -> Result<Self, CodecError>
        ensures { Gives (reading bound) input.old.now input.new.now result };

    /// Exactly the spellings of values within the bound are read, and what was spelled is read again
    /// whatever follows. So each value has one spelling, and no spelling begins another.
    ghost one_spelling: { (n : ℕ) → n < 2 ^ 32 → IsCodec (Readable Self.fits (within n)) Self.spelling (reading n) };

    /// A greater bound asks no more.
    ghost grows: { (n m : ℕ) (x : Self) → n ≤ m → within n x → within m x };
}

/// The value that all the bytes spell, or nothing where they spell none: where reading refuses them, or
/// stops before their end. `bound` is the committee's size. Refused only where memory is.
pub fn decode_cfg<T: Read + Drop>(
    alloc: Global,
    bytes: &[u8],
    bound: u32,
) -> Result<Option<T>, AllocError>
    ensures some { IfOk result (λ found. IfSome found (λ x. (bytes.now ≡ T.spelling x) × Readable T.fits (T.within bound) x)) }
    ensures none { IfOk result (λ found. IfNone found (SpellsNone (Readable T.fits (T.within bound)) T.spelling bytes.now)) }
{
    let mut rest = bytes;
    match T::read_cfg(alloc, &mut rest, bound) {
        Ok(value) => {
            if rest.is_empty() {
                Ok(Some(value))
            } else {
                Ok(None)
            }
        }
        Err(CodecError::Memory) => Err(AllocError),
        Err(CodecError::End) => Ok(None),
        Err(CodecError::Invalid) => Ok(None),
        Err(CodecError::TooLong) => Ok(None),
    }
}

/// Takes so many bytes as they are, or nothing where fewer are left.
pub fn take_bytes<const N: usize>(input: &mut &[u8]) -> Option<[u8; N]>
    ensures some { IfSome result (λ bytes. bytes_at N input.old.now ≡ Ok (bytes, input.new.now)) }
    ensures none { IfNone result ((bytes_at N input.old.now ≡ Err End) × (input.new.now ≡ input.old.now)) }
{
    let all: &[u8] = *input;
    let (bytes, rest) = all.split_first_chunk::<N>()?;
    *input = rest;
    Some(*bytes)
}

/// Reads so many bytes as they are.
pub fn read_bytes<const N: usize>(input: &mut &[u8]) -> Result<[u8; N], CodecError>
    ensures gives { Gives (bytes_at N) input.old.now input.new.now result }
    ensures without_memory { ¬ IsErrOf result CodecError.Memory }
{
    take_bytes(input).ok_or(CodecError::End)
}
