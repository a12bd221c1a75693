//! Numbers in groups of seven bits, the least significant group first, in the shortest form.

ghost use Rattle.std.specs.Prelude.{◌≡◌, ◌↔◌, ◌++◌, ◌≤◌, ℕ, List, length, IfOk, IsErrOf, OnOk, OnErr, take, vec_len};
ghost use Rattle.types_codec.specs.Codec.{Gives, MatchesReading};
ghost use Rattle.types_codec.specs.Varint.{IsVarint, varint_at, varint, max_u32, max_u64};

use crate::codec::CodecError;
use std::alloc::AllocError;

/// The greatest number of two bytes.
const MOST_OF_TWO: u64 = 16_383;

/// The greatest number of three bytes.
const MOST_OF_THREE: u64 = 2_097_151;

/// The number at the front, up to `most`, and the bytes behind it.
/// Numbers of up to three bytes are taken at once, since most are so short.
#[tactic(auto, using(crate::proofs::ShortVarints::short_varints))]
pub(crate) fn varint_of(most: u64, bytes: &[u8]) -> Result<(u64, &[u8]), CodecError>
    ensures exact { MatchesReading (λ x. (x.0, x.1.now)) result (varint_at most bytes.now) }
    ensures within { IfOk result (λ x. x.0 ≤ most) }
    ensures without_memory { ¬ IsErrOf result CodecError.Memory }
{
    match bytes {
        [a, rest @ ..] if *a < 128 && u64::from(*a) <= most => Ok((u64::from(*a), rest)),
        [a, b, rest @ ..] if *a >= 128 && *b < 128 && *b > 0 && most >= MOST_OF_TWO => {
            Ok((u64::from(*a) - 128 + 128 * u64::from(*b), rest))
        }
        [a, b, c, rest @ ..]
            if *a >= 128 && *b >= 128 && *c < 128 && *c > 0 && most >= MOST_OF_THREE => {
            let high = u64::from(*b) - 128 + 128 * u64::from(*c);
            Ok((u64::from(*a) - 128 + 128 * high, rest))
        }
        _ => long_varint_of(most, bytes),
    }
}

/// The same for numbers of any length, byte by byte.
#[tactic(auto, unfolding(crate::specs::Varint::varint_at))]
fn long_varint_of(most: u64, bytes: &[u8]) -> Result<(u64, &[u8]), CodecError>
    ensures exact { MatchesReading (λ x. (x.0, x.1.now)) result (varint_at most bytes.now) }
    ensures within { IfOk result (λ x. x.0 ≤ most) }
    ensures without_memory { ¬ IsErrOf result CodecError.Memory }
{
    match bytes {
        [] => Err(CodecError::End),
        [first, rest @ ..] => {
            let first = *first as u64;
            if first < 128 {
                if most < first {
                    return Err(CodecError::Invalid);
                }
                return Ok((first, rest));
            }
            if most < 128 {
                return Err(CodecError::Invalid);
            }
            let low = first - 128;
            let (high, rest) = long_varint_of((most - low) / 128, rest)?;
            if high == 0 {
                return Err(CodecError::Invalid);
            }
            Ok((low + 128 * high, rest))
        }
    }
}

/// Reads a number of 64 bits.
pub fn read_u64(input: &mut &[u8]) -> Result<u64, CodecError>
    ensures gives { Gives (varint_at max_u64) input.old.now input.new.now result }
    ensures without_memory { ¬ IsErrOf result CodecError.Memory }
{
    let (number, rest) = varint_of(u64::MAX, input)?;
    *input = rest;
    Ok(number)
}

/// Reads a number of 32 bits.
pub fn read_u32(input: &mut &[u8]) -> Result<u32, CodecError>
    ensures gives { Gives (varint_at max_u32) input.old.now input.new.now result }
    ensures without_memory { ¬ IsErrOf result CodecError.Memory }
{
    let (number, rest) = varint_of(u64::from(u32::MAX), input)?;
    *input = rest;
    Ok(number as u32)
}

/// Appends the number's spelling, or an unknown part of it.
#[tactic(auto, using(crate::specs::Varint::varint_steps))]
pub fn put_varint(out: &mut Vec<u8>, number: u64) -> Result<(), AllocError>
    ensures ok { OnOk result (out.new.items ≡ out.old.items ++ varint number) }
    ensures err { OnErr result (take (vec_len out.old) out.new.items ≡ out.old.items) }
{
    let mut rest = number;
    while rest >= 128 {
        out.push((rest % 128) as u8 + 128)?;
        rest /= 128;
    }
    out.push(rest as u8)?;
    Ok(())
}

/// How many bytes the number's spelling has.
pub fn varint_size(number: u64) -> usize
    ensures size { result ≡ length (varint number) }
    ensures small { result ≤ 10 }
{
    let mut rest = number;
    let mut size = 1;
    while rest >= 128 {
        rest /= 128;
        size += 1;
    }
    size
}

/// How many bytes the spelling of a number of 32 bits has.
pub fn u32_size(number: u32) -> usize
    ensures size { result ≡ length (varint number) }
    ensures small { result ≤ 5 }
{
    varint_size(u64::from(number))
}

/// The law of numbers as bytes: a number has exactly one spelling.
pub fn numbers_have_one_spelling()
    ensures { (n : ℕ) (bytes : List ℕ) → IsVarint n bytes ↔ (bytes ≡ varint n) }
{}
