//! What is read of bytes, and what the value says of itself.

use std::alloc::Global;
use test_words::{Say, Trouble, Words};
use types_core::{Attributable, CodecError, EncodeSize, Epochable, Read, Viewable, Write};

/// Says the value's spelling, how long it calls itself, and how many bytes are left behind it.
fn say_read<T: EncodeSize>(value: &T, left: usize, say: &mut Say) -> Result<(), Trouble> {
    say.value(value)?;
    say.gap()?;
    say.number(value.encode_size() as u64)?;
    say.gap()?;
    say.number(left as u64)
}

/// Says why nothing was read, and how many bytes are left.
fn say_refused(error: CodecError, left: usize, say: &mut Say) -> Result<(), Trouble> {
    say.fault(error)?;
    say.gap()?;
    say.number(left as u64)
}

/// `BOUND BYTES`: what stands at the front, spelled again, its size and how many bytes are left behind it;
/// or why nothing does, and how many bytes are left then.
pub fn read<T: Read + EncodeSize + Drop>(
    words: &mut Words<'_>,
    say: &mut Say,
) -> Result<(), Trouble> {
    let bound = words.index()?;
    let bytes = words.bytes(say.alloc)?;
    let mut input = bytes.as_slice();
    match T::read_cfg(say.alloc, &mut input, bound) {
        Ok(value) => say_read(&value, input.len(), say),
        Err(error) => say_refused(error, input.len(), say),
    }
}

/// The letter of what stands at the front of the bytes.
fn letter<T: Read + Drop>(
    alloc: Global,
    bytes: &[u8],
    bound: u32,
) -> Result<&'static str, Trouble> {
    let mut input = bytes;
    match T::read_cfg(alloc, &mut input, bound) {
        Ok(_) => Ok("v"),
        Err(CodecError::End) => Ok("e"),
        Err(CodecError::Invalid) => Ok("i"),
        Err(CodecError::TooLong) => Ok("t"),
        Err(CodecError::Memory) => Err(Trouble::Memory),
    }
}

/// `BOUND BYTES`: for each cut of the bytes, from none of them to all, a letter that says what stands at
/// its front: a value, or its end, something invalid, or a count too long.
pub fn cuts<T: Read + Drop>(words: &mut Words<'_>, say: &mut Say) -> Result<(), Trouble> {
    let bound = words.index()?;
    let bytes = words.bytes(say.alloc)?;
    for length in 0..=bytes.len() {
        let letter = letter::<T>(say.alloc, &bytes[..length], bound)?;
        say.text(letter)?;
    }
    Ok(())
}

/// Whether a value stands at the front of the bytes, and is spelled so again.
fn stands<T: Read + Drop>(alloc: Global, bytes: &[u8], bound: u32) -> Result<bool, Trouble> {
    let mut input = bytes;
    match T::read_cfg(alloc, &mut input, bound) {
        Ok(value) => {
            let mut again = Vec::new(alloc);
            value.write(&mut again)?;
            Ok(bytes.starts_with(&again))
        }
        Err(CodecError::Memory) => Err(Trouble::Memory),
        Err(_) => Ok(false),
    }
}

/// Turns these bits of the byte at a place.
fn turn(bytes: &mut [u8], place: usize, bits: u8) {
    if let Some(byte) = bytes.get_mut(place) {
        *byte ^= bits;
    }
}

/// `BOUND BITS BYTES`: of the bytes that differ from these in one byte, how many begin with a value, which is
/// spelled so again. With `1` for BITS only those are counted that differ in one bit.
pub fn changes<T: Read + Drop>(words: &mut Words<'_>, say: &mut Say) -> Result<(), Trouble> {
    let bound = words.index()?;
    let is_one_bit = words.truth()?;
    let mut bytes = words.bytes(say.alloc)?;
    let mut standing: u64 = 0;
    for place in 0..bytes.len() {
        for change in 1..=255u8 {
            if is_one_bit && !change.is_power_of_two() {
                continue;
            }
            turn(&mut bytes, place, change);
            if stands::<T>(say.alloc, &bytes, bound)? {
                standing = standing.saturating_add(1);
            }
            turn(&mut bytes, place, change);
        }
    }
    say.number(standing)
}

/// `BYTES`: the epoch and the view that the value belongs to.
pub fn belongs<T: Read + Epochable + Viewable + Drop>(
    words: &mut Words<'_>,
    say: &mut Say,
) -> Result<(), Trouble> {
    let value: T = words.value(say.alloc, u32::MAX)?;
    say.number(value.epoch().get())?;
    say.gap()?;
    say.number(value.view().get())
}

/// `BYTES`: the member that signed the value.
pub fn signer<T: Read + Attributable + Drop>(
    words: &mut Words<'_>,
    say: &mut Say,
) -> Result<(), Trouble> {
    let value: T = words.value(say.alloc, u32::MAX)?;
    say.member(value.signer())
}
