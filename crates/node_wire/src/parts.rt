//! The parts that events and replies are spelled from.

ghost use Rattle.std.specs.Prelude.{◌≡◌, [], ◌∷◌, ◌++◌, take, vec_len, OnErr, OnOk};
ghost use Rattle.types_codec.specs.Codec.{Gives, GivesBy};
ghost use Rattle.node_wire.specs.Parts.{answer_at, answer_byte, channel_at, channel_byte, counted_at, counted_spelling, optional_at, optional_fits, optional_spelling};

use simplex_member::Channel;
use std::alloc::{AllocError, Global};
use types_codec::{CodecError, Read, Write, put_varint, read_u64};

/// Reads a channel.
#[tactic(auto, unfolding(crate::specs::Parts::channel_at))]
pub(crate) fn read_channel(input: &mut &[u8]) -> Result<Channel, CodecError>
    ensures { Gives channel_at input.old.now input.new.now result }
{
    let all: &[u8] = *input;
    match all {
        [] => Err(CodecError::End),
        [0, rest @ ..] => {
            *input = rest;
            Ok(Channel::Votes)
        }
        [1, rest @ ..] => {
            *input = rest;
            Ok(Channel::Certificates)
        }
        [2, rest @ ..] => {
            *input = rest;
            Ok(Channel::Fetches)
        }
        _ => Err(CodecError::Invalid),
    }
}

/// Reads an answer: no, yes, or none.
#[tactic(auto, unfolding(crate::specs::Parts::answer_at))]
pub(crate) fn read_answer(input: &mut &[u8]) -> Result<Option<bool>, CodecError>
    ensures { Gives answer_at input.old.now input.new.now result }
{
    let all: &[u8] = *input;
    match all {
        [] => Err(CodecError::End),
        [0, rest @ ..] => {
            *input = rest;
            Ok(Some(false))
        }
        [1, rest @ ..] => {
            *input = rest;
            Ok(Some(true))
        }
        [2, rest @ ..] => {
            *input = rest;
            Ok(None)
        }
        _ => Err(CodecError::Invalid),
    }
}

/// Reads a value, or none.
#[tactic(auto, unfolding(crate::specs::Parts::optional_at))]
pub(crate) fn read_optional<T: Read>(
    alloc: Global,
    input: &mut &[u8],
    bound: u32,
) -> Result<Option<T>, CodecError>
    ensures { Gives (optional_at (T.reading bound)) input.old.now input.new.now result }
{
    let all: &[u8] = *input;
    match all {
        [] => Err(CodecError::End),
        [0, rest @ ..] => {
            *input = rest;
            Ok(None)
        }
        [1, rest @ ..] => {
            let mut rest = rest;
            let value = T::read_cfg(alloc, &mut rest, bound)?;
            *input = rest;
            Ok(Some(value))
        }
        _ => Err(CodecError::Invalid),
    }
}

/// Reads bytes behind their count, which is at most so much.
#[tactic(auto, unfolding(crate::specs::Parts::counted_at))]
pub(crate) fn read_counted(
    alloc: Global,
    input: &mut &[u8],
    most: u64,
) -> Result<Vec<u8>, CodecError>
    ensures { GivesBy (λ v. v.items) (counted_at most) input.old.now input.new.now result }
{
    let mut rest = *input;
    let count = read_u64(&mut rest)?;
    if most < count {
        return Err(CodecError::TooLong);
    }
    if (rest.len() as u64) < count {
        return Err(CodecError::End);
    }
    let (bytes, behind) = rest.split_at(count as usize);
    let bytes = Vec::from_slice(alloc, bytes)?;
    *input = behind;
    Ok(bytes)
}

/// The byte of a channel.
pub(crate) const fn byte_of(channel: Channel) -> u8
    ensures { result ≡ channel_byte channel }
{
    match channel {
        Channel::Votes => 0,
        Channel::Certificates => 1,
        Channel::Fetches => 2,
    }
}

/// Appends a value, or none.
pub(crate) fn put_optional<T: Write>(out: &mut Vec<u8>, value: &Option<T>) -> Result<(), AllocError>
    ensures ok { OnOk result (out.new.items ≡ out.old.items ++ optional_spelling T.spelling value.now) }
    ensures readable { OnOk result (optional_fits T.fits value.now) }
    ensures err { OnErr result (take (vec_len out.old) out.new.items ≡ out.old.items) }
{
    match value {
        None => out.push(0)?,
        Some(value) => {
            out.push(1)?;
            value.append(out)?;
        }
    }
    Ok(())
}

/// Appends bytes behind their count.
pub(crate) fn put_counted(out: &mut Vec<u8>, bytes: &[u8]) -> Result<(), AllocError>
    ensures ok { OnOk result (out.new.items ≡ out.old.items ++ counted_spelling bytes.now) }
    ensures err { OnErr result (take (vec_len out.old) out.new.items ≡ out.old.items) }
{
    put_varint(out, bytes.len() as u64)?;
    out.extend_from_slice(bytes)
}

/// Appends what a packet is and holds, behind to or from whom it goes.
pub(crate) fn put_packet(
    out: &mut Vec<u8>,
    channel: Channel,
    bytes: &[u8],
) -> Result<(), AllocError>
    ensures ok { OnOk result (out.new.items ≡ out.old.items ++ ((channel_byte channel ∷ []) ++ counted_spelling bytes.now)) }
    ensures err { OnErr result (take (vec_len out.old) out.new.items ≡ out.old.items) }
{
    out.push(byte_of(channel))?;
    put_counted(out, bytes)
}

/// Appends an answer.
pub(crate) fn put_answer(out: &mut Vec<u8>, answer: Option<bool>) -> Result<(), AllocError>
    ensures ok { OnOk result (out.new.items ≡ out.old.items ++ answer_byte answer ∷ []) }
    ensures err { OnErr result (out.new.items ≡ out.old.items) }
{
    let byte = match answer {
        Some(false) => 0,
        Some(true) => 1,
        None => 2,
    };
    out.push(byte)?;
    Ok(())
}
