//! Events as bytes.

ghost use Rattle.std.specs.Prelude.{◌≡◌, ◌++◌, take, vec_len, IfOk, OnErr, OnOk};
ghost use Rattle.types_codec.specs.Codec.{GivesBy, as_at, both_at};
ghost use Rattle.types_codec.specs.Truth.{truth_at};
ghost use Rattle.types_codec.specs.Varint.{varint_at, max_u32, max_u64};
ghost use Rattle.node_wire.specs.Event.{built_of, checked_of, IsEvent, event_at, event_behind, event_fits, event_spelling, event_value, most_bytes, packet_of, verdict_of};
ghost use Rattle.node_wire.specs.Parts.{answer_at, channel_at, counted_at, optional_at};

use crate::parts::{
    put_answer, put_optional, put_packet, read_answer, read_channel, read_counted, read_optional,
};
use simplex_member::Event;
use std::alloc::{AllocError, Global};
use types_codec::{CodecError, Read, Write, put_varint, read_u64};
use types_core::{Digest, Participant, View};

/// The most bytes of a packet in an event.
const MOST_BYTES: u64 = 16_777_216;

/// Reads the event at the front, and leaves the slice behind it. `bound` is the committee's size.
/// After any refusal the slice stands where it stood.
///
/// # Errors
///
/// The first trouble from the left.
pub fn read_event<D: Digest>(
    alloc: Global,
    input: &mut &[u8],
    bound: u32,
) -> Result<Event<D>, CodecError>
    ensures spelled { IfOk result
        (λ e. (input.old.now ≡ event_spelling D.spelling (event_value e) ++ input.new.now) × IsEvent D.fits (event_value e)) }
    ensures exact { GivesBy event_value (event_at (D.reading bound)) input.old.now input.new.now result }
{
    read_tagged(alloc, input, bound)
}

/// Reads the tag, and what stands behind it.
#[tactic(auto, unfolding(crate::specs::Event::event_at))]
fn read_tagged<D: Digest>(
    alloc: Global,
    input: &mut &[u8],
    bound: u32,
) -> Result<Event<D>, CodecError>
    ensures { GivesBy event_value (event_at (D.reading bound)) input.old.now input.new.now result }
{
    let all: &[u8] = *input;
    let [tag, rest @ ..] = all else {
        return Err(CodecError::End);
    };
    let mut rest = rest;
    let event = read_behind(*tag, alloc, &mut rest, bound)?;
    *input = rest;
    Ok(event)
}

/// Reads what stands behind the tag.
#[tactic(auto, unfolding(crate::specs::Event::event_behind))]
fn read_behind<D: Digest>(
    tag: u8,
    alloc: Global,
    input: &mut &[u8],
    bound: u32,
) -> Result<Event<D>, CodecError>
    ensures { GivesBy event_value (event_behind (D.reading bound) tag) input.old.now input.new.now result }
{
    match tag {
        0 => read_packet(alloc, input, bound),
        1 => read_built(alloc, input, bound),
        2 => read_checked(input),
        3 => read_verdict(alloc, input, bound),
        4 => Ok(Event::Moment(read_u64(input)?)),
        _ => Err(CodecError::Invalid),
    }
}

/// Reads what a packet is and holds.
fn read_packet<D: Digest>(
    alloc: Global,
    input: &mut &[u8],
    bound: u32,
) -> Result<Event<D>, CodecError>
    ensures { GivesBy event_value (as_at packet_of (both_at (both_at (varint_at max_u32) channel_at) (counted_at most_bytes))) input.old.now
        input.new.now result }
{
    let mut rest = *input;
    let sender = Participant::read_cfg(alloc, &mut rest, bound)?;
    let channel = read_channel(&mut rest)?;
    let bytes = read_counted(alloc, &mut rest, MOST_BYTES)?;
    *input = rest;
    Ok(Event::Packet {
        sender,
        channel,
        bytes,
    })
}

/// Reads what was built.
fn read_built<D: Digest>(
    alloc: Global,
    input: &mut &[u8],
    bound: u32,
) -> Result<Event<D>, CodecError>
    ensures { GivesBy event_value (as_at built_of (both_at (varint_at max_u64) (optional_at (D.reading bound)))) input.old.now input.new.now result }
{
    let mut rest = *input;
    let number = read_u64(&mut rest)?;
    let payload = read_optional(alloc, &mut rest, bound)?;
    *input = rest;
    Ok(Event::Built { number, payload })
}

/// Reads what came of a check.
fn read_checked<D: Digest>(input: &mut &[u8]) -> Result<Event<D>, CodecError>
    ensures { GivesBy event_value (as_at checked_of (both_at (varint_at max_u64) answer_at)) input.old.now input.new.now result }
{
    let mut rest = *input;
    let number = read_u64(&mut rest)?;
    let answer = read_answer(&mut rest)?;
    *input = rest;
    Ok(Event::Checked { number, answer })
}

/// Reads a verdict.
fn read_verdict<D: Digest>(
    alloc: Global,
    input: &mut &[u8],
    bound: u32,
) -> Result<Event<D>, CodecError>
    ensures { GivesBy event_value (as_at verdict_of (both_at (varint_at max_u64) truth_at)) input.old.now input.new.now result }
{
    let mut rest = *input;
    let view = View::read_cfg(alloc, &mut rest, bound)?;
    let ok = bool::read_cfg(alloc, &mut rest, bound)?;
    *input = rest;
    Ok(Event::Verdict { view, ok })
}

/// Appends the event's spelling. Where memory is refused, the vector is as it was. An event whose packet is longer than one
/// in an event may be is written too, and not read again.
///
/// # Errors
///
/// `AllocError` where memory ran out.
pub fn write_event<D: Digest>(out: &mut Vec<u8>, event: &Event<D>) -> Result<(), AllocError>
    ensures ok { OnOk result (out.new.items ≡ out.old.items ++ event_spelling D.spelling (event_value event.now)) }
    ensures readable { OnOk result (event_fits D.fits (event_value event.now)) }
    ensures err { OnErr result (out.new.items ≡ out.old.items) }
{
    let start = out.len();
    let written = put_event(out, event);
    if written.is_err() {
        out.truncate(start);
    }
    written
}

/// Appends the event's spelling, or an unknown part of it.
#[tactic(auto, unfolding(crate::specs::Event::event_spelling, crate::specs::Event::event_fits))]
fn put_event<D: Digest>(out: &mut Vec<u8>, event: &Event<D>) -> Result<(), AllocError>
    ensures ok { OnOk result (out.new.items ≡ out.old.items ++ event_spelling D.spelling (event_value event.now)) }
    ensures readable { OnOk result (event_fits D.fits (event_value event.now)) }
    ensures err { OnErr result (take (vec_len out.old) out.new.items ≡ out.old.items) }
{
    match event {
        Event::Packet {
            sender,
            channel,
            bytes,
        } => {
            out.push(0)?;
            sender.append(out)?;
            put_packet(out, *channel, bytes)
        }
        Event::Built { number, payload } => {
            out.push(1)?;
            put_varint(out, *number)?;
            put_optional(out, payload)
        }
        Event::Checked { number, answer } => {
            out.push(2)?;
            put_varint(out, *number)?;
            put_answer(out, *answer)
        }
        Event::Verdict { view, ok } => {
            out.push(3)?;
            view.append(out)?;
            ok.append(out)
        }
        Event::Moment(now) => {
            out.push(4)?;
            put_varint(out, *now)
        }
    }
}
