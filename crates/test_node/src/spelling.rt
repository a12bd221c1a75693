//! Events and replies as the words of a line.

use node_wire::{read_event, write_reply};
use simplex_member::{Action, Event, Reply};
use std::alloc::Global;
use test_words::{Committee, Say, Trouble};
use types_core::{CodecError, Sha256Digest};

/// Says the bytes that spell a reply.
pub(crate) fn say_reply<S: Committee>(
    reply: &Reply<S, Sha256Digest>,
    say: &mut Say,
) -> Result<(), Trouble> {
    let mut bytes = Vec::new(say.alloc);
    write_reply(&mut bytes, reply)?;
    say.bytes(&bytes)
}

/// Says actions as a reply.
pub(crate) fn say_actions<S: Committee>(
    actions: Vec<Action<S, Sha256Digest>>,
    say: &mut Say,
) -> Result<(), Trouble> {
    let reply = Reply {
        refused: None,
        actions,
    };
    say_reply(&reply, say)
}

/// The event that the bytes spell, none of them left, in a committee of so many.
pub(crate) fn event_of(
    alloc: Global,
    bytes: &[u8],
    members: u32,
) -> Result<Event<Sha256Digest>, Trouble> {
    let mut rest = bytes;
    let event = next_event(alloc, &mut rest, members)?;
    if rest.is_empty() {
        Ok(event)
    } else {
        Err(Trouble::Unreadable)
    }
}

/// The events that the bytes spell, one behind the other.
pub(crate) fn events_of(
    alloc: Global,
    bytes: &[u8],
    members: u32,
) -> Result<Vec<Event<Sha256Digest>>, Trouble> {
    let mut rest = bytes;
    let mut events = Vec::new(alloc);
    for _ in 0..u64::MAX {
        if rest.is_empty() {
            break;
        }
        events.push(next_event(alloc, &mut rest, members)?)?;
    }
    Ok(events)
}

/// The event at the front.
fn next_event(
    alloc: Global,
    rest: &mut &[u8],
    members: u32,
) -> Result<Event<Sha256Digest>, Trouble> {
    match read_event(alloc, rest, members) {
        Ok(event) => Ok(event),
        Err(CodecError::Memory) => Err(Trouble::Memory),
        Err(_) => Err(Trouble::Unreadable),
    }
}
