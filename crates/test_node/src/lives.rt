//! Several openings of one disk as the words of a line.

use crate::faults::{say_fault, say_open_fault};
use crate::seat::{Life, Told};
use crate::setup::Setup;
use crate::spelling::{events_of, say_actions, say_reply};
use simplex_member::{Action, Event, NodeFault, OpenFault, Reply};
use std::alloc::Global;
use test_words::{Committee, Say, Trouble, Words};
use types_core::{Duplicate, Sha256Digest};
use voter_rules::Floor;
use voter_rules::config::Config;

/// `NOW EVENTS NOW EVENTS ..`, to the line's end.
pub(crate) fn read_lives<S: Committee>(
    setup: &Setup,
    floor: &Floor<S, Sha256Digest>,
    words: &mut Words<'_>,
    alloc: Global,
) -> Result<Vec<Life<Config<Floor<S, Sha256Digest>>, S, Event<Sha256Digest>>>, Trouble> {
    let mut lives = Vec::new(alloc);
    for _ in 0..u64::MAX {
        if !words.more() {
            break;
        }
        lives.push(read_life(setup, floor, words, alloc)?)?;
    }
    Ok(lives)
}

/// `NOW EVENTS`.
fn read_life<S: Committee>(
    setup: &Setup,
    floor: &Floor<S, Sha256Digest>,
    words: &mut Words<'_>,
    alloc: Global,
) -> Result<Life<Config<Floor<S, Sha256Digest>>, S, Event<Sha256Digest>>, Trouble> {
    let now = words.number()?;
    let events = read_events(setup, words, alloc)?;
    let scheme = setup.scheme(alloc)?;
    let config = setup.config(floor.duplicate(alloc)?);
    Ok(Life {
        config,
        scheme,
        now,
        events,
    })
}

/// `EVENTS`.
fn read_events(
    setup: &Setup,
    words: &mut Words<'_>,
    alloc: Global,
) -> Result<Vec<Event<Sha256Digest>>, Trouble> {
    let bytes = words.bytes(alloc)?;
    events_of(alloc, &bytes, setup.members)
}

/// What an opening answered, behind what those before it did.
pub(crate) fn say_life<S: Committee>(
    life: Result<Told<Action<S, Sha256Digest>, Reply<S, Sha256Digest>>, OpenFault>,
    say: &mut Say,
) -> Result<(), Trouble> {
    if !say.line().is_empty() {
        say.text(" , ")?;
    }
    match life {
        Ok(told) => say_told(told, say),
        Err(fault) => say_open_fault(fault, say),
    }
}

/// The first actions as a reply, the replies behind it, and behind a blank the fault that ended them early.
fn say_told<S: Committee>(
    told: Told<Action<S, Sha256Digest>, Reply<S, Sha256Digest>>,
    say: &mut Say,
) -> Result<(), Trouble> {
    say_actions(told.first, say)?;
    for reply in &told.replies {
        say_reply(reply, say)?;
    }
    say_end(told.fault, say)
}

/// The fault behind a blank, if there is one.
fn say_end(fault: Option<NodeFault>, say: &mut Say) -> Result<(), Trouble> {
    match fault {
        Some(fault) => {
            say.gap()?;
            say_fault(fault, say)
        }
        None => Ok(()),
    }
}
