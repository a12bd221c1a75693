//! Calls of what a member is set up with, starts from and asks for, and of reasons to give a handoff up.

use crate::reading::{abandoned, last_floor};
use simplex_resolver::{Ask, Kind, Until};
use simplex_types::PlainScheme;
use test_words::{Committee, Say, Trouble, Words};
use types_core::{Sha256Digest, ViewDelta};
use voter_rules::check_floor;
use voter_rules::config::{
    Config, ForwardPolicy, RepairPolicy, SkipBudget, SkipPolicy, check_config,
};

/// How many members the committees have whose certificates are read.
const MEMBERS: u32 = 4;

/// Makes the call of this name.
pub fn ask(name: &str, words: &mut Words<'_>, say: &mut Say) -> Result<(), Trouble> {
    match name {
        "check_config" => check(words, say),
        "check_floor" => check_start(words, say),
        "budget" => {
            let budget = budget(words)?;
            say.number(budget.resolve(last_index(words)?))
        }
        "skip" => {
            let policy = skip(words)?;
            say.number(policy.budget(last_index(words)?))
        }
        "forward" => say.truth(last_forward(words)?.is_enabled()),
        "floor" => {
            let floor = last_floor::<PlainScheme>(say.alloc, words, MEMBERS)?;
            say.view(floor.view())
        }
        "ask" => tell(last_ask(words)?, say),
        "same" => {
            let one = abandoned(words)?;
            let other = abandoned(words)?;
            words.end()?;
            say.truth(one == other)
        }
        _ => Err(Trouble::Unreadable),
    }
}

/// How many participants, which ends the line.
fn last_index(words: &mut Words<'_>) -> Result<u32, Trouble> {
    let index = words.index()?;
    words.end()?;
    Ok(index)
}

/// `BUDGET`: how many, or `-` for as many as there are participants.
fn budget(words: &mut Words<'_>) -> Result<SkipBudget, Trouble> {
    match words.optional()? {
        Some(budget) => Ok(SkipBudget::Fixed(budget)),
        None => Ok(SkipBudget::Participants),
    }
}

/// `SKIP BUDGET`: the timeout, or `-` where nothing is skipped.
fn skip(words: &mut Words<'_>) -> Result<SkipPolicy, Trouble> {
    let timeout = words.optional()?;
    let budget = budget(words)?;
    match timeout {
        Some(timeout) => Ok(SkipPolicy::Enabled { timeout, budget }),
        None => Ok(SkipPolicy::Disabled),
    }
}

/// `FORWARD`: the variant's name.
fn forward(words: &mut Words<'_>) -> Result<ForwardPolicy, Trouble> {
    match words.word() {
        "Disabled" => Ok(ForwardPolicy::Disabled),
        "SilentVoters" => Ok(ForwardPolicy::SilentVoters),
        "SilentLeader" => Ok(ForwardPolicy::SilentLeader),
        _ => Err(Trouble::Unreadable),
    }
}

/// The same, which ends the line.
fn last_forward(words: &mut Words<'_>) -> Result<ForwardPolicy, Trouble> {
    let policy = forward(words)?;
    words.end()?;
    Ok(policy)
}

/// `EPOCH K LEADER CERTIFICATION RETRY RETENTION SKIP BUDGET FORWARD TRACK`.
fn config(words: &mut Words<'_>) -> Result<Config<Sha256Digest>, Trouble> {
    let epoch = words.epoch()?;
    let floor = words.payload()?;
    let leader_timeout = words.number()?;
    let certification_timeout = words.number()?;
    let timeout_retry = words.number()?;
    let view_retention = ViewDelta::new(words.number()?);
    let skip = skip(words)?;
    let forward = forward(words)?;
    let track_historical_votes = words.truth()?;
    Ok(Config {
        epoch,
        floor,
        leader_timeout,
        certification_timeout,
        timeout_retry,
        view_retention,
        skip,
        forward,
        repair: RepairPolicy::once(),
        track_historical_votes,
    })
}

/// Says the fault of a configuration in a committee of so many.
fn check(words: &mut Words<'_>, say: &mut Say) -> Result<(), Trouble> {
    let participants = words.index()?;
    let config = config(words)?;
    words.end()?;
    match check_config(&config, participants) {
        Ok(()) => say.ok(),
        Err(fault) => tell_fault(fault.number(), say),
    }
}

/// Says the number of a fault.
fn tell_fault(number: u8, say: &mut Say) -> Result<(), Trouble> {
    say.text("fault ")?;
    say.number(u64::from(number))
}

/// `N EPOCH LENGTH FLOOR`: says the fault of a floor in a committee of so many, of this epoch, in terms of so many views.
fn check_start(words: &mut Words<'_>, say: &mut Say) -> Result<(), Trouble> {
    let participants = words.index()?;
    let epoch = words.epoch()?;
    let length = words.term_length()?;
    let scheme = PlainScheme::member_of(say.alloc, participants, None, 0)?;
    let floor = last_floor::<PlainScheme>(say.alloc, words, participants)?;
    match check_floor(&floor, epoch, &scheme, length) {
        Ok(()) => say.ok(),
        Err(fault) => tell_fault(fault.number(), say),
    }
}

/// `backfill`, or `ancestry KIND`, which ends the line.
fn last_ask(words: &mut Words<'_>) -> Result<Ask, Trouble> {
    let ask = match words.word() {
        "backfill" => Ask::backfill(),
        "ancestry" => Ask::ancestry(certificate_kind(words.word())?),
        _ => return Err(Trouble::Unreadable),
    };
    words.end()?;
    Ok(ask)
}

/// A kind of certificate that is asked for.
fn certificate_kind(word: &str) -> Result<Kind, Trouble> {
    match word {
        "nullification" => Ok(Kind::Nullification),
        "notarization" => Ok(Kind::Notarization),
        _ => Err(Trouble::Unreadable),
    }
}

/// Says what is asked for, and until when.
fn tell(ask: Ask, say: &mut Say) -> Result<(), Trouble> {
    say.text(ask.kind.as_str())?;
    match ask.until {
        Until::Floor => say.text(" Floor"),
        Until::Finalization => say.text(" Finalization"),
    }
}
