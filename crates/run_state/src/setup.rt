//! How a voter of a script is set up.

use crate::turns::Turns;
use crate::voter::Voter;
use simplex_types::PlainScheme;
use std::alloc::Global;
use std::rc::Rc;
use test_words::{Committee, Trouble, Words};
use types_core::{Epoch, Participant, Scheme, Sha256Digest, ViewDelta};
use types_terms::Terms;
use types_terms::elector::Mode;
use voter_rules::config::{Config, ForwardPolicy, RepairPolicy, SkipBudget, SkipPolicy};

/// How a voter is set up: `N ME EPOCH L K STALL RETENTION LEADER CERTIFICATION RETRY BUDGET HANDOFF`. ME is `-` for a voter
/// without a key, STALL for terms of one view without optimism that never stall. HANDOFF is 1: builds are handed off, and no
/// voter goes without.
#[derive(Drop)]
pub struct Setup {
    /// How many members the committee has.
    pub participants: u32,
    /// The member whose voter it is.
    pub me: Option<Participant>,
    /// How long terms are, and what they allow.
    pub terms: Terms,
    /// How that voter is set up. What it starts on, and when leaders count as inactive, it doesn't ask of that.
    pub config: Config<Sha256Digest>,
}

/// `L K STALL`.
fn terms(words: &mut Words<'_>) -> Result<Terms, Trouble> {
    let length = words.term_length()?;
    let optimistic_views = ViewDelta::new(words.number()?);
    match words.optional()? {
        Some(0) => Err(Trouble::Condition),
        Some(stall) => Ok(Terms::stable(length, stall, optimistic_views)),
        None if length.get() == 1 && optimistic_views.is_zero() => Ok(Terms::rotating()),
        None => Err(Trouble::Unreadable),
    }
}

/// `RETENTION LEADER CERTIFICATION RETRY BUDGET HANDOFF`, in this epoch.
fn config(words: &mut Words<'_>, epoch: Epoch) -> Result<Config<Sha256Digest>, Trouble> {
    let view_retention = ViewDelta::new(words.number()?);
    let leader_timeout = words.number()?;
    let certification_timeout = words.number()?;
    let timeout_retry = words.number()?;
    let budget = SkipBudget::Fixed(words.number()?);
    if !words.truth()? {
        return Err(Trouble::Condition);
    }
    Ok(Config {
        epoch,
        floor: Sha256Digest::new([0; 32]),
        leader_timeout,
        certification_timeout,
        timeout_retry,
        view_retention,
        skip: SkipPolicy::Enabled {
            timeout: u64::MAX,
            budget,
        },
        forward: ForwardPolicy::Disabled,
        repair: RepairPolicy::once(),
        track_historical_votes: false,
    })
}

impl Setup {
    /// The words of a setup, up to who leads.
    fn read(words: &mut Words<'_>) -> Result<Self, Trouble> {
        let participants = words.index()?;
        let me = words.optional_member()?;
        let epoch = words.epoch()?;
        let terms = terms(words)?;
        let config = config(words, epoch)?;
        Ok(Setup {
            participants,
            me,
            terms,
            config,
        })
    }
}

/// What decides who leads, and in which order, to the line's end: nothing more for a schedule by ascending index, `shuffled
/// SEED` for one in the order of a seed, `dynamic` where certificates matter.
fn leading<'a>(words: &mut Words<'a>) -> Result<(Mode, Option<&'a str>), Trouble> {
    let leading = match words.word() {
        "" => (Mode::Scheduled, None),
        "shuffled" => (Mode::Scheduled, Some(words.word())),
        "dynamic" => (Mode::Dynamic, None),
        _ => return Err(Trouble::Unreadable),
    };
    words.end()?;
    Ok(leading)
}

/// The voter that these words set up.
pub fn found(alloc: Global, words: &mut Words<'_>) -> Result<Voter<PlainScheme, Turns>, Trouble> {
    let setup = Setup::read(words)?;
    let (mode, seed) = leading(words)?;
    let scheme = PlainScheme::member_of(alloc, setup.participants, setup.me, 0)?;
    let participants = Scheme::<Sha256Digest>::participants(&scheme);
    let turns = Turns::new(alloc, mode, seed, setup.terms, participants)?;
    Ok(Voter::new(alloc, &setup, Rc::new(alloc, scheme)?, turns)?)
}
