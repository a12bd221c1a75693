//! Who leads.

use crate::by_count::ByCount;
use crate::bytes::bytes_of;
use simplex_types::{AttestationList, PlainScheme, PlainSignature};
use std::alloc::Global;
use test_words::{Say, Trouble, Words};
use types_core::{
    Digest, Duplicate, Epoch, Round, Scheme, Sha256Digest, View, ViewDelta, decode_cfg,
};
use types_terms::elector::{Config, Elector, Mode};
use types_terms::{
    Kind, RoundRobin, Terms, a_seed_makes_one_order, a_term_has_one_leader,
    each_participant_leads_once,
};

/// `elector ASKED ..`.
pub(crate) fn ask(words: &mut Words<'_>, say: &mut Say) -> Result<(), Trouble> {
    let asked = words.word();
    if asked == "by_count" {
        return by_count(words, say);
    }
    let mut rotation = rotation(words, say.alloc)?;
    if asked == "copies_lead" {
        rotation = rotation.duplicate(say.alloc)?;
    }
    ask_built::<PlainScheme, Sha256Digest, RoundRobin>(asked, &rotation, words, say)
}

/// `ascending`, or `shuffled HEX`.
fn order(words: &mut Words<'_>, alloc: Global) -> Result<RoundRobin, Trouble> {
    match words.word() {
        "ascending" => Ok(RoundRobin::default()),
        "shuffled" => {
            let seed = bytes_of(words, alloc)?;
            Ok(RoundRobin::shuffled(alloc, &seed)?)
        }
        _ => Err(Trouble::Unreadable),
    }
}

/// `ORDER TERMS`.
fn rotation(words: &mut Words<'_>, alloc: Global) -> Result<RoundRobin, Trouble> {
    let order = order(words, alloc)?;
    match words.word() {
        "rotating" => Ok(order),
        "stable" => {
            let length = words.term_length()?;
            let stall_timeout = words.number()?;
            let views = ViewDelta::new(words.number()?);
            if stall_timeout == 0 {
                return Err(Trouble::Condition);
            }
            Ok(order.with_term(length, stall_timeout, views))
        }
        _ => Err(Trouble::Unreadable),
    }
}

/// `EPOCH VIEW COUNT`: so many views from this one on.
#[derive(Clone, Copy)]
struct Views {
    first: Round,
    count: u32,
}

impl Views {
    /// The same, and no views where terms are asked for.
    fn read(asked: &str, words: &mut Words<'_>) -> Result<Self, Trouble> {
        if asked == "sets" {
            return Ok(Views {
                first: Round::new(Epoch::zero(), View::zero()),
                count: 0,
            });
        }
        let first = words.round()?;
        let count = words.index()?;
        Ok(Views { first, count })
    }
}

/// `MEMBERS`, and `EPOCH VIEW COUNT` but where terms are asked for: what is built answers, or a duplicate of it.
fn ask_built<S: Scheme<D>, D: Digest, C: Config<S, D>>(
    asked: &str,
    config: &C,
    words: &mut Words<'_>,
    say: &mut Say,
) -> Result<(), Trouble> {
    let members = words.index()?;
    let views = Views::read(asked, words)?;
    words.end()?;
    if members == 0 {
        return Err(Trouble::Condition);
    }
    let elector = config.build(say.alloc, members)?;
    match asked {
        "leads" => say_leaders::<S, D, C::Elector>(&elector, &views, say),
        "copies_lead" => {
            let copy = elector.duplicate(say.alloc)?;
            say_leaders::<S, D, C::Elector>(&copy, &views, say)
        }
        "sets" => say_set::<S, D, C::Elector>(&elector, say),
        _ => Err(Trouble::Unreadable),
    }
}

/// Who leads the views, if that rests on no certificate.
fn say_leaders<'a, S: Scheme<D>, D: Digest, E: Elector<S, D>>(
    elector: &'a E,
    views: &Views,
    say: &mut Say,
) -> Result<(), Trouble>
where
    S::Certificate: 'a,
{
    let none: Option<&'a S::Certificate> = None;
    if !matches!(elector.mode(), Mode::Scheduled) {
        return Err(Trouble::Condition);
    }
    let mut leaders = Vec::new(say.alloc);
    for later in 0..views.count {
        let Some(number) = views.first.view.get().checked_add(u64::from(later)) else {
            return Err(Trouble::Unreadable);
        };
        let round = Round::new(views.first.epoch, View::new(number));
        leaders.push(elector.elect(round, none))?;
    }
    say.members(&leaders)
}

/// The terms and the mode.
fn say_set<S: Scheme<D>, D: Digest, E: Elector<S, D>>(
    elector: &E,
    say: &mut Say,
) -> Result<(), Trouble> {
    say_terms(&elector.terms(), say)?;
    match elector.mode() {
        Mode::Scheduled => say.text(" scheduled"),
        Mode::Dynamic => say.text(" dynamic"),
    }
}

/// `LENGTH STALL VIEWS`.
fn say_terms(terms: &Terms, say: &mut Say) -> Result<(), Trouble> {
    say.number(u64::from(terms.length().get()))?;
    say.gap()?;
    say.optional(terms.stall_timeout())?;
    say.gap()?;
    say.number(terms.optimistic_views().get())
}

/// `terms default`, `terms rotating` or `terms stable LENGTH STALL VIEWS`.
pub(crate) fn terms(words: &mut Words<'_>, say: &mut Say) -> Result<(), Trouble> {
    let terms = match words.word() {
        "default" => Terms::default(),
        "rotating" => Terms::rotating(),
        "stable" => {
            let length = words.term_length()?;
            let stall_timeout = words.number()?;
            let views = ViewDelta::new(words.number()?);
            if stall_timeout == 0 {
                return Err(Trouble::Condition);
            }
            Terms::stable(length, stall_timeout, views)
        }
        _ => return Err(Trouble::Unreadable),
    };
    words.end()?;
    say_terms(&terms, say)
}

/// `elector by_count MEMBERS EPOCH VIEW HEX`.
fn by_count(words: &mut Words<'_>, say: &mut Say) -> Result<(), Trouble> {
    let participants = words.index()?;
    let round = words.round()?;
    let certificate = certificate(participants, words, say.alloc)?;
    words.end()?;
    if participants == 0 {
        return Err(Trouble::Condition);
    }
    let elector = ByCount { participants };
    match &certificate {
        Some(made) => say.member(Elector::<PlainScheme, Sha256Digest>::elect(
            &elector,
            round,
            Some(made),
        )),
        None => say_without(&elector, round, say),
    }
}

/// Who leads a round that no certificate was given for.
fn say_without(elector: &ByCount, round: Round, say: &mut Say) -> Result<(), Trouble> {
    if round.view.get() > 1 {
        return Err(Trouble::Condition);
    }
    say.member(Elector::<PlainScheme, Sha256Digest>::elect(elector, round, None))
}

/// A list of attestations, or `-`.
fn certificate(
    bound: u32,
    words: &mut Words<'_>,
    alloc: Global,
) -> Result<Option<AttestationList<PlainSignature>>, Trouble> {
    let bytes = bytes_of(words, alloc)?;
    if bytes.is_empty() {
        return Ok(None);
    }
    match decode_cfg(alloc, &bytes, bound)? {
        Some(list) => Ok(Some(list)),
        None => Err(Trouble::Unreadable),
    }
}

/// `kind KIND`.
pub(crate) fn kind(words: &mut Words<'_>, say: &mut Say) -> Result<(), Trouble> {
    let kind = match words.word() {
        "notarization" => Kind::Notarization,
        "nullification" => Kind::Nullification,
        "finalization" => Kind::Finalization,
        _ => return Err(Trouble::Unreadable),
    };
    words.end()?;
    let printed = format!(in say.alloc; "{kind}")?;
    say.text(&printed)
}

/// The laws of leaders in turn.
pub(crate) fn laws() {
    a_seed_makes_one_order();
    a_term_has_one_leader();
    each_participant_leads_once();
}
