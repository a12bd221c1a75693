//! What follows from a certificate or a verdict, said and read.

use crate::asks::kind_of;
use simplex_resolver::{Effect, FetchReason};
use test_words::{Say, Trouble, Words};
use types_core::View;

/// Effects with ` , ` between two, or `-`.
pub(crate) fn say_effects(effects: &[Effect], say: &mut Say) -> Result<(), Trouble> {
    let Some((first, rest)) = effects.split_first() else {
        return say.none();
    };
    say_effect(*first, say)?;
    for effect in rest {
        say.text(" , ")?;
        say_effect(*effect, say)?;
    }
    Ok(())
}

fn say_effect(effect: Effect, say: &mut Say) -> Result<(), Trouble> {
    match effect {
        Effect::Fetch {
            first,
            last,
            cause,
            reason,
        } => {
            say_views("fetch ", first, last, say)?;
            say.gap()?;
            say.view(cause)?;
            say.gap()?;
            say.text(reason.as_str())
        }
        Effect::Settled { kind, start, end } => {
            say.text("settled ")?;
            say.text(kind.as_str())?;
            say_views(" ", start, end, say)
        }
        Effect::Finalized(view) => {
            say.text("finalized ")?;
            say.view(view)
        }
        Effect::Raised(view) => {
            say.text("raised ")?;
            say.view(view)
        }
    }
}

/// Two views, with this in front of them.
fn say_views(front: &str, one: View, other: View, say: &mut Say) -> Result<(), Trouble> {
    say.text(front)?;
    say.view(one)?;
    say.gap()?;
    say.view(other)
}

/// The reason of these words in a trace.
fn reason_of(word: &str) -> Result<FetchReason, Trouble> {
    match word {
        "missing_nullification" => Ok(FetchReason::MissingNullification),
        "certification_failed" => Ok(FetchReason::CertificationFailed),
        _ => Err(Trouble::Unreadable),
    }
}

/// An effect, by the words that it is said with.
pub(crate) fn effect_of(words: &mut Words<'_>) -> Result<Effect, Trouble> {
    match words.word() {
        "fetch" => fetch_of(words),
        "settled" => settled_of(words),
        "finalized" => Ok(Effect::Finalized(words.view()?)),
        "raised" => Ok(Effect::Raised(words.view()?)),
        _ => Err(Trouble::Unreadable),
    }
}

fn fetch_of(words: &mut Words<'_>) -> Result<Effect, Trouble> {
    let first = words.view()?;
    let last = words.view()?;
    let cause = words.view()?;
    let reason = reason_of(words.word())?;
    Ok(Effect::Fetch {
        first,
        last,
        cause,
        reason,
    })
}

fn settled_of(words: &mut Words<'_>) -> Result<Effect, Trouble> {
    let kind = kind_of(words.word())?;
    let start = words.view()?;
    let end = words.view()?;
    Ok(Effect::Settled { kind, start, end })
}
