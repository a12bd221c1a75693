//! What is asked of other members, and what changes of that, as values.

use crate::effects::effect_of;
use simplex_resolver::{Ask, Kind, Until};
use std::cmp::Ordering;
use test_words::{Say, Trouble, Words};

/// The kind of this name.
pub(crate) fn kind_of(word: &str) -> Result<Kind, Trouble> {
    match word {
        "nullification" => Ok(Kind::Nullification),
        "notarization" => Ok(Kind::Notarization),
        _ => Err(Trouble::Unreadable),
    }
}

fn until_of(word: &str) -> Result<Until, Trouble> {
    match word {
        "floor" => Ok(Until::Floor),
        "finalization" => Ok(Until::Finalization),
        _ => Err(Trouble::Unreadable),
    }
}

/// `KIND UNTIL`.
fn ask_of(words: &mut Words<'_>) -> Result<Ask, Trouble> {
    let kind = kind_of(words.word())?;
    let until = until_of(words.word())?;
    Ok(Ask { kind, until })
}

/// Makes the call of this name: `backfill` and `ancestry KIND` answer an ask, `order ASK ASK` how two are in order,
/// `same EFFECT EFFECT` whether two effects are one.
pub(crate) fn call_on_asks(
    name: &str,
    words: &mut Words<'_>,
    say: &mut Say,
) -> Result<(), Trouble> {
    match name {
        "backfill" => {
            words.end()?;
            say_ask(Ask::backfill(), say)
        }
        "ancestry" => {
            let kind = kind_of(words.word())?;
            words.end()?;
            say_ask(Ask::ancestry(kind), say)
        }
        "order" => {
            let one = ask_of(words)?;
            let other = ask_of(words)?;
            words.end()?;
            say.text(order_name(one.cmp(&other)))
        }
        "same" => {
            let one = effect_of(words)?;
            let other = effect_of(words)?;
            words.end()?;
            say.truth(one == other)
        }
        _ => Err(Trouble::Unreadable),
    }
}

fn say_ask(ask: Ask, say: &mut Say) -> Result<(), Trouble> {
    say.text(ask.kind.as_str())?;
    say.text(match ask.until {
        Until::Floor => " floor",
        Until::Finalization => " finalization",
    })
}

fn order_name(order: Ordering) -> &'static str {
    match order {
        Ordering::Less => "less",
        Ordering::Equal => "equal",
        Ordering::Greater => "greater",
    }
}
