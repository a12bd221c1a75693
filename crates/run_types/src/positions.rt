//! Calls on numbers alone.

use test_words::{Say, Trouble, Words};
use types_core::{Epoch, TermLength, ViewDelta, faults, quorum};

/// Says a number, and whether it is 0.
fn say_kept(number: u64, is_zero: bool, say: &mut Say) -> Result<(), Trouble> {
    say.number(number)?;
    say.gap()?;
    say.truth(is_zero)
}

/// `epoch NUMBER`.
pub fn epoch(words: &mut Words<'_>, say: &mut Say) -> Result<(), Trouble> {
    let epoch = Epoch::new(words.number()?);
    say_kept(epoch.get(), epoch.is_zero(), say)
}

/// `view NUMBER`.
pub fn view(words: &mut Words<'_>, say: &mut Say) -> Result<(), Trouble> {
    let view = words.view()?;
    say_kept(view.get(), view.is_zero(), say)
}

/// `delta NUMBER`.
pub fn delta(words: &mut Words<'_>, say: &mut Say) -> Result<(), Trouble> {
    let delta = ViewDelta::new(words.number()?);
    say_kept(delta.get(), delta.is_zero(), say)
}

/// `length VIEWS`: the number kept, and whether it is the least.
pub fn length(words: &mut Words<'_>, say: &mut Say) -> Result<(), Trouble> {
    let length = words.term_length()?;
    say_kept(u64::from(length.get()), length == TermLength::ONE, say)
}

/// `term LENGTH VIEW`: the term's index, its first view, whether that is this one, and whether there is room.
pub fn term(words: &mut Words<'_>, say: &mut Say) -> Result<(), Trouble> {
    let length = words.term_length()?;
    let view = words.view()?;
    say.number(view.term_index(length))?;
    say.gap()?;
    say.number(view.term_start(length).get())?;
    say.gap()?;
    say.truth(view.is_term_start(length))?;
    say.gap()?;
    say.truth(view.has_room(length))
}

/// `term_end LENGTH VIEW`.
pub fn term_end(words: &mut Words<'_>, say: &mut Say) -> Result<(), Trouble> {
    let length = words.term_length()?;
    let view = words.view()?;
    let end = view.term_index(length).checked_mul(u64::from(length.get()));
    if end.is_none() {
        return Err(Trouble::Condition);
    }
    say.number(view.term_end(length).get())
}

/// `next_term_start LENGTH VIEW`.
pub fn next_term_start(words: &mut Words<'_>, say: &mut Say) -> Result<(), Trouble> {
    let length = words.term_length()?;
    let view = words.view()?;
    if !view.has_room(length) {
        return Err(Trouble::Condition);
    }
    say.number(view.next_term_start(length).get())
}

/// `covers LENGTH NULLIFIED VIEW`: whether it does, and the first and the last that do.
pub fn covers(words: &mut Words<'_>, say: &mut Say) -> Result<(), Trouble> {
    let length = words.term_length()?;
    let nullified = words.view()?;
    let view = words.view()?;
    let range = view.covering_range(length);
    say.truth(nullified.covers(view, length))?;
    say.gap()?;
    say.number(range.start().get())?;
    say.gap()?;
    say.number(range.end().get())
}

/// `next VIEW`.
pub fn next(words: &mut Words<'_>, say: &mut Say) -> Result<(), Trouble> {
    let view = words.view()?;
    if view.get() == u64::MAX {
        return Err(Trouble::Condition);
    }
    say.number(view.next().get())
}

/// `previous VIEW`.
pub fn previous(words: &mut Words<'_>, say: &mut Say) -> Result<(), Trouble> {
    match words.view()?.previous() {
        Some(view) => say.number(view.get()),
        None => say.none(),
    }
}

/// `quorum MEMBERS`: how many may be faulty, and how many are a quorum.
pub fn quorums(words: &mut Words<'_>, say: &mut Say) -> Result<(), Trouble> {
    let members = words.index()?;
    say.number(u64::from(faults(members)))?;
    say.gap()?;
    say.number(u64::from(quorum(members)))
}
