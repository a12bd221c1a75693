//! The views that spans cover.

use simplex_record::Coverage;
use test_words::{Say, Trouble, Words};

/// The calls of covered views.
pub(crate) fn answer(
    covered: &mut Coverage,
    name: &str,
    words: &mut Words<'_>,
    say: &mut Say,
) -> Result<(), Trouble> {
    match name {
        "cover" => cover(covered, words, say),
        "covers_between" => covers_between(covered, words, say),
        "first_uncovered" => first_uncovered(covered, words, say),
        _ => Err(Trouble::Unreadable),
    }
}

/// `cover FIRST LAST`.
fn cover(covered: &mut Coverage, words: &mut Words<'_>, say: &mut Say) -> Result<(), Trouble> {
    let first = words.view()?;
    let last = words.view()?;
    words.end()?;
    if first > last {
        return Err(Trouble::Condition);
    }
    covered.cover(first, last)?;
    say.ok()
}

/// `covers_between PARENT VIEW`: whether each view behind the parent and before the view is covered.
fn covers_between(covered: &Coverage, words: &mut Words<'_>, say: &mut Say) -> Result<(), Trouble> {
    let parent = words.view()?;
    let view = words.view()?;
    words.end()?;
    say.truth(covered.covers_between(parent, view))
}

/// `first_uncovered PARENT VIEW`: the first of these that isn't, or `-`.
fn first_uncovered(
    covered: &Coverage,
    words: &mut Words<'_>,
    say: &mut Say,
) -> Result<(), Trouble> {
    let parent = words.view()?;
    let view = words.view()?;
    words.end()?;
    match covered.first_uncovered(parent, view) {
        Some(first) => say.view(first),
        None => say.none(),
    }
}
