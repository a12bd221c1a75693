//! Which views a member listens to, speaks of and keeps.

use test_words::{Say, Trouble, Words};
use types_core::{View, ViewDelta};
use types_terms::{
    Lookahead, Terms, Viewport, admission_limit_is_the_last_view_listened_to,
    few_views_ahead_are_listened_to, issuance_floor_leaves_the_optimistic_views_between,
    what_is_spoken_of_is_listened_to,
};

/// What decides on a view.
#[derive(Clone, Copy)]
enum Window {
    /// What the admission window after this view has.
    Admission(Lookahead, View),
    /// What is listened to in this view.
    Heard(Lookahead, View),
    /// What may be spoken of in this view.
    Spoken(Lookahead, View),
    /// What is kept.
    Kept(Viewport),
    /// Of which views votes are taken.
    Votes(Viewport),
    /// Of which views certificates are taken.
    Certificates(Viewport),
}

impl Window {
    fn has(&self, view: View) -> bool {
        match self {
            Window::Admission(lookahead, current) => {
                lookahead.in_admission_window(*current, view)
            }
            Window::Heard(lookahead, current) => lookahead.admits(*current, view),
            Window::Spoken(lookahead, current) => lookahead.admits_outbound(*current, view),
            Window::Kept(viewport) => viewport.retains(view),
            Window::Votes(viewport) => viewport.admits_vote(view),
            Window::Certificates(viewport) => viewport.admits_certificate(view),
        }
    }
}

/// How many views are asked for at most.
const MOST: u64 = 1_000;

/// `FIRST LAST`: which of these views the window has.
fn say_those(window: &Window, words: &mut Words<'_>, say: &mut Say) -> Result<(), Trouble> {
    let first = words.number()?;
    let last = words.number()?;
    words.end()?;
    if last < first || last - first >= MOST {
        return Err(Trouble::Unreadable);
    }
    let mut numbers = Vec::new(say.alloc);
    for later in 0..MOST {
        let number = first.saturating_add(later);
        if later <= last - first && window.has(View::new(number)) {
            numbers.push(number)?;
        }
    }
    say.numbers(&numbers)
}

/// `L K`.
fn lookahead(words: &mut Words<'_>) -> Result<Lookahead, Trouble> {
    let length = words.term_length()?;
    let views = ViewDelta::new(words.number()?);
    Ok(Lookahead::new(&Terms::stable(length, 1, views)))
}

/// `lookahead ASKED L K VIEW ..`.
pub(crate) fn ask_lookahead(words: &mut Words<'_>, say: &mut Say) -> Result<(), Trouble> {
    let asked = words.word();
    let lookahead = lookahead(words)?;
    let view = words.view()?;
    match asked {
        "in_admission_window" => say_those(&Window::Admission(lookahead, view), words, say),
        "admits" => say_those(&Window::Heard(lookahead, view), words, say),
        "admits_outbound" => say_those(&Window::Spoken(lookahead, view), words, say),
        "admission_limit" => admission_limit(lookahead, view, words, say),
        "after_nullification" => after_nullification(lookahead, view, words, say),
        "issuance_floor" => issuance_floor(lookahead, view, words, say),
        _ => Err(Trouble::Unreadable),
    }
}

fn admission_limit(
    lookahead: Lookahead,
    current: View,
    words: &mut Words<'_>,
    say: &mut Say,
) -> Result<(), Trouble> {
    words.end()?;
    if !current.has_room(lookahead.length) {
        return Err(Trouble::Condition);
    }
    say.view(lookahead.admission_limit(current))
}

fn after_nullification(
    lookahead: Lookahead,
    view: View,
    words: &mut Words<'_>,
    say: &mut Say,
) -> Result<(), Trouble> {
    words.end()?;
    if !view.has_room(lookahead.length) {
        return Err(Trouble::Condition);
    }
    say.view(lookahead.after_nullification(view))
}

fn issuance_floor(
    lookahead: Lookahead,
    view: View,
    words: &mut Words<'_>,
    say: &mut Say,
) -> Result<(), Trouble> {
    words.end()?;
    match lookahead.issuance_floor(view) {
        Some(floor) => say.view(floor),
        None => say.none(),
    }
}

/// `viewport ASKED FINALIZED CURRENT RETENTION L K ..`.
pub(crate) fn ask_viewport(words: &mut Words<'_>, say: &mut Say) -> Result<(), Trouble> {
    let asked = words.word();
    let viewport = Viewport {
        finalized: words.view()?,
        current: words.view()?,
        view_retention: ViewDelta::new(words.number()?),
        lookahead: lookahead(words)?,
    };
    match asked {
        "floor" => {
            words.end()?;
            say.view(viewport.floor())
        }
        "first_reaching" => {
            words.end()?;
            say.view(viewport.first_reaching())
        }
        "retains" => say_those(&Window::Kept(viewport), words, say),
        "admits_vote" => say_those(&Window::Votes(viewport), words, say),
        "admits_certificate" => say_those(&Window::Certificates(viewport), words, say),
        _ => Err(Trouble::Unreadable),
    }
}

/// The laws of windows.
pub(crate) fn laws() {
    what_is_spoken_of_is_listened_to();
    few_views_ahead_are_listened_to();
    admission_limit_is_the_last_view_listened_to();
    issuance_floor_leaves_the_optimistic_views_between();
}
