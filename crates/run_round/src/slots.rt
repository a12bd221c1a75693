//! Calls on the proposal of a view.

use simplex_round::{Change, Slot, Status};
use test_words::{Say, Trouble, Words};
use types_core::{Duplicate, Sha256Digest};

/// Makes the call of this name.
pub(crate) fn call_slot(
    slot: &mut Slot<Sha256Digest>,
    name: &str,
    words: &mut Words<'_>,
    say: &mut Say,
) -> Result<(), Trouble> {
    match name {
        "update_vote" => update_vote(slot, words, say),
        "update_certificate" => update_certificate(slot, words, say),
        "record_verified" => record_verified(slot, words, say),
        _ => {
            words.end()?;
            tell_slot(slot, name, say)
        }
    }
}

fn update_vote(
    slot: &mut Slot<Sha256Digest>,
    words: &mut Words<'_>,
    say: &mut Say,
) -> Result<(), Trouble> {
    let proposal = words.proposal()?;
    words.end()?;
    match slot.update_vote(&proposal) {
        Some(change) => say_change(&change, say),
        None => say.none(),
    }
}

fn update_certificate(
    slot: &mut Slot<Sha256Digest>,
    words: &mut Words<'_>,
    say: &mut Say,
) -> Result<(), Trouble> {
    let proposal = words.proposal()?;
    words.end()?;
    say_change(&slot.update_certificate(&proposal), say)
}

fn record_verified(
    slot: &mut Slot<Sha256Digest>,
    words: &mut Words<'_>,
    say: &mut Say,
) -> Result<(), Trouble> {
    let proposal = words.proposal()?;
    words.end()?;
    say.truth(slot.record_verified(proposal))
}

/// The calls without words that change something.
fn tell_slot(slot: &mut Slot<Sha256Digest>, name: &str, say: &mut Say) -> Result<(), Trouble> {
    match name {
        "request_verify" => say.truth(slot.request_verify()),
        "mark_verified" => say.truth(slot.mark_verified()),
        "set_building" => {
            slot.set_building();
            say.ok()
        }
        "clear_request" => {
            slot.clear_request();
            say.ok()
        }
        _ => ask_slot(slot, name, say),
    }
}

/// The questions.
fn ask_slot(slot: &Slot<Sha256Digest>, name: &str, say: &mut Say) -> Result<(), Trouble> {
    match name {
        "should_build" => say.truth(slot.should_build()),
        "should_verify" => say.truth(slot.should_verify()),
        "has_unequivocated_proposal" => say.truth(slot.has_unequivocated_proposal()),
        "proposal" => say.proposal_or(slot.proposal().copied()),
        "status" => say.text(status_name(slot.status())),
        _ => Err(Trouble::Unreadable),
    }
}

fn status_name(status: Status) -> &'static str {
    match status {
        Status::None => "None",
        Status::Unverified => "Unverified",
        Status::Verified => "Verified",
        Status::Equivocated => "Equivocated",
    }
}

/// What a copy of the change tells.
fn say_change(change: &Change<Sha256Digest>, say: &mut Say) -> Result<(), Trouble> {
    match &change.duplicate(say.alloc)? {
        Change::New => say.text("New"),
        Change::Unchanged => say.text("Unchanged"),
        Change::Equivocated { dropped, retained } => {
            say.text("Equivocated ")?;
            say.proposal(dropped)?;
            say.gap()?;
            say.proposal(retained)
        }
    }
}
