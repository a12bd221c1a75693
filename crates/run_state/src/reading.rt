//! Words that only these scripts have.

use messages_certificates::Finalization;
use simplex_state::Floor;
use simplex_types::PlainKey;
use std::alloc::Global;
use test_messages::CertificateWords;
use test_words::{Committee, Left, Trouble, Words};
use types_core::{Context, Sha256Digest, View};
use voter_history::{HandoffAbandonedReason, TimeoutReason};

/// All reasons to give a view up.
const REASONS: [TimeoutReason; 10] = [
    TimeoutReason::Retry,
    TimeoutReason::Inactivity,
    TimeoutReason::LeaderNullify,
    TimeoutReason::LeaderTimeout,
    TimeoutReason::CertificationTimeout,
    TimeoutReason::StallTimeout,
    TimeoutReason::MissingProposal,
    TimeoutReason::IgnoredProposal,
    TimeoutReason::InvalidProposal,
    TimeoutReason::FailedCertification,
];

/// All reasons to give a handoff up.
const ABANDONED: [(&str, HandoffAbandonedReason); 7] = [
    ("ViewExit", HandoffAbandonedReason::ViewExit),
    (
        "AncestrySuperseded",
        HandoffAbandonedReason::AncestrySuperseded,
    ),
    (
        "AncestryInvalidated",
        HandoffAbandonedReason::AncestryInvalidated,
    ),
    ("ParentNullify", HandoffAbandonedReason::ParentNullify),
    ("ViewNullify", HandoffAbandonedReason::ViewNullify),
    ("ResponseClosed", HandoffAbandonedReason::ResponseClosed),
    (
        "IneligibleAtRecording",
        HandoffAbandonedReason::IneligibleAtRecording,
    ),
];

/// Two numbers that end the line.
pub fn two_numbers(words: &mut Words<'_>) -> Result<(u64, u64), Trouble> {
    let first = words.number()?;
    match words.left() {
        Left::Number(second) => Ok((first, second)),
        _ => Err(Trouble::Unreadable),
    }
}

/// A payload that ends the line.
pub fn last_payload(words: &mut Words<'_>) -> Result<Sha256Digest, Trouble> {
    let payload = words.payload()?;
    words.end()?;
    Ok(payload)
}

/// A context that ends the line.
pub fn last_context(words: &mut Words<'_>) -> Result<Context<Sha256Digest, PlainKey>, Trouble> {
    let context = words.context()?;
    words.end()?;
    Ok(context)
}

/// A truth that ends the line.
pub fn last_truth(words: &mut Words<'_>) -> Result<bool, Trouble> {
    let truth = words.truth()?;
    words.end()?;
    Ok(truth)
}

/// A view, and why it is given up, which end the line.
pub fn view_and_reason(words: &mut Words<'_>) -> Result<(View, TimeoutReason), Trouble> {
    let view = words.view()?;
    Ok((view, last_reason(words)?))
}

/// Why a view is given up, which ends the line.
fn last_reason(words: &mut Words<'_>) -> Result<TimeoutReason, Trouble> {
    let word = words.word();
    words.end()?;
    for reason in REASONS {
        if reason.as_str() == word {
            return Ok(reason);
        }
    }
    Err(Trouble::Unreadable)
}

/// The variant's name of a reason to give a handoff up.
pub fn abandoned(words: &mut Words<'_>) -> Result<HandoffAbandonedReason, Trouble> {
    let word = words.word();
    for (name, reason) in ABANDONED {
        if name == word {
            return Ok(reason);
        }
    }
    Err(Trouble::Unreadable)
}

/// What a member of a committee of so many starts from, which ends the line: `genesis K`, a finalization, or `spelled BYTES`
/// for one that is spelled, whoever signed it.
pub fn last_floor<S: Committee>(
    alloc: Global,
    words: &mut Words<'_>,
    participants: u32,
) -> Result<Floor<S, Sha256Digest>, Trouble> {
    match words.word() {
        "genesis" => Ok(Floor::Genesis(last_payload(words)?)),
        "finalization" => {
            let finalization = words.finalization::<S>(alloc, participants)?;
            words.end()?;
            Ok(Floor::Finalized(finalization))
        }
        "spelled" => {
            let finalization: Finalization<S, Sha256Digest> = words.value(alloc, participants)?;
            words.end()?;
            Ok(Floor::Finalized(finalization))
        }
        _ => Err(Trouble::Unreadable),
    }
}

/// The word of a kind.
pub fn kind(words: &mut Words<'_>, kind: &str) -> Result<(), Trouble> {
    if words.word() == kind {
        return Ok(());
    }
    Err(Trouble::Unreadable)
}
