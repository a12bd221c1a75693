//! When two votes contradict each other.

ghost use Rattle.std.specs.Prelude.{◌≡◌, ◌↔◌, IsTrue, Some, None, is_some, if◌then◌else◌};
ghost use Rattle.simplex_messages.specs.declared.activity.Activity.TheVariants as activity;
ghost use Rattle.messages_certificates.specs.StandsBeside.{stands_beside};
ghost use Rattle.batcher_admission.specs.Evidence.{AreForTwo, evidence};

use crate::copies::{again, nullify_again};
use simplex_messages::{Activity, ConflictingVotes, Finalize, Nullify, NullifyFinalize, Vote};
use types_core::{Digest, Scheme};

/// The evidence of two votes, where they contradict each other.
pub(crate) fn evidence_of<S: Scheme<D>, D: Digest>(
    first: &Vote<S, D>,
    second: &Vote<S, D>,
) -> Option<Activity<S, D>>
    ensures { result ≡ evidence D.PartialEq.eq first.now second.now }
{
    match (first, second) {
        (Vote::Notarize(first), Vote::Notarize(second)) => {
            if !first.contradicts(second) {
                return None;
            }
            let evidence = ConflictingVotes::new(again(first), again(second));
            Some(Activity::ConflictingNotarize(evidence))
        }
        (Vote::Finalize(first), Vote::Finalize(second)) => {
            if !first.contradicts(second) {
                return None;
            }
            let evidence = ConflictingVotes::new(again(first), again(second));
            Some(Activity::ConflictingFinalize(evidence))
        }
        (Vote::Nullify(first), Vote::Finalize(second)) => beside(first, second),
        (Vote::Finalize(first), Vote::Nullify(second)) => beside(second, first),
        _ => None,
    }
}

/// The evidence of a nullify beside a finalize, where they are of one signer and one round.
fn beside<S: Scheme<D>, D: Digest>(
    nullify: &Nullify<S, D>,
    finalize: &Finalize<S, D>,
) -> Option<Activity<S, D>>
    ensures { result ≡ (if stands_beside nullify.now finalize.now then Some (activity.NullifyFinalize (nullify.now, finalize.now)) else None) }
{
    if !nullify.stands_beside(finalize) {
        return None;
    }
    let evidence = NullifyFinalize::new(nullify_again(nullify), again(finalize));
    Some(Activity::NullifyFinalize(evidence))
}

/// Whether two votes of one kind are for different proposals.
pub(crate) fn are_for_two<S: Scheme<D>, D: Digest>(first: &Vote<S, D>, second: &Vote<S, D>) -> bool
    ensures { IsTrue result ↔ AreForTwo first.now second.now }
{
    match (first, second) {
        (Vote::Notarize(first), Vote::Notarize(second)) => first.proposal != second.proposal,
        (Vote::Finalize(first), Vote::Finalize(second)) => first.proposal != second.proposal,
        _ => false,
    }
}

/// Whether the votes are one.
pub(crate) fn are_one<S: Scheme<D>, D: Digest>(first: &Vote<S, D>, second: &Vote<S, D>) -> bool
    ensures { IsTrue result ↔ (first.now ≡ second.now) }
{
    *first == *second
}

/// Whether two votes of one signer and one round contradict each other.
pub fn are_against<S: Scheme<D>, D: Digest>(first: &Vote<S, D>, second: &Vote<S, D>) -> bool
    ensures { result ≡ is_some (evidence D.PartialEq.eq first.now second.now) }
{
    match (first, second) {
        (Vote::Notarize(first), Vote::Notarize(second)) => first.contradicts(second),
        (Vote::Finalize(first), Vote::Finalize(second)) => first.contradicts(second),
        (Vote::Nullify(first), Vote::Finalize(second)) => first.stands_beside(second),
        (Vote::Finalize(first), Vote::Nullify(second)) => second.stands_beside(first),
        _ => false,
    }
}
