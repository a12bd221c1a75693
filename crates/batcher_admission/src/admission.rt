//! What is answered to votes.

ghost use Rattle.std.specs.Prelude.{◌≡◌, ◌↔◌, IsTrue, IfSome, None, false, is_none};
ghost use Rattle.std.specs.Option.{option_copied};
ghost use Rattle.batcher_admission.specs.Evidence.{as_report};
ghost use Rattle.batcher_admission.specs.Blocking.{is_accepted, IsBlockedFor, evidence_against};

use crate::contradiction::{are_for_two, are_one, evidence_of};
use crate::copies::{again, nullify_again};
use simplex_messages::{Activity, Vote};
use types_core::{Attributable, Digest, Participant, Scheme};

/// What came of a vote from the network.
#[derive(Drop)]
pub struct Admission<S: Scheme<D>, D: Digest> {
    /// Whether it was accepted.
    pub added: bool,
    /// Whether its sender is to be blocked.
    pub block: bool,
    /// The accepted vote, or evidence against its sender.
    pub report: Option<Activity<S, D>>,
}

impl<S: Scheme<D>, D: Digest> Admission<S, D> {
    /// What is answered to a vote that is not accepted, and that there is no evidence against.
    const fn without_evidence(block: bool) -> Self
        ensures added { result.added ≡ false }
        ensures block { result.block ≡ block }
        ensures report { result.report ≡ None }
    {
        Admission {
            added: false,
            block,
            report: None,
        }
    }
}

/// The vote as a report.
pub fn report<S: Scheme<D>, D: Digest>(vote: &Vote<S, D>) -> Activity<S, D>
    ensures { result ≡ as_report vote.now }
{
    match vote {
        Vote::Notarize(vote) => Activity::Notarize(again(vote)),
        Vote::Nullify(vote) => Activity::Nullify(nullify_again(vote)),
        Vote::Finalize(vote) => Activity::Finalize(again(vote)),
    }
}

/// What is answered to a vote from the network that is not accepted, and nothing where it is accepted: by how many
/// members there are, who hands it in, which accepted vote stands in its way, and whether this one is kept in full.
pub fn refusal<S: Scheme<D>, D: Digest>(
    members: u32,
    sender: Participant,
    vote: &Vote<S, D>,
    recorded: Option<&Vote<S, D>>,
    in_full: bool,
) -> Option<Admission<S, D>>
    ensures accepted { is_none result ≡ is_accepted members (option_copied recorded.entry) sender vote.now }
    ensures added { IfSome result (λ a. a.added ≡ false) }
    ensures block { IfSome result (λ a. IsTrue a.block ↔ IsBlockedFor members (option_copied recorded.entry) (λ u. in_full) sender vote.now) }
    ensures report { IfSome result
        (λ a. a.report ≡ evidence_against D.PartialEq.eq members (option_copied recorded.entry) (λ u. in_full) sender vote.now) }
{
    if sender != vote.signer() {
        return Some(Admission::without_evidence(true));
    }
    if sender.get() >= members {
        return Some(Admission::without_evidence(false));
    }
    let Some(recorded) = recorded else {
        return None;
    };
    if !in_full {
        return Some(Admission::without_evidence(are_for_two(recorded, vote)));
    }
    Some(Admission {
        added: false,
        block: !are_one(recorded, vote),
        report: evidence_of(recorded, vote),
    })
}
