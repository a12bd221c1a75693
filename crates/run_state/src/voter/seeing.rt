//! What a voter's views tell, which it lends: what is known of each, and what covers those between two.
//!
//! `known VIEW` answers `known` and a word for all that is so of the view, `verifying VIEW` the proposal that is bound and
//! its parent's payload: `PROPOSAL K`. Where nothing is known of a view, all that its round is asked is answered by `-`.

use crate::reading::{last_payload, two_numbers};
use crate::voter::Voter;
use crate::voter::owing::lowest;
use simplex_round::Round;
use simplex_types::PlainKey;
use test_words::{Committee, Say, Trouble, Words};
use types_core::{Proposal, Scheme, Sha256Digest, View};
use types_terms::Elector;
use voter_rules::knowledge::Knowledge;

/// What may be so of a view, with whether it is: of the proposal that it holds, of its certificates and its verdict, of
/// the own votes, and of its entry.
fn signs<S: Committee>(round: &Round<S, Sha256Digest>) -> [(&'static str, bool); 12] {
    [
        ("unequivocated", round.has_unequivocated_proposal()),
        ("verified", round.is_verified()),
        ("may_propose", round.should_propose()),
        ("direct", round.is_directly_notarized()),
        ("certified", round.is_certified()),
        ("failed", round.has_failed()),
        ("notarized", round.broadcast_notarize()),
        ("nullified", round.broadcast_nullify()),
        ("finalized", round.broadcast_finalize()),
        ("may_notarize", round.can_construct_notarize()),
        ("may_finalize", round.can_construct_finalize()),
        ("entered", round.is_entered()),
    ]
}

/// Says what a proposal is bound to: it, and its parent's payload.
fn bound(
    say: &mut Say,
    binding: Option<(Proposal<Sha256Digest>, Sha256Digest)>,
) -> Result<(), Trouble> {
    let Some((proposal, payload)) = binding else {
        return say.none();
    };
    say.proposal(&proposal)?;
    say.gap()?;
    say.payload(&payload)
}

/// What is so of a view of which something is known.
fn known<S: Committee>(round: &Round<S, Sha256Digest>, say: &mut Say) -> Result<(), Trouble> {
    say.text("known")?;
    for (word, is_so) in signs(round) {
        if is_so {
            say.gap()?;
            say.text(word)?;
        }
    }
    Ok(())
}

/// What the round of a view tells.
fn told<S: Committee>(
    round: &Round<S, Sha256Digest>,
    name: &str,
    say: &mut Say,
) -> Result<(), Trouble> {
    match name {
        "known" => known(round, say),
        "proposal" => say.proposal_or(round.proposal()),
        "verifying" => bound(say, round.verifying()),
        "certified_proposal" => say.proposal_or(round.certified_proposal()),
        "pending_certification" => say.proposal_or(round.pending_certification()),
        "stall_deadline" => say.optional(round.stall_deadline()),
        _ => Err(Trouble::Unreadable),
    }
}

/// The same where nothing is known of the view.
fn untold(name: &str, say: &mut Say) -> Result<(), Trouble> {
    match name {
        "known"
        | "proposal"
        | "verifying"
        | "certified_proposal"
        | "pending_certification"
        | "stall_deadline" => say.none(),
        _ => Err(Trouble::Unreadable),
    }
}

impl<S: Committee + Scheme<Sha256Digest, PublicKey = PlainKey>, L: Elector<S, Sha256Digest>> Voter<
    S,
    L,
> {
    /// What the round of a view tells.
    pub fn of_a_view(&self, name: &str, view: View, say: &mut Say) -> Result<(), Trouble> {
        match self.state.views().round(view) {
            Some(round) => told(round, name, say),
            None => untold(name, say),
        }
    }

    /// What is known of a view beside another word, and what covers views.
    pub fn seen(&self, name: &str, words: &mut Words<'_>, say: &mut Say) -> Result<(), Trouble> {
        match name {
            "elapsed_since_start" => {
                let (now, view) = two_numbers(words)?;
                say.optional(self.state.elapsed_since_start(now, View::new(view)))
            }
            "elapsed_since_entry" => {
                let (now, view) = two_numbers(words)?;
                say.optional(self.state.elapsed_since_entry(now, View::new(view)))
            }
            "parent_certified" => {
                let view = words.view()?;
                say.truth(self.state.parent_certified(view, last_payload(words)?))
            }
            "first_uncovered" => {
                let (parent, view) = two_numbers(words)?;
                let (parent, view) = (View::new(parent), View::new(view));
                let views = self.state.views();
                lowest(
                    say,
                    Knowledge::<Sha256Digest>::first_uncovered(views, parent, view),
                )
            }
            "is_requested" => self.is_requested(words, say),
            _ => Err(Trouble::Unreadable),
        }
    }

    /// `VIEW MISSING`.
    fn is_requested(&self, words: &mut Words<'_>, say: &mut Say) -> Result<(), Trouble> {
        let (view, missing) = two_numbers(words)?;
        match self.state.views().round(View::new(view)) {
            Some(round) => say.truth(round.is_requested(View::new(missing))),
            None => say.none(),
        }
    }
}
