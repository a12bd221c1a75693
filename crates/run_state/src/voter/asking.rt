//! What a voter asks its application to build.

use crate::reading::{last_context, last_payload};
use crate::voter::Voter;
use simplex_state::ProposalRequest;
use simplex_types::PlainKey;
use test_words::{Committee, Say, Trouble, Words};
use types_core::{Scheme, Sha256Digest};
use types_terms::Elector;
use voter_history::HandoffAbandonedReason;

/// Says what is to be built.
pub(super) fn request(
    say: &mut Say,
    request: Option<ProposalRequest<Sha256Digest, PlainKey>>,
) -> Result<(), Trouble> {
    let Some(request) = request else {
        return say.none();
    };
    say.text(if request.is_handoff() {
        "Prepare "
    } else {
        "Propose "
    })?;
    say.context(request.context())
}

/// The name of a reason to give a handoff up.
fn name_of(reason: HandoffAbandonedReason) -> &'static str {
    match reason {
        HandoffAbandonedReason::ViewExit => "ViewExit",
        HandoffAbandonedReason::AncestrySuperseded => "AncestrySuperseded",
        HandoffAbandonedReason::AncestryInvalidated => "AncestryInvalidated",
        HandoffAbandonedReason::ParentNullify => "ParentNullify",
        HandoffAbandonedReason::ViewNullify => "ViewNullify",
        HandoffAbandonedReason::ResponseClosed => "ResponseClosed",
        HandoffAbandonedReason::IneligibleAtRecording => "IneligibleAtRecording",
    }
}

/// Says why a handoff is to stop, if it is.
fn abandonment(say: &mut Say, reason: Option<HandoffAbandonedReason>) -> Result<(), Trouble> {
    match reason {
        Some(reason) => say.text(name_of(reason)),
        None => say.none(),
    }
}

impl<S: Committee + Scheme<Sha256Digest, PublicKey = PlainKey>, L: Elector<S, Sha256Digest>> Voter<
    S,
    L,
> {
    /// What is built.
    pub fn built(
        &mut self,
        name: &str,
        words: &mut Words<'_>,
        say: &mut Say,
    ) -> Result<(), Trouble> {
        match name {
            "proposed" => self.proposed(words, say),
            "supersede_proposal_request" => {
                let context = last_context(words)?;
                say.truth(self.state.supersede_proposal_request(&context)?)
            }
            "pending_handoff_abandonment" => {
                let context = last_context(words)?;
                abandonment(say, self.state.pending_handoff_abandonment(&context))
            }
            _ => self.looked_at(name, words, say),
        }
    }

    /// `NOW CONTEXT K`: a block that was built.
    fn proposed(&mut self, words: &mut Words<'_>, say: &mut Say) -> Result<(), Trouble> {
        let now = words.number()?;
        let context = words.context()?;
        let payload = last_payload(words)?;
        say.truth(self.state.proposed(now, &context, payload)?)
    }
}
