//! One view.

use crate::recording::Item;
use simplex_messages::Notarize;
use simplex_round::Round as ViewRound;
use simplex_types::{Participant, PlainScheme, Proposal, Round, Sha256Digest, Viewable};
use std::rc::Rc;

/// What a member knows of the view when it starts again with these artifacts in its record, whose votes it stands by.
pub(crate) fn recalled(
    scheme: Rc<PlainScheme>,
    round: Round,
    leader: Participant,
    record: &[Item],
) -> ViewRound<PlainScheme, Sha256Digest> {
    let mut known = ViewRound::new(scheme, round);
    known.set_leader(leader);
    for artifact in record {
        if artifact.view() == round.view {
            known.replay(artifact);
        }
    }
    known
}

/// The member's vote to notarize the leader's proposal, where it may cast one.
pub(crate) fn vote_on(
    scheme: &PlainScheme,
    known: &mut ViewRound<PlainScheme, Sha256Digest>,
    proposal: &Proposal<Sha256Digest>,
) -> Option<Notarize<PlainScheme, Sha256Digest>> {
    known.set_proposal(proposal);
    if !known.request_verify() {
        return None;
    }
    // Here the application is asked whether the proposal is good; this one says yes to all.
    known.verified();
    let voted = known.construct_notarize()?;
    Notarize::sign(scheme, voted)
}
