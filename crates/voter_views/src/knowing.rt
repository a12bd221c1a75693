//! What a voter's views answer to whoever asks what is due by what they know.

ghost use Rattle.voter_views.specs.ShowsKnown.{Shows};

use crate::looking::{certified_payload, last_explicit};
use crate::views::Views;
use types_core::{Digest, Proposal, Scheme, View};
use types_terms::{Elector, Lookahead};
use voter_history::Sign;
use voter_rules::knowledge::Knowledge;

impl<S: Scheme<D> + Drop, L: Elector<S, D>, D: Digest> Knowledge<D> for Views<S, L, D> {
    ghost shows = { λ views m k. Shows S.Scheme L.Elector views m k };

    fn lookahead(&self) -> Lookahead {
        self.lookahead()
    }

    fn last_finalized(&self) -> View {
        self.last_finalized()
    }

    fn genesis(&self) -> Option<D> {
        self.genesis
    }

    fn certified_payload(&self, view: View) -> Option<D> {
        certified_payload(self, view)
    }

    fn has_certificate(&self, view: View) -> bool {
        match self.round(view) {
            Some(round) => round.is_directly_notarized(),
            None => false,
        }
    }

    fn certificate_payload(&self, view: View) -> Option<D> {
        match self.round(view) {
            Some(round) => round.certificate_ancestry_payload(),
            None => None,
        }
    }

    fn has_certificate_within(&self, first: View, end: View) -> bool {
        self.bearing(Sign::Direct).any_within(first, end)
    }

    fn has_failed_within(&self, first: View, end: View) -> bool {
        self.bearing(Sign::Failed).any_within(first, end)
    }

    fn backed_proposal(&self, view: View) -> Option<Proposal<D>> {
        match self.round(view) {
            Some(round) if round.broadcast_notarize() && round.is_verified() => round.proposal(),
            _ => None,
        }
    }

    fn binding(&self, view: View) -> Option<(Proposal<D>, D)> {
        match self.round(view) {
            Some(round) => round.verifying(),
            None => None,
        }
    }

    fn proposal(&self, view: View) -> Option<Proposal<D>> {
        match self.round(view) {
            Some(round) => round.proposal(),
            None => None,
        }
    }

    fn last_certified(&self, view: View) -> Option<(View, D)> {
        last_explicit(self, view)
    }

    fn leads(&self, view: View) -> bool {
        match self.leader_index(view) {
            Some(leader) => self.is_me(leader),
            None => false,
        }
    }

    fn leads_by_schedule(&self, view: View) -> bool {
        match self.scheduled_leader(view) {
            Some(leader) => self.is_me(leader),
            None => false,
        }
    }

    fn current_view(&self) -> View {
        self.current_view()
    }

    fn floor(&self) -> View {
        self.floor()
    }

    fn retains(&self, view: View) -> bool {
        self.admits_certificate(view)
    }

    fn broadcast_notarize(&self, view: View) -> bool {
        match self.round(view) {
            Some(round) => round.broadcast_notarize(),
            None => false,
        }
    }

    fn broadcast_nullify(&self, view: View) -> bool {
        match self.round(view) {
            Some(round) => round.broadcast_nullify(),
            None => false,
        }
    }

    fn has_given_up_within(&self, first: View, end: View) -> bool {
        self.bearing(Sign::GivenUp).any_within(first, end)
    }

    fn can_construct_notarize(&self, view: View) -> bool {
        match self.round(view) {
            Some(round) => round.can_construct_notarize(),
            None => false,
        }
    }

    fn can_construct_finalize(&self, view: View) -> bool {
        match self.round(view) {
            Some(round) => round.can_construct_finalize(),
            None => false,
        }
    }

    fn should_propose(&self, view: View) -> bool {
        match self.round(view) {
            Some(round) => round.should_propose(),
            None => false,
        }
    }

    fn pending_verification(&self, view: View) -> Option<Proposal<D>> {
        if self.backed.contains(view) {
            return None;
        }
        match self.round(view) {
            Some(round) => match round.pending_verification() {
                Some((_leader, proposal)) => Some(proposal),
                None => None,
            },
            None => None,
        }
    }

    fn is_requested(&self, view: View, missing: View) -> bool {
        match self.round(view) {
            Some(round) => round.is_requested(missing),
            None => false,
        }
    }

    fn pending_certification(&self, view: View) -> Option<Proposal<D>> {
        match self.round(view) {
            Some(round) => round.pending_certification(),
            None => None,
        }
    }

    fn is_waiting(&self, view: View) -> bool {
        self.waiting.contains(view)
    }

    fn is_notarized(&self, view: View) -> bool {
        self.notarization(view).is_some()
    }

    fn first_uncovered(&self, parent: View, view: View) -> Option<View> {
        self.coverage.first_uncovered(parent, view)
    }
}
