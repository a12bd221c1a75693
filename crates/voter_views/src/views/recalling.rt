//! What a voter takes in from the record of its member.

ghost use Rattle.std.specs.Prelude.{◌≡◌, ◌↔◌, Bool, ◌∷◌, IsTrue, OnOk};
ghost use Rattle.voter_history.specs.Held.{held, Agrees};
ghost use Rattle.voter_history.specs.Past.{offers};
ghost use Rattle.voter_history.specs.History.{seen, undecided_payload};
ghost use Rattle.voter_rounds.specs.Rounds.{Takes};
ghost use Rattle.voter_views.specs.Views.{Keeps, AtEach, recalls};

use crate::beginning::is_vote;
use crate::views::Views;
use messages_certificates::Artifact;
use std::alloc::AllocError;
use types_core::{Digest, Proposal, Scheme, View, Viewable};
use types_terms::Elector;

impl<S: Scheme<D> + Drop, L: Elector<S, D>, D: Digest> Views<S, L, D> {
    /// Takes in an artifact of this member's record, in the order of the record. No view is entered. A vote counts as its own: a
    /// notarize offers its proposal, where none or the same is held, binds it to the payload that its parent holds, where that has
    /// no certificate, and names who leads the next view as one that is voted does. Of a certificate it only takes in that it was
    /// handed out: the certificate itself comes by its `add_` call, and a verdict by `certified`.
    ///
    /// # Errors
    ///
    /// `AllocError` where memory ran out.
    pub fn replay(&mut self, artifact: &Artifact<S, D>) -> Result<(), AllocError>
        ensures { OnOk result (AtEach S.Scheme L.Elector self.old
            (λ s h. (taken : Bool) × Takes (seen s h) artifact.now taken × Keeps S.Scheme L.Elector s self.new (recalls taken artifact.now ∷ h))) }
    {
        let Artifact::Notarize(vote) = artifact else {
            self.beginning.tell_if(is_vote(artifact));
            return self.progress.tracked.replay(artifact);
        };
        let proposal = vote.proposal;
        let view = proposal.view();
        let is_taken = self.takes(&proposal);
        let payload = self.undecided_payload(proposal.parent);
        let next_leader = self.handoff_leader(view);
        self.beginning.tell();
        self.progress.tracked.replay(artifact)?;
        self.progress.tracked.bind(proposal, payload)?;
        self.progress.tracked.follow_vote(view, next_leader)?;
        if is_taken {
            return self.backed.mark(view);
        }
        Ok(())
    }

    /// Whether the proposal's view holds none or the same.
    fn takes(&self, proposal: &Proposal<D>) -> bool
        ensures { AtEach S.Scheme L.Elector self.now (λ s h. IsTrue result ↔ Agrees (held (offers (seen s h proposal.now.round.view))) proposal.now) }
    {
        match self.progress.tracked.round(proposal.view()) {
            Some(round) => match round.proposal() {
                Some(held) => held == *proposal,
                None => true,
            },
            None => true,
        }
    }

    /// The payload of the held proposal, while no certificate of the view is known.
    fn undecided_payload(&self, view: View) -> Option<D>
        ensures { AtEach S.Scheme L.Elector self.now (λ s h. result ≡ undecided_payload (seen s h view)) }
    {
        let round = self.progress.tracked.round(view)?;
        if round.is_directly_notarized() {
            return None;
        }
        let held = round.proposal()?;
        Some(held.payload)
    }
}
