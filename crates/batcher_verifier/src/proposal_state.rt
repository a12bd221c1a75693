//! What is known of a round's proposal.

ghost use Rattle.std.specs.Prelude.{◌≡◌, ◌↔◌, IsTrue};
ghost use Rattle.std.specs.Option.{option_copied};
ghost use Rattle.batcher_verifier.specs.History.{select, proposal_of};
ghost use Rattle.batcher_verifier.specs.Keeping.{selection_of};

use types_core::{Digest, Proposal};

/// What is known of a round's proposal.
#[derive(Drop)]
pub(crate) enum ProposalState<D: Digest> {
    /// Nothing.
    Unknown,
    /// The leader voted for it.
    Leader(Proposal<D>),
    /// It is fixed by a certificate or an own finalize.
    Certificate(Proposal<D>),
}

impl<D: Digest> ProposalState<D> {
    /// The selected proposal.
    pub(crate) const fn proposal(&self) -> Option<&Proposal<D>>
        ensures { option_copied result ≡ proposal_of (selection_of self.now) }
    {
        match self {
            ProposalState::Unknown => None,
            ProposalState::Leader(proposal) => Some(proposal),
            ProposalState::Certificate(proposal) => Some(proposal),
        }
    }

    /// What is known next, where this proposal is fixed now and that is the leader's.
    pub(crate) fn select(
        &self,
        fixed: Option<Proposal<D>>,
        led: Option<Proposal<D>>,
    ) -> ProposalState<D>
        ensures { selection_of result ≡ select (selection_of self.now) fixed led }
    {
        if let ProposalState::Certificate(proposal) = self {
            return ProposalState::Certificate(*proposal);
        }
        if let Some(proposal) = fixed {
            return ProposalState::Certificate(proposal);
        }
        if let ProposalState::Leader(proposal) = self {
            return ProposalState::Leader(*proposal);
        }
        match led {
            Some(proposal) => ProposalState::Leader(proposal),
            None => ProposalState::Unknown,
        }
    }

    /// Whether the same is selected, or nothing in both.
    pub(crate) fn selects_as(&self, other: &ProposalState<D>) -> bool
        ensures { IsTrue result ↔ (proposal_of (selection_of self.now) ≡ proposal_of (selection_of other.now)) }
    {
        match (self.proposal(), other.proposal()) {
            (None, None) => true,
            (Some(first), Some(second)) => *first == *second,
            _ => false,
        }
    }
}
