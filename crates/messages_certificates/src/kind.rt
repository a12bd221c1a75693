//! The two kinds of votes on a proposal.

ghost use Rattle.std.specs.Prelude.{◌≡◌};
ghost use Rattle.types_core.specs.declared.proposal.Proposal.{Proposal};
ghost use Rattle.types_core.specs.Subject.{Statement, statement, notarize, finalize};

use types_core::{Digest, Proposal, Subject};

/// A kind of votes on a proposal: to notarize or to finalize it.
pub trait ProposalKind<D: Digest> {
    /// What a vote of this kind states of the proposal.
    ghost states: { Proposal D → Statement D };

    /// What a vote of this kind on the proposal is on.
    fn subject(proposal: &Proposal<D>) -> Subject<'_, D>
        ensures { statement result ≡ states proposal.now };
}

/// The kind of votes to certify a proposal for its round.
#[derive(Clone, Copy, Debug, PartialEq, Eq, PartialOrd, Ord, Hash)]
pub struct Notarizing;

impl<D: Digest> ProposalKind<D> for Notarizing {
    ghost states = { notarize };

    fn subject(proposal: &Proposal<D>) -> Subject<'_, D> {
        Subject::Notarize(proposal)
    }
}

/// The kind of votes to finalize a proposal.
#[derive(Clone, Copy, Debug, PartialEq, Eq, PartialOrd, Ord, Hash)]
pub struct Finalizing;

impl<D: Digest> ProposalKind<D> for Finalizing {
    ghost states = { finalize };

    fn subject(proposal: &Proposal<D>) -> Subject<'_, D> {
        Subject::Finalize(proposal)
    }
}
