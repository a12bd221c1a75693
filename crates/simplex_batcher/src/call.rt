//! Calls on a round, and their answers, as values.

use batcher_admission::Admission;
use batcher_verifier::{Batch, BatcherFault, Kind};
use simplex_messages::{Activity, Certificate, Vote};
use types_core::{Digest, Participant, Proposal, Scheme};

/// A call on a round.
#[derive(Drop)]
pub enum Call<S: Scheme<D>, D: Digest> {
    /// [`Round::add_network`](crate::Round::add_network).
    AddNetwork(Participant, Vote<S, D>),
    /// [`Round::accept_vote`](crate::Round::accept_vote).
    AcceptVote(Vote<S, D>),
    /// [`Round::record_certificate`](crate::Round::record_certificate).
    RecordCertificate(Certificate<S, D>),
    /// [`Round::set_leader`](crate::Round::set_leader).
    SetLeader(Participant),
    /// [`Round::try_construct`](crate::Round::try_construct).
    TryConstruct,
    /// [`Round::try_forward_proposal`](crate::Round::try_forward_proposal).
    TryForwardProposal(Participant),
    /// A call that changes nothing.
    Ask(Question<S, D>),
}

/// A call on a round that changes nothing.
#[derive(Drop)]
pub enum Question<S: Scheme<D>, D: Digest> {
    /// [`Round::has_certificate`](crate::Round::has_certificate).
    HasCertificate(Kind),
    /// [`Round::has_nullify`](crate::Round::has_nullify).
    HasNullify(Participant),
    /// [`Round::is_missing_voter`](crate::Round::is_missing_voter).
    IsMissingVoter(Proposal<D>, Participant),
    /// [`Round::missing_voters`](crate::Round::missing_voters).
    MissingVoters(Proposal<D>),
    /// [`Round::belongs`](crate::Round::belongs).
    Belongs(Vote<S, D>),
    /// [`Round::belongs_certificate`](crate::Round::belongs_certificate).
    BelongsCertificate(Certificate<S, D>),
}

/// The answer to a call.
#[derive(Drop)]
pub enum Answer<S: Scheme<D>, D: Digest> {
    /// To a vote from the network.
    Admitted(Admission<S, D>),
    /// To an own vote: its report, where it is new.
    Cast(Option<Activity<S, D>>),
    /// To a certificate: whether it is a notarization that selects a new proposal.
    Recorded(bool),
    /// The leader is named.
    Led,
    /// To a construction: what came of it, where one was due.
    Constructed(Option<Batch<Certificate<S, D>>>),
    /// The proposal to forward, where there is one.
    Forward(Option<Proposal<D>>),
    /// To a question that is answered by yes or no.
    Is(bool),
    /// These members.
    Members(Vec<Participant>),
    /// The call was refused.
    Refused(BatcherFault),
}
