//! What a node hands out.

use crate::event::Channel;
use crate::refusal::Refusal;
use simplex_messages::Activity;
use types_core::{Context, Digest, Participant, Proposal, Scheme};
use types_terms::Plan;

/// What a node hands out.
#[derive(Drop)]
pub enum Action<S: Scheme<D>, D: Digest> {
    /// A packet for one member, or for all.
    Send {
        /// The member, or none for all.
        to: Option<Participant>,
        /// What it carries.
        channel: Channel,
        /// Its bytes.
        bytes: Vec<u8>,
    },
    /// A member that has lied.
    Block(Participant),
    /// A payload is asked for.
    Build {
        /// The number of the request.
        number: u64,
        /// Whether it is for a handoff.
        handoff: bool,
        /// What is to be built on.
        context: Context<D, S::PublicKey>,
    },
    /// A proposal is to be checked.
    Verify {
        /// The number of the request.
        number: u64,
        /// What it was built on.
        context: Context<D, S::PublicKey>,
        /// The proposal.
        proposal: Proposal<D>,
    },
    /// A verdict is asked for.
    Certify(Proposal<D>),
    /// A payload is to be handed on.
    Forward {
        /// The payload.
        payload: D,
        /// To whom.
        plan: Plan<Participant>,
    },
    /// A proposal is final.
    Finalized(Proposal<D>),
    /// What was taken or done.
    Report(Activity<S, D>),
    /// The moment at which the node wants to be told the time.
    Wake(u64),
}

/// What a step answers.
#[derive(Drop)]
pub struct Reply<S: Scheme<D>, D: Digest> {
    /// Why the event was refused, if it was.
    pub refused: Option<Refusal>,
    /// What is to be done.
    pub actions: Vec<Action<S, D>>,
}
