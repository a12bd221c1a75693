//! What is due of the votes of a view.

use simplex_batcher::Batch;
use simplex_messages::Certificate;
use types_core::{Digest, Proposal, Scheme};

/// What was due of the votes of a view, and is done.
#[derive(Drop)]
pub enum Due<S: Scheme<D>, D: Digest> {
    /// Their proposal goes to the voter, once.
    Forwards(Proposal<D>),
    /// A certificate was made, or votes were judged.
    Made(Batch<Certificate<S, D>>),
}
