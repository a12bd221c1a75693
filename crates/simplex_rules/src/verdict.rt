//! What an audit found.

use simplex_messages::Activity;
use types_core::{Digest, Scheme};

/// What an audit found.
#[derive(Drop)]
pub struct Audit<S: Scheme<D>, D: Digest> {
    /// Evidence against the guilty, sorted by epoch, view, signer and kind: two notarizes, two finalizes,
    /// a nullify beside a finalize. Each is there once for a signer and a round.
    pub evidence: Vec<Activity<S, D>>,
    /// The place of the first byte at which no whole report stands, if there is one.
    pub fault: Option<usize>,
}
