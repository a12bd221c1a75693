//! What a voter asks for, to judge the proposals of others.

use simplex_resolver::Kind;
use types_core::{Context, Digest, Proposal, PublicKey, View};

/// What a voter asks for, to judge the proposals of others.
#[derive(Clone, Copy, Debug)]
pub enum Verify<D: Digest, P: PublicKey> {
    /// The application is to verify this proposal, in this context.
    Ready(Context<D, P>, Proposal<D>),
    /// A certificate is missing, without which a proposal can't be verified.
    Resolve {
        /// The view of the proposal.
        proposal: View,
        /// The view whose certificate is missing.
        view: View,
        /// The kind of that certificate.
        kind: Kind,
        /// The leader of the proposal's view, who has it.
        target: P,
    },
    /// Nothing is to be asked for.
    Wait,
}
