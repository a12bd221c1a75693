//! What a voter finds that is to be asked for.

use simplex_resolver::Kind;
use types_core::{Digest, Proposal, View};

/// What is to be asked for a view's proposal.
#[derive(Clone, Copy)]
pub(crate) enum Wanted<D: Digest> {
    /// The verification of this proposal over this payload of its parent.
    Verification(Proposal<D>, D),
    /// The certificate of this kind and view.
    Certificate(Kind, View),
}
