//! The audit.

use simplex_messages::Activity;
use simplex_rules::{Audit, audit};
use simplex_types::{Attributable, Participant, PlainScheme, Sha256Digest};
use std::alloc::{AllocError, Global};

/// The members that the reports convict, by epoch, view, member and kind of guilt, and the place of the first byte at which
/// no report stands, if there is one.
pub(crate) fn guilty(
    alloc: Global,
    scheme: &PlainScheme,
    reports: &[u8],
) -> Result<(Vec<Participant>, Option<usize>), AllocError> {
    let found: Audit<PlainScheme, Sha256Digest> = audit(alloc, scheme, reports)?;
    let mut guilty = Vec::new(alloc);
    for evidence in &found.evidence {
        if let Some(signer) = convicted(evidence) {
            guilty.push(signer)?;
        }
    }
    Ok((guilty, found.fault))
}

/// Whom the evidence convicts. An audit answers no report of another kind.
fn convicted(evidence: &Activity<PlainScheme, Sha256Digest>) -> Option<Participant> {
    match evidence {
        Activity::ConflictingNotarize(votes) => Some(votes.signer()),
        Activity::ConflictingFinalize(votes) => Some(votes.signer()),
        Activity::NullifyFinalize(votes) => Some(votes.signer()),
        _ => None,
    }
}
