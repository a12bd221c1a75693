//! Votes of any kind, evidence and reports. What stands in `messages_certificates` is passed on.
#![tactic(auto)]

mod activity;
mod attributable_map;
mod conflicting_votes;
mod laws;
mod nullify_finalize;
mod verifying_batches;
mod vote;

pub use activity::Activity;
pub use attributable_map::{AttributableMap, AttributableMapIter};
pub use conflicting_votes::{ConflictingFinalize, ConflictingNotarize, ConflictingVotes};
pub use laws::{equal_messages_are_one, equal_reports_are_one};
pub use messages_certificates::{
    Artifact, Attested, Certificate, Finalization, Finalize, Finalizing, Notarization, Notarize,
    Notarizing, Nullification, Nullify, ProposalCertificate, ProposalKind, ProposalVote,
};
pub use nullify_finalize::NullifyFinalize;
pub use verifying_batches::verify_certificates;
pub use vote::Vote;
