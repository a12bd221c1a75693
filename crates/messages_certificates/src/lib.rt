//! Votes of one kind, certificates, and what a record holds.
#![tactic(auto)]

mod artifact;
mod assembly;
mod attested;
mod certificate;
mod kind;
mod nullification;
mod nullify;
mod proposal_certificate;
mod proposal_vote;

pub use artifact::Artifact;
pub use attested::Attested;
pub use certificate::Certificate;
pub use kind::{Finalizing, Notarizing, ProposalKind};
pub use nullification::Nullification;
pub use nullify::Nullify;
pub use proposal_certificate::{Finalization, Notarization, ProposalCertificate};
pub use proposal_vote::{Finalize, Notarize, ProposalVote};
