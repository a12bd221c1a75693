//! Positions, proposals, what is signed, and what a signing scheme promises: what every layer of the node stands on.
#![tactic(auto)]

mod attestation;
mod attributes;
mod context;
mod digest;
mod duplicate;
mod key;
mod membership;
mod position;
mod proposal;
mod scheme;
mod spelling;
mod subject;

pub use attestation::{Attestation, Signature};
pub use attributes::{Attributable, Epochable, Viewable};
pub use context::{Context, equal_contexts_are_one};
pub use digest::{Digest, Sha256Digest};
pub use duplicate::Duplicate;
pub use key::PublicKey;
pub use membership::are_of_distinct_members;
pub use position::{Epoch, Participant, Round, TermLength, View, ViewDelta};
pub use proposal::{Proposal, proposals_are_ordered};
pub use scheme::{Aggregate, AssemblyError, Listing, Scheme};
pub use subject::{Namespace, Subject, signed_bytes_name_one_subject};
pub use types_codec::{
    CodecError, EncodeSize, MaxEncodeSize, Read, Write, decode_cfg, numbers_have_one_spelling,
};
pub use types_quorum::{faults, quorum, two_quorums_share_members};
