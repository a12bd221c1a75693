//! Positions, values as bytes, proposals, what is signed, and signing schemes: what every layer of the node stands on, passed on from
//! `types_core`. Its own are the schemes whose certificates list their attestations: what makes one of whoever signs, the plain and the
//! salted one. No layer names these: each is generic over a scheme.
#![tactic(auto)]

mod attestation_list;
mod attesting;
mod hashing;
mod listed;
mod plain;
mod salted;
mod signature;
mod signing;

pub use attestation_list::AttestationList;
pub use attesting::{Attesting, failing_signers, list_of_quorum, lists_quorum};
pub use hashing::hash_signed;
pub use listed::Listed;
pub use plain::{Plain, PlainKey, PlainScheme, PlainSignature};
pub use salted::{Salted, SaltedScheme, SaltedSignature, signatures_of_two_counters_differ};
pub use signature::Signature64;
pub use signing::Signing;
pub use types_core::{
    Aggregate, AssemblyError, Attestation, Attributable, CodecError, Context, Digest, Duplicate,
    EncodeSize, Epoch, Epochable, Listing, MaxEncodeSize, Namespace, Participant, Proposal,
    PublicKey, Read, Round, Scheme, Sha256Digest, Signature, Subject, TermLength, View, ViewDelta,
    Viewable, Write, are_of_distinct_members, decode_cfg, equal_contexts_are_one, faults,
    numbers_have_one_spelling, proposals_are_ordered, quorum, signed_bytes_name_one_subject,
    two_quorums_share_members,
};
