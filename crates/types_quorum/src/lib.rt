//! How many members of a committee may lie, and how many are a quorum.
#![tactic(auto)]

mod committee;

pub use committee::{faults, quorum, two_quorums_share_members};
