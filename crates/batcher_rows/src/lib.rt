//! The votes of one round, in a row for each signer, and how many of each kind count.
#![tactic(auto)]

mod rows;
mod vote_kinds;

pub use rows::{Rows, Tally};
pub use vote_kinds::{attestation_of, is_for, kind_of};
