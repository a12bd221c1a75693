//! Whose record it is.

use types_core::{Epoch, Participant, TermLength};

/// The member that a record is of, and what its committee goes by.
#[derive(Clone, Copy, Debug, PartialEq, Eq)]
pub struct Owner {
    /// The epoch that all artifacts are of.
    pub epoch: Epoch,
    /// How many views a term has.
    pub term_length: TermLength,
    /// The index of the member that signs the record's votes.
    pub signer: Participant,
}
