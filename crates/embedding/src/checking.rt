//! The checker of records.

use crate::recording::Item;
use simplex_node::{Owner, first_refused};
use simplex_types::{Epoch, Participant, PlainScheme, TermLength};
use std::alloc::{AllocError, Global};

/// The first place at which these artifacts break a rule as the record of this member in epoch 0, where each view has a
/// leader of its own.
pub(crate) fn first_breach(
    alloc: Global,
    scheme: &PlainScheme,
    signer: Participant,
    artifacts: &[Item],
) -> Result<Option<usize>, AllocError> {
    let owner = Owner {
        epoch: Epoch::new(0),
        term_length: TermLength::ONE,
        signer,
    };
    first_refused(alloc, scheme, owner, artifacts)
}
