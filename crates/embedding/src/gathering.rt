//! The votes of a round.

use simplex_batcher::{BatcherFault, Round as Votes};
use simplex_messages::{Certificate, Vote};
use simplex_types::{Participant, PlainScheme, Sha256Digest};
use std::alloc::{AllocError, Global};

/// The votes of one round.
pub(crate) type Gathered = Votes<PlainScheme, Sha256Digest>;

/// A certificate of any kind.
pub(crate) type Certified = Certificate<PlainScheme, Sha256Digest>;

/// Takes what a sender sent: whether the sender is to be cut off.
pub(crate) fn hand_in(
    votes: &mut Gathered,
    sender: Participant,
    vote: Vote<PlainScheme, Sha256Digest>,
) -> Result<bool, BatcherFault> {
    let answer = votes.add_network(sender, vote)?;
    // What is in `answer.report`, the vote or evidence against its sender, is written down for an audit here.
    Ok(answer.block)
}

/// The next certificate that the votes make, if there is one. A look at one kind may only find out whose votes don't attest;
/// behind three looks each kind with a quorum has its certificate.
pub(crate) fn next_certificate(
    alloc: Global,
    votes: &mut Gathered,
) -> Result<Option<Certified>, AllocError> {
    for _ in 0..3 {
        let Some(batch) = votes.try_construct(alloc)? else {
            return Ok(None);
        };
        if batch.certificate.is_some() {
            return Ok(batch.certificate);
        }
    }
    Ok(None)
}
