//! What the member of a script starts from.

use messages_certificates::Finalization;
use std::alloc::Global;
use test_messages::CertificateWords;
use test_words::{Committee, Trouble, Words};
use types_core::Sha256Digest;
use voter_rules::Floor;

/// `genesis PAYLOAD`, `finalization CERTIFICATE`, or `spelled BYTES` for one that is spelled, whoever signed it: to the line's end, in a
/// committee of so many.
pub(crate) fn read_floor<S: Committee>(
    alloc: Global,
    words: &mut Words<'_>,
    members: u32,
) -> Result<Floor<S, Sha256Digest>, Trouble> {
    let floor = match words.word() {
        "genesis" => Floor::Genesis(words.payload()?),
        "finalization" => {
            let finalization: Finalization<S, Sha256Digest> = words.finalization::<S>(
                alloc, members,
            )?;
            Floor::Finalized(finalization)
        }
        "spelled" => {
            let finalization: Finalization<S, Sha256Digest> = words.value(alloc, members)?;
            Floor::Finalized(finalization)
        }
        _ => return Err(Trouble::Unreadable),
    };
    words.end()?;
    Ok(floor)
}
