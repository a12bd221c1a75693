//! Orders of members.

ghost use Rattle.std.specs.Prelude.{◌≡◌, IfOk, map};
ghost use Rattle.types_terms.specs.Rotation.{indices};
ghost use Rattle.types_terms.specs.Shuffle.{lot, IsShuffled};

use sha2::{Digest as _, Sha256};
use std::alloc::{AllocError, Global};
use types_core::Participant;

/// The members by ascending index.
pub(crate) fn ascending(alloc: Global, participants: u32) -> Result<Vec<Participant>, AllocError>
    ensures { IfOk result (λ order. order.items ≡ indices participants) }
{
    (0..participants).map(Participant::new).collect(alloc)
}

/// The members by the hash of the seed and the index, then the index.
pub(crate) fn shuffled(
    alloc: Global,
    seed: &[u8],
    participants: u32,
) -> Result<Vec<Participant>, AllocError>
    ensures { IfOk result (λ order. IsShuffled seed.now participants order.items) }
{
    let mut lots = lots(alloc, seed, participants)?;
    lots.sort_unstable();
    members(alloc, &lots)
}

/// The index of each member behind its lot.
fn lots(alloc: Global, seed: &[u8], participants: u32) -> Result<Vec<([u8; 32], u32)>, AllocError>
    ensures { IfOk result (λ lots. lots.items ≡ map (λ i. (lot seed.now i, i)) (indices participants)) }
{
    (0..participants)
        .map(|index| (lot(seed, index), index))
        .collect(alloc)
}

/// What the index is ordered by.
fn lot(seed: &[u8], index: u32) -> [u8; 32]
    ensures { result ≡ lot seed.now index }
{
    let mut hasher = Sha256::new();
    hasher.update(seed);
    hasher.update(index.to_be_bytes());
    hasher.finalize()
}

/// The members at these indices.
fn members(alloc: Global, lots: &[([u8; 32], u32)]) -> Result<Vec<Participant>, AllocError>
    ensures { IfOk result (λ members. members.items ≡ map (λ x. x.1) lots.now) }
{
    lots.iter()
        .map(|(_, index)| Participant::new(*index))
        .collect(alloc)
}
