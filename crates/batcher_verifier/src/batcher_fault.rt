//! What a round refuses.

ghost use Rattle.std.specs.Prelude.{◌≡◌};
ghost use Rattle.batcher_verifier.specs.declared.batcher_fault.BatcherFault.TheVariants.{Memory};

use std::alloc::AllocError;

/// Why a call on a round was refused. After all but `Memory` nothing is changed, and after `Memory` the call counts as
/// not made.
#[derive(Clone, Copy, Debug, PartialEq, Eq)]
pub enum BatcherFault {
    /// The vote or certificate is of another round.
    WrongRound,
    /// Another leader was named.
    OtherLeader,
    /// An own vote contradicts a recorded one.
    Contradicts,
    /// Memory ran out.
    Memory,
}

impl From<AllocError> for BatcherFault {
    ghost from_gives = { λ _ e. e ≡ Memory };

    fn from(_error: AllocError) -> BatcherFault {
        BatcherFault::Memory
    }
}
