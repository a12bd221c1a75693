//! For which reasons a sender is blocked.

ghost use Rattle.std.specs.Prelude.{◌≡◌};
ghost use Rattle.simplex_member.specs.Refusals.{blocks_sender};

use simplex_member::Refusal;

/// Whether the sender is blocked for this reason.
pub const fn blocks(refusal: Refusal) -> bool
    ensures { result ≡ blocks_sender refusal }
{
    matches!(
        refusal,
        Refusal::NotDecoded
            | Refusal::ParentNotBelow
            | Refusal::NotItsSigner
            | Refusal::Contradiction
            | Refusal::NotVerifying
    )
}
