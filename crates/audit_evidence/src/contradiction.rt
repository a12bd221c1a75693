//! Which two votes contradict each other.

ghost use Rattle.std.specs.Prelude.{◌≡◌, ◌↔◌, IfSome, IsSome};
ghost use Rattle.messages_certificates.specs.ProposalVote.{Contradict};

use simplex_messages::{ConflictingVotes, ProposalKind, ProposalVote};
use types_core::{Digest, Scheme};

/// The evidence of two votes, if they contradict each other: one signer and one round, two proposals. No vote
/// contradicts itself.
pub fn evidence_of<K: ProposalKind<D>, S: Scheme<D>, D: Digest>(
    first: ProposalVote<K, S, D>,
    second: ProposalVote<K, S, D>,
) -> Option<ConflictingVotes<K, S, D>>
    ensures exact { IsSome result ↔ Contradict first second }
    ensures evidence { IfSome result (λ both. both ≡ (first, second)) }
{
    if !first.contradicts(&second) {
        return None;
    }
    Some(ConflictingVotes::new(first, second))
}
