//! Votes once more: they own no memory.

ghost use Rattle.std.specs.Prelude.{◌≡◌};

use simplex_messages::{Nullify, ProposalKind, ProposalVote, Vote};
use types_core::{Digest, Scheme};

/// The same vote on a proposal again.
pub(crate) fn again<K: ProposalKind<D>, S: Scheme<D>, D: Digest>(
    vote: &ProposalVote<K, S, D>,
) -> ProposalVote<K, S, D>
    ensures { result ≡ vote.now }
{
    ProposalVote::new(vote.proposal, vote.attestation)
}

/// The same nullify again.
pub(crate) fn nullify_again<S: Scheme<D>, D: Digest>(vote: &Nullify<S, D>) -> Nullify<S, D>
    ensures { result ≡ vote.now }
{
    Nullify {
        round: vote.round,
        attestation: vote.attestation,
    }
}

/// The same vote again: it owns no memory.
pub fn copied<S: Scheme<D>, D: Digest>(vote: &Vote<S, D>) -> Vote<S, D>
    ensures { result ≡ vote.now }
{
    match vote {
        Vote::Notarize(vote) => Vote::Notarize(again(vote)),
        Vote::Nullify(vote) => Vote::Nullify(nullify_again(vote)),
        Vote::Finalize(vote) => Vote::Finalize(again(vote)),
    }
}
