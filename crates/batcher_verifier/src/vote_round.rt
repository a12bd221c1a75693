//! The round that a vote of any kind is of.

ghost use Rattle.std.specs.Prelude.{◌≡◌};
ghost use Rattle.simplex_messages.specs.VoteParts.{vote_round};

use simplex_messages::Vote;
use types_core::{Digest, Round, Scheme};

/// The round that a vote is of.
pub fn round_of<S: Scheme<D>, D: Digest>(vote: &Vote<S, D>) -> Round
    ensures { result ≡ vote_round vote.now }
{
    match vote {
        Vote::Notarize(vote) => vote.proposal.round,
        Vote::Nullify(vote) => vote.round,
        Vote::Finalize(vote) => vote.proposal.round,
    }
}
