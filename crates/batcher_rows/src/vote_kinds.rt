//! What a vote of any kind is for.

ghost use Rattle.std.specs.Prelude.{◌≡◌, Some};
ghost use Rattle.batcher_rows.specs.Votes.{vote_kind, vote_attestation, is_candidate, is_in_way, is_notarize_of, is_other_of};

use simplex_messages::Vote;
use types_core::{Attestation, Digest, Participant, Proposal, Scheme};
use types_terms::Kind;

/// The kind of certificate that a vote counts for.
pub fn kind_of<S: Scheme<D>, D: Digest>(vote: &Vote<S, D>) -> Kind
    ensures { result ≡ vote_kind vote.now }
{
    match vote {
        Vote::Notarize(_) => Kind::Notarization,
        Vote::Nullify(_) => Kind::Nullification,
        Vote::Finalize(_) => Kind::Finalization,
    }
}

/// The attestation of a vote.
pub fn attestation_of<S: Scheme<D>, D: Digest>(vote: &Vote<S, D>) -> Attestation<S::Signature>
    ensures { result ≡ vote_attestation vote.now }
{
    match vote {
        Vote::Notarize(vote) => vote.attestation,
        Vote::Nullify(vote) => vote.attestation,
        Vote::Finalize(vote) => vote.attestation,
    }
}

/// Whether the other, an accepted vote, stands in the way of the vote: of its signer, and of its kind or, of nullify and
/// finalize, of either.
pub(crate) fn is_in_way<S: Scheme<D>, D: Digest>(vote: &Vote<S, D>, other: &Vote<S, D>) -> bool
    ensures { result ≡ is_in_way vote.now other.now }
{
    match vote {
        Vote::Notarize(vote) => is_notarize_of(other, vote.attestation.signer),
        Vote::Nullify(vote) => is_other_of(other, vote.attestation.signer),
        Vote::Finalize(vote) => is_other_of(other, vote.attestation.signer),
    }
}

/// Whether the vote is a notarize of this signer.
fn is_notarize_of<S: Scheme<D>, D: Digest>(vote: &Vote<S, D>, signer: Participant) -> bool
    ensures { result ≡ is_notarize_of signer vote.now }
{
    match vote {
        Vote::Notarize(vote) => vote.attestation.signer == signer,
        Vote::Nullify(_) | Vote::Finalize(_) => false,
    }
}

/// Whether the vote is a nullify or a finalize of this signer.
fn is_other_of<S: Scheme<D>, D: Digest>(vote: &Vote<S, D>, signer: Participant) -> bool
    ensures { result ≡ is_other_of signer vote.now }
{
    match vote {
        Vote::Notarize(_) => false,
        Vote::Nullify(vote) => vote.attestation.signer == signer,
        Vote::Finalize(vote) => vote.attestation.signer == signer,
    }
}

/// Whether the vote is a nullify, or for this proposal.
pub fn is_for<S: Scheme<D>, D: Digest>(vote: &Vote<S, D>, proposal: &Proposal<D>) -> bool
    ensures { result ≡ is_candidate D.PartialEq.eq (Some proposal.now) vote.now }
{
    match vote {
        Vote::Notarize(vote) => vote.proposal == *proposal,
        Vote::Nullify(_) => true,
        Vote::Finalize(vote) => vote.proposal == *proposal,
    }
}
