//! What a vote or a certificate of any kind is for.

ghost use Rattle.std.specs.Prelude.{◌≡◌};
ghost use Rattle.messages_certificates.specs.Certificate.{certificate_round};
ghost use Rattle.batcher_verifier.specs.Votes.{notarized_proposal};
ghost use Rattle.std.specs.Option.{option_and_then, option_copied};
ghost use Rattle.simplex_batcher.specs.Queries.{is_nullify, is_backing};

use simplex_messages::{Certificate, Vote};
use types_core::{Digest, Proposal, Round, Scheme};

/// The proposal of a notarize, if there is one.
pub(crate) fn notarized_in<S: Scheme<D>, D: Digest>(
    vote: Option<&Vote<S, D>>,
) -> Option<Proposal<D>>
    ensures { result ≡ option_and_then notarized_proposal (option_copied vote.entry) }
{
    match vote {
        Some(Vote::Notarize(vote)) => Some(vote.proposal),
        Some(Vote::Nullify(_)) => None,
        Some(Vote::Finalize(_)) => None,
        None => None,
    }
}

/// Whether the vote is a nullify.
pub(crate) fn is_nullify<S: Scheme<D>, D: Digest>(vote: &Vote<S, D>) -> bool
    ensures { result ≡ is_nullify vote.now }
{
    match vote {
        Vote::Notarize(_) => false,
        Vote::Nullify(_) => true,
        Vote::Finalize(_) => false,
    }
}

/// Whether the vote is a notarize or a finalize for this proposal.
pub(crate) fn is_backing<S: Scheme<D>, D: Digest>(vote: &Vote<S, D>, proposal: &Proposal<D>) -> bool
    ensures { result ≡ is_backing D.PartialEq.eq proposal.now vote.now }
{
    match vote {
        Vote::Notarize(vote) => vote.proposal == *proposal,
        Vote::Nullify(_) => false,
        Vote::Finalize(vote) => vote.proposal == *proposal,
    }
}

/// The round that a certificate is of.
pub(crate) fn round_of_certificate<S: Scheme<D>, D: Digest>(
    certificate: &Certificate<S, D>,
) -> Round
    ensures { result ≡ certificate_round certificate.now }
{
    match certificate {
        Certificate::Notarization(certificate) => certificate.proposal.round,
        Certificate::Nullification(certificate) => certificate.round,
        Certificate::Finalization(certificate) => certificate.proposal.round,
    }
}
