//! What a vote or a certificate of any kind is for.

ghost use Rattle.std.specs.Prelude.{◌≡◌, None, if◌then◌else◌};
ghost use Rattle.types_core.specs.Subject.{statement};
ghost use Rattle.messages_certificates.specs.Certificate.{certificate_statement, certified_by};
ghost use Rattle.batcher_verifier.specs.Votes.{vote_statement, certificate_kind, certificate_proposal, fixed_proposal};

use simplex_messages::{Certificate, Finalization, Notarization, Nullification, Vote};
use types_core::{Digest, Proposal, Scheme, Subject};
use types_terms::Kind;

/// What a vote states.
pub(crate) fn subject_of<'a, S: Scheme<D>, D: Digest>(vote: &'a Vote<S, D>) -> Subject<'a, D>
    ensures { statement result ≡ vote_statement vote.now }
{
    match vote {
        Vote::Notarize(vote) => Subject::Notarize(&vote.proposal),
        Vote::Nullify(vote) => Subject::Nullify(vote.round),
        Vote::Finalize(vote) => Subject::Finalize(&vote.proposal),
    }
}

/// The proposal that a vote fixes: that of a finalize, if it is this member's own.
pub(crate) fn fixed_by<S: Scheme<D>, D: Digest>(vote: &Vote<S, D>, own: bool) -> Option<Proposal<D>>
    ensures { result ≡ (if own then fixed_proposal vote.now else None) }
{
    if !own {
        return None;
    }
    match vote {
        Vote::Notarize(_) => None,
        Vote::Nullify(_) => None,
        Vote::Finalize(vote) => Some(vote.proposal),
    }
}

/// The kind of a certificate.
pub fn kind_of_certificate<S: Scheme<D>, D: Digest>(certificate: &Certificate<S, D>) -> Kind
    ensures { result ≡ certificate_kind certificate.now }
{
    match certificate {
        Certificate::Notarization(_) => Kind::Notarization,
        Certificate::Nullification(_) => Kind::Nullification,
        Certificate::Finalization(_) => Kind::Finalization,
    }
}

/// The proposal that a certificate is for.
pub(crate) fn proposal_of_certificate<S: Scheme<D>, D: Digest>(
    certificate: &Certificate<S, D>,
) -> Option<Proposal<D>>
    ensures { result ≡ certificate_proposal certificate.now }
{
    match certificate {
        Certificate::Notarization(certificate) => Some(certificate.proposal),
        Certificate::Nullification(_) => None,
        Certificate::Finalization(certificate) => Some(certificate.proposal),
    }
}

/// The certificate of the subject.
pub(crate) fn certificate_on<S: Scheme<D>, D: Digest>(
    subject: &Subject<'_, D>,
    certificate: S::Certificate,
) -> Certificate<S, D>
    ensures states { certificate_statement result ≡ statement subject.now }
    ensures made { certified_by result ≡ certificate }
{
    match subject {
        Subject::Notarize(proposal) => {
            Certificate::Notarization(Notarization::new(**proposal, certificate))
        }
        Subject::Nullify(round) => Certificate::Nullification(Nullification {
            round: *round,
            certificate,
        }),
        Subject::Finalize(proposal) => {
            Certificate::Finalization(Finalization::new(**proposal, certificate))
        }
    }
}
