//! The attestations of votes, certificates and evidence.

ghost use Rattle.std.specs.Prelude.{◌≡◌, ◌++◌, ◌<◌, ◌^◌, OnOk};
ghost use Rattle.cli_attestations.specs.Marks.{activity_marks, artifact_marks, beside_marks, certificate_marks, nullification_marks, nullify_marks, proposal_certificate_marks, two_marks, vote_marks, proposal_vote_marks};

use crate::listing::{Mark, push_listed};
use simplex_messages::{
    Activity, Artifact, Certificate, Nullification, Nullify, NullifyFinalize, ProposalCertificate,
    ProposalKind, ProposalVote, Vote,
};
use simplex_types::PlainScheme;
use std::alloc::{AllocError, Global};
use types_codec::varint_size;
use types_core::{EncodeSize, Sha256Digest};

/// Ends the marks with that of a vote on a proposal that stands behind so many bytes.
fn push_vote<K: ProposalKind<Sha256Digest>>(
    alloc: Global,
    marks: &mut Vec<Mark>,
    before: u64,
    vote: &ProposalVote<K, PlainScheme, Sha256Digest>,
) -> Result<(), AllocError>
    requires { before < 2 ^ 32 }
    ensures { OnOk result (marks.new.items ≡ marks.old.items ++ proposal_vote_marks before vote.now) }
{
    let start = before + vote.proposal.encode_size() as u64;
    push_listed(alloc, marks, start, &[vote.attestation])
}

/// The same of a vote to give a round up.
fn push_nullify(
    alloc: Global,
    marks: &mut Vec<Mark>,
    before: u64,
    vote: &Nullify<PlainScheme, Sha256Digest>,
) -> Result<(), AllocError>
    requires { before < 2 ^ 32 }
    ensures { OnOk result (marks.new.items ≡ marks.old.items ++ nullify_marks before vote.now) }
{
    let start = before + vote.round.encode_size() as u64;
    push_listed(alloc, marks, start, &[vote.attestation])
}

/// Ends the marks with those of a certificate for a proposal, behind a tag.
fn push_certificate<K: ProposalKind<Sha256Digest>>(
    alloc: Global,
    marks: &mut Vec<Mark>,
    certificate: &ProposalCertificate<K, PlainScheme, Sha256Digest>,
) -> Result<(), AllocError>
    ensures { OnOk result (marks.new.items ≡ marks.old.items ++ proposal_certificate_marks certificate.now) }
{
    let listed = certificate.certificate.attestations();
    let counted = varint_size(listed.len() as u64) as u64;
    let start = 1 + certificate.proposal.encode_size() as u64 + counted;
    push_listed(alloc, marks, start, listed)
}

/// The same of a certificate that a round is given up.
fn push_nullification(
    alloc: Global,
    marks: &mut Vec<Mark>,
    certificate: &Nullification<PlainScheme, Sha256Digest>,
) -> Result<(), AllocError>
    ensures { OnOk result (marks.new.items ≡ marks.old.items ++ nullification_marks certificate.now) }
{
    let listed = certificate.certificate.attestations();
    let counted = varint_size(listed.len() as u64) as u64;
    let start = 1 + certificate.round.encode_size() as u64 + counted;
    push_listed(alloc, marks, start, listed)
}

/// Ends the marks with those of evidence of two votes for proposals, behind a tag.
fn push_two<K: ProposalKind<Sha256Digest>>(
    alloc: Global,
    marks: &mut Vec<Mark>,
    first: &ProposalVote<K, PlainScheme, Sha256Digest>,
    second: &ProposalVote<K, PlainScheme, Sha256Digest>,
) -> Result<(), AllocError>
    ensures { OnOk result (marks.new.items ≡ marks.old.items ++ two_marks first.now second.now) }
{
    push_vote(alloc, marks, 1, first)?;
    push_vote(alloc, marks, 1 + first.encode_size() as u64, second)
}

/// The same of evidence of a nullify beside a finalize.
fn push_beside(
    alloc: Global,
    marks: &mut Vec<Mark>,
    evidence: &NullifyFinalize<PlainScheme, Sha256Digest>,
) -> Result<(), AllocError>
    ensures { OnOk result (marks.new.items ≡ marks.old.items ++ beside_marks evidence.now.0 evidence.now.1) }
{
    let nullify = evidence.nullify();
    push_nullify(alloc, marks, 1, nullify)?;
    let before = 1 + nullify.encode_size() as u64;
    push_vote(alloc, marks, before, evidence.finalize())
}

/// Ends the marks with that of a vote of any kind.
pub(crate) fn mark_vote(
    alloc: Global,
    marks: &mut Vec<Mark>,
    vote: &Vote<PlainScheme, Sha256Digest>,
) -> Result<(), AllocError>
    ensures { OnOk result (marks.new.items ≡ marks.old.items ++ vote_marks vote.now) }
{
    match vote {
        Vote::Notarize(vote) => push_vote(alloc, marks, 1, vote),
        Vote::Nullify(vote) => push_nullify(alloc, marks, 1, vote),
        Vote::Finalize(vote) => push_vote(alloc, marks, 1, vote),
    }
}

/// Ends the marks with those of a certificate of any kind.
pub(crate) fn mark_certificate(
    alloc: Global,
    marks: &mut Vec<Mark>,
    certificate: &Certificate<PlainScheme, Sha256Digest>,
) -> Result<(), AllocError>
    ensures { OnOk result (marks.new.items ≡ marks.old.items ++ certificate_marks certificate.now) }
{
    match certificate {
        Certificate::Notarization(certificate) => push_certificate(alloc, marks, certificate),
        Certificate::Nullification(certificate) => push_nullification(alloc, marks, certificate),
        Certificate::Finalization(certificate) => push_certificate(alloc, marks, certificate),
    }
}

/// Ends the marks with those of an artifact of a record.
pub(crate) fn mark_artifact(
    alloc: Global,
    marks: &mut Vec<Mark>,
    artifact: &Artifact<PlainScheme, Sha256Digest>,
) -> Result<(), AllocError>
    ensures { OnOk result (marks.new.items ≡ marks.old.items ++ artifact_marks artifact.now) }
{
    match artifact {
        Artifact::Notarize(vote) => push_vote(alloc, marks, 1, vote),
        Artifact::Notarization(certificate) => push_certificate(alloc, marks, certificate),
        Artifact::Certification(..) => Ok(()),
        Artifact::Nullify(vote) => push_nullify(alloc, marks, 1, vote),
        Artifact::Nullification(certificate) => push_nullification(alloc, marks, certificate),
        Artifact::Finalize(vote) => push_vote(alloc, marks, 1, vote),
        Artifact::Finalization(certificate) => push_certificate(alloc, marks, certificate),
    }
}

/// Ends the marks with those of a report.
pub(crate) fn mark_activity(
    alloc: Global,
    marks: &mut Vec<Mark>,
    report: &Activity<PlainScheme, Sha256Digest>,
) -> Result<(), AllocError>
    ensures { OnOk result (marks.new.items ≡ marks.old.items ++ activity_marks report.now) }
{
    match report {
        Activity::Notarize(vote) => push_vote(alloc, marks, 1, vote),
        Activity::Notarization(certificate) => push_certificate(alloc, marks, certificate),
        Activity::Certification(certificate) => push_certificate(alloc, marks, certificate),
        Activity::Nullify(vote) => push_nullify(alloc, marks, 1, vote),
        Activity::Nullification(certificate) => push_nullification(alloc, marks, certificate),
        Activity::Finalize(vote) => push_vote(alloc, marks, 1, vote),
        Activity::Finalization(certificate) => push_certificate(alloc, marks, certificate),
        Activity::ConflictingNotarize(it) => push_two(alloc, marks, it.first(), it.second()),
        Activity::ConflictingFinalize(it) => push_two(alloc, marks, it.first(), it.second()),
        Activity::NullifyFinalize(it) => push_beside(alloc, marks, it),
    }
}
